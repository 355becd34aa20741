//! Children as they are kept, and as they are answered.

ghost use Rattle.std.specs.Prelude.{◌≡◌, map, IfOk, IfErr, IfSome};
ghost use Rattle.adf_model.specs.declared.error.AdfError.{AdfError};
ghost use Rattle.kept_asks.specs.Named.{answered_child, kept_child};

use adf_format::texts::trimmed;
use adf_model::{AdfError, Child, Listing, NodeId};
use kept_names::Listed;
use node_reads::name_field;
use std::alloc::Global;

// A child of a file, by its name field and its serial.
fn child_of(alloc: Global, file: u32, entry: &([u8; 32], u64)) -> Result<Child, AdfError>
    ensures child { IfOk result (λ child. child ≡ answered_child file entry.now) }
    ensures memory { IfErr result (λ e. e ≡ AdfError.Memory) }
{
    match trimmed(&entry.0).to_vec(alloc) {
        Ok(name) => Ok(Child {
            node: NodeId {
                file,
                serial: entry.1,
            },
            name: Listing::new(name),
        }),
        Err(_) => Err(AdfError::Memory),
    }
}

/// The children of a list, as they are answered in a file.
pub(crate) fn answered(alloc: Global, file: u32, list: &Listed) -> Result<Vec<Child>, AdfError>
    ensures children { IfOk result (λ children.
        children.items ≡ map (answered_child file) list.now) }
    ensures memory { IfErr result (λ e. e ≡ AdfError.Memory) }
{
    let mut children = Vec::new(alloc);
    while let Some(entry) = list.get(children.len()) {
        let child = match child_of(alloc, file, &entry) {
            Ok(child) => child,
            Err(error) => return Err(error),
        };
        match children.push(child) {
            Ok(()) => {}
            Err(_) => return Err(AdfError::Memory),
        }
    }
    Ok(children)
}

/// The list of children that were answered: none where memory is wanting, where a name is too long, or where two are one.
pub(crate) fn listed(alloc: Global, children: &[Child]) -> Option<Listed>
    ensures { IfSome result (λ list. list ≡ map kept_child children.now) }
{
    let mut list = Listed::new(alloc);
    for child in children {
        let name = child.name.items();
        if name.len() > 32 {
            return None;
        }
        if !list.add(name_field(name), child.node.serial) {
            return None;
        }
    }
    Some(list)
}
