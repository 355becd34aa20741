//! Children that are read before an edit, so that no later one reads their table for a name.

ghost use Rattle.std.specs.Prelude.{◌≡◌, ◌&&◌, false, if◌then◌else◌, None, Some, IfErr};
ghost use Rattle.adf_format.specs.Names.{is_label, is_name};
ghost use Rattle.adf_tree.specs.Files.{IsWorking, state_of};
ghost use Rattle.adf_tree.specs.KeptLists.{IsReadStop, new_parent};
ghost use Rattle.adf_tree.specs.Headers.{Looks};
ghost use Rattle.adf_tree.specs.Reached.{with_reached};

use crate::edits::or_reached;
use crate::file::AdfFile;
use crate::hints::hints_of;
use adf_model::{AdfError, Edit, NodeId, is_label, is_name};
use cg_io::Device;
use kept_asks::know_children;

// A node, where its new child may have its name.
fn where_named(at: NodeId, named: bool) -> Option<NodeId>
    ensures { result ≡ (if named then Some at else None) }
{
    if named { Some(at) } else { None }
}

// Whether a node may have a name and a label.
fn are_texts(name: &[u8], label: &[u8]) -> bool
    ensures { result ≡ (is_name name.now && is_label label.now) }
{
    is_name(name) && is_label(label)
}

// The node that an edit gives a child, where the child may have its name and its label.
fn new_parent(edit: &Edit, there: Option<NodeId>) -> Option<NodeId>
    ensures { result ≡ new_parent (with_reached edit.now there) }
{
    match edit {
        Edit::Create {
            parent,
            name,
            label,
        } => where_named(
            or_reached(*parent, there),
            are_texts(name.items(), label.items()),
        ),
        Edit::Link { parent, name, .. } => {
            where_named(or_reached(*parent, there), is_name(name.items()))
        }
        _ => None,
    }
}

impl<D: Device> AdfFile<D> {
    /// Keeps the children of the node that an edit gives a child: its table is read whole where they are not kept.
    ///
    /// It is refused where a read fails that the edit too would need. Where memory is wanting nothing is kept.
    pub(crate) fn know_parent(&mut self, edit: &Edit, there: Option<NodeId>) -> Result<(), AdfError>
        requires sound { IsWorking D.state self.old }
        requires live { self.old.broken ≡ false }
        ensures sound { IsWorking D.state self.new }
        ensures looks { Looks (state_of D.state self.old) (state_of D.state self.new) }
        ensures refused { IfErr result (IsReadStop (with_reached edit.now there)
            (state_of D.state self.old) (state_of D.state self.new)) }
    {
        if !self.core.writable {
            return Ok(());
        }
        let at = match new_parent(edit, there) {
            Some(at) => at,
            None => return Ok(()),
        };
        let hints = match hints_of(self.alloc, &mut self.hints, &self.core.rows) {
            Ok(hints) => hints,
            Err(_) => return Ok(()),
        };
        let known = know_children(
            self.alloc,
            &mut self.draft,
            &self.core,
            &hints,
            &mut self.names,
            at,
        );
        self.hints = Some(hints);
        known
    }
}
