//! The rows of nodes that are deleted.

ghost use Rattle.std.specs.Prelude.{◌≡◌, ◌<◌, length, OnOk};
ghost use Rattle.std.specs.List.{All};
ghost use Rattle.tree_deletes.specs.declared.doomed.Doomed.{Doomed};
ghost use Rattle.tree_deletes.specs.Erased.{without_rows, serials_of, ErasesOnly};

use crate::doomed::Doomed;
use std::alloc::AllocError;
use tree_edits::Rows;

/// The rows of some nodes become none. Where memory is wanting, some of them may have.
pub(crate) fn erase(rows: &mut Rows, nodes: &[Doomed]) -> Result<(), AllocError>
    requires drawn { All (λ (d : Doomed). d.serial < length rows.old.items) nodes.now }
    ensures gone { OnOk result (rows.new.items
        ≡ without_rows rows.old.items (serials_of nodes.now)) }
    ensures each { ErasesOnly rows.old.items rows.new.items }
    ensures kept { rows.new.kept ≡ rows.old.kept }
{
    for node in nodes {
        rows.set(node.serial, None)?;
    }
    Ok(())
}
