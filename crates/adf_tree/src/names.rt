//! The children that are kept, in step with the edits.

ghost use Rattle.std.specs.Prelude.{◌≡◌, ◌++◌, ◌∷◌, [], ℕ, List, Some};
ghost use Rattle.adf_format.specs.Fields.{text_field};
ghost use Rattle.adf_tree.specs.KeptLists.{FollowsEdit, above_in};
ghost use Rattle.adf_tree.specs.Reached.{with_reached};
ghost use Rattle.kept_names.specs.Kept.{Children, StaysTied, changed};

use crate::edits::or_reached;
use adf_model::{Edit, NodeId};
use kept_names::Names;
use node_reads::name_field;
use tree_edits::Rows;

/// The parent of a node that an edit renames or takes elsewhere.
pub(crate) fn above(rows: &Rows, edit: &Edit) -> Option<u64>
    ensures { result ≡ above_in rows.now.items edit.now }
{
    let node = match edit {
        Edit::Rename { node, .. } | Edit::Move { node, .. } => node,
        _ => return None,
    };
    match rows.get(node.serial) {
        Some(row) => row.parent,
        None => None,
    }
}

// A new child of a node.
fn follow_child(names: &mut Names, at: u64, name: &[u8], drawn: Option<u64>)
    ensures { (serial : ℕ) → drawn ≡ Some serial → StaysTied
        (λ now. changed now at (now at ++ (text_field 32 name.now, serial) ∷ []))
        names.old names.new }
{
    match drawn {
        Some(serial) if name.len() <= 32 => names.add(at, name_field(name), serial),
        _ => names.forget(at),
    }
}

// The list of a node is another.
fn drop_list(names: &mut Names, node: Option<u64>)
    ensures { (serial : ℕ) (list : List (List ℕ × ℕ)) → node ≡ Some serial → StaysTied
        (λ now. changed now serial list) names.old names.new }
{
    match node {
        Some(serial) => names.forget(serial),
        None => {}
    }
}

/// Keeps the lists in step with an edit that was done, of the node that was reached: `above` is the parent that its node had before,
/// and `drawn` the serial of the node that it made.
pub(crate) fn follow(
    names: &mut Names,
    edit: &Edit,
    there: Option<NodeId>,
    above: Option<u64>,
    drawn: Option<u64>,
)
    ensures { FollowsEdit (with_reached edit.now there) above drawn names.old names.new }
{
    match edit {
        Edit::Create { parent, name, .. } => {
            follow_child(
                names,
                or_reached(*parent, there).serial,
                name.items(),
                drawn,
            )
        }
        Edit::Link { parent, name, .. } => {
            follow_child(
                names,
                or_reached(*parent, there).serial,
                name.items(),
                drawn,
            )
        }
        Edit::Delete { .. } => names.clear(),
        Edit::Rename { .. } => drop_list(names, above),
        Edit::Move { parent, .. } => {
            drop_list(names, above);
            names.forget(or_reached(*parent, there).serial);
        }
        _ => {}
    }
}
