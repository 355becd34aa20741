//! A node is deleted with all below it.

ghost use Rattle.std.specs.Prelude.{◌≡◌, ℕ, ◌+◌, ◌^◌, ◌≤◌, IfErr, IfOk, IfSome, OnOk};
ghost use Rattle.std.specs.List.{All};
ghost use Rattle.adf_format.specs.Placement.{Placement};
ghost use Rattle.adf_format.specs.RecordFields.{node_length, table_length};
ghost use Rattle.adf_format.specs.Tree.{Tree};
ghost use Rattle.adf_model.specs.declared.tree.Edit.{Edit};
ghost use Rattle.cg_io.specs.Answers.{AnswersRead, AnswersWrite, OnlyReads};
ghost use Rattle.cg_io.specs.Blocks.{Both};
ghost use Rattle.tree_edits.specs.Edits.{Does, Refuses, KeepsCore, memory_of};
ghost use Rattle.tree_edits.specs.Rows.{AreNear, Means};
ghost use Rattle.tree_edits.specs.Waiting.{Reaches};
ghost use Rattle.tree_deletes.specs.Deleted.{IsDeletion, MayDelete, IsDeleteCause, DeletesWithin};
ghost use Rattle.tree_deletes.specs.Doomed.{IsSane};

use crate::doomed::Doomed;
use crate::erase::erase;
use crate::gifts::give_nodes;
use crate::subtree::list_subtree;
use adf_model::{AdfError, NodeId};
use cg_io::Space;
use std::alloc::Global;
use tree_asks::Hints;
use tree_edits::{Core, Listed, Row, find_listed, leave_list};

/// A node that is to be deleted: the row of its parent, where it is listed, and the nodes of its subtree.
#[derive(Drop)]
struct Deletion {
    above: Row,
    listed: Listed,
    nodes: Vec<Doomed>,
}

// What a node leaves, and what goes with it. It takes memory for one entry a node of the subtree.
fn find_deletion<S: Space>(
    alloc: Global,
    space: &mut S,
    core: &Core,
    hints: &Hints,
    node: NodeId,
) -> Result<Deletion, AdfError>
    requires sound { S.is_sound space.old }
    requires near { AreNear core.now.wide core.now.rows.items }
    ensures deletion { IfOk result (λ d. IsDeletion core.now node (S.image space.old) d.above
        d.listed d.nodes.items) }
    ensures header { IfOk result (λ d. d.above.place + node_length core.now.wide ≤ 2 ^ 44) }
    ensures table { IfOk result (λ d. d.listed.table.place
        + table_length d.listed.table.entries ≤ 2 ^ 44) }
    ensures sane { IfOk result (λ d. All (IsSane core.now) d.nodes.items) }
    ensures refused { IfErr result (λ e. IfSome (S.image space.old)
        (Refuses (Edit.Delete node) core.now e)) }
    ensures reads { AnswersRead S.is_sound S.image S.state S.waiting OnlyReads
        (IsDeleteCause core.now node (S.image space.old)) space.old space.new result }
{
    let row = match core.rows.get(node.serial) {
        Some(row) => row,
        None => return Err(AdfError::NoSuchNode),
    };
    if !core.writable {
        return Err(AdfError::ReadOnly);
    }
    let parent = match row.parent {
        Some(parent) => parent,
        None => return Err(AdfError::NotAChild),
    };
    let listed = match find_listed(space, core, row.place, parent) {
        Ok(listed) => listed,
        Err(error) => return Err(error),
    };
    let above = match core.rows.get(parent) {
        Some(above) => above,
        None => {
            return Err(AdfError::Layout {
                rule: 30,
                place: row.place,
            });
        }
    };
    match list_subtree(alloc, space, core, hints, node.serial) {
        Ok(nodes) => Ok(Deletion {
            above,
            listed,
            nodes,
        }),
        Err(error) => Err(error),
    }
}

/// Deletes a node and all below it. It takes memory for one entry a node of the subtree; after a refusal the caller abandons what
/// was written, and undoes the rest.
pub fn delete<S: Space>(
    alloc: Global,
    space: &mut S,
    core: &mut Core,
    hints: &Hints,
    node: NodeId,
) -> Result<(), AdfError>
    requires sound { S.is_sound space.old }
    requires near { AreNear core.old.wide core.old.rows.items }
    requires means { IfSome (S.image space.old)
        (λ bytes. (tree : Tree) × (p : Placement) × Means bytes tree p (memory_of core.old)) }
    ensures done { OnOk result (Both (Does (Edit.Delete node) core.old core.new)
        (S.image space.old) (S.image space.new)) }
    ensures reached { OnOk result (IfSome (S.image space.old) (Reaches (Edit.Delete node)
        core.old core.new (S.waiting space.old) (S.waiting space.new))) }
    ensures allowed { OnOk result (MayDelete core.old node (S.image space.old)) }
    ensures refused { IfErr result (λ e. IfSome (S.image space.old)
        (Refuses (Edit.Delete node) core.old e)) }
    ensures kept { KeepsCore core.old core.new }
    ensures near { AreNear core.new.wide core.new.rows.items }
    ensures writes { (n : ℕ) × DeletesWithin core.old node (S.image space.old) n
        × AnswersWrite S.is_sound S.state S.waiting n OnlyReads
        (IsDeleteCause core.old node (S.image space.old)) space.old space.new result }
{
    let found = match find_deletion(alloc, space, core, hints, node) {
        Ok(found) => found,
        Err(error) => return Err(error),
    };
    match erase(&mut core.rows, &found.nodes) {
        Ok(()) => {}
        Err(_) => return Err(AdfError::Memory),
    }
    match leave_list(space, found.above.place, found.listed) {
        Ok(()) => {}
        Err(error) => return Err(error),
    }
    give_nodes(alloc, space, core, &found.nodes)
}
