//! Moves of nodes.

ghost use Rattle.std.specs.Prelude.{◌≡◌, ◌+◌, ◌^◌, ◌≤◌, ℕ, IfErr, IfSome, OnOk};
ghost use Rattle.adf_format.specs.Placement.{Placement};
ghost use Rattle.adf_format.specs.Tree.{Tree};
ghost use Rattle.adf_model.specs.declared.tree.Edit.{Edit};
ghost use Rattle.cg_io.specs.Answers.{AnswersWrite, OnlyReads};
ghost use Rattle.cg_io.specs.Blocks.{Both};
ghost use Rattle.tree_edits.specs.Rows.{AreNear, Means};
ghost use Rattle.tree_edits.specs.Edits.{Does, Refuses, KeepsCore, memory_of};
ghost use Rattle.tree_edits.specs.Known.{ListsChildren};
ghost use Rattle.tree_edits.specs.Waiting.{Reaches};
ghost use Rattle.tree_moves.specs.Movable.{IsMovable, IsMoveCause};
ghost use Rattle.tree_moves.specs.Moved.{MovesWithin};

use crate::depths::shift;
use crate::lists::relist;
use crate::place::find_move;
use adf_model::{AdfError, NodeId};
use cg_io::Space;
use kept_names::Listed;
use tree_edits::Core;

/// Moves a node with all below it: it becomes the last child of another node, or of its own parent. `known` are the children of that
/// node, where they are kept.
pub fn move_to<S: Space>(
    space: &mut S,
    core: &mut Core,
    node: NodeId,
    at: NodeId,
    known: Option<&Listed>,
) -> Result<(), AdfError>
    requires sound { S.is_sound space.old }
    requires near { AreNear core.old.wide core.old.rows.items }
    requires means { IfSome (S.image space.old)
        (λ bytes. (tree : Tree) × (p : Placement) × Means bytes tree p (memory_of core.old)) }
    requires known { IfSome known (λ list. ListsChildren core.old (S.image space.old) at.serial
        list.now) }
    ensures done { OnOk result (Both (Does (Edit.Move node at) core.old core.new)
        (S.image space.old) (S.image space.new)) }
    ensures reached { OnOk result (IfSome (S.image space.old) (Reaches (Edit.Move node at)
        core.old core.new (S.waiting space.old) (S.waiting space.new))) }
    ensures allowed { OnOk result (IsMovable core.old node at (S.image space.old)) }
    ensures refused { IfErr result (λ e. IfSome (S.image space.old)
        (Refuses (Edit.Move node at) core.old e)) }
    ensures kept { KeepsCore core.old core.new }
    ensures near { AreNear core.new.wide core.new.rows.items }
    ensures writes { (n : ℕ) × MovesWithin core.old node at (S.image space.old) n
        × AnswersWrite S.is_sound S.state S.waiting n OnlyReads
        (IsMoveCause core.old node at (S.image space.old)) space.old space.new result }
{
    let its = match find_move(space, core, node, at, known) {
        Ok(its) => its,
        Err(error) => return Err(error),
    };
    match relist(space, &mut core.heap, &its) {
        Ok(()) => {}
        Err(error) => return Err(error),
    }
    let depth = its.to.row.depth + 1;
    shift(&mut core.rows, node.serial, its.row, at.serial, depth)
}
