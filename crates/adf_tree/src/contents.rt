//! The edits of the data of a node, over any space and what is kept of a file in memory.

ghost use Rattle.std.specs.Prelude.{IfSome};
ghost use Rattle.adf_format.specs.Tree.{Tree};
ghost use Rattle.adf_format.specs.Placement.{Placement};
ghost use Rattle.adf_model.specs.declared.tree.Edit.{Edit};
ghost use Rattle.tree_edits.specs.Edits.{memory_of};
ghost use Rattle.tree_edits.specs.Rows.{AreNear, Means};
ghost use Rattle.adf_tree.specs.Steps.{EditAnswers};

use adf_model::{AdfError, NodeId, Selection, Shape};
use cg_io::Space;
use data_edits::{put_all, put_part, set_dims};
use std::alloc::Global;
use tree_edits::Core;

/// Gives a node another type and dimensions.
pub(crate) fn new_shape<S: Space>(
    alloc: Global,
    space: &mut S,
    core: &mut Core,
    node: NodeId,
    shape: &Shape,
) -> Result<Option<u64>, AdfError>
    requires sound { S.is_sound space.old }
    requires near { AreNear core.old.wide core.old.rows.items }
    requires means { IfSome (S.image space.old)
        (λ bytes. (tree : Tree) × (p : Placement) × Means bytes tree p (memory_of core.old)) }
    ensures { EditAnswers S.is_sound S.image S.state S.waiting (Edit.SetDims node shape.now)
        core.old core.new space.old space.new result }
{
    match set_dims(alloc, space, core, node, shape) {
        Ok(()) => Ok(None),
        Err(error) => Err(error),
    }
}

/// Gives a node all its data.
pub(crate) fn new_data<S: Space>(
    alloc: Global,
    space: &mut S,
    core: &mut Core,
    node: NodeId,
    bytes: &[u8],
) -> Result<Option<u64>, AdfError>
    requires sound { S.is_sound space.old }
    requires near { AreNear core.old.wide core.old.rows.items }
    requires means { IfSome (S.image space.old)
        (λ bytes. (tree : Tree) × (p : Placement) × Means bytes tree p (memory_of core.old)) }
    ensures { EditAnswers S.is_sound S.image S.state S.waiting (Edit.PutAll node bytes.now)
        core.old core.new space.old space.new result }
{
    match put_all(alloc, space, core, node, bytes) {
        Ok(()) => Ok(None),
        Err(error) => Err(error),
    }
}

/// Gives a node the elements of its data that a selection names.
pub(crate) fn new_part<S: Space>(
    alloc: Global,
    space: &mut S,
    core: &mut Core,
    node: NodeId,
    selection: &Selection,
    bytes: &[u8],
) -> Result<Option<u64>, AdfError>
    requires sound { S.is_sound space.old }
    requires near { AreNear core.old.wide core.old.rows.items }
    requires means { IfSome (S.image space.old)
        (λ bytes. (tree : Tree) × (p : Placement) × Means bytes tree p (memory_of core.old)) }
    ensures { EditAnswers S.is_sound S.image S.state S.waiting
        (Edit.PutPart node selection.now bytes.now) core.old core.new space.old space.new result }
{
    match put_part(alloc, space, core, node, selection, bytes) {
        Ok(()) => Ok(None),
        Err(error) => Err(error),
    }
}
