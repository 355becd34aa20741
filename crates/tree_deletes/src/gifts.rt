//! The parts of nodes, given to the heap.

ghost use Rattle.std.specs.Prelude.{◌≡◌, ℕ, ◌+◌, ◌*◌, ◌^◌, ◌≤◌, ◌∷◌, [], IfSome, OnOk};
ghost use Rattle.std.specs.List.{All};
ghost use Rattle.adf_data.specs.Sizes.{Ungivable};
ghost use Rattle.adf_format.specs.declared.types.ExtentKind.{ExtentKind};
ghost use Rattle.adf_format.specs.Placement.{extent};
ghost use Rattle.adf_format.specs.RecordFields.{node_length, table_length};
ghost use Rattle.cg_io.specs.Answers.{AnswersWrite, IsRefusal, OnlyReads};
ghost use Rattle.cg_io.specs.Blocks.{Both};
ghost use Rattle.disk_ptr.specs.View.{HasOffset};
ghost use Rattle.file_heap.specs.Heap.{IsHeap, IsThreaded};
ghost use Rattle.tree_edits.specs.Joined.{extents_of_table};
ghost use Rattle.tree_edits.specs.Taken.{KeepsHeap};
ghost use Rattle.tree_edits.specs.Waiting.{WaitsInRoom, IfTold};
ghost use Rattle.field_access.specs.Fields.{range};
ghost use Rattle.tree_deletes.specs.Doomed.{IsSane};
ghost use Rattle.tree_deletes.specs.Given.{GivesTogether, GivesNode, GivesNodes, NodeMayNot, MayNotGive, NodeWaits, NodesWait, gift_cost};

use crate::doomed::Doomed;
use adf_data::release;
use adf_model::AdfError;
use adf_records::node_length;
use cg_io::Space;
use file_heap::Heap;
use node_reads::ChildTable;
use std::alloc::Global;
use tree_edits::Core;

// Gives bytes that may be given.
fn give_range<S: Space>(space: &mut S, heap: &mut Heap, place: u64, n: u64) -> Result<(), AdfError>
    requires sound { S.is_sound space.old }
    requires some { 1 ≤ n }
    requires within { place + n ≤ 2 ^ 45 }
    requires threads { IfSome (S.image space.old) (IsThreaded heap.old.work) }
    ensures given { OnOk result ((kind : ExtentKind) → Both (GivesTogether
        (extent kind place n ∷ []) heap.old.work heap.new.work) (S.image space.old)
        (S.image space.new)) }
    ensures waits { OnOk result (IfTold (S.image space.old) (WaitsInRoom (range place n ∷ [])
        heap.old.work.heap heap.new.work.heap (S.waiting space.old) (S.waiting space.new))) }
    ensures heap { OnOk result (IsHeap heap.new.work.heap) }
    ensures threads { OnOk result (IfSome (S.image space.new) (IsThreaded heap.new.work)) }
    ensures kept { KeepsHeap heap.old heap.new }
    ensures writes { AnswersWrite S.is_sound S.state S.waiting 12 OnlyReads
        (IsRefusal ((kind : ExtentKind) → Ungivable (S.image space.old)
        (extent kind place n ∷ []) heap.old.work.heap)) space.old space.new result }
{
    if !heap.may_give(place, n) {
        return Err(AdfError::Layout { rule: 30, place });
    }
    match heap.give(space, place, n) {
        Ok(()) => Ok(()),
        Err(error) => Err(error),
    }
}

// Gives the bytes of a table, if there is one.
fn give_table<S: Space>(space: &mut S, heap: &mut Heap, table: ChildTable) -> Result<(), AdfError>
    requires sound { S.is_sound space.old }
    requires within { table.place + table_length table.entries ≤ 2 ^ 44 }
    requires heap { IsHeap heap.old.work.heap }
    requires threads { IfSome (S.image space.old) (IsThreaded heap.old.work) }
    ensures given { OnOk result (Both (GivesTogether (extents_of_table table) heap.old.work
        heap.new.work) (S.image space.old) (S.image space.new)) }
    ensures waits { OnOk result (IfTold (S.image space.old)
        (WaitsInRoom (extents_of_table table) heap.old.work.heap heap.new.work.heap
        (S.waiting space.old) (S.waiting space.new))) }
    ensures heap { OnOk result (IsHeap heap.new.work.heap) }
    ensures threads { OnOk result (IfSome (S.image space.new) (IsThreaded heap.new.work)) }
    ensures kept { KeepsHeap heap.old heap.new }
    ensures writes { AnswersWrite S.is_sound S.state S.waiting 12 OnlyReads
        (IsRefusal (Ungivable (S.image space.old) (extents_of_table table)
        heap.old.work.heap)) space.old space.new result }
{
    if table.entries == 0 {
        return Ok(());
    }
    give_range(space, heap, table.place, table.length())
}

// Gives the header of a node, its table, its chunk table and its chunks.
fn give_node<S: Space>(
    alloc: Global,
    space: &mut S,
    heap: &mut Heap,
    wide: bool,
    node: Doomed,
) -> Result<(), AdfError>
    requires sound { S.is_sound space.old }
    requires header { node.place + node_length wide ≤ 2 ^ 44 }
    requires table { node.table.place + table_length node.table.entries ≤ 2 ^ 44 }
    requires offset { HasOffset node.chunks.pointer }
    requires threads { IfSome (S.image space.old) (IsThreaded heap.old.work) }
    ensures given { OnOk result (Both (GivesNode wide node heap.old.work heap.new.work)
        (S.image space.old) (S.image space.new)) }
    ensures waits { OnOk result (IfSome (S.image space.old)
        (NodeWaits wide node heap.old.work.heap heap.new.work.heap
        (S.waiting space.old) (S.waiting space.new))) }
    ensures threads { OnOk result (IfSome (S.image space.new) (IsThreaded heap.new.work)) }
    ensures kept { KeepsHeap heap.old heap.new }
    ensures writes { AnswersWrite S.is_sound S.state S.waiting (12 * (3 + node.chunks.count))
        OnlyReads (IsRefusal (NodeMayNot wide node heap.old.work.heap (S.image space.old)))
        space.old space.new result }
{
    match give_range(space, heap, node.place, node_length(wide) as u64) {
        Ok(()) => {}
        Err(error) => return Err(error),
    }
    match give_table(space, heap, node.table) {
        Ok(()) => {}
        Err(error) => return Err(error),
    }
    let mut chunks = node.chunks;
    match release(alloc, heap, space, &mut chunks) {
        Ok(()) => Ok(()),
        Err(error) => Err(error),
    }
}

/// Gives the parts of nodes, one node after another.
pub(crate) fn give_nodes<S: Space>(
    alloc: Global,
    space: &mut S,
    core: &mut Core,
    nodes: &[Doomed],
) -> Result<(), AdfError>
    requires sound { S.is_sound space.old }
    requires sane { All (IsSane core.old) nodes.now }
    requires threads { IfSome (S.image space.old) (IsThreaded core.old.heap.work) }
    ensures given { OnOk result (Both (GivesNodes core.old.wide nodes.now core.old.heap.work
        core.new.heap.work) (S.image space.old) (S.image space.new)) }
    ensures waits { OnOk result (IfSome (S.image space.old)
        (NodesWait core.old.wide nodes.now core.old.heap.work.heap core.new.heap.work.heap
        (S.waiting space.old) (S.waiting space.new))) }
    ensures kept { KeepsHeap core.old.heap core.new.heap }
    ensures rows { core.new.rows ≡ core.old.rows }
    ensures wide { core.new.wide ≡ core.old.wide }
    ensures writable { core.new.writable ≡ core.old.writable }
    ensures writes { AnswersWrite S.is_sound S.state S.waiting (gift_cost nodes.now) OnlyReads
        (IsRefusal (MayNotGive core.old.wide nodes.now core.old.heap.work.heap
        (S.image space.old))) space.old space.new result }
{
    for node in nodes {
        match give_node(alloc, space, &mut core.heap, core.wide, *node) {
            Ok(()) => {}
            Err(error) => return Err(error),
        }
    }
    Ok(())
}
