//! Room that the heap gives for the parts of a link, in the order of the rule.

ghost use Rattle.std.specs.Prelude.{◌≡◌, ◌^◌, ◌+◌, ◌≤◌, ◌<◌, [], ◌∷◌, Ok, IfOk, IfSome, OnOk};
ghost use Rattle.adf_format.specs.HeapRule.{heap_take};
ghost use Rattle.adf_format.specs.RecordFields.{node_length};
ghost use Rattle.cg_io.specs.Answers.{AnswersWrite, IsUntold, OnlyReads};
ghost use Rattle.cg_io.specs.Blocks.{Both, ReadsFew};
ghost use Rattle.tree_edits.specs.Taken.{IsReady, Takes, KeepsHeap, LacksBytes, IsRoomless};
ghost use Rattle.tree_edits.specs.Joined.{LacksTable};
ghost use Rattle.field_access.specs.Fields.{range};
ghost use Rattle.tree_edits.specs.Waiting.{TakesInRoom, IfTold, table_room, link_rooms};
ghost use Rattle.tree_edits.specs.Linked.{FitsTable, TakesTable, HeapTakesTable, TakesRooms, AreRoomsNear, LacksRooms};

use crate::longer::grown;
use crate::room::Parent;
use adf_model::AdfError;
use adf_records::node_length;
use cg_io::Space;
use file_heap::Heap;

/// Where the parts of a link stand: its header, the longer table of its parent where that one's is full, and its chunk.
#[derive(Clone, Copy, Drop)]
pub(crate) struct Rooms {
    pub(crate) header: u64,
    pub(crate) table: Option<u64>,
    pub(crate) chunk: u64,
}

/// Takes so many bytes: their place.
pub(crate) fn take_room<S: Space>(space: &mut S, heap: &mut Heap, n: u64) -> Result<u64, AdfError>
    requires sound { S.is_sound space.old }
    requires some { 1 ≤ n }
    requires few { n ≤ 2 ^ 44 }
    requires ready { IfSome (S.image space.old) (IsReady heap.old.work) }
    ensures takes { IfOk result (λ place. Both (Takes heap.old.limit n place heap.old.work
        heap.new.work) (S.image space.old) (S.image space.new)) }
    ensures waits { IfOk result (λ place. IfTold (S.image space.old)
        (TakesInRoom (range place n ∷ []) heap.old.work.heap heap.new.work.heap
        (S.waiting space.old) (S.waiting space.new))) }
    ensures taken { IfOk result (λ place. heap_take heap.old.limit n heap.old.work.heap
        ≡ Ok (place, heap.new.work.heap)) }
    ensures near { IfOk result (λ place. place + n ≤ 2 ^ 44) }
    ensures ready { OnOk result (IfSome (S.image space.new) (IsReady heap.new.work)) }
    ensures kept { KeepsHeap heap.old heap.new }
    ensures writes { AnswersWrite S.is_sound S.state S.waiting 9 (ReadsFew 64)
        (IsRoomless (LacksBytes heap.old.limit n heap.old.work.heap)
        (IsUntold (S.image space.old))) space.old space.new result }
{
    match heap.take(space, n) {
        Ok(place) => Ok(place),
        Err(error) => Err(error),
    }
}

/// Takes room for a longer table, where the one of a parent is full.
pub fn take_table<S: Space>(
    space: &mut S,
    heap: &mut Heap,
    parent: Parent,
) -> Result<Option<u64>, AdfError>
    requires sound { S.is_sound space.old }
    requires ready { IfSome (S.image space.old) (IsReady heap.old.work) }
    requires few { parent.table.count < 2 ^ 20 }
    requires within { parent.table.count ≤ parent.table.entries }
    ensures takes { IfOk result (λ table. Both (TakesTable heap.old.limit parent table
        heap.old.work heap.new.work) (S.image space.old) (S.image space.new)) }
    ensures waits { IfOk result (λ table. IfTold (S.image space.old)
        (TakesInRoom (table_room parent table) heap.old.work.heap heap.new.work.heap
        (S.waiting space.old) (S.waiting space.new))) }
    ensures taken { IfOk result (λ table. HeapTakesTable heap.old.limit parent table
        heap.old.work.heap heap.new.work.heap) }
    ensures fits { IfOk result (FitsTable parent) }
    ensures ready { OnOk result (IfSome (S.image space.new) (IsReady heap.new.work)) }
    ensures kept { KeepsHeap heap.old heap.new }
    ensures writes { AnswersWrite S.is_sound S.state S.waiting 9 (ReadsFew 64)
        (IsRoomless (LacksTable heap.old.limit parent heap.old.work.heap)
        (IsUntold (S.image space.old))) space.old space.new result }
{
    if parent.table.count < parent.table.entries {
        return Ok(None);
    }
    match take_room(space, heap, 20 + 44 * u64::from(grown(parent.table.count))) {
        Ok(place) => Ok(Some(place)),
        Err(error) => Err(error),
    }
}

/// Takes room for a link whose chunk has so many bytes.
pub(crate) fn take_rooms<S: Space>(
    space: &mut S,
    heap: &mut Heap,
    wide: bool,
    parent: Parent,
    chunk: u64,
) -> Result<Rooms, AdfError>
    requires sound { S.is_sound space.old }
    requires ready { IfSome (S.image space.old) (IsReady heap.old.work) }
    requires few { parent.table.count < 2 ^ 20 }
    requires within { parent.table.count ≤ parent.table.entries }
    requires some { 1 ≤ chunk }
    requires short { chunk ≤ 4116 }
    ensures takes { IfOk result (λ rooms. Both (TakesRooms heap.old.limit (node_length wide) chunk
        parent rooms heap.old.work heap.new.work) (S.image space.old) (S.image space.new)) }
    ensures waits { IfOk result (λ rooms. IfTold (S.image space.old)
        (TakesInRoom (link_rooms (node_length wide) chunk parent rooms) heap.old.work.heap
        heap.new.work.heap (S.waiting space.old) (S.waiting space.new))) }
    ensures near { IfOk result (AreRoomsNear (node_length wide) chunk parent) }
    ensures kept { KeepsHeap heap.old heap.new }
    ensures writes { AnswersWrite S.is_sound S.state S.waiting 27 OnlyReads
        (IsRoomless (LacksRooms heap.old.limit (node_length wide) chunk parent
        heap.old.work.heap) (IsUntold (S.image space.old))) space.old space.new result }
{
    let header = match take_room(space, heap, node_length(wide) as u64) {
        Ok(place) => place,
        Err(error) => return Err(error),
    };
    let table = match take_table(space, heap, parent) {
        Ok(table) => table,
        Err(error) => return Err(error),
    };
    match take_room(space, heap, chunk) {
        Ok(place) => Ok(Rooms {
            header,
            table,
            chunk: place,
        }),
        Err(error) => Err(error),
    }
}
