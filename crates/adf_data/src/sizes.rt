//! The data of a node get another size, or become none.

ghost use Rattle.std.specs.Prelude.{◌≡◌, ℕ, List, Option, ◌++◌, ◌*◌, ◌+◌, ◌-◌, ◌^◌, ◌≤◌, ◌<◌, Err, IfErr, IfSome, OnOk, OnErr};
ghost use Rattle.std.specs.List.{All};
ghost use Rattle.cg_io.specs.Blocks.{Both};
ghost use Rattle.cg_io.specs.Answers.{OnlyReads, IsRefusal};
ghost use Rattle.cg_io.specs.Waits.{how_many, WaitsOnly};
ghost use Rattle.adf_format.specs.Placement.{NodeParts};
ghost use Rattle.adf_format.specs.Changes.{heap_fields};
ghost use Rattle.field_access.specs.Fields.{WaitsWithin};
ghost use Rattle.adf_format.specs.HeapRule.{LimitReached, give_all, data_extents, payload_length, chunk_length_for, pairs};
ghost use Rattle.disk_ptr.specs.View.{HasOffset};
ghost use Rattle.disk_ptr.specs.declared.DiskPtr.{DiskPtr};
ghost use Rattle.file_heap.specs.Heap.{IsHeap, IsThreaded, IsTakeRefusal, ChangesOnly, MovesEnd, KeepsFillers};
ghost use Rattle.adf_model.specs.declared.error.AdfError.{AdfError};
ghost use Rattle.adf_model.specs.NodeData.{resized_spot};
ghost use Rattle.adf_data.specs.Chunks.{parts_of, IsSane, Named};
ghost use Rattle.adf_data.specs.Ranges.{ChangesBytes, HasByte};
ghost use Rattle.adf_data.specs.Fills.{ZeroesBytes};
ghost use Rattle.adf_data.specs.Sizes.{MayGiveAll};
ghost use Rattle.adf_data.specs.Growing.{ResizesData, Owns, sized_ranges, room_of_table, WaitsToGrow};

use crate::chunks::{Chunk, list_chunks, table_in};
use crate::fills::zero_range;
use crate::gifts::give_data;
use crate::grow::grow;
use crate::place::DataPlace;
use crate::runs::payload_total;
use adf_model::AdfError;
use cg_io::Space;
use file_heap::Heap;
use std::alloc::Global;

/// Gives all chunks of the data and their table. The place then names none.
pub fn release<S: Space>(
    alloc: Global,
    heap: &mut Heap,
    space: &mut S,
    at: &mut DataPlace,
) -> Result<(), AdfError>
    requires sound { S.is_sound space.old }
    requires offset { HasOffset at.old.pointer }
    requires heap { IsHeap heap.old.work.heap }
    requires threads { IfSome (S.image space.old) (IsThreaded heap.old.work) }
    ensures sound { S.is_sound space.new }
    ensures gone { OnOk result (at.new ≡ record { count = 0; pointer = DiskPtr.Blank }) }
    ensures stays { OnErr result (at.new ≡ at.old) }
    ensures gives { OnOk result ((parts : NodeParts) → Named at.old parts (S.image space.old)
        → heap.new.work.heap ≡ give_all (data_extents parts) heap.old.work.heap) }
    ensures kept { heap.new.kept ≡ heap.old.kept }
    ensures limit { heap.new.limit ≡ heap.old.limit }
    ensures heap { IsHeap heap.new.work.heap }
    ensures pairs { pairs heap.new.work.heap.gaps ≤ pairs heap.old.work.heap.gaps }
    ensures threads { OnOk result (IfSome (S.image space.new) (IsThreaded heap.new.work)) }
    ensures bytes { (parts : NodeParts) → Named at.old parts (S.image space.old)
        → Both (ChangesOnly (heap_fields ++ data_extents parts ++ heap.old.work.heap.gaps))
        (S.image space.old) (S.image space.new) }
    ensures only { (parts : NodeParts) → Named at.old parts (S.image space.old)
        → WaitsWithin (heap_fields ++ data_extents parts ++ heap.old.work.heap.gaps)
        (S.waiting space.old) (S.waiting space.new) }
    ensures end { OnOk result (Both (MovesEnd heap.old.work.heap.end heap.new.work.heap.end)
        (S.image space.old) (S.image space.new)) }
    ensures fillers { OnOk result (Both
        (KeepsFillers heap.old.work.heap.gaps heap.new.work.heap.gaps)
        (S.image space.old) (S.image space.new)) }
    ensures effect { OnlyReads (S.state space.old) (S.state space.new) }
    ensures waits { how_many (S.waiting space.new)
        ≤ how_many (S.waiting space.old) + 12 * (at.old.count + 1) }
    ensures cause { IfErr result (IsRefusal ((parts : NodeParts)
        → Named at.old parts (S.image space.old)
        → MayGiveAll (data_extents parts) heap.old.work.heap
        → ⊥) (S.state space.old).faults (S.state space.new).faults) }
{
    let place = *at;
    let chunks = match list_chunks(alloc, space, place) {
        Ok(chunks) => chunks,
        Err(error) => return Err(error),
    };
    match give_data(heap, space, table_in(place), &chunks) {
        Ok(()) => {}
        Err(error) => return Err(error),
    }
    *at = DataPlace::none();
    Ok(())
}

// Writes zeros from one byte of the data up to another, where that stands behind it.
fn clear_between<S: Space>(
    space: &mut S,
    chunks: &[Chunk],
    from: u64,
    to: u64,
) -> Result<(), AdfError>
    requires sound { S.is_sound space.old }
    requires sane { All IsSane chunks.now }
    requires within { (from ≤ payload_length (parts_of chunks.now))
        × (to ≤ payload_length (parts_of chunks.now)) }
    requires small { (from ≤ 2 ^ 30) × (to ≤ 2 ^ 30) }
    ensures sound { S.is_sound space.new }
    ensures zeroed { OnOk result (Both (ZeroesBytes (parts_of chunks.now) from (to - from))
        (S.image space.old) (S.image space.new)) }
    ensures bytes { Both (ChangesBytes (parts_of chunks.now) from (to - from)) (S.image space.old)
        (S.image space.new) }
    ensures effect { OnlyReads (S.state space.old) (S.state space.new) }
    ensures only { WaitsOnly (HasByte (parts_of chunks.now) from (to - from)) (S.waiting space.old)
        (S.waiting space.new) }
    ensures cause { IfErr result (IsRefusal ⊥ (S.state space.old).faults
        (S.state space.new).faults) }
{
    zero_range(space, chunks, from, to.saturating_sub(from))
}

/// Gives the data a size: as many of the first bytes as both have stay, and the rest is zero. Where the chunks have room, these
/// zeros are written. Else a chunk is added for what is added, with a table of all, which is placed anew; data in no chunk, or
/// in 64 or more, are gathered in one.
pub fn resize<S: Space>(
    alloc: Global,
    heap: &mut Heap,
    space: &mut S,
    at: &mut DataPlace,
    old: u64,
    new: u64,
) -> Result<(), AdfError>
    requires sound { S.is_sound space.old }
    requires offset { HasOffset at.old.pointer }
    requires was { old ≤ 2 ^ 30 }
    requires size { (1 ≤ new) × (new ≤ 2 ^ 30) }
    requires heap { IsHeap heap.old.work.heap }
    requires threads { IfSome (S.image space.old) (IsThreaded heap.old.work) }
    ensures sound { S.is_sound space.new }
    ensures resized { OnOk result (Both
        (ResizesData heap.old.limit old new at.old at.new heap.old.work.heap heap.new.work)
        (S.image space.old) (S.image space.new)) }
    ensures offset { HasOffset at.new.pointer }
    ensures stays { OnErr result (at.new ≡ at.old) }
    ensures kept { heap.new.kept ≡ heap.old.kept }
    ensures limit { heap.new.limit ≡ heap.old.limit }
    ensures heap { IsHeap heap.new.work.heap }
    ensures pairs { pairs heap.new.work.heap.gaps ≤ pairs heap.old.work.heap.gaps }
    ensures bytes { (parts : NodeParts) → Named at.old parts (S.image space.old)
        → Both (ChangesOnly (sized_ranges parts heap.old.work.heap heap.new.work.heap))
        (S.image space.old)
        (S.image space.new) }
    ensures only { (parts : NodeParts) → Named at.old parts (S.image space.old)
        → WaitsWithin (sized_ranges parts heap.old.work.heap heap.new.work.heap)
        (S.waiting space.old) (S.waiting space.new) }
    ensures full { (asked end : ℕ) → result ≡ Err (AdfError.Full asked end)
        → heap.old.limit * 4096 < heap.old.work.heap.end + 1 + chunk_length_for new
        + room_of_table at.old.count }
    ensures exact { (asked end : ℕ) → result ≡ Err (AdfError.Full asked end)
        → (parts : NodeParts) (bytes : Option (List ℕ))
        → Owns at.old old parts bytes heap.old.work.heap (S.image space.old)
        → resized_spot heap.old.limit new (parts, heap.old.work.heap)
        ≡ Err (record { asked = asked; end = end }) }
    ensures effect { OnlyReads (S.state space.old) (S.state space.new) }
    ensures waits { OnOk result (WaitsToGrow at.old.count old new (S.waiting space.old)
        (S.waiting space.new)) }
    ensures cause { IfErr result (IsTakeRefusal ((parts : NodeParts) (bytes : Option (List ℕ))
        → Owns at.old old parts bytes heap.old.work.heap (S.image space.old)
        → ⊥) (S.state space.old).faults (S.state space.new).faults) }
{
    let place = *at;
    let chunks = match list_chunks(alloc, space, place) {
        Ok(chunks) => chunks,
        Err(error) => return Err(error),
    };
    let table = table_in(place);
    let have = payload_total(&chunks);
    if have < old {
        return Err(AdfError::Layout { rule: 27, place: 0 });
    }
    if new <= have {
        return clear_between(space, &chunks, old, new);
    }
    match grow(alloc, heap, space, table, &chunks, old, have, new) {
        Ok(now) => {
            *at = now;
            Ok(())
        }
        Err(error) => Err(error),
    }
}
