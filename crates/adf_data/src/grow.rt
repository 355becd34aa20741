//! Data that grow: one new chunk for all of them, or one more for what is added.

ghost use Rattle.std.specs.Prelude.{◌≡◌, ◌⊎◌, ℕ, ◌∷◌, [], ◌++◌, ◌+◌, ◌-◌, ◌*◌, ◌/◌, ◌^◌, ◌≤◌, ◌<◌, length, max, Ok, Err, Some, IfOk, IfErr, IfSome, OnOk, IsTrue, IsFalse};
ghost use Rattle.std.specs.List.{All};
ghost use Rattle.cg_io.specs.Blocks.{Both};
ghost use Rattle.cg_io.specs.Answers.{OnlyReads, IsUntold};
ghost use Rattle.cg_io.specs.Waits.{how_many};
ghost use Rattle.adf_format.specs.Placement.{Heap, chunk_table_extents};
ghost use Rattle.adf_format.specs.Changes.{heap_fields};
ghost use Rattle.field_access.specs.Fields.{WaitsWhereTold};
ghost use Rattle.adf_format.specs.HeapRule.{LimitReached, heap_take, give_all, payload_length, chunk_length_for, pairs};
ghost use Rattle.adf_model.specs.declared.error.AdfError.{AdfError};
ghost use Rattle.file_heap.specs.Heap.{IsHeap, IsThreaded, IsTakeRefusal, ChangesOnly, MovesEnd, KeepsFillers, IsTakenWithin, TakesCover};
ghost use Rattle.adf_data.specs.Chunks.{part_of, parts_of, IsSane};
ghost use Rattle.adf_data.specs.Sizes.{extents_in, Ungivable};
ghost use Rattle.adf_format.specs.Parts.{chunk_table_length};
ghost use Rattle.disk_ptr.specs.View.{HasOffset};
ghost use Rattle.adf_data.specs.Growing.{room_of, changed_ranges, PutsChunk, PutsTable, GathersData, ExtendsData, GrowsData, IsFullAt, IsFullFor, room_of_table, WaitsToGrow};

use crate::chunks::Chunk;
use crate::fills::{write_chunk, zero_range};
use crate::gifts::{give_data, give_table};
use crate::place::DataPlace;
use crate::room::take_range;
use crate::spaces::store;
use crate::tables::table_text;
use adf_model::AdfError;
use cg_io::Space;
use disk_ptr::from_place;
use file_heap::Heap;
use std::alloc::Global;

/// How long a chunk of so many bytes is.
pub(crate) fn chunk_length(size: u64) -> u64
    requires { size ≤ 2 ^ 30 }
    ensures { result ≡ chunk_length_for size }
{
    (20 + size).max(32)
}

/// Takes a chunk, and writes the first bytes of the data to it, and zeros behind them.
pub(crate) fn put_chunk<S: Space>(
    heap: &mut Heap,
    space: &mut S,
    chunks: &[Chunk],
    kept: u64,
    n: u64,
) -> Result<u64, AdfError>
    requires sound { S.is_sound space.old }
    requires sane { All IsSane chunks.now }
    requires kept { kept ≤ payload_length (parts_of chunks.now) }
    requires long { 21 ≤ n }
    requires fits { 20 + kept ≤ n }
    requires small { n ≤ 2 ^ 44 }
    requires heap { IsHeap heap.old.work.heap }
    requires threads { IfSome (S.image space.old) (IsThreaded heap.old.work) }
    ensures sound { S.is_sound space.new }
    ensures takes { IfOk result (λ place. heap_take heap.old.limit n heap.old.work.heap
        ≡ Ok (place, heap.new.work.heap)) }
    ensures full { (asked end : ℕ) → result ≡ Err (AdfError.Full asked end)
        → heap_take heap.old.limit n heap.old.work.heap
        ≡ Err (record { asked = asked; end = end }) }
    ensures kept { heap.new.kept ≡ heap.old.kept }
    ensures limit { heap.new.limit ≡ heap.old.limit }
    ensures grows { heap.old.work.heap.end ≤ heap.new.work.heap.end }
    ensures heap { IsHeap heap.new.work.heap }
    ensures within { IfOk result (IsTakenWithin n heap.new.work.heap) }
    ensures covers { IfOk result (TakesCover n heap.old.work.heap heap.new.work.heap) }
    ensures pairs { pairs heap.new.work.heap.gaps ≤ pairs heap.old.work.heap.gaps }
    ensures puts { IfOk result (λ place.
        Both (PutsChunk (parts_of chunks.now) kept n place heap.old.work.heap heap.new.work.heap)
        (S.image space.old) (S.image space.new)) }
    ensures threads { OnOk result (IfSome (S.image space.new) (IsThreaded heap.new.work)) }
    ensures bytes { Both (ChangesOnly (room_of heap.old.work.heap heap.new.work.heap))
        (S.image space.old)
        (S.image space.new) }
    ensures only { WaitsWhereTold (S.image space.old)
        (room_of heap.old.work.heap heap.new.work.heap)
        (S.waiting space.old) (S.waiting space.new) }
    ensures end { OnOk result (Both (MovesEnd heap.old.work.heap.end heap.new.work.heap.end)
        (S.image space.old) (S.image space.new)) }
    ensures fillers { OnOk result (Both
        (KeepsFillers heap.old.work.heap.gaps heap.new.work.heap.gaps)
        (S.image space.old) (S.image space.new)) }
    ensures effect { OnlyReads (S.state space.old) (S.state space.new) }
    ensures waits { OnOk result (how_many (S.waiting space.new)
        ≤ how_many (S.waiting space.old) + (n / 4096 + 11)) }
    ensures cause { IfErr result (IsTakeRefusal (IsUntold (S.image space.old))
        (S.state space.old).faults (S.state space.new).faults) }
{
    let place = match take_range(heap, space, n) {
        Ok(place) => place,
        Err(error) => return Err(error),
    };
    match write_chunk(space, chunks, kept, n, place) {
        Ok(()) => Ok(place),
        Err(error) => Err(error),
    }
}

/// Takes a table for some chunks and a last one, and writes it.
pub(crate) fn put_table<S: Space>(
    alloc: Global,
    heap: &mut Heap,
    space: &mut S,
    chunks: &[Chunk],
    last: Chunk,
) -> Result<u64, AdfError>
    requires sound { S.is_sound space.old }
    requires sane { All IsSane chunks.now }
    requires last { IsSane last }
    requires some { 1 ≤ length chunks.now }
    requires few { length chunks.now < 65535 }
    requires heap { IsHeap heap.old.work.heap }
    requires threads { IfSome (S.image space.old) (IsThreaded heap.old.work) }
    ensures sound { S.is_sound space.new }
    ensures takes { IfOk result (λ place. heap_take heap.old.limit
        (44 + 24 * length chunks.now) heap.old.work.heap ≡ Ok (place, heap.new.work.heap)) }
    ensures full { (asked end : ℕ) → result ≡ Err (AdfError.Full asked end)
        → heap_take heap.old.limit (44 + 24 * length chunks.now) heap.old.work.heap
        ≡ Err (record { asked = asked; end = end }) }
    ensures kept { heap.new.kept ≡ heap.old.kept }
    ensures limit { heap.new.limit ≡ heap.old.limit }
    ensures grows { heap.old.work.heap.end ≤ heap.new.work.heap.end }
    ensures heap { IsHeap heap.new.work.heap }
    ensures within { IfOk result (IsTakenWithin (44 + 24 * length chunks.now) heap.new.work.heap) }
    ensures covers { IfOk result (TakesCover (44
        + 24 * length chunks.now) heap.old.work.heap heap.new.work.heap) }
    ensures pairs { pairs heap.new.work.heap.gaps ≤ pairs heap.old.work.heap.gaps }
    ensures puts { IfOk result (λ place. IfSome (S.image space.new)
        (PutsTable (parts_of chunks.now ++ part_of last ∷ []) place)) }
    ensures threads { OnOk result (IfSome (S.image space.new) (IsThreaded heap.new.work)) }
    ensures bytes { Both (ChangesOnly (room_of heap.old.work.heap heap.new.work.heap))
        (S.image space.old)
        (S.image space.new) }
    ensures only { WaitsWhereTold (S.image space.old)
        (room_of heap.old.work.heap heap.new.work.heap)
        (S.waiting space.old) (S.waiting space.new) }
    ensures end { OnOk result (Both (MovesEnd heap.old.work.heap.end heap.new.work.heap.end)
        (S.image space.old) (S.image space.new)) }
    ensures fillers { OnOk result (Both
        (KeepsFillers heap.old.work.heap.gaps heap.new.work.heap.gaps)
        (S.image space.old) (S.image space.new)) }
    ensures effect { OnlyReads (S.state space.old) (S.state space.new) }
    ensures waits { OnOk result (how_many (S.waiting space.new)
        ≤ how_many (S.waiting space.old) + ((44 + 24 * length chunks.now) / 4096 + 11)) }
    ensures cause { IfErr result (IsTakeRefusal (IsUntold (S.image space.old))
        (S.state space.old).faults (S.state space.new).faults) }
{
    let place = match take_range(heap, space, 44 + 24 * chunks.len() as u64) {
        Ok(place) => place,
        Err(error) => return Err(error),
    };
    let text = match table_text(alloc, place, chunks, last) {
        Ok(text) => text,
        Err(error) => return Err(error),
    };
    match store(space, place, &text) {
        Ok(()) => Ok(place),
        Err(error) => Err(error),
    }
}

// Gathers the data in one new chunk, and gives the old ones and their table.
fn gather<S: Space>(
    heap: &mut Heap,
    space: &mut S,
    table: Option<u64>,
    chunks: &[Chunk],
    old: u64,
    new: u64,
) -> Result<DataPlace, AdfError>
    requires sound { S.is_sound space.old }
    requires near { IfSome table (λ place. place < 2 ^ 44) }
    requires few { length chunks.now < 65536 }
    requires sane { All IsSane chunks.now }
    requires was { old ≤ payload_length (parts_of chunks.now) }
    requires size { (old ≤ new) × (1 ≤ new) × (new ≤ 2 ^ 30) }
    requires heap { IsHeap heap.old.work.heap }
    requires threads { IfSome (S.image space.old) (IsThreaded heap.old.work) }
    ensures sound { S.is_sound space.new }
    ensures gathers { IfOk result (λ now. Both
        (GathersData heap.old.limit table (parts_of chunks.now) old new now heap.old.work.heap
        heap.new.work) (S.image space.old) (S.image space.new)) }
    ensures offset { IfOk result (λ now. HasOffset now.pointer) }
    ensures full { (asked end : ℕ) → result ≡ Err (AdfError.Full asked end)
        → heap_take heap.old.limit (chunk_length_for new) heap.old.work.heap
        ≡ Err (record { asked = asked; end = end }) }
    ensures kept { heap.new.kept ≡ heap.old.kept }
    ensures limit { heap.new.limit ≡ heap.old.limit }
    ensures heap { IsHeap heap.new.work.heap }
    ensures pairs { pairs heap.new.work.heap.gaps ≤ pairs heap.old.work.heap.gaps }
    ensures bytes { Both (ChangesOnly (changed_ranges
        (extents_in table (parts_of chunks.now)) heap.old.work.heap heap.new.work.heap))
        (S.image space.old)
        (S.image space.new) }
    ensures only { WaitsWhereTold (S.image space.old) (changed_ranges
        (extents_in table (parts_of chunks.now)) heap.old.work.heap heap.new.work.heap)
        (S.waiting space.old) (S.waiting space.new) }
    ensures effect { OnlyReads (S.state space.old) (S.state space.new) }
    ensures waits { OnOk result (how_many (S.waiting space.new)
        ≤ how_many (S.waiting space.old) + (new / 4096 + 24 + 12 * length chunks.now)) }
    ensures cause { IfErr result (IsTakeRefusal
        (Ungivable (S.image space.old) (extents_in table (parts_of chunks.now)) heap.old.work.heap)
        (S.state space.old).faults (S.state space.new).faults) }
{
    let place = match put_chunk(heap, space, chunks, old, chunk_length(new)) {
        Ok(place) => place,
        Err(error) => return Err(error),
    };
    match give_data(heap, space, table, chunks) {
        Ok(()) => {}
        Err(error) => return Err(error),
    }
    Ok(DataPlace {
        count: 1,
        pointer: from_place(place),
    })
}

// Adds a chunk for what is added, places the table of all anew, and gives the old table. What stands behind the data in
// the old chunks becomes zero.
fn extend<S: Space>(
    alloc: Global,
    heap: &mut Heap,
    space: &mut S,
    table: Option<u64>,
    chunks: &[Chunk],
    old: u64,
    have: u64,
    added: u64,
) -> Result<DataPlace, AdfError>
    requires sound { S.is_sound space.old }
    requires near { IfSome table (λ place. place < 2 ^ 44) }
    requires some { 1 ≤ length chunks.now }
    requires few { length chunks.now < 64 }
    requires sane { All IsSane chunks.now }
    requires have { have ≡ payload_length (parts_of chunks.now) }
    requires was { old ≤ have }
    requires added { (1 ≤ added) × (have + added ≤ 2 ^ 30) }
    requires heap { IsHeap heap.old.work.heap }
    requires threads { IfSome (S.image space.old) (IsThreaded heap.old.work) }
    ensures sound { S.is_sound space.new }
    ensures extends { IfOk result (λ now. Both
        (ExtendsData heap.old.limit table (parts_of chunks.now) old added now heap.old.work.heap
        heap.new.work) (S.image space.old) (S.image space.new)) }
    ensures offset { IfOk result (λ now. HasOffset now.pointer) }
    ensures full { (asked end : ℕ) → result ≡ Err (AdfError.Full asked end)
        → IsFullAt heap.old.limit (chunk_length_for added)
        (chunk_table_length (length chunks.now + 1)) heap.old.work.heap
        (record { asked = asked; end = end }) }
    ensures kept { heap.new.kept ≡ heap.old.kept }
    ensures limit { heap.new.limit ≡ heap.old.limit }
    ensures heap { IsHeap heap.new.work.heap }
    ensures pairs { pairs heap.new.work.heap.gaps ≤ pairs heap.old.work.heap.gaps }
    ensures bytes { Both (ChangesOnly (changed_ranges
        (extents_in table (parts_of chunks.now)) heap.old.work.heap heap.new.work.heap))
        (S.image space.old)
        (S.image space.new) }
    ensures only { WaitsWhereTold (S.image space.old) (changed_ranges
        (extents_in table (parts_of chunks.now)) heap.old.work.heap heap.new.work.heap)
        (S.waiting space.old) (S.waiting space.new) }
    ensures effect { OnlyReads (S.state space.old) (S.state space.new) }
    ensures waits { OnOk result (how_many (S.waiting space.new)
        ≤ how_many (S.waiting space.old) + ((have - old + added) / 4096 + 36
        + 2 * length chunks.now)) }
    ensures cause { IfErr result (IsTakeRefusal
        (Ungivable (S.image space.old) (extents_in table (parts_of chunks.now)) heap.old.work.heap)
        (S.state space.old).faults (S.state space.new).faults) }
{
    let count = chunks.len() as u64;
    let length = chunk_length(added);
    let place = match put_chunk(heap, space, &[], 0, length) {
        Ok(place) => place,
        Err(error) => return Err(error),
    };
    let list = match put_table(alloc, heap, space, chunks, Chunk { place, length }) {
        Ok(list) => list,
        Err(error) => return Err(error),
    };
    match give_table(heap, space, table, count) {
        Ok(()) => {}
        Err(error) => return Err(error),
    }
    match zero_range(space, chunks, old, have - old) {
        Ok(()) => {}
        Err(error) => return Err(error),
    }
    Ok(DataPlace {
        count: count as u16 + 1,
        pointer: from_place(list),
    })
}

// Whether data in so many chunks are gathered in one where they have no room.
fn are_gathered(count: usize) -> bool
    ensures gathered { IsTrue result → (count ≡ 0) ⊎ (64 ≤ count) }
    ensures not { IsFalse result → (1 ≤ count) × (count < 64) }
{
    count == 0 || count >= 64
}

/// Gives data a size for which their chunks have no room: in one more chunk, or, where there is none or there are 64 or more, in
/// one new chunk.
pub(crate) fn grow<S: Space>(
    alloc: Global,
    heap: &mut Heap,
    space: &mut S,
    table: Option<u64>,
    chunks: &[Chunk],
    old: u64,
    have: u64,
    new: u64,
) -> Result<DataPlace, AdfError>
    requires sound { S.is_sound space.old }
    requires near { IfSome table (λ place. place < 2 ^ 44) }
    requires few { length chunks.now < 65536 }
    requires sane { All IsSane chunks.now }
    requires have { have ≡ payload_length (parts_of chunks.now) }
    requires was { old ≤ have }
    requires size { (have < new) × (new ≤ 2 ^ 30) }
    requires heap { IsHeap heap.old.work.heap }
    requires threads { IfSome (S.image space.old) (IsThreaded heap.old.work) }
    ensures sound { S.is_sound space.new }
    ensures grows { IfOk result (λ now.
        Both (GrowsData heap.old.limit table (parts_of chunks.now) old new now heap.old.work.heap
        heap.new.work) (S.image space.old) (S.image space.new)) }
    ensures offset { IfOk result (λ now. HasOffset now.pointer) }
    ensures full { (asked end : ℕ) → result ≡ Err (AdfError.Full asked end)
        → IsFullFor heap.old.limit table (parts_of chunks.now) new heap.old.work.heap
        (record { asked = asked; end = end }) }
    ensures room { (asked end : ℕ) → result ≡ Err (AdfError.Full asked end)
        → heap.old.limit * 4096 < heap.old.work.heap.end + 1 + chunk_length_for new
        + room_of_table (length chunks.now) }
    ensures kept { heap.new.kept ≡ heap.old.kept }
    ensures limit { heap.new.limit ≡ heap.old.limit }
    ensures heap { IsHeap heap.new.work.heap }
    ensures pairs { pairs heap.new.work.heap.gaps ≤ pairs heap.old.work.heap.gaps }
    ensures bytes { Both (ChangesOnly (changed_ranges
        (extents_in table (parts_of chunks.now)) heap.old.work.heap heap.new.work.heap))
        (S.image space.old)
        (S.image space.new) }
    ensures only { WaitsWhereTold (S.image space.old) (changed_ranges
        (extents_in table (parts_of chunks.now)) heap.old.work.heap heap.new.work.heap)
        (S.waiting space.old) (S.waiting space.new) }
    ensures effect { OnlyReads (S.state space.old) (S.state space.new) }
    ensures waits { OnOk result (WaitsToGrow (length chunks.now) old new (S.waiting space.old)
        (S.waiting space.new)) }
    ensures cause { IfErr result (IsTakeRefusal
        (Ungivable (S.image space.old) (extents_in table (parts_of chunks.now)) heap.old.work.heap)
        (S.state space.old).faults (S.state space.new).faults) }
{
    if are_gathered(chunks.len()) {
        return match gather(heap, space, table, chunks, old, new) {
            Ok(now) => Ok(now),
            Err(error) => Err(error),
        };
    }
    match extend(alloc, heap, space, table, chunks, old, have, new - have) {
        Ok(now) => Ok(now),
        Err(error) => Err(error),
    }
}
