//! Data that are put whole where there are none.

ghost use Rattle.std.specs.Prelude.{◌≡◌, ℕ, [], ◌+◌, ◌-◌, ◌*◌, ◌/◌, ◌^◌, ◌≤◌, length, None, Err, IfOk, IfErr, IfSome, OnOk};
ghost use Rattle.std.specs.List.{All};
ghost use Rattle.cg_io.specs.Blocks.{Both};
ghost use Rattle.cg_io.specs.Answers.{OnlyReads, IsRefusal, IsUntold};
ghost use Rattle.cg_io.specs.Waits.{how_many, IsTouched, WaitsOnly};
ghost use Rattle.adf_format.specs.HeapRule.{pairs};
ghost use Rattle.field_access.specs.Fields.{WaitsWhereTold};
ghost use Rattle.adf_model.specs.declared.error.AdfError.{AdfError};
ghost use Rattle.disk_ptr.specs.View.{HasOffset};
ghost use Rattle.file_heap.specs.Heap.{IsHeap, IsThreaded, IsTakeRefusal, ChangesOnly};
ghost use Rattle.strided.specs.RunLists.{spread};
ghost use Rattle.adf_data.specs.Fills.{ChangesAt, MakesText};
ghost use Rattle.adf_data.specs.Runs.{EndsIn, fresh_elements};
ghost use Rattle.adf_data.specs.Growing.{room_of, IsFullFor, PutsData};

use crate::chunks::Chunk;
use crate::fills::{fill, write_chunk};
use crate::grow::chunk_length;
use crate::place::DataPlace;
use crate::room::take_range;
use crate::runs::write_each;
use crate::spaces::store;
use adf_chunks::{Part, encode_head, tail};
use adf_model::{AdfError, Run, Runs};
use cg_io::Space;
use disk_ptr::from_place;
use file_heap::Heap;

// Writes a chunk at a place, with a text and zeros behind it.
fn write_text<S: Space>(space: &mut S, text: &[u8], n: u64, place: u64) -> Result<(), AdfError>
    requires sound { S.is_sound space.old }
    requires long { 21 ≤ n }
    requires fits { 20 + length text.now ≤ n }
    requires near { place + n ≤ 2 ^ 44 }
    ensures sound { S.is_sound space.new }
    ensures made { OnOk result (Both (MakesText text.now n place) (S.image space.old)
        (S.image space.new)) }
    ensures bytes { Both (ChangesAt place n) (S.image space.old) (S.image space.new) }
    ensures only { WaitsOnly (IsTouched place n) (S.waiting space.old) (S.waiting space.new) }
    ensures effect { OnlyReads (S.state space.old) (S.state space.new) }
    ensures cause { IfErr result (IsRefusal ⊥ (S.state space.old).faults
        (S.state space.new).faults) }
{
    let kept = text.len() as u64;
    let end = place + n - 4;
    match store(space, place, &encode_head(Part::Data, from_place(end))) {
        Ok(()) => {}
        Err(error) => return Err(error),
    }
    match store(space, place + 16, text) {
        Ok(()) => {}
        Err(error) => return Err(error),
    }
    match fill(space, place + 16 + kept, n - 20 - kept) {
        Ok(()) => {}
        Err(error) => return Err(error),
    }
    match store(space, end, &tail(Part::Data)) {
        Ok(()) => Ok(()),
        Err(error) => Err(error),
    }
}

// Writes a chunk at a place, with zeros and the elements of some runs over them.
fn write_elements<S: Space>(
    space: &mut S,
    size: u64,
    element: u64,
    runs: &[Run],
    bytes: &[u8],
    n: u64,
    place: u64,
) -> Result<(), AdfError>
    requires sound { S.is_sound space.old }
    requires long { 21 ≤ n }
    requires fits { 20 + size ≤ n }
    requires small { size ≤ 2 ^ 30 }
    requires ends { All (EndsIn element size) runs.now }
    requires bytes { length bytes.now ≡ element * length (spread runs.now) }
    requires near { place + n ≤ 2 ^ 44 }
    ensures sound { S.is_sound space.new }
    ensures made { OnOk result (Both (MakesText (fresh_elements size element runs.now bytes.now)
        n place) (S.image space.old) (S.image space.new)) }
    ensures changes { Both (ChangesAt place n) (S.image space.old) (S.image space.new) }
    ensures only { WaitsOnly (IsTouched place n) (S.waiting space.old) (S.waiting space.new) }
    ensures effect { OnlyReads (S.state space.old) (S.state space.new) }
    ensures cause { IfErr result (IsRefusal ⊥ (S.state space.old).faults
        (S.state space.new).faults) }
{
    match write_chunk(space, &[], 0, n, place) {
        Ok(()) => {}
        Err(error) => return Err(error),
    }
    let chunks = [Chunk { place, length: n }];
    match write_each(space, &chunks, element, runs, bytes) {
        Ok(()) => Ok(()),
        Err(error) => Err(error),
    }
}

/// Puts data where there are none: takes one chunk, of 20 bytes more than the data and at least 32, and writes them to it, each
/// block once. The place that names the chunk.
///
/// After a refusal the space has any bytes in the heap's room.
pub fn put_whole<S: Space>(
    heap: &mut Heap,
    space: &mut S,
    text: &[u8],
) -> Result<DataPlace, AdfError>
    requires sound { S.is_sound space.old }
    requires some { 1 ≤ length text.now }
    requires small { length text.now ≤ 2 ^ 30 }
    requires heap { IsHeap heap.old.work.heap }
    requires threads { IfSome (S.image space.old) (IsThreaded heap.old.work) }
    ensures sound { S.is_sound space.new }
    ensures put { IfOk result (λ now.
        Both (PutsData heap.old.limit text.now now heap.old.work.heap heap.new.work)
        (S.image space.old) (S.image space.new)) }
    ensures offset { IfOk result (λ now. HasOffset now.pointer) }
    ensures full { (asked end : ℕ) → result ≡ Err (AdfError.Full asked end)
        → IsFullFor heap.old.limit None [] (length text.now) heap.old.work.heap
        (record { asked = asked; end = end }) }
    ensures kept { heap.new.kept ≡ heap.old.kept }
    ensures limit { heap.new.limit ≡ heap.old.limit }
    ensures heap { IsHeap heap.new.work.heap }
    ensures pairs { pairs heap.new.work.heap.gaps ≤ pairs heap.old.work.heap.gaps }
    ensures bytes { Both (ChangesOnly (room_of heap.old.work.heap heap.new.work.heap))
        (S.image space.old)
        (S.image space.new) }
    ensures only { WaitsWhereTold (S.image space.old)
        (room_of heap.old.work.heap heap.new.work.heap)
        (S.waiting space.old) (S.waiting space.new) }
    ensures effect { OnlyReads (S.state space.old) (S.state space.new) }
    ensures waits { OnOk result (how_many (S.waiting space.new)
        ≤ how_many (S.waiting space.old) + (length text.now / 4096 + 12)) }
    ensures cause { IfErr result (IsTakeRefusal (IsUntold (S.image space.old))
        (S.state space.old).faults (S.state space.new).faults) }
{
    let n = chunk_length(text.len() as u64);
    let place = match take_range(heap, space, n) {
        Ok(place) => place,
        Err(error) => return Err(error),
    };
    match write_text(space, text, n, place) {
        Ok(()) => Ok(DataPlace {
            count: 1,
            pointer: from_place(place),
        }),
        Err(error) => Err(error),
    }
}

/// Puts the elements of some runs where there are no data: takes one chunk for data of this size, makes them zero, and writes the
/// elements over them. The place that names the chunk. However many the runs are, no more blocks wait anew than those of the chunk
/// and of the heap.
///
/// After a refusal the space has any bytes in the heap's room.
pub fn put_part<S: Space>(
    heap: &mut Heap,
    space: &mut S,
    size: u64,
    element: u64,
    runs: &Runs,
    bytes: &[u8],
) -> Result<DataPlace, AdfError>
    requires sound { S.is_sound space.old }
    requires some { 1 ≤ size }
    requires small { size ≤ 2 ^ 30 }
    requires ends { All (EndsIn element size) runs.now }
    requires bytes { length bytes.now ≡ element * length (spread runs.now) }
    requires heap { IsHeap heap.old.work.heap }
    requires threads { IfSome (S.image space.old) (IsThreaded heap.old.work) }
    ensures sound { S.is_sound space.new }
    ensures put { IfOk result (λ now.
        Both (PutsData heap.old.limit (fresh_elements size element runs.now bytes.now) now
        heap.old.work.heap heap.new.work) (S.image space.old) (S.image space.new)) }
    ensures offset { IfOk result (λ now. HasOffset now.pointer) }
    ensures full { (asked end : ℕ) → result ≡ Err (AdfError.Full asked end)
        → IsFullFor heap.old.limit None [] size heap.old.work.heap
        (record { asked = asked; end = end }) }
    ensures kept { heap.new.kept ≡ heap.old.kept }
    ensures limit { heap.new.limit ≡ heap.old.limit }
    ensures heap { IsHeap heap.new.work.heap }
    ensures pairs { pairs heap.new.work.heap.gaps ≤ pairs heap.old.work.heap.gaps }
    ensures changes { Both (ChangesOnly (room_of heap.old.work.heap heap.new.work.heap))
        (S.image space.old)
        (S.image space.new) }
    ensures only { WaitsWhereTold (S.image space.old)
        (room_of heap.old.work.heap heap.new.work.heap)
        (S.waiting space.old) (S.waiting space.new) }
    ensures effect { OnlyReads (S.state space.old) (S.state space.new) }
    ensures waits { OnOk result (how_many (S.waiting space.new)
        ≤ how_many (S.waiting space.old) + (size / 4096 + 12)) }
    ensures cause { IfErr result (IsTakeRefusal (IsUntold (S.image space.old))
        (S.state space.old).faults (S.state space.new).faults) }
{
    let n = chunk_length(size);
    let place = match take_range(heap, space, n) {
        Ok(place) => place,
        Err(error) => return Err(error),
    };
    match write_elements(space, size, element, runs.items(), bytes, n, place) {
        Ok(()) => Ok(DataPlace {
            count: 1,
            pointer: from_place(place),
        }),
        Err(error) => Err(error),
    }
}
