//! Data of a node that become others: in a new chunk where it has none, else where they stand.

ghost use Rattle.std.specs.Prelude.{◌≡◌, ◌≢◌, ◌∷◌, [], ◌+◌, ◌*◌, ◌/◌, ◌^◌, ◌<◌, ◌≤◌, ℕ, List, Option, length, Some, Err, IfErr, IfOk, IfSome, OnOk};
ghost use Rattle.std.specs.List.{All};
ghost use Rattle.adf_format.specs.Names.{data_size};
ghost use Rattle.adf_format.specs.Placement.{NodeParts};
ghost use Rattle.adf_model.specs.declared.error.AdfError.{AdfError};
ghost use Rattle.adf_records.specs.View.{HasOffsets};
ghost use Rattle.cg_io.specs.Answers.{OnlyReads, IsRefusal};
ghost use Rattle.cg_io.specs.Blocks.{Both};
ghost use Rattle.cg_io.specs.Waits.{how_many};
ghost use Rattle.disk_ptr.specs.View.{HasOffset};
ghost use Rattle.file_heap.specs.Heap.{IsHeap, IsThreaded};
ghost use Rattle.strided.specs.RunLists.{spread};
ghost use Rattle.adf_data.specs.Runs.{EndsIn};
ghost use Rattle.tree_asks.specs.Headers.{dims_of};
ghost use Rattle.tree_edits.specs.Taken.{KeepsHeap, IsRoomless};
ghost use Rattle.data_edits.specs.Becomes.{BecomeBy, NoneOwned, Owned, WaitBy, spot_after};
ghost use Rattle.data_edits.specs.Puts.{KeepsLength, LacksData, put_cost, put_on};

use adf_data::{DataPlace, put_part, put_whole, write_runs};
use adf_model::{AdfError, Listing, Run, Runs};
use adf_records::NodeHeader;
use cg_io::Space;
use file_heap::Heap;
use std::alloc::Global;

// All of so many bytes, as one run.
fn one_run(alloc: Global, count: u64) -> Result<Runs, AdfError>
    ensures run { IfOk result (λ runs. runs ≡ record { first = 0; count = count } ∷ []) }
    ensures memory { IfErr result (λ e. e ≡ AdfError.Memory) }
{
    let mut runs = Vec::new(alloc);
    match runs.push(Run { first: 0, count }) {
        Ok(()) => Ok(Listing::new(runs)),
        Err(_) => Err(AdfError::Memory),
    }
}

// Writes the elements of some runs over the data of a node of so many bytes, which stay where they are.
fn write_over<S: Space>(
    alloc: Global,
    space: &mut S,
    heap: &Heap,
    header: &NodeHeader,
    size: u64,
    element: u64,
    runs: &Runs,
    bytes: &[u8],
) -> Result<DataPlace, AdfError>
    requires sound { S.is_sound space.old }
    requires offsets { HasOffsets header.now }
    requires size { size ≡ data_size header.now.kind (dims_of header.now) }
    requires some { 1 ≤ size }
    requires small { size ≤ 2 ^ 30 }
    requires there { header.now.chunks ≢ 0 }
    requires ends { All (EndsIn element size) runs.now }
    requires bytes { length bytes.now ≡ element * length (spread runs.now) }
    requires long { KeepsLength size element (spread runs.now) bytes.now }
    requires heap { IsHeap heap.now.work.heap }
    requires threads { IfSome (S.image space.old) (IsThreaded heap.now.work) }
    ensures sound { S.is_sound space.new }
    ensures becomes { IfOk result (λ now. Both (BecomeBy heap.now.limit
        (put_on size element (spread runs.now) bytes.now) header.now now heap.now.work.heap
        heap.now.work) (S.image space.old) (S.image space.new)) }
    ensures offset { IfOk result (λ now. HasOffset now.pointer) }
    ensures effect { OnlyReads (S.state space.old) (S.state space.new) }
    ensures only { OnOk result (WaitBy header.now heap.now.work.heap heap.now.work.heap
        (S.image space.old) (S.waiting space.old) (S.waiting space.new)) }
    ensures waits { how_many (S.waiting space.new)
        ≤ how_many (S.waiting space.old) + (size / 4096 + 2 * header.now.chunks) }
    ensures cause { IfErr result (IsRefusal
        (NoneOwned header.now heap.now.work.heap (S.image space.old)) (S.state space.old).faults
        (S.state space.new).faults) }
{
    let at = DataPlace {
        count: header.chunks,
        pointer: header.chunk,
    };
    match write_runs(alloc, space, &at, element, runs, bytes) {
        Ok(()) => Ok(at),
        Err(error) => Err(error),
    }
}

/// Gives a node of so many bytes of data all of them. They stand here then.
pub(crate) fn place_whole<S: Space>(
    alloc: Global,
    space: &mut S,
    heap: &mut Heap,
    header: &NodeHeader,
    bytes: &[u8],
) -> Result<DataPlace, AdfError>
    requires sound { S.is_sound space.old }
    requires offsets { HasOffsets header.now }
    requires size { length bytes.now ≡ data_size header.now.kind (dims_of header.now) }
    requires some { 1 ≤ length bytes.now }
    requires small { length bytes.now ≤ 2 ^ 30 }
    requires heap { IsHeap heap.old.work.heap }
    requires threads { IfSome (S.image space.old) (IsThreaded heap.old.work) }
    ensures sound { S.is_sound space.new }
    ensures heap { IsHeap heap.new.work.heap }
    ensures becomes { IfOk result (λ now. Both (BecomeBy heap.old.limit (λ was. Some bytes.now)
        header.now now heap.old.work.heap heap.new.work) (S.image space.old) (S.image space.new)) }
    ensures offset { IfOk result (λ now. HasOffset now.pointer) }
    ensures kept { KeepsHeap heap.old heap.new }
    ensures exact { (asked end : ℕ) → result ≡ Err (AdfError.Full asked end)
        → (parts : NodeParts) (was : Option (List ℕ))
        → Owned header.now parts was heap.old.work.heap (S.image space.old)
        → spot_after heap.old.limit (Some bytes.now) (parts, heap.old.work.heap)
        ≡ Err (record { asked = asked; end = end }) }
    ensures effect { OnlyReads (S.state space.old) (S.state space.new) }
    ensures only { OnOk result (WaitBy header.now heap.old.work.heap heap.new.work.heap
        (S.image space.old) (S.waiting space.old) (S.waiting space.new)) }
    ensures waits { OnOk result (how_many (S.waiting space.new) + 2
        ≤ how_many (S.waiting space.old) + put_cost header.now) }
    ensures cause { IfErr result (IsRoomless
        (LacksData heap.old.limit header.now heap.old.work.heap)
        (NoneOwned header.now heap.old.work.heap (S.image space.old)) (S.state space.old).faults
        (S.state space.new).faults) }
{
    if header.chunks == 0 {
        return put_whole(heap, space, bytes);
    }
    let size = bytes.len() as u64;
    let all = match one_run(alloc, size) {
        Ok(runs) => runs,
        Err(error) => return Err(error),
    };
    write_over(alloc, space, heap, header, size, 1, &all, bytes)
}

/// Gives a node of so many bytes of data the elements of some runs, over zeros where it has none. They stand here then.
pub(crate) fn place_part<S: Space>(
    alloc: Global,
    space: &mut S,
    heap: &mut Heap,
    header: &NodeHeader,
    size: u64,
    element: u64,
    runs: &Runs,
    bytes: &[u8],
) -> Result<DataPlace, AdfError>
    requires sound { S.is_sound space.old }
    requires offsets { HasOffsets header.now }
    requires size { size ≡ data_size header.now.kind (dims_of header.now) }
    requires some { 1 ≤ size }
    requires small { size ≤ 2 ^ 30 }
    requires ends { All (EndsIn element size) runs.now }
    requires bytes { length bytes.now ≡ element * length (spread runs.now) }
    requires long { KeepsLength size element (spread runs.now) bytes.now }
    requires heap { IsHeap heap.old.work.heap }
    requires threads { IfSome (S.image space.old) (IsThreaded heap.old.work) }
    ensures sound { S.is_sound space.new }
    ensures heap { IsHeap heap.new.work.heap }
    ensures becomes { IfOk result (λ now. Both (BecomeBy heap.old.limit
        (put_on size element (spread runs.now) bytes.now) header.now now heap.old.work.heap
        heap.new.work) (S.image space.old) (S.image space.new)) }
    ensures offset { IfOk result (λ now. HasOffset now.pointer) }
    ensures kept { KeepsHeap heap.old heap.new }
    ensures exact { (asked end : ℕ) → result ≡ Err (AdfError.Full asked end)
        → (parts : NodeParts) (was : Option (List ℕ))
        → Owned header.now parts was heap.old.work.heap (S.image space.old)
        → spot_after heap.old.limit (put_on size element (spread runs.now) bytes.now was)
        (parts, heap.old.work.heap) ≡ Err (record { asked = asked; end = end }) }
    ensures effect { OnlyReads (S.state space.old) (S.state space.new) }
    ensures only { OnOk result (WaitBy header.now heap.old.work.heap heap.new.work.heap
        (S.image space.old) (S.waiting space.old) (S.waiting space.new)) }
    ensures waits { OnOk result (how_many (S.waiting space.new) + 2
        ≤ how_many (S.waiting space.old) + put_cost header.now) }
    ensures cause { IfErr result (IsRoomless
        (LacksData heap.old.limit header.now heap.old.work.heap)
        (NoneOwned header.now heap.old.work.heap (S.image space.old)) (S.state space.old).faults
        (S.state space.new).faults) }
{
    if header.chunks == 0 {
        return put_part(heap, space, size, element, runs, bytes);
    }
    write_over(alloc, space, heap, header, size, element, runs, bytes)
}
