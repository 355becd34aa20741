//! Chunks of data and their table, given to the gaps.

ghost use Rattle.std.specs.Prelude.{◌≡◌, ◌++◌, ◌*◌, ◌^◌, ◌+◌, ◌≤◌, ◌<◌, length, IfErr, IfSome, OnOk};
ghost use Rattle.std.specs.List.{All};
ghost use Rattle.cg_io.specs.Blocks.{Both};
ghost use Rattle.cg_io.specs.Answers.{OnlyReads, IsRefusal};
ghost use Rattle.cg_io.specs.Waits.{how_many};
ghost use Rattle.adf_format.specs.Placement.{chunk_extents, chunk_table_extents};
ghost use Rattle.adf_format.specs.Changes.{heap_fields};
ghost use Rattle.field_access.specs.Fields.{WaitsWhereTold};
ghost use Rattle.adf_format.specs.HeapRule.{give_all, pairs};
ghost use Rattle.file_heap.specs.Heap.{IsHeap, IsThreaded, ChangesOnly, MovesEnd, KeepsFillers};
ghost use Rattle.adf_data.specs.Chunks.{parts_of, IsSane};
ghost use Rattle.adf_data.specs.Sizes.{extents_in, Ungivable};

use crate::chunks::Chunk;
use crate::ranges::chunk_of;
use crate::room::give_range;
use adf_model::AdfError;
use cg_io::Space;
use file_heap::Heap;

/// Gives all chunks, in their order.
fn give_chunks<S: Space>(heap: &mut Heap, space: &mut S, chunks: &[Chunk]) -> Result<(), AdfError>
    requires sound { S.is_sound space.old }
    requires sane { All IsSane chunks.now }
    requires heap { IsHeap heap.old.work.heap }
    requires threads { IfSome (S.image space.old) (IsThreaded heap.old.work) }
    ensures sound { S.is_sound space.new }
    ensures gives { OnOk result (heap.new.work.heap ≡ give_all
        (chunk_extents (parts_of chunks.now)) heap.old.work.heap) }
    ensures kept { heap.new.kept ≡ heap.old.kept }
    ensures limit { heap.new.limit ≡ heap.old.limit }
    ensures last { heap.new.work.heap.end ≡ heap.old.work.heap.end }
    ensures heap { IsHeap heap.new.work.heap }
    ensures pairs { pairs heap.new.work.heap.gaps ≤ pairs heap.old.work.heap.gaps }
    ensures threads { OnOk result (IfSome (S.image space.new) (IsThreaded heap.new.work)) }
    ensures bytes { Both (ChangesOnly (heap_fields ++ chunk_extents (parts_of chunks.now)
        ++ heap.old.work.heap.gaps)) (S.image space.old) (S.image space.new) }
    ensures only { WaitsWhereTold (S.image space.old) (heap_fields
        ++ chunk_extents (parts_of chunks.now) ++ heap.old.work.heap.gaps)
        (S.waiting space.old) (S.waiting space.new) }
    ensures end { OnOk result (Both (MovesEnd heap.old.work.heap.end heap.new.work.heap.end)
        (S.image space.old) (S.image space.new)) }
    ensures fillers { OnOk result (Both
        (KeepsFillers heap.old.work.heap.gaps heap.new.work.heap.gaps)
        (S.image space.old) (S.image space.new)) }
    ensures effect { OnlyReads (S.state space.old) (S.state space.new) }
    ensures waits { how_many (S.waiting space.new)
        ≤ how_many (S.waiting space.old) + 12 * length chunks.now }
    ensures cause { IfErr result (IsRefusal (Ungivable (S.image space.old)
        (chunk_extents (parts_of chunks.now)) heap.old.work.heap) (S.state space.old).faults
        (S.state space.new).faults) }
{
    for i in 0..chunks.len() {
        let chunk = chunk_of(chunks, i);
        match give_range(heap, space, chunk.place, chunk.length) {
            Ok(()) => {}
            Err(error) => return Err(error),
        }
    }
    Ok(())
}

/// Gives the table of so many chunks, where there is one.
pub(crate) fn give_table<S: Space>(
    heap: &mut Heap,
    space: &mut S,
    table: Option<u64>,
    count: u64,
) -> Result<(), AdfError>
    requires sound { S.is_sound space.old }
    requires near { IfSome table (λ place. place < 2 ^ 44) }
    requires few { count < 65536 }
    requires heap { IsHeap heap.old.work.heap }
    requires threads { IfSome (S.image space.old) (IsThreaded heap.old.work) }
    ensures sound { S.is_sound space.new }
    ensures gives { OnOk result (heap.new.work.heap ≡ give_all
        (chunk_table_extents table count) heap.old.work.heap) }
    ensures kept { heap.new.kept ≡ heap.old.kept }
    ensures limit { heap.new.limit ≡ heap.old.limit }
    ensures last { heap.new.work.heap.end ≡ heap.old.work.heap.end }
    ensures heap { IsHeap heap.new.work.heap }
    ensures pairs { pairs heap.new.work.heap.gaps ≤ pairs heap.old.work.heap.gaps }
    ensures threads { OnOk result (IfSome (S.image space.new) (IsThreaded heap.new.work)) }
    ensures bytes { Both (ChangesOnly (heap_fields ++ chunk_table_extents table count
        ++ heap.old.work.heap.gaps)) (S.image space.old) (S.image space.new) }
    ensures only { WaitsWhereTold (S.image space.old) (heap_fields
        ++ chunk_table_extents table count ++ heap.old.work.heap.gaps)
        (S.waiting space.old) (S.waiting space.new) }
    ensures end { OnOk result (Both (MovesEnd heap.old.work.heap.end heap.new.work.heap.end)
        (S.image space.old) (S.image space.new)) }
    ensures fillers { OnOk result (Both
        (KeepsFillers heap.old.work.heap.gaps heap.new.work.heap.gaps)
        (S.image space.old) (S.image space.new)) }
    ensures effect { OnlyReads (S.state space.old) (S.state space.new) }
    ensures waits { how_many (S.waiting space.new) ≤ how_many (S.waiting space.old) + 12 }
    ensures cause { IfErr result (IsRefusal (Ungivable (S.image space.old)
        (chunk_table_extents table count) heap.old.work.heap) (S.state space.old).faults
        (S.state space.new).faults) }
{
    match table {
        None => Ok(()),
        Some(place) => give_range(heap, space, place, 20 + 24 * count),
    }
}

/// Gives the table and all chunks, in their order.
pub(crate) fn give_data<S: Space>(
    heap: &mut Heap,
    space: &mut S,
    table: Option<u64>,
    chunks: &[Chunk],
) -> Result<(), AdfError>
    requires sound { S.is_sound space.old }
    requires near { IfSome table (λ place. place < 2 ^ 44) }
    requires few { length chunks.now < 65536 }
    requires sane { All IsSane chunks.now }
    requires heap { IsHeap heap.old.work.heap }
    requires threads { IfSome (S.image space.old) (IsThreaded heap.old.work) }
    ensures sound { S.is_sound space.new }
    ensures gives { OnOk result (heap.new.work.heap ≡ give_all
        (extents_in table (parts_of chunks.now)) heap.old.work.heap) }
    ensures kept { heap.new.kept ≡ heap.old.kept }
    ensures limit { heap.new.limit ≡ heap.old.limit }
    ensures last { heap.new.work.heap.end ≡ heap.old.work.heap.end }
    ensures heap { IsHeap heap.new.work.heap }
    ensures pairs { pairs heap.new.work.heap.gaps ≤ pairs heap.old.work.heap.gaps }
    ensures threads { OnOk result (IfSome (S.image space.new) (IsThreaded heap.new.work)) }
    ensures bytes { Both (ChangesOnly (heap_fields ++ extents_in table (parts_of chunks.now)
        ++ heap.old.work.heap.gaps)) (S.image space.old) (S.image space.new) }
    ensures only { WaitsWhereTold (S.image space.old) (heap_fields
        ++ extents_in table (parts_of chunks.now) ++ heap.old.work.heap.gaps)
        (S.waiting space.old) (S.waiting space.new) }
    ensures end { OnOk result (Both (MovesEnd heap.old.work.heap.end heap.new.work.heap.end)
        (S.image space.old) (S.image space.new)) }
    ensures fillers { OnOk result (Both
        (KeepsFillers heap.old.work.heap.gaps heap.new.work.heap.gaps)
        (S.image space.old) (S.image space.new)) }
    ensures effect { OnlyReads (S.state space.old) (S.state space.new) }
    ensures waits { how_many (S.waiting space.new)
        ≤ how_many (S.waiting space.old) + 12 * (length chunks.now + 1) }
    ensures cause { IfErr result (IsRefusal (Ungivable (S.image space.old)
        (extents_in table (parts_of chunks.now)) heap.old.work.heap) (S.state space.old).faults
        (S.state space.new).faults) }
{
    match give_table(heap, space, table, chunks.len() as u64) {
        Ok(()) => {}
        Err(error) => return Err(error),
    }
    match give_chunks(heap, space, chunks) {
        Ok(()) => Ok(()),
        Err(error) => Err(error),
    }
}
