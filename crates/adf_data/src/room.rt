//! Ranges of the heap: taken, and given back.

ghost use Rattle.std.specs.Prelude.{◌≡◌, ◌⊎◌, ℕ, ◌∷◌, ◌++◌, ◌^◌, ◌+◌, ◌≤◌, Ok, Err, IfOk, IfErr, IfSome, OnOk, OnErr};
ghost use Rattle.cg_io.specs.Blocks.{Both};
ghost use Rattle.cg_io.specs.Answers.{OnlyReads, IsRefusal, IsUntold};
ghost use Rattle.cg_io.specs.Waits.{how_many};
ghost use Rattle.adf_format.specs.Changes.{heap_fields};
ghost use Rattle.field_access.specs.Fields.{WaitsWhereTold};
ghost use Rattle.adf_format.specs.HeapRule.{LimitReached, heap_take, heap_give, pairs};
ghost use Rattle.adf_model.specs.declared.error.AdfError.{AdfError};
ghost use Rattle.file_heap.specs.Links.{range};
ghost use Rattle.file_heap.specs.Heap.{IsHeap, IsThreaded, IsTakeRefusal, MayGive, ChangesOnly, MovesEnd, KeepsFillers, IsTakenWithin, TakesCover};

use adf_model::AdfError;
use cg_io::Space;
use file_heap::Heap;

/// Takes n bytes: their place.
#[tactic(auto, using(cg_io::proofs::ReadLaws::few_only, crate::proofs::HeapWords::takes_ok, crate::proofs::HeapWords::takes_full, crate::proofs::HeapWords::takes_none, crate::proofs::HeapWords::takes_grow))]
pub(crate) fn take_range<S: Space>(heap: &mut Heap, space: &mut S, n: u64) -> Result<u64, AdfError>
    requires sound { S.is_sound space.old }
    requires some { (1 ≤ n) × (n ≤ 2 ^ 44) }
    requires threads { IfSome (S.image space.old) (IsThreaded heap.old.work) }
    ensures sound { S.is_sound space.new }
    ensures takes { IfOk result (λ place. heap_take heap.old.limit n heap.old.work.heap
        ≡ Ok (place, heap.new.work.heap)) }
    ensures full { (asked end : ℕ) → result ≡ Err (AdfError.Full asked end)
        → heap_take heap.old.limit n heap.old.work.heap
        ≡ Err (record { asked = asked; end = end }) }
    ensures refused { OnErr result (heap.new.work.heap ≡ heap.old.work.heap) }
    ensures kept { heap.new.kept ≡ heap.old.kept }
    ensures limit { heap.new.limit ≡ heap.old.limit }
    ensures grows { heap.old.work.heap.end ≤ heap.new.work.heap.end }
    ensures heap { IsHeap heap.new.work.heap }
    ensures within { IfOk result (IsTakenWithin n heap.new.work.heap) }
    ensures covers { IfOk result (TakesCover n heap.old.work.heap heap.new.work.heap) }
    ensures pairs { pairs heap.new.work.heap.gaps ≤ pairs heap.old.work.heap.gaps }
    ensures threads { OnOk result (IfSome (S.image space.new) (IsThreaded heap.new.work)) }
    ensures bytes { Both (ChangesOnly (heap_fields ++ heap.old.work.heap.gaps)) (S.image space.old)
        (S.image space.new) }
    ensures end { OnOk result (Both (MovesEnd heap.old.work.heap.end heap.new.work.heap.end)
        (S.image space.old) (S.image space.new)) }
    ensures fillers { OnOk result (Both
        (KeepsFillers heap.old.work.heap.gaps heap.new.work.heap.gaps)
        (S.image space.old) (S.image space.new)) }
    ensures only { WaitsWhereTold (S.image space.old) (heap_fields ++ heap.old.work.heap.gaps)
        (S.waiting space.old) (S.waiting space.new) }
    ensures effect { OnlyReads (S.state space.old) (S.state space.new) }
    ensures waits { how_many (S.waiting space.new) ≤ how_many (S.waiting space.old) + 9 }
    ensures cause { IfErr result (IsTakeRefusal (IsUntold (S.image space.old))
        (S.state space.old).faults (S.state space.new).faults) }
{
    heap.take(space, n)
}

/// Gives a range that was read from the bytes: where these are not told it may be none that can be given.
#[tactic(auto, using(file_heap::proofs::ChangeLaws::changes_none, field_access::proofs::WaitLaws::waits_none, cg_io::proofs::ReadLaws::few_only))]
pub(crate) fn give_range<S: Space>(
    heap: &mut Heap,
    space: &mut S,
    place: u64,
    n: u64,
) -> Result<(), AdfError>
    requires sound { S.is_sound space.old }
    requires some { 1 ≤ n }
    requires near { place + n ≤ 2 ^ 45 }
    requires heap { IsHeap heap.old.work.heap }
    requires threads { IfSome (S.image space.old) (IsThreaded heap.old.work) }
    ensures sound { S.is_sound space.new }
    ensures gives { OnOk result (heap.new.work.heap ≡ heap_give place n heap.old.work.heap) }
    ensures kept { heap.new.kept ≡ heap.old.kept }
    ensures limit { heap.new.limit ≡ heap.old.limit }
    ensures last { heap.new.work.heap.end ≡ heap.old.work.heap.end }
    ensures heap { IsHeap heap.new.work.heap }
    ensures pairs { pairs heap.new.work.heap.gaps ≤ pairs heap.old.work.heap.gaps }
    ensures threads { OnOk result (IfSome (S.image space.new) (IsThreaded heap.new.work)) }
    ensures bytes { Both (ChangesOnly (heap_fields ++ range place n ∷ heap.old.work.heap.gaps))
        (S.image space.old) (S.image space.new) }
    ensures only { WaitsWhereTold (S.image space.old)
        (heap_fields ++ range place n ∷ heap.old.work.heap.gaps)
        (S.waiting space.old) (S.waiting space.new) }
    ensures end { OnOk result (Both (MovesEnd heap.old.work.heap.end heap.new.work.heap.end)
        (S.image space.old) (S.image space.new)) }
    ensures fillers { OnOk result (Both
        (KeepsFillers heap.old.work.heap.gaps heap.new.work.heap.gaps)
        (S.image space.old) (S.image space.new)) }
    ensures effect { OnlyReads (S.state space.old) (S.state space.new) }
    ensures waits { how_many (S.waiting space.new) ≤ how_many (S.waiting space.old) + 12 }
    ensures cause { IfErr result (IsRefusal (IsUntold (S.image space.old)
        ⊎ (MayGive place n heap.old.work.heap → ⊥)) (S.state space.old).faults
        (S.state space.new).faults) }
{
    if !heap.may_give(place, n) {
        return Err(AdfError::Layout { rule: 30, place });
    }
    heap.give(space, place, n)
}
