// Gaps leave the lists and join them, in memory and in the space. A range is given: it is joined with the gaps beside it, and written.
ghost use Rattle.std.specs.Prelude.{◌≡◌, ◌^◌, ◌+◌, ◌≤◌, ◌<◌, ◌∷◌, [], length, filter, remove, IfOk, IfErr, IfSome};
ghost use Rattle.cg_io.specs.Blocks.{Both, ReadsFew};
ghost use Rattle.cg_io.specs.Answers.{IsRefusal, IsUntold};
ghost use Rattle.cg_io.specs.Waits.{how_many};
ghost use Rattle.adf_format.specs.Tiles.{is_free, MeetsNone};
ghost use Rattle.adf_format.specs.HeapRule.{new_gap, give_joined};
ghost use Rattle.gap_tree.specs.Slots.{gaps_of};
ghost use Rattle.field_access.specs.Fields.{WaitsWithin, WaitsWhereTold};
ghost use Rattle.file_heap.specs.Gaps.{put_by_place, give_right};
ghost use Rattle.file_heap.specs.Links.{AreGaps, range, free_table};
ghost use Rattle.file_heap.specs.Slots.{BecomeSlots, ThreadsSlots};
ghost use Rattle.file_heap.specs.Heap.{ChangesOnly};

use crate::lists::{class_of, unlink, write_gap};
use crate::slots::{
    find_begin, find_end, gap_of, in_no_list, is_free, move_to, new_gap, or_memory, put_in,
};
use adf_model::AdfError;
use cg_io::Space;
use gap_tree::{Slot, Spot, Tree};
use std::alloc::Global;
use std::rc::Rc;

/// Takes a gap out of the gaps, and out of the list that has it.
#[tactic(auto, using(crate::proofs::SlotSteps::has_spot, crate::proofs::SlotSteps::filler_gaps, crate::proofs::SlotSteps::chunk_gaps, crate::proofs::SlotSteps::filler_leaves, crate::proofs::SlotSteps::chunk_leaves, crate::proofs::SlotSteps::spot_is_there, crate::proofs::ChangeLaws::changes_none, field_access::proofs::WaitLaws::told_same))]
pub(crate) fn absorb<S: Space>(
    space: &mut S,
    alloc: Global,
    slots: &Rc<Tree>,
    i: usize,
) -> Result<Rc<Tree>, AdfError>
    requires sound { S.is_sound space.old }
    requires inside { i < length slots.now.value }
    requires gaps { AreGaps (gaps_of slots.now.value) }
    requires threads { IfSome (S.image space.old)
        (ThreadsSlots (gaps_of slots.now.value) slots.now.value) }
    ensures sound { S.is_sound space.new }
    ensures gaps { IfOk result (λ rest. gaps_of rest.value ≡ remove (gaps_of slots.now.value) i) }
    ensures threads { IfOk result (λ rest. IfSome (S.image space.new)
        (ThreadsSlots (gaps_of rest.value) rest.value)) }
    ensures bytes { Both (ChangesOnly (free_table ∷ filter is_free (gaps_of slots.now.value)))
        (S.image space.old) (S.image space.new) }
    ensures only { WaitsWhereTold (S.image space.old)
        (free_table ∷ filter is_free (gaps_of slots.now.value))
        (S.waiting space.old) (S.waiting space.new) }
    ensures effect { ReadsFew 6 (S.state space.old) (S.state space.new) }
    ensures waiting { how_many (S.waiting space.new) ≤ how_many (S.waiting space.old) + 3 }
    ensures cause { IfErr result (IsRefusal (IsUntold (S.image space.old))
        (S.state space.old).faults (S.state space.new).faults) }
{
    let slot = slots.get(i);
    if !is_free(slot.gap) {
        return or_memory(slots.removed(alloc, i));
    }
    let Some(spot) = slot.spot else {
        return Err(in_no_list(slot.gap.place));
    };
    let next = unlink(space, slots, i, spot)?;
    let moved = move_to(alloc, slots, next, spot)?;
    or_memory(moved.removed(alloc, i))
}

/// Writes a range as a gap of its own.
#[tactic(auto, using(crate::proofs::SlotSteps::moved_order, crate::proofs::SlotSteps::none_untold, crate::proofs::SlotSteps::first_missing))]
pub(crate) fn give_alone<S: Space>(
    space: &mut S,
    alloc: Global,
    slots: &Rc<Tree>,
    place: u64,
    n: u64,
) -> Result<Rc<Tree>, AdfError>
    requires sound { S.is_sound space.old }
    requires gaps { AreGaps (gaps_of slots.now.value) }
    requires some { 1 ≤ n }
    requires apart { MeetsNone place n (gaps_of slots.now.value) }
    requires low { 266 ≤ place }
    requires high { place + n ≤ 2 ^ 44 }
    requires threads { IfSome (S.image space.old)
        (ThreadsSlots (gaps_of slots.now.value) slots.now.value) }
    ensures sound { S.is_sound space.new }
    ensures given { IfOk result (λ more. BecomeSlots
        (put_by_place (new_gap place n) (gaps_of slots.now.value)) slots.now.value more.value
        (S.image space.old) (S.image space.new)) }
    ensures bytes { Both (ChangesOnly (free_table ∷ range place n ∷ []))
        (S.image space.old) (S.image space.new) }
    ensures only { WaitsWithin (free_table ∷ range place n ∷ []) (S.waiting space.old)
        (S.waiting space.new) }
    ensures effect { ReadsFew 10 (S.state space.old) (S.state space.new) }
    ensures waiting { how_many (S.waiting space.new) ≤ how_many (S.waiting space.old) + 6 }
    ensures cause { IfErr result (IsRefusal (IsUntold (S.image space.old))
        (S.state space.old).faults (S.state space.new).faults) }
{
    let first = write_gap(space, place, n)?;
    let list = class_of(n);
    let behind = Spot {
        list,
        front: Some(place),
    };
    let moved = move_to(alloc, slots, first, behind)?;
    let slot = Slot {
        gap: new_gap(place, n),
        spot: Some(Spot { list, front: None }),
    };
    or_memory(put_in(alloc, &moved, slot))
}

// Joins a range, which no gap ends just before, with the gap that begins just behind it.
#[tactic(auto, using(crate::proofs::SpaceLaws::alone_changes, crate::proofs::SpaceLaws::alone_waits))]
fn give_right<S: Space>(
    space: &mut S,
    alloc: Global,
    slots: &Rc<Tree>,
    place: u64,
    n: u64,
) -> Result<Rc<Tree>, AdfError>
    requires sound { S.is_sound space.old }
    requires gaps { AreGaps (gaps_of slots.now.value) }
    requires some { 1 ≤ n }
    requires apart { MeetsNone place n (gaps_of slots.now.value) }
    requires low { 266 ≤ place }
    requires high { place + n ≤ 2 ^ 44 }
    requires threads { IfSome (S.image space.old)
        (ThreadsSlots (gaps_of slots.now.value) slots.now.value) }
    ensures sound { S.is_sound space.new }
    ensures given { IfOk result (λ more. BecomeSlots
        (give_right place n (gaps_of slots.now.value)) slots.now.value more.value
        (S.image space.old) (S.image space.new)) }
    ensures bytes { Both (ChangesOnly (free_table ∷ range place n ∷ gaps_of slots.now.value))
        (S.image space.old) (S.image space.new) }
    ensures only { WaitsWhereTold (S.image space.old)
        (free_table ∷ range place n ∷ gaps_of slots.now.value)
        (S.waiting space.old) (S.waiting space.new) }
    ensures effect { ReadsFew 16 (S.state space.old) (S.state space.new) }
    ensures waiting { how_many (S.waiting space.new) ≤ how_many (S.waiting space.old) + 9 }
    ensures cause { IfErr result (IsRefusal (IsUntold (S.image space.old))
        (S.state space.old).faults (S.state space.new).faults) }
{
    let Some(i) = find_begin(slots, place + n) else {
        return give_alone(space, alloc, slots, place, n);
    };
    let length = gap_of(slots, i).length;
    let rest = absorb(space, alloc, slots, i)?;
    give_alone(space, alloc, &rest, place, n + length)
}

/// Joins a range with the gap that ends just before it and with the gap that begins just behind it.
#[tactic(auto, using(crate::proofs::HeapFacts::gaps_short))]
pub(crate) fn give_range<S: Space>(
    space: &mut S,
    alloc: Global,
    slots: &Rc<Tree>,
    place: u64,
    n: u64,
) -> Result<Rc<Tree>, AdfError>
    requires sound { S.is_sound space.old }
    requires gaps { AreGaps (gaps_of slots.now.value) }
    requires some { 1 ≤ n }
    requires apart { MeetsNone place n (gaps_of slots.now.value) }
    requires low { 266 ≤ place }
    requires high { place + n ≤ 2 ^ 44 }
    requires threads { IfSome (S.image space.old)
        (ThreadsSlots (gaps_of slots.now.value) slots.now.value) }
    ensures sound { S.is_sound space.new }
    ensures given { IfOk result (λ more. BecomeSlots
        (give_joined place n (gaps_of slots.now.value)) slots.now.value more.value
        (S.image space.old) (S.image space.new)) }
    ensures bytes { Both (ChangesOnly (free_table ∷ range place n ∷ gaps_of slots.now.value))
        (S.image space.old) (S.image space.new) }
    ensures only { WaitsWhereTold (S.image space.old)
        (free_table ∷ range place n ∷ gaps_of slots.now.value)
        (S.waiting space.old) (S.waiting space.new) }
    ensures effect { ReadsFew 22 (S.state space.old) (S.state space.new) }
    ensures waiting { how_many (S.waiting space.new) ≤ how_many (S.waiting space.old) + 12 }
    ensures cause { IfErr result (IsRefusal (IsUntold (S.image space.old))
        (S.state space.old).faults (S.state space.new).faults) }
{
    let Some(i) = find_end(slots, place) else {
        return give_right(space, alloc, slots, place, n);
    };
    let gap = gap_of(slots, i);
    let rest = absorb(space, alloc, slots, i)?;
    give_right(space, alloc, &rest, gap.place, gap.length + n)
}
