// Bytes are taken: from the front of a free chunk, or behind the end.
ghost use Rattle.std.specs.Prelude.{◌≡◌, ◌^◌, ◌+◌, ◌≤◌, ◌<◌, ◌∷◌, [], filter, IfOk, IfErr, IfSome, OnOk};
ghost use Rattle.cg_io.specs.Blocks.{Both, ReadsFew};
ghost use Rattle.cg_io.specs.Answers.{IsRefusal, IsUntold};
ghost use Rattle.cg_io.specs.Waits.{how_many};
ghost use Rattle.adf_format.specs.Tiles.{is_free};
ghost use Rattle.adf_format.specs.HeapRule.{cut};
ghost use Rattle.gap_tree.specs.Slots.{gaps_of};
ghost use Rattle.field_access.specs.Fields.{WaitsWithin, WaitsWhereTold};
ghost use Rattle.file_heap.specs.Gaps.{IsFirstFit};
ghost use Rattle.file_heap.specs.Links.{AreGaps, free_table, end_pointer};
ghost use Rattle.file_heap.specs.Slots.{BecomeSlots, ThreadsSlots};
ghost use Rattle.file_heap.specs.Heap.{Grows, IsTakeRefusal, ChangesOnly, MovesEnd, KeepsThreads};

use crate::give::{absorb, give_alone};
use crate::links::write_link;
use crate::slots::{gap_of, join_at, or_memory};
use adf_format::fields::HEADER_END;
use adf_model::AdfError;
use cg_io::Space;
use gap_tree::Tree;
use std::alloc::Global;
use std::rc::Rc;

/// Takes n bytes behind the end.
#[tactic(auto, using(crate::proofs::SpaceLaws::grown_threads, crate::proofs::SpaceLaws::grown_end, field_access::proofs::WaitLaws::waits_none))]
pub(crate) fn grow<S: Space>(
    space: &mut S,
    end: &mut u64,
    limit: u64,
    n: u64,
) -> Result<u64, AdfError>
    requires sound { S.is_sound space.old }
    requires near { end.old < 2 ^ 44 }
    requires limit { limit ≤ 2 ^ 32 }
    requires few { n ≤ 2 ^ 44 }
    ensures sound { S.is_sound space.new }
    ensures grows { Grows limit n end.old result end.new }
    ensures threads { OnOk result (Both KeepsThreads (S.image space.old) (S.image space.new)) }
    ensures bytes { Both (ChangesOnly (end_pointer ∷ [])) (S.image space.old) (S.image space.new) }
    ensures only { WaitsWithin (end_pointer ∷ []) (S.waiting space.old)
        (S.waiting space.new) }
    ensures end { OnOk result (Both (MovesEnd end.old end.new)
        (S.image space.old) (S.image space.new)) }
    ensures effect { ReadsFew 2 (S.state space.old) (S.state space.new) }
    ensures waiting { how_many (S.waiting space.new) ≤ how_many (S.waiting space.old) + 1 }
    ensures cause { IfErr result (IsTakeRefusal (IsUntold (S.image space.old))
        (S.state space.old).faults (S.state space.new).faults) }
{
    let last = *end + n;
    if limit * 4096 < last + 1 {
        return Err(AdfError::Full {
            asked: n,
            end: *end,
        });
    }
    write_link(space, HEADER_END.offset as u64, Some(last))?;
    let place = *end + 1;
    *end = last;
    Ok(place)
}

/// Takes n bytes from the front of a free chunk.
#[tactic(auto, using(crate::proofs::HeapFacts::gaps_short, crate::proofs::HeapFacts::gap_low, crate::proofs::JoinSteps::rest_are, crate::proofs::CutSteps::rest_apart, crate::proofs::CutSteps::more_there, crate::proofs::CutSteps::more_short))]
pub(crate) fn cut_front<S: Space>(
    space: &mut S,
    alloc: Global,
    slots: &Rc<Tree>,
    i: usize,
    n: u64,
) -> Result<Rc<Tree>, AdfError>
    requires sound { S.is_sound space.old }
    requires gaps { AreGaps (gaps_of slots.now.value) }
    requires some { 1 ≤ n }
    requires fit { IsFirstFit n (gaps_of slots.now.value) i }
    requires threads { IfSome (S.image space.old)
        (ThreadsSlots (gaps_of slots.now.value) slots.now.value) }
    ensures sound { S.is_sound space.new }
    ensures taken { IfOk result (λ rest. BecomeSlots
        (cut n (gaps_of slots.now.value)) slots.now.value rest.value
        (S.image space.old) (S.image space.new)) }
    ensures bytes { Both (ChangesOnly (free_table ∷ filter is_free (gaps_of slots.now.value)))
        (S.image space.old) (S.image space.new) }
    ensures only { WaitsWhereTold (S.image space.old)
        (free_table ∷ filter is_free (gaps_of slots.now.value))
        (S.waiting space.old) (S.waiting space.new) }
    ensures effect { ReadsFew 16 (S.state space.old) (S.state space.new) }
    ensures waiting { how_many (S.waiting space.new) ≤ how_many (S.waiting space.old) + 9 }
    ensures cause { IfErr result (IsRefusal (IsUntold (S.image space.old))
        (S.state space.old).faults (S.state space.new).faults) }
{
    let gap = gap_of(slots, i);
    let rest = absorb(space, alloc, slots, i)?;
    if gap.length == n {
        return Ok(rest);
    }
    let more = give_alone(space, alloc, &rest, gap.place + n, gap.length - n)?;
    or_memory(join_at(alloc, &more, i))
}
