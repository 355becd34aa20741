// The lists of free chunks in a space.
ghost use Rattle.std.specs.Prelude.{None, ◌≡◌, ◌^◌, ◌+◌, ◌-◌, ◌≤◌, ◌<◌, ◌∷◌, [], length, Some, IfOk, IfErr, IfSome, OnOk, filter, true, IsTrue, ◌↔◌};
ghost use Rattle.cg_io.specs.Blocks.{Both, ReadsFew};
ghost use Rattle.cg_io.specs.Answers.{IsRefusal, IsUntold};
ghost use Rattle.cg_io.specs.Waits.{how_many};
ghost use Rattle.adf_format.specs.Spelled.{IsInReach};
ghost use Rattle.adf_format.specs.Tiles.{is_free};
ghost use Rattle.gap_tree.specs.Slots.{gaps_of};
ghost use Rattle.field_access.specs.Fields.{WaitsWithin, WaitsWhereTold};
ghost use Rattle.file_heap.specs.Gaps.{gap_at};
ghost use Rattle.file_heap.specs.Links.{link_at, number_of, class_of, HasHead, AreGaps, ThreadsNone, Follows, EndsList, Relinks, Pushes, WritesChunk, WritesGap, range, free_table, link_range};
ghost use Rattle.file_heap.specs.Slots.{ThreadsSlots, BeginsSome, LeavesList, HasSpot};
ghost use Rattle.file_heap.specs.Heap.{ChangesOnly};

use crate::links::{first_at, link_at, pointer_of, read_link, write_link};
use crate::slots::{gap_of, in_no_list};
use adf_chunks::{FreeHead, Part, encode_free_head, tail};
use adf_model::AdfError;
use cg_io::Space;
use field_access::write_field;
use gap_tree::{Class, Spot, Tree};

/// The last place at which a free chunk may begin.
pub(crate) const LAST_HEAD: u64 = (1 << 44) - 32;

// The last pointer of a list is written over, where nothing is behind its new last chunk.
#[tactic(auto, using(crate::proofs::ChangeLaws::changes_none, crate::proofs::ChangeLaws::ends_same, field_access::proofs::WaitLaws::waits_none))]
fn end_list<S: Space>(
    space: &mut S,
    list: Class,
    behind: Option<u64>,
    last: Option<u64>,
) -> Result<(), AdfError>
    requires sound { S.is_sound space.old }
    requires reach { IsInReach last }
    ensures sound { S.is_sound space.new }
    ensures ended { OnOk result (Both (EndsList (number_of list) behind last)
        (S.image space.old) (S.image space.new)) }
    ensures bytes { Both (ChangesOnly (free_table ∷ [])) (S.image space.old) (S.image space.new) }
    ensures only { WaitsWithin (free_table ∷ []) (S.waiting space.old)
        (S.waiting space.new) }
    ensures effect { ReadsFew 2 (S.state space.old) (S.state space.new) }
    ensures waiting { how_many (S.waiting space.new) ≤ how_many (S.waiting space.old) + 1 }
    ensures cause { IfErr result (IsRefusal ⊥ (S.state space.old).faults
        (S.state space.new).faults) }
{
    match behind {
        None => write_link(space, first_at(list) + 12, last),
        Some(_) => Ok(()),
    }
}

// The pointer at a spot is written over.
#[tactic(auto, using(crate::proofs::ChangeLaws::link_changed, crate::proofs::ChangeLaws::table_then, crate::proofs::ChangeLaws::link_waits, crate::proofs::ChangeLaws::table_waits, crate::proofs::PushLaws::relinked))]
fn relink<S: Space>(space: &mut S, spot: Spot, next: Option<u64>) -> Result<(), AdfError>
    requires sound { S.is_sound space.old }
    requires head { HasHead spot.front }
    requires reach { IsInReach next }
    ensures sound { S.is_sound space.new }
    ensures relinked { OnOk result (Both (Relinks (number_of spot.list) spot.front next)
        (S.image space.old) (S.image space.new)) }
    ensures bytes { Both (ChangesOnly (free_table ∷ link_range spot.front))
        (S.image space.old) (S.image space.new) }
    ensures only { WaitsWithin (free_table ∷ link_range spot.front) (S.waiting space.old)
        (S.waiting space.new) }
    ensures effect { ReadsFew 4 (S.state space.old) (S.state space.new) }
    ensures waiting { how_many (S.waiting space.new) ≤ how_many (S.waiting space.old) + 3 }
    ensures cause { IfErr result (IsRefusal ⊥ (S.state space.old).faults
        (S.state space.new).faults) }
{
    write_link(space, link_at(spot.list, spot.front), next)?;
    end_list(space, spot.list, next, spot.front)
}

// Whether the chunk in front of a spot has its head below the greatest place.
fn has_head(front: Option<u64>) -> bool
    ensures { IsTrue result ↔ HasHead front }
{
    match front {
        None => true,
        Some(place) => place <= LAST_HEAD,
    }
}

// The chunk behind a free chunk in its list.
#[tactic(auto, using(crate::proofs::SpotLaws::next_begins, crate::proofs::HeapFacts::gaps_short, crate::proofs::HeapFacts::free_long, crate::proofs::SlotLaws::gaps_length))]
fn next_behind<S: Space>(
    space: &mut S,
    slots: &Tree,
    i: usize,
    _spot: Spot,
) -> Result<Option<u64>, AdfError>
    requires sound { S.is_sound space.old }
    requires inside { i < length slots.now }
    requires free { is_free (gap_at (gaps_of slots.now) i) ≡ true }
    requires gaps { AreGaps (gaps_of slots.now) }
    requires spot { HasSpot slots.now i _spot }
    requires threads { IfSome (S.image space.old) (ThreadsSlots (gaps_of slots.now) slots.now) }
    ensures sound { S.is_sound space.new }
    ensures image { S.image space.new ≡ S.image space.old }
    ensures told { IfOk result (Follows (S.image space.old)
        ((gap_at (gaps_of slots.now) i).place + 16)) }
    ensures begins { IfOk result (λ next. IfSome (S.image space.old)
        (λ bytes. BeginsSome (gaps_of slots.now) next)) }
    ensures reach { IfOk result IsInReach }
    ensures effect { ReadsFew 2 (S.state space.old) (S.state space.new) }
    ensures waiting { S.waiting space.new ≡ S.waiting space.old }
    ensures cause { IfErr result (IsRefusal (IsUntold (S.image space.old))
        (S.state space.old).faults (S.state space.new).faults) }
{
    read_link(space, gap_of(slots, i).place + 16)
}

/// Takes a free chunk out of the list where it has its spot: the chunk that was behind it there.
#[tactic(auto, using(crate::proofs::SpotLaws::leaves_list, crate::proofs::SpotLaws::front_is_near, crate::proofs::SpotLaws::link_in_chunks, crate::proofs::SpotLaws::front_waits, field_access::proofs::WaitLaws::told_same))]
pub(crate) fn unlink<S: Space>(
    space: &mut S,
    slots: &Tree,
    i: usize,
    spot: Spot,
) -> Result<Option<u64>, AdfError>
    requires sound { S.is_sound space.old }
    requires inside { i < length slots.now }
    requires free { is_free (gap_at (gaps_of slots.now) i) ≡ true }
    requires gaps { AreGaps (gaps_of slots.now) }
    requires spot { HasSpot slots.now i spot }
    requires threads { IfSome (S.image space.old) (ThreadsSlots (gaps_of slots.now) slots.now) }
    ensures sound { S.is_sound space.new }
    ensures leaves { IfOk result (λ next. IfSome (S.image space.new)
        (LeavesList slots.now i spot next)) }
    ensures begins { IfOk result (λ next. IfSome (S.image space.old)
        (λ bytes. BeginsSome (gaps_of slots.now) next)) }
    ensures bytes { Both (ChangesOnly (free_table ∷ filter is_free (gaps_of slots.now)))
        (S.image space.old) (S.image space.new) }
    ensures only { WaitsWhereTold (S.image space.old)
        (free_table ∷ filter is_free (gaps_of slots.now))
        (S.waiting space.old) (S.waiting space.new) }
    ensures effect { ReadsFew 6 (S.state space.old) (S.state space.new) }
    ensures waiting { how_many (S.waiting space.new) ≤ how_many (S.waiting space.old) + 3 }
    ensures cause { IfErr result (IsRefusal (IsUntold (S.image space.old))
        (S.state space.old).faults (S.state space.new).faults) }
{
    if !has_head(spot.front) {
        return Err(in_no_list(gap_of(slots, i).place));
    }
    let next = next_behind(space, slots, i, spot)?;
    relink(space, spot, next)?;
    Ok(next)
}

/// The list that a new free chunk of this length is put into.
pub(crate) fn class_of(length: u64) -> Class
    ensures { result ≡ class_of length }
{
    if length < 512 {
        Class::Small
    } else if length < 4096 {
        Class::Medium
    } else {
        Class::Large
    }
}

// Writes the head and the end tag of a free chunk.
#[tactic(auto, using(crate::proofs::PushLaws::chunk_is_written, crate::proofs::PushLaws::head_changes, crate::proofs::PushLaws::tail_changes, crate::proofs::Waiting::few_blocks))]
fn write_chunk<S: Space>(
    space: &mut S,
    place: u64,
    length: u64,
    next: Option<u64>,
) -> Result<(), AdfError>
    requires sound { S.is_sound space.old }
    requires long { 32 ≤ length }
    requires near { place + length ≤ 2 ^ 44 }
    requires reach { IsInReach next }
    ensures sound { S.is_sound space.new }
    ensures written { OnOk result (Both (WritesChunk place length next)
        (S.image space.old) (S.image space.new)) }
    ensures bytes { Both (ChangesOnly (range place length ∷ []))
        (S.image space.old) (S.image space.new) }
    ensures only { WaitsWithin (range place length ∷ []) (S.waiting space.old)
        (S.waiting space.new) }
    ensures effect { ReadsFew 4 (S.state space.old) (S.state space.new) }
    ensures waiting { how_many (S.waiting space.new) ≤ how_many (S.waiting space.old) + 4 }
    ensures cause { IfErr result (IsRefusal ⊥ (S.state space.old).faults
        (S.state space.new).faults) }
{
    let end = place + length - 4;
    let head = FreeHead {
        end_tag: pointer_of(Some(end)),
        next: pointer_of(next),
    };
    write_field(space, place, &encode_free_head(head))?;
    write_field(space, end, &tail(Part::Free))
}

// The first chunk of a list.
fn first_in<S: Space>(space: &mut S, list: Class) -> Result<Option<u64>, AdfError>
    requires sound { S.is_sound space.old }
    ensures sound { S.is_sound space.new }
    ensures image { S.image space.new ≡ S.image space.old }
    ensures told { IfOk result (Follows (S.image space.old) (link_at (number_of list) None)) }
    ensures reach { IfOk result IsInReach }
    ensures effect { ReadsFew 2 (S.state space.old) (S.state space.new) }
    ensures waiting { S.waiting space.new ≡ S.waiting space.old }
    ensures cause { IfErr result (IsRefusal (ThreadsNone (S.image space.old))
        (S.state space.old).faults (S.state space.new).faults) }
{
    read_link(space, first_at(list))
}

// Writes a free chunk in front of the first of its class, which it answers.
#[tactic(auto, using(crate::proofs::PushLaws::gap_changes, crate::proofs::PushLaws::gap_waits, field_access::proofs::WaitLaws::waits_same))]
fn push<S: Space>(space: &mut S, place: u64, length: u64) -> Result<Option<u64>, AdfError>
    requires sound { S.is_sound space.old }
    requires long { 32 ≤ length }
    requires near { place + length ≤ 2 ^ 44 }
    ensures sound { S.is_sound space.new }
    ensures written { IfOk result (λ first. Both (WritesGap place length first)
        (S.image space.old) (S.image space.new)) }
    ensures bytes { Both (ChangesOnly (free_table ∷ range place length ∷ []))
        (S.image space.old) (S.image space.new) }
    ensures only { WaitsWithin (free_table ∷ range place length ∷ []) (S.waiting space.old)
        (S.waiting space.new) }
    ensures effect { ReadsFew 10 (S.state space.old) (S.state space.new) }
    ensures waiting { how_many (S.waiting space.new) ≤ how_many (S.waiting space.old) + 6 }
    ensures cause { IfErr result (IsRefusal (ThreadsNone (S.image space.old))
        (S.state space.old).faults (S.state space.new).faults) }
{
    let list = class_of(length);
    let first = first_in(space, list)?;
    write_chunk(space, place, length, first)?;
    write_link(space, first_at(list), Some(place))?;
    end_list(space, list, first, Some(place))?;
    Ok(first)
}

// Fills a range of under 32 bytes.
#[tactic(auto, using(crate::proofs::PushLaws::is_filled, crate::proofs::PushLaws::gap_changes, crate::proofs::Waiting::few_blocks))]
fn fill<S: Space>(space: &mut S, place: u64, length: u64) -> Result<(), AdfError>
    requires sound { S.is_sound space.old }
    requires some { 0 < length }
    requires short { length < 32 }
    requires near { place + length ≤ 2 ^ 44 }
    ensures sound { S.is_sound space.new }
    ensures written { OnOk result (Both (WritesGap place length None)
        (S.image space.old) (S.image space.new)) }
    ensures bytes { Both (ChangesOnly (free_table ∷ range place length ∷ []))
        (S.image space.old) (S.image space.new) }
    ensures only { WaitsWithin (free_table ∷ range place length ∷ []) (S.waiting space.old)
        (S.waiting space.new) }
    ensures effect { ReadsFew 2 (S.state space.old) (S.state space.new) }
    ensures waiting { how_many (S.waiting space.new) ≤ how_many (S.waiting space.old) + 2 }
    ensures cause { IfErr result (IsRefusal ⊥ (S.state space.old).faults
        (S.state space.new).faults) }
{
    let bytes = [b'z'; 32];
    write_field(space, place, &bytes[..length as usize])
}

/// Writes a gap: a filler, or a free chunk in front of the first of its class, which it answers.
pub(crate) fn write_gap<S: Space>(
    space: &mut S,
    place: u64,
    length: u64,
) -> Result<Option<u64>, AdfError>
    requires sound { S.is_sound space.old }
    requires some { 0 < length }
    requires near { place + length ≤ 2 ^ 44 }
    ensures sound { S.is_sound space.new }
    ensures written { IfOk result (λ first. Both (WritesGap place length first)
        (S.image space.old) (S.image space.new)) }
    ensures bytes { Both (ChangesOnly (free_table ∷ range place length ∷ []))
        (S.image space.old) (S.image space.new) }
    ensures only { WaitsWithin (free_table ∷ range place length ∷ []) (S.waiting space.old)
        (S.waiting space.new) }
    ensures effect { ReadsFew 10 (S.state space.old) (S.state space.new) }
    ensures waiting { how_many (S.waiting space.new) ≤ how_many (S.waiting space.old) + 6 }
    ensures cause { IfErr result (IsRefusal (ThreadsNone (S.image space.old))
        (S.state space.old).faults (S.state space.new).faults) }
{
    if length < 32 {
        fill(space, place, length)?;
        return Ok(None);
    }
    push(space, place, length)
}
