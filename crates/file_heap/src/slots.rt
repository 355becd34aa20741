// The gaps of a file by place in memory, with no word of its bytes.
ghost use Rattle.std.specs.Prelude.{◌≡◌, ◌^◌, ◌+◌, ◌≤◌, ◌<◌, ◌++◌, length, take, drop, ◌&&◌, ◌==◌, IsTrue, IsFalse, Ok, IfOk, IfErr};
ghost use Rattle.adf_format.specs.Tiles.{end_of, is_filler, is_free, MeetsNone};
ghost use Rattle.adf_format.specs.LaysOut.{AreGapsInOrder};
ghost use Rattle.adf_format.specs.HeapRule as rule;
ghost use Rattle.gap_tree.specs.Slots.{gaps_of};
ghost use Rattle.adf_model.specs.declared.error.AdfError.{AdfError};
ghost use Rattle.file_heap.specs.Gaps.{FitsAt, EndsAt, BeginsAt, IsBesideGap, gap_at, put_by_place, AllEndBy};
ghost use Rattle.file_heap.specs.Slots.{MovesTo, BeginsSome, IsMissing, HasNoMore, HasOneMore};

use adf_chunks::{Extent, ExtentKind};
use adf_model::AdfError;
use gap_tree::{Slot, Spot, Tree};
use std::alloc::{AllocError, Global};
use std::rc::Rc;

/// Whether a gap is a free chunk.
pub(crate) fn is_free(gap: Extent) -> bool
    ensures { result ≡ is_free gap }
{
    match gap.kind {
        ExtentKind::FreeChunk => true,
        _ => false,
    }
}

fn is_filler(gap: Extent) -> bool
    ensures { result ≡ is_filler gap }
{
    match gap.kind {
        ExtentKind::Filler => true,
        _ => false,
    }
}

/// A gap: of under 32 bytes a filler, a longer one a free chunk.
pub(crate) fn new_gap(place: u64, length: u64) -> Extent
    ensures { result ≡ rule.new_gap place length }
{
    let kind = if length < 32 {
        ExtentKind::Filler
    } else {
        ExtentKind::FreeChunk
    };
    Extent {
        place,
        length,
        kind,
    }
}

/// A tree that was made, or want of memory.
pub(crate) fn or_memory(made: Result<Rc<Tree>, AllocError>) -> Result<Rc<Tree>, AdfError>
    ensures made { IfOk result (λ slots. made ≡ Ok slots) }
    ensures cause { IfErr result (λ e. e ≡ AdfError.Memory) }
{
    match made {
        Ok(slots) => Ok(slots),
        Err(_) => Err(AdfError::Memory),
    }
}

/// A free chunk stands in no list.
pub(crate) fn in_no_list(place: u64) -> AdfError
    ensures { result ≡ AdfError.Layout 30 place }
{
    AdfError::Layout { rule: 30, place }
}

/// The gap at an index.
#[tactic(auto, using(crate::proofs::SlotLaws::gap_got))]
pub(crate) fn gap_of(slots: &Tree, i: usize) -> Extent
    requires { i < length slots.now }
    ensures { result ≡ gap_at (gaps_of slots.now) i }
{
    slots.get(i).gap
}

/// Where the first free chunk stands that has n bytes.
#[tactic(auto, using(crate::proofs::SlotLaws::fits_at))]
pub(crate) fn find_fit(slots: &Tree, n: u64) -> Option<usize>
    requires { 1 ≤ n }
    ensures { FitsAt n (gaps_of slots.now) result }
{
    slots.first_fit(n)
}

/// Where the gap stands that ends just before a place.
#[tactic(auto, using(crate::proofs::SlotLaws::by_place, crate::proofs::SlotLaws::gaps_length, crate::proofs::SlotLaws::none_ends_at_all, crate::proofs::SlotLaws::none_ends_there))]
pub(crate) fn find_end(slots: &Tree, place: u64) -> Option<usize>
    requires short { AllEndBy (2 ^ 44) (gaps_of slots.now) }
    requires order { AreGapsInOrder (gaps_of slots.now) }
    ensures { EndsAt place (gaps_of slots.now) result }
{
    let i = slots.count_before(place);
    if i == 0 {
        return None;
    }
    let gap = gap_of(slots, i - 1);
    if gap.place + gap.length != place {
        return None;
    }
    Some(i - 1)
}

/// Where the gap stands that begins at a place.
#[tactic(auto, using(crate::proofs::SlotLaws::by_place, crate::proofs::SlotLaws::gaps_length, crate::proofs::SlotLaws::none_begins_at_all, crate::proofs::SlotLaws::none_begins_there))]
pub(crate) fn find_begin(slots: &Tree, place: u64) -> Option<usize>
    requires { AreGapsInOrder (gaps_of slots.now) }
    ensures { BeginsAt place (gaps_of slots.now) result }
{
    let i = slots.count_before(place);
    if i >= slots.len() {
        return None;
    }
    if gap_of(slots, i).place != place {
        return None;
    }
    Some(i)
}

/// The gap at a place has another spot, where there is a place.
#[tactic(auto, using(crate::proofs::SlotLaws::moves_at, crate::proofs::SlotLaws::begins_none))]
pub(crate) fn move_to(
    alloc: Global,
    slots: &Rc<Tree>,
    place: Option<u64>,
    spot: Spot,
) -> Result<Rc<Tree>, AdfError>
    requires { AreGapsInOrder (gaps_of slots.now.value) }
    ensures moves { IfOk result (λ moved. MovesTo place spot slots.now.value moved.value) }
    ensures cause { IfErr result (IsMissing (BeginsSome (gaps_of slots.now.value) place)) }
{
    let Some(place) = place else {
        return or_memory(slots.clone());
    };
    let Some(i) = find_begin(slots, place) else {
        return Err(in_no_list(place));
    };
    let slot = Slot {
        gap: slots.get(i).gap,
        spot: Some(spot),
    };
    or_memory(slots.replaced(alloc, i, slot))
}

// Whether two fillers touch.
fn are_joined(gap: Extent, next: Extent) -> bool
    requires { end_of gap ≤ 2 ^ 44 }
    ensures { result ≡ (is_filler gap && is_filler next && (end_of gap == next.place)) }
{
    if !is_filler(gap) {
        return false;
    }
    if !is_filler(next) {
        return false;
    }
    gap.place + gap.length == next.place
}

/// Makes one filler of the gap at an index and the one behind it, where they are fillers that touch.
#[tactic(auto, using(crate::proofs::SlotLaws::last_stays, crate::proofs::SlotLaws::apart_stays, crate::proofs::SlotLaws::one_filler, crate::proofs::SlotLaws::no_more, crate::proofs::SlotLaws::same_slots))]
pub(crate) fn join_at(alloc: Global, slots: &Rc<Tree>, i: usize) -> Result<Rc<Tree>, AllocError>
    requires there { i < length slots.now.value }
    requires short { AllEndBy (2 ^ 44) (gaps_of slots.now.value) }
    ensures gaps { IfOk result (λ joined. gaps_of joined.value
        ≡ take i (gaps_of slots.now.value) ++ rule.before_gaps (gap_at (gaps_of slots.now.value) i)
        (drop (i + 1) (gaps_of slots.now.value))) }
    ensures chunks { IfOk result (λ joined. HasNoMore slots.now.value joined.value) }
{
    let count = slots.len();
    if i + 1 >= count {
        return slots.clone();
    }
    let gap = gap_of(slots, i);
    let next = gap_of(slots, i + 1);
    if !are_joined(gap, next) {
        return slots.clone();
    }
    let filler = Slot {
        gap: Extent {
            place: gap.place,
            length: gap.length + next.length,
            kind: ExtentKind::Filler,
        },
        spot: None,
    };
    let joined = slots.replaced(alloc, i + 1, filler)?;
    joined.removed(alloc, i)
}

/// One more gap.
#[tactic(auto, using(crate::proofs::SlotLaws::by_place, crate::proofs::SlotLaws::is_put, crate::proofs::SlotLaws::one_more))]
pub(crate) fn put_in(alloc: Global, slots: &Tree, slot: Slot) -> Result<Rc<Tree>, AllocError>
    requires { AreGapsInOrder (gaps_of slots.now) }
    ensures gaps { IfOk result (λ more. gaps_of more.value
        ≡ put_by_place slot.gap (gaps_of slots.now)) }
    ensures chunks { IfOk result (λ more. HasOneMore slot slots.now more.value) }
{
    let i = slots.count_before(slot.gap.place);
    slots.inserted(alloc, i, slot)
}

// Whether a range is beside a gap.
fn is_beside(gap: Extent, place: u64, n: u64) -> bool
    requires near { place + n ≤ 2 ^ 45 }
    requires short { end_of gap ≤ 2 ^ 44 }
    ensures beside { IsTrue result → IsBesideGap place n gap }
    ensures meets { IsFalse result → (gap.place < place + n) × (place < end_of gap) }
{
    if gap.place + gap.length <= place {
        return true;
    }
    place + n <= gap.place
}

/// Whether a range meets none of the gaps.
#[tactic(auto, using(crate::proofs::SlotLaws::by_place, crate::proofs::SlotLaws::gaps_length, crate::proofs::SlotLaws::meets_nothing_at_all, crate::proofs::SlotLaws::meets_nothing_there, crate::proofs::SlotLaws::meets_something_there))]
pub(crate) fn meets_none(slots: &Tree, place: u64, n: u64) -> bool
    requires near { place + n ≤ 2 ^ 45 }
    requires short { AllEndBy (2 ^ 44) (gaps_of slots.now) }
    requires order { AreGapsInOrder (gaps_of slots.now) }
    ensures none { IsTrue result → MeetsNone place n (gaps_of slots.now) }
    ensures all { 1 ≤ n → MeetsNone place n (gaps_of slots.now) → IsTrue result }
{
    let i = slots.count_before(place + n);
    if i == 0 {
        return true;
    }
    is_beside(gap_of(slots, i - 1), place, n)
}
