// The free space of a file.
ghost use Rattle.std.specs.Prelude.{◌≡◌, ◌^◌, ◌+◌, ◌*◌, ◌≤◌, ◌<◌, ◌∷◌, [], length, filter, IfOk, IfErr, IfSome, OnOk, OnErr, IsTrue};
ghost use Rattle.cg_io.specs.Blocks.{Both, ReadsFew};
ghost use Rattle.cg_io.specs.Answers.{AnswersRead, IsRefusal, IsUntold};
ghost use Rattle.cg_io.specs.Waits.{how_many};
ghost use Rattle.adf_format.specs.Tiles.{is_free, MeetsNone};
ghost use Rattle.adf_format.specs.LaysOut.{ThreadsFreeChunks};
ghost use Rattle.adf_format.specs.HeapRule.{cut, give_joined, heap_give};
ghost use Rattle.adf_model.specs.declared.error.AdfError.{AdfError};
ghost use Rattle.gap_tree.specs.Slots.{gaps_of};
ghost use Rattle.field_access.specs.Fields.{WaitsWhereTold};
ghost use Rattle.file_heap.specs.Gaps.{IsFirstFit, gap_at};
ghost use Rattle.file_heap.specs.Links.{AreGaps, range, free_table};
ghost use Rattle.file_heap.specs.Slots.{slots_in, BecomeSlots, ThreadsSlots};
ghost use Rattle.file_heap.specs.Heap.{IsHeap, IsThreaded, ChangesHeap, TakesBy, MayGive, IsTakeRefusal, ChangesOnly, IsTakenWithin, TakesOfTiles, TakesCover, GivesToTiles, GivesCover};

use crate::give::give_range;
use crate::reading::{read_list, unread};
use crate::slots::{find_fit, gap_of, meets_none};
use crate::take::{cut_front, grow};
use adf_chunks::Extents;
use adf_format::fields::{FREE_TABLE_LENGTH, FREE_TABLE_PLACE};
use adf_model::AdfError;
use cg_io::Space;
use gap_tree::{Class, Tree};
use std::alloc::Global;
use std::marker::Model;
use std::rc::Rc;

/// The free space of a file, in work and as it was last accepted.
///
/// A call that is refused leaves it as it was, and may leave the bytes of the space changed: the caller then abandons these and
/// undoes what was done since the last call of `accept`.
#[derive(Drop)]
pub struct Heap {
    kept: Rc<Tree>,
    kept_end: u64,
    // the gaps in work, where they are no longer those that were accepted
    work: Option<Rc<Tree>>,
    end: u64,
    limit: u64,
    alloc: Global,
}

impl Model for Heap {
    ghost use Rattle.file_heap.specs.Slots.{slots_in};
    ghost use Rattle.file_heap.specs.Heap.{HeapState, AreHeaps, space_of};

    ghost Value = { HeapState };

    ghost view = { λ h. record {
      work = space_of (slots_in h.work h.kept.value) h.end;
      kept = space_of h.kept.value h.kept_end;
      limit = h.limit;
    } };

    ghost invariant = { λ h. AreHeaps (space_of (slots_in h.work h.kept.value) h.end).heap
        (space_of h.kept.value h.kept_end).heap h.limit };
}

impl Heap {
    /// The free space with these gaps and this last byte, within an address limit in blocks of 4,096 bytes. It reads each of the
    /// three lists of free chunks once.
    pub fn new<S: Space>(
        alloc: Global,
        space: &mut S,
        gaps: &Extents,
        end: u64,
        limit: u64,
    ) -> Result<Heap, AdfError>
        requires sound { S.is_sound space.old }
        requires heap { IsHeap (record { gaps = gaps.now; end = end }) }
        requires limit { (1 ≤ limit) × (limit ≤ 2 ^ 32) }
        requires threads { IfSome (S.image space.old) (λ bytes. ThreadsFreeChunks bytes gaps.now) }
        ensures ok { IfOk result (λ heap. heap.work.heap ≡ record { gaps = gaps.now; end = end }) }
        ensures accepted { IfOk result (λ heap. heap.kept ≡ heap.work) }
        ensures limit { IfOk result (λ heap. heap.limit ≡ limit) }
        ensures threads { IfOk result (λ heap. IfSome (S.image space.new) (IsThreaded heap.work)) }
        ensures reads { AnswersRead S.is_sound S.image S.state S.waiting
            (ReadsFew (2 * (length gaps.now + 3)))
            (IsRefusal (IsUntold (S.image space.old))) space.old space.new result }
    {
        let unread = unread(alloc, gaps.items())?;
        let small = read_list(space, alloc, &unread, Class::Small)?;
        let medium = read_list(space, alloc, &small, Class::Medium)?;
        let kept = read_list(space, alloc, &medium, Class::Large)?;
        Ok(Heap {
            kept: kept.slots,
            kept_end: end,
            work: None,
            end,
            limit,
            alloc,
        })
    }

    /// Takes n bytes: their place.
    pub fn take<S: Space>(&mut self, space: &mut S, n: u64) -> Result<u64, AdfError>
        requires sound { S.is_sound space.old }
        requires some { (1 ≤ n) × (n ≤ 2 ^ 44) }
        requires threads { IfSome (S.image space.old) (IsThreaded self.old.work) }
        ensures takes { TakesBy self.old.limit n self.old.work.heap result self.new.work.heap }
        ensures within { IfOk result (IsTakenWithin n self.new.work.heap) }
        ensures tiles { IfOk result (TakesOfTiles n self.old.work.heap self.new.work.heap) }
        ensures covers { IfOk result (TakesCover n self.old.work.heap self.new.work.heap) }
        ensures changes { ChangesHeap S.is_sound S.image S.state S.waiting [] 9
            (IsTakeRefusal (IsUntold (S.image space.old)))
            self.old self.new space.old space.new result }
    {
        match find_fit(current(&self.work, &self.kept), n) {
            None => grow(space, &mut self.end, self.limit, n),
            Some(i) => take_front(space, self.alloc, &mut self.work, &self.kept, i, n),
        }
    }

    /// Gives n bytes at a place. They are joined with the gap that ends just before them, and with the gap that begins just
    /// behind them.
    pub fn give<S: Space>(&mut self, space: &mut S, place: u64, n: u64) -> Result<(), AdfError>
        requires sound { S.is_sound space.old }
        requires some { 1 ≤ n }
        requires apart { MeetsNone place n self.old.work.heap.gaps }
        requires within { (266 ≤ place) × (place + n ≤ self.old.work.heap.end + 1) }
        requires threads { IfSome (S.image space.old) (IsThreaded self.old.work) }
        ensures gives { OnOk result (self.new.work.heap ≡ heap_give place n self.old.work.heap) }
        ensures tiles { OnOk result (GivesToTiles place n self.old.work.heap self.new.work.heap) }
        ensures covers { OnOk result (GivesCover place n self.old.work.heap self.new.work.heap) }
        ensures changes { ChangesHeap S.is_sound S.image S.state S.waiting (range place n ∷ []) 12
            (IsRefusal (IsUntold (S.image space.old)))
            self.old self.new space.old space.new result }
    {
        give_back(space, self.alloc, &mut self.work, &self.kept, place, n)
    }

    /// The free space is as it was accepted. It takes no memory.
    pub fn undo(&mut self)
        ensures { self.new ≡ record self.old { work = self.old.kept } }
    {
        self.work = None;
        self.end = self.kept_end;
    }

    /// What the free space is now is accepted. It takes no memory.
    pub fn accept(&mut self)
        ensures { self.new ≡ record self.old { kept = self.old.work } }
    {
        if let Some(slots) = self.work.take() {
            self.kept = slots;
        }
        self.kept_end = self.end;
    }

    /// Whether n bytes at a place may be given: they lie behind the free table and up to the end, and meet no gap.
    #[tactic(auto, using(crate::proofs::HeapFacts::heap_gaps, crate::proofs::HeapFacts::gaps_short))]
    pub fn may_give(&self, place: u64, n: u64) -> bool
        requires { place + n ≤ 2 ^ 45 }
        ensures may { IsTrue result → MayGive place n self.now.work.heap }
        ensures must { 1 ≤ n → MayGive place n self.now.work.heap → IsTrue result }
    {
        if place < (FREE_TABLE_PLACE + FREE_TABLE_LENGTH) as u64 {
            return false;
        }
        if place + n > self.end + 1 {
            return false;
        }
        meets_none(current(&self.work, &self.kept), place, n)
    }

    /// The free space in work and as it was accepted are heaps. It does nothing: who calls it has the law.
    pub fn is_heap(&self)
        ensures work { IsHeap self.now.work.heap }
        ensures kept { IsHeap self.now.kept.heap }
    {
        // the fields have the invariant
        let _ = &self.end;
    }

    /// The last byte of the file.
    pub fn end(&self) -> u64
        ensures { result ≡ self.now.work.heap.end }
    {
        self.end
    }

    /// The gaps, by place.
    pub fn gaps(&self, alloc: Global) -> Result<Extents, AdfError>
        ensures ok { IfOk result (λ gaps. gaps ≡ self.now.work.heap.gaps) }
        ensures cause { IfErr result (λ e. e ≡ AdfError.Memory) }
    {
        let mut gaps = Vec::new(alloc);
        match current(&self.work, &self.kept).append_to(&mut gaps) {
            Ok(()) => Ok(Extents::new(gaps)),
            Err(_) => Err(AdfError::Memory),
        }
    }
}

// The slots in work, or those that were accepted.
fn current<'a>(work: &'a Option<Rc<Tree>>, kept: &'a Rc<Tree>) -> &'a Rc<Tree>
    ensures { result.now.value ≡ slots_in work.now kept.now.value }
{
    match work {
        Some(slots) => slots,
        None => kept,
    }
}

// Takes n bytes from the front of a free chunk among the gaps in work: their place.
fn take_front<S: Space>(
    space: &mut S,
    alloc: Global,
    work: &mut Option<Rc<Tree>>,
    kept: &Rc<Tree>,
    i: usize,
    n: u64,
) -> Result<u64, AdfError>
    requires sound { S.is_sound space.old }
    requires gaps { AreGaps (gaps_of (slots_in work.old kept.now.value)) }
    requires some { 1 ≤ n }
    requires fit { IsFirstFit n (gaps_of (slots_in work.old kept.now.value)) i }
    requires threads { IfSome (S.image space.old)
        (ThreadsSlots (gaps_of (slots_in work.old kept.now.value))
        (slots_in work.old kept.now.value)) }
    ensures sound { S.is_sound space.new }
    ensures place { IfOk result (λ place. place
        ≡ (gap_at (gaps_of (slots_in work.old kept.now.value)) i).place) }
    ensures taken { OnOk result (BecomeSlots (cut n (gaps_of (slots_in work.old kept.now.value)))
        (slots_in work.old kept.now.value) (slots_in work.new kept.now.value)
        (S.image space.old) (S.image space.new)) }
    ensures stays { OnErr result (slots_in work.new kept.now.value
        ≡ slots_in work.old kept.now.value) }
    ensures bytes { Both (ChangesOnly (free_table
        ∷ filter is_free (gaps_of (slots_in work.old kept.now.value))))
        (S.image space.old) (S.image space.new) }
    ensures only { WaitsWhereTold (S.image space.old)
        (free_table ∷ filter is_free (gaps_of (slots_in work.old kept.now.value)))
        (S.waiting space.old) (S.waiting space.new) }
    ensures effect { ReadsFew 16 (S.state space.old) (S.state space.new) }
    ensures waiting { how_many (S.waiting space.new) ≤ how_many (S.waiting space.old) + 9 }
    ensures cause { IfErr result (IsRefusal (IsUntold (S.image space.old))
        (S.state space.old).faults (S.state space.new).faults) }
{
    let slots = current(work, kept);
    let place = gap_of(slots, i).place;
    let rest = cut_front(space, alloc, slots, i, n)?;
    *work = Some(rest);
    Ok(place)
}

// Gives a range to the gaps in work.
fn give_back<S: Space>(
    space: &mut S,
    alloc: Global,
    work: &mut Option<Rc<Tree>>,
    kept: &Rc<Tree>,
    place: u64,
    n: u64,
) -> Result<(), AdfError>
    requires sound { S.is_sound space.old }
    requires gaps { AreGaps (gaps_of (slots_in work.old kept.now.value)) }
    requires some { 1 ≤ n }
    requires apart { MeetsNone place n (gaps_of (slots_in work.old kept.now.value)) }
    requires low { 266 ≤ place }
    requires high { place + n ≤ 2 ^ 44 }
    requires threads { IfSome (S.image space.old)
        (ThreadsSlots (gaps_of (slots_in work.old kept.now.value))
        (slots_in work.old kept.now.value)) }
    ensures sound { S.is_sound space.new }
    ensures given { OnOk result (BecomeSlots (give_joined place n
        (gaps_of (slots_in work.old kept.now.value))) (slots_in work.old kept.now.value)
        (slots_in work.new kept.now.value) (S.image space.old) (S.image space.new)) }
    ensures stays { OnErr result (slots_in work.new kept.now.value
        ≡ slots_in work.old kept.now.value) }
    ensures bytes { Both (ChangesOnly (free_table ∷ range place n
        ∷ gaps_of (slots_in work.old kept.now.value))) (S.image space.old) (S.image space.new) }
    ensures only { WaitsWhereTold (S.image space.old)
        (free_table ∷ range place n ∷ gaps_of (slots_in work.old kept.now.value))
        (S.waiting space.old) (S.waiting space.new) }
    ensures effect { ReadsFew 22 (S.state space.old) (S.state space.new) }
    ensures waiting { how_many (S.waiting space.new) ≤ how_many (S.waiting space.old) + 12 }
    ensures cause { IfErr result (IsRefusal (IsUntold (S.image space.old))
        (S.state space.old).faults (S.state space.new).faults) }
{
    let more = give_range(space, alloc, current(work, kept), place, n)?;
    *work = Some(more);
    Ok(())
}
