//! Which of some ranges overlap earlier ones.

ghost use Rattle.std.specs.Prelude.{◌≡◌, ◌||◌, ℕ, [], None, OnOk};
ghost use Rattle.std.specs.List.{list_any};
ghost use Rattle.element_ranges.specs.Ranges.{touches};
ghost use Rattle.element_ranges.specs.Notes.{found, found_with, note_of, noted, ranges_of};

use crate::union::{RangeUnion, Span};
use std::alloc::{AllocError, Global};
use std::collections::BTreeMap;

/// For each key of some ranges, whether the first range of that key overlaps one that was added before.
#[derive(Drop)]
pub struct OverlapNotes {
    notes: BTreeMap<u64, bool>,
    earlier: RangeUnion,
}

impl OverlapNotes {
    /// No range.
    pub fn new(alloc: Global) -> OverlapNotes
        ensures notes { (key : ℕ) → note_of result key ≡ None }
        ensures ranges { ranges_of result ≡ [] }
    {
        OverlapNotes {
            notes: BTreeMap::new(alloc),
            earlier: RangeUnion::new(alloc),
        }
    }

    /// Whether the first range of a key overlaps an earlier one; none where there is no range of that key.
    pub fn get(&self, key: u64) -> Option<bool>
        ensures { result ≡ note_of self.now key }
    {
        match self.notes.get(&key) {
            Some(overlaps) => Some(*overlaps),
            None => None,
        }
    }

    /// One range more.
    pub fn add(&mut self, key: u64, range: Span) -> Result<(), AllocError>
        ensures notes { OnOk result ((q : ℕ) → note_of self.new q
            ≡ noted self.old key (list_any (touches range.start range.end) (ranges_of self.old)) q) }
        ensures ranges { OnOk result ((first last : ℕ)
            → list_any (touches first last) (ranges_of self.new)
            ≡ (touches first last range || list_any (touches first last) (ranges_of self.old))) }
    {
        let overlaps = self.earlier.meets(range.start, range.end);
        put_first(&mut self.notes, key, overlaps)?;
        self.earlier.add(range)
    }
}

/// Notes a key, where it has no note.
fn put_first(notes: &mut BTreeMap<u64, bool>, key: u64, note: bool) -> Result<(), AllocError>
    ensures { OnOk result ((q : ℕ) → found notes.new q ≡ found_with notes.old key note q) }
{
    if notes.contains_key(&key) {
        return Ok(());
    }
    match notes.insert(key, note) {
        Ok(_) => Ok(()),
        Err(_) => Err(AllocError),
    }
}
