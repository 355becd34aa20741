//! The numbers of some ranges.

ghost use Rattle.std.specs.Prelude.{◌≡◌, ◌++◌, ◌∷◌, ◌||◌, ◌≤◌, ℕ, [], true, false, length, take, drop, nat_lt, OnOk, OnErr};
ghost use Rattle.std.specs.List.{list_any, AllByRecursion};
ghost use Rattle.element_ranges.specs.Ranges.{touches, begins_by, IsRising};

use std::alloc::{AllocError, Global};
use std::marker::Model;

/// The whole numbers from one to another.
#[derive(Clone, Copy, Drop)]
pub struct Span {
    pub start: u64,
    pub end: u64,
}

/// The numbers of some ranges: those that others cover are left out, and of the rest none begins or
/// ends before one that stands before it.
#[derive(Drop)]
pub struct RangeUnion {
    ranges: Vec<Span>,
}

impl Model for RangeUnion {
    ghost use Rattle.std.specs.Prelude.{List};
    ghost use Rattle.element_ranges.specs.declared.union.Span.{Span};
    ghost use Rattle.element_ranges.specs.Ranges.{IsRising};

    ghost Value = { List Span };

    ghost view = { λ u. u.ranges.items };

    ghost invariant = { λ u. IsRising u.ranges.items };
}

impl RangeUnion {
    /// No numbers.
    pub fn new(alloc: Global) -> RangeUnion
        ensures { result ≡ [] }
    {
        RangeUnion {
            ranges: Vec::new(alloc),
        }
    }

    /// Whether one of the ranges has a number in common with those from one to another.
    pub fn meets(&self, first: u64, last: u64) -> bool
        ensures { result ≡ list_any (touches first last) self.now }
    {
        meets_some(self.ranges.as_slice(), first, last)
    }

    /// The numbers of one range more.
    pub fn add(&mut self, range: Span) -> Result<(), AllocError>
        ensures meets { OnOk result ((first last : ℕ) → list_any (touches first last) self.new
            ≡ (touches first last range || list_any (touches first last) self.old)) }
    {
        let ended = count_ended(self.ranges.as_slice(), range.end);
        let (front, back) = self.ranges.as_slice().split_at(ended);
        if begins_by(back, range.start) {
            return Ok(());
        }
        let begun = count_begun(front, range.start);
        put_between(&mut self.ranges, begun, ended, range)
    }
}

/// Whether one of some ranges in order has a number in common with those from one to another.
fn meets_some(ranges: &[Span], first: u64, last: u64) -> bool
    requires { IsRising ranges.now }
    ensures { result ≡ list_any (touches first last) ranges.now }
{
    let mut rest = ranges;
    while !rest.is_empty() {
        let (front, back) = rest.split_at(rest.len() / 2);
        match back.split_first() {
            Some((middle, behind)) => {
                if middle.end < first {
                    rest = behind;
                } else if middle.start <= last {
                    return true;
                } else {
                    rest = front;
                }
            }
            None => return false,
        }
    }
    false
}

/// How many of some ranges in order end before a number.
fn count_ended(ranges: &[Span], end: u64) -> usize
    requires { IsRising ranges.now }
    ensures few { result ≤ length ranges.now }
    ensures front { AllByRecursion (λ r. nat_lt r.end end ≡ true) (take result ranges.now) }
    ensures back { AllByRecursion (λ r. nat_lt r.end end ≡ false) (drop result ranges.now) }
{
    ranges.partition_point(
        |range: &Span| -> bool
            ensures { result ≡ nat_lt range.now.end end }
        { range.end < end },
    )
}

/// How many of some ranges in order begin before a number.
fn count_begun(ranges: &[Span], start: u64) -> usize
    requires { IsRising ranges.now }
    ensures few { result ≤ length ranges.now }
    ensures front { AllByRecursion (λ r. nat_lt r.start start ≡ true) (take result ranges.now) }
    ensures back { AllByRecursion (λ r. nat_lt r.start start ≡ false) (drop result ranges.now) }
{
    ranges.partition_point(
        |range: &Span| -> bool
            ensures { result ≡ nat_lt range.now.start start }
        { range.start < start },
    )
}

/// Whether the first of some ranges begins at a number, or before it.
fn begins_by(ranges: &[Span], start: u64) -> bool
    ensures { result ≡ begins_by start ranges.now }
{
    match ranges.first() {
        Some(range) => range.start <= start,
        None => false,
    }
}

/// Puts a range in the place of those between two places.
fn put_between(
    ranges: &mut Vec<Span>,
    begun: usize,
    ended: usize,
    range: Span,
) -> Result<(), AllocError>
    requires order { begun ≤ ended }
    requires within { ended ≤ length ranges.old.items }
    ensures put { OnOk result (ranges.new.items
        ≡ take begun ranges.old.items ++ range ∷ drop ended ranges.old.items) }
    ensures kept { OnErr result (ranges.new.items ≡ ranges.old.items) }
{
    if ranges.insert(begun, range).is_err() {
        return Err(AllocError);
    }
    let mut left = ended - begun;
    while left > 0 {
        ranges.remove(begun + 1);
        left -= 1;
    }
    Ok(())
}
