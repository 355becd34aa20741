//! Ranges of element numbers, put together to be searched by halves.

ghost use Rattle.std.specs.Prelude.{◌≡◌, ◌||◌, ℤ, unsigned_abs, IfOk, IfErr, OnOk};
ghost use Rattle.std.specs.List.{list_any};
ghost use Rattle.adf_model.specs.declared.error.AdfError.{AdfError};
ghost use Rattle.element_ranges.specs.Ranges.{touches};
ghost use Rattle.sids_rules.specs.OffsetRules.{is_in_range};
ghost use Rattle.sids_section_rules.specs.Spans.{from_0, span_of};

use adf_model::AdfError;
use element_ranges::{RangeUnion, Span};
use sids_readings::ElementRange;
use std::alloc::Global;

/// The element numbers of some ranges: the amount of a number is among them exactly where one of the
/// ranges has it.
pub fn union_of(alloc: Global, ranges: &[ElementRange]) -> Result<RangeUnion, AdfError>
    ensures numbers { IfOk result (λ union. (n : ℤ)
        → list_any (touches (unsigned_abs n) (unsigned_abs n)) union
        ≡ list_any (is_in_range n) ranges.now) }
    ensures memory { IfErr result (λ error. error ≡ AdfError.Memory) }
{
    let mut union = RangeUnion::new(alloc);
    for range in ranges {
        match add_range(&mut union, range) {
            Ok(()) => {}
            Err(error) => return Err(error),
        }
    }
    Ok(union)
}

fn add_range(union: &mut RangeUnion, range: &ElementRange) -> Result<(), AdfError>
    ensures added { OnOk result ((n : ℤ)
        → list_any (touches (unsigned_abs n) (unsigned_abs n)) union.new
        ≡ (is_in_range n range.now
        || list_any (touches (unsigned_abs n) (unsigned_abs n)) union.old)) }
    ensures memory { IfErr result (λ error. error ≡ AdfError.Memory) }
{
    match span_of(range) {
        Some(span) => match union.add(span) {
            Ok(()) => Ok(()),
            Err(_) => Err(AdfError::Memory),
        },
        None => Ok(()),
    }
}

/// The numbers of a range from 0 on, where it does not end before.
fn span_of(range: &ElementRange) -> Option<Span>
    ensures { result ≡ span_of range.now }
{
    if range.end() < 0 {
        None
    } else {
        Some(Span {
            start: from_0(range.start()),
            end: range.end().unsigned_abs(),
        })
    }
}

fn from_0(number: i64) -> u64
    ensures { result ≡ from_0 number }
{
    if number < 0 { 0 } else { number.unsigned_abs() }
}
