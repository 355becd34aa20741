//! Tests of the numbers of a connectivity, one number after another. The numbers are not kept.

ghost use Rattle.std.specs.Prelude.{◌≡◌, ◌≤◌, ◌<◌, ◌+◌, ◌*◌, ◌^◌, [], drop, true, unwrap_or};
ghost use Rattle.std.specs.List.{list_any};
ghost use Rattle.adf_model.specs.Causes.{OnlyAsks};
ghost use Rattle.adf_model.specs.Edits.{size_of, size_limit};
ghost use Rattle.adf_model.specs.Slots.{IsTold};
ghost use Rattle.sids_views.specs.Asks.{IsValueOr, HasAskCause, IsPlain};
ghost use Rattle.sids_views.specs.Views.{node_there};
ghost use Rattle.sids_rules.specs.Values.{ints_there};
ghost use Rattle.sids_rules.specs.Rules.{is_no_vertex, first_dimension};
ghost use Rattle.sids_readings.specs.Reading.{is_wide, bytes_of, numbers_of, is_list};
ghost use Rattle.sids_section_rules.specs.Entries.{is_no_number, fails, has_failing};

use crate::parts::part_of;
use adf_model::{AdfError, Format, NodeId, TreeCalls};
use element_ranges::RangeUnion;
use sids_readings::{bytes_of, first_dimension, first_number};
use sids_views::{format_of, view_of};

/// What each number of a connectivity has to be.
#[derive(Drop)]
pub enum EntryTest {
    /// The number of a vertex: 1 or more, and at most this one where there is one.
    Vertex(Option<i64>),
    /// The number of an element in one of these ranges, with or without a sign.
    Face(RangeUnion),
}

impl EntryTest {
    /// Whether a number is none.
    fn fails(&self, number: i64) -> bool
        ensures { result ≡ fails self.now number }
    {
        match self {
            EntryTest::Vertex(limit) => is_no_vertex(*limit, number),
            EntryTest::Face(faces) => is_no_face(faces, number),
        }
    }
}

fn is_no_vertex(limit: Option<i64>, number: i64) -> bool
    ensures { result ≡ is_no_vertex limit number }
{
    match limit {
        Some(limit) => number < 1 || limit < number,
        None => number < 1,
    }
}

fn is_no_face(faces: &RangeUnion, number: i64) -> bool
    ensures { result ≡ is_no_number faces.now number }
{
    let amount = number.unsigned_abs();
    number == 0 || !faces.meets(amount, amount)
}

/// How many numbers are read at a time.
const PART: u64 = 1 << 16;

/// Whether a number of a list of whole numbers with data, of at most 2^30 bytes, is not what it has to be.
/// The numbers are wide where each has 8 bytes. They are read in parts, and none is kept.
pub fn has_failing_entry<C: TreeCalls>(
    calls: &mut C,
    at: NodeId,
    wide: bool,
    test: &EntryTest,
) -> Result<bool, AdfError>
    requires ready { C.is_ready calls.old }
    requires plain { IsTold (C.files calls.old) (C.devices calls.old)
        → IsPlain (C.files calls.old) at }
    requires list { IsTold (C.files calls.old) (C.devices calls.old)
        → is_list (node_there (C.files calls.old) at) ≡ true }
    requires small { IsTold (C.files calls.old) (C.devices calls.old)
        → size_of (node_there (C.files calls.old) at) ≤ size_limit }
    requires width { IsTold (C.files calls.old) (C.devices calls.old)
        → is_wide (node_there (C.files calls.old) at) ≡ wide }
    ensures ready { C.is_ready calls.new }
    ensures only { OnlyAsks (C.files calls.old) (C.devices calls.old)
        (C.devices calls.new) (C.files calls.new) }
    ensures value { IsTold (C.files calls.old) (C.devices calls.old)
        → IsValueOr (list_any (fails test.now) (ints_there (C.files calls.old) at)) result }
    ensures cause { HasAskCause (C.files calls.old) (C.devices calls.old)
        (C.devices calls.new) result }
{
    match format_of(calls, at) {
        Ok(format) => match view_of(calls, at) {
            Ok(view) => has_failing_part(calls, at, format, wide, first_dimension(&view), test),
            Err(error) => Err(error),
        },
        Err(error) => Err(error),
    }
}

fn has_failing_part<C: TreeCalls>(
    calls: &mut C,
    at: NodeId,
    format: Format,
    wide: bool,
    entries: u64,
    test: &EntryTest,
) -> Result<bool, AdfError>
    requires ready { C.is_ready calls.old }
    requires plain { IsTold (C.files calls.old) (C.devices calls.old)
        → IsPlain (C.files calls.old) at }
    requires list { IsTold (C.files calls.old) (C.devices calls.old)
        → is_list (node_there (C.files calls.old) at) ≡ true }
    requires small { IsTold (C.files calls.old) (C.devices calls.old)
        → size_of (node_there (C.files calls.old) at) ≤ size_limit }
    requires width { IsTold (C.files calls.old) (C.devices calls.old)
        → is_wide (node_there (C.files calls.old) at) ≡ wide }
    requires entries { IsTold (C.files calls.old) (C.devices calls.old)
        → first_dimension (node_there (C.files calls.old) at).dims ≡ entries }
    ensures ready { C.is_ready calls.new }
    ensures only { OnlyAsks (C.files calls.old) (C.devices calls.old)
        (C.devices calls.new) (C.files calls.new) }
    ensures value { IsTold (C.files calls.old) (C.devices calls.old)
        → IsValueOr (list_any (fails test.now) (numbers_of format wide entries (unwrap_or (node_there (C.files calls.old) at).bytes []))) result }
    ensures cause { HasAskCause (C.files calls.old) (C.devices calls.old)
        (C.devices calls.new) result }
{
    let mut first = 0;
    while first < entries {
        let count = PART.min(entries - first);
        match part_fails(calls, at, format, wide, first, count, test) {
            Ok(true) => return Ok(true),
            Ok(false) => {}
            Err(error) => return Err(error),
        }
        first += count;
    }
    Ok(false)
}

/// Whether one of so many numbers from one on is not what it has to be.
fn part_fails<C: TreeCalls>(
    calls: &mut C,
    at: NodeId,
    format: Format,
    wide: bool,
    first: u64,
    count: u64,
    test: &EntryTest,
) -> Result<bool, AdfError>
    requires ready { C.is_ready calls.old }
    requires bound { first + count < 2 ^ 64 }
    requires some { 1 ≤ count }
    requires plain { IsTold (C.files calls.old) (C.devices calls.old)
        → IsPlain (C.files calls.old) at }
    requires list { IsTold (C.files calls.old) (C.devices calls.old)
        → is_list (node_there (C.files calls.old) at) ≡ true }
    requires small { IsTold (C.files calls.old) (C.devices calls.old)
        → size_of (node_there (C.files calls.old) at) ≤ size_limit }
    requires width { IsTold (C.files calls.old) (C.devices calls.old)
        → is_wide (node_there (C.files calls.old) at) ≡ wide }
    requires within { IsTold (C.files calls.old) (C.devices calls.old)
        → first + count ≤ first_dimension (node_there (C.files calls.old) at).dims }
    ensures ready { C.is_ready calls.new }
    ensures only { OnlyAsks (C.files calls.old) (C.devices calls.old)
        (C.devices calls.new) (C.files calls.new) }
    ensures value { IsTold (C.files calls.old) (C.devices calls.old)
        → IsValueOr (list_any (fails test.now) (numbers_of format wide count (drop (first * bytes_of wide) (unwrap_or (node_there (C.files calls.old) at).bytes [])))) result }
    ensures cause { HasAskCause (C.files calls.old) (C.devices calls.old)
        (C.devices calls.new) result }
{
    match part_of(calls, at, first, count) {
        Ok(bytes) => Ok(has_failing(format, wide, test, bytes.items())),
        Err(error) => Err(error),
    }
}

/// Whether one of the numbers in bytes is not what it has to be.
#[tactic(auto, using(sids_readings::proofs::NumberLaws::first_fits, sids_readings::proofs::NumberLaws::all_fit, crate::proofs::EntryLaws::none_left))]
fn has_failing(format: Format, wide: bool, test: &EntryTest, bytes: &[u8]) -> bool
    ensures { result ≡ has_failing format wide test.now bytes.now }
{
    let width = bytes_of(wide);
    let mut left = bytes.len() / width;
    let mut rest = bytes;
    while left > 0 {
        if test.fails(first_number(format, wide, rest)) {
            return true;
        }
        rest = rest.split_at(width).1;
        left -= 1;
    }
    false
}
