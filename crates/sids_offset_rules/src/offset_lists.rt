//! The offsets of a section whose elements begin where they say.

ghost use Rattle.std.specs.Prelude.{◌≡◌, ◌≤◌, ◌&&◌, pos, true};
ghost use Rattle.std.specs.Ordering.{int_eq};
ghost use Rattle.adf_model.specs.Causes.{OnlyAsks};
ghost use Rattle.adf_model.specs.Edits.{size_of, size_limit};
ghost use Rattle.adf_model.specs.Slots.{IsTold};
ghost use Rattle.sids_views.specs.Asks.{IsValueOr, HasAskCause, IsPlain};
ghost use Rattle.sids_views.specs.Views.{node_there};
ghost use Rattle.sids_rules.specs.Values.{is_ints, has_rank, ints_there};
ghost use Rattle.sids_rules.specs.OffsetRules.{are_offsets};
ghost use Rattle.sids_readings.specs.Reading.{is_wide};
ghost use Rattle.sids_offset_rules.specs.Pieces.{IsOffsetSection, offset_state, state_there, state_of, is_bad_state};

use adf_model::{AdfError, DataType, NodeId, Numbers, TreeCalls};
use sids_readings::{first_dimension, ints_of, is_small_list, is_type};
use sids_rules::breaks_k37;
use sids_views::view_of;
use std::alloc::Global;
use std::marker::Model;

/// A section whose elements begin where its offsets say: it meets K23 to K28, K35 and K36.
#[derive(Drop)]
pub struct OffsetSection {
    code: i64,
    connectivity: NodeId,
    offsets: NodeId,
}

impl Model for OffsetSection {
    ghost use Rattle.sids_rules.specs.OffsetRules.{OffsetSection as AnOffsetSection};

    ghost Value = { AnOffsetSection };

    ghost view = { λ s. record {
      code = s.code;
      connectivity = s.connectivity;
      offsets = s.offsets;
    } };
}

/// The code of mixed elements.
pub(crate) const MIXED: i64 = 20;

/// The code of polygons.
const POLYGONS: i64 = 22;

/// The code of polyhedra.
const POLYHEDRA: i64 = 23;

impl OffsetSection {
    pub(crate) fn new(code: i64, connectivity: NodeId, offsets: NodeId) -> OffsetSection
        ensures code { result.code ≡ code }
        ensures connectivity { result.connectivity ≡ connectivity }
        ensures offsets { result.offsets ≡ offsets }
    {
        OffsetSection {
            code,
            connectivity,
            offsets,
        }
    }

    pub(crate) fn connectivity(&self) -> NodeId
        ensures { result ≡ self.now.connectivity }
    {
        self.connectivity
    }

    fn offsets(&self) -> NodeId
        ensures { result ≡ self.now.offsets }
    {
        self.offsets
    }

    pub(crate) fn is_mixed(&self) -> bool
        ensures { result ≡ int_eq self.now.code (pos 20) }
    {
        is_code(self.code, MIXED)
    }

    pub(crate) fn is_of_polygons(&self) -> bool
        ensures { result ≡ int_eq self.now.code (pos 22) }
    {
        is_code(self.code, POLYGONS)
    }

    pub(crate) fn is_of_polyhedra(&self) -> bool
        ensures { result ≡ int_eq self.now.code (pos 23) }
    {
        is_code(self.code, POLYHEDRA)
    }
}

fn is_code(code: i64, wanted: i64) -> bool
    ensures { result ≡ int_eq code wanted }
{
    code == wanted
}

/// What the numbers of offsets are.
#[derive(Drop)]
pub enum OffsetState {
    /// They have more than 2^30 bytes, and are not looked at.
    Untested,
    /// They do not begin with 0, or fall somewhere, or do not end with the length of the connectivity.
    Bad,
    Good(Numbers),
}

impl OffsetState {
    /// K37 offset-numbers.
    pub fn is_bad(&self) -> bool
        ensures { result ≡ is_bad_state self.now }
    {
        match self {
            OffsetState::Bad => true,
            OffsetState::Untested | OffsetState::Good(_) => false,
        }
    }
}

/// What the offsets of a section are.
pub fn offset_state<C: TreeCalls>(
    alloc: Global,
    calls: &mut C,
    section: &OffsetSection,
) -> Result<OffsetState, AdfError>
    requires ready { C.is_ready calls.old }
    requires section { IsTold (C.files calls.old) (C.devices calls.old)
        → IsOffsetSection (C.files calls.old) section.now }
    ensures ready { C.is_ready calls.new }
    ensures only { OnlyAsks (C.files calls.old) (C.devices calls.old)
        (C.devices calls.new) (C.files calls.new) }
    ensures value { IsTold (C.files calls.old) (C.devices calls.old)
        → IsValueOr (offset_state (C.files calls.old) section.now) result }
    ensures cause { HasAskCause (C.files calls.old) (C.devices calls.old)
        (C.devices calls.new) result }
{
    match view_of(calls, section.connectivity()) {
        Ok(view) => state_there(alloc, calls, section.offsets(), first_dimension(&view)),
        Err(error) => Err(error),
    }
}

/// What offsets are of a connectivity of so many numbers.
fn state_there<C: TreeCalls>(
    alloc: Global,
    calls: &mut C,
    at: NodeId,
    entries: u64,
) -> Result<OffsetState, AdfError>
    requires ready { C.is_ready calls.old }
    requires plain { IsTold (C.files calls.old) (C.devices calls.old)
        → IsPlain (C.files calls.old) at }
    requires list { IsTold (C.files calls.old) (C.devices calls.old)
        → (is_ints (node_there (C.files calls.old) at) && has_rank 1 (node_there (C.files calls.old) at)) ≡ true }
    ensures ready { C.is_ready calls.new }
    ensures only { OnlyAsks (C.files calls.old) (C.devices calls.old)
        (C.devices calls.new) (C.files calls.new) }
    ensures value { IsTold (C.files calls.old) (C.devices calls.old)
        → IsValueOr (state_there (C.files calls.old) at entries) result }
    ensures cause { HasAskCause (C.files calls.old) (C.devices calls.old)
        (C.devices calls.new) result }
{
    match view_of(calls, at) {
        Ok(view) => {
            if is_small_list(&view) {
                read_state(alloc, calls, at, entries, !is_type(&view, DataType::I4))
            } else {
                Ok(OffsetState::Untested)
            }
        }
        Err(error) => Err(error),
    }
}

fn read_state<C: TreeCalls>(
    alloc: Global,
    calls: &mut C,
    at: NodeId,
    entries: u64,
    wide: bool,
) -> Result<OffsetState, AdfError>
    requires ready { C.is_ready calls.old }
    requires plain { IsTold (C.files calls.old) (C.devices calls.old)
        → IsPlain (C.files calls.old) at }
    requires ints { IsTold (C.files calls.old) (C.devices calls.old)
        → is_ints (node_there (C.files calls.old) at) ≡ true }
    requires small { IsTold (C.files calls.old) (C.devices calls.old)
        → size_of (node_there (C.files calls.old) at) ≤ size_limit }
    requires width { IsTold (C.files calls.old) (C.devices calls.old)
        → is_wide (node_there (C.files calls.old) at) ≡ wide }
    ensures ready { C.is_ready calls.new }
    ensures only { OnlyAsks (C.files calls.old) (C.devices calls.old)
        (C.devices calls.new) (C.files calls.new) }
    ensures value { IsTold (C.files calls.old) (C.devices calls.old)
        → IsValueOr (state_of (ints_there (C.files calls.old) at) entries) result }
    ensures cause { HasAskCause (C.files calls.old) (C.devices calls.old)
        (C.devices calls.new) result }
{
    match ints_of(alloc, calls, at, wide) {
        Ok(numbers) => Ok(state_of(numbers, entries)),
        Err(error) => Err(error),
    }
}

fn state_of(numbers: Numbers, entries: u64) -> OffsetState
    ensures { result ≡ state_of numbers entries }
{
    if are_offsets(numbers.items(), entries) {
        OffsetState::Good(numbers)
    } else {
        OffsetState::Bad
    }
}

pub(crate) fn are_offsets(numbers: &[i64], entries: u64) -> bool
    ensures { result ≡ are_offsets numbers.now entries }
{
    !breaks_k37(numbers, entries)
}
