//! The sizes of zones, and how their vertices are connected.

ghost use Rattle.std.specs.Prelude.{◌≡◌, ◌≢◌, ◌≤◌, ◌*◌, true, IfSome, Some, take, drop, length};
ghost use Rattle.adf_model.specs.Causes.{OnlyAsks};
ghost use Rattle.adf_model.specs.Slots.{IsTold};
ghost use Rattle.sids_views.specs.Asks.{IsValueOr, HasAskCause, IsPlain};
ghost use Rattle.sids_views.specs.Views.{node_there};
ghost use Rattle.sids_rules.specs.Values.{ints_there};
ghost use Rattle.sids_rules.specs.Terms.{zone_sizes, zone_kind, kind_of_word, sizes_in, index_of};
ghost use Rattle.sids_readings.specs.Reading.{is_wide};
ghost use Rattle.sids_readings.specs.Kinds.{kind_by};

use crate::node_tests::{index_of, is_type};
use crate::numbers::ints_of;
use crate::texts::text_of;
use adf_model::{AdfError, DataType, NodeId, Numbers, TreeCalls};
use sids_rules::{RuleKind, without_padding};
use sids_tables::LabelKind;
use sids_views::{children_of, first_of, view_of};
use std::alloc::Global;
use std::marker::Model;

/// The sizes of a zone along each index: vertices, cells, and vertices on the boundary.
#[derive(Drop)]
pub struct ZoneSizes {
    index: usize,
    numbers: Numbers,
}

impl Model for ZoneSizes {
    ghost use Rattle.std.specs.Prelude.{◌≤◌, ◌≡◌, ◌*◌, length};
    ghost use Rattle.sids_rules.specs.Terms.{Sizes, sizes_in};

    ghost Value = { Sizes };

    ghost view = { λ s. sizes_in s.index s.numbers };

    ghost invariant = { λ s. (s.index ≤ 3) × (length s.numbers ≡ 3 * s.index) };
}

impl ZoneSizes {
    fn new(index: usize, numbers: Numbers) -> ZoneSizes
        requires few { index ≤ 3 }
        requires whole { length numbers ≡ 3 * index }
        ensures { result ≡ sizes_in index numbers }
    {
        ZoneSizes { index, numbers }
    }

    /// The number of indices.
    pub fn index(&self) -> usize
        ensures value { result ≡ self.now.index }
        ensures few { result ≤ 3 }
    {
        self.index
    }

    /// The vertices along each index.
    pub fn vertex(&self) -> &[i64]
        ensures value { result.now ≡ self.now.vertex }
        ensures length { length result.now ≡ self.now.index }
    {
        first_of_numbers(self.numbers.items(), self.index)
    }

    /// The cells along each index.
    pub fn cell(&self) -> &[i64]
        ensures value { result.now ≡ self.now.cell }
        ensures length { length result.now ≡ self.now.index }
    {
        first_of_numbers(behind(self.numbers.items(), self.index), self.index)
    }

    /// The vertices on the boundary along each index.
    pub fn boundary(&self) -> &[i64]
        ensures value { result.now ≡ self.now.boundary }
        ensures length { length result.now ≡ self.now.index }
    {
        behind(behind(self.numbers.items(), self.index), self.index)
    }
}

fn first_of_numbers(numbers: &[i64], count: usize) -> &[i64]
    ensures { result.now ≡ take count numbers.now }
{
    match numbers.get(..count) {
        Some(first) => first,
        None => numbers,
    }
}

fn behind(numbers: &[i64], count: usize) -> &[i64]
    ensures { result.now ≡ drop count numbers.now }
{
    match numbers.get(count..) {
        Some(rest) => rest,
        None => &[],
    }
}

/// The sizes of a zone that has the numbers of one: (i, 3) of them, i from 1 to 3.
pub fn zone_sizes<C: TreeCalls>(
    alloc: Global,
    calls: &mut C,
    at: NodeId,
) -> Result<Option<ZoneSizes>, AdfError>
    requires ready { C.is_ready calls.old }
    requires plain { IsTold (C.files calls.old) (C.devices calls.old)
        → IsPlain (C.files calls.old) at }
    ensures ready { C.is_ready calls.new }
    ensures only { OnlyAsks (C.files calls.old) (C.devices calls.old)
        (C.devices calls.new) (C.files calls.new) }
    ensures value { IsTold (C.files calls.old) (C.devices calls.old)
        → IsValueOr (zone_sizes (C.files calls.old) at) result }
    ensures cause { HasAskCause (C.files calls.old) (C.devices calls.old)
        (C.devices calls.new) result }
{
    match view_of(calls, at) {
        Ok(view) => match index_of(&view) {
            0 => Ok(None),
            index => sizes_at(alloc, calls, at, index, !is_type(&view, DataType::I4)),
        },
        Err(error) => Err(error),
    }
}

#[tactic(auto, using(crate::proofs::SmallLaws::zone_ints, crate::proofs::SmallLaws::zone_small, crate::proofs::ZoneLaws::zone_counted))]
fn sizes_at<C: TreeCalls>(
    alloc: Global,
    calls: &mut C,
    at: NodeId,
    index: usize,
    wide: bool,
) -> Result<Option<ZoneSizes>, AdfError>
    requires zone { IsTold (C.files calls.old) (C.devices calls.old)
        → index_of (node_there (C.files calls.old) at) ≡ index }
    requires some { index ≢ 0 }
    requires few { index ≤ 3 }
    requires width { IsTold (C.files calls.old) (C.devices calls.old)
        → is_wide (node_there (C.files calls.old) at) ≡ wide }
    requires ready { C.is_ready calls.old }
    requires plain { IsTold (C.files calls.old) (C.devices calls.old)
        → IsPlain (C.files calls.old) at }
    ensures ready { C.is_ready calls.new }
    ensures only { OnlyAsks (C.files calls.old) (C.devices calls.old)
        (C.devices calls.new) (C.files calls.new) }
    ensures value { IsTold (C.files calls.old) (C.devices calls.old)
        → IsValueOr (Some (sizes_in index (ints_there (C.files calls.old) at))) result }
    ensures cause { HasAskCause (C.files calls.old) (C.devices calls.old)
        (C.devices calls.new) result }
{
    match ints_of(alloc, calls, at, wide) {
        Ok(numbers) => Ok(whole_sizes(index, numbers)),
        Err(error) => Err(error),
    }
}

/// The sizes that are three numbers for each index.
fn whole_sizes(index: usize, numbers: Numbers) -> Option<ZoneSizes>
    requires { index ≤ 3 }
    ensures { length numbers ≡ 3 * index → result ≡ Some (sizes_in index numbers) }
{
    if numbers.items().len() == 3 * index {
        Some(ZoneSizes::new(index, numbers))
    } else {
        None
    }
}

/// How the vertices of a zone are connected: what the first child of that kind says; without one, by
/// their indices.
pub fn zone_kind<C: TreeCalls>(
    alloc: Global,
    calls: &mut C,
    at: NodeId,
) -> Result<RuleKind, AdfError>
    requires ready { C.is_ready calls.old }
    requires plain { IsTold (C.files calls.old) (C.devices calls.old)
        → IsPlain (C.files calls.old) at }
    ensures ready { C.is_ready calls.new }
    ensures only { OnlyAsks (C.files calls.old) (C.devices calls.old)
        (C.devices calls.new) (C.files calls.new) }
    ensures value { IsTold (C.files calls.old) (C.devices calls.old)
        → IsValueOr (zone_kind (C.files calls.old) at) result }
    ensures cause { HasAskCause (C.files calls.old) (C.devices calls.old)
        (C.devices calls.new) result }
{
    match children_of(alloc, calls, at) {
        Ok(children) => kind_by(
            alloc,
            calls,
            first_of(LabelKind::ZoneType, children.items()),
        ),
        Err(error) => Err(error),
    }
}

/// What the first child of a zone that tells its kind says.
pub fn kind_by<C: TreeCalls>(
    alloc: Global,
    calls: &mut C,
    first: Option<NodeId>,
) -> Result<RuleKind, AdfError>
    requires ready { C.is_ready calls.old }
    requires plain { IsTold (C.files calls.old) (C.devices calls.old)
        → IfSome first (IsPlain (C.files calls.old)) }
    ensures ready { C.is_ready calls.new }
    ensures only { OnlyAsks (C.files calls.old) (C.devices calls.old)
        (C.devices calls.new) (C.files calls.new) }
    ensures value { IsTold (C.files calls.old) (C.devices calls.old)
        → IsValueOr (kind_by (C.files calls.old) first) result }
    ensures cause { HasAskCause (C.files calls.old) (C.devices calls.old)
        (C.devices calls.new) result }
{
    match first {
        Some(at) => match text_of(alloc, calls, at) {
            Ok(text) => Ok(kind_of_word(without_padding(text.items()))),
            Err(error) => Err(error),
        },
        None => Ok(RuleKind::Structured),
    }
}

fn kind_of_word(word: &[u8]) -> RuleKind
    ensures { result ≡ kind_of_word word.now }
{
    if word == b"Structured".as_slice() {
        RuleKind::Structured
    } else if word == b"Unstructured".as_slice() {
        RuleKind::Unstructured
    } else {
        RuleKind::Other
    }
}
