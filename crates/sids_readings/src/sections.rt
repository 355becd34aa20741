//! The numbers of sections of elements, and their children.

ghost use Rattle.std.specs.Prelude.{◌≡◌, ◌≤◌, ◌<◌, ◌^◌, true, Some, codes};
ghost use Rattle.std.specs.List.{AllByRecursion};
ghost use Rattle.adf_format.specs.Names.{product};
ghost use Rattle.adf_model.specs.Edits.{size_of, size_limit};
ghost use Rattle.adf_model.specs.Causes.{OnlyAsks};
ghost use Rattle.adf_model.specs.Slots.{IsTold};
ghost use Rattle.sids_views.specs.Asks.{IsValueOr, HasAskCause, IsPlain};
ghost use Rattle.sids_tables.specs.declared.labels.LabelKind.TheVariants.{DataArray};
ghost use Rattle.sids_views.specs.Views.{node_there, of_that_kind, first_called};
ghost use Rattle.sids_rules.specs.Values.{is_ints, ints_there};
ghost use Rattle.sids_rules.specs.Terms.{section_head, is_head, section_range, is_range, connectivity_child, element_count};
ghost use Rattle.sids_readings.specs.Reading.{is_wide};
ghost use Rattle.sids_readings.specs.Pairs.{ints_with, range_in, range_there};

use crate::bases::{int_at, two_ints};
use crate::node_tests::{is_ints_of, is_type};
use crate::numbers::ints_of;
use adf_model::{AdfError, DataType, NodeId, Numbers, TreeCalls};
use sids_tables::LabelKind;
use sids_views::{SeenChild, children_of, first_called, view_of};
use std::alloc::Global;
use std::marker::Model;

/// The code of the elements of a section, and how many of them are on the boundary.
#[derive(Drop)]
pub struct SectionHead {
    code: i64,
    boundary: i64,
}

impl Model for SectionHead {
    ghost use Rattle.sids_rules.specs.Terms.{Head};

    ghost Value = { Head };

    ghost view = { λ h. record { code = h.code; boundary = h.boundary } };
}

impl SectionHead {
    /// The code of the elements.
    pub fn code(&self) -> i64
        ensures { result ≡ self.now.code }
    {
        self.code
    }

    /// How many are on the boundary.
    pub fn boundary(&self) -> i64
        ensures { result ≡ self.now.boundary }
    {
        self.boundary
    }

    /// Whether neither number is negative.
    pub fn is_good(&self) -> bool
        ensures { result ≡ is_head self.now }
    {
        self.code >= 0 && self.boundary >= 0
    }
}

/// The numbers of the first and of the last element of a section.
#[derive(Drop)]
pub struct ElementRange {
    start: i64,
    end: i64,
}

impl Model for ElementRange {
    ghost use Rattle.sids_rules.specs.Terms.{Range};

    ghost Value = { Range };

    ghost view = { λ r. record { start = r.start; end = r.end } };
}

impl ElementRange {
    /// The number of the first element.
    pub fn start(&self) -> i64
        ensures { result ≡ self.now.start }
    {
        self.start
    }

    /// The number of the last element.
    pub fn end(&self) -> i64
        ensures { result ≡ self.now.end }
    {
        self.end
    }

    /// How many elements a good range has.
    pub fn count(&self) -> u64
        requires { is_range self.now ≡ true }
        ensures value { result ≡ element_count self.now }
        ensures few { result < 2 ^ 63 }
    {
        (self.end - self.start).unsigned_abs() + 1
    }

    /// Whether it starts at 1 or later, and does not end before its start.
    pub fn is_good(&self) -> bool
        ensures { result ≡ is_range self.now }
    {
        self.start >= 1 && self.start <= self.end
    }
}

/// The head of a section that has two numbers of type I4.
pub fn section_head<C: TreeCalls>(
    alloc: Global,
    calls: &mut C,
    at: NodeId,
) -> Result<Option<SectionHead>, AdfError>
    requires ready { C.is_ready calls.old }
    requires plain { IsTold (C.files calls.old) (C.devices calls.old)
        → IsPlain (C.files calls.old) at }
    ensures ready { C.is_ready calls.new }
    ensures only { OnlyAsks (C.files calls.old) (C.devices calls.old)
        (C.devices calls.new) (C.files calls.new) }
    ensures value { IsTold (C.files calls.old) (C.devices calls.old)
        → IsValueOr (section_head (C.files calls.old) at) result }
    ensures cause { HasAskCause (C.files calls.old) (C.devices calls.old)
        (C.devices calls.new) result }
{
    match two_ints(alloc, calls, at) {
        Ok(Some((code, boundary))) => Ok(Some(SectionHead { code, boundary })),
        Ok(None) => Ok(None),
        Err(error) => Err(error),
    }
}

/// The range of a section: of its child `ElementRange`, where that is an index range of two numbers.
pub fn section_range<C: TreeCalls>(
    alloc: Global,
    calls: &mut C,
    at: NodeId,
) -> Result<Option<ElementRange>, AdfError>
    requires ready { C.is_ready calls.old }
    requires plain { IsTold (C.files calls.old) (C.devices calls.old)
        → IsPlain (C.files calls.old) at }
    ensures ready { C.is_ready calls.new }
    ensures only { OnlyAsks (C.files calls.old) (C.devices calls.old)
        (C.devices calls.new) (C.files calls.new) }
    ensures value { IsTold (C.files calls.old) (C.devices calls.old)
        → IsValueOr (section_range (C.files calls.old) at) result }
    ensures cause { HasAskCause (C.files calls.old) (C.devices calls.old)
        (C.devices calls.new) result }
{
    match children_of(alloc, calls, at) {
        Ok(children) => range_in(alloc, calls, children.items()),
        Err(error) => Err(error),
    }
}

/// The range that the children of a section tell.
pub fn range_in<C: TreeCalls>(
    alloc: Global,
    calls: &mut C,
    children: &[SeenChild],
) -> Result<Option<ElementRange>, AdfError>
    requires ready { C.is_ready calls.old }
    requires plain { IsTold (C.files calls.old) (C.devices calls.old)
        → AllByRecursion (λ child. IsPlain (C.files calls.old) child.target) children.now }
    ensures ready { C.is_ready calls.new }
    ensures only { OnlyAsks (C.files calls.old) (C.devices calls.old)
        (C.devices calls.new) (C.files calls.new) }
    ensures value { IsTold (C.files calls.old) (C.devices calls.old)
        → IsValueOr (range_in (C.files calls.old) children.now) result }
    ensures cause { HasAskCause (C.files calls.old) (C.devices calls.old)
        (C.devices calls.new) result }
{
    match child_of_kind(b"ElementRange", LabelKind::IndexRange, children) {
        Some(at) => range_at(alloc, calls, at),
        None => Ok(None),
    }
}

/// The range of a node that has two whole numbers.
fn range_at<C: TreeCalls>(
    alloc: Global,
    calls: &mut C,
    at: NodeId,
) -> Result<Option<ElementRange>, AdfError>
    requires ready { C.is_ready calls.old }
    requires plain { IsTold (C.files calls.old) (C.devices calls.old)
        → IsPlain (C.files calls.old) at }
    ensures ready { C.is_ready calls.new }
    ensures only { OnlyAsks (C.files calls.old) (C.devices calls.old)
        (C.devices calls.new) (C.files calls.new) }
    ensures value { IsTold (C.files calls.old) (C.devices calls.old)
        → IsValueOr (range_there (C.files calls.old) at) result }
    ensures cause { HasAskCause (C.files calls.old) (C.devices calls.old)
        (C.devices calls.new) result }
{
    match ints_with(alloc, calls, at, &[2]) {
        Ok(Some(numbers)) => Ok(Some(ElementRange {
            start: int_at(numbers.items(), 0),
            end: int_at(numbers.items(), 1),
        })),
        Ok(None) => Ok(None),
        Err(error) => Err(error),
    }
}

/// The connectivity of a section: its child `ElementConnectivity`, where that is an array.
pub fn connectivity_of<C: TreeCalls>(
    alloc: Global,
    calls: &mut C,
    at: NodeId,
) -> Result<Option<NodeId>, AdfError>
    requires ready { C.is_ready calls.old }
    requires plain { IsTold (C.files calls.old) (C.devices calls.old)
        → IsPlain (C.files calls.old) at }
    ensures ready { C.is_ready calls.new }
    ensures only { OnlyAsks (C.files calls.old) (C.devices calls.old)
        (C.devices calls.new) (C.files calls.new) }
    ensures value { IsTold (C.files calls.old) (C.devices calls.old)
        → IsValueOr (connectivity_child (C.files calls.old) at) result }
    ensures cause { HasAskCause (C.files calls.old) (C.devices calls.old)
        (C.devices calls.new) result }
{
    match children_of(alloc, calls, at) {
        Ok(children) => Ok(connectivity_in(children.items())),
        Err(error) => Err(error),
    }
}

/// The connectivity among the children of a section.
pub fn connectivity_in(children: &[SeenChild]) -> Option<NodeId>
    ensures { result ≡ of_that_kind DataArray
        (first_called (codes "ElementConnectivity") children.now) }
{
    child_of_kind(b"ElementConnectivity", LabelKind::DataArray, children)
}

/// The node that the first child of a name is seen as, where that is of a kind.
pub fn child_of_kind(name: &[u8], kind: LabelKind, children: &[SeenChild]) -> Option<NodeId>
    ensures { result ≡ of_that_kind kind (first_called name.now children.now) }
{
    match first_called(name, children) {
        Some((at, is)) => { if is == kind { Some(at) } else { None } }
        None => None,
    }
}

/// The numbers of a node that has whole numbers of these dimensions, of which there are few.
#[tactic(auto, using(crate::proofs::SmallLaws::ints_of_ints, crate::proofs::SmallLaws::ints_of_small))]
pub(crate) fn ints_with<C: TreeCalls>(
    alloc: Global,
    calls: &mut C,
    at: NodeId,
    dims: &[u64],
) -> Result<Option<Numbers>, AdfError>
    requires few { product dims.now ≤ 9 }
    requires ready { C.is_ready calls.old }
    requires plain { IsTold (C.files calls.old) (C.devices calls.old)
        → IsPlain (C.files calls.old) at }
    ensures ready { C.is_ready calls.new }
    ensures only { OnlyAsks (C.files calls.old) (C.devices calls.old)
        (C.devices calls.new) (C.files calls.new) }
    ensures value { IsTold (C.files calls.old) (C.devices calls.old)
        → IsValueOr (ints_with dims.now (C.files calls.old) at) result }
    ensures cause { HasAskCause (C.files calls.old) (C.devices calls.old)
        (C.devices calls.new) result }
{
    match view_of(calls, at) {
        Ok(view) => {
            if is_ints_of(&view, dims) {
                some_ints(alloc, calls, at, !is_type(&view, DataType::I4))
            } else {
                Ok(None)
            }
        }
        Err(error) => Err(error),
    }
}

fn some_ints<C: TreeCalls>(
    alloc: Global,
    calls: &mut C,
    at: NodeId,
    wide: bool,
) -> Result<Option<Numbers>, AdfError>
    requires ints { IsTold (C.files calls.old) (C.devices calls.old)
        → is_ints (node_there (C.files calls.old) at) ≡ true }
    requires small { IsTold (C.files calls.old) (C.devices calls.old)
        → size_of (node_there (C.files calls.old) at) ≤ size_limit }
    requires width { IsTold (C.files calls.old) (C.devices calls.old)
        → is_wide (node_there (C.files calls.old) at) ≡ wide }
    requires ready { C.is_ready calls.old }
    requires plain { IsTold (C.files calls.old) (C.devices calls.old)
        → IsPlain (C.files calls.old) at }
    ensures ready { C.is_ready calls.new }
    ensures only { OnlyAsks (C.files calls.old) (C.devices calls.old)
        (C.devices calls.new) (C.files calls.new) }
    ensures value { IsTold (C.files calls.old) (C.devices calls.old)
        → IsValueOr (Some (ints_there (C.files calls.old) at)) result }
    ensures cause { HasAskCause (C.files calls.old) (C.devices calls.old)
        (C.devices calls.new) result }
{
    match ints_of(alloc, calls, at, wide) {
        Ok(numbers) => Ok(Some(numbers)),
        Err(error) => Err(error),
    }
}
