//! Rules on sections whose elements begin where a list of offsets says.

ghost use Rattle.std.specs.Prelude.{◌≡◌, ◌&&◌, not, true, Some, is_some, is_none};
ghost use Rattle.std.specs.List.{AllByRecursion};
ghost use Rattle.adf_model.specs.Causes.{OnlyAsks};
ghost use Rattle.adf_model.specs.Slots.{IsTold};
ghost use Rattle.sids_views.specs.Asks.{IsValueOr, HasAskCause, IsPlain};
ghost use Rattle.sids_views.specs.Views.{node_there};
ghost use Rattle.sids_rules.specs.Terms.{section_range, is_range};
ghost use Rattle.sids_rules.specs.OffsetRules.{offset_child, wants_offsets, has_offsets, has_offset_size};
ghost use Rattle.sids_offset_rules.specs.OffsetParts.{offset_there, offset_in, lacks_offsets, shows_offset_size};

use adf_model::{AdfError, NodeId, TreeCalls};
use sids_readings::{ElementRange, SectionHead, child_of_kind, is_list, range_in};
use sids_tables::LabelKind;
use sids_views::{NodeView, SeenChild, children_of, view_of};
use std::alloc::Global;

/// Whether the elements of a section of this head begin where a list of offsets says: it is one of mixed
/// elements, of polygons or of polyhedra, and neither of its numbers is negative.
pub fn wants_offsets(head: &SectionHead) -> bool
    ensures { result ≡ wants_offsets head.now }
{
    head.is_good() && has_offsets(head.code())
}

fn has_offsets(code: i64) -> bool
    ensures { result ≡ has_offsets code }
{
    code == 20 || code == 22 || code == 23
}

/// K35 start-offset, of a section that wants offsets, needs K25: it has a range, and no child
/// `ElementStartOffset` that is an array of whole numbers of one dimension.
pub fn breaks_start_offset<C: TreeCalls>(
    alloc: Global,
    calls: &mut C,
    at: NodeId,
) -> Result<bool, AdfError>
    requires ready { C.is_ready calls.old }
    requires plain { IsTold (C.files calls.old) (C.devices calls.old)
        → IsPlain (C.files calls.old) at }
    ensures ready { C.is_ready calls.new }
    ensures only { OnlyAsks (C.files calls.old) (C.devices calls.old)
        (C.devices calls.new) (C.files calls.new) }
    ensures value { IsTold (C.files calls.old) (C.devices calls.old)
        → IsValueOr (is_some (section_range (C.files calls.old) at) && is_none (offset_child (C.files calls.old) at)) result }
    ensures cause { HasAskCause (C.files calls.old) (C.devices calls.old)
        (C.devices calls.new) result }
{
    match children_of(alloc, calls, at) {
        Ok(children) => lacks_offsets(alloc, calls, children.items()),
        Err(error) => Err(error),
    }
}

fn lacks_offsets<C: TreeCalls>(
    alloc: Global,
    calls: &mut C,
    children: &[SeenChild],
) -> Result<bool, AdfError>
    requires ready { C.is_ready calls.old }
    requires plain { IsTold (C.files calls.old) (C.devices calls.old)
        → AllByRecursion (λ child. IsPlain (C.files calls.old) child.target) children.now }
    ensures ready { C.is_ready calls.new }
    ensures only { OnlyAsks (C.files calls.old) (C.devices calls.old)
        (C.devices calls.new) (C.files calls.new) }
    ensures value { IsTold (C.files calls.old) (C.devices calls.old)
        → IsValueOr (lacks_offsets (C.files calls.old) children.now) result }
    ensures cause { HasAskCause (C.files calls.old) (C.devices calls.old)
        (C.devices calls.new) result }
{
    match range_in(alloc, calls, children) {
        Ok(Some(_)) => match offsets_in(calls, children) {
            Ok(offsets) => Ok(offsets.is_none()),
            Err(error) => Err(error),
        },
        Ok(None) => Ok(false),
        Err(error) => Err(error),
    }
}

/// The offsets of a section: its child `ElementStartOffset`, where that is an array of whole numbers of
/// one dimension.
pub fn offsets_of<C: TreeCalls>(
    alloc: Global,
    calls: &mut C,
    at: NodeId,
) -> Result<Option<NodeId>, AdfError>
    requires ready { C.is_ready calls.old }
    requires plain { IsTold (C.files calls.old) (C.devices calls.old)
        → IsPlain (C.files calls.old) at }
    ensures ready { C.is_ready calls.new }
    ensures only { OnlyAsks (C.files calls.old) (C.devices calls.old)
        (C.devices calls.new) (C.files calls.new) }
    ensures value { IsTold (C.files calls.old) (C.devices calls.old)
        → IsValueOr (offset_child (C.files calls.old) at) result }
    ensures cause { HasAskCause (C.files calls.old) (C.devices calls.old)
        (C.devices calls.new) result }
{
    match children_of(alloc, calls, at) {
        Ok(children) => offsets_in(calls, children.items()),
        Err(error) => Err(error),
    }
}

/// The offsets among the children of a section.
pub(crate) fn offsets_in<C: TreeCalls>(
    calls: &mut C,
    children: &[SeenChild],
) -> Result<Option<NodeId>, AdfError>
    requires ready { C.is_ready calls.old }
    requires plain { IsTold (C.files calls.old) (C.devices calls.old)
        → AllByRecursion (λ child. IsPlain (C.files calls.old) child.target) children.now }
    ensures ready { C.is_ready calls.new }
    ensures only { OnlyAsks (C.files calls.old) (C.devices calls.old)
        (C.devices calls.new) (C.files calls.new) }
    ensures value { IsTold (C.files calls.old) (C.devices calls.old)
        → IsValueOr (offset_in (C.files calls.old) children.now) result }
    ensures cause { HasAskCause (C.files calls.old) (C.devices calls.old)
        (C.devices calls.new) result }
{
    match child_of_kind(b"ElementStartOffset", LabelKind::DataArray, children) {
        Some(at) => offsets_at(calls, at),
        None => Ok(None),
    }
}

fn offsets_at<C: TreeCalls>(calls: &mut C, at: NodeId) -> Result<Option<NodeId>, AdfError>
    requires ready { C.is_ready calls.old }
    requires plain { IsTold (C.files calls.old) (C.devices calls.old)
        → IsPlain (C.files calls.old) at }
    ensures ready { C.is_ready calls.new }
    ensures only { OnlyAsks (C.files calls.old) (C.devices calls.old)
        (C.devices calls.new) (C.files calls.new) }
    ensures value { IsTold (C.files calls.old) (C.devices calls.old)
        → IsValueOr (offset_there (C.files calls.old) at) result }
    ensures cause { HasAskCause (C.files calls.old) (C.devices calls.old)
        (C.devices calls.new) result }
{
    match view_of(calls, at) {
        Ok(view) => {
            if is_list(&view) {
                Ok(Some(at))
            } else {
                Ok(None)
            }
        }
        Err(error) => Err(error),
    }
}

/// K36 offset-size, of the offsets of a section of this range: they are not one more than its elements.
pub fn breaks_offset_size<C: TreeCalls>(
    calls: &mut C,
    at: NodeId,
    range: &ElementRange,
) -> Result<bool, AdfError>
    requires range { is_range range.now ≡ true }
    requires ready { C.is_ready calls.old }
    requires plain { IsTold (C.files calls.old) (C.devices calls.old)
        → IsPlain (C.files calls.old) at }
    ensures ready { C.is_ready calls.new }
    ensures only { OnlyAsks (C.files calls.old) (C.devices calls.old)
        (C.devices calls.new) (C.files calls.new) }
    ensures value { IsTold (C.files calls.old) (C.devices calls.old)
        → IsValueOr (not (has_offset_size range.now (node_there (C.files calls.old) at))) result }
    ensures cause { HasAskCause (C.files calls.old) (C.devices calls.old)
        (C.devices calls.new) result }
{
    match view_of(calls, at) {
        Ok(view) => Ok(!has_offset_size(&view, range)),
        Err(error) => Err(error),
    }
}

fn has_offset_size(view: &NodeView, range: &ElementRange) -> bool
    requires { is_range range.now ≡ true }
    ensures { result ≡ shows_offset_size range.now view.now }
{
    match view.dims().first() {
        Some(&length) => length == range.count() + 1,
        None => false,
    }
}
