//! Whether sections of a zone have an element number in common.

ghost use Rattle.std.specs.Prelude.{◌≡◌};
ghost use Rattle.std.specs.List.{AllByRecursion, list_any};
ghost use Rattle.adf_model.specs.Causes.{OnlyAsks};
ghost use Rattle.adf_model.specs.Slots.{IsTold};
ghost use Rattle.sids_views.specs.Asks.{IsValueOr, HasAskCause, IsPlain};
ghost use Rattle.sids_views.specs.Views.{is_same_node, given};
ghost use Rattle.sids_rules.specs.Terms.{good_range};
ghost use Rattle.sids_rules.specs.Rules.{meets, ranges_of, sections_before};
ghost use Rattle.sids_section_rules.specs.Overlaps.{overlaps_in, overlap_step, overlaps_child};

use adf_model::{AdfError, NodeId, TreeCalls};
use sids_readings::{ElementRange, section_range};
use sids_tables::LabelKind;
use sids_views::{SeenChild, children_of};
use std::alloc::Global;

/// K30 sections-overlap, of a section that is a child of a zone, with a good range: the range has an
/// element number in common with that of an earlier section of the zone. The node is the child's own.
pub fn breaks_sections_overlap<C: TreeCalls>(
    alloc: Global,
    calls: &mut C,
    node: NodeId,
    zone: NodeId,
    range: &ElementRange,
) -> Result<bool, AdfError>
    requires ready { C.is_ready calls.old }
    requires plain { IsTold (C.files calls.old) (C.devices calls.old)
        → IsPlain (C.files calls.old) zone }
    ensures ready { C.is_ready calls.new }
    ensures only { OnlyAsks (C.files calls.old) (C.devices calls.old)
        (C.devices calls.new) (C.files calls.new) }
    ensures value { IsTold (C.files calls.old) (C.devices calls.old)
        → IsValueOr (list_any (meets range.now) (ranges_of (C.files calls.old) (sections_before (C.files calls.old) zone node))) result }
    ensures cause { HasAskCause (C.files calls.old) (C.devices calls.old)
        (C.devices calls.new) result }
{
    match children_of(alloc, calls, zone) {
        Ok(children) => overlaps_in(alloc, calls, node, range, children.items()),
        Err(error) => Err(error),
    }
}

/// Whether a range meets that of a section before a node among the children of a zone.
fn overlaps_in<C: TreeCalls>(
    alloc: Global,
    calls: &mut C,
    node: NodeId,
    range: &ElementRange,
    children: &[SeenChild],
) -> Result<bool, AdfError>
    requires ready { C.is_ready calls.old }
    requires plain { IsTold (C.files calls.old) (C.devices calls.old)
        → AllByRecursion (λ child. IsPlain (C.files calls.old) child.target) children.now }
    ensures ready { C.is_ready calls.new }
    ensures only { OnlyAsks (C.files calls.old) (C.devices calls.old)
        (C.devices calls.new) (C.files calls.new) }
    ensures value { IsTold (C.files calls.old) (C.devices calls.old)
        → IsValueOr (overlaps_in (C.files calls.old) node range.now children.now) result }
    ensures cause { HasAskCause (C.files calls.old) (C.devices calls.old)
        (C.devices calls.new) result }
{
    for child in children {
        match overlap_step(alloc, calls, node, range, child) {
            Ok(Some(meets)) => return Ok(meets),
            Ok(None) => {}
            Err(error) => return Err(error),
        }
    }
    Ok(false)
}

/// What a child tells of it: nothing where it is no section, or one that a range does not meet.
fn overlap_step<C: TreeCalls>(
    alloc: Global,
    calls: &mut C,
    node: NodeId,
    range: &ElementRange,
    child: &SeenChild,
) -> Result<Option<bool>, AdfError>
    requires ready { C.is_ready calls.old }
    requires plain { IsTold (C.files calls.old) (C.devices calls.old)
        → IsPlain (C.files calls.old) child.now.target }
    ensures ready { C.is_ready calls.new }
    ensures only { OnlyAsks (C.files calls.old) (C.devices calls.old)
        (C.devices calls.new) (C.files calls.new) }
    ensures value { IsTold (C.files calls.old) (C.devices calls.old)
        → IsValueOr (overlap_step (C.files calls.old) node range.now child.now) result }
    ensures cause { HasAskCause (C.files calls.old) (C.devices calls.old)
        (C.devices calls.new) result }
{
    if child.kind != LabelKind::Elements {
        return Ok(None);
    }
    if is_same_node(child.node, node) {
        return Ok(Some(false));
    }
    match overlaps_child(alloc, calls, child.target, range) {
        Ok(true) => Ok(Some(true)),
        Ok(false) => Ok(None),
        Err(error) => Err(error),
    }
}

/// Whether two are the same node of the same file.
pub fn is_same_node(one: NodeId, other: NodeId) -> bool
    ensures { result ≡ is_same_node one other }
{
    one.file == other.file && one.serial == other.serial
}

/// Whether a range meets that of a section, where that is good.
fn overlaps_child<C: TreeCalls>(
    alloc: Global,
    calls: &mut C,
    at: NodeId,
    range: &ElementRange,
) -> Result<bool, AdfError>
    requires ready { C.is_ready calls.old }
    requires plain { IsTold (C.files calls.old) (C.devices calls.old)
        → IsPlain (C.files calls.old) at }
    ensures ready { C.is_ready calls.new }
    ensures only { OnlyAsks (C.files calls.old) (C.devices calls.old)
        (C.devices calls.new) (C.files calls.new) }
    ensures value { IsTold (C.files calls.old) (C.devices calls.old)
        → IsValueOr (overlaps_child (C.files calls.old) range.now at) result }
    ensures cause { HasAskCause (C.files calls.old) (C.devices calls.old)
        (C.devices calls.new) result }
{
    match section_range(alloc, calls, at) {
        Ok(Some(other)) => Ok(other.is_good() && meets(range, &other)),
        Ok(None) => Ok(false),
        Err(error) => Err(error),
    }
}

fn meets(one: &ElementRange, other: &ElementRange) -> bool
    ensures { result ≡ meets one.now other.now }
{
    one.start().max(other.start()) <= one.end().min(other.end())
}
