//! The largest number of a vertex that node numbers in a zone may have.

ghost use Rattle.std.specs.List.{AllByRecursion, list_any};
ghost use Rattle.adf_model.specs.Causes.{OnlyAsks};
ghost use Rattle.adf_model.specs.Slots.{IsTold};
ghost use Rattle.sids_views.specs.Asks.{IsValueOr, HasAskCause, IsPlain};
ghost use Rattle.sids_tables.specs.declared.labels.LabelKind.TheVariants.{Rind};
ghost use Rattle.sids_rules.specs.Terms.{vertex_limit, has_child};
ghost use Rattle.sids_readings.specs.Limits.{has_grid_rind, limit_in};

use crate::bases::int_at;
use crate::zones::{ZoneSizes, kind_by};
use adf_model::{AdfError, NodeId, TreeCalls};
use sids_rules::RuleKind;
use sids_tables::LabelKind;
use sids_views::{SeenChild, children_of, first_of};
use std::alloc::Global;

/// The number of vertices that node numbers may not exceed, in a zone of these sizes: there is one where
/// the zone is unstructured and no grid in it has a rind.
pub fn vertex_limit<C: TreeCalls>(
    alloc: Global,
    calls: &mut C,
    at: NodeId,
    sizes: &ZoneSizes,
) -> Result<Option<i64>, AdfError>
    requires ready { C.is_ready calls.old }
    requires plain { IsTold (C.files calls.old) (C.devices calls.old)
        → IsPlain (C.files calls.old) at }
    ensures ready { C.is_ready calls.new }
    ensures only { OnlyAsks (C.files calls.old) (C.devices calls.old)
        (C.devices calls.new) (C.files calls.new) }
    ensures value { IsTold (C.files calls.old) (C.devices calls.old)
        → IsValueOr (vertex_limit (C.files calls.old) at sizes.now) result }
    ensures cause { HasAskCause (C.files calls.old) (C.devices calls.old)
        (C.devices calls.new) result }
{
    match children_of(alloc, calls, at) {
        Ok(children) => limit_in(alloc, calls, sizes, children.items()),
        Err(error) => Err(error),
    }
}

/// That number, by the children of the zone.
pub(crate) fn limit_in<C: TreeCalls>(
    alloc: Global,
    calls: &mut C,
    sizes: &ZoneSizes,
    children: &[SeenChild],
) -> Result<Option<i64>, AdfError>
    requires ready { C.is_ready calls.old }
    requires plain { IsTold (C.files calls.old) (C.devices calls.old)
        → AllByRecursion (λ child. IsPlain (C.files calls.old) child.target) children.now }
    ensures ready { C.is_ready calls.new }
    ensures only { OnlyAsks (C.files calls.old) (C.devices calls.old)
        (C.devices calls.new) (C.files calls.new) }
    ensures value { IsTold (C.files calls.old) (C.devices calls.old)
        → IsValueOr (limit_in (C.files calls.old) sizes.now children.now) result }
    ensures cause { HasAskCause (C.files calls.old) (C.devices calls.old)
        (C.devices calls.new) result }
{
    match kind_by(alloc, calls, first_of(LabelKind::ZoneType, children)) {
        Ok(RuleKind::Unstructured) => match has_rind(alloc, calls, children) {
            Ok(true) => Ok(None),
            Ok(false) => Ok(Some(int_at(sizes.vertex(), 0))),
            Err(error) => Err(error),
        },
        Ok(RuleKind::Structured) | Ok(RuleKind::Other) => Ok(None),
        Err(error) => Err(error),
    }
}

/// Whether some grid of these has a rind.
fn has_rind<C: TreeCalls>(
    alloc: Global,
    calls: &mut C,
    children: &[SeenChild],
) -> Result<bool, AdfError>
    requires ready { C.is_ready calls.old }
    requires plain { IsTold (C.files calls.old) (C.devices calls.old)
        → AllByRecursion (λ child. IsPlain (C.files calls.old) child.target) children.now }
    ensures ready { C.is_ready calls.new }
    ensures only { OnlyAsks (C.files calls.old) (C.devices calls.old)
        (C.devices calls.new) (C.files calls.new) }
    ensures value { IsTold (C.files calls.old) (C.devices calls.old)
        → IsValueOr (list_any (has_grid_rind (C.files calls.old)) children.now) result }
    ensures cause { HasAskCause (C.files calls.old) (C.devices calls.old)
        (C.devices calls.new) result }
{
    for child in children {
        match has_grid_rind(alloc, calls, child) {
            Ok(true) => return Ok(true),
            Ok(false) => {}
            Err(error) => return Err(error),
        }
    }
    Ok(false)
}

/// Whether a child is a grid with a rind.
fn has_grid_rind<C: TreeCalls>(
    alloc: Global,
    calls: &mut C,
    child: &SeenChild,
) -> Result<bool, AdfError>
    requires ready { C.is_ready calls.old }
    requires plain { IsTold (C.files calls.old) (C.devices calls.old)
        → IsPlain (C.files calls.old) child.now.target }
    ensures ready { C.is_ready calls.new }
    ensures only { OnlyAsks (C.files calls.old) (C.devices calls.old)
        (C.devices calls.new) (C.files calls.new) }
    ensures value { IsTold (C.files calls.old) (C.devices calls.old)
        → IsValueOr (has_grid_rind (C.files calls.old) child.now) result }
    ensures cause { HasAskCause (C.files calls.old) (C.devices calls.old)
        (C.devices calls.new) result }
{
    if child.kind != LabelKind::GridCoordinates {
        return Ok(false);
    }
    match children_of(alloc, calls, child.target) {
        Ok(children) => Ok(first_of(LabelKind::Rind, children.items()).is_some()),
        Err(error) => Err(error),
    }
}
