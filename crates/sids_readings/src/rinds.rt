//! The rinds of grids and solutions.

ghost use Rattle.std.specs.Prelude.{◌≡◌, ◌≤◌, ◌*◌, pos, replicate, IfOk, IfErr};
ghost use Rattle.std.specs.List.{AllByRecursion};
ghost use Rattle.adf_model.specs.declared.error.AdfError.{AdfError};
ghost use Rattle.adf_model.specs.Causes.{OnlyAsks};
ghost use Rattle.adf_model.specs.Slots.{IsTold};
ghost use Rattle.sids_views.specs.Asks.{IsValueOr, HasAskCause, IsPlain};
ghost use Rattle.sids_rules.specs.Terms.{rind_there};
ghost use Rattle.sids_readings.specs.Rinds.{rind_in, rind_of_child};

use crate::sections::ints_with;
use adf_model::{AdfError, NodeId, Numbers, TreeCalls};
use sids_tables::LabelKind;
use sids_views::{SeenChild, children_of};
use std::alloc::Global;

/// The planes of the rind that the children of a node tell, low and high of each index: zeros where
/// there is none.
pub fn rind_in<C: TreeCalls>(
    alloc: Global,
    calls: &mut C,
    index: usize,
    children: &[SeenChild],
) -> Result<Numbers, AdfError>
    requires few { index ≤ 3 }
    requires ready { C.is_ready calls.old }
    requires plain { IsTold (C.files calls.old) (C.devices calls.old)
        → AllByRecursion (λ child. IsPlain (C.files calls.old) child.target) children.now }
    ensures ready { C.is_ready calls.new }
    ensures only { OnlyAsks (C.files calls.old) (C.devices calls.old)
        (C.devices calls.new) (C.files calls.new) }
    ensures value { IsTold (C.files calls.old) (C.devices calls.old)
        → IsValueOr (rind_in index (C.files calls.old) children.now) result }
    ensures cause { HasAskCause (C.files calls.old) (C.devices calls.old)
        (C.devices calls.new) result }
{
    for child in children {
        match rind_of_child(alloc, calls, index, child) {
            Ok(Some(numbers)) => return Ok(numbers),
            Ok(None) => {}
            Err(error) => return Err(error),
        }
    }
    zeros(alloc, 2 * index)
}

/// The planes of the rind of a grid or of a solution: zeros where there is none.
#[tactic(auto, using(crate::proofs::RindLaws::rind_is))]
pub fn rind_there<C: TreeCalls>(
    alloc: Global,
    calls: &mut C,
    index: usize,
    at: NodeId,
) -> Result<Numbers, AdfError>
    requires few { index ≤ 3 }
    requires ready { C.is_ready calls.old }
    requires plain { IsTold (C.files calls.old) (C.devices calls.old)
        → IsPlain (C.files calls.old) at }
    ensures ready { C.is_ready calls.new }
    ensures only { OnlyAsks (C.files calls.old) (C.devices calls.old)
        (C.devices calls.new) (C.files calls.new) }
    ensures value { IsTold (C.files calls.old) (C.devices calls.old)
        → IsValueOr (rind_there index (C.files calls.old) at) result }
    ensures cause { HasAskCause (C.files calls.old) (C.devices calls.old)
        (C.devices calls.new) result }
{
    match children_of(alloc, calls, at) {
        Ok(children) => rind_in(alloc, calls, index, children.items()),
        Err(error) => Err(error),
    }
}

/// The planes that a child tells, where it is a rind.
fn rind_of_child<C: TreeCalls>(
    alloc: Global,
    calls: &mut C,
    index: usize,
    child: &SeenChild,
) -> Result<Option<Numbers>, AdfError>
    requires few { index ≤ 3 }
    requires ready { C.is_ready calls.old }
    requires plain { IsTold (C.files calls.old) (C.devices calls.old)
        → IsPlain (C.files calls.old) child.now.target }
    ensures ready { C.is_ready calls.new }
    ensures only { OnlyAsks (C.files calls.old) (C.devices calls.old)
        (C.devices calls.new) (C.files calls.new) }
    ensures value { IsTold (C.files calls.old) (C.devices calls.old)
        → IsValueOr (rind_of_child index (C.files calls.old) child.now) result }
    ensures cause { HasAskCause (C.files calls.old) (C.devices calls.old)
        (C.devices calls.new) result }
{
    if child.kind == LabelKind::Rind {
        ints_with(alloc, calls, child.target, &[2 * index as u64])
    } else {
        Ok(None)
    }
}

fn zeros(alloc: Global, count: usize) -> Result<Numbers, AdfError>
    ensures value { IfOk result (λ numbers. numbers ≡ replicate count (pos 0)) }
    ensures memory { IfErr result (λ error. error ≡ AdfError.Memory) }
{
    match vec![in alloc; 0i64; count] {
        Ok(numbers) => Ok(Numbers::new(numbers)),
        Err(_) => Err(AdfError::Memory),
    }
}
