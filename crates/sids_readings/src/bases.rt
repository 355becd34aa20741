//! The numbers of bases.

ghost use Rattle.std.specs.Prelude.{◌≡◌, ◌∷◌, [], true};
ghost use Rattle.adf_format.specs.declared.types.DataType.TheVariants.{I4};
ghost use Rattle.adf_model.specs.Causes.{OnlyAsks};
ghost use Rattle.adf_model.specs.Slots.{IsTold};
ghost use Rattle.sids_views.specs.Asks.{IsValueOr, HasAskCause, IsPlain};
ghost use Rattle.sids_views.specs.Views.{node_there};
ghost use Rattle.sids_rules.specs.Values.{is_array_of, int_at};
ghost use Rattle.sids_rules.specs.Terms.{base_dimensions};
ghost use Rattle.sids_readings.specs.Pairs.{two_ints};

use crate::node_tests::is_array;
use crate::numbers::ints_of;
use adf_model::{AdfError, DataType, NodeId, TreeCalls};
use sids_views::view_of;
use std::alloc::Global;
use std::marker::Model;

/// The cell dimension of a base and the physical one.
#[derive(Drop)]
pub struct BaseDimensions {
    cell: i64,
    phys: i64,
}

impl Model for BaseDimensions {
    ghost use Rattle.sids_rules.specs.Terms.{Dimensions};

    ghost Value = { Dimensions };

    ghost view = { λ d. record { cell = d.cell; phys = d.phys } };
}

impl BaseDimensions {
    /// The cell dimension.
    pub fn cell(&self) -> i64
        ensures { result ≡ self.now.cell }
    {
        self.cell
    }

    /// The physical dimension.
    pub fn phys(&self) -> i64
        ensures { result ≡ self.now.phys }
    {
        self.phys
    }
}

/// The dimensions of a base that has two numbers of type I4.
pub fn base_dimensions<C: TreeCalls>(
    alloc: Global,
    calls: &mut C,
    at: NodeId,
) -> Result<Option<BaseDimensions>, AdfError>
    requires ready { C.is_ready calls.old }
    requires plain { IsTold (C.files calls.old) (C.devices calls.old)
        → IsPlain (C.files calls.old) at }
    ensures ready { C.is_ready calls.new }
    ensures only { OnlyAsks (C.files calls.old) (C.devices calls.old)
        (C.devices calls.new) (C.files calls.new) }
    ensures value { IsTold (C.files calls.old) (C.devices calls.old)
        → IsValueOr (base_dimensions (C.files calls.old) at) result }
    ensures cause { HasAskCause (C.files calls.old) (C.devices calls.old)
        (C.devices calls.new) result }
{
    match two_ints(alloc, calls, at) {
        Ok(Some((cell, phys))) => Ok(Some(BaseDimensions { cell, phys })),
        Ok(None) => Ok(None),
        Err(error) => Err(error),
    }
}

/// The numbers of a node that has two of type I4.
pub(crate) fn two_ints<C: TreeCalls>(
    alloc: Global,
    calls: &mut C,
    at: NodeId,
) -> Result<Option<(i64, i64)>, AdfError>
    requires ready { C.is_ready calls.old }
    requires plain { IsTold (C.files calls.old) (C.devices calls.old)
        → IsPlain (C.files calls.old) at }
    ensures ready { C.is_ready calls.new }
    ensures only { OnlyAsks (C.files calls.old) (C.devices calls.old)
        (C.devices calls.new) (C.files calls.new) }
    ensures value { IsTold (C.files calls.old) (C.devices calls.old)
        → IsValueOr (two_ints (C.files calls.old) at) result }
    ensures cause { HasAskCause (C.files calls.old) (C.devices calls.old)
        (C.devices calls.new) result }
{
    match view_of(calls, at) {
        Ok(view) => {
            if is_array(&view, DataType::I4, &[2]) {
                two_numbers(alloc, calls, at)
            } else {
                Ok(None)
            }
        }
        Err(error) => Err(error),
    }
}

#[tactic(auto, using(crate::proofs::SmallLaws::array_ints, crate::proofs::SmallLaws::array_small, crate::proofs::SmallLaws::array_narrow))]
fn two_numbers<C: TreeCalls>(
    alloc: Global,
    calls: &mut C,
    at: NodeId,
) -> Result<Option<(i64, i64)>, AdfError>
    requires two { IsTold (C.files calls.old) (C.devices calls.old)
        → is_array_of I4 (2 ∷ []) (node_there (C.files calls.old) at) ≡ true }
    requires ready { C.is_ready calls.old }
    requires plain { IsTold (C.files calls.old) (C.devices calls.old)
        → IsPlain (C.files calls.old) at }
    ensures ready { C.is_ready calls.new }
    ensures only { OnlyAsks (C.files calls.old) (C.devices calls.old)
        (C.devices calls.new) (C.files calls.new) }
    ensures value { IsTold (C.files calls.old) (C.devices calls.old)
        → IsValueOr (two_ints (C.files calls.old) at) result }
    ensures cause { HasAskCause (C.files calls.old) (C.devices calls.old)
        (C.devices calls.new) result }
{
    match ints_of(alloc, calls, at, false) {
        Ok(numbers) => Ok(Some((int_at(numbers.items(), 0), int_at(numbers.items(), 1)))),
        Err(error) => Err(error),
    }
}

/// The number at a place; 0 past the end.
#[tactic(auto, using(crate::proofs::NumberLaws::int_at_is))]
pub(crate) fn int_at(numbers: &[i64], k: usize) -> i64
    ensures { result ≡ int_at numbers.now k }
{
    match numbers.get(k) {
        Some(&number) => number,
        None => 0,
    }
}
