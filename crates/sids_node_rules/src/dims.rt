//! The dimensions that the arrays of grids and solutions are to have.

ghost use Rattle.std.specs.Prelude.{◌≡◌, pos, ◌+ℤ◌, ◌&&◌, not, ◌↔◌, [], IsTrue};
ghost use Rattle.std.specs.Ordering.{int_eq};
ghost use Rattle.adf_model.specs.Causes.{OnlyAsks};
ghost use Rattle.adf_model.specs.Slots.{IsTold};
ghost use Rattle.sids_views.specs.Asks.{IsValueOr, HasAskCause, IsPlain};
ghost use Rattle.sids_views.specs.Views.{node_there};
ghost use Rattle.sids_rules.specs.Values.{are_dims, with_rind};
ghost use Rattle.sids_rules.specs.Rules.{is_filled};

use adf_model::{AdfError, NodeId, TreeCalls};
use sids_readings::is_filled;
use sids_views::view_of;

/// K17 coordinate-size and K22 field-size, of an array, needs K15: its dimensions are not these sizes
/// with the planes of this rind added, low and high of each index.
pub fn breaks_size<C: TreeCalls>(
    calls: &mut C,
    at: NodeId,
    sizes: &[i64],
    rind: &[i64],
) -> Result<bool, AdfError>
    requires ready { C.is_ready calls.old }
    requires plain { IsTold (C.files calls.old) (C.devices calls.old)
        → IsPlain (C.files calls.old) at }
    ensures ready { C.is_ready calls.new }
    ensures only { OnlyAsks (C.files calls.old) (C.devices calls.old)
        (C.devices calls.new) (C.files calls.new) }
    ensures value { IsTold (C.files calls.old) (C.devices calls.old)
        → IsValueOr (is_filled (C.files calls.old) at
        && not (are_dims (node_there (C.files calls.old) at).dims
        (with_rind sizes.now rind.now))) result }
    ensures cause { HasAskCause (C.files calls.old) (C.devices calls.old)
        (C.devices calls.new) result }
{
    match view_of(calls, at) {
        Ok(view) => Ok(is_filled(&view) && !are_dims(view.dims(), sizes, rind)),
        Err(error) => Err(error),
    }
}

/// Whether dimensions are sizes with the planes of a rind added. Sizes are few: a number for each index
/// of a zone.
fn are_dims(dims: &[u64], sizes: &[i64], rind: &[i64]) -> bool
    ensures { result ≡ are_dims dims.now (with_rind sizes.now rind.now) }
{
    match sizes.split_first() {
        Some((&size, sizes)) => match rind.split_first() {
            Some((&low, rind)) => match rind.split_first() {
                Some((&high, rind)) => match dims.split_first() {
                    Some((&dim, dims)) => is_sum(dim, size, low, high)
                        && are_dims(dims, sizes, rind),
                    None => false,
                },
                None => are_none(dims),
            },
            None => are_none(dims),
        },
        None => are_none(dims),
    }
}

fn are_none(dims: &[u64]) -> bool
    ensures { result ≡ are_dims dims.now [] }
{
    match dims.split_first() {
        Some(_) => false,
        None => true,
    }
}

fn is_sum(dim: u64, size: i64, low: i64, high: i64) -> bool
    ensures { result ≡ int_eq (pos dim) (size +ℤ low +ℤ high) }
{
    is_number(dim, wide_sum(size, low, high))
}

fn wide_sum(size: i64, low: i64, high: i64) -> i128
    ensures { result ≡ (size +ℤ low +ℤ high) }
{
    i128::from(size) + i128::from(low) + i128::from(high)
}

fn is_number(dim: u64, sum: i128) -> bool
    ensures { result ≡ int_eq (pos dim) sum }
{
    is_same(dim, sum)
}

fn is_same(dim: u64, sum: i128) -> bool
    ensures { IsTrue result ↔ (pos dim ≡ sum) }
{
    i128::from(dim) == sum
}
