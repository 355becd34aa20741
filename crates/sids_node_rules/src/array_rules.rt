//! The rules on arrays, rinds and boundary conditions.

ghost use Rattle.std.specs.Prelude.{◌≡◌, ◌++◌, ◌∷◌, [], ◌*◌, ◌&&◌, not, codes, bytes_eq};
ghost use Rattle.adf_model.specs.Causes.{OnlyAsks};
ghost use Rattle.adf_model.specs.Slots.{IsTold};
ghost use Rattle.sids_views.specs.Asks.{IsValueOr, HasAskCause, IsPlain, IsThere};
ghost use Rattle.sids_tables.specs.declared.labels.LabelKind.TheVariants.{FamilyName};
ghost use Rattle.sids_views.specs.Views.{given, node_there};
ghost use Rattle.sids_rules.specs.Values.{is_ints_of, text_of};
ghost use Rattle.sids_rules.specs.Terms.{has_child};
ghost use Rattle.sids_rules.specs.Rules.{are_points_off};
ghost use Rattle.sids_readings.specs.Held.{held};
ghost use Rattle.sids_node_rules.specs.NodeRules.{is_size_off};
ghost use Rattle.sids_node_rules.specs.KindTests.{array_tests, tests_under, rind_tests, condition_tests, coordinate_tests, field_tests};

use crate::arrays::{ArrayDims, breaks_dims};
use crate::conditions::{breaks_bc_family, breaks_bc_points};
use crate::node_rules::{
    breaks_array_data, breaks_coordinate_type, breaks_field_type, breaks_rind_data,
    breaks_rind_name,
};
use adf_model::{AdfError, NodeId, Rules, TreeCalls};
use sids_readings::{WordList, ZoneSizes, is_no_word, with_rule};
use sids_tables::LabelKind;
use sids_views::kind_of_node;
use std::alloc::Global;

/// A list of rules with those that an array breaks, which is to have these dimensions where rules speak
/// of them.
pub fn with_array_rules<C: TreeCalls>(
    calls: &mut C,
    at: NodeId,
    parent: NodeId,
    dims: &Option<ArrayDims>,
    rules: Rules,
) -> Result<Rules, AdfError>
    requires ready { C.is_ready calls.old }
    requires plain { IsTold (C.files calls.old) (C.devices calls.old)
        → IsPlain (C.files calls.old) at }
    requires parent { IsTold (C.files calls.old) (C.devices calls.old)
        → IsPlain (C.files calls.old) parent }
    ensures ready { C.is_ready calls.new }
    ensures only { OnlyAsks (C.files calls.old) (C.devices calls.old)
        (C.devices calls.new) (C.files calls.new) }
    ensures value { IsTold (C.files calls.old) (C.devices calls.old)
        → IsValueOr (rules ++ held (array_tests (C.files calls.old) dims.now at parent)) result }
    ensures cause { HasAskCause (C.files calls.old) (C.devices calls.old)
        (C.devices calls.new) result }
{
    match kind_of_node(calls, parent) {
        Ok(kind) => with_place_rules(calls, at, kind, dims, rules),
        Err(error) => Err(error),
    }
}

fn with_place_rules<C: TreeCalls>(
    calls: &mut C,
    at: NodeId,
    kind: LabelKind,
    dims: &Option<ArrayDims>,
    rules: Rules,
) -> Result<Rules, AdfError>
    requires ready { C.is_ready calls.old }
    requires plain { IsTold (C.files calls.old) (C.devices calls.old)
        → IsPlain (C.files calls.old) at }
    ensures ready { C.is_ready calls.new }
    ensures only { OnlyAsks (C.files calls.old) (C.devices calls.old)
        (C.devices calls.new) (C.files calls.new) }
    ensures value { IsTold (C.files calls.old) (C.devices calls.old)
        → IsValueOr (rules ++ held (tests_under kind (C.files calls.old) dims.now at)) result }
    ensures cause { HasAskCause (C.files calls.old) (C.devices calls.old)
        (C.devices calls.new) result }
{
    match breaks_array_data(calls, at) {
        Ok(is_broken) => match with_rule(rules, 15, is_broken) {
            Ok(rules) => match kind {
                LabelKind::GridCoordinates => with_coordinate_rules(calls, at, dims, rules),
                LabelKind::FlowSolution => with_field_rules(calls, at, dims, rules),
                _ => Ok(rules),
            },
            Err(error) => Err(error),
        },
        Err(error) => Err(error),
    }
}

fn with_coordinate_rules<C: TreeCalls>(
    calls: &mut C,
    at: NodeId,
    dims: &Option<ArrayDims>,
    rules: Rules,
) -> Result<Rules, AdfError>
    requires ready { C.is_ready calls.old }
    requires plain { IsTold (C.files calls.old) (C.devices calls.old)
        → IsPlain (C.files calls.old) at }
    ensures ready { C.is_ready calls.new }
    ensures only { OnlyAsks (C.files calls.old) (C.devices calls.old)
        (C.devices calls.new) (C.files calls.new) }
    ensures value { IsTold (C.files calls.old) (C.devices calls.old)
        → IsValueOr (rules ++ held (coordinate_tests (C.files calls.old) dims.now at)) result }
    ensures cause { HasAskCause (C.files calls.old) (C.devices calls.old)
        (C.devices calls.new) result }
{
    match breaks_coordinate_type(calls, at) {
        Ok(is_broken) => match with_rule(rules, 16, is_broken) {
            Ok(rules) => match is_size_off(calls, at, dims) {
                Ok(is_broken) => with_rule(rules, 17, is_broken),
                Err(error) => Err(error),
            },
            Err(error) => Err(error),
        },
        Err(error) => Err(error),
    }
}

fn with_field_rules<C: TreeCalls>(
    calls: &mut C,
    at: NodeId,
    dims: &Option<ArrayDims>,
    rules: Rules,
) -> Result<Rules, AdfError>
    requires ready { C.is_ready calls.old }
    requires plain { IsTold (C.files calls.old) (C.devices calls.old)
        → IsPlain (C.files calls.old) at }
    ensures ready { C.is_ready calls.new }
    ensures only { OnlyAsks (C.files calls.old) (C.devices calls.old)
        (C.devices calls.new) (C.files calls.new) }
    ensures value { IsTold (C.files calls.old) (C.devices calls.old)
        → IsValueOr (rules ++ held (field_tests (C.files calls.old) dims.now at)) result }
    ensures cause { HasAskCause (C.files calls.old) (C.devices calls.old)
        (C.devices calls.new) result }
{
    match breaks_field_type(calls, at) {
        Ok(is_broken) => match with_rule(rules, 21, is_broken) {
            Ok(rules) => match is_size_off(calls, at, dims) {
                Ok(is_broken) => with_rule(rules, 22, is_broken),
                Err(error) => Err(error),
            },
            Err(error) => Err(error),
        },
        Err(error) => Err(error),
    }
}

/// K17 coordinate-size and K22 field-size, where rules speak of the dimensions of an array.
fn is_size_off<C: TreeCalls>(
    calls: &mut C,
    at: NodeId,
    dims: &Option<ArrayDims>,
) -> Result<bool, AdfError>
    requires ready { C.is_ready calls.old }
    requires plain { IsTold (C.files calls.old) (C.devices calls.old)
        → IsPlain (C.files calls.old) at }
    ensures ready { C.is_ready calls.new }
    ensures only { OnlyAsks (C.files calls.old) (C.devices calls.old)
        (C.devices calls.new) (C.files calls.new) }
    ensures value { IsTold (C.files calls.old) (C.devices calls.old)
        → IsValueOr (given dims.now (is_size_off (C.files calls.old) at)) result }
    ensures cause { HasAskCause (C.files calls.old) (C.devices calls.old)
        (C.devices calls.new) result }
{
    match dims {
        Some(dims) => breaks_dims(calls, at, dims),
        None => Ok(false),
    }
}

/// A list of rules with those that a rind breaks.
pub fn with_rind_rules<C: TreeCalls>(
    calls: &mut C,
    node: NodeId,
    at: NodeId,
    sizes: &Option<ZoneSizes>,
    rules: Rules,
) -> Result<Rules, AdfError>
    requires ready { C.is_ready calls.old }
    requires plain { IsTold (C.files calls.old) (C.devices calls.old)
        → IsPlain (C.files calls.old) at }
    requires there { IsTold (C.files calls.old) (C.devices calls.old)
        → IsThere (C.files calls.old) node }
    ensures ready { C.is_ready calls.new }
    ensures only { OnlyAsks (C.files calls.old) (C.devices calls.old)
        (C.devices calls.new) (C.files calls.new) }
    ensures value { IsTold (C.files calls.old) (C.devices calls.old)
        → IsValueOr (rules ++ held (rind_tests (C.files calls.old) sizes.now node at)) result }
    ensures cause { HasAskCause (C.files calls.old) (C.devices calls.old)
        (C.devices calls.new) result }
{
    match breaks_rind_name(calls, node) {
        Ok(is_broken) => match with_rule(rules, 18, is_broken) {
            Ok(rules) => match is_rind_off(calls, at, sizes) {
                Ok(is_broken) => with_rule(rules, 19, is_broken),
                Err(error) => Err(error),
            },
            Err(error) => Err(error),
        },
        Err(error) => Err(error),
    }
}

/// K19 rind-data, where the sizes of the zone are known.
fn is_rind_off<C: TreeCalls>(
    calls: &mut C,
    at: NodeId,
    sizes: &Option<ZoneSizes>,
) -> Result<bool, AdfError>
    requires ready { C.is_ready calls.old }
    requires plain { IsTold (C.files calls.old) (C.devices calls.old)
        → IsPlain (C.files calls.old) at }
    ensures ready { C.is_ready calls.new }
    ensures only { OnlyAsks (C.files calls.old) (C.devices calls.old)
        (C.devices calls.new) (C.files calls.new) }
    ensures value { IsTold (C.files calls.old) (C.devices calls.old)
        → IsValueOr (given sizes.now
        (λ s. not (is_ints_of ((2 * s.index) ∷ []) (node_there (C.files calls.old) at))))
        result }
    ensures cause { HasAskCause (C.files calls.old) (C.devices calls.old)
        (C.devices calls.new) result }
{
    match sizes {
        Some(sizes) => breaks_rind_data(calls, at, sizes.index()),
        None => Ok(false),
    }
}

/// A list of rules with those that a boundary condition breaks.
pub fn with_condition_rules<C: TreeCalls>(
    alloc: Global,
    calls: &mut C,
    at: NodeId,
    sizes: &Option<ZoneSizes>,
    rules: Rules,
) -> Result<Rules, AdfError>
    requires ready { C.is_ready calls.old }
    requires plain { IsTold (C.files calls.old) (C.devices calls.old)
        → IsPlain (C.files calls.old) at }
    ensures ready { C.is_ready calls.new }
    ensures only { OnlyAsks (C.files calls.old) (C.devices calls.old)
        (C.devices calls.new) (C.files calls.new) }
    ensures value { IsTold (C.files calls.old) (C.devices calls.old)
        → IsValueOr (rules ++ held (condition_tests (C.files calls.old) sizes.now at)) result }
    ensures cause { HasAskCause (C.files calls.old) (C.devices calls.old)
        (C.devices calls.new) result }
{
    match is_no_word(alloc, calls, at, WordList::BcTypes) {
        Ok(is_broken) => match with_rule(rules, 31, is_broken) {
            Ok(rules) => match are_points_off(alloc, calls, at, sizes) {
                Ok(is_broken) => match with_rule(rules, 32, is_broken) {
                    Ok(rules) => with_family_rule(alloc, calls, at, rules),
                    Err(error) => Err(error),
                },
                Err(error) => Err(error),
            },
            Err(error) => Err(error),
        },
        Err(error) => Err(error),
    }
}

fn with_family_rule<C: TreeCalls>(
    alloc: Global,
    calls: &mut C,
    at: NodeId,
    rules: Rules,
) -> Result<Rules, AdfError>
    requires ready { C.is_ready calls.old }
    requires plain { IsTold (C.files calls.old) (C.devices calls.old)
        → IsPlain (C.files calls.old) at }
    ensures ready { C.is_ready calls.new }
    ensures only { OnlyAsks (C.files calls.old) (C.devices calls.old)
        (C.devices calls.new) (C.files calls.new) }
    ensures value { IsTold (C.files calls.old) (C.devices calls.old)
        → IsValueOr (rules ++ held ((33, bytes_eq (text_of (node_there (C.files calls.old) at)) (codes "FamilySpecified") && not (has_child (C.files calls.old) at FamilyName)) ∷ [])) result }
    ensures cause { HasAskCause (C.files calls.old) (C.devices calls.old)
        (C.devices calls.new) result }
{
    match breaks_bc_family(alloc, calls, at) {
        Ok(is_broken) => with_rule(rules, 33, is_broken),
        Err(error) => Err(error),
    }
}

/// K32 bc-points, where the sizes of the zone are known.
fn are_points_off<C: TreeCalls>(
    alloc: Global,
    calls: &mut C,
    at: NodeId,
    sizes: &Option<ZoneSizes>,
) -> Result<bool, AdfError>
    requires ready { C.is_ready calls.old }
    requires plain { IsTold (C.files calls.old) (C.devices calls.old)
        → IsPlain (C.files calls.old) at }
    ensures ready { C.is_ready calls.new }
    ensures only { OnlyAsks (C.files calls.old) (C.devices calls.old)
        (C.devices calls.new) (C.files calls.new) }
    ensures value { IsTold (C.files calls.old) (C.devices calls.old)
        → IsValueOr (given sizes.now (λ s. are_points_off s.index (C.files calls.old) at)) result }
    ensures cause { HasAskCause (C.files calls.old) (C.devices calls.old)
        (C.devices calls.new) result }
{
    match sizes {
        Some(sizes) => breaks_bc_points(alloc, calls, at, sizes.index()),
        None => Ok(false),
    }
}
