//! The rules that a seen node breaks.

ghost use Rattle.std.specs.Prelude.{◌≡◌, ◌++◌, ◌∷◌, not, Some};
ghost use Rattle.adf_model.specs.Causes.{OnlyAsks};
ghost use Rattle.adf_model.specs.Slots.{IsTold};
ghost use Rattle.sids_views.specs.Asks.{IsValueOr, HasAskCause, IsPlain};
ghost use Rattle.sids_rules.specs.SeenNodes.{IsSeen};
ghost use Rattle.sids_rules.specs.Rules.{check_rules, broken_numbers, place_kind, is_allowed};
ghost use Rattle.sids_rules.specs.OffsetRules.{check4_rules};
ghost use Rattle.sids_readings.specs.RuleSets.{rules_of};
ghost use Rattle.sids_readings.specs.Held.{held};
ghost use Rattle.sids_readings.specs.Around.{surroundings};
ghost use Rattle.sids_broken.specs.NodeTests.{IsSpot, IsKnownOf, dims_beside, tests_at, tests_with_place};

use crate::element_rules::with_section_rules;
use adf_model::{AdfError, NodeId, Rules, TreeCalls};
use sids_node_rules::{
    ArrayDims, breaks_place, breaks_version, dims_under, with_array_rules, with_base_rules,
    with_condition_rules, with_rind_rules, with_single_rule, with_zone_rules,
};
use sids_readings::{
    RuleSet, Surroundings, limit_around, one_rule, sizes_around, surroundings_of, with_rule,
};
use sids_rules::Seen;
use sids_section_rules::Spot;
use sids_tables::LabelKind;
use sids_views::{kind_of_node, target_of};
use std::alloc::Global;

/// The rules K01 to K34 that a seen node breaks, rising.
pub fn broken<C: TreeCalls>(alloc: Global, calls: &mut C, seen: &Seen) -> Result<Rules, AdfError>
    requires ready { C.is_ready calls.old }
    requires seen { IsTold (C.files calls.old) (C.devices calls.old)
        → IsSeen (C.files calls.old) seen.now }
    ensures ready { C.is_ready calls.new }
    ensures only { OnlyAsks (C.files calls.old) (C.devices calls.old)
        (C.devices calls.new) (C.files calls.new) }
    ensures rules { IsTold (C.files calls.old) (C.devices calls.old)
        → IsValueOr (broken_numbers check_rules (C.files calls.old) seen.now) result }
    ensures cause { HasAskCause (C.files calls.old) (C.devices calls.old)
        (C.devices calls.new) result }
{
    match surroundings_of(alloc, calls, seen) {
        Ok(around) => broken_around(alloc, calls, RuleSet::Check, seen, &around),
        Err(error) => Err(error),
    }
}

/// The rules K01 to K40 that a seen node breaks, rising.
pub fn broken4<C: TreeCalls>(alloc: Global, calls: &mut C, seen: &Seen) -> Result<Rules, AdfError>
    requires ready { C.is_ready calls.old }
    requires seen { IsTold (C.files calls.old) (C.devices calls.old)
        → IsSeen (C.files calls.old) seen.now }
    ensures ready { C.is_ready calls.new }
    ensures only { OnlyAsks (C.files calls.old) (C.devices calls.old)
        (C.devices calls.new) (C.files calls.new) }
    ensures rules { IsTold (C.files calls.old) (C.devices calls.old)
        → IsValueOr (broken_numbers check4_rules (C.files calls.old) seen.now) result }
    ensures cause { HasAskCause (C.files calls.old) (C.devices calls.old)
        (C.devices calls.new) result }
{
    match surroundings_of(alloc, calls, seen) {
        Ok(around) => broken_around(alloc, calls, RuleSet::Check4, seen, &around),
        Err(error) => Err(error),
    }
}

/// The rules of a set that a seen node breaks, rising, for one who knows what the rules read of the base
/// and of the zone above it.
fn broken_around<C: TreeCalls>(
    alloc: Global,
    calls: &mut C,
    set: RuleSet,
    seen: &Seen,
    around: &Surroundings,
) -> Result<Rules, AdfError>
    requires ready { C.is_ready calls.old }
    requires seen { IsTold (C.files calls.old) (C.devices calls.old)
        → IsSeen (C.files calls.old) seen.now }
    requires around { IsTold (C.files calls.old) (C.devices calls.old)
        → around.now ≡ surroundings (C.files calls.old) seen.now }
    ensures ready { C.is_ready calls.new }
    ensures only { OnlyAsks (C.files calls.old) (C.devices calls.old)
        (C.devices calls.new) (C.files calls.new) }
    ensures rules { IsTold (C.files calls.old) (C.devices calls.old)
        → IsValueOr (broken_numbers (rules_of set) (C.files calls.old) seen.now) result }
    ensures cause { HasAskCause (C.files calls.old) (C.devices calls.old)
        (C.devices calls.new) result }
{
    let none = None;
    let sizes = sizes_around(&around.zone, &none);
    match dims_under(alloc, calls, seen.parent, sizes) {
        Ok(dims) => broken_by(alloc, calls, set, seen, around, &dims, None),
        Err(error) => Err(error),
    }
}

/// The rules of a set that a seen node breaks, rising, for one who knows what the rules read of the base
/// and of the zone above it, the dimensions that arrays beside it are to have, and maybe whether it
/// breaks K30.
pub fn broken_by<C: TreeCalls>(
    alloc: Global,
    calls: &mut C,
    set: RuleSet,
    seen: &Seen,
    around: &Surroundings,
    dims: &Option<ArrayDims>,
    overlaps: Option<bool>,
) -> Result<Rules, AdfError>
    requires ready { C.is_ready calls.old }
    requires seen { IsTold (C.files calls.old) (C.devices calls.old)
        → IsSeen (C.files calls.old) seen.now }
    requires around { IsTold (C.files calls.old) (C.devices calls.old)
        → around.now ≡ surroundings (C.files calls.old) seen.now }
    requires dims { IsTold (C.files calls.old) (C.devices calls.old)
        → dims.now ≡ dims_beside (C.files calls.old) seen.now }
    requires known { IsTold (C.files calls.old) (C.devices calls.old)
        → IsKnownOf (C.files calls.old) seen.now overlaps }
    ensures ready { C.is_ready calls.new }
    ensures only { OnlyAsks (C.files calls.old) (C.devices calls.old)
        (C.devices calls.new) (C.files calls.new) }
    ensures rules { IsTold (C.files calls.old) (C.devices calls.old)
        → IsValueOr (broken_numbers (rules_of set) (C.files calls.old) seen.now) result }
    ensures cause { HasAskCause (C.files calls.old) (C.devices calls.old)
        (C.devices calls.new) result }
{
    match target_of(calls, seen.node) {
        Ok(Some(at)) => { broken_at(alloc, calls, set, seen, at, around, dims, overlaps) },
        Ok(None) => one_rule(alloc, 1, true),
        Err(error) => Err(error),
    }
}

/// Those that a node breaks whose link can be followed.
fn broken_at<C: TreeCalls>(
    alloc: Global,
    calls: &mut C,
    set: RuleSet,
    seen: &Seen,
    at: NodeId,
    around: &Surroundings,
    dims: &Option<ArrayDims>,
    overlaps: Option<bool>,
) -> Result<Rules, AdfError>
    requires ready { C.is_ready calls.old }
    requires seen { IsTold (C.files calls.old) (C.devices calls.old)
        → IsSeen (C.files calls.old) seen.now }
    requires around { IsTold (C.files calls.old) (C.devices calls.old)
        → around.now ≡ surroundings (C.files calls.old) seen.now }
    requires dims { IsTold (C.files calls.old) (C.devices calls.old)
        → dims.now ≡ dims_beside (C.files calls.old) seen.now }
    requires known { IsTold (C.files calls.old) (C.devices calls.old)
        → IsKnownOf (C.files calls.old) seen.now overlaps }
    requires target { IsTold (C.files calls.old) (C.devices calls.old)
        → seen.now.target ≡ Some at }
    requires plain { IsTold (C.files calls.old) (C.devices calls.old)
        → IsPlain (C.files calls.old) at }
    ensures ready { C.is_ready calls.new }
    ensures only { OnlyAsks (C.files calls.old) (C.devices calls.old)
        (C.devices calls.new) (C.files calls.new) }
    ensures value { IsTold (C.files calls.old) (C.devices calls.old)
        → IsValueOr (broken_numbers (rules_of set) (C.files calls.old) seen.now) result }
    ensures cause { HasAskCause (C.files calls.old) (C.devices calls.old)
        (C.devices calls.new) result }
{
    match seen.parent {
        Some(parent) => match kind_of_node(calls, at) {
            Ok(kind) => {
                let spot = Spot {
                    node: seen.node,
                    at,
                    parent,
                    zone: seen.zone,
                    overlaps,
                };
                broken_of_kind(alloc, calls, set, kind, &spot, around, dims)
            }
            Err(error) => Err(error),
        },
        None => match breaks_version(alloc, calls, at) {
            Ok(is_broken) => one_rule(alloc, 3, is_broken),
            Err(error) => Err(error),
        },
    }
}

/// Those that a node of a kind breaks that is not the first of a walk.
fn broken_of_kind<C: TreeCalls>(
    alloc: Global,
    calls: &mut C,
    set: RuleSet,
    kind: LabelKind,
    spot: &Spot,
    around: &Surroundings,
    dims: &Option<ArrayDims>,
) -> Result<Rules, AdfError>
    requires ready { C.is_ready calls.old }
    requires spot { IsTold (C.files calls.old) (C.devices calls.old)
        → IsSpot (C.files calls.old) spot.now }
    ensures ready { C.is_ready calls.new }
    ensures only { OnlyAsks (C.files calls.old) (C.devices calls.old)
        (C.devices calls.new) (C.files calls.new) }
    ensures value { IsTold (C.files calls.old) (C.devices calls.old)
        → IsValueOr (held (tests_with_place set kind (C.files calls.old) spot.now around.now dims.now)) result }
    ensures cause { HasAskCause (C.files calls.old) (C.devices calls.old)
        (C.devices calls.new) result }
{
    let rules = Rules::new(Vec::new(alloc));
    match kind {
        LabelKind::Other => Ok(rules),
        _ => with_placed_rules(alloc, calls, set, kind, spot, around, dims, rules),
    }
}

/// A list of rules with that of places, and with those on a kind of node.
fn with_placed_rules<C: TreeCalls>(
    alloc: Global,
    calls: &mut C,
    set: RuleSet,
    kind: LabelKind,
    spot: &Spot,
    around: &Surroundings,
    dims: &Option<ArrayDims>,
    rules: Rules,
) -> Result<Rules, AdfError>
    requires ready { C.is_ready calls.old }
    requires spot { IsTold (C.files calls.old) (C.devices calls.old)
        → IsSpot (C.files calls.old) spot.now }
    ensures ready { C.is_ready calls.new }
    ensures only { OnlyAsks (C.files calls.old) (C.devices calls.old)
        (C.devices calls.new) (C.files calls.new) }
    ensures value { IsTold (C.files calls.old) (C.devices calls.old)
        → IsValueOr (rules ++ held ((2, not (is_allowed (place_kind (C.files calls.old) spot.now.parent) kind)) ∷ tests_at set kind (C.files calls.old) spot.now around.now dims.now)) result }
    ensures cause { HasAskCause (C.files calls.old) (C.devices calls.old)
        (C.devices calls.new) result }
{
    match breaks_place(calls, kind, spot.parent) {
        Ok(is_broken) => match with_rule(rules, 2, is_broken) {
            Ok(rules) => with_rules_of_kind(alloc, calls, set, kind, spot, around, dims, rules),
            Err(error) => Err(error),
        },
        Err(error) => Err(error),
    }
}

/// A list of rules with those on a kind of node.
fn with_rules_of_kind<C: TreeCalls>(
    alloc: Global,
    calls: &mut C,
    set: RuleSet,
    kind: LabelKind,
    spot: &Spot,
    around: &Surroundings,
    dims: &Option<ArrayDims>,
    rules: Rules,
) -> Result<Rules, AdfError>
    requires ready { C.is_ready calls.old }
    requires spot { IsTold (C.files calls.old) (C.devices calls.old)
        → IsSpot (C.files calls.old) spot.now }
    ensures ready { C.is_ready calls.new }
    ensures only { OnlyAsks (C.files calls.old) (C.devices calls.old)
        (C.devices calls.new) (C.files calls.new) }
    ensures value { IsTold (C.files calls.old) (C.devices calls.old)
        → IsValueOr (rules ++ held (tests_at set kind (C.files calls.old) spot.now around.now dims.now)) result }
    ensures cause { HasAskCause (C.files calls.old) (C.devices calls.old)
        (C.devices calls.new) result }
{
    let none = None;
    let sizes = sizes_around(&around.zone, &none);
    match kind {
        LabelKind::CgnsBase => with_base_rules(alloc, calls, spot.at, rules),
        LabelKind::Zone => with_zone_rules(alloc, calls, spot.at, &around.base, rules),
        LabelKind::DataArray => with_array_rules(calls, spot.at, spot.parent, dims, rules),
        LabelKind::Rind => with_rind_rules(calls, spot.node, spot.at, sizes, rules),
        LabelKind::Bc => with_condition_rules(alloc, calls, spot.at, sizes, rules),
        LabelKind::Elements => {
            let limit = limit_around(&around.zone);
            with_section_rules(alloc, calls, set, spot, limit, rules)
        }
        _ => with_single_rule(alloc, calls, spot.at, kind, rules),
    }
}
