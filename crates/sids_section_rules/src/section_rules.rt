//! The rules on sections of elements whose numbers stand in their connectivity alone.

ghost use Rattle.std.specs.Prelude.{◌≡◌, ◌++◌, ◌∷◌, [], not, true, IfSome};
ghost use Rattle.adf_model.specs.Causes.{OnlyAsks};
ghost use Rattle.adf_model.specs.Slots.{IsTold};
ghost use Rattle.sids_views.specs.Asks.{IsValueOr, HasAskCause, IsPlain};
ghost use Rattle.sids_views.specs.Views.{given, node_there};
ghost use Rattle.sids_rules.specs.Terms.{is_range, if_passes};
ghost use Rattle.sids_rules.specs.Rules.{is_connected};
ghost use Rattle.sids_section_rules.specs.Entries.{has_no_vertex};
ghost use Rattle.sids_readings.specs.Held.{held};
ghost use Rattle.sids_section_rules.specs.SectionTests.{whole, connectivity_tests, overlaps, section_tests, IsKnown};

use crate::connectivities::{breaks_connectivity_nodes, breaks_connectivity_size};
use crate::overlaps::{breaks_sections_overlap, is_same_node};
use crate::part_rules::{SectionParts, with_part_rules};
use adf_model::{AdfError, NodeId, Rules, TreeCalls};
use sids_readings::{ElementRange, SectionHead, with_rule};
use std::alloc::Global;

/// Where a node stands that is not the first of a walk: the node, the node that it is seen as, its
/// followed parent, and the followed zone above it.
#[derive(Clone, Copy, Drop)]
pub struct Spot {
    pub node: NodeId,
    pub at: NodeId,
    pub parent: NodeId,
    pub zone: Option<NodeId>,
    /// Whether it breaks K30, where that is known.
    pub overlaps: Option<bool>,
}

/// K28 connectivity-size and K29 connectivity-nodes, of the parts of a section.
fn with_connectivity_rules<C: TreeCalls>(
    calls: &mut C,
    parts: &SectionParts,
    limit: Option<Option<i64>>,
    rules: Rules,
) -> Result<Rules, AdfError>
    requires ready { C.is_ready calls.old }
    requires plain { IsTold (C.files calls.old) (C.devices calls.old)
        → IfSome parts.now.connectivity (IsPlain (C.files calls.old)) }
    ensures ready { C.is_ready calls.new }
    ensures only { OnlyAsks (C.files calls.old) (C.devices calls.old)
        (C.devices calls.new) (C.files calls.new) }
    ensures value { IsTold (C.files calls.old) (C.devices calls.old)
        → IsValueOr (rules ++ held (connectivity_tests (C.files calls.old) limit (whole parts.now))) result }
    ensures cause { HasAskCause (C.files calls.old) (C.devices calls.old)
        (C.devices calls.new) result }
{
    match &parts.head {
        Some(head) => match &parts.range {
            Some(range) => match parts.connectivity {
                Some(at) => {
                    if head.is_good() && range.is_good() {
                        with_whole_rules(calls, at, head, range, limit, rules)
                    } else {
                        Ok(rules)
                    }
                }
                None => Ok(rules),
            },
            None => Ok(rules),
        },
        None => Ok(rules),
    }
}

fn with_whole_rules<C: TreeCalls>(
    calls: &mut C,
    at: NodeId,
    head: &SectionHead,
    range: &ElementRange,
    limit: Option<Option<i64>>,
    rules: Rules,
) -> Result<Rules, AdfError>
    requires ready { C.is_ready calls.old }
    requires range { is_range range.now ≡ true }
    requires plain { IsTold (C.files calls.old) (C.devices calls.old)
        → IsPlain (C.files calls.old) at }
    ensures ready { C.is_ready calls.new }
    ensures only { OnlyAsks (C.files calls.old) (C.devices calls.old)
        (C.devices calls.new) (C.files calls.new) }
    ensures value { IsTold (C.files calls.old) (C.devices calls.old)
        → IsValueOr (rules ++ held ((28, not (is_connected head.now range.now (node_there (C.files calls.old) at))) ∷ (29, given limit (λ limit. has_no_vertex head.now range.now limit (C.files calls.old) at)) ∷ [])) result }
    ensures cause { HasAskCause (C.files calls.old) (C.devices calls.old)
        (C.devices calls.new) result }
{
    match breaks_connectivity_size(calls, at, head, range) {
        Ok(is_broken) => match with_rule(rules, 28, is_broken) {
            Ok(rules) => match has_bad_vertex(calls, at, head, range, limit) {
                Ok(is_broken) => with_rule(rules, 29, is_broken),
                Err(error) => Err(error),
            },
            Err(error) => Err(error),
        },
        Err(error) => Err(error),
    }
}

/// K29 connectivity-nodes, where the sizes of the zone are known.
fn has_bad_vertex<C: TreeCalls>(
    calls: &mut C,
    at: NodeId,
    head: &SectionHead,
    range: &ElementRange,
    limit: Option<Option<i64>>,
) -> Result<bool, AdfError>
    requires ready { C.is_ready calls.old }
    requires range { is_range range.now ≡ true }
    requires plain { IsTold (C.files calls.old) (C.devices calls.old)
        → IsPlain (C.files calls.old) at }
    ensures ready { C.is_ready calls.new }
    ensures only { OnlyAsks (C.files calls.old) (C.devices calls.old)
        (C.devices calls.new) (C.files calls.new) }
    ensures value { IsTold (C.files calls.old) (C.devices calls.old)
        → IsValueOr (given limit (λ limit. has_no_vertex head.now range.now limit (C.files calls.old) at)) result }
    ensures cause { HasAskCause (C.files calls.old) (C.devices calls.old)
        (C.devices calls.new) result }
{
    match limit {
        Some(limit) => breaks_connectivity_nodes(calls, at, head, range, limit),
        None => Ok(false),
    }
}

/// K30 sections-overlap, of a child of the zone with a good range.
fn overlaps<C: TreeCalls>(
    alloc: Global,
    calls: &mut C,
    zone: Option<NodeId>,
    parent: NodeId,
    node: NodeId,
    range: &Option<ElementRange>,
) -> Result<bool, AdfError>
    requires ready { C.is_ready calls.old }
    requires plain { IsTold (C.files calls.old) (C.devices calls.old)
        → IfSome zone (IsPlain (C.files calls.old)) }
    ensures ready { C.is_ready calls.new }
    ensures only { OnlyAsks (C.files calls.old) (C.devices calls.old)
        (C.devices calls.new) (C.files calls.new) }
    ensures value { IsTold (C.files calls.old) (C.devices calls.old)
        → IsValueOr (overlaps (C.files calls.old) zone parent node (if_passes is_range range.now)) result }
    ensures cause { HasAskCause (C.files calls.old) (C.devices calls.old)
        (C.devices calls.new) result }
{
    match zone {
        Some(zone) => match range {
            Some(range) => {
                if is_same_node(parent, zone) && range.is_good() {
                    breaks_sections_overlap(alloc, calls, node, zone, range)
                } else {
                    Ok(false)
                }
            }
            None => Ok(false),
        },
        None => Ok(false),
    }
}

/// Those of K23 to K30.
pub fn with_check_rules<C: TreeCalls>(
    alloc: Global,
    calls: &mut C,
    spot: &Spot,
    limit: Option<Option<i64>>,
    parts: &SectionParts,
    rules: Rules,
) -> Result<Rules, AdfError>
    requires ready { C.is_ready calls.old }
    requires zone { IsTold (C.files calls.old) (C.devices calls.old)
        → IfSome spot.now.zone (IsPlain (C.files calls.old)) }
    requires plain { IsTold (C.files calls.old) (C.devices calls.old)
        → IfSome parts.now.connectivity (IsPlain (C.files calls.old)) }
    requires known { IsTold (C.files calls.old) (C.devices calls.old)
        → IsKnown (C.files calls.old) spot.now (if_passes is_range parts.now.range) }
    ensures ready { C.is_ready calls.new }
    ensures only { OnlyAsks (C.files calls.old) (C.devices calls.old)
        (C.devices calls.new) (C.files calls.new) }
    ensures value { IsTold (C.files calls.old) (C.devices calls.old)
        → IsValueOr (rules ++ held (section_tests (C.files calls.old) spot.now.zone limit spot.now.parent spot.now.node parts.now)) result }
    ensures cause { HasAskCause (C.files calls.old) (C.devices calls.old)
        (C.devices calls.new) result }
{
    match with_part_rules(parts, rules) {
        Ok(rules) => match with_connectivity_rules(calls, parts, limit, rules) {
            Ok(rules) => with_overlap_rule(alloc, calls, spot, &parts.range, rules),
            Err(error) => Err(error),
        },
        Err(error) => Err(error),
    }
}

fn with_overlap_rule<C: TreeCalls>(
    alloc: Global,
    calls: &mut C,
    spot: &Spot,
    range: &Option<ElementRange>,
    rules: Rules,
) -> Result<Rules, AdfError>
    requires ready { C.is_ready calls.old }
    requires zone { IsTold (C.files calls.old) (C.devices calls.old)
        → IfSome spot.now.zone (IsPlain (C.files calls.old)) }
    requires known { IsTold (C.files calls.old) (C.devices calls.old)
        → IsKnown (C.files calls.old) spot.now (if_passes is_range range.now) }
    ensures ready { C.is_ready calls.new }
    ensures only { OnlyAsks (C.files calls.old) (C.devices calls.old)
        (C.devices calls.new) (C.files calls.new) }
    ensures value { IsTold (C.files calls.old) (C.devices calls.old)
        → IsValueOr (rules ++ held ((30, overlaps (C.files calls.old) spot.now.zone spot.now.parent spot.now.node (if_passes is_range range.now)) ∷ [])) result }
    ensures cause { HasAskCause (C.files calls.old) (C.devices calls.old)
        (C.devices calls.new) result }
{
    if let Some(is_broken) = spot.overlaps {
        return with_rule(rules, 30, is_broken);
    }
    match overlaps(alloc, calls, spot.zone, spot.parent, spot.node, range) {
        Ok(is_broken) => with_rule(rules, 30, is_broken),
        Err(error) => Err(error),
    }
}
