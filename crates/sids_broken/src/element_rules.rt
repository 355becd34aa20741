//! The rules on sections of elements, of both sets.

ghost use Rattle.std.specs.Prelude.{◌≡◌, ◌++◌, IfSome};
ghost use Rattle.adf_model.specs.Causes.{OnlyAsks};
ghost use Rattle.adf_model.specs.Slots.{IsTold};
ghost use Rattle.sids_views.specs.Asks.{IsValueOr, HasAskCause, IsPlain};
ghost use Rattle.sids_rules.specs.Terms.{is_range, if_passes, good_range};
ghost use Rattle.sids_readings.specs.Held.{held};
ghost use Rattle.sids_offset_rules.specs.OffsetTests.{offset_tests_of};
ghost use Rattle.sids_broken.specs.NodeTests.{IsSpot, parts_tests_of, section_tests_of};

use adf_model::{AdfError, Rules, TreeCalls};
use sids_offset_rules::with_offset_rules;
use sids_readings::RuleSet;
use sids_section_rules::{SectionParts, Spot, section_parts, with_check_rules};
use std::alloc::Global;

/// A list of rules with those that a section breaks.
pub(crate) fn with_section_rules<C: TreeCalls>(
    alloc: Global,
    calls: &mut C,
    set: RuleSet,
    spot: &Spot,
    limit: Option<Option<i64>>,
    rules: Rules,
) -> Result<Rules, AdfError>
    requires ready { C.is_ready calls.old }
    requires spot { IsTold (C.files calls.old) (C.devices calls.old)
        → IsSpot (C.files calls.old) spot.now }
    ensures ready { C.is_ready calls.new }
    ensures only { OnlyAsks (C.files calls.old) (C.devices calls.old)
        (C.devices calls.new) (C.files calls.new) }
    ensures value { IsTold (C.files calls.old) (C.devices calls.old)
        → IsValueOr (rules ++ held (section_tests_of set (C.files calls.old) limit spot.now)) result }
    ensures cause { HasAskCause (C.files calls.old) (C.devices calls.old)
        (C.devices calls.new) result }
{
    match section_parts(alloc, calls, spot.at) {
        Ok(parts) => with_parts_rules(alloc, calls, set, spot, limit, &parts, rules),
        Err(error) => Err(error),
    }
}

fn with_parts_rules<C: TreeCalls>(
    alloc: Global,
    calls: &mut C,
    set: RuleSet,
    spot: &Spot,
    limit: Option<Option<i64>>,
    parts: &SectionParts,
    rules: Rules,
) -> Result<Rules, AdfError>
    requires ready { C.is_ready calls.old }
    requires spot { IsTold (C.files calls.old) (C.devices calls.old)
        → IsSpot (C.files calls.old) spot.now }
    requires connectivity { IsTold (C.files calls.old) (C.devices calls.old)
        → IfSome parts.now.connectivity (IsPlain (C.files calls.old)) }
    requires range { IsTold (C.files calls.old) (C.devices calls.old)
        → if_passes is_range parts.now.range ≡ good_range (C.files calls.old) spot.now.at }
    ensures ready { C.is_ready calls.new }
    ensures only { OnlyAsks (C.files calls.old) (C.devices calls.old)
        (C.devices calls.new) (C.files calls.new) }
    ensures value { IsTold (C.files calls.old) (C.devices calls.old)
        → IsValueOr (rules ++ held (parts_tests_of set (C.files calls.old) limit spot.now parts.now)) result }
    ensures cause { HasAskCause (C.files calls.old) (C.devices calls.old)
        (C.devices calls.new) result }
{
    match with_check_rules(alloc, calls, spot, limit, parts, rules) {
        Ok(rules) => with_later_rules(alloc, calls, set, spot, limit, parts, rules),
        Err(error) => Err(error),
    }
}

/// Those of K35 to K40, where they are tested.
fn with_later_rules<C: TreeCalls>(
    alloc: Global,
    calls: &mut C,
    set: RuleSet,
    spot: &Spot,
    limit: Option<Option<i64>>,
    parts: &SectionParts,
    rules: Rules,
) -> Result<Rules, AdfError>
    requires ready { C.is_ready calls.old }
    requires spot { IsTold (C.files calls.old) (C.devices calls.old)
        → IsSpot (C.files calls.old) spot.now }
    requires connectivity { IsTold (C.files calls.old) (C.devices calls.old)
        → IfSome parts.now.connectivity (IsPlain (C.files calls.old)) }
    ensures ready { C.is_ready calls.new }
    ensures only { OnlyAsks (C.files calls.old) (C.devices calls.old)
        (C.devices calls.new) (C.files calls.new) }
    ensures value { IsTold (C.files calls.old) (C.devices calls.old)
        → IsValueOr (rules ++ held (offset_tests_of set (C.files calls.old) spot.now.zone limit spot.now.at parts.now)) result }
    ensures cause { HasAskCause (C.files calls.old) (C.devices calls.old)
        (C.devices calls.new) result }
{
    match set {
        RuleSet::Check => Ok(rules),
        RuleSet::Check4 => {
            with_offset_rules(alloc, calls, spot.at, spot.zone, limit, parts, rules)
        }
    }
}
