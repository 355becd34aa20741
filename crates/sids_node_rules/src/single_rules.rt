//! The rules on nodes whose kind has one rule besides that of places.

ghost use Rattle.std.specs.Prelude.{◌≡◌, ◌++◌};
ghost use Rattle.adf_model.specs.Causes.{OnlyAsks};
ghost use Rattle.adf_model.specs.Slots.{IsTold};
ghost use Rattle.sids_views.specs.Asks.{IsValueOr, HasAskCause, IsPlain};
ghost use Rattle.sids_readings.specs.Held.{held};
ghost use Rattle.sids_node_rules.specs.KindTests.{number_on, is_broken_on, tests_on};

use crate::node_rules::{breaks_not_empty, breaks_small_node, breaks_version_data};
use adf_model::{AdfError, NodeId, Rules, TreeCalls};
use sids_readings::{WordList, is_no_word, with_rule};
use sids_tables::LabelKind;
use std::alloc::Global;

/// A list of rules with the one of its kind, where a node breaks that.
pub fn with_single_rule<C: TreeCalls>(
    alloc: Global,
    calls: &mut C,
    at: NodeId,
    kind: LabelKind,
    rules: Rules,
) -> Result<Rules, AdfError>
    requires ready { C.is_ready calls.old }
    requires plain { IsTold (C.files calls.old) (C.devices calls.old)
        → IsPlain (C.files calls.old) at }
    ensures ready { C.is_ready calls.new }
    ensures only { OnlyAsks (C.files calls.old) (C.devices calls.old)
        (C.devices calls.new) (C.files calls.new) }
    ensures value { IsTold (C.files calls.old) (C.devices calls.old)
        → IsValueOr (rules ++ held (tests_on kind (C.files calls.old) at)) result }
    ensures cause { HasAskCause (C.files calls.old) (C.devices calls.old)
        (C.devices calls.new) result }
{
    match number_on(kind) {
        Some(number) => match is_broken_on(alloc, calls, at, kind) {
            Ok(is_broken) => with_rule(rules, number, is_broken),
            Err(error) => Err(error),
        },
        None => Ok(rules),
    }
}

/// The number of the rule on a kind of node that has one.
fn number_on(kind: LabelKind) -> Option<u8>
    ensures { result ≡ number_on kind }
{
    match kind {
        LabelKind::CgnsLibraryVersion => Some(4),
        LabelKind::ZoneType => Some(12),
        LabelKind::GridCoordinates
        | LabelKind::FlowSolution
        | LabelKind::ZoneBc
        | LabelKind::Family
        | LabelKind::UserDefinedData => Some(14),
        LabelKind::GridLocation => Some(20),
        LabelKind::FamilyName
        | LabelKind::SimulationType
        | LabelKind::DataClass
        | LabelKind::DimensionalUnits
        | LabelKind::DimensionalExponents
        | LabelKind::Descriptor => Some(34),
        _ => None,
    }
}

fn is_broken_on<C: TreeCalls>(
    alloc: Global,
    calls: &mut C,
    at: NodeId,
    kind: LabelKind,
) -> Result<bool, AdfError>
    requires ready { C.is_ready calls.old }
    requires plain { IsTold (C.files calls.old) (C.devices calls.old)
        → IsPlain (C.files calls.old) at }
    ensures ready { C.is_ready calls.new }
    ensures only { OnlyAsks (C.files calls.old) (C.devices calls.old)
        (C.devices calls.new) (C.files calls.new) }
    ensures value { IsTold (C.files calls.old) (C.devices calls.old)
        → IsValueOr (is_broken_on kind (C.files calls.old) at) result }
    ensures cause { HasAskCause (C.files calls.old) (C.devices calls.old)
        (C.devices calls.new) result }
{
    match kind {
        LabelKind::CgnsLibraryVersion => breaks_version_data(calls, at),
        LabelKind::ZoneType => is_no_word(alloc, calls, at, WordList::ZoneTypes),
        LabelKind::GridCoordinates
        | LabelKind::FlowSolution
        | LabelKind::ZoneBc
        | LabelKind::Family
        | LabelKind::UserDefinedData => breaks_not_empty(calls, at),
        LabelKind::GridLocation => is_no_word(alloc, calls, at, WordList::Locations),
        _ => breaks_small_node(alloc, calls, at, kind),
    }
}
