//! The rules on sections whose elements begin where their offsets say.

ghost use Rattle.std.specs.Prelude.{◌≡◌, ◌++◌, ◌∷◌, [], true, Some, IfOk, IfErr, IfSome};
ghost use Rattle.adf_model.specs.declared.error.AdfError.{AdfError};
ghost use Rattle.adf_model.specs.Causes.{OnlyAsks};
ghost use Rattle.adf_model.specs.Slots.{IsTold};
ghost use Rattle.sids_views.specs.Asks.{IsValueOr, HasAskCause, IsPlain};
ghost use Rattle.sids_views.specs.Views.{node_there};
ghost use Rattle.sids_rules.specs.Terms.{is_range};
ghost use Rattle.sids_rules.specs.OffsetRules.{offset_child, face_ranges};
ghost use Rattle.sids_readings.specs.Held.{held};
ghost use Rattle.sids_section_rules.specs.SectionTests.{whole};
ghost use Rattle.sids_offset_rules.specs.Pieces.{IsOffsetSection, offset_state, has_no_face};
ghost use Rattle.sids_readings.specs.Reading.{is_list};
ghost use Rattle.sids_offset_rules.specs.OffsetTests.{lacks_list, is_list_off, listed, section_with, is_bad_piece, is_bad_node, lacks_face, piece_tests, state_tests, offset_tests};

use crate::faces::face_ranges;
use crate::offset_lists::{OffsetSection, OffsetState, offset_state};
use crate::offset_rules::{breaks_offset_size, offsets_in, wants_offsets};
use crate::pieces::{PieceFault, has_no_face, piece_fault};
use adf_model::{AdfError, NodeId, Rules, TreeCalls};
use sids_readings::{ElementRange, SectionHead, with_rule};
use sids_section_rules::{SectionParts, breaks_connectivity_size};
use sids_views::children_of;
use std::alloc::Global;

/// A list of rules with those of K35 to K40 that a section of these parts breaks.
pub fn with_offset_rules<C: TreeCalls>(
    alloc: Global,
    calls: &mut C,
    at: NodeId,
    zone: Option<NodeId>,
    limit: Option<Option<i64>>,
    parts: &SectionParts,
    rules: Rules,
) -> Result<Rules, AdfError>
    requires ready { C.is_ready calls.old }
    requires plain { IsTold (C.files calls.old) (C.devices calls.old)
        → IsPlain (C.files calls.old) at }
    requires connectivity { IsTold (C.files calls.old) (C.devices calls.old)
        → IfSome parts.now.connectivity (IsPlain (C.files calls.old)) }
    requires zone { IsTold (C.files calls.old) (C.devices calls.old)
        → IfSome zone (IsPlain (C.files calls.old)) }
    ensures ready { C.is_ready calls.new }
    ensures only { OnlyAsks (C.files calls.old) (C.devices calls.old)
        (C.devices calls.new) (C.files calls.new) }
    ensures value { IsTold (C.files calls.old) (C.devices calls.old)
        → IsValueOr (rules ++ held (offset_tests (C.files calls.old) zone limit parts.now (offset_child (C.files calls.old) at))) result }
    ensures cause { HasAskCause (C.files calls.old) (C.devices calls.old)
        (C.devices calls.new) result }
{
    match children_of(alloc, calls, at) {
        Ok(children) => match offsets_in(calls, children.items()) {
            Ok(offsets) => with_list_rules(alloc, calls, zone, limit, parts, offsets, rules),
            Err(error) => Err(error),
        },
        Err(error) => Err(error),
    }
}

fn with_list_rules<C: TreeCalls>(
    alloc: Global,
    calls: &mut C,
    zone: Option<NodeId>,
    limit: Option<Option<i64>>,
    parts: &SectionParts,
    offsets: Option<NodeId>,
    rules: Rules,
) -> Result<Rules, AdfError>
    requires ready { C.is_ready calls.old }
    requires connectivity { IsTold (C.files calls.old) (C.devices calls.old)
        → IfSome parts.now.connectivity (IsPlain (C.files calls.old)) }
    requires zone { IsTold (C.files calls.old) (C.devices calls.old)
        → IfSome zone (IsPlain (C.files calls.old)) }
    requires offsets { IsTold (C.files calls.old) (C.devices calls.old)
        → IfSome offsets (IsPlain (C.files calls.old)) }
    requires list { IsTold (C.files calls.old) (C.devices calls.old)
        → IfSome offsets (λ at. is_list (node_there (C.files calls.old) at) ≡ true) }
    ensures ready { C.is_ready calls.new }
    ensures only { OnlyAsks (C.files calls.old) (C.devices calls.old)
        (C.devices calls.new) (C.files calls.new) }
    ensures value { IsTold (C.files calls.old) (C.devices calls.old)
        → IsValueOr (rules ++ held (offset_tests (C.files calls.old) zone limit parts.now offsets)) result }
    ensures cause { HasAskCause (C.files calls.old) (C.devices calls.old)
        (C.devices calls.new) result }
{
    match with_start_rules(calls, parts, offsets, rules) {
        Ok(rules) => match listed(calls, parts, offsets) {
            Ok(Some(section)) => with_piece_rules(alloc, calls, zone, limit, &section, rules),
            Ok(None) => Ok(rules),
            Err(error) => Err(error),
        },
        Err(error) => Err(error),
    }
}

/// K35 start-offset and K36 offset-size.
fn with_start_rules<C: TreeCalls>(
    calls: &mut C,
    parts: &SectionParts,
    offsets: Option<NodeId>,
    rules: Rules,
) -> Result<Rules, AdfError>
    requires ready { C.is_ready calls.old }
    requires offsets { IsTold (C.files calls.old) (C.devices calls.old)
        → IfSome offsets (IsPlain (C.files calls.old)) }
    requires list { IsTold (C.files calls.old) (C.devices calls.old)
        → IfSome offsets (λ at. is_list (node_there (C.files calls.old) at) ≡ true) }
    ensures ready { C.is_ready calls.new }
    ensures only { OnlyAsks (C.files calls.old) (C.devices calls.old)
        (C.devices calls.new) (C.files calls.new) }
    ensures value { IsTold (C.files calls.old) (C.devices calls.old)
        → IsValueOr (rules ++ held ((35, lacks_list parts.now offsets) ∷ (36, is_list_off (C.files calls.old) parts.now offsets) ∷ [])) result }
    ensures cause { HasAskCause (C.files calls.old) (C.devices calls.old)
        (C.devices calls.new) result }
{
    match with_rule(rules, 35, lacks_list(parts, offsets)) {
        Ok(rules) => match is_list_off(calls, parts, offsets) {
            Ok(is_broken) => with_rule(rules, 36, is_broken),
            Err(error) => Err(error),
        },
        Err(error) => Err(error),
    }
}

fn lacks_list(parts: &SectionParts, offsets: Option<NodeId>) -> bool
    ensures { result ≡ lacks_list parts.now offsets }
{
    match &parts.head {
        Some(head) => wants_offsets(head) && parts.range.is_some() && offsets.is_none(),
        None => false,
    }
}

fn is_list_off<C: TreeCalls>(
    calls: &mut C,
    parts: &SectionParts,
    offsets: Option<NodeId>,
) -> Result<bool, AdfError>
    requires ready { C.is_ready calls.old }
    requires offsets { IsTold (C.files calls.old) (C.devices calls.old)
        → IfSome offsets (IsPlain (C.files calls.old)) }
    requires list { IsTold (C.files calls.old) (C.devices calls.old)
        → IfSome offsets (λ at. is_list (node_there (C.files calls.old) at) ≡ true) }
    ensures ready { C.is_ready calls.new }
    ensures only { OnlyAsks (C.files calls.old) (C.devices calls.old)
        (C.devices calls.new) (C.files calls.new) }
    ensures value { IsTold (C.files calls.old) (C.devices calls.old)
        → IsValueOr (is_list_off (C.files calls.old) parts.now offsets) result }
    ensures cause { HasAskCause (C.files calls.old) (C.devices calls.old)
        (C.devices calls.new) result }
{
    match (&parts.head, &parts.range, offsets) {
        (Some(head), Some(range), Some(at)) => {
            if wants_offsets(head) && range.is_good() {
                breaks_offset_size(calls, at, range)
            } else {
                Ok(false)
            }
        }
        _ => Ok(false),
    }
}

/// The section with its offsets, where all that the rules on pieces need is met.
fn listed<C: TreeCalls>(
    calls: &mut C,
    parts: &SectionParts,
    offsets: Option<NodeId>,
) -> Result<Option<OffsetSection>, AdfError>
    requires ready { C.is_ready calls.old }
    requires connectivity { IsTold (C.files calls.old) (C.devices calls.old)
        → IfSome parts.now.connectivity (IsPlain (C.files calls.old)) }
    requires offsets { IsTold (C.files calls.old) (C.devices calls.old)
        → IfSome offsets (IsPlain (C.files calls.old)) }
    requires list { IsTold (C.files calls.old) (C.devices calls.old)
        → IfSome offsets (λ at. is_list (node_there (C.files calls.old) at) ≡ true) }
    ensures ready { C.is_ready calls.new }
    ensures only { OnlyAsks (C.files calls.old) (C.devices calls.old)
        (C.devices calls.new) (C.files calls.new) }
    ensures value { IsTold (C.files calls.old) (C.devices calls.old)
        → IsValueOr (listed (C.files calls.old) (whole parts.now) offsets) result }
    ensures cause { HasAskCause (C.files calls.old) (C.devices calls.old)
        (C.devices calls.new) result }
{
    match (&parts.head, &parts.range, parts.connectivity, offsets) {
        (Some(head), Some(range), Some(connectivity), Some(offsets)) => {
            if wants_offsets(head) && range.is_good() {
                section_with(calls, head, range, connectivity, offsets)
            } else {
                Ok(None)
            }
        }
        _ => Ok(None),
    }
}

/// That, of the parts of a section.
fn section_with<C: TreeCalls>(
    calls: &mut C,
    head: &SectionHead,
    range: &ElementRange,
    connectivity: NodeId,
    offsets: NodeId,
) -> Result<Option<OffsetSection>, AdfError>
    requires ready { C.is_ready calls.old }
    requires range { is_range range.now ≡ true }
    requires plain { IsTold (C.files calls.old) (C.devices calls.old)
        → IsPlain (C.files calls.old) connectivity }
    requires offsets { IsTold (C.files calls.old) (C.devices calls.old)
        → IsPlain (C.files calls.old) offsets }
    ensures ready { C.is_ready calls.new }
    ensures only { OnlyAsks (C.files calls.old) (C.devices calls.old)
        (C.devices calls.new) (C.files calls.new) }
    ensures value { IsTold (C.files calls.old) (C.devices calls.old)
        → IsValueOr (section_with (C.files calls.old) head.now range.now connectivity offsets) result }
    ensures cause { HasAskCause (C.files calls.old) (C.devices calls.old)
        (C.devices calls.new) result }
{
    match breaks_connectivity_size(calls, connectivity, head, range) {
        Ok(false) => match breaks_offset_size(calls, offsets, range) {
            Ok(false) => Ok(Some(OffsetSection::new(head.code(), connectivity, offsets))),
            Ok(true) => Ok(None),
            Err(error) => Err(error),
        },
        Ok(true) => Ok(None),
        Err(error) => Err(error),
    }
}

/// K37 offset-numbers to K40 face-numbers.
fn with_piece_rules<C: TreeCalls>(
    alloc: Global,
    calls: &mut C,
    zone: Option<NodeId>,
    limit: Option<Option<i64>>,
    section: &OffsetSection,
    rules: Rules,
) -> Result<Rules, AdfError>
    requires ready { C.is_ready calls.old }
    requires section { IsTold (C.files calls.old) (C.devices calls.old)
        → IsOffsetSection (C.files calls.old) section.now }
    requires zone { IsTold (C.files calls.old) (C.devices calls.old)
        → IfSome zone (IsPlain (C.files calls.old)) }
    ensures ready { C.is_ready calls.new }
    ensures only { OnlyAsks (C.files calls.old) (C.devices calls.old)
        (C.devices calls.new) (C.files calls.new) }
    ensures value { IsTold (C.files calls.old) (C.devices calls.old)
        → IsValueOr (rules ++ held (piece_tests (C.files calls.old) zone limit (Some section.now))) result }
    ensures cause { HasAskCause (C.files calls.old) (C.devices calls.old)
        (C.devices calls.new) result }
{
    match offset_state(alloc, calls, section) {
        Ok(state) => match with_rule(rules, 37, state.is_bad()) {
            Ok(rules) => with_state_rules(alloc, calls, zone, limit, section, &state, rules),
            Err(error) => Err(error),
        },
        Err(error) => Err(error),
    }
}

fn with_state_rules<C: TreeCalls>(
    alloc: Global,
    calls: &mut C,
    zone: Option<NodeId>,
    limit: Option<Option<i64>>,
    section: &OffsetSection,
    state: &OffsetState,
    rules: Rules,
) -> Result<Rules, AdfError>
    requires ready { C.is_ready calls.old }
    requires section { IsTold (C.files calls.old) (C.devices calls.old)
        → IsOffsetSection (C.files calls.old) section.now }
    requires state { IsTold (C.files calls.old) (C.devices calls.old)
        → state.now ≡ offset_state (C.files calls.old) section.now }
    requires zone { IsTold (C.files calls.old) (C.devices calls.old)
        → IfSome zone (IsPlain (C.files calls.old)) }
    ensures ready { C.is_ready calls.new }
    ensures only { OnlyAsks (C.files calls.old) (C.devices calls.old)
        (C.devices calls.new) (C.files calls.new) }
    ensures value { IsTold (C.files calls.old) (C.devices calls.old)
        → IsValueOr (rules ++ held (state_tests (C.files calls.old) zone limit section.now)) result }
    ensures cause { HasAskCause (C.files calls.old) (C.devices calls.old)
        (C.devices calls.new) result }
{
    match piece_fault(alloc, calls, section, state, limit) {
        Ok(fault) => match with_fault_rules(fault, rules) {
            Ok(rules) => match lacks_face(alloc, calls, zone, section, state) {
                Ok(is_broken) => with_rule(rules, 40, is_broken),
                Err(error) => Err(error),
            },
            Err(error) => Err(error),
        },
        Err(error) => Err(error),
    }
}

/// K38 mixed-pieces and K39 piece-nodes.
fn with_fault_rules(fault: Option<PieceFault>, rules: Rules) -> Result<Rules, AdfError>
    ensures value { IfOk result (λ more. more ≡ rules ++ held ((38, is_bad_piece fault)
        ∷ (39, is_bad_node fault) ∷ [])) }
    ensures memory { IfErr result (λ error. error ≡ AdfError.Memory) }
{
    match fault {
        Some(PieceFault::Piece) => with_rule(rules, 38, true),
        Some(PieceFault::Node) => with_rule(rules, 39, true),
        None => Ok(rules),
    }
}

/// K40 face-numbers, of a section that has a zone.
fn lacks_face<C: TreeCalls>(
    alloc: Global,
    calls: &mut C,
    zone: Option<NodeId>,
    section: &OffsetSection,
    state: &OffsetState,
) -> Result<bool, AdfError>
    requires ready { C.is_ready calls.old }
    requires section { IsTold (C.files calls.old) (C.devices calls.old)
        → IsOffsetSection (C.files calls.old) section.now }
    requires state { IsTold (C.files calls.old) (C.devices calls.old)
        → state.now ≡ offset_state (C.files calls.old) section.now }
    requires zone { IsTold (C.files calls.old) (C.devices calls.old)
        → IfSome zone (IsPlain (C.files calls.old)) }
    ensures ready { C.is_ready calls.new }
    ensures only { OnlyAsks (C.files calls.old) (C.devices calls.old)
        (C.devices calls.new) (C.files calls.new) }
    ensures value { IsTold (C.files calls.old) (C.devices calls.old)
        → IsValueOr (lacks_face (C.files calls.old) zone section.now) result }
    ensures cause { HasAskCause (C.files calls.old) (C.devices calls.old)
        (C.devices calls.new) result }
{
    match zone {
        Some(zone) => {
            if section.is_of_polyhedra() && !state.is_bad() {
                lacks_face_in(alloc, calls, zone, section)
            } else {
                Ok(false)
            }
        }
        None => Ok(false),
    }
}

fn lacks_face_in<C: TreeCalls>(
    alloc: Global,
    calls: &mut C,
    zone: NodeId,
    section: &OffsetSection,
) -> Result<bool, AdfError>
    requires ready { C.is_ready calls.old }
    requires section { IsTold (C.files calls.old) (C.devices calls.old)
        → IsOffsetSection (C.files calls.old) section.now }
    requires plain { IsTold (C.files calls.old) (C.devices calls.old)
        → IsPlain (C.files calls.old) zone }
    ensures ready { C.is_ready calls.new }
    ensures only { OnlyAsks (C.files calls.old) (C.devices calls.old)
        (C.devices calls.new) (C.files calls.new) }
    ensures value { IsTold (C.files calls.old) (C.devices calls.old)
        → IsValueOr (has_no_face (C.files calls.old) section.now (face_ranges (C.files calls.old) zone)) result }
    ensures cause { HasAskCause (C.files calls.old) (C.devices calls.old)
        (C.devices calls.new) result }
{
    match face_ranges(alloc, calls, zone) {
        Ok(faces) => has_no_face(alloc, calls, section, faces.items()),
        Err(error) => Err(error),
    }
}
