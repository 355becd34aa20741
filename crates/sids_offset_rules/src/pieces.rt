//! The pieces of a connectivity, each from where an offset says up to where the next one does.

ghost use Rattle.std.specs.Prelude.{◌≡◌, ◌≤◌, true, false, length};
ghost use Rattle.std.specs.List.{list_any};
ghost use Rattle.adf_model.specs.Causes.{OnlyAsks};
ghost use Rattle.adf_model.specs.Edits.{size_of, size_limit};
ghost use Rattle.adf_model.specs.Slots.{IsTold};
ghost use Rattle.sids_views.specs.Asks.{IsValueOr, HasAskCause, IsPlain};
ghost use Rattle.sids_views.specs.Views.{node_there};
ghost use Rattle.sids_rules.specs.Values.{is_ints, ints_there};
ghost use Rattle.sids_rules.specs.OffsetRules.{are_offsets, has_bad_piece, has_bad_node, is_no_face};
ghost use Rattle.sids_readings.specs.Reading.{is_wide, is_list};
ghost use Rattle.sids_offset_rules.specs.Pieces.{IsOffsetSection, offset_state, mixed_fault, polygon_fault, fault_of, piece_fault, fault_with, has_no_face};

use crate::offset_lists::{MIXED, OffsetSection, OffsetState, are_offsets};
use adf_model::{AdfError, DataType, NodeId, TreeCalls};
use sids_readings::{ElementRange, ints_of, is_small_list, is_type};
use sids_rules::{breaks_k38, breaks_k39};
use sids_section_rules::{EntryTest, has_failing_entry, union_of};
use sids_views::view_of;
use std::alloc::Global;

/// What is wrong with the pieces of a connectivity.
#[derive(Clone, Copy, Debug, PartialEq, Eq, Drop)]
pub enum PieceFault {
    /// K38 mixed-pieces: a piece is no element of a fixed type.
    Piece,
    /// K39 piece-nodes: each is, and a node of one is no node of the zone.
    Node,
}

/// K38 mixed-pieces and K39 piece-nodes, of a section whose offsets are so. The limit is there where the
/// sizes of the zone are known; it is none where node numbers have none.
pub fn piece_fault<C: TreeCalls>(
    alloc: Global,
    calls: &mut C,
    section: &OffsetSection,
    state: &OffsetState,
    limit: Option<Option<i64>>,
) -> Result<Option<PieceFault>, AdfError>
    requires ready { C.is_ready calls.old }
    requires section { IsTold (C.files calls.old) (C.devices calls.old)
        → IsOffsetSection (C.files calls.old) section.now }
    requires state { IsTold (C.files calls.old) (C.devices calls.old)
        → state.now ≡ offset_state (C.files calls.old) section.now }
    ensures ready { C.is_ready calls.new }
    ensures only { OnlyAsks (C.files calls.old) (C.devices calls.old)
        (C.devices calls.new) (C.files calls.new) }
    ensures value { IsTold (C.files calls.old) (C.devices calls.old)
        → IsValueOr (piece_fault (C.files calls.old) section.now limit) result }
    ensures cause { HasAskCause (C.files calls.old) (C.devices calls.old)
        (C.devices calls.new) result }
{
    match state {
        OffsetState::Good(offsets) => { fault_with(alloc, calls, section, offsets.items(), limit) }
        OffsetState::Untested | OffsetState::Bad => Ok(None),
    }
}

/// What is wrong with the pieces between these offsets, which end with the length of the connectivity.
fn fault_with<C: TreeCalls>(
    alloc: Global,
    calls: &mut C,
    section: &OffsetSection,
    offsets: &[i64],
    limit: Option<Option<i64>>,
) -> Result<Option<PieceFault>, AdfError>
    requires ready { C.is_ready calls.old }
    requires section { IsTold (C.files calls.old) (C.devices calls.old)
        → IsOffsetSection (C.files calls.old) section.now }
    requires offsets { IsTold (C.files calls.old) (C.devices calls.old)
        → are_offsets offsets.now (length (ints_there (C.files calls.old) section.now.connectivity)) ≡ true }
    ensures ready { C.is_ready calls.new }
    ensures only { OnlyAsks (C.files calls.old) (C.devices calls.old)
        (C.devices calls.new) (C.files calls.new) }
    ensures value { IsTold (C.files calls.old) (C.devices calls.old)
        → IsValueOr (fault_with (C.files calls.old) section.now offsets.now limit) result }
    ensures cause { HasAskCause (C.files calls.old) (C.devices calls.old)
        (C.devices calls.new) result }
{
    match view_of(calls, section.connectivity()) {
        Ok(view) => {
            if is_small_list(&view) {
                let wide = !is_type(&view, DataType::I4);
                fault_in(alloc, calls, section, wide, offsets, limit)
            } else {
                Ok(None)
            }
        }
        Err(error) => Err(error),
    }
}

fn fault_in<C: TreeCalls>(
    alloc: Global,
    calls: &mut C,
    section: &OffsetSection,
    wide: bool,
    offsets: &[i64],
    limit: Option<Option<i64>>,
) -> Result<Option<PieceFault>, AdfError>
    requires ready { C.is_ready calls.old }
    requires section { IsTold (C.files calls.old) (C.devices calls.old)
        → IsOffsetSection (C.files calls.old) section.now }
    requires small { IsTold (C.files calls.old) (C.devices calls.old)
        → size_of (node_there (C.files calls.old) section.now.connectivity) ≤ size_limit }
    requires width { IsTold (C.files calls.old) (C.devices calls.old)
        → is_wide (node_there (C.files calls.old) section.now.connectivity) ≡ wide }
    requires offsets { IsTold (C.files calls.old) (C.devices calls.old)
        → are_offsets offsets.now (length (ints_there (C.files calls.old) section.now.connectivity)) ≡ true }
    ensures ready { C.is_ready calls.new }
    ensures only { OnlyAsks (C.files calls.old) (C.devices calls.old)
        (C.devices calls.new) (C.files calls.new) }
    ensures value { IsTold (C.files calls.old) (C.devices calls.old)
        → IsValueOr (fault_of section.now.code (ints_there (C.files calls.old) section.now.connectivity) offsets.now limit) result }
    ensures cause { HasAskCause (C.files calls.old) (C.devices calls.old)
        (C.devices calls.new) result }
{
    if section.is_mixed() {
        mixed_there(alloc, calls, section.connectivity(), wide, offsets, limit)
    } else if section.is_of_polygons() {
        polygons_there(calls, section.connectivity(), wide, offsets, limit)
    } else {
        Ok(None)
    }
}

fn mixed_there<C: TreeCalls>(
    alloc: Global,
    calls: &mut C,
    at: NodeId,
    wide: bool,
    offsets: &[i64],
    limit: Option<Option<i64>>,
) -> Result<Option<PieceFault>, AdfError>
    requires ready { C.is_ready calls.old }
    requires plain { IsTold (C.files calls.old) (C.devices calls.old)
        → IsPlain (C.files calls.old) at }
    requires ints { IsTold (C.files calls.old) (C.devices calls.old)
        → is_ints (node_there (C.files calls.old) at) ≡ true }
    requires small { IsTold (C.files calls.old) (C.devices calls.old)
        → size_of (node_there (C.files calls.old) at) ≤ size_limit }
    requires width { IsTold (C.files calls.old) (C.devices calls.old)
        → is_wide (node_there (C.files calls.old) at) ≡ wide }
    requires offsets { IsTold (C.files calls.old) (C.devices calls.old)
        → are_offsets offsets.now (length (ints_there (C.files calls.old) at)) ≡ true }
    ensures ready { C.is_ready calls.new }
    ensures only { OnlyAsks (C.files calls.old) (C.devices calls.old)
        (C.devices calls.new) (C.files calls.new) }
    ensures value { IsTold (C.files calls.old) (C.devices calls.old)
        → IsValueOr (mixed_fault (ints_there (C.files calls.old) at) offsets.now limit) result }
    ensures cause { HasAskCause (C.files calls.old) (C.devices calls.old)
        (C.devices calls.new) result }
{
    match ints_of(alloc, calls, at, wide) {
        Ok(entries) => Ok(mixed_fault(entries.items(), offsets, limit)),
        Err(error) => Err(error),
    }
}

/// What is wrong with the pieces of mixed elements.
fn mixed_fault(entries: &[i64], offsets: &[i64], limit: Option<Option<i64>>) -> Option<PieceFault>
    ensures { are_offsets offsets.now (length entries.now) ≡ true
        → result ≡ mixed_fault entries.now offsets.now limit }
{
    if are_offsets(offsets, entries.len() as u64) {
        fault_between(entries, offsets, limit)
    } else {
        None
    }
}

fn fault_between(entries: &[i64], offsets: &[i64], limit: Option<Option<i64>>) -> Option<PieceFault>
    requires { are_offsets offsets.now (length entries.now) ≡ true }
    ensures { result ≡ mixed_fault entries.now offsets.now limit }
{
    if has_bad_piece(entries, offsets) {
        return Some(PieceFault::Piece);
    }
    match limit {
        Some(limit) => {
            if has_bad_node(entries, offsets, limit) {
                Some(PieceFault::Node)
            } else {
                None
            }
        }
        None => None,
    }
}

fn has_bad_piece(entries: &[i64], offsets: &[i64]) -> bool
    requires { are_offsets offsets.now (length entries.now) ≡ true }
    ensures { result ≡ has_bad_piece entries.now offsets.now }
{
    breaks_k38(MIXED, entries, offsets)
}

/// Whether a node behind the code of a piece is no node of the zone.
fn has_bad_node(entries: &[i64], offsets: &[i64], limit: Option<i64>) -> bool
    requires offsets { are_offsets offsets.now (length entries.now) ≡ true }
    requires pieces { has_bad_piece entries.now offsets.now ≡ false }
    ensures { result ≡ has_bad_node 1 entries.now offsets.now limit }
{
    breaks_k39(MIXED, entries, offsets, limit)
}

fn polygons_there<C: TreeCalls>(
    calls: &mut C,
    at: NodeId,
    wide: bool,
    offsets: &[i64],
    limit: Option<Option<i64>>,
) -> Result<Option<PieceFault>, AdfError>
    requires ready { C.is_ready calls.old }
    requires plain { IsTold (C.files calls.old) (C.devices calls.old)
        → IsPlain (C.files calls.old) at }
    requires list { IsTold (C.files calls.old) (C.devices calls.old)
        → is_list (node_there (C.files calls.old) at) ≡ true }
    requires small { IsTold (C.files calls.old) (C.devices calls.old)
        → size_of (node_there (C.files calls.old) at) ≤ size_limit }
    requires width { IsTold (C.files calls.old) (C.devices calls.old)
        → is_wide (node_there (C.files calls.old) at) ≡ wide }
    requires offsets { IsTold (C.files calls.old) (C.devices calls.old)
        → are_offsets offsets.now (length (ints_there (C.files calls.old) at)) ≡ true }
    ensures ready { C.is_ready calls.new }
    ensures only { OnlyAsks (C.files calls.old) (C.devices calls.old)
        (C.devices calls.new) (C.files calls.new) }
    ensures value { IsTold (C.files calls.old) (C.devices calls.old)
        → IsValueOr (polygon_fault (ints_there (C.files calls.old) at) offsets.now limit) result }
    ensures cause { HasAskCause (C.files calls.old) (C.devices calls.old)
        (C.devices calls.new) result }
{
    match limit {
        Some(limit) => match has_failing_entry(calls, at, wide, &EntryTest::Vertex(limit)) {
            Ok(true) => Ok(Some(PieceFault::Node)),
            Ok(false) => Ok(None),
            Err(error) => Err(error),
        },
        None => Ok(None),
    }
}

/// K40 face-numbers, of a section whose offsets are not bad: it is one of polyhedra, and a number of the
/// connectivity is 0, or its amount lies in none of the ranges of faces.
pub fn has_no_face<C: TreeCalls>(
    alloc: Global,
    calls: &mut C,
    section: &OffsetSection,
    faces: &[ElementRange],
) -> Result<bool, AdfError>
    requires ready { C.is_ready calls.old }
    requires section { IsTold (C.files calls.old) (C.devices calls.old)
        → IsOffsetSection (C.files calls.old) section.now }
    ensures ready { C.is_ready calls.new }
    ensures only { OnlyAsks (C.files calls.old) (C.devices calls.old)
        (C.devices calls.new) (C.files calls.new) }
    ensures value { IsTold (C.files calls.old) (C.devices calls.old)
        → IsValueOr (has_no_face (C.files calls.old) section.now faces.now) result }
    ensures cause { HasAskCause (C.files calls.old) (C.devices calls.old)
        (C.devices calls.new) result }
{
    if !section.is_of_polyhedra() {
        return Ok(false);
    }
    match view_of(calls, section.connectivity()) {
        Ok(view) => {
            if is_small_list(&view) {
                let wide = !is_type(&view, DataType::I4);
                some_is_no_face(alloc, calls, section.connectivity(), wide, faces)
            } else {
                Ok(false)
            }
        }
        Err(error) => Err(error),
    }
}

/// Whether a number of a connectivity is 0, or its amount lies in none of the ranges of faces.
fn some_is_no_face<C: TreeCalls>(
    alloc: Global,
    calls: &mut C,
    at: NodeId,
    wide: bool,
    faces: &[ElementRange],
) -> Result<bool, AdfError>
    requires ready { C.is_ready calls.old }
    requires plain { IsTold (C.files calls.old) (C.devices calls.old)
        → IsPlain (C.files calls.old) at }
    requires list { IsTold (C.files calls.old) (C.devices calls.old)
        → is_list (node_there (C.files calls.old) at) ≡ true }
    requires small { IsTold (C.files calls.old) (C.devices calls.old)
        → size_of (node_there (C.files calls.old) at) ≤ size_limit }
    requires width { IsTold (C.files calls.old) (C.devices calls.old)
        → is_wide (node_there (C.files calls.old) at) ≡ wide }
    ensures ready { C.is_ready calls.new }
    ensures only { OnlyAsks (C.files calls.old) (C.devices calls.old)
        (C.devices calls.new) (C.files calls.new) }
    ensures value { IsTold (C.files calls.old) (C.devices calls.old)
        → IsValueOr (list_any (is_no_face faces.now) (ints_there (C.files calls.old) at)) result }
    ensures cause { HasAskCause (C.files calls.old) (C.devices calls.old)
        (C.devices calls.new) result }
{
    match union_of(alloc, faces) {
        Ok(faces) => has_failing_entry(calls, at, wide, &EntryTest::Face(faces)),
        Err(error) => Err(error),
    }
}
