//! Rules that one node breaks by itself, where its kind is known.

ghost use Rattle.std.specs.Prelude.{◌≡◌, ◌≤◌, ◌∷◌, [], ◌*◌, ◌==◌, ◌||◌, not, codes, bytes_eq, nat_lt};
ghost use Rattle.adf_format.specs.declared.types.DataType.TheVariants.{R4, R8, C1};
ghost use Rattle.adf_model.specs.Causes.{OnlyAsks};
ghost use Rattle.adf_model.specs.Slots.{IsTold};
ghost use Rattle.sids_views.specs.Asks.{IsValueOr, HasAskCause, IsPlain, IsThere};
ghost use Rattle.sids_tables.specs.declared.labels.LabelKind.TheVariants.{CgnsLibraryVersion, ZoneType};
ghost use Rattle.sids_views.specs.Views.{node_there, count_of, children_there};
ghost use Rattle.sids_rules.specs.Values.{is_array_of, is_ints_of};
ghost use Rattle.sids_rules.specs.Rules.{has_type, is_filled, is_allowed, place_kind, is_no_text};
ghost use Rattle.sids_node_rules.specs.NodeRules.{is_no_coordinate, is_no_field, is_no_small_node};

use adf_model::{AdfError, DataType, NodeId, TreeCalls};
use sids_readings::{WordList, is_array, is_filled, is_ints_of, is_no_word, is_type};
use sids_tables::{LabelKind, allowed};
use sids_views::{children_of, count_of, kind_of_node, name_of, view_of};
use std::alloc::Global;

/// K04 version-data, of a version: it is not R4 (1) with data.
pub fn breaks_version_data<C: TreeCalls>(calls: &mut C, at: NodeId) -> Result<bool, AdfError>
    requires ready { C.is_ready calls.old }
    requires plain { IsTold (C.files calls.old) (C.devices calls.old)
        → IsPlain (C.files calls.old) at }
    ensures ready { C.is_ready calls.new }
    ensures only { OnlyAsks (C.files calls.old) (C.devices calls.old)
        (C.devices calls.new) (C.files calls.new) }
    ensures value { IsTold (C.files calls.old) (C.devices calls.old)
        → IsValueOr (not (is_array_of R4 (1 ∷ []) (node_there (C.files calls.old) at))) result }
    ensures cause { HasAskCause (C.files calls.old) (C.devices calls.old)
        (C.devices calls.new) result }
{
    match view_of(calls, at) {
        Ok(view) => Ok(!is_array(&view, DataType::R4, &[1])),
        Err(error) => Err(error),
    }
}

/// K14 not-empty, of a node that is to have no data: it has a type.
pub fn breaks_not_empty<C: TreeCalls>(calls: &mut C, at: NodeId) -> Result<bool, AdfError>
    requires ready { C.is_ready calls.old }
    requires plain { IsTold (C.files calls.old) (C.devices calls.old)
        → IsPlain (C.files calls.old) at }
    ensures ready { C.is_ready calls.new }
    ensures only { OnlyAsks (C.files calls.old) (C.devices calls.old)
        (C.devices calls.new) (C.files calls.new) }
    ensures value { IsTold (C.files calls.old) (C.devices calls.old)
        → IsValueOr (has_type (C.files calls.old) at) result }
    ensures cause { HasAskCause (C.files calls.old) (C.devices calls.old)
        (C.devices calls.new) result }
{
    match view_of(calls, at) {
        Ok(view) => Ok(!is_type(&view, DataType::Mt)),
        Err(error) => Err(error),
    }
}

/// K15 array-data, of an array: it has no type, or no data.
pub fn breaks_array_data<C: TreeCalls>(calls: &mut C, at: NodeId) -> Result<bool, AdfError>
    requires ready { C.is_ready calls.old }
    requires plain { IsTold (C.files calls.old) (C.devices calls.old)
        → IsPlain (C.files calls.old) at }
    ensures ready { C.is_ready calls.new }
    ensures only { OnlyAsks (C.files calls.old) (C.devices calls.old)
        (C.devices calls.new) (C.files calls.new) }
    ensures value { IsTold (C.files calls.old) (C.devices calls.old)
        → IsValueOr (not (is_filled (C.files calls.old) at)) result }
    ensures cause { HasAskCause (C.files calls.old) (C.devices calls.old)
        (C.devices calls.new) result }
{
    match view_of(calls, at) {
        Ok(view) => Ok(!is_filled(&view)),
        Err(error) => Err(error),
    }
}

/// K16 coordinate-type, of an array in a grid, needs K15: it is not R4 or R8.
pub fn breaks_coordinate_type<C: TreeCalls>(calls: &mut C, at: NodeId) -> Result<bool, AdfError>
    requires ready { C.is_ready calls.old }
    requires plain { IsTold (C.files calls.old) (C.devices calls.old)
        → IsPlain (C.files calls.old) at }
    ensures ready { C.is_ready calls.new }
    ensures only { OnlyAsks (C.files calls.old) (C.devices calls.old)
        (C.devices calls.new) (C.files calls.new) }
    ensures value { IsTold (C.files calls.old) (C.devices calls.old)
        → IsValueOr (is_no_coordinate (C.files calls.old) at) result }
    ensures cause { HasAskCause (C.files calls.old) (C.devices calls.old)
        (C.devices calls.new) result }
{
    match view_of(calls, at) {
        Ok(view) => Ok(
            is_filled(&view) && !is_type(&view, DataType::R4) && !is_type(&view, DataType::R8),
        ),
        Err(error) => Err(error),
    }
}

/// K21 field-type, of an array in a solution, needs K15: it is C1 or B1.
pub fn breaks_field_type<C: TreeCalls>(calls: &mut C, at: NodeId) -> Result<bool, AdfError>
    requires ready { C.is_ready calls.old }
    requires plain { IsTold (C.files calls.old) (C.devices calls.old)
        → IsPlain (C.files calls.old) at }
    ensures ready { C.is_ready calls.new }
    ensures only { OnlyAsks (C.files calls.old) (C.devices calls.old)
        (C.devices calls.new) (C.files calls.new) }
    ensures value { IsTold (C.files calls.old) (C.devices calls.old)
        → IsValueOr (is_no_field (C.files calls.old) at) result }
    ensures cause { HasAskCause (C.files calls.old) (C.devices calls.old)
        (C.devices calls.new) result }
{
    match view_of(calls, at) {
        Ok(view) => Ok(
            is_filled(&view) && (is_type(&view, DataType::C1) || is_type(&view, DataType::B1)),
        ),
        Err(error) => Err(error),
    }
}

/// K19 rind-data, of a rind in a zone of so many indices: it is not of whole numbers, two for each.
pub fn breaks_rind_data<C: TreeCalls>(
    calls: &mut C,
    at: NodeId,
    index: usize,
) -> Result<bool, AdfError>
    requires few { index ≤ 3 }
    requires ready { C.is_ready calls.old }
    requires plain { IsTold (C.files calls.old) (C.devices calls.old)
        → IsPlain (C.files calls.old) at }
    ensures ready { C.is_ready calls.new }
    ensures only { OnlyAsks (C.files calls.old) (C.devices calls.old)
        (C.devices calls.new) (C.files calls.new) }
    ensures value { IsTold (C.files calls.old) (C.devices calls.old)
        → IsValueOr (not (is_ints_of ((2 * index) ∷ []) (node_there (C.files calls.old) at)))
        result }
    ensures cause { HasAskCause (C.files calls.old) (C.devices calls.old)
        (C.devices calls.new) result }
{
    match view_of(calls, at) {
        Ok(view) => Ok(!is_ints_of(&view, &[2 * index as u64])),
        Err(error) => Err(error),
    }
}

/// K18 rind-name, of a rind, which may be behind a link: it has another name than `Rind`.
pub fn breaks_rind_name<C: TreeCalls>(calls: &mut C, node: NodeId) -> Result<bool, AdfError>
    requires ready { C.is_ready calls.old }
    requires plain { IsTold (C.files calls.old) (C.devices calls.old)
        → IsThere (C.files calls.old) node }
    ensures ready { C.is_ready calls.new }
    ensures only { OnlyAsks (C.files calls.old) (C.devices calls.old)
        (C.devices calls.new) (C.files calls.new) }
    ensures value { IsTold (C.files calls.old) (C.devices calls.old)
        → IsValueOr (not (bytes_eq (node_there (C.files calls.old) node).name (codes "Rind")))
        result }
    ensures cause { HasAskCause (C.files calls.old) (C.devices calls.old)
        (C.devices calls.new) result }
{
    match name_of(calls, node) {
        Ok(name) => Ok(name.items() != b"Rind".as_slice()),
        Err(error) => Err(error),
    }
}

/// K03 version, of the root: it has not exactly one version.
pub fn breaks_version<C: TreeCalls>(
    alloc: Global,
    calls: &mut C,
    at: NodeId,
) -> Result<bool, AdfError>
    requires ready { C.is_ready calls.old }
    requires plain { IsTold (C.files calls.old) (C.devices calls.old)
        → IsPlain (C.files calls.old) at }
    ensures ready { C.is_ready calls.new }
    ensures only { OnlyAsks (C.files calls.old) (C.devices calls.old)
        (C.devices calls.new) (C.files calls.new) }
    ensures value { IsTold (C.files calls.old) (C.devices calls.old)
        → IsValueOr (not (count_of CgnsLibraryVersion (children_there (C.files calls.old) at) == 1))
        result }
    ensures cause { HasAskCause (C.files calls.old) (C.devices calls.old)
        (C.devices calls.new) result }
{
    match children_of(alloc, calls, at) {
        Ok(children) => Ok(count_of(LabelKind::CgnsLibraryVersion, children.items()) != 1),
        Err(error) => Err(error),
    }
}

/// K13 zone-types, of a zone: it has more than one zone type.
pub fn breaks_zone_types<C: TreeCalls>(
    alloc: Global,
    calls: &mut C,
    at: NodeId,
) -> Result<bool, AdfError>
    requires ready { C.is_ready calls.old }
    requires plain { IsTold (C.files calls.old) (C.devices calls.old)
        → IsPlain (C.files calls.old) at }
    ensures ready { C.is_ready calls.new }
    ensures only { OnlyAsks (C.files calls.old) (C.devices calls.old)
        (C.devices calls.new) (C.files calls.new) }
    ensures value { IsTold (C.files calls.old) (C.devices calls.old)
        → IsValueOr (nat_lt 1 (count_of ZoneType (children_there (C.files calls.old) at))) result }
    ensures cause { HasAskCause (C.files calls.old) (C.devices calls.old)
        (C.devices calls.new) result }
{
    match children_of(alloc, calls, at) {
        Ok(children) => Ok(count_of(LabelKind::ZoneType, children.items()) > 1),
        Err(error) => Err(error),
    }
}

/// K02 place, of a node of a kind under a parent: it is not allowed there.
pub fn breaks_place<C: TreeCalls>(
    calls: &mut C,
    kind: LabelKind,
    at: NodeId,
) -> Result<bool, AdfError>
    requires ready { C.is_ready calls.old }
    requires plain { IsTold (C.files calls.old) (C.devices calls.old)
        → IsPlain (C.files calls.old) at }
    ensures ready { C.is_ready calls.new }
    ensures only { OnlyAsks (C.files calls.old) (C.devices calls.old)
        (C.devices calls.new) (C.files calls.new) }
    ensures value { IsTold (C.files calls.old) (C.devices calls.old)
        → IsValueOr (not (is_allowed (place_kind (C.files calls.old) at) kind)) result }
    ensures cause { HasAskCause (C.files calls.old) (C.devices calls.old)
        (C.devices calls.new) result }
{
    match place_kind(calls, at) {
        Ok(place) => Ok(!is_allowed(place, kind)),
        Err(error) => Err(error),
    }
}

/// What a parent is in the table of allowed children: the root where it is that of its file.
fn place_kind<C: TreeCalls>(calls: &mut C, at: NodeId) -> Result<LabelKind, AdfError>
    requires ready { C.is_ready calls.old }
    requires plain { IsTold (C.files calls.old) (C.devices calls.old)
        → IsPlain (C.files calls.old) at }
    ensures ready { C.is_ready calls.new }
    ensures only { OnlyAsks (C.files calls.old) (C.devices calls.old)
        (C.devices calls.new) (C.files calls.new) }
    ensures value { IsTold (C.files calls.old) (C.devices calls.old)
        → IsValueOr (place_kind (C.files calls.old) at) result }
    ensures cause { HasAskCause (C.files calls.old) (C.devices calls.old)
        (C.devices calls.new) result }
{
    if at.serial == 0 {
        Ok(LabelKind::Root)
    } else {
        kind_of_node(calls, at)
    }
}

fn is_allowed(place: LabelKind, kind: LabelKind) -> bool
    ensures { result ≡ is_allowed place kind }
{
    allowed(place, kind)
}

/// K34 small-node, of a node of a kind: it is no text of its list, or has not the type and the
/// dimensions of its kind with data. False for other kinds.
pub fn breaks_small_node<C: TreeCalls>(
    alloc: Global,
    calls: &mut C,
    at: NodeId,
    kind: LabelKind,
) -> Result<bool, AdfError>
    requires ready { C.is_ready calls.old }
    requires plain { IsTold (C.files calls.old) (C.devices calls.old)
        → IsPlain (C.files calls.old) at }
    ensures ready { C.is_ready calls.new }
    ensures only { OnlyAsks (C.files calls.old) (C.devices calls.old)
        (C.devices calls.new) (C.files calls.new) }
    ensures value { IsTold (C.files calls.old) (C.devices calls.old)
        → IsValueOr (is_no_small_node kind (C.files calls.old) at) result }
    ensures cause { HasAskCause (C.files calls.old) (C.devices calls.old)
        (C.devices calls.new) result }
{
    match kind {
        LabelKind::DataClass => is_no_word(alloc, calls, at, WordList::DataClasses),
        LabelKind::SimulationType => is_no_word(alloc, calls, at, WordList::SimulationTypes),
        LabelKind::FamilyName | LabelKind::Descriptor => is_no_text(calls, at),
        LabelKind::DimensionalUnits => are_no_units(calls, at),
        LabelKind::DimensionalExponents => are_no_exponents(calls, at),
        _ => Ok(false),
    }
}

/// Whether a node is not C1 with data.
fn is_no_text<C: TreeCalls>(calls: &mut C, at: NodeId) -> Result<bool, AdfError>
    requires ready { C.is_ready calls.old }
    requires plain { IsTold (C.files calls.old) (C.devices calls.old)
        → IsPlain (C.files calls.old) at }
    ensures ready { C.is_ready calls.new }
    ensures only { OnlyAsks (C.files calls.old) (C.devices calls.old)
        (C.devices calls.new) (C.files calls.new) }
    ensures value { IsTold (C.files calls.old) (C.devices calls.old)
        → IsValueOr (is_no_text (C.files calls.old) at) result }
    ensures cause { HasAskCause (C.files calls.old) (C.devices calls.old)
        (C.devices calls.new) result }
{
    match view_of(calls, at) {
        Ok(view) => Ok(!(is_type(&view, DataType::C1) && view.has_data())),
        Err(error) => Err(error),
    }
}

/// Whether a node is not C1 (32, 5) with data.
fn are_no_units<C: TreeCalls>(calls: &mut C, at: NodeId) -> Result<bool, AdfError>
    requires ready { C.is_ready calls.old }
    requires plain { IsTold (C.files calls.old) (C.devices calls.old)
        → IsPlain (C.files calls.old) at }
    ensures ready { C.is_ready calls.new }
    ensures only { OnlyAsks (C.files calls.old) (C.devices calls.old)
        (C.devices calls.new) (C.files calls.new) }
    ensures value { IsTold (C.files calls.old) (C.devices calls.old)
        → IsValueOr (not (is_array_of C1 (32 ∷ 5 ∷ []) (node_there (C.files calls.old) at)))
        result }
    ensures cause { HasAskCause (C.files calls.old) (C.devices calls.old)
        (C.devices calls.new) result }
{
    match view_of(calls, at) {
        Ok(view) => Ok(!is_array(&view, DataType::C1, &[32, 5])),
        Err(error) => Err(error),
    }
}

/// Whether a node is not R4 or R8 (5) with data.
fn are_no_exponents<C: TreeCalls>(calls: &mut C, at: NodeId) -> Result<bool, AdfError>
    requires ready { C.is_ready calls.old }
    requires plain { IsTold (C.files calls.old) (C.devices calls.old)
        → IsPlain (C.files calls.old) at }
    ensures ready { C.is_ready calls.new }
    ensures only { OnlyAsks (C.files calls.old) (C.devices calls.old)
        (C.devices calls.new) (C.files calls.new) }
    ensures value { IsTold (C.files calls.old) (C.devices calls.old)
        → IsValueOr (not (is_array_of R4 (5 ∷ []) (node_there (C.files calls.old) at)
        || is_array_of R8 (5 ∷ []) (node_there (C.files calls.old) at))) result }
    ensures cause { HasAskCause (C.files calls.old) (C.devices calls.old)
        (C.devices calls.new) result }
{
    match view_of(calls, at) {
        Ok(view) => Ok(
            !(is_array(&view, DataType::R4, &[5]) || is_array(&view, DataType::R8, &[5])),
        ),
        Err(error) => Err(error),
    }
}
