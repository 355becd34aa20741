//! The dimensions that the arrays in grids and in solutions are to have.

ghost use Rattle.std.specs.Prelude.{◌≡◌, ◌≤◌, Some, codes, IfSome, IfOk, IfErr};
ghost use Rattle.std.specs.List.{AllByRecursion};
ghost use Rattle.adf_model.specs.declared.error.AdfError.{AdfError};
ghost use Rattle.adf_model.specs.Causes.{OnlyAsks};
ghost use Rattle.adf_model.specs.Slots.{IsTold};
ghost use Rattle.sids_views.specs.Asks.{IsValueOr, HasAskCause, IsPlain};
ghost use Rattle.sids_rules.specs.Values.{with_rind};
ghost use Rattle.sids_rules.specs.Terms.{coordinate_dims, field_dims, text_of_first};
ghost use Rattle.sids_readings.specs.Rinds.{rind_in};
ghost use Rattle.sids_node_rules.specs.NodeRules.{is_size_off};
ghost use Rattle.sids_node_rules.specs.Fields.{place_of_word, place_in, dims_in, holds_arrays, dims_by, dims_of, dims_under};

use crate::dims::breaks_size;
use adf_model::{AdfError, NodeId, Numbers, TreeCalls};
use sids_readings::{ZoneSizes, rind_in, rind_there, text_of};
use sids_rules::without_padding;
use sids_tables::LabelKind;
use sids_views::{SeenChild, children_of, first_of, kind_of_node};
use std::alloc::Global;
use std::marker::Model;

/// The dimensions that arrays are to have: sizes along each index, with the planes of a rind added, low
/// and high of each index.
#[derive(Drop)]
pub struct ArrayDims {
    sizes: Numbers,
    rind: Numbers,
}

impl Model for ArrayDims {
    ghost use Rattle.std.specs.Prelude.{List, ℤ};
    ghost use Rattle.sids_rules.specs.Values.{with_rind};

    ghost Value = { List ℤ };

    ghost view = { λ d. with_rind d.sizes d.rind };
}

/// K17 coordinate-size and K22 field-size, of an array that is to have these dimensions: it has a type
/// and data, and other dimensions.
pub fn breaks_dims<C: TreeCalls>(
    calls: &mut C,
    at: NodeId,
    dims: &ArrayDims,
) -> Result<bool, AdfError>
    requires ready { C.is_ready calls.old }
    requires plain { IsTold (C.files calls.old) (C.devices calls.old)
        → IsPlain (C.files calls.old) at }
    ensures ready { C.is_ready calls.new }
    ensures only { OnlyAsks (C.files calls.old) (C.devices calls.old)
        (C.devices calls.new) (C.files calls.new) }
    ensures value { IsTold (C.files calls.old) (C.devices calls.old)
        → IsValueOr (is_size_off (C.files calls.old) at dims.now) result }
    ensures cause { HasAskCause (C.files calls.old) (C.devices calls.old)
        (C.devices calls.new) result }
{
    breaks_size(calls, at, dims.sizes.items(), dims.rind.items())
}

/// Whether rules speak of the dimensions of the arrays in a node of a kind: of a grid or a solution.
pub fn holds_arrays(kind: LabelKind) -> bool
    ensures { result ≡ holds_arrays kind }
{
    match kind {
        LabelKind::GridCoordinates | LabelKind::FlowSolution => true,
        _ => false,
    }
}

/// The dimensions that the arrays under a node are to have, where the sizes of the zone are known: none
/// where no rule speaks of them.
pub fn dims_under<C: TreeCalls>(
    alloc: Global,
    calls: &mut C,
    parent: Option<NodeId>,
    sizes: &Option<ZoneSizes>,
) -> Result<Option<ArrayDims>, AdfError>
    requires ready { C.is_ready calls.old }
    requires plain { IsTold (C.files calls.old) (C.devices calls.old)
        → IfSome parent (IsPlain (C.files calls.old)) }
    ensures ready { C.is_ready calls.new }
    ensures only { OnlyAsks (C.files calls.old) (C.devices calls.old)
        (C.devices calls.new) (C.files calls.new) }
    ensures value { IsTold (C.files calls.old) (C.devices calls.old)
        → IsValueOr (dims_under (C.files calls.old) sizes.now parent) result }
    ensures cause { HasAskCause (C.files calls.old) (C.devices calls.old)
        (C.devices calls.new) result }
{
    match parent {
        Some(at) => match kind_of_node(calls, at) {
            Ok(kind) => dims_of(alloc, calls, kind, at, sizes),
            Err(error) => Err(error),
        },
        None => Ok(None),
    }
}

/// Those of the arrays under a node of a kind.
pub fn dims_of<C: TreeCalls>(
    alloc: Global,
    calls: &mut C,
    kind: LabelKind,
    at: NodeId,
    sizes: &Option<ZoneSizes>,
) -> Result<Option<ArrayDims>, AdfError>
    requires ready { C.is_ready calls.old }
    requires plain { IsTold (C.files calls.old) (C.devices calls.old)
        → IsPlain (C.files calls.old) at }
    ensures ready { C.is_ready calls.new }
    ensures only { OnlyAsks (C.files calls.old) (C.devices calls.old)
        (C.devices calls.new) (C.files calls.new) }
    ensures value { IsTold (C.files calls.old) (C.devices calls.old)
        → IsValueOr (dims_of kind (C.files calls.old) at sizes.now) result }
    ensures cause { HasAskCause (C.files calls.old) (C.devices calls.old)
        (C.devices calls.new) result }
{
    match sizes {
        Some(sizes) => dims_by(alloc, calls, kind, at, sizes),
        None => Ok(None),
    }
}

fn dims_by<C: TreeCalls>(
    alloc: Global,
    calls: &mut C,
    kind: LabelKind,
    at: NodeId,
    sizes: &ZoneSizes,
) -> Result<Option<ArrayDims>, AdfError>
    requires ready { C.is_ready calls.old }
    requires plain { IsTold (C.files calls.old) (C.devices calls.old)
        → IsPlain (C.files calls.old) at }
    ensures ready { C.is_ready calls.new }
    ensures only { OnlyAsks (C.files calls.old) (C.devices calls.old)
        (C.devices calls.new) (C.files calls.new) }
    ensures value { IsTold (C.files calls.old) (C.devices calls.old)
        → IsValueOr (dims_by kind (C.files calls.old) at sizes.now) result }
    ensures cause { HasAskCause (C.files calls.old) (C.devices calls.old)
        (C.devices calls.new) result }
{
    match kind {
        LabelKind::GridCoordinates => coordinate_dims(alloc, calls, at, sizes),
        LabelKind::FlowSolution => field_dims(alloc, calls, at, sizes),
        _ => Ok(None),
    }
}

/// The dimensions of the coordinates in a grid.
fn coordinate_dims<C: TreeCalls>(
    alloc: Global,
    calls: &mut C,
    grid: NodeId,
    sizes: &ZoneSizes,
) -> Result<Option<ArrayDims>, AdfError>
    requires ready { C.is_ready calls.old }
    requires plain { IsTold (C.files calls.old) (C.devices calls.old)
        → IsPlain (C.files calls.old) grid }
    ensures ready { C.is_ready calls.new }
    ensures only { OnlyAsks (C.files calls.old) (C.devices calls.old)
        (C.devices calls.new) (C.files calls.new) }
    ensures value { IsTold (C.files calls.old) (C.devices calls.old)
        → IsValueOr (Some (coordinate_dims (C.files calls.old) grid sizes.now)) result }
    ensures cause { HasAskCause (C.files calls.old) (C.devices calls.old)
        (C.devices calls.new) result }
{
    match rind_there(alloc, calls, sizes.index(), grid) {
        Ok(rind) => with_rind(alloc, sizes.vertex(), rind),
        Err(error) => Err(error),
    }
}

/// The dimensions of the fields in a solution.
fn field_dims<C: TreeCalls>(
    alloc: Global,
    calls: &mut C,
    solution: NodeId,
    sizes: &ZoneSizes,
) -> Result<Option<ArrayDims>, AdfError>
    requires ready { C.is_ready calls.old }
    requires plain { IsTold (C.files calls.old) (C.devices calls.old)
        → IsPlain (C.files calls.old) solution }
    ensures ready { C.is_ready calls.new }
    ensures only { OnlyAsks (C.files calls.old) (C.devices calls.old)
        (C.devices calls.new) (C.files calls.new) }
    ensures value { IsTold (C.files calls.old) (C.devices calls.old)
        → IsValueOr (field_dims (C.files calls.old) solution sizes.now) result }
    ensures cause { HasAskCause (C.files calls.old) (C.devices calls.old)
        (C.devices calls.new) result }
{
    match children_of(alloc, calls, solution) {
        Ok(children) => dims_in(alloc, calls, sizes, children.items()),
        Err(error) => Err(error),
    }
}

/// Those in a solution of these children.
fn dims_in<C: TreeCalls>(
    alloc: Global,
    calls: &mut C,
    sizes: &ZoneSizes,
    children: &[SeenChild],
) -> Result<Option<ArrayDims>, AdfError>
    requires ready { C.is_ready calls.old }
    requires children { IsTold (C.files calls.old) (C.devices calls.old)
        → AllByRecursion (λ child. IsPlain (C.files calls.old) child.target) children.now }
    ensures ready { C.is_ready calls.new }
    ensures only { OnlyAsks (C.files calls.old) (C.devices calls.old)
        (C.devices calls.new) (C.files calls.new) }
    ensures value { IsTold (C.files calls.old) (C.devices calls.old)
        → IsValueOr (dims_in (C.files calls.old) children.now sizes.now) result }
    ensures cause { HasAskCause (C.files calls.old) (C.devices calls.old)
        (C.devices calls.new) result }
{
    match field_place(alloc, calls, children) {
        Ok(FieldPlace::Vertex) => {
            rind_added(alloc, calls, sizes.index(), sizes.vertex(), children)
        }
        Ok(FieldPlace::CellCenter) => {
            rind_added(alloc, calls, sizes.index(), sizes.cell(), children)
        }
        Ok(FieldPlace::Untested) => Ok(None),
        Err(error) => Err(error),
    }
}

/// Sizes with the rind that children tell.
fn rind_added<C: TreeCalls>(
    alloc: Global,
    calls: &mut C,
    index: usize,
    sizes: &[i64],
    children: &[SeenChild],
) -> Result<Option<ArrayDims>, AdfError>
    requires few { index ≤ 3 }
    requires ready { C.is_ready calls.old }
    requires children { IsTold (C.files calls.old) (C.devices calls.old)
        → AllByRecursion (λ child. IsPlain (C.files calls.old) child.target) children.now }
    ensures ready { C.is_ready calls.new }
    ensures only { OnlyAsks (C.files calls.old) (C.devices calls.old)
        (C.devices calls.new) (C.files calls.new) }
    ensures value { IsTold (C.files calls.old) (C.devices calls.old)
        → IsValueOr (Some (with_rind sizes.now (rind_in index (C.files calls.old) children.now)))
        result }
    ensures cause { HasAskCause (C.files calls.old) (C.devices calls.old)
        (C.devices calls.new) result }
{
    match rind_in(alloc, calls, index, children) {
        Ok(rind) => with_rind(alloc, sizes, rind),
        Err(error) => Err(error),
    }
}

fn with_rind(alloc: Global, sizes: &[i64], rind: Numbers) -> Result<Option<ArrayDims>, AdfError>
    ensures value { IfOk result (λ dims. dims ≡ Some (with_rind sizes.now rind)) }
    ensures memory { IfErr result (λ error. error ≡ AdfError.Memory) }
{
    match sizes.to_vec(alloc) {
        Ok(sizes) => Ok(Some(ArrayDims {
            sizes: Numbers::new(sizes),
            rind,
        })),
        Err(_) => Err(AdfError::Memory),
    }
}

/// Which sizes of a zone the arrays in a solution are of.
#[derive(Clone, Copy, Debug, PartialEq, Eq, Drop)]
pub enum FieldPlace {
    Vertex,
    CellCenter,
    /// None that a rule speaks of.
    Untested,
}

/// Which sizes the arrays in a solution of these children are of.
fn field_place<C: TreeCalls>(
    alloc: Global,
    calls: &mut C,
    children: &[SeenChild],
) -> Result<FieldPlace, AdfError>
    requires ready { C.is_ready calls.old }
    requires plain { IsTold (C.files calls.old) (C.devices calls.old)
        → AllByRecursion (λ child. IsPlain (C.files calls.old) child.target) children.now }
    ensures ready { C.is_ready calls.new }
    ensures only { OnlyAsks (C.files calls.old) (C.devices calls.old)
        (C.devices calls.new) (C.files calls.new) }
    ensures value { IsTold (C.files calls.old) (C.devices calls.old)
        → IsValueOr (place_in (C.files calls.old) children.now) result }
    ensures cause { HasAskCause (C.files calls.old) (C.devices calls.old)
        (C.devices calls.new) result }
{
    if first_of(LabelKind::IndexRange, children).is_some() {
        return Ok(FieldPlace::Untested);
    }
    if first_of(LabelKind::IndexArray, children).is_some() {
        return Ok(FieldPlace::Untested);
    }
    place_by(alloc, calls, first_of(LabelKind::GridLocation, children))
}

/// Which sizes the first location in a solution says.
fn place_by<C: TreeCalls>(
    alloc: Global,
    calls: &mut C,
    first: Option<NodeId>,
) -> Result<FieldPlace, AdfError>
    requires ready { C.is_ready calls.old }
    requires plain { IsTold (C.files calls.old) (C.devices calls.old)
        → IfSome first (IsPlain (C.files calls.old)) }
    ensures ready { C.is_ready calls.new }
    ensures only { OnlyAsks (C.files calls.old) (C.devices calls.old)
        (C.devices calls.new) (C.files calls.new) }
    ensures value { IsTold (C.files calls.old) (C.devices calls.old)
        → IsValueOr (place_of_word (text_of_first (C.files calls.old) (codes "Vertex") first))
        result }
    ensures cause { HasAskCause (C.files calls.old) (C.devices calls.old)
        (C.devices calls.new) result }
{
    match first {
        Some(at) => match text_of(alloc, calls, at) {
            Ok(text) => Ok(place_of_word(without_padding(text.items()))),
            Err(error) => Err(error),
        },
        None => Ok(FieldPlace::Vertex),
    }
}

fn place_of_word(word: &[u8]) -> FieldPlace
    ensures { result ≡ place_of_word word.now }
{
    if word == b"Vertex".as_slice() {
        FieldPlace::Vertex
    } else if word == b"CellCenter".as_slice() {
        FieldPlace::CellCenter
    } else {
        FieldPlace::Untested
    }
}
