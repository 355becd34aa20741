//! What is answered of the data of one node.

ghost use Rattle.std.specs.Prelude.{◌≡◌, ◌≢◌, ◌^◌, ◌<◌, ◌≤◌, ◌∷◌, [], ℕ, Some, None, true, false, IsTrue, IfOk, IfErr, OnOk};
ghost use Rattle.adf_format.specs.Names.{data_size, is_lk};
ghost use Rattle.adf_model.specs.declared.error.AdfError.{AdfError};
ghost use Rattle.adf_model.specs.declared.lists.Run.{Run};
ghost use Rattle.adf_model.specs.declared.tree.Query.{Query};
ghost use Rattle.adf_model.specs.Answers.{field_within, IsReplyTo};
ghost use Rattle.adf_model.specs.Shapes.{is_shape};
ghost use Rattle.cg_io.specs.Answers.{AnswersRead, OnlyReads};
ghost use Rattle.disk_ptr.specs.View.{HasOffset};
ghost use Rattle.adf_records.specs.View.{HasOffsets};
ghost use Rattle.tree_edits.specs.Rows.{AreNear, row_of};
ghost use Rattle.tree_asks.specs.Told.{Tells};
ghost use Rattle.tree_asks.specs.Headers.{dims_of, data_shape_of};
ghost use Rattle.tree_asks.specs.Causes.{IsDataCause, IsShapeRefusal};

use crate::fields::size_in;
use crate::headers::header_of;
use adf_data::{DataPlace, read_runs};
use adf_format::fields::NODE_RANK;
use adf_model::{
    AdfError, Listing, NodeId, Reply, Run, Runs, Selection, Shape, element_size, is_wide_shape,
};
use adf_records::{NodeHeader, dimensions_of};
use cg_io::Space;
use std::alloc::Global;
use strided::runs;
use tree_edits::{Core, Row};

/// The most bytes of data that are read.
const MOST_BYTES: u64 = 1 << 30;

/// Where the data of a node stand.
pub(crate) fn data_place(header: &NodeHeader) -> DataPlace
    requires { HasOffsets header.now }
    ensures place { result ≡ record { count = header.now.chunks; pointer = header.now.chunk } }
    ensures offset { HasOffset result.pointer }
{
    DataPlace {
        count: header.chunks,
        pointer: header.chunk,
    }
}

/// All of so many elements, as one run.
pub(crate) fn one_run(alloc: Global, count: u64) -> Result<Runs, AdfError>
    ensures run { IfOk result (λ runs. runs ≡ record { first = 0; count = count } ∷ []) }
    ensures memory { IfErr result (λ e. e ≡ AdfError.Memory) }
{
    let mut runs = Vec::new(alloc);
    match runs.push(Run { first: 0, count }) {
        Ok(()) => Ok(Listing::new(runs)),
        Err(_) => Err(AdfError::Memory),
    }
}

// The shape of the data, where there are data and they may be read.
fn data_shape(header: &NodeHeader, place: u64) -> Result<Shape, AdfError>
    requires near { place ≤ 2 ^ 44 }
    ensures shape { IfOk result (λ shape. shape ≡ data_shape_of header.now) }
    ensures some { OnOk result (header.now.chunks ≢ 0) }
    ensures short { OnOk result (data_size header.now.kind (dims_of header.now) ≤ 2 ^ 30) }
    ensures good { OnOk result (IsTrue (is_shape true (data_shape_of header.now))) }
    ensures cause { IfErr result (IsShapeRefusal header.now place) }
{
    if header.chunks == 0 {
        return Err(AdfError::NoData);
    }
    if size_in(header) > MOST_BYTES {
        return Err(AdfError::TooLarge);
    }
    let shape = Shape {
        kind: header.kind,
        rank: header.rank,
        dims: dimensions_of(header),
    };
    if !is_wide_shape(&shape) {
        return Err(AdfError::Layout {
            rule: 21,
            place: place + NODE_RANK.offset as u64,
        });
    }
    Ok(shape)
}

/// The bytes of the data of a node.
pub(crate) fn all_of<S: Space>(
    alloc: Global,
    space: &mut S,
    core: &Core,
    at: NodeId,
    row: Row,
) -> Result<Reply, AdfError>
    requires sound { S.is_sound space.old }
    requires near { AreNear core.now.wide core.now.rows.items }
    requires row { row_of core.now.rows.items at.serial ≡ Some row }
    ensures told { Tells core.now (S.image space.old)
        (λ tree. field_within tree at (Query.ReadAll at)) result }
    ensures kind { IfOk result (IsReplyTo (Query.ReadAll at)) }
    ensures reads { AnswersRead S.is_sound S.image S.state S.waiting OnlyReads
        (IsDataCause core.now None (S.image space.old) row.place) space.old space.new result }
{
    let header = match header_of(space, core, at.serial, row) {
        Ok(header) => header,
        Err(error) => return Err(error),
    };
    match data_shape(&header, row.place) {
        Ok(_) => {}
        Err(error) => return Err(error),
    }
    let runs = match one_run(alloc, size_in(&header)) {
        Ok(runs) => runs,
        Err(error) => return Err(error),
    };
    match read_runs(alloc, space, &data_place(&header), 1, &runs) {
        Ok(bytes) => Ok(Reply::Bytes(bytes)),
        Err(error) => Err(error),
    }
}

/// The bytes of the elements that a selection names of the data of a node.
pub(crate) fn part_of<S: Space>(
    alloc: Global,
    space: &mut S,
    core: &Core,
    at: NodeId,
    row: Row,
    selection: &Selection,
) -> Result<Reply, AdfError>
    requires sound { S.is_sound space.old }
    requires near { AreNear core.now.wide core.now.rows.items }
    requires row { row_of core.now.rows.items at.serial ≡ Some row }
    ensures told { Tells core.now (S.image space.old)
        (λ tree. field_within tree at (Query.ReadPart at selection.now)) result }
    ensures kind { IfOk result (IsReplyTo (Query.ReadPart at selection.now)) }
    ensures reads { AnswersRead S.is_sound S.image S.state S.waiting OnlyReads
        (IsDataCause core.now (Some selection.now) (S.image space.old) row.place) space.old space.new
        result }
{
    let header = match header_of(space, core, at.serial, row) {
        Ok(header) => header,
        Err(error) => return Err(error),
    };
    let shape = match data_shape(&header, row.place) {
        Ok(shape) => shape,
        Err(error) => return Err(error),
    };
    let runs = match runs(alloc, &shape, selection) {
        Ok(runs) => runs,
        Err(error) => return Err(error),
    };
    match read_runs(
        alloc,
        space,
        &data_place(&header),
        element_size(shape.kind),
        &runs,
    ) {
        Ok(bytes) => Ok(Reply::Bytes(bytes)),
        Err(error) => Err(error),
    }
}
