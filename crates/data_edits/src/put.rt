//! The data of a node: all of them, or the elements that a selection names.

ghost use Rattle.std.specs.Prelude.{◌≡◌, ◌≢◌, ◌+◌, ◌*◌, ◌^◌, ◌≤◌, true, false, length, IfErr, IfOk, IfSome, IsTrue, OnOk};
ghost use Rattle.adf_format.specs.Names.{data_size, is_mt};
ghost use Rattle.adf_format.specs.Placement.{Placement};
ghost use Rattle.adf_format.specs.RecordFields.{node_length};
ghost use Rattle.adf_format.specs.Tree.{Tree};
ghost use Rattle.adf_model.specs.declared.error.AdfError.{AdfError};
ghost use Rattle.adf_model.specs.declared.tree.Edit.{Edit};
ghost use Rattle.adf_model.specs.Shapes.{is_shape};
ghost use Rattle.adf_records.specs.View.{HasOffsets};
ghost use Rattle.cg_io.specs.Answers.{AnswersRead, OnlyReads};
ghost use Rattle.cg_io.specs.Blocks.{Both, ReadsFew};
ghost use Rattle.file_heap.specs.Heap.{IsHeap};
ghost use Rattle.strided.specs.RunLists.{spread};
ghost use Rattle.tree_asks.specs.Headers.{dims_of, data_shape_of};
ghost use Rattle.tree_edits.specs.Rows.{AreNear, Means};
ghost use Rattle.tree_edits.specs.Edits.{Does, Refuses, KeepsCore, memory_of};
ghost use Rattle.tree_edits.specs.Waiting.{Reaches};
ghost use Rattle.data_edits.specs.Found.{WaitsAtMost};
ghost use Rattle.data_edits.specs.Puts.{IsDataRefusal, IsDataCause, IsPutCause, MayPut, MayPutData, Part, RefusesPuts, WaitsToPut};

use crate::fields::write_chunks;
use crate::found::{Found, find_node};
use crate::placing::{place_part, place_whole};
use crate::shape::{is_empty, size_in};
use adf_format::fields::NODE_RANK;
use adf_model::{AdfError, NodeId, Run, Selection, Shape, element_size, is_wide_shape, size};
use adf_records::{NodeHeader, dimensions_of};
use cg_io::{ReadBytes, Space};
use std::alloc::Global;
use strided::runs;
use tree_edits::Core;

/// The most bytes of data that are put.
const MOST_BYTES: u64 = 1 << 30;

// A node that may have data, and their shape.
#[derive(Clone, Copy)]
struct DataNode {
    found: Found,
    shape: Shape,
}

// The shape of the data of a node, where it may have data, and they are not too large.
fn shape_to_put(header: &NodeHeader, place: u64) -> Result<Shape, AdfError>
    requires near { place ≤ 2 ^ 44 }
    ensures shape { IfOk result (λ shape. shape ≡ data_shape_of header.now) }
    ensures filled { OnOk result (is_mt header.now.kind ≡ false) }
    ensures small { OnOk result (data_size header.now.kind (dims_of header.now) ≤ 2 ^ 30) }
    ensures good { OnOk result (IsTrue (is_shape true (data_shape_of header.now))) }
    ensures refused { IfErr result (IsDataRefusal header.now place) }
{
    if is_empty(header.kind) {
        return Err(AdfError::NoData);
    }
    if size_in(header) > MOST_BYTES {
        return Err(AdfError::TooLarge);
    }
    let shape = Shape {
        kind: header.kind,
        rank: header.rank,
        dims: dimensions_of(header),
    };
    if !is_wide_shape(&shape) {
        return Err(AdfError::Layout {
            rule: 21,
            place: place + NODE_RANK.offset as u64,
        });
    }
    Ok(shape)
}

// The node that an edit names, where it may have data. By one read.
fn find_data<R: ReadBytes>(bytes: &mut R, core: &Core, node: NodeId) -> Result<DataNode, AdfError>
    requires sound { R.is_sound bytes.old }
    requires near { AreNear core.now.wide core.now.rows.items }
    ensures may { IfOk result (λ d.
        MayPut core.now node (R.image bytes.old) d.found.row d.found.header) }
    ensures shape { IfOk result (λ d. d.shape ≡ data_shape_of d.found.header) }
    ensures good { IfOk result (λ d. IsTrue (is_shape true (data_shape_of d.found.header))) }
    ensures offsets { IfOk result (λ d. HasOffsets d.found.header) }
    ensures near { IfOk result (λ d. d.found.row.place + node_length core.now.wide ≤ 2 ^ 44) }
    ensures refused { IfErr result (λ e. IfSome (R.image bytes.old)
        (RefusesPuts core.now node e)) }
    ensures reads { AnswersRead R.is_sound R.image R.state R.waiting (ReadsFew 2)
        (IsDataCause core.now node (R.image bytes.old)) bytes.old bytes.new result }
{
    let found = match find_node(bytes, core, node) {
        Ok(found) => found,
        Err(error) => return Err(error),
    };
    match shape_to_put(&found.header, found.row.place) {
        Ok(shape) => Ok(DataNode { found, shape }),
        Err(error) => Err(error),
    }
}

// How many bytes the elements of some runs have.
fn bytes_in(runs: &[Run], element: u64) -> u64
    requires { element * length (spread runs.now) ≤ 2 ^ 30 }
    ensures { result ≡ element * length (spread runs.now) }
{
    let mut total = 0;
    for i in 0..runs.len() {
        total += element * runs[i].count;
    }
    total
}

// Whether as many bytes are given as are wanted.
fn check_length(want: u64, bytes: &[u8]) -> Result<(), AdfError>
    ensures same { OnOk result (length bytes.now ≡ want) }
    ensures refused { IfErr result (λ e. (e ≡ AdfError.WrongLength want (length bytes.now))
        × (length bytes.now ≢ want)) }
{
    let got = bytes.len() as u64;
    if got == want {
        return Ok(());
    }
    Err(AdfError::WrongLength { want, got })
}

/// Gives a node all its data.
pub fn put_all<S: Space>(
    alloc: Global,
    space: &mut S,
    core: &mut Core,
    node: NodeId,
    bytes: &[u8],
) -> Result<(), AdfError>
    requires sound { S.is_sound space.old }
    requires near { AreNear core.old.wide core.old.rows.items }
    requires means { IfSome (S.image space.old)
        (λ bytes. (tree : Tree) × (p : Placement) × Means bytes tree p (memory_of core.old)) }
    ensures done { OnOk result (Both (Does (Edit.PutAll node bytes.now) core.old core.new)
        (S.image space.old) (S.image space.new)) }
    ensures reached { OnOk result (IfSome (S.image space.old) (Reaches
        (Edit.PutAll node bytes.now) core.old core.new (S.waiting space.old)
        (S.waiting space.new))) }
    ensures allowed { OnOk result (MayPutData core.old node Part.Whole bytes.now
        (S.image space.old)) }
    ensures refused { IfErr result (λ e. IfSome (S.image space.old)
        (Refuses (Edit.PutAll node bytes.now) core.old e)) }
    ensures kept { KeepsCore core.old core.new }
    ensures near { AreNear core.new.wide core.new.rows.items }
    ensures heap { IsHeap core.new.heap.work.heap }
    ensures sound { S.is_sound space.new }
    ensures effect { OnlyReads (S.state space.old) (S.state space.new) }
    ensures waits { OnOk result (WaitsToPut core.old node Part.Whole bytes.now (S.image space.old)
        (S.waiting space.old) (S.waiting space.new)) }
    ensures costs { OnOk result (IfSome (S.image space.old) (WaitsAtMost
        (Edit.PutAll node bytes.now) core.old (S.waiting space.old) (S.waiting space.new))) }
    ensures cause { IfErr result (IsPutCause core.old node Part.Whole bytes.now
        (S.image space.old) (S.state space.old).faults (S.state space.new).faults) }
{
    core.heap.is_heap();
    let data = match find_data(space, core, node) {
        Ok(data) => data,
        Err(error) => return Err(error),
    };
    match check_length(size(&data.shape), bytes) {
        Ok(()) => {}
        Err(error) => return Err(error),
    }
    let at = match place_whole(alloc, space, &mut core.heap, &data.found.header, bytes) {
        Ok(at) => at,
        Err(error) => return Err(error),
    };
    write_chunks(space, data.found.row.place, core.wide, at)
}

/// Gives a node the elements of its data that a selection names, over zeros where it has no data.
pub fn put_part<S: Space>(
    alloc: Global,
    space: &mut S,
    core: &mut Core,
    node: NodeId,
    selection: &Selection,
    bytes: &[u8],
) -> Result<(), AdfError>
    requires sound { S.is_sound space.old }
    requires near { AreNear core.old.wide core.old.rows.items }
    requires means { IfSome (S.image space.old)
        (λ bytes. (tree : Tree) × (p : Placement) × Means bytes tree p (memory_of core.old)) }
    ensures done { OnOk result (Both (Does (Edit.PutPart node selection.now bytes.now)
        core.old core.new) (S.image space.old) (S.image space.new)) }
    ensures reached { OnOk result (IfSome (S.image space.old) (Reaches
        (Edit.PutPart node selection.now bytes.now) core.old core.new (S.waiting space.old)
        (S.waiting space.new))) }
    ensures allowed { OnOk result (MayPutData core.old node (Part.Chosen selection.now) bytes.now
        (S.image space.old)) }
    ensures refused { IfErr result (λ e. IfSome (S.image space.old)
        (Refuses (Edit.PutPart node selection.now bytes.now) core.old e)) }
    ensures kept { KeepsCore core.old core.new }
    ensures near { AreNear core.new.wide core.new.rows.items }
    ensures heap { IsHeap core.new.heap.work.heap }
    ensures sound { S.is_sound space.new }
    ensures effect { OnlyReads (S.state space.old) (S.state space.new) }
    ensures waits { OnOk result (WaitsToPut core.old node (Part.Chosen selection.now) bytes.now
        (S.image space.old) (S.waiting space.old) (S.waiting space.new)) }
    ensures costs { OnOk result (IfSome (S.image space.old) (WaitsAtMost
        (Edit.PutPart node selection.now bytes.now) core.old
        (S.waiting space.old) (S.waiting space.new))) }
    ensures cause { IfErr result (IsPutCause core.old node (Part.Chosen selection.now) bytes.now
        (S.image space.old) (S.state space.old).faults (S.state space.new).faults) }
{
    core.heap.is_heap();
    let data = match find_data(space, core, node) {
        Ok(data) => data,
        Err(error) => return Err(error),
    };
    let chosen = match runs(alloc, &data.shape, selection) {
        Ok(runs) => runs,
        Err(error) => return Err(error),
    };
    let element = element_size(data.shape.kind);
    match check_length(bytes_in(chosen.items(), element), bytes) {
        Ok(()) => {}
        Err(error) => return Err(error),
    }
    let size = size(&data.shape);
    let heap = &mut core.heap;
    let header = &data.found.header;
    let at = match place_part(alloc, space, heap, header, size, element, &chosen, bytes) {
        Ok(at) => at,
        Err(error) => return Err(error),
    };
    write_chunks(space, data.found.row.place, core.wide, at)
}
