//! The shape of a node.

ghost use Rattle.std.specs.Prelude.{◌≡◌, ◌+◌, ◌*◌, ◌^◌, ◌<◌, ◌≤◌, ◌-◌, min, ℕ, List, Option, true, false, Err, IfErr, IfOk, IfSome, OnOk};
ghost use Rattle.adf_format.specs.Names.{is_mt, is_same_type, data_size};
ghost use Rattle.adf_format.specs.Placement.{Placement, NodeParts};
ghost use Rattle.adf_format.specs.Tree.{Tree};
ghost use Rattle.adf_model.specs.declared.error.AdfError.{AdfError};
ghost use Rattle.adf_model.specs.declared.tree.Edit.{Edit};
ghost use Rattle.adf_records.specs.View.{HasOffsets};
ghost use Rattle.cg_io.specs.Answers.{OnlyReads, IsRefusal};
ghost use Rattle.cg_io.specs.Blocks.{Both};
ghost use Rattle.cg_io.specs.Waits.{how_many};
ghost use Rattle.disk_ptr.specs.View.{HasOffset};
ghost use Rattle.file_heap.specs.Heap.{IsHeap, IsThreaded};
ghost use Rattle.tree_asks.specs.Headers.{dims_of};
ghost use Rattle.tree_edits.specs.Rows.{AreNear, Means};
ghost use Rattle.tree_edits.specs.Edits.{Does, Refuses, KeepsCore, memory_of};
ghost use Rattle.tree_edits.specs.Taken.{KeepsHeap, IsRoomless};
ghost use Rattle.tree_edits.specs.Waiting.{Reaches};
ghost use Rattle.data_edits.specs.Becomes.{BecomeBy, NoneOwned, Owned, WaitBy, spot_after};
ghost use Rattle.data_edits.specs.Found.{WaitsAtMost};
ghost use Rattle.data_edits.specs.Shaped.{IsShapeRefusal, IsShapeCause, LacksSize, MaySetDims, is_good, is_too_large, keeps, reshaped, shape_cost, size_of_shape, WaitsForShape};
ghost use Rattle.adf_model.specs.declared.tree.Shape.{Shape};

use crate::fields::{write_chunks, write_shape};
use crate::found::{Found, find_node};
use adf_data::{DataPlace, release, resize};
use adf_format::DataType;
use adf_format::fields::node_chunks;
use adf_model::{AdfError, NodeId, Shape, is_shape, is_wide_shape, size};
use adf_records::{NodeHeader, dimensions_of};
use cg_io::Space;
use file_heap::Heap;
use std::alloc::Global;
use tree_edits::Core;

/// The most bytes of data that an edit gives a size.
const MOST_BYTES: u64 = 1 << 30;

// Whether two types are the same.
fn is_same_type(one: DataType, other: DataType) -> bool
    ensures { result ≡ is_same_type one other }
{
    one == other
}

/// Whether a type is that of no data.
pub(crate) fn is_empty(kind: DataType) -> bool
    ensures { result ≡ is_mt kind }
{
    matches!(kind, DataType::Mt)
}

// Whether the data of a node stay when it gets a shape.
fn keeps(header: &NodeHeader, shape: &Shape) -> bool
    ensures { result ≡ keeps header.now shape.now }
{
    is_same_type(header.kind, shape.kind) && header.rank == shape.rank && header.chunks != 0
}

// Whether a shape is one of a node that is no link.
fn is_good(wide: bool, shape: &Shape) -> bool
    ensures { result ≡ is_good wide shape.now }
{
    let good = if wide {
        is_wide_shape(shape)
    } else {
        is_shape(shape)
    };
    good && !matches!(shape.kind, DataType::Lk)
}

// Whether data of a shape are too large: in a wide file only where they stay.
fn is_too_large(wide: bool, header: &NodeHeader, shape: &Shape) -> bool
    ensures { result ≡ is_too_large wide header.now shape.now }
{
    size(shape) > MOST_BYTES && (!wide || keeps(header, shape))
}

// Whether a node may get a shape.
fn check_shape(wide: bool, header: &NodeHeader, shape: &Shape) -> Result<(), AdfError>
    ensures good { OnOk result (is_good wide shape.now ≡ true) }
    ensures small { OnOk result (is_too_large wide header.now shape.now ≡ false) }
    ensures refused { IfErr result (IsShapeRefusal wide header.now shape.now) }
{
    if !is_good(wide, shape) {
        return Err(AdfError::BadShape);
    }
    if is_too_large(wide, header, shape) {
        return Err(AdfError::TooLarge);
    }
    Ok(())
}

/// The bytes of a node's data, at most 2^64 - 1.
pub(crate) fn size_in(header: &NodeHeader) -> u64
    ensures { result ≡ min (data_size header.now.kind (dims_of header.now)) (2 ^ 64 - 1) }
{
    size(&Shape {
        kind: header.kind,
        rank: header.rank,
        dims: dimensions_of(header),
    })
}

// Gives back the data of a node, for a shape with which they do not stay.
fn release_data<S: Space>(
    alloc: Global,
    space: &mut S,
    heap: &mut Heap,
    header: &NodeHeader,
) -> Result<DataPlace, AdfError>
    requires sound { S.is_sound space.old }
    requires offsets { HasOffsets header.now }
    requires heap { IsHeap heap.old.work.heap }
    requires threads { IfSome (S.image space.old) (IsThreaded heap.old.work) }
    ensures sound { S.is_sound space.new }
    ensures heap { IsHeap heap.new.work.heap }
    ensures becomes { IfOk result (λ now. (shape : Shape) → keeps header.now shape ≡ false
        → Both (BecomeBy heap.old.limit (reshaped header.now shape) header.now now
        heap.old.work.heap heap.new.work) (S.image space.old) (S.image space.new)) }
    ensures offset { IfOk result (λ now. HasOffset now.pointer) }
    ensures kept { KeepsHeap heap.old heap.new }
    ensures effect { OnlyReads (S.state space.old) (S.state space.new) }
    ensures only { OnOk result (WaitBy header.now heap.old.work.heap heap.new.work.heap
        (S.image space.old) (S.waiting space.old) (S.waiting space.new)) }
    ensures waits { how_many (S.waiting space.new)
        ≤ how_many (S.waiting space.old) + 12 * (header.now.chunks + 1) }
    ensures cause { IfErr result (IsRefusal
        (NoneOwned header.now heap.old.work.heap (S.image space.old)) (S.state space.old).faults
        (S.state space.new).faults) }
{
    let mut at = DataPlace {
        count: header.chunks,
        pointer: header.chunk,
    };
    match release(alloc, heap, space, &mut at) {
        Ok(()) => Ok(at),
        Err(error) => Err(error),
    }
}

// Fills the data of a node up with zeros to the size of a longer shape, or leaves them, of which those of a shorter one are the
// first. They stand here then.
fn resize_data<S: Space>(
    alloc: Global,
    space: &mut S,
    heap: &mut Heap,
    header: &NodeHeader,
    shape: &Shape,
) -> Result<DataPlace, AdfError>
    requires sound { S.is_sound space.old }
    requires offsets { HasOffsets header.now }
    requires stay { keeps header.now shape.now ≡ true }
    requires some { 1 ≤ size_of_shape shape.now }
    requires small { size_of_shape shape.now ≤ 2 ^ 30 }
    requires heap { IsHeap heap.old.work.heap }
    requires threads { IfSome (S.image space.old) (IsThreaded heap.old.work) }
    ensures sound { S.is_sound space.new }
    ensures heap { IsHeap heap.new.work.heap }
    ensures becomes { IfOk result (λ now. Both (BecomeBy heap.old.limit
        (reshaped header.now shape.now) header.now now heap.old.work.heap heap.new.work)
        (S.image space.old) (S.image space.new)) }
    ensures offset { IfOk result (λ now. HasOffset now.pointer) }
    ensures kept { KeepsHeap heap.old heap.new }
    ensures exact { (asked end : ℕ) → result ≡ Err (AdfError.Full asked end)
        → (parts : NodeParts) (bytes : Option (List ℕ))
        → Owned header.now parts bytes heap.old.work.heap (S.image space.old)
        → spot_after heap.old.limit (reshaped header.now shape.now bytes)
        (parts, heap.old.work.heap) ≡ Err (record { asked = asked; end = end }) }
    ensures effect { OnlyReads (S.state space.old) (S.state space.new) }
    ensures only { OnOk result (WaitBy header.now heap.old.work.heap heap.new.work.heap
        (S.image space.old) (S.waiting space.old) (S.waiting space.new)) }
    ensures waits { OnOk result (how_many (S.waiting space.new) + 4
        ≤ how_many (S.waiting space.old) + shape_cost header.now shape.now) }
    ensures cause { IfErr result (IsRoomless
        (LacksSize heap.old.limit header.now shape.now heap.old.work.heap)
        (NoneOwned header.now heap.old.work.heap (S.image space.old)) (S.state space.old).faults
        (S.state space.new).faults) }
{
    let mut at = DataPlace {
        count: header.chunks,
        pointer: header.chunk,
    };
    let new = size(shape);
    let old = size_in(header);
    if new <= old {
        return Ok(at);
    }
    match resize(alloc, heap, space, &mut at, old, new) {
        Ok(()) => Ok(at),
        Err(error) => Err(error),
    }
}

// What becomes of the data of a node that gets a shape. They stand here then.
fn reshape<S: Space>(
    alloc: Global,
    space: &mut S,
    heap: &mut Heap,
    wide: bool,
    found: &Found,
    shape: &Shape,
) -> Result<DataPlace, AdfError>
    requires sound { S.is_sound space.old }
    requires offsets { HasOffsets found.now.header }
    requires near { found.now.row.place ≤ 2 ^ 44 }
    requires good { is_good wide shape.now ≡ true }
    requires small { is_too_large wide found.now.header shape.now ≡ false }
    requires heap { IsHeap heap.old.work.heap }
    requires threads { IfSome (S.image space.old) (IsThreaded heap.old.work) }
    ensures sound { S.is_sound space.new }
    ensures heap { IsHeap heap.new.work.heap }
    ensures becomes { IfOk result (λ now. Both (BecomeBy heap.old.limit
        (reshaped found.now.header shape.now) found.now.header now heap.old.work.heap
        heap.new.work) (S.image space.old) (S.image space.new)) }
    ensures offset { IfOk result (λ now. HasOffset now.pointer) }
    ensures kept { KeepsHeap heap.old heap.new }
    ensures exact { (asked end : ℕ) → result ≡ Err (AdfError.Full asked end)
        → (parts : NodeParts) (bytes : Option (List ℕ))
        → Owned found.now.header parts bytes heap.old.work.heap (S.image space.old)
        → spot_after heap.old.limit (reshaped found.now.header shape.now bytes)
        (parts, heap.old.work.heap) ≡ Err (record { asked = asked; end = end }) }
    ensures effect { OnlyReads (S.state space.old) (S.state space.new) }
    ensures only { OnOk result (WaitBy found.now.header heap.old.work.heap heap.new.work.heap
        (S.image space.old) (S.waiting space.old) (S.waiting space.new)) }
    ensures waits { OnOk result (how_many (S.waiting space.new) + 4
        ≤ how_many (S.waiting space.old) + shape_cost found.now.header shape.now) }
    ensures cause { IfErr result (IsRoomless
        (LacksSize heap.old.limit found.now.header shape.now heap.old.work.heap)
        (NoneOwned found.now.header heap.old.work.heap (S.image space.old))
        (S.state space.old).faults (S.state space.new).faults) }
{
    let header = &found.header;
    if !keeps(header, shape) {
        return release_data(alloc, space, heap, header);
    }
    if is_empty(header.kind) {
        return Err(AdfError::Layout {
            rule: 27,
            place: found.row.place + node_chunks(wide).offset as u64,
        });
    }
    resize_data(alloc, space, heap, header, shape)
}

/// Gives a node another type and dimensions. Where it has data and type and rank stay, as many of their first bytes as both
/// have stay, and zeros follow; else it has no data afterwards.
pub fn set_dims<S: Space>(
    alloc: Global,
    space: &mut S,
    core: &mut Core,
    node: NodeId,
    shape: &Shape,
) -> Result<(), AdfError>
    requires sound { S.is_sound space.old }
    requires near { AreNear core.old.wide core.old.rows.items }
    requires means { IfSome (S.image space.old)
        (λ bytes. (tree : Tree) × (p : Placement) × Means bytes tree p (memory_of core.old)) }
    ensures done { OnOk result (Both (Does (Edit.SetDims node shape.now) core.old core.new)
        (S.image space.old) (S.image space.new)) }
    ensures reached { OnOk result (IfSome (S.image space.old) (Reaches
        (Edit.SetDims node shape.now) core.old core.new (S.waiting space.old)
        (S.waiting space.new))) }
    ensures allowed { OnOk result (MaySetDims core.old node shape.now (S.image space.old)) }
    ensures refused { IfErr result (λ e. IfSome (S.image space.old)
        (Refuses (Edit.SetDims node shape.now) core.old e)) }
    ensures kept { KeepsCore core.old core.new }
    ensures near { AreNear core.new.wide core.new.rows.items }
    ensures heap { IsHeap core.new.heap.work.heap }
    ensures sound { S.is_sound space.new }
    ensures effect { OnlyReads (S.state space.old) (S.state space.new) }
    ensures waits { OnOk result (WaitsForShape core.old node shape.now (S.image space.old)
        (S.waiting space.old) (S.waiting space.new)) }
    ensures costs { OnOk result (IfSome (S.image space.old) (WaitsAtMost
        (Edit.SetDims node shape.now) core.old (S.waiting space.old) (S.waiting space.new))) }
    ensures cause { IfErr result (IsShapeCause core.old node shape.now (S.image space.old)
        (S.state space.old).faults (S.state space.new).faults) }
{
    core.heap.is_heap();
    let found = match find_node(space, core, node) {
        Ok(found) => found,
        Err(error) => return Err(error),
    };
    let wide = core.wide;
    match check_shape(wide, &found.header, shape) {
        Ok(()) => {}
        Err(error) => return Err(error),
    }
    let at = match reshape(alloc, space, &mut core.heap, wide, &found, shape) {
        Ok(at) => at,
        Err(error) => return Err(error),
    };
    match write_shape(space, found.row.place, wide, shape) {
        Ok(()) => {}
        Err(error) => return Err(error),
    }
    write_chunks(space, found.row.place, wide, at)
}
