//! What is answered of the header of one node.

ghost use Rattle.std.specs.Prelude.{◌≡◌, ◌≤◌, Some, None, true, false, IfOk, IfErr};
ghost use Rattle.adf_format.specs.RecordFields.{node_length};
ghost use Rattle.adf_model.specs.declared.tree.Query.{Query};
ghost use Rattle.adf_model.specs.Answers.{field_within, IsReplyTo};
ghost use Rattle.adf_records.specs.View.{HasOffsets};
ghost use Rattle.cg_io.specs.Answers.{AnswersRead};
ghost use Rattle.cg_io.specs.Blocks.{ReadsFew};
ghost use Rattle.node_reads.specs.Reads.{ReadAt, IsUnread};
ghost use Rattle.node_reads.specs.Headers.{IsHeader};
ghost use Rattle.tree_edits.specs.Causes.{HeaderBreaks};
ghost use Rattle.tree_edits.specs.Rows.{AreNear, row_of};
ghost use Rattle.tree_asks.specs.Told.{OfEach, Tells, IsFree};
ghost use Rattle.tree_asks.specs.Headers.{IsItsHeader};
ghost use Rattle.tree_asks.specs.Causes.{IsHeaderCause};

use crate::fields::{shape_in, text_in};
use adf_model::{AdfError, NodeId, Reply};
use adf_records::NodeHeader;
use cg_io::ReadBytes;
use node_reads::read_header;
use std::alloc::Global;
use tree_edits::{Core, Row};

/// The header of the node of a serial, which has this row. By one read.
pub(crate) fn header_of<R: ReadBytes>(
    bytes: &mut R,
    core: &Core,
    serial: u64,
    row: Row,
) -> Result<NodeHeader, AdfError>
    requires sound { R.is_sound bytes.old }
    requires near { AreNear core.now.wide core.now.rows.items }
    requires row { row_of core.now.rows.items serial ≡ Some row }
    ensures its { IfOk result (λ h. OfEach core.now (R.image bytes.old)
        (λ image tree p. IsItsHeader image tree p serial row.place h)) }
    ensures read { IfOk result (λ h. ReadAt (R.image bytes.old) row.place
        (node_length core.now.wide) (IsHeader core.now.wide row.place None h)) }
    ensures offsets { IfOk result HasOffsets }
    ensures small { IfOk result (λ h. h.rank ≤ 12) }
    ensures free { IfErr result (λ e. OfEach core.now (R.image bytes.old)
        (λ image tree p. IsFree e)) }
    ensures reads { AnswersRead R.is_sound R.image R.state R.waiting (ReadsFew 2)
        (IsUnread (HeaderBreaks core.now.wide (R.image bytes.old) row.place)) bytes.old bytes.new
        result }
{
    read_header(bytes, core.wide, row.place)
}

/// The name of a node.
pub(crate) fn name_of<R: ReadBytes>(
    alloc: Global,
    bytes: &mut R,
    core: &Core,
    at: NodeId,
    row: Row,
) -> Result<Reply, AdfError>
    requires sound { R.is_sound bytes.old }
    requires near { AreNear core.now.wide core.now.rows.items }
    requires row { row_of core.now.rows.items at.serial ≡ Some row }
    ensures told { Tells core.now (R.image bytes.old)
        (λ tree. field_within tree at (Query.Name at)) result }
    ensures kind { IfOk result (IsReplyTo (Query.Name at)) }
    ensures reads { AnswersRead R.is_sound R.image R.state R.waiting (ReadsFew 2)
        (IsHeaderCause true core.now.wide (R.image bytes.old) row.place) bytes.old bytes.new
        result }
{
    let header = match header_of(bytes, core, at.serial, row) {
        Ok(header) => header,
        Err(error) => return Err(error),
    };
    match text_in(alloc, &header.name) {
        Ok(name) => Ok(Reply::Bytes(name)),
        Err(error) => Err(error),
    }
}

/// The label of a node.
pub(crate) fn label_of<R: ReadBytes>(
    alloc: Global,
    bytes: &mut R,
    core: &Core,
    at: NodeId,
    row: Row,
) -> Result<Reply, AdfError>
    requires sound { R.is_sound bytes.old }
    requires near { AreNear core.now.wide core.now.rows.items }
    requires row { row_of core.now.rows.items at.serial ≡ Some row }
    ensures told { Tells core.now (R.image bytes.old)
        (λ tree. field_within tree at (Query.LabelOf at)) result }
    ensures kind { IfOk result (IsReplyTo (Query.LabelOf at)) }
    ensures reads { AnswersRead R.is_sound R.image R.state R.waiting (ReadsFew 2)
        (IsHeaderCause true core.now.wide (R.image bytes.old) row.place) bytes.old bytes.new
        result }
{
    let header = match header_of(bytes, core, at.serial, row) {
        Ok(header) => header,
        Err(error) => return Err(error),
    };
    match text_in(alloc, &header.label) {
        Ok(label) => Ok(Reply::Bytes(label)),
        Err(error) => Err(error),
    }
}

/// The type and the dimensions of a node.
pub(crate) fn shape_of<R: ReadBytes>(
    bytes: &mut R,
    core: &Core,
    at: NodeId,
    row: Row,
) -> Result<Reply, AdfError>
    requires sound { R.is_sound bytes.old }
    requires near { AreNear core.now.wide core.now.rows.items }
    requires row { row_of core.now.rows.items at.serial ≡ Some row }
    ensures told { Tells core.now (R.image bytes.old)
        (λ tree. field_within tree at (Query.ShapeOf at)) result }
    ensures kind { IfOk result (IsReplyTo (Query.ShapeOf at)) }
    ensures reads { AnswersRead R.is_sound R.image R.state R.waiting (ReadsFew 2)
        (IsHeaderCause false core.now.wide (R.image bytes.old) row.place) bytes.old bytes.new
        result }
{
    match header_of(bytes, core, at.serial, row) {
        Ok(header) => Ok(Reply::Shape(shape_in(&header))),
        Err(error) => Err(error),
    }
}
