//! The texts of links.

ghost use Rattle.std.specs.Prelude.{◌≡◌, ◌≤◌, ◌+◌, ◌^◌, Some, None, Ok, true, IfOk, IfErr};
ghost use Rattle.adf_format.specs.Names.{is_lk};
ghost use Rattle.adf_format.specs.RecordFields.{node_length};
ghost use Rattle.adf_format.specs.Tree.{node_at};
ghost use Rattle.adf_model.specs.declared.tree.Query.{Query};
ghost use Rattle.adf_model.specs.Answers.{field_within, text_reply, IsReplyTo};
ghost use Rattle.adf_model.specs.Follow.{text_in};
ghost use Rattle.adf_records.specs.View.{HasOffsets};
ghost use Rattle.cg_io.specs.Answers.{AnswersRead, OnlyReads};
ghost use Rattle.node_reads.specs.Reads.{ReadAt};
ghost use Rattle.node_reads.specs.Headers.{IsHeader};
ghost use Rattle.tree_edits.specs.Rows.{AreNear, row_of};
ghost use Rattle.tree_asks.specs.Told.{OfEach, Tells, map_ok};
ghost use Rattle.tree_asks.specs.Headers.{IsItsHeader};
ghost use Rattle.tree_asks.specs.Causes.{AtRow, IsTextCause, IsLinkCause, IsNoText};

use crate::data::{data_place, one_run};
use crate::fields::{copied, size_in};
use crate::headers::header_of;
use adf_data::read_runs;
use adf_format::DataType;
use adf_format::fields::NODE_TYPE;
use adf_links::{LONGEST_LINK, split_link};
use adf_model::{AdfError, NodeId, Reply, Text};
use adf_records::NodeHeader;
use cg_io::Space;
use std::alloc::Global;
use tree_edits::{Core, Row};

// Whether a header is that of a link.
fn is_link(header: &NodeHeader) -> bool
    ensures { result ≡ is_lk header.now.kind }
{
    matches!(header.kind, DataType::Lk)
}

// The header at a place is that of a link whose data are no link's text.
fn no_text(place: u64) -> AdfError
    requires { place ≤ 2 ^ 44 }
    ensures { result ≡ AdfError.Layout 28 (place + 96) }
{
    AdfError::Layout {
        rule: 28,
        place: place + NODE_TYPE.offset as u64,
    }
}

// The data of a link, whose header was read.
fn link_data<S: Space>(
    alloc: Global,
    space: &mut S,
    core: &Core,
    serial: u64,
    place: u64,
    header: &NodeHeader,
) -> Result<Text, AdfError>
    requires sound { S.is_sound space.old }
    requires near { place ≤ 2 ^ 44 }
    requires offsets { HasOffsets header.now }
    requires link { is_lk header.now.kind ≡ true }
    requires read { ReadAt (S.image space.old) place (node_length core.now.wide)
        (IsHeader core.now.wide place None header.now) }
    requires its { OfEach core.now (S.image space.old)
        (λ image tree p. IsItsHeader image tree p serial place header.now) }
    ensures told { Tells core.now (S.image space.old)
        (λ tree. Ok (text_in (node_at tree serial))) (map_ok (λ text. Some text) result) }
    ensures reads { AnswersRead S.is_sound S.image S.state S.waiting OnlyReads
        (IsTextCause core.now (S.image space.old) place) space.old space.new result }
{
    let length = size_in(header);
    if length > LONGEST_LINK as u64 {
        return Err(no_text(place));
    }
    let runs = match one_run(alloc, length) {
        Ok(runs) => runs,
        Err(error) => return Err(error),
    };
    read_runs(alloc, space, &data_place(header), 1, &runs)
}

/// The text of a link: none where the node is no link, and where there is no such node.
pub fn text_at<S: Space>(
    alloc: Global,
    space: &mut S,
    core: &Core,
    serial: u64,
) -> Result<Option<Text>, AdfError>
    requires sound { S.is_sound space.old }
    requires near { AreNear core.now.wide core.now.rows.items }
    ensures told { Tells core.now (S.image space.old)
        (λ tree. Ok (text_in (node_at tree serial))) result }
    ensures reads { AnswersRead S.is_sound S.image S.state S.waiting OnlyReads
        (λ before now e. AtRow core.now serial
        (λ row. IsTextCause core.now (S.image space.old) row.place before now e))
        space.old space.new result }
{
    let row = match core.rows.get(serial) {
        Some(row) => row,
        None => return Ok(None),
    };
    let header = match header_of(space, core, serial, row) {
        Ok(header) => header,
        Err(error) => return Err(error),
    };
    if !is_link(&header) {
        return Ok(None);
    }
    match link_data(alloc, space, core, serial, row.place, &header) {
        Ok(text) => Ok(Some(text)),
        Err(error) => Err(error),
    }
}

// A link's text as it is answered, in its two parts.
fn cut(alloc: Global, text: &Text, place: u64) -> Result<Reply, AdfError>
    requires { place ≤ 2 ^ 44 }
    ensures parts { IfOk result (λ reply. reply ≡ text_reply text.now) }
    ensures cause { IfErr result (IsNoText text.now place) }
{
    let (end, start) = match split_link(text.items()) {
        Some(parts) => parts,
        None => return Err(no_text(place)),
    };
    let file = match copied(alloc, &text.items()[..end]) {
        Ok(file) => file,
        Err(error) => return Err(error),
    };
    match copied(alloc, &text.items()[start..]) {
        Ok(path) => Ok(Reply::LinkText { file, path }),
        Err(error) => Err(error),
    }
}

/// The file and the path of a link.
pub(crate) fn link_of<S: Space>(
    alloc: Global,
    space: &mut S,
    core: &Core,
    at: NodeId,
    row: Row,
) -> Result<Reply, AdfError>
    requires sound { S.is_sound space.old }
    requires near { AreNear core.now.wide core.now.rows.items }
    requires row { row_of core.now.rows.items at.serial ≡ Some row }
    ensures told { Tells core.now (S.image space.old)
        (λ tree. field_within tree at (Query.LinkText at)) result }
    ensures kind { IfOk result (IsReplyTo (Query.LinkText at)) }
    ensures reads { AnswersRead S.is_sound S.image S.state S.waiting OnlyReads
        (IsLinkCause core.now (S.image space.old) row.place) space.old space.new result }
{
    let header = match header_of(space, core, at.serial, row) {
        Ok(header) => header,
        Err(error) => return Err(error),
    };
    if !is_link(&header) {
        return Err(AdfError::NotALink);
    }
    match link_data(alloc, space, core, at.serial, row.place, &header) {
        Ok(text) => cut(alloc, &text, row.place),
        Err(error) => Err(error),
    }
}
