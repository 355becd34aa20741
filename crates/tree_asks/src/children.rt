//! The children of a node: the one of a name, and all of them.

ghost use Rattle.std.specs.Prelude.{◌≡◌, ◌≤◌, ◌+◌, ◌*◌, ◌^◌, Some, Ok, IfOk, IfErr, OnOk, length, option_map};
ghost use Rattle.adf_format.specs.RecordFields.{table_length};
ghost use Rattle.adf_format.specs.Tree.{child_named};
ghost use Rattle.adf_model.specs.declared.tree.Query.{Query};
ghost use Rattle.adf_model.specs.Answers.{field_within, IsReplyTo};
ghost use Rattle.cg_io.specs.Answers.{AnswersRead};
ghost use Rattle.cg_io.specs.Blocks.{ReadsFew};
ghost use Rattle.node_reads.specs.Reads.{IsUnread};
ghost use Rattle.node_reads.specs.Entries.{child_view, pieces_of};
ghost use Rattle.tree_edits.specs.Rows.{AreNear, row_of};
ghost use Rattle.tree_edits.specs.Listed.{NamesTable, TableBreaks, IsTableOf, ReadsTable};
ghost use Rattle.tree_asks.specs.Told.{OfEach, Tells, IsFree};
ghost use Rattle.tree_asks.specs.Causes.{AtRow, IsChildrenCause, IsChildCause};
ghost use Rattle.tree_asks.specs.Entries.{SaysChild, SaysNoChild, AddsChildren, PieceFails, AreChildren, AreUnlisted};

use crate::fields::text_in;
use crate::hints::Hints;
use adf_format::fields::ENTRY_LENGTH;
use adf_model::{AdfError, Child, Listing, NodeId, Reply, is_name};
use cg_io::ReadBytes;
use node_reads::{
    ChildTable, ListedChild, Wanted, child_at as entry_at, child_in, child_table, find_entry,
    name_field, read_children, read_header,
};
use std::alloc::Global;
use tree_edits::{Core, Row};

// The table of the children of the node of a serial, which has this row. By one read.
fn table_of<R: ReadBytes>(
    bytes: &mut R,
    core: &Core,
    serial: u64,
    row: Row,
) -> Result<ChildTable, AdfError>
    requires sound { R.is_sound bytes.old }
    requires near { AreNear core.now.wide core.now.rows.items }
    requires row { row_of core.now.rows.items serial ≡ Some row }
    ensures named { IfOk result (NamesTable core.now.wide (R.image bytes.old) row.place) }
    ensures few { IfOk result (λ t. (t.count ≤ t.entries) × (t.count ≤ 2 ^ 20)) }
    ensures within { IfOk result (λ t. t.place + table_length t.entries ≤ 2 ^ 44) }
    ensures free { IfErr result (λ e. OfEach core.now (R.image bytes.old)
        (λ image tree p. IsFree e)) }
    ensures reads { AnswersRead R.is_sound R.image R.state R.waiting (ReadsFew 2)
        (IsUnread (TableBreaks core.now.wide (R.image bytes.old) row.place)) bytes.old bytes.new
        result }
{
    let header = match read_header(bytes, core.wide, row.place) {
        Ok(header) => header,
        Err(error) => return Err(error),
    };
    child_table(&header, row.place)
}

/// The serial of the child of a name: none where the node has no such child, and where there is no such node.
pub fn child_at<R: ReadBytes>(
    bytes: &mut R,
    core: &Core,
    hints: &Hints,
    parent: u64,
    name: &[u8],
) -> Result<Option<u64>, AdfError>
    requires sound { R.is_sound bytes.old }
    requires near { AreNear core.now.wide core.now.rows.items }
    ensures told { Tells core.now (R.image bytes.old)
        (λ tree. Ok (child_named tree parent name.now)) result }
    ensures reads { AnswersRead R.is_sound R.image R.state R.waiting
        (ReadsTable (IsTableOf core.now (R.image bytes.old) parent) 1 4)
        (λ before now e. AtRow core.now parent
        (λ row. IsChildCause core.now (R.image bytes.old) row.place before now e))
        bytes.old bytes.new result }
{
    let row = match core.rows.get(parent) {
        Some(row) => row,
        None => return Ok(None),
    };
    if !is_name(name) {
        return Ok(None);
    }
    let table = match table_of(bytes, core, parent, row) {
        Ok(table) => table,
        Err(error) => return Err(error),
    };
    let position = match find_entry(bytes, table, &Wanted::Name(name_field(name))) {
        Ok(Some(position)) => position,
        Ok(None) => return Ok(None),
        Err(_) => return Err(AdfError::ReadFault),
    };
    let listed = match entry_at(bytes, table, position) {
        Ok(listed) => listed,
        Err(error) => return Err(error),
    };
    match hints.serial_at(&core.rows, listed.place) {
        Some(serial) => Ok(Some(serial)),
        None => Err(AdfError::Layout {
            rule: 30,
            place: listed.place,
        }),
    }
}

// The child that an entry names, which stands at a place.
fn answered(
    alloc: Global,
    core: &Core,
    hints: &Hints,
    file: u32,
    listed: Option<ListedChild>,
    at: u64,
) -> Result<Child, AdfError>
    ensures child { IfOk result (SaysChild core.now file (option_map child_view listed)) }
    ensures none { IfErr result (λ e. SaysNoChild core.now at e (option_map child_view listed)) }
{
    let child = match listed {
        Some(child) => child,
        None => return Err(AdfError::Layout {
            rule: 24,
            place: at,
        }),
    };
    let serial = match hints.serial_at(&core.rows, child.place) {
        Some(serial) => serial,
        None => {
            return Err(AdfError::Layout {
                rule: 30,
                place: child.place,
            });
        }
    };
    match text_in(alloc, &child.name) {
        Ok(name) => Ok(Child {
            node: NodeId { file, serial },
            name,
        }),
        Err(error) => Err(error),
    }
}

// Puts the children in the first entries of a piece, which begins at a place, behind the others.
fn add_piece(
    alloc: Global,
    core: &Core,
    hints: &Hints,
    file: u32,
    piece: &[u8],
    count: usize,
    at: u64,
    children: &mut Vec<Child>,
) -> Result<(), AdfError>
    requires within { 44 * count ≤ length piece.now }
    requires near { at + 44 * count ≤ 2 ^ 44 }
    ensures added { OnOk result
        (AddsChildren core.now file piece.now count children.old.items children.new.items) }
    ensures fails { IfErr result (PieceFails core.now piece.now count at) }
{
    for i in 0..count {
        let entry = at + (ENTRY_LENGTH * i) as u64;
        let child = match answered(alloc, core, hints, file, child_in(piece, i), entry) {
            Ok(child) => child,
            Err(error) => return Err(error),
        };
        match children.push(child) {
            Ok(()) => {}
            Err(_) => return Err(AdfError::Memory),
        }
    }
    Ok(())
}

// The children in the entries in use of a table, by a read for each piece of 93 entries.
fn listed_in<R: ReadBytes>(
    alloc: Global,
    bytes: &mut R,
    core: &Core,
    hints: &Hints,
    file: u32,
    table: ChildTable,
) -> Result<Vec<Child>, AdfError>
    requires sound { R.is_sound bytes.old }
    requires within { table.place + 16 + 44 * table.count ≤ 2 ^ 44 }
    ensures children { IfOk result (λ children.
        AreChildren core.now (R.image bytes.old) file table table.count children.items) }
    ensures reads { AnswersRead R.is_sound R.image R.state R.waiting
        (ReadsFew (2 * pieces_of table.count))
        (AreUnlisted core.now (R.image bytes.old) table) bytes.old bytes.new result }
{
    let mut children = Vec::new(alloc);
    let mut piece = [0u8; 4092];
    let mut from = 0;
    while from < table.count {
        let count = match read_children(bytes, table, from, &mut piece) {
            Ok(count) => count,
            Err(_) => return Err(AdfError::ReadFault),
        };
        let at = table.entry(from);
        match add_piece(alloc, core, hints, file, &piece, count, at, &mut children) {
            Ok(()) => {}
            Err(error) => return Err(error),
        }
        from += count as u32;
    }
    Ok(children)
}

/// The children of a node in their order, with their names, by a read for each piece of 93 entries.
pub(crate) fn children_of<R: ReadBytes>(
    alloc: Global,
    bytes: &mut R,
    core: &Core,
    hints: &Hints,
    at: NodeId,
    row: Row,
) -> Result<Reply, AdfError>
    requires sound { R.is_sound bytes.old }
    requires near { AreNear core.now.wide core.now.rows.items }
    requires row { row_of core.now.rows.items at.serial ≡ Some row }
    ensures told { Tells core.now (R.image bytes.old)
        (λ tree. field_within tree at (Query.ChildrenOf at)) result }
    ensures kind { IfOk result (IsReplyTo (Query.ChildrenOf at)) }
    ensures reads { AnswersRead R.is_sound R.image R.state R.waiting
        (ReadsTable (IsTableOf core.now (R.image bytes.old) at.serial) 1 2)
        (IsChildrenCause core.now (R.image bytes.old) row.place) bytes.old bytes.new result }
{
    let table = match table_of(bytes, core, at.serial, row) {
        Ok(table) => table,
        Err(error) => return Err(error),
    };
    match listed_in(alloc, bytes, core, hints, at.file, table) {
        Ok(children) => Ok(Reply::Children(Listing::new(children))),
        Err(error) => Err(error),
    }
}
