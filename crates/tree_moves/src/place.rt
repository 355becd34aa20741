//! Whether a node may move below another.

ghost use Rattle.std.specs.Prelude.{◌≡◌, ◌≤◌, ◌^◌, ◌+◌, ◌*◌, if◌then◌else◌, IfOk, IfErr, IfSome, OnOk};
ghost use Rattle.adf_format.specs.RecordFields.{node_length, table_length};
ghost use Rattle.cg_io.specs.Answers.{AnswersRead, OnlyReads};
ghost use Rattle.cg_io.specs.Blocks.{ReadsFew};
ghost use Rattle.node_reads.specs.Reads.{IsUnread};
ghost use Rattle.tree_edits.specs.Known.{ListsChildren, ListsTable};
ghost use Rattle.tree_edits.specs.Rows.{AreNear};
ghost use Rattle.tree_moves.specs.Movable.{IsTarget, IsTargetCause, LeavesParent, LacksParent, IsSource, SourceBreaks, clashes, own_entry, LooksUp, IsMoveNear, HasMoveRoom, LacksMoveRoom, MayMove, IsPlaceCause};

use crate::depths::{deepest, is_below};
use adf_format::limits::{DEEPEST, MOST_CHILDREN};
use adf_model::{AdfError, NodeId};
use cg_io::Space;
use kept_names::Listed as Names;
use node_reads::{ChildTable, child_table, read_header};
use tree_edits::{Core, Listed, Parent, Row, find_listed, find_name, is_link};

/// Where a node is listed, and its name.
#[derive(Clone, Copy, Drop)]
pub(crate) struct Source {
    /// The row of its parent.
    pub(crate) from: Row,
    /// The table of its parent, and its entry there.
    pub(crate) listed: Listed,
    /// The field of its name.
    pub(crate) name: [u8; 32],
}

/// A node that may move.
#[derive(Clone, Copy, Drop)]
pub(crate) struct Move {
    /// Its row.
    pub(crate) row: Row,
    /// Where it is listed.
    pub(crate) source: Source,
    /// Its new parent.
    pub(crate) to: Parent,
    /// Whether that is its parent already: it becomes the last in its list.
    pub(crate) last: bool,
}

// The node that may get another child, in a file that may be written. By one read.
fn find_target<S: Space>(space: &mut S, core: &Core, at: NodeId) -> Result<Parent, AdfError>
    requires sound { S.is_sound space.old }
    requires near { AreNear core.now.wide core.now.rows.items }
    ensures target { IfOk result (IsTarget core.now at (S.image space.old)) }
    ensures few { IfOk result (λ to. to.table.count ≤ to.table.entries) }
    ensures within { IfOk result (λ to. to.table.place + table_length to.table.entries ≤ 2 ^ 44) }
    ensures reads { AnswersRead S.is_sound S.image S.state S.waiting (ReadsFew 2)
        (IsTargetCause core.now at (S.image space.old)) space.old space.new result }
{
    let row = match core.rows.get(at.serial) {
        Some(row) => row,
        None => return Err(AdfError::NoSuchNode),
    };
    let header = match read_header(space, core.wide, row.place) {
        Ok(header) => header,
        Err(error) => return Err(error),
    };
    if is_link(&header) {
        return Err(AdfError::LinkMissing);
    }
    if !core.writable {
        return Err(AdfError::ReadOnly);
    }
    match child_table(&header, row.place) {
        Ok(table) => Ok(Parent { row, table }),
        Err(error) => Err(error),
    }
}

// The parent that a node leaves, where the new one does not stand below it.
fn find_parent(core: &Core, node: NodeId, at: NodeId, row: Row) -> Result<u64, AdfError>
    ensures leaves { IfOk result (LeavesParent core.now node at row) }
    ensures lacks { IfErr result (LacksParent core.now node at row) }
{
    let parent = match row.parent {
        Some(parent) => parent,
        None => return Err(AdfError::NotAChild),
    };
    if is_below(&core.rows, at.serial, node.serial, row.depth) {
        return Err(AdfError::IntoItself);
    }
    Ok(parent)
}

// Where a node is listed, and its name.
fn find_source<S: Space>(
    space: &mut S,
    core: &Core,
    row: Row,
    parent: u64,
) -> Result<Source, AdfError>
    requires sound { S.is_sound space.old }
    requires near { AreNear core.now.wide core.now.rows.items }
    requires header { row.place + node_length core.now.wide ≤ 2 ^ 44 }
    ensures source { IfOk result (IsSource core.now (S.image space.old) row parent) }
    ensures within { IfOk result (λ source. source.listed.table.place
        + table_length source.listed.table.entries ≤ 2 ^ 44) }
    ensures reads { AnswersRead S.is_sound S.image S.state S.waiting OnlyReads
        (IsUnread (SourceBreaks core.now (S.image space.old) row parent))
        space.old space.new result }
{
    let from = match core.rows.get(parent) {
        Some(from) => from,
        None => {
            return Err(AdfError::Layout {
                rule: 30,
                place: row.place,
            });
        }
    };
    let listed = match find_listed(space, core, row.place, parent) {
        Ok(listed) => listed,
        Err(error) => return Err(error),
    };
    match read_header(space, core.wide, row.place) {
        Ok(header) => {
            let name = header.name;
            Ok(Source { from, listed, name })
        }
        Err(error) => Err(error),
    }
}

// A new parent with its table, where that is the list that a node is in, as it was read of there.
fn with_list(target: Parent, listed: Listed, last: bool) -> Parent
    ensures { result ≡ record {
      row = target.row;
      table = if last then listed.table else target.table;
    } }
{
    let table = if last { listed.table } else { target.table };
    Parent {
        row: target.row,
        table,
    }
}

// The entry of a node in the table of its new parent.
fn own_entry(listed: Listed, last: bool) -> Option<u32>
    ensures { result ≡ own_entry last listed }
{
    if last { Some(listed.position) } else { None }
}

// Whether an entry was found, and another than one's own.
fn clashes(found: Option<u32>, own: Option<u32>) -> bool
    ensures { result ≡ clashes found own }
{
    match (found, own) {
        (None, _) => false,
        (Some(_), None) => true,
        (Some(i), Some(own)) => i != own,
    }
}

// Whether another entry of a table has a name.
fn is_taken<S: Space>(
    space: &mut S,
    table: ChildTable,
    name: [u8; 32],
    own: Option<u32>,
    known: Option<&Names>,
) -> Result<bool, AdfError>
    requires sound { S.is_sound space.old }
    requires within { table.place + 16 + 44 * table.count ≤ 2 ^ 44 }
    requires known { IfSome known (λ list. ListsTable (S.image space.old) table list.now) }
    ensures taken { IfOk result (LooksUp (S.image space.old) table name own) }
    ensures reads { AnswersRead S.is_sound S.image S.state S.waiting OnlyReads
        (IsUnread (λ rule place. ⊥)) space.old space.new result }
{
    match find_name(space, table, &name, known) {
        Ok(found) => Ok(clashes(found, own)),
        Err(_) => Err(AdfError::ReadFault),
    }
}

// Whether a new parent has room for a node that moves with all below it.
fn has_room(core: &Core, node: NodeId, row: Row, to: Parent) -> Result<(), AdfError>
    ensures room { OnOk result (HasMoveRoom core.now node row to) }
    ensures lacks { IfErr result (LacksMoveRoom core.now node row to) }
{
    if to.table.count >= MOST_CHILDREN {
        return Err(AdfError::TooManyChildren);
    }
    let most = deepest(&core.rows, node.serial, row.depth);
    if u32::from(to.row.depth) + 1 + u32::from(most) > u32::from(DEEPEST) + u32::from(row.depth) {
        return Err(AdfError::TooDeep);
    }
    Ok(())
}

/// A node that may move below another: its list, and that of its new parent.
pub(crate) fn find_move<S: Space>(
    space: &mut S,
    core: &Core,
    node: NodeId,
    at: NodeId,
    known: Option<&Names>,
) -> Result<Move, AdfError>
    requires sound { S.is_sound space.old }
    requires near { AreNear core.now.wide core.now.rows.items }
    requires known { IfSome known (λ list. ListsChildren core.now (S.image space.old) at.serial
        list.now) }
    ensures may { IfOk result (MayMove core.now node at (S.image space.old)) }
    ensures near { IfOk result IsMoveNear }
    ensures reads { AnswersRead S.is_sound S.image S.state S.waiting OnlyReads
        (IsPlaceCause core.now node at (S.image space.old)) space.old space.new result }
{
    let row = match core.rows.get(node.serial) {
        Some(row) => row,
        None => return Err(AdfError::NoSuchNode),
    };
    let target = match find_target(space, core, at) {
        Ok(target) => target,
        Err(error) => return Err(error),
    };
    let parent = match find_parent(core, node, at, row) {
        Ok(parent) => parent,
        Err(error) => return Err(error),
    };
    let source = match find_source(space, core, row, parent) {
        Ok(source) => source,
        Err(error) => return Err(error),
    };
    let last = parent == at.serial;
    let to = with_list(target, source.listed, last);
    let own = own_entry(source.listed, last);
    let taken = match is_taken(space, to.table, source.name, own, known) {
        Ok(taken) => taken,
        Err(error) => return Err(error),
    };
    if taken {
        return Err(AdfError::Duplicate);
    }
    match has_room(core, node, row, to) {
        Ok(()) => Ok(Move {
            row,
            source,
            to,
            last,
        }),
        Err(error) => Err(error),
    }
}
