//! Whether a node may get a new child.

ghost use Rattle.std.specs.Prelude.{◌≡◌, ◌^◌, ◌+◌, ◌*◌, ◌≤◌, ◌<◌, length, IfErr, IfOk, IfSome, OnOk};
ghost use Rattle.adf_format.specs.RecordFields.{table_length};
ghost use Rattle.adf_model.specs.declared.tree.Edit.{Edit};
ghost use Rattle.cg_io.specs.Answers.{AnswersRead};
ghost use Rattle.cg_io.specs.Blocks.{ReadsFew};
ghost use Rattle.node_reads.specs.Entries.{pieces_of};
ghost use Rattle.tree_edits.specs.Rows.{AreNear};
ghost use Rattle.tree_edits.specs.Edits.{Refuses};
ghost use Rattle.tree_edits.specs.Known.{ListsChildren};
ghost use Rattle.tree_edits.specs.Listed.{ReadsTable, IsTableOf};
ghost use Rattle.tree_edits.specs.Room.{MayCreate, IsRoomCause, HasRoom, IsRoomRefusal};

use crate::known::find_name;
use crate::label::is_link;
use crate::memory::Core;
use crate::rows::Row;
use adf_format::limits::{DEEPEST, MOST_CHILDREN};
use adf_model::{AdfError, NodeId, is_label, is_name};
use cg_io::Space;
use kept_names::Listed;
use node_reads::{ChildTable, child_table, name_field, read_header};

/// A node that may get a new child, and its table of children.
#[derive(Clone, Copy, Drop)]
pub struct Parent {
    /// The row of the node.
    pub row: Row,
    /// Its table.
    pub table: ChildTable,
}

// How many serials may be drawn.
const MOST_SERIALS: u64 = 1 << 48;

// Whether a node that has so many children may have one more, and a serial is left for it.
fn room_for(row: Row, table: ChildTable, drawn: u64) -> Result<(), AdfError>
    ensures ok { OnOk result (HasRoom table.count row.depth drawn) }
    ensures err { IfErr result (IsRoomRefusal table.count row.depth drawn) }
{
    if table.count >= MOST_CHILDREN {
        return Err(AdfError::TooManyChildren);
    }
    if row.depth >= DEEPEST {
        return Err(AdfError::TooDeep);
    }
    if drawn >= MOST_SERIALS {
        return Err(AdfError::TooLarge);
    }
    Ok(())
}

/// The node that may get a new child with a name and a label. Where its children are known, no entry of its table is read.
pub(crate) fn find_room<S: Space>(
    space: &mut S,
    core: &Core,
    at: NodeId,
    name: &[u8],
    label: &[u8],
    known: Option<&Listed>,
) -> Result<Parent, AdfError>
    requires sound { S.is_sound space.old }
    requires near { AreNear core.now.wide core.now.rows.items }
    requires known { IfSome known (λ list. ListsChildren core.now (S.image space.old) at.serial
        list.now) }
    ensures room { IfOk result (MayCreate core.now at name.now label.now (S.image space.old)) }
    ensures within { IfOk result (λ parent. parent.table.place
        + table_length parent.table.entries ≤ 2 ^ 44) }
    ensures few { IfOk result (λ parent. parent.table.count ≤ parent.table.entries) }
    ensures soon { IfOk result (λ parent. ReadsFew (2 * pieces_of parent.table.count + 2)
        (S.state space.old) (S.state space.new)) }
    ensures still { IfOk result (λ parent. IfSome known.entry (λ list.
        length list.now ≡ parent.table.count → ReadsFew 2 (S.state space.old) (S.state space.new))) }
    ensures refused { IfErr result (λ e. IfSome (S.image space.old)
        (Refuses (Edit.Create at name.now label.now) core.now e)) }
    ensures reads { AnswersRead S.is_sound S.image S.state S.waiting
        (ReadsTable (IsTableOf core.now (S.image space.old) at.serial) 1 2)
        (IsRoomCause core.now at name.now label.now (S.image space.old))
        space.old space.new result }
{
    let row = match core.rows.get(at.serial) {
        Some(row) => row,
        None => return Err(AdfError::NoSuchNode),
    };
    let header = match read_header(space, core.wide, row.place) {
        Ok(header) => header,
        Err(error) => return Err(error),
    };
    if is_link(&header) {
        return Err(AdfError::LinkMissing);
    }
    if !core.writable {
        return Err(AdfError::ReadOnly);
    }
    if !is_name(name) {
        return Err(AdfError::BadName);
    }
    if !is_label(label) {
        return Err(AdfError::BadLabel);
    }
    let table = match child_table(&header, row.place) {
        Ok(table) => table,
        Err(error) => return Err(error),
    };
    match find_name(space, table, &name_field(name), known) {
        Ok(None) => {}
        Ok(Some(_)) => return Err(AdfError::Duplicate),
        Err(_) => return Err(AdfError::ReadFault),
    }
    match room_for(row, table, core.rows.count() as u64) {
        Ok(()) => Ok(Parent { row, table }),
        Err(error) => Err(error),
    }
}
