//! An entry leaves one list and joins another, or the end of its own.

ghost use Rattle.std.specs.Prelude.{◌≡◌, ◌≤◌, ◌<◌, ◌^◌, ◌+◌, ◌*◌, ◌/◌, ◌++◌, [], ◌∷◌, true, IfOk, IfSome, OnOk};
ghost use Rattle.adf_format.specs.HeapRule.{grown_entries};
ghost use Rattle.adf_format.specs.RecordFields.{table_length};
ghost use Rattle.cg_io.specs.Answers.{AnswersWrite, IsRefusal, IsUntold, OnlyReads};
ghost use Rattle.cg_io.specs.Blocks.{Both};
ghost use Rattle.file_heap.specs.Heap.{IsThreaded, MayGive};
ghost use Rattle.field_access.specs.Fields.{WaitsWithin, range};
ghost use Rattle.tree_edits.specs.Joined.{LacksTable, extents_of_table};
ghost use Rattle.tree_edits.specs.Waiting.{WaitsInRoom, IfTold, list_ranges, parent_ranges, table_room};
ghost use Rattle.tree_edits.specs.Left.{leave_cost};
ghost use Rattle.tree_edits.specs.Linked.{FitsTable, longer_length};
ghost use Rattle.tree_edits.specs.Taken.{IsReady, KeepsHeap, IsRoomless};
ghost use Rattle.tree_moves.specs.Movable.{IsMoveNear};
ghost use Rattle.tree_moves.specs.Relisted.{moved_entry, kept_fields, longer_table, table_in, OpensLonger, OpensIn, open_cost, MovesOver, MovesLast, MovesBy, move_ranges, ClosesIn, close_cost, IsListNear, Relists, OwnsLists, link_cost, move_cost};

use crate::place::Move;
use adf_chunks::{NodeEntry, encode_entry};
use adf_format::fields::NODE_CHILDREN;
use adf_model::AdfError;
use cg_io::Space;
use disk_ptr::fields::{put_number, put_pointer};
use disk_ptr::from_place;
use field_access::write_field;
use file_heap::Heap;
use node_reads::ChildTable;
use tree_edits::{
    Listed, Parent, give_table, grown, join_unused, leave_list, move_up, take_table, write_table,
};

// The entry of a node that moves.
fn entry_of(its: &Move) -> [u8; 44]
    requires { its.now.row.place < 2 ^ 44 }
    ensures { result ≡ moved_entry its.now }
{
    let name = its.source.name;
    encode_entry(&NodeEntry {
        name,
        child: from_place(its.row.place),
    })
}

// The fields of a header that count so many children, and name their longer table.
fn fields_of_table(count: u32, place: u64) -> [u8; 28]
    requires count { count < 2 ^ 20 }
    requires place { place < 2 ^ 44 }
    ensures { result ≡ kept_fields place count }
{
    let mut fields = [0u8; 28];
    let next = put_number(&mut fields, 0, u64::from(count), 8);
    let next = put_number(&mut fields, next, u64::from(grown(count)), 8);
    put_pointer(&mut fields, next, from_place(place));
    fields
}

// A longer table is written in its room, and the header of the parent names it.
fn open_longer<S: Space>(
    space: &mut S,
    parent: Parent,
    place: u64,
    entry: &[u8; 44],
) -> Result<ChildTable, AdfError>
    requires sound { S.is_sound space.old }
    requires header { parent.row.place + 246 ≤ 2 ^ 44 }
    requires table { parent.table.place + table_length parent.table.entries ≤ 2 ^ 44 }
    requires few { parent.table.count < 2 ^ 20 }
    requires full { parent.table.entries ≡ parent.table.count }
    requires near { place + table_length (grown_entries parent.table.count) ≤ 2 ^ 44 }
    ensures opened { OnOk result (Both (OpensLonger parent place entry.now) (S.image space.old)
        (S.image space.new)) }
    ensures waits { OnOk result (WaitsWithin (range place (longer_length parent)
        ∷ parent_ranges parent) (S.waiting space.old) (S.waiting space.new)) }
    ensures table { IfOk result (λ table. table ≡ longer_table parent place) }
    ensures writes { AnswersWrite S.is_sound S.state S.waiting
        (12 + table_length (grown_entries parent.table.count) / 4096) OnlyReads (IsRefusal ⊥)
        space.old space.new result }
{
    match write_table(space, parent.table, place, entry) {
        Ok(()) => {}
        Err(error) => return Err(error),
    }
    let fields = fields_of_table(parent.table.count, place);
    match write_field(
        space,
        parent.row.place + NODE_CHILDREN.offset as u64,
        &fields,
    ) {
        Ok(()) => Ok(ChildTable {
            place,
            entries: grown(parent.table.count),
            count: parent.table.count,
        }),
        Err(error) => Err(error),
    }
}

// The table of a parent in which an entry is unused: its own, or a longer one in the room that was taken for it.
fn open_list<S: Space>(
    space: &mut S,
    parent: Parent,
    room: Option<u64>,
    entry: &[u8; 44],
) -> Result<ChildTable, AdfError>
    requires sound { S.is_sound space.old }
    requires header { parent.row.place + 246 ≤ 2 ^ 44 }
    requires table { parent.table.place + table_length parent.table.entries ≤ 2 ^ 44 }
    requires few { parent.table.count < 2 ^ 20 }
    requires fits { FitsTable parent room }
    ensures opened { OnOk result (Both (OpensIn parent room entry.now) (S.image space.old)
        (S.image space.new)) }
    ensures waits { OnOk result (WaitsWithin (table_room parent room ++ parent_ranges parent)
        (S.waiting space.old) (S.waiting space.new)) }
    ensures table { IfOk result (λ table. table ≡ table_in parent room) }
    ensures writes { AnswersWrite S.is_sound S.state S.waiting (open_cost parent.table room)
        OnlyReads (IsRefusal ⊥) space.old space.new result }
{
    match room {
        Some(place) => open_longer(space, parent, place, entry),
        None => Ok(parent.table),
    }
}

// The entry of a node leaves one list, and joins another in an unused entry.
fn move_over<S: Space>(
    space: &mut S,
    its: &Move,
    table: ChildTable,
    entry: &[u8; 44],
) -> Result<(), AdfError>
    requires sound { S.is_sound space.old }
    requires from { its.now.source.from.place + 246 ≤ 2 ^ 44 }
    requires to { its.now.to.row.place + 246 ≤ 2 ^ 44 }
    requires list { IsListNear its.now.source.listed }
    requires table { table.place + table_length table.entries ≤ 2 ^ 44 }
    requires unused { table.count < table.entries }
    ensures moved { OnOk result (Both (MovesOver its.now table entry.now) (S.image space.old)
        (S.image space.new)) }
    ensures waits { OnOk result (WaitsWithin (list_ranges its.now.source.from.place
        its.now.source.listed.table ++ list_ranges its.now.to.row.place table)
        (S.waiting space.old) (S.waiting space.new)) }
    ensures writes { AnswersWrite S.is_sound S.state S.waiting
        (4 + leave_cost its.now.source.listed) OnlyReads (IsRefusal ⊥) space.old space.new result }
{
    match leave_list(space, its.source.from.place, its.source.listed) {
        Ok(()) => {}
        Err(error) => return Err(error),
    }
    let to = Parent {
        row: its.to.row,
        table,
    };
    join_unused(space, to, entry)
}

// The entries behind that of a node move up in its table, and its own becomes the last.
fn move_last<S: Space>(space: &mut S, listed: Listed, entry: &[u8; 44]) -> Result<(), AdfError>
    requires sound { S.is_sound space.old }
    requires list { IsListNear listed }
    ensures moved { OnOk result (Both (MovesLast listed entry.now) (S.image space.old)
        (S.image space.new)) }
    ensures waits { OnOk result (WaitsWithin (extents_of_table listed.table)
        (S.waiting space.old) (S.waiting space.new)) }
    ensures writes { AnswersWrite S.is_sound S.state S.waiting (leave_cost listed) OnlyReads
        (IsRefusal ⊥) space.old space.new result }
{
    let own = listed.table.entry(listed.position);
    let behind = 44 * u64::from(listed.table.count - listed.position - 1);
    match move_up(space, own + 44, own, behind) {
        Ok(()) => {}
        Err(error) => return Err(error),
    }
    write_field(space, own + behind, entry)
}

// The entry of a node becomes the last in a table with an unused entry.
fn move_entry<S: Space>(
    space: &mut S,
    its: &Move,
    table: ChildTable,
    entry: &[u8; 44],
) -> Result<(), AdfError>
    requires sound { S.is_sound space.old }
    requires from { its.now.source.from.place + 246 ≤ 2 ^ 44 }
    requires to { its.now.to.row.place + 246 ≤ 2 ^ 44 }
    requires list { IsListNear its.now.source.listed }
    requires table { table.place + table_length table.entries ≤ 2 ^ 44 }
    requires unused { table.count < table.entries }
    requires same { its.now.last ≡ true → table.count ≡ its.now.source.listed.table.count }
    ensures moved { OnOk result (Both (MovesBy its.now.last its.now table entry.now)
        (S.image space.old) (S.image space.new)) }
    ensures waits { OnOk result (WaitsWithin (list_ranges its.now.source.from.place
        its.now.source.listed.table ++ list_ranges its.now.to.row.place table)
        (S.waiting space.old) (S.waiting space.new)) }
    ensures writes { AnswersWrite S.is_sound S.state S.waiting (link_cost its.now) OnlyReads
        (IsRefusal ⊥) space.old space.new result }
{
    if its.last {
        let listed = Listed {
            table,
            position: its.source.listed.position,
        };
        return move_last(space, listed, entry);
    }
    move_over(space, its, table, entry)
}

// A table that was replaced is given.
fn close_list<S: Space>(
    space: &mut S,
    heap: &mut Heap,
    table: ChildTable,
    room: Option<u64>,
) -> Result<(), AdfError>
    requires sound { S.is_sound space.old }
    requires within { table.place + table_length table.entries ≤ 2 ^ 44 }
    requires threads { IfSome (S.image space.old) (IsThreaded heap.old.work) }
    requires own { IfSome (S.image space.old) (λ bytes. 0 < table.entries
        → MayGive table.place (table_length table.entries) heap.old.work.heap) }
    ensures given { OnOk result (Both (ClosesIn table room heap.old.work heap.new.work)
        (S.image space.old) (S.image space.new)) }
    ensures waits { OnOk result (IfTold (S.image space.old)
        (WaitsInRoom (extents_of_table table) heap.old.work.heap heap.new.work.heap
        (S.waiting space.old) (S.waiting space.new))) }
    ensures kept { KeepsHeap heap.old heap.new }
    ensures writes { AnswersWrite S.is_sound S.state S.waiting (close_cost room) OnlyReads
        (IsRefusal (IsUntold (S.image space.old))) space.old space.new result }
{
    match room {
        Some(_) => give_table(space, heap, table),
        None => Ok(()),
    }
}

/// Lists a node as the last child of its new parent, in an unused entry or in a longer table, and gives the table that this
/// one replaces.
pub(crate) fn relist<S: Space>(space: &mut S, heap: &mut Heap, its: &Move) -> Result<(), AdfError>
    requires sound { S.is_sound space.old }
    requires ready { IfSome (S.image space.old) (IsReady heap.old.work) }
    requires own { IfSome (S.image space.old) (OwnsLists its.now heap.old.work.heap) }
    requires here { its.now.row.place < 2 ^ 44 }
    requires from { its.now.source.from.place + 246 ≤ 2 ^ 44 }
    requires to { its.now.to.row.place + 246 ≤ 2 ^ 44 }
    requires near { IsMoveNear its.now }
    requires list { IsListNear its.now.source.listed }
    requires few { its.now.to.table.count < 2 ^ 20 }
    requires same { its.now.last ≡ true → its.now.to.table ≡ its.now.source.listed.table }
    ensures listed { OnOk result (Both (Relists heap.old.limit its.now heap.old.work
        heap.new.work) (S.image space.old) (S.image space.new)) }
    ensures waits { OnOk result (IfTold (S.image space.old) (WaitsInRoom (move_ranges its.now)
        heap.old.work.heap heap.new.work.heap (S.waiting space.old) (S.waiting space.new))) }
    ensures kept { KeepsHeap heap.old heap.new }
    ensures writes { AnswersWrite S.is_sound S.state S.waiting (move_cost its.now) OnlyReads
        (IsRoomless (LacksTable heap.old.limit its.now.to heap.old.work.heap)
        (IsUntold (S.image space.old))) space.old space.new result }
{
    let entry = entry_of(its);
    let room = match take_table(space, heap, its.to) {
        Ok(room) => room,
        Err(error) => return Err(error),
    };
    let table = match open_list(space, its.to, room, &entry) {
        Ok(table) => table,
        Err(error) => return Err(error),
    };
    match move_entry(space, its, table, &entry) {
        Ok(()) => {}
        Err(error) => return Err(error),
    }
    match close_list(space, heap, its.to.table, room) {
        Ok(()) => Ok(()),
        Err(error) => Err(error),
    }
}
