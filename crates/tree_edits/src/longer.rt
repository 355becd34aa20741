//! A longer table takes the place of a full one.

ghost use Rattle.std.specs.Prelude.{◌≡◌, ◌^◌, ◌+◌, ◌-◌, ◌*◌, ◌/◌, ◌%◌, ◌≤◌, ◌<◌, min, [], ◌∷◌, length, IfSome, OnOk};
ghost use Rattle.adf_format.specs.HeapRule.{grown_entries};
ghost use Rattle.adf_format.specs.RecordFields.{table_length};
ghost use Rattle.cg_io.specs.Answers.{AnswersWrite, IsRefusal, IsUntold, OnlyReads};
ghost use Rattle.cg_io.specs.Blocks.{Both, blocks_of};
ghost use Rattle.file_heap.specs.Heap.{IsThreaded, MayGive};
ghost use Rattle.tree_edits.specs.Copies.{Copies, Clears};
ghost use Rattle.tree_edits.specs.Taken.{IsReady, KeepsHeap, IsRoomless, LacksBytes};
ghost use Rattle.tree_edits.specs.Joined.{OwnsTable, JoinsLonger, WritesTable, GivesTable, extents_of_table, table_fields};
ghost use Rattle.field_access.specs.Fields.{WaitsWithin, range};
ghost use Rattle.tree_edits.specs.Linked.{MayReplace, ReplacesTable, longer_length};
ghost use Rattle.tree_edits.specs.Waiting.{WaitsInRoom, IfTold, parent_ranges};

use crate::link_rooms::take_room;
use crate::room::Parent;
use adf_chunks::{Part, encode_head, tail};
use adf_format::fields::NODE_CHILDREN;
use adf_model::AdfError;
use cg_io::Space;
use disk_ptr::fields::{put_number, put_pointer};
use disk_ptr::from_place;
use field_access::write_field;
use file_heap::Heap;
use node_reads::ChildTable;

// How many of the bytes from a place on lie in its block, and are not more than so many.
pub(crate) fn block_rest(place: u64, most: u64) -> usize
    requires { place ≤ 2 ^ 44 }
    ensures { result ≡ min (4096 - place % 4096) most }
{
    (4096 - place % 4096).min(most) as usize
}

// Copies as many bytes to a place as a piece has, which they pass through.
fn copy_through<S: Space>(
    space: &mut S,
    from: u64,
    to: u64,
    piece: &mut [u8],
) -> Result<(), AdfError>
    requires sound { S.is_sound space.old }
    requires from { from + length piece.old ≤ 2 ^ 44 }
    requires to { to + length piece.old ≤ 2 ^ 44 }
    ensures copied { OnOk result (Both (Copies from to (length piece.old)) (S.image space.old)
        (S.image space.new)) }
    ensures waits { OnOk result (WaitsWithin (range to (length piece.old) ∷ [])
        (S.waiting space.old) (S.waiting space.new)) }
    ensures writes { AnswersWrite S.is_sound S.state S.waiting (blocks_of to (length piece.old))
        OnlyReads (IsRefusal ⊥) space.old space.new result }
{
    match space.read(from, piece) {
        Ok(()) => {}
        Err(_) => return Err(AdfError::ReadFault),
    }
    write_field(space, to, piece)
}

// Copies so many bytes to a place.
fn copy_piece<S: Space>(space: &mut S, from: u64, to: u64, count: usize) -> Result<(), AdfError>
    requires sound { S.is_sound space.old }
    requires count { count ≤ 4096 }
    requires from { from + count ≤ 2 ^ 44 }
    requires to { to + count ≤ 2 ^ 44 }
    ensures copied { OnOk result (Both (Copies from to count) (S.image space.old)
        (S.image space.new)) }
    ensures waits { OnOk result (WaitsWithin (range to count ∷ []) (S.waiting space.old)
        (S.waiting space.new)) }
    ensures writes { AnswersWrite S.is_sound S.state S.waiting (blocks_of to count) OnlyReads
        (IsRefusal ⊥) space.old space.new result }
{
    let mut piece = [0u8; 4096];
    copy_through(space, from, to, &mut piece[..count])
}

// Writes so many zeros at a place.
fn clear_piece<S: Space>(space: &mut S, at: u64, count: usize) -> Result<(), AdfError>
    requires sound { S.is_sound space.old }
    requires count { count ≤ 4096 }
    requires within { at + count ≤ 2 ^ 44 }
    ensures cleared { OnOk result (Both (Clears at count) (S.image space.old)
        (S.image space.new)) }
    ensures waits { OnOk result (WaitsWithin (range at count ∷ []) (S.waiting space.old)
        (S.waiting space.new)) }
    ensures writes { AnswersWrite S.is_sound S.state S.waiting (blocks_of at count) OnlyReads
        (IsRefusal ⊥) space.old space.new result }
{
    let zeros = [0u8; 4096];
    write_field(space, at, &zeros[..count])
}

// Copies bytes to a place, a block of the place at a time.
fn copy_bytes<S: Space>(space: &mut S, from: u64, to: u64, count: u64) -> Result<(), AdfError>
    requires sound { S.is_sound space.old }
    requires from { from + count ≤ 2 ^ 44 }
    requires to { to + count ≤ 2 ^ 44 }
    ensures copied { OnOk result (Both (Copies from to count) (S.image space.old)
        (S.image space.new)) }
    ensures waits { OnOk result (WaitsWithin (range to count ∷ []) (S.waiting space.old)
        (S.waiting space.new)) }
    ensures writes { AnswersWrite S.is_sound S.state S.waiting (blocks_of to count) OnlyReads
        (IsRefusal ⊥) space.old space.new result }
{
    let mut done: u64 = 0;
    while done < count {
        let length = block_rest(to + done, count - done);
        match copy_piece(space, from + done, to + done, length) {
            Ok(()) => {}
            Err(error) => return Err(error),
        }
        done += length as u64;
    }
    Ok(())
}

// Writes zeros at a place, a block at a time.
fn clear_bytes<S: Space>(space: &mut S, at: u64, count: u64) -> Result<(), AdfError>
    requires sound { S.is_sound space.old }
    requires within { at + count ≤ 2 ^ 44 }
    ensures cleared { OnOk result (Both (Clears at count) (S.image space.old)
        (S.image space.new)) }
    ensures waits { OnOk result (WaitsWithin (range at count ∷ []) (S.waiting space.old)
        (S.waiting space.new)) }
    ensures writes { AnswersWrite S.is_sound S.state S.waiting (blocks_of at count) OnlyReads
        (IsRefusal ⊥) space.old space.new result }
{
    let mut done: u64 = 0;
    while done < count {
        let length = block_rest(at + done, count - done);
        match clear_piece(space, at + done, length) {
            Ok(()) => {}
            Err(error) => return Err(error),
        }
        done += length as u64;
    }
    Ok(())
}

/// Writes a table that has the entries in use of another, one entry more, and unused ones behind it.
pub fn write_table<S: Space>(
    space: &mut S,
    old: ChildTable,
    place: u64,
    entry: &[u8; 44],
) -> Result<(), AdfError>
    requires sound { S.is_sound space.old }
    requires old { old.place + 16 + 44 * old.count ≤ 2 ^ 44 }
    requires few { old.count < 2 ^ 20 }
    requires within { place + table_length (grown_entries old.count) ≤ 2 ^ 44 }
    ensures written { OnOk result (Both (WritesTable old place entry.now) (S.image space.old)
        (S.image space.new)) }
    ensures waits { OnOk result (WaitsWithin (range place (table_length
        (grown_entries old.count)) ∷ []) (S.waiting space.old) (S.waiting space.new)) }
    ensures writes { AnswersWrite S.is_sound S.state S.waiting
        (10 + table_length (grown_entries old.count) / 4096) OnlyReads
        (IsRefusal ⊥) space.old space.new result }
{
    let entries = grown(old.count);
    let used = 44 * u64::from(old.count);
    let end = place + 16 + 44 * u64::from(entries);
    let next = place + 16 + used;
    let head = encode_head(Part::SubNodes, from_place(end));
    match write_field(space, place, &head) {
        Ok(()) => {}
        Err(error) => return Err(error),
    }
    match copy_bytes(space, old.place + 16, place + 16, used) {
        Ok(()) => {}
        Err(error) => return Err(error),
    }
    match write_field(space, next, entry) {
        Ok(()) => {}
        Err(error) => return Err(error),
    }
    match clear_bytes(space, next + 44, end - (next + 44)) {
        Ok(()) => {}
        Err(error) => return Err(error),
    }
    write_field(space, end, &tail(Part::SubNodes))
}

/// The entries of the table that takes the place of a full one of so many.
pub fn grown(count: u32) -> u32
    requires { count ≤ 2 ^ 20 }
    ensures { result ≡ grown_entries count }
{
    (count + count / 2).max(8)
}

/// Gives the bytes of a table, if there is one.
pub fn give_table<S: Space>(
    space: &mut S,
    heap: &mut Heap,
    table: ChildTable,
) -> Result<(), AdfError>
    requires sound { S.is_sound space.old }
    requires within { table.place + table_length table.entries ≤ 2 ^ 44 }
    requires threads { IfSome (S.image space.old) (IsThreaded heap.old.work) }
    requires own { IfSome (S.image space.old) (λ bytes. 0 < table.entries
        → MayGive table.place (table_length table.entries) heap.old.work.heap) }
    ensures given { OnOk result (Both (GivesTable table heap.old.work heap.new.work)
        (S.image space.old) (S.image space.new)) }
    ensures waits { OnOk result (IfTold (S.image space.old)
        (WaitsInRoom (extents_of_table table) heap.old.work.heap heap.new.work.heap
        (S.waiting space.old) (S.waiting space.new))) }
    ensures kept { KeepsHeap heap.old heap.new }
    ensures writes { AnswersWrite S.is_sound S.state S.waiting 12 OnlyReads
        (IsRefusal (IsUntold (S.image space.old))) space.old space.new result }
{
    if table.entries == 0 {
        return Ok(());
    }
    if !heap.may_give(table.place, table.length()) {
        return Err(AdfError::Layout {
            rule: 30,
            place: table.place,
        });
    }
    match heap.give(space, table.place, table.length()) {
        Ok(()) => Ok(()),
        Err(error) => Err(error),
    }
}

// The fields of a header that count so many children and one more, and name their longer table.
fn fields_of_table(count: u32, place: u64) -> [u8; 28]
    requires count { count < 2 ^ 20 }
    requires place { place < 2 ^ 44 }
    ensures { result ≡ table_fields place count }
{
    let mut fields = [0u8; 28];
    let next = put_number(&mut fields, 0, u64::from(count) + 1, 8);
    let next = put_number(&mut fields, next, u64::from(grown(count)), 8);
    put_pointer(&mut fields, next, from_place(place));
    fields
}

// Writes a longer table in room that was taken for it, which the header of the parent then names, and gives the old one.
pub(crate) fn replace_table<S: Space>(
    space: &mut S,
    heap: &mut Heap,
    parent: Parent,
    place: u64,
    entry: &[u8; 44],
) -> Result<(), AdfError>
    requires sound { S.is_sound space.old }
    requires ready { IfSome (S.image space.old) (MayReplace parent place heap.old.work) }
    requires header { parent.row.place + 246 ≤ 2 ^ 44 }
    requires table { parent.table.place + table_length parent.table.entries ≤ 2 ^ 44 }
    requires few { parent.table.count < 2 ^ 20 }
    requires full { parent.table.entries ≡ parent.table.count }
    requires near { place + table_length (grown_entries parent.table.count) ≤ 2 ^ 44 }
    ensures replaced { OnOk result (Both (ReplacesTable parent place entry.now heap.old.work
        heap.new.work) (S.image space.old) (S.image space.new)) }
    ensures waits { OnOk result (IfTold (S.image space.old)
        (WaitsInRoom (range place (longer_length parent) ∷ parent_ranges parent)
        heap.old.work.heap heap.new.work.heap (S.waiting space.old) (S.waiting space.new))) }
    ensures kept { KeepsHeap heap.old heap.new }
    ensures writes { AnswersWrite S.is_sound S.state S.waiting
        (24 + table_length (grown_entries parent.table.count) / 4096) OnlyReads
        (IsRefusal (IsUntold (S.image space.old))) space.old space.new result }
{
    match write_table(space, parent.table, place, entry) {
        Ok(()) => {}
        Err(error) => return Err(error),
    }
    let fields = fields_of_table(parent.table.count, place);
    match write_field(
        space,
        parent.row.place + NODE_CHILDREN.offset as u64,
        &fields,
    ) {
        Ok(()) => {}
        Err(error) => return Err(error),
    }
    match give_table(space, heap, parent.table) {
        Ok(()) => Ok(()),
        Err(error) => Err(error),
    }
}

/// Lists a child in a longer table, whose place the header of the parent then names, and gives the old one.
pub(crate) fn join_longer<S: Space>(
    space: &mut S,
    heap: &mut Heap,
    parent: Parent,
    entry: &[u8; 44],
) -> Result<(), AdfError>
    requires sound { S.is_sound space.old }
    requires ready { IfSome (S.image space.old) (IsReady heap.old.work) }
    requires own { IfSome (S.image space.old) (OwnsTable parent heap.old.work.heap) }
    requires header { parent.row.place + 246 ≤ 2 ^ 44 }
    requires table { parent.table.place + table_length parent.table.entries ≤ 2 ^ 44 }
    requires few { parent.table.count < 2 ^ 20 }
    requires full { parent.table.entries ≡ parent.table.count }
    ensures joined { OnOk result (Both (JoinsLonger heap.old.limit parent entry.now heap.old.work
        heap.new.work) (S.image space.old) (S.image space.new)) }
    ensures waits { OnOk result (IfTold (S.image space.old) (WaitsInRoom (parent_ranges parent)
        heap.old.work.heap heap.new.work.heap (S.waiting space.old) (S.waiting space.new))) }
    ensures kept { KeepsHeap heap.old heap.new }
    ensures writes { AnswersWrite S.is_sound S.state S.waiting
        (33 + table_length (grown_entries parent.table.count) / 4096) OnlyReads
        (IsRoomless (LacksBytes heap.old.limit (table_length (grown_entries parent.table.count))
        heap.old.work.heap) (IsUntold (S.image space.old))) space.old space.new result }
{
    let length = 20 + 44 * u64::from(grown(parent.table.count));
    let place = match take_room(space, heap, length) {
        Ok(place) => place,
        Err(error) => return Err(error),
    };
    match replace_table(space, heap, parent, place, entry) {
        Ok(()) => Ok(()),
        Err(error) => Err(error),
    }
}
