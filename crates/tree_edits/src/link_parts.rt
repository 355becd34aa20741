//! The parts of a link: its header and its chunk are written, and its parent lists it.

ghost use Rattle.std.specs.Prelude.{◌≡◌, ◌^◌, ◌+◌, ◌≤◌, ◌<◌, [], ◌∷◌, ◌++◌, length, map, take, IfOk, IfSome, OnOk};
ghost use Rattle.adf_format.specs.Fields.{text_field};
ghost use Rattle.adf_format.specs.HeapRule.{chunk_length_for};
ghost use Rattle.adf_format.specs.Hex.{hex_text};
ghost use Rattle.adf_format.specs.Parts.{dimension_digits};
ghost use Rattle.adf_format.specs.Pointer.{To};
ghost use Rattle.adf_format.specs.Records.{entry_text};
ghost use Rattle.adf_format.specs.RecordFields.{node_length, table_length};
ghost use Rattle.adf_records.specs.View.{record_of, HasOffsets};
ghost use Rattle.cg_io.specs.Answers.{AnswersWrite, IsRefusal, IsUntold, OnlyReads};
ghost use Rattle.cg_io.specs.Blocks.{Both, ReadsFew};
ghost use Rattle.tree_laws.specs.NodeJoin.{link_record};
ghost use Rattle.tree_edits.specs.Taken.{IsReady, KeepsHeap, IsRoomless, FillsWith};
ghost use Rattle.tree_edits.specs.Joined.{OwnsTable, join_cost};
ghost use Rattle.field_access.specs.Fields.{WaitsWithin, range};
ghost use Rattle.tree_edits.specs.Waiting.{WaitsInRoom, IfTold, parent_ranges, table_room};
ghost use Rattle.tree_edits.specs.Linked.{FitsTable, MayList, ListsIn, LacksRooms, WritesLink, PutsLink, chunk_text};

use crate::chunk::{chunk_length, chunk_text};
use crate::creation::write_header;
use crate::join::{entry_of, join_unused};
use crate::link_rooms::{Rooms, take_rooms};
use crate::longer::replace_table;
use crate::room::Parent;
use adf_format::DataType;
use adf_model::AdfError;
use adf_records::NodeHeader;
use cg_io::Space;
use disk_ptr::fields::put_number;
use disk_ptr::{DiskPtr, from_place};
use field_access::write_field;
use file_heap::Heap;
use node_reads::name_field;
use std::alloc::Global;

// A dimension in the digits of the version.
fn dimension(value: u64, wide: bool) -> [u8; 16]
    requires { value < 16 ^ dimension_digits wide }
    ensures { take (dimension_digits wide) result ≡ hex_text (dimension_digits wide) value }
{
    let mut text = [0u8; 16];
    let _ = put_number(&mut text, 0, value, if wide { 16 } else { 8 });
    text
}

// The header of a link whose text has so many bytes, which stand in the chunk at a place.
fn link_header(wide: bool, name: &[u8], size: u64, chunk: u64) -> NodeHeader
    requires name { length name.now ≤ 32 }
    requires size { size ≤ 4096 }
    requires chunk { chunk < 2 ^ 44 }
    ensures offsets { HasOffsets result }
    ensures wide { result.wide ≡ wide }
    ensures says { record_of result ≡ link_record wide name.now size chunk }
{
    let mut dims = [[b'0'; 16]; 12];
    dims[0] = dimension(size, wide);
    NodeHeader {
        wide,
        name: name_field(name),
        label: name_field(b""),
        children: 0,
        entries: 0,
        table: DiskPtr::Blank,
        kind: DataType::Lk,
        rank: 1,
        dims,
        chunks: 1,
        chunk: from_place(chunk),
    }
}

// Writes the chunk of a link.
fn write_chunk<S: Space>(
    alloc: Global,
    space: &mut S,
    place: u64,
    text: &[u8],
) -> Result<(), AdfError>
    requires sound { S.is_sound space.old }
    requires few { length text.now ≤ 4096 }
    requires near { place + chunk_length_for (length text.now) ≤ 2 ^ 44 }
    ensures written { OnOk result (Both (FillsWith place (chunk_length_for (length text.now))
        (chunk_text place text.now)) (S.image space.old) (S.image space.new)) }
    ensures waits { OnOk result (WaitsWithin (range place (chunk_length_for (length text.now))
        ∷ []) (S.waiting space.old) (S.waiting space.new)) }
    ensures writes { AnswersWrite S.is_sound S.state S.waiting 3 (ReadsFew 3) (IsRefusal ⊥)
        space.old space.new result }
{
    let chunk = match chunk_text(alloc, place, text) {
        Ok(chunk) => chunk,
        Err(error) => return Err(error),
    };
    write_field(space, place, &chunk)
}

// Writes the chunk and the header of a link.
fn write_link<S: Space>(
    alloc: Global,
    space: &mut S,
    wide: bool,
    rooms: Rooms,
    name: &[u8],
    text: &[u8],
) -> Result<(), AdfError>
    requires sound { S.is_sound space.old }
    requires name { length name.now ≤ 32 }
    requires few { length text.now ≤ 4096 }
    requires header { rooms.header + node_length wide ≤ 2 ^ 44 }
    requires chunk { rooms.chunk + chunk_length_for (length text.now) ≤ 2 ^ 44 }
    ensures written { OnOk result (Both (WritesLink wide name.now text.now rooms)
        (S.image space.old) (S.image space.new)) }
    ensures waits { OnOk result (WaitsWithin (range rooms.chunk (chunk_length_for
        (length text.now)) ∷ range rooms.header (node_length wide) ∷ [])
        (S.waiting space.old) (S.waiting space.new)) }
    ensures writes { AnswersWrite S.is_sound S.state S.waiting 5 OnlyReads (IsRefusal ⊥)
        space.old space.new result }
{
    match write_chunk(alloc, space, rooms.chunk, text) {
        Ok(()) => {}
        Err(error) => return Err(error),
    }
    let header = link_header(wide, name, text.len() as u64, rooms.chunk);
    write_header(space, rooms.header, &header)
}

// Lists a child as the last of its parent: in an unused entry, or in a longer table, where there is room for it.
fn list_child<S: Space>(
    space: &mut S,
    heap: &mut Heap,
    parent: Parent,
    table: Option<u64>,
    entry: &[u8; 44],
) -> Result<(), AdfError>
    requires sound { S.is_sound space.old }
    requires ready { IfSome (S.image space.old) (MayList parent table heap.old.work) }
    requires header { parent.row.place + 246 ≤ 2 ^ 44 }
    requires table { parent.table.place + table_length parent.table.entries ≤ 2 ^ 44 }
    requires few { parent.table.count < 2 ^ 20 }
    requires fits { FitsTable parent table }
    ensures listed { OnOk result (Both (ListsIn parent entry.now table heap.old.work
        heap.new.work) (S.image space.old) (S.image space.new)) }
    ensures waits { OnOk result (IfTold (S.image space.old)
        (WaitsInRoom (table_room parent table ++ parent_ranges parent) heap.old.work.heap
        heap.new.work.heap (S.waiting space.old) (S.waiting space.new))) }
    ensures kept { KeepsHeap heap.old heap.new }
    ensures writes { AnswersWrite S.is_sound S.state S.waiting (join_cost parent.table) OnlyReads
        (IsRefusal (IsUntold (S.image space.old))) space.old space.new result }
{
    match table {
        None => join_unused(space, parent, entry),
        Some(place) => replace_table(space, heap, parent, place, entry),
    }
}

/// Takes room for a link, writes its parts, and lists it as the last child of its parent: the place of its header.
pub(crate) fn put_link<S: Space>(
    alloc: Global,
    space: &mut S,
    heap: &mut Heap,
    wide: bool,
    parent: Parent,
    name: &[u8],
    text: &[u8],
) -> Result<u64, AdfError>
    requires sound { S.is_sound space.old }
    requires name { length name.now ≤ 32 }
    requires short { length text.now ≤ 4096 }
    requires ready { IfSome (S.image space.old) (IsReady heap.old.work) }
    requires own { IfSome (S.image space.old) (OwnsTable parent heap.old.work.heap) }
    requires header { parent.row.place + 246 ≤ 2 ^ 44 }
    requires table { parent.table.place + table_length parent.table.entries ≤ 2 ^ 44 }
    requires few { parent.table.count < 2 ^ 20 }
    requires within { parent.table.count ≤ parent.table.entries }
    ensures put { IfOk result (λ place. Both (PutsLink heap.old.limit wide parent name.now
        text.now place heap.old.work heap.new.work) (S.image space.old) (S.image space.new)) }
    ensures waits { OnOk result (IfTold (S.image space.old) (WaitsInRoom (parent_ranges parent)
        heap.old.work.heap heap.new.work.heap (S.waiting space.old) (S.waiting space.new))) }
    ensures near { IfOk result (λ place. place + node_length wide ≤ 2 ^ 44) }
    ensures kept { KeepsHeap heap.old heap.new }
    ensures writes { AnswersWrite S.is_sound S.state S.waiting (32 + join_cost parent.table)
        OnlyReads (IsRoomless (LacksRooms heap.old.limit (node_length wide)
        (chunk_length_for (length text.now)) parent heap.old.work.heap)
        (IsUntold (S.image space.old))) space.old space.new result }
{
    let rooms = match take_rooms(space, heap, wide, parent, chunk_length(text.len())) {
        Ok(rooms) => rooms,
        Err(error) => return Err(error),
    };
    match write_link(alloc, space, wide, rooms, name, text) {
        Ok(()) => {}
        Err(error) => return Err(error),
    }
    let entry = entry_of(name, rooms.header);
    match list_child(space, heap, parent, rooms.table, &entry) {
        Ok(()) => Ok(rooms.header),
        Err(error) => Err(error),
    }
}
