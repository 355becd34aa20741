//! A new child is listed by its parent: in an unused entry of its table, or in a longer table.

ghost use Rattle.std.specs.Prelude.{◌≡◌, ◌^◌, ◌+◌, ◌*◌, ◌≤◌, ◌<◌, suc, length, IfSome, OnOk};
ghost use Rattle.adf_format.specs.declared.types.ExtentKind.{ExtentKind};
ghost use Rattle.adf_format.specs.Fields.{text_field};
ghost use Rattle.adf_format.specs.Hex.{hex_text};
ghost use Rattle.adf_format.specs.Pointer.{To};
ghost use Rattle.adf_format.specs.Records.{entry_text};
ghost use Rattle.adf_format.specs.RecordFields.{table_length};
ghost use Rattle.cg_io.specs.Answers.{AnswersWrite, IsRefusal, IsUntold, OnlyReads, Then};
ghost use Rattle.cg_io.specs.Blocks.{Both, ReadsFew};
ghost use Rattle.tree_laws.specs.MidEdit.{Puts};
ghost use Rattle.tree_edits.specs.Taken.{IsReady, KeepsHeap, IsRoomless};
ghost use Rattle.field_access.specs.Fields.{WaitsWithin};
ghost use Rattle.tree_edits.specs.Joined.{OwnsTable, JoinsChild, LacksTable, join_cost};
ghost use Rattle.tree_edits.specs.Waiting.{WaitsInRoom, IfTold, parent_ranges};

use crate::longer::join_longer;
use crate::room::Parent;
use adf_chunks::{NodeEntry, encode_entry};
use adf_format::fields::NODE_CHILDREN;
use adf_model::AdfError;
use cg_io::Space;
use disk_ptr::from_place;
use field_access::{write_field, write_number};
use file_heap::Heap;
use node_reads::name_field;

/// Lists a child in an unused entry, and counts it.
pub fn join_unused<S: Space>(
    space: &mut S,
    parent: Parent,
    entry: &[u8; 44],
) -> Result<(), AdfError>
    requires sound { S.is_sound space.old }
    requires header { parent.row.place + 246 ≤ 2 ^ 44 }
    requires table { parent.table.place + table_length parent.table.entries ≤ 2 ^ 44 }
    requires unused { parent.table.count < parent.table.entries }
    ensures written { OnOk result (Both (Then
        (Puts ExtentKind.SubNodes (parent.table.place + 16 + 44 * parent.table.count) 44 entry.now)
        (Puts ExtentKind.Node (parent.row.place + 68) 8 (hex_text 8 (suc parent.table.count))))
        (S.image space.old) (S.image space.new)) }
    ensures waits { OnOk result (WaitsWithin (parent_ranges parent) (S.waiting space.old)
        (S.waiting space.new)) }
    ensures writes { AnswersWrite S.is_sound S.state S.waiting 4 (ReadsFew 4) (IsRefusal ⊥)
        space.old space.new result }
{
    match write_field(space, parent.table.entry(parent.table.count), entry) {
        Ok(()) => {}
        Err(error) => return Err(error),
    }
    write_number::<S, 8>(
        space,
        parent.row.place + NODE_CHILDREN.offset as u64,
        u64::from(parent.table.count) + 1,
    )
}

// The entry of a child whose header stands at a place.
pub(crate) fn entry_of(name: &[u8], place: u64) -> [u8; 44]
    requires name { length name.now ≤ 32 }
    requires near { place < 2 ^ 44 }
    ensures { result ≡ entry_text (text_field 32 name.now) (To place) }
{
    encode_entry(&NodeEntry {
        name: name_field(name),
        child: from_place(place),
    })
}

/// Lists a child whose header stands at a place as the last one of its parent.
pub(crate) fn join_child<S: Space>(
    space: &mut S,
    heap: &mut Heap,
    parent: Parent,
    name: &[u8],
    place: u64,
) -> Result<(), AdfError>
    requires sound { S.is_sound space.old }
    requires name { length name.now ≤ 32 }
    requires near { place < 2 ^ 44 }
    requires ready { IfSome (S.image space.old) (IsReady heap.old.work) }
    requires own { IfSome (S.image space.old) (OwnsTable parent heap.old.work.heap) }
    requires header { parent.row.place + 246 ≤ 2 ^ 44 }
    requires table { parent.table.place + table_length parent.table.entries ≤ 2 ^ 44 }
    requires few { parent.table.count < 2 ^ 20 }
    requires within { parent.table.count ≤ parent.table.entries }
    ensures joined { OnOk result (Both (JoinsChild heap.old.limit parent
        (entry_text (text_field 32 name.now) (To place)) heap.old.work heap.new.work)
        (S.image space.old) (S.image space.new)) }
    ensures waits { OnOk result (IfTold (S.image space.old) (WaitsInRoom (parent_ranges parent)
        heap.old.work.heap heap.new.work.heap (S.waiting space.old) (S.waiting space.new))) }
    ensures kept { KeepsHeap heap.old heap.new }
    ensures writes { AnswersWrite S.is_sound S.state S.waiting (join_cost parent.table) OnlyReads
        (IsRoomless (LacksTable heap.old.limit parent heap.old.work.heap)
        (IsUntold (S.image space.old))) space.old space.new result }
{
    let entry = entry_of(name, place);
    if parent.table.count < parent.table.entries {
        return join_unused(space, parent, &entry);
    }
    join_longer(space, heap, parent, &entry)
}
