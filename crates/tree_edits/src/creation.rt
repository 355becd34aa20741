//! New nodes: a header in room that the heap gives, and an entry in the table of the parent.

ghost use Rattle.std.specs.Prelude.{◌≡◌, ℕ, ◌^◌, ◌+◌, ◌≤◌, [], ◌∷◌, length, Ok, IfErr, IfOk, IfSome, OnOk};
ghost use Rattle.adf_format.specs.HeapRule.{heap_take};
ghost use Rattle.adf_format.specs.Placement.{Placement};
ghost use Rattle.adf_format.specs.Records.{node_text};
ghost use Rattle.adf_format.specs.RecordFields.{node_length};
ghost use Rattle.adf_format.specs.Tree.{Tree};
ghost use Rattle.adf_model.specs.Creation.{empty_node};
ghost use Rattle.adf_model.specs.declared.tree.Edit.{Edit};
ghost use Rattle.adf_records.specs.View.{record_of, HasOffsets};
ghost use Rattle.cg_io.specs.Answers.{AnswersWrite, IsRefusal, IsUntold, OnlyReads};
ghost use Rattle.cg_io.specs.Blocks.{Both, ReadsFew};
ghost use Rattle.tree_edits.specs.Rows.{AreNear, Means};
ghost use Rattle.tree_edits.specs.Edits.{Does, Refuses, KeepsCore, memory_of};
ghost use Rattle.tree_edits.specs.Known.{ListsChildren};
ghost use Rattle.tree_edits.specs.Taken.{IsReady, FillsWith, TakesText, KeepsHeap, LacksBytes, IsRoomless};
ghost use Rattle.field_access.specs.Fields.{WaitsWithin, range};
ghost use Rattle.tree_edits.specs.Waiting.{TakesInRoom, IfTold, Reaches};
ghost use Rattle.tree_edits.specs.Created.{IsCreatable, IsCreateCause, CreatesWithin};

use crate::join::join_child;
use crate::memory::Core;
use crate::room::find_room;
use crate::rows::Row;
use adf_format::DataType;
use adf_model::{AdfError, NodeId};
use adf_records::{NodeHeader, encode_node, encode_wide, node_length};
use cg_io::Space;
use disk_ptr::DiskPtr;
use field_access::write_field;
use file_heap::Heap;
use kept_names::Listed;
use node_reads::name_field;

// The header of a node without shape, data and children.
fn new_header(wide: bool, name: &[u8], label: &[u8]) -> NodeHeader
    requires name { length name.now ≤ 32 }
    requires label { length label.now ≤ 32 }
    ensures offsets { HasOffsets result }
    ensures wide { result.wide ≡ wide }
    ensures says { record_of result ≡ empty_node wide name.now label.now }
{
    NodeHeader {
        wide,
        name: name_field(name),
        label: name_field(label),
        children: 0,
        entries: 0,
        table: DiskPtr::Blank,
        kind: DataType::Mt,
        rank: 0,
        dims: [[b'0'; 16]; 12],
        chunks: 0,
        chunk: DiskPtr::Blank,
    }
}

// Writes the text of a header.
fn write_text<S: Space, const N: usize>(
    space: &mut S,
    place: u64,
    text: &[u8; N],
) -> Result<(), AdfError>
    requires sound { S.is_sound space.old }
    requires few { N ≤ 342 }
    requires within { place + N ≤ 2 ^ 44 }
    ensures written { OnOk result (Both (FillsWith place N text.now)
        (S.image space.old) (S.image space.new)) }
    ensures waits { OnOk result (WaitsWithin (range place N ∷ []) (S.waiting space.old)
        (S.waiting space.new)) }
    ensures writes { AnswersWrite S.is_sound S.state S.waiting 2 (ReadsFew 2) (IsRefusal ⊥)
        space.old space.new result }
{
    write_field(space, place, text)
}

// Writes the header of a new node.
pub(crate) fn write_header<S: Space>(
    space: &mut S,
    place: u64,
    header: &NodeHeader,
) -> Result<(), AdfError>
    requires sound { S.is_sound space.old }
    requires offsets { HasOffsets header.now }
    requires within { place + node_length header.now.wide ≤ 2 ^ 44 }
    ensures written { OnOk result (Both (FillsWith place (node_length header.now.wide)
        (node_text (record_of header.now))) (S.image space.old) (S.image space.new)) }
    ensures waits { OnOk result (WaitsWithin (range place (node_length header.now.wide) ∷ [])
        (S.waiting space.old) (S.waiting space.new)) }
    ensures writes { AnswersWrite S.is_sound S.state S.waiting 2 (ReadsFew 2) (IsRefusal ⊥)
        space.old space.new result }
{
    if header.wide {
        write_text::<S, 342>(space, place, &encode_wide(header))
    } else {
        write_text::<S, 246>(space, place, &encode_node(header))
    }
}

// Takes room for the header of a new node, and writes it: its place.
fn make_header<S: Space>(
    space: &mut S,
    heap: &mut Heap,
    wide: bool,
    name: &[u8],
    label: &[u8],
) -> Result<u64, AdfError>
    requires sound { S.is_sound space.old }
    requires name { length name.now ≤ 32 }
    requires label { length label.now ≤ 32 }
    requires ready { IfSome (S.image space.old) (IsReady heap.old.work) }
    ensures made { IfOk result (λ place. Both (TakesText heap.old.limit (node_length wide) place
        (node_text (empty_node wide name.now label.now)) heap.old.work heap.new.work)
        (S.image space.old) (S.image space.new)) }
    ensures waits { IfOk result (λ place. IfTold (S.image space.old)
        (TakesInRoom (range place (node_length wide) ∷ []) heap.old.work.heap
        heap.new.work.heap (S.waiting space.old) (S.waiting space.new))) }
    ensures taken { IfOk result (λ place. heap_take heap.old.limit (node_length wide)
        heap.old.work.heap ≡ Ok (place, heap.new.work.heap)) }
    ensures near { IfOk result (λ place. place + node_length wide ≤ 2 ^ 44) }
    ensures kept { KeepsHeap heap.old heap.new }
    ensures writes { AnswersWrite S.is_sound S.state S.waiting 11 (ReadsFew 66)
        (IsRoomless (LacksBytes heap.old.limit (node_length wide) heap.old.work.heap)
        (IsUntold (S.image space.old))) space.old space.new result }
{
    let place = match heap.take(space, node_length(wide) as u64) {
        Ok(place) => place,
        Err(error) => return Err(error),
    };
    match write_header(space, place, &new_header(wide, name, label)) {
        Ok(()) => Ok(place),
        Err(error) => Err(error),
    }
}

/// Makes a node without shape, data and children, the last child of another: its serial. `known` are the children of that other, where
/// they are kept: none of its entries is read then.
pub fn create<S: Space>(
    space: &mut S,
    core: &mut Core,
    at: NodeId,
    name: &[u8],
    label: &[u8],
    known: Option<&Listed>,
) -> Result<u64, AdfError>
    requires sound { S.is_sound space.old }
    requires near { AreNear core.old.wide core.old.rows.items }
    requires means { IfSome (S.image space.old)
        (λ bytes. (tree : Tree) × (p : Placement) × Means bytes tree p (memory_of core.old)) }
    requires known { IfSome known (λ list. ListsChildren core.old (S.image space.old) at.serial
        list.now) }
    ensures done { OnOk result (Both (Does (Edit.Create at name.now label.now) core.old core.new)
        (S.image space.old) (S.image space.new)) }
    ensures reached { OnOk result (IfSome (S.image space.old)
        (Reaches (Edit.Create at name.now label.now) core.old core.new (S.waiting space.old)
        (S.waiting space.new))) }
    ensures serial { IfOk result (λ serial. serial ≡ length core.old.rows.items) }
    ensures allowed { OnOk result (IsCreatable core.old at name.now label.now (S.image space.old)) }
    ensures refused { IfErr result (λ e. IfSome (S.image space.old)
        (Refuses (Edit.Create at name.now label.now) core.old e)) }
    ensures kept { KeepsCore core.old core.new }
    ensures near { AreNear core.new.wide core.new.rows.items }
    ensures writes { (n : ℕ) × CreatesWithin core.old at (S.image space.old) n
        × AnswersWrite S.is_sound S.state S.waiting n OnlyReads
        (IsCreateCause core.old at name.now label.now (S.image space.old))
        space.old space.new result }
{
    let parent = match find_room(space, core, at, name, label, known) {
        Ok(parent) => parent,
        Err(error) => return Err(error),
    };
    let serial = core.rows.count() as u64;
    let wide = core.wide;
    let place = match make_header(space, &mut core.heap, wide, name, label) {
        Ok(place) => place,
        Err(error) => return Err(error),
    };
    match join_child(space, &mut core.heap, parent, name, place) {
        Ok(()) => {}
        Err(error) => return Err(error),
    }
    let row = Row {
        place,
        parent: Some(at.serial),
        depth: parent.row.depth + 1,
    };
    match core.rows.add(row) {
        Ok(()) => Ok(serial),
        Err(_) => Err(AdfError::Memory),
    }
}
