//! Names of nodes: an edit in place.

ghost use Rattle.std.specs.Prelude.{◌≡◌, ◌+◌, ◌^◌, ◌≤◌, [], ◌∷◌, IfErr, IfSome, OnOk};
ghost use Rattle.adf_format.specs.declared.types.ExtentKind.{ExtentKind};
ghost use Rattle.adf_format.specs.Pointer.{To};
ghost use Rattle.adf_format.specs.Records.{entry_text};
ghost use Rattle.adf_model.specs.declared.tree.Edit.{Edit};
ghost use Rattle.cg_io.specs.Answers.{AnswersWrite, IsRefusal, Then};
ghost use Rattle.cg_io.specs.Blocks.{Both, ReadsFew};
ghost use Rattle.tree_laws.specs.MidEdit.{Puts};
ghost use Rattle.tree_edits.specs.Rows.{AreNear};
ghost use Rattle.tree_edits.specs.Edits.{Does, Refuses};
ghost use Rattle.tree_edits.specs.Known.{ListsSiblings};
ghost use Rattle.tree_edits.specs.Listed.{ReadsTable, is_another};
ghost use Rattle.field_access.specs.Fields.{WaitsWithin, range};
ghost use Rattle.tree_edits.specs.Waiting.{Reaches};
ghost use Rattle.tree_edits.specs.Names.{IsNameCause, IsTableAbove, MayRename};

use crate::known::find_name;
use crate::listed::find_listed;
use crate::memory::Core;
use adf_chunks::{NodeEntry, encode_entry};
use adf_format::fields::NODE_NAME;
use adf_model::{AdfError, NodeId, is_name};
use cg_io::Space;
use disk_ptr::from_place;
use field_access::write_field;
use kept_names::Listed;
use node_reads::name_field;

// Whether what was found is an entry, and another than the one at a position.
fn is_another(found: Option<u32>, position: u32) -> bool
    ensures { result ≡ is_another found position }
{
    match found {
        Some(other) => other != position,
        None => false,
    }
}

// Writes a name into the header at a place, and into the entry that names that header.
fn write_name<S: Space>(
    space: &mut S,
    place: u64,
    entry: u64,
    name: &[u8; 32],
) -> Result<(), AdfError>
    requires sound { S.is_sound space.old }
    requires header { place + 246 ≤ 2 ^ 44 }
    requires entry { entry + 44 ≤ 2 ^ 44 }
    ensures written { OnOk result (Both (Then (Puts ExtentKind.Node (place + 4) 32 name.now)
        (Puts ExtentKind.SubNodes entry 44 (entry_text name.now (To place))))
        (S.image space.old) (S.image space.new)) }
    ensures waits { OnOk result (WaitsWithin (range (place + 4) 32 ∷ range entry 44 ∷ [])
        (S.waiting space.old) (S.waiting space.new)) }
    ensures writes { AnswersWrite S.is_sound S.state S.waiting 4 (ReadsFew 4) (IsRefusal ⊥)
        space.old space.new result }
{
    let text = encode_entry(&NodeEntry {
        name: *name,
        child: from_place(place),
    });
    match write_field(space, place + NODE_NAME.offset as u64, name) {
        Ok(()) => {}
        Err(error) => return Err(error),
    }
    write_field(space, entry, &text)
}

/// Gives a node another name. It keeps its place among the children of its parent. `known` are these, where they are kept.
pub fn rename<S: Space>(
    space: &mut S,
    core: &Core,
    node: NodeId,
    name: &[u8],
    known: Option<&Listed>,
) -> Result<(), AdfError>
    requires sound { S.is_sound space.old }
    requires near { AreNear core.now.wide core.now.rows.items }
    requires known { IfSome known (λ list. ListsSiblings core.now (S.image space.old)
        node.serial list.now) }
    ensures done { OnOk result (Both (Does (Edit.Rename node name.now) core.now core.now)
        (S.image space.old) (S.image space.new)) }
    ensures reached { OnOk result (IfSome (S.image space.old)
        (Reaches (Edit.Rename node name.now) core.now core.now (S.waiting space.old)
        (S.waiting space.new))) }
    ensures allowed { OnOk result (MayRename core.now node name.now (S.image space.old)) }
    ensures refused { IfErr result (λ e. IfSome (S.image space.old)
        (Refuses (Edit.Rename node name.now) core.now e)) }
    ensures writes { AnswersWrite S.is_sound S.state S.waiting 4
        (ReadsTable (IsTableAbove core.now node (S.image space.old)) 2 6)
        (IsNameCause core.now node name.now (S.image space.old)) space.old space.new result }
{
    let row = match core.rows.get(node.serial) {
        Some(row) => row,
        None => return Err(AdfError::NoSuchNode),
    };
    if !core.writable {
        return Err(AdfError::ReadOnly);
    }
    let parent = match row.parent {
        Some(parent) => parent,
        None => return Err(AdfError::NotAChild),
    };
    if !is_name(name) {
        return Err(AdfError::BadName);
    }
    let field = name_field(name);
    let listed = match find_listed(space, core, row.place, parent) {
        Ok(listed) => listed,
        Err(error) => return Err(error),
    };
    let found = match find_name(space, listed.table, &field, known) {
        Ok(found) => found,
        Err(_) => return Err(AdfError::ReadFault),
    };
    if is_another(found, listed.position) {
        return Err(AdfError::Duplicate);
    }
    write_name(
        space,
        row.place,
        listed.table.entry(listed.position),
        &field,
    )
}
