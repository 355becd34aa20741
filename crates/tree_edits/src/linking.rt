//! Links: nodes whose data are the path of another node, in the same file or in another.

ghost use Rattle.std.specs.Prelude.{◌≡◌, ◌↔◌, ℕ, ◌^◌, ◌+◌, ◌*◌, ◌≤◌, length, Err, IsFalse, IfErr, IfOk, IfSome, OnOk};
ghost use Rattle.adf_format.specs.Links.{is_link_file, is_link_path, link_text};
ghost use Rattle.adf_format.specs.Placement.{Placement};
ghost use Rattle.adf_format.specs.RecordFields.{node_length, table_length};
ghost use Rattle.adf_format.specs.Tree.{Tree};
ghost use Rattle.adf_model.specs.declared.error.AdfError.{AdfError};
ghost use Rattle.adf_model.specs.declared.tree.Edit.{Edit};
ghost use Rattle.cg_io.specs.Answers.{AnswersRead, AnswersWrite, OnlyReads};
ghost use Rattle.cg_io.specs.Blocks.{Both};
ghost use Rattle.tree_edits.specs.Rows.{AreNear, Means};
ghost use Rattle.tree_edits.specs.Edits.{Does, Refuses, KeepsCore, memory_of};
ghost use Rattle.tree_edits.specs.Known.{ListsChildren};
ghost use Rattle.tree_edits.specs.Listed.{ReadsTable, IsTableOf};
ghost use Rattle.tree_edits.specs.Waiting.{Reaches};
ghost use Rattle.tree_edits.specs.Linkable.{MayLink, IsLinkable, IsLinkRoomCause, IsLinkCause, LinksWithin, link_error};

use crate::link_parts::put_link;
use crate::memory::Core;
use crate::room::{Parent, find_room};
use crate::rows::Row;
use adf_links::join_link;
use adf_model::{AdfError, NodeId, Text};
use cg_io::Space;
use kept_names::Listed;
use std::alloc::Global;

/// A node that may get a link, and the text of that link.
#[derive(Drop)]
struct LinkRoom {
    parent: Parent,
    text: Text,
}

// Whether a file and a path are those of a link, as was found where they were joined.
fn is_linked(joined: &Result<Text, AdfError>) -> bool
    ensures { IsFalse result ↔ (joined.now ≡ Err AdfError.BadLink) }
{
    match joined {
        Err(AdfError::BadLink) => false,
        _ => true,
    }
}

// The refusal of a link where a node would be refused: serials are counted only for what is a link.
fn link_error(error: AdfError, linked: bool) -> AdfError
    ensures { result ≡ link_error error linked }
{
    match error {
        AdfError::TooLarge => {
            if linked {
                AdfError::TooLarge
            } else {
                AdfError::BadLink
            }
        }
        other => other,
    }
}

// The node that may get a link with a name, and the text of the link.
fn find_link_room<S: Space>(
    alloc: Global,
    space: &mut S,
    core: &Core,
    at: NodeId,
    name: &[u8],
    file: &[u8],
    path: &[u8],
    known: Option<&Listed>,
) -> Result<LinkRoom, AdfError>
    requires sound { S.is_sound space.old }
    requires near { AreNear core.now.wide core.now.rows.items }
    requires known { IfSome known (λ list. ListsChildren core.now (S.image space.old) at.serial
        list.now) }
    ensures room { IfOk result (λ room. MayLink core.now at name.now file.now path.now
        (S.image space.old) room.parent) }
    ensures text { IfOk result (λ room. room.text ≡ link_text file.now path.now) }
    ensures within { IfOk result (λ room. room.parent.table.place
        + table_length room.parent.table.entries ≤ 2 ^ 44) }
    ensures few { IfOk result (λ room. room.parent.table.count ≤ room.parent.table.entries) }
    ensures refused { IfErr result (λ e. IfSome (S.image space.old)
        (Refuses (Edit.Link at name.now file.now path.now) core.now e)) }
    ensures reads { AnswersRead S.is_sound S.image S.state S.waiting
        (ReadsTable (IsTableOf core.now (S.image space.old) at.serial) 1 2)
        (IsLinkRoomCause core.now at name.now file.now path.now (S.image space.old))
        space.old space.new result }
{
    let joined = join_link(alloc, file, path);
    let parent = match find_room(space, core, at, name, b"", known) {
        Ok(parent) => parent,
        Err(error) => return Err(link_error(error, is_linked(&joined))),
    };
    match joined {
        Ok(text) => Ok(LinkRoom { parent, text }),
        Err(error) => Err(error),
    }
}

/// Makes a link to a path in a file, the last child of a node: its serial. An empty file is the link's own. `known` are the children of
/// that node, where they are kept.
pub fn link<S: Space>(
    alloc: Global,
    space: &mut S,
    core: &mut Core,
    at: NodeId,
    name: &[u8],
    file: &[u8],
    path: &[u8],
    known: Option<&Listed>,
) -> Result<u64, AdfError>
    requires sound { S.is_sound space.old }
    requires near { AreNear core.old.wide core.old.rows.items }
    requires means { IfSome (S.image space.old)
        (λ bytes. (tree : Tree) × (p : Placement) × Means bytes tree p (memory_of core.old)) }
    requires known { IfSome known (λ list. ListsChildren core.old (S.image space.old) at.serial
        list.now) }
    ensures done { OnOk result (Both (Does (Edit.Link at name.now file.now path.now) core.old
        core.new) (S.image space.old) (S.image space.new)) }
    ensures reached { OnOk result (IfSome (S.image space.old)
        (Reaches (Edit.Link at name.now file.now path.now) core.old core.new
        (S.waiting space.old) (S.waiting space.new))) }
    ensures serial { IfOk result (λ serial. serial ≡ length core.old.rows.items) }
    ensures allowed { OnOk result (IsLinkable core.old at name.now file.now path.now
        (S.image space.old)) }
    ensures refused { IfErr result (λ e. IfSome (S.image space.old)
        (Refuses (Edit.Link at name.now file.now path.now) core.old e)) }
    ensures kept { KeepsCore core.old core.new }
    ensures near { AreNear core.new.wide core.new.rows.items }
    ensures writes { (n : ℕ) × LinksWithin core.old at (S.image space.old) n
        × AnswersWrite S.is_sound S.state S.waiting n OnlyReads
        (IsLinkCause core.old at name.now file.now path.now (S.image space.old))
        space.old space.new result }
{
    let room = match find_link_room(alloc, space, core, at, name, file, path, known) {
        Ok(room) => room,
        Err(error) => return Err(error),
    };
    let serial = core.rows.count() as u64;
    let wide = core.wide;
    let text = room.text.items();
    let place = match put_link(alloc, space, &mut core.heap, wide, room.parent, name, text) {
        Ok(place) => place,
        Err(error) => return Err(error),
    };
    let row = Row {
        place,
        parent: Some(at.serial),
        depth: room.parent.row.depth + 1,
    };
    match core.rows.add(row) {
        Ok(()) => Ok(serial),
        Err(_) => Err(AdfError::Memory),
    }
}
