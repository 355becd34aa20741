//! One edit of a group, through links.

ghost use Rattle.std.specs.Prelude.{◌≡◌, ◌==◌, ℕ, true, not, Some, None, is_some, IsSome, unwrap_or, IfOk, IfErr, OnErr};
ghost use Rattle.std.specs.List.{list_any};
ghost use Rattle.adf_model.specs.Calls.{file_of, tests_at_entry};
ghost use Rattle.adf_model.specs.Tests.{first_refusal};
ghost use Rattle.adf_model.specs.Edits.{named_nodes, followed};
ghost use Rattle.adf_model.specs.Slots.{open_at};
ghost use Rattle.adf_model.specs.Causes.{OnlyAsks};
ghost use Rattle.adf_model.specs.declared.error.AdfError.{AdfError};
ghost use Rattle.adf_follow.specs.Groups.{with_there, or_there, led_to, OnlyWaits, AreOpen, IsToldBy, IsDone, IsDoneAnyway, IsEditRefusal, IsRefusedAnyway, LeavesUndone};
ghost use Rattle.adf_follow.specs.Looking.{IsWalked, as_is};

use crate::edited::EditedFiles;
use crate::lookups::OpenFiles;
use crate::walks::reach;
use adf_model::{AdfError, Edit, NodeId};
use std::alloc::Global;

/// Does one edit of a group, in the file of its nodes, which is that of the group where it has one, and
/// answers that file and the serial that was drawn. First come the refusals of its files and nodes, then
/// those of its links, then OtherFile where a node stands in another file than the group's, then those
/// of the edit itself. A refused edit leaves all as it was, or drops what waited in its file.
#[tactic(auto, using(crate::proofs::Waits::waits_none, crate::proofs::Waits::asks_wait, crate::proofs::Waits::waits_behind))]
pub fn edit_one<F: EditedFiles>(
    alloc: Global,
    files: &mut F,
    group: Option<u32>,
    edit: &Edit,
) -> Result<(u32, Option<u64>), AdfError>
    requires ready { F.is_ready files.old }
    requires own { (n : ℕ) → group ≡ Some n → IsSome (open_at (F.files files.old) n) }
    ensures ready { F.is_ready files.new }
    ensures kept { (F.pending files.new).kept ≡ (F.pending files.old).kept }
    ensures waits { OnlyWaits (F.files files.old) (F.devices files.old) (F.devices files.new)
        (F.files files.new) }
    ensures anyway { IfOk result (λ done. IsDoneAnyway (F.files files.old) (F.files files.new)
        (F.pending files.old).work (F.pending files.new).work group edit.now done.0) }
    ensures done { IfOk result (λ done. IsToldBy (F.files files.old) (F.devices files.old) edit.now
        → IsDone (F.files files.old) (F.files files.new) (F.pending files.old).work
        (F.pending files.new).work group edit.now done.0 done.1) }
    ensures refused { IfErr result (λ error. IsToldBy (F.files files.old) (F.devices files.old)
        edit.now → IsEditRefusal (F.files files.old) (F.pending files.old).work group edit.now
        error) }
    ensures cause { IfErr result (IsRefusedAnyway (F.files files.old) (F.devices files.old)
        (F.devices files.new) edit.now) }
    ensures undone { OnErr result (LeavesUndone group (F.files files.old) (F.pending files.old)
        (F.devices files.new) (F.pending files.new) (F.files files.new)) }
{
    match files.enter(edit) {
        Ok(()) => {}
        Err(error) => return Err(error),
    }
    let there = match lead(alloc, files, edit) {
        Ok(there) => there,
        Err(error) => return Err(error),
    };
    let number = group_file(group, edit, there);
    if is_elsewhere(edit, there, number) {
        return Err(AdfError::OtherFile);
    }
    match files.step(number, edit, there) {
        Ok(serial) => Ok((number, serial)),
        Err(error) => Err(error),
    }
}

// The node that an edit follows, once its links are followed.
fn lead<F: OpenFiles>(alloc: Global, files: &mut F, edit: &Edit) -> Result<Option<NodeId>, AdfError>
    requires ready { F.is_ready files.old }
    requires entered { first_refusal (tests_at_entry (F.files files.old) (named_nodes edit.now))
        ≡ None }
    ensures ready { F.is_ready files.new }
    ensures pending { F.pending files.new ≡ F.pending files.old }
    ensures leaves { OnlyAsks (F.files files.old) (F.devices files.old) (F.devices files.new)
        (F.files files.new) }
    ensures follows { OnErr result (is_some (followed edit.now) ≡ true) }
    ensures opens { AreOpen (F.files files.old) (named_nodes edit.now) → IfOk result (λ there.
        AreOpen (F.files files.old) (named_nodes (with_there edit.now there))) }
    ensures found { IsWalked (IsToldBy (F.files files.old) (F.devices files.old) edit.now)
        AdfError.LinkMissing (F.files files.old) (F.devices files.old) (F.devices files.new) as_is
        (led_to (F.files files.old) edit.now) result }
{
    match followed_node(edit) {
        Some(node) => match reach(alloc, files, node) {
            Ok(there) => Ok(Some(there)),
            Err(error) => Err(error),
        },
        None => Ok(None),
    }
}

fn followed_node(edit: &Edit) -> Option<NodeId>
    ensures { result ≡ followed edit.now }
{
    match edit {
        Edit::Create { parent, .. } | Edit::Link { parent, .. } | Edit::Move { parent, .. } => {
            Some(*parent)
        }
        Edit::SetLabel { node, .. }
        | Edit::SetDims { node, .. }
        | Edit::PutAll { node, .. }
        | Edit::PutPart { node, .. } => Some(*node),
        Edit::Delete { .. } | Edit::Rename { .. } => None,
    }
}

// The file of a group, or that of the first node of its first edit.
fn group_file(group: Option<u32>, edit: &Edit, there: Option<NodeId>) -> u32
    ensures { result ≡ unwrap_or group (file_of (named_nodes (with_there edit.now there))) }
{
    match group {
        Some(number) => number,
        None => first_file(edit, there),
    }
}

// The file of the first node of an edit, of which one node was reached.
fn first_file(edit: &Edit, there: Option<NodeId>) -> u32
    ensures { result ≡ file_of (named_nodes (with_there edit.now there)) }
{
    match edit {
        Edit::Delete { node } | Edit::Rename { node, .. } | Edit::Move { node, .. } => node.file,
        Edit::Create { parent, .. } | Edit::Link { parent, .. } => or_there(*parent, there).file,
        Edit::SetLabel { node, .. }
        | Edit::SetDims { node, .. }
        | Edit::PutAll { node, .. }
        | Edit::PutPart { node, .. } => or_there(*node, there).file,
    }
}

fn or_there(node: NodeId, there: Option<NodeId>) -> NodeId
    ensures { result ≡ or_there node there }
{
    match there {
        Some(there) => there,
        None => node,
    }
}

// Whether an edit, of which one node was reached, names a node of another file.
fn is_elsewhere(edit: &Edit, there: Option<NodeId>, number: u32) -> bool
    ensures { result ≡ list_any (λ node. not (node.file == number))
        (named_nodes (with_there edit.now there)) }
{
    match edit {
        Edit::Move { node, parent } => {
            node.file != number || or_there(*parent, there).file != number
        }
        _ => first_file(edit, there) != number,
    }
}
