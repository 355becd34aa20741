//! Groups of edits, through links.

ghost use Rattle.std.specs.Prelude.{◌≡◌, ℕ, ◌++◌, Option, Some, None, IsSome, IfOk, IfErr, OnErr};
ghost use Rattle.adf_model.specs.declared.error.AdfError.{AdfError};
ghost use Rattle.adf_model.specs.Slots.{open_at};
ghost use Rattle.adf_model.specs.Steps.{AllLaidOut, Changed};
ghost use Rattle.adf_model.specs.Runs.{Makes};
ghost use Rattle.adf_follow.specs.Groups.{OnlyWaits, IsToldBy, IsDone, IsDoneAnyway, IsEditRefusal, IsRefusedAnyway, WaitsIn, made_in};

use crate::edited::EditedFiles;
use crate::edits::edit_one;
use adf_model::{AdfError, Edit, EditError, NodeId, Serials};
use std::alloc::Global;

/// Does all edits of a group, in the file that its first edit names or reaches, and answers the
/// nodes that were made; or does none. The edits wait until all are done, and are then written
/// together. A refusal names the edit, counted from 0, and leaves all files as they were; that of a
/// failed write stands behind all edits, and the file is broken. No memory is taken once a byte is
/// written.
pub fn edit_group<F: EditedFiles>(
    alloc: Global,
    files: &mut F,
    edits: &[Edit],
) -> Result<Serials, EditError>
    requires ready { F.is_ready files.old }
    requires rest { WaitsIn None (F.files files.old) (F.devices files.old) (F.pending files.old) }
    requires laid_out { AllLaidOut (F.files files.old) (F.devices files.old) }
    ensures ready { F.is_ready files.new }
    ensures rest { WaitsIn None (F.files files.new) (F.devices files.new) (F.pending files.new) }
    ensures edited { Makes (F.files files.old) (F.devices files.old) (Changed edits.now result)
        (F.devices files.new) (F.files files.new) }
{
    let mut created = Vec::new(alloc);
    let mut group = None;
    for (at, edit) in edits.iter().enumerate() {
        match edit_next(alloc, files, group, edit, &mut created) {
            Ok(number) => group = Some(number),
            Err(error) => return Err(EditError { at, error }),
        }
    }
    let number = match group {
        Some(number) => number,
        None => return Ok(Serials::new(created)),
    };
    match files.commit(number) {
        Ok(()) => Ok(Serials::new(created)),
        Err(error) => Err(EditError {
            at: edits.len(),
            error,
        }),
    }
}

// Does the next edit of a group, keeps the node that it made, and answers the file of the group.
// Where it is refused the whole group is dropped.
fn edit_next<F: EditedFiles>(
    alloc: Global,
    files: &mut F,
    group: Option<u32>,
    edit: &Edit,
    created: &mut Vec<NodeId>,
) -> Result<u32, AdfError>
    requires ready { F.is_ready files.old }
    requires own { (n : ℕ) → group ≡ Some n → IsSome (open_at (F.files files.old) n) }
    requires waiting { WaitsIn group (F.files files.old) (F.devices files.old)
        (F.pending files.old) }
    ensures ready { F.is_ready files.new }
    ensures kept { (F.pending files.new).kept ≡ (F.pending files.old).kept }
    ensures waits { OnlyWaits (F.files files.old) (F.devices files.old) (F.devices files.new)
        (F.files files.new) }
    ensures waiting { IfOk result (λ number. WaitsIn (Some number) (F.files files.new)
        (F.devices files.new) (F.pending files.new)) }
    ensures dropped { OnErr result (WaitsIn None (F.files files.new) (F.devices files.new)
        (F.pending files.new)) }
    ensures anyway { IfOk result (IsDoneAnyway (F.files files.old) (F.files files.new)
        (F.pending files.old).work (F.pending files.new).work group edit.now) }
    ensures done { IfOk result (λ number. (serial : Option ℕ)
        × (created.new.items ≡ created.old.items ++ made_in number serial)
        × (IsToldBy (F.files files.old) (F.devices files.old) edit.now → IsDone (F.files files.old)
        (F.files files.new) (F.pending files.old).work (F.pending files.new).work group edit.now
        number serial)) }
    ensures refused { IfErr result (λ error. IsToldBy (F.files files.old) (F.devices files.old)
        edit.now → IsEditRefusal (F.files files.old) (F.pending files.old).work group edit.now
        error) }
    ensures cause { IfErr result (IsRefusedAnyway (F.files files.old) (F.devices files.old)
        (F.devices files.new) edit.now) }
{
    match edit_one(alloc, files, group, edit) {
        Ok((number, serial)) => match keep_made(created, number, serial) {
            Ok(()) => Ok(number),
            Err(error) => {
                files.undo(number);
                Err(error)
            }
        },
        Err(error) => {
            match group {
                Some(number) => files.undo(number),
                None => {}
            }
            Err(error)
        }
    }
}

// Keeps the node of a serial that was drawn in a file, if one was.
fn keep_made(created: &mut Vec<NodeId>, file: u32, serial: Option<u64>) -> Result<(), AdfError>
    ensures made { IfOk result (λ kept. created.new.items
        ≡ created.old.items ++ made_in file serial) }
    ensures memory { IfErr result (λ error. error ≡ AdfError.Memory) }
{
    if let Some(serial) = serial {
        match created.push(NodeId { file, serial }) {
            Ok(()) => {}
            Err(_) => return Err(AdfError::Memory),
        }
    }
    Ok(())
}
