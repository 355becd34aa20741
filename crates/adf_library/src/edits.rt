//! Edits in work on one file, their commit and their undo.

ghost use Rattle.std.specs.Prelude.{◌≡◌, IfOk, IfErr, OnOk, OnErr, IsSome};
ghost use Rattle.adf_follow.specs.Groups.{with_there};
ghost use Rattle.adf_follow.specs.Looking.{HasStepCause};
ghost use Rattle.adf_library.specs.Edits.{CommitsPlace, IsDropped, StaysWaiting, StepsPlace, RefusesPlace};
ghost use Rattle.adf_library.specs.Places.{IsReadySlot, device_of_slot, file_of, in_work};
ghost use Rattle.adf_model.specs.Slots.{IsToldAt, Standing, open_of, standing_of};
ghost use Rattle.adf_model.specs.declared.error.AdfError.{AdfError};

use crate::places::{Place, Slot};
use adf_model::{AdfError, Edit, NodeId};
use cg_io::Device;

/// Does one edit on the tree in work of an open file, of the node that was reached. A refused edit drops all that
/// waited.
pub(crate) fn step_in<D: Device>(
    slot: &mut Slot<D>,
    edit: &Edit,
    there: Option<NodeId>,
) -> Result<Option<u64>, AdfError>
    requires ready { IsReadySlot D.state slot.old }
    requires opened { IsSome (open_of (file_of in_work D.state slot.old).slot) }
    ensures ready { IsReadySlot D.state slot.new }
    ensures waits { StaysWaiting D.state slot.old slot.new }
    ensures done { IfOk result (StepsPlace D.state (with_there edit.now there) slot.old
        slot.new) }
    ensures refused { IfErr result (RefusesPlace D.state edit.now (with_there edit.now there)
        slot.old slot.new) }
    ensures undone { OnErr result (IsDropped D.state slot.old slot.new) }
{
    match &mut slot.place {
        Place::Open(file) => file.step_at(edit, there),
        _ => unreachable!(),
    }
}

/// Writes what waits in an open file. After a failed write, the one refusal, the file is broken. It takes no memory.
pub(crate) fn commit_in<D: Device>(slot: &mut Slot<D>) -> Result<(), AdfError>
    requires ready { IsReadySlot D.state slot.old }
    requires opened { IsSome (open_of (file_of in_work D.state slot.old).slot) }
    ensures ready { IsReadySlot D.state slot.new }
    ensures commits { CommitsPlace D.state slot.old slot.new result }
{
    match &mut slot.place {
        Place::Open(file) => file.commit(),
        _ => unreachable!(),
    }
}

/// Drops what waits in a file. It takes no memory.
pub(crate) fn undo_in<D: Device>(slot: &mut Slot<D>)
    requires { IsReadySlot D.state slot.old }
    ensures ready { IsReadySlot D.state slot.new }
    ensures waits { StaysWaiting D.state slot.old slot.new }
    ensures undone { IsDropped D.state slot.old slot.new }
{
    if let Place::Open(file) = &mut slot.place {
        file.undo();
    }
}
