//! Looks into one file. Where it is not open there is nothing to see.

ghost use Rattle.std.specs.Prelude.{◌≡◌, Ok, IfOk, IsSome};
ghost use Rattle.adf_follow.specs.Looking.{as_is};
ghost use Rattle.adf_library.specs.Calls.{Answers, Looks, Sees, entry_tests};
ghost use Rattle.adf_library.specs.Places.{IsReadySlot, file_of, in_work};
ghost use Rattle.adf_model.specs.Answers.{IsReplyTo};
ghost use Rattle.adf_model.specs.Follow.{as_child, child_of_open, open_file, text_of_open};
ghost use Rattle.adf_model.specs.Slots.{open_of};
ghost use Rattle.adf_model.specs.Tests.{checked};

use crate::places::{Place, Slot};
use adf_model::{AdfError, NodeId, Query, Reply, Text};
use cg_io::Device;

/// The number of a file that is open; LinkMissing where it is not, and Broken where a write of it failed.
pub(crate) fn open_number<D: Device>(slot: &Slot<D>, number: u32) -> Result<u32, AdfError>
    ensures { result ≡ open_file (file_of in_work D.state slot.now).slot number }
{
    match &slot.place {
        Place::Open(file) => {
            if file.is_broken() {
                Err(AdfError::Broken)
            } else {
                Ok(number)
            }
        }
        _ => Err(AdfError::LinkMissing),
    }
}

/// Whether a query of a node enters its file.
pub(crate) fn enter<D: Device>(slot: &Slot<D>, serial: u64) -> Result<(), AdfError>
    ensures { result ≡ checked (entry_tests (file_of in_work D.state slot.now).slot serial)
        (Ok tt) }
{
    match &slot.place {
        Place::Open(file) => {
            if file.is_broken() {
                Err(AdfError::Broken)
            } else if file.is_live(serial) {
                Ok(())
            } else {
                Err(AdfError::NoSuchNode)
            }
        }
        Place::Closed(_) | Place::Saved(_, _) => Err(AdfError::NotOpen),
        Place::Taken | Place::Gone(_) => Err(AdfError::NoSuchFile),
    }
}

/// The text of a node that is a link.
pub(crate) fn text_in<D: Device>(slot: &mut Slot<D>, serial: u64) -> Result<Option<Text>, AdfError>
    requires { IsReadySlot D.state slot.old }
    ensures ready { IsReadySlot D.state slot.new }
    ensures looks { Looks D.state slot.old slot.new }
    ensures found { Sees D.state slot.old slot.new as_is
        (Ok (text_of_open (open_of (file_of in_work D.state slot.old).slot) serial)) result }
{
    match &mut slot.place {
        Place::Open(file) => {
            if file.is_broken() {
                Ok(None)
            } else {
                file.text_at(serial)
            }
        }
        _ => Ok(None),
    }
}

/// The serial of the first child of a name.
pub(crate) fn child_in<D: Device>(
    slot: &mut Slot<D>,
    node: NodeId,
    name: &[u8],
) -> Result<Option<u64>, AdfError>
    requires { IsReadySlot D.state slot.old }
    ensures ready { IsReadySlot D.state slot.new }
    ensures looks { Looks D.state slot.old slot.new }
    ensures found { Sees D.state slot.old slot.new (as_child node.file)
        (Ok (child_of_open (open_of (file_of in_work D.state slot.old).slot) node name.now))
        result }
{
    match &mut slot.place {
        Place::Open(file) => {
            if file.is_broken() {
                Ok(None)
            } else {
                file.child_at(node.serial, name)
            }
        }
        _ => Ok(None),
    }
}

/// What is answered of a node of an open file, as it is named.
pub(crate) fn answer_in<D: Device>(
    slot: &mut Slot<D>,
    at: NodeId,
    query: &Query,
) -> Result<Reply, AdfError>
    requires ready { IsReadySlot D.state slot.old }
    requires opened { IsSome (open_of (file_of in_work D.state slot.old).slot) }
    ensures ready { IsReadySlot D.state slot.new }
    ensures looks { Looks D.state slot.old slot.new }
    ensures kind { IfOk result (IsReplyTo query.now) }
    ensures answers { Answers D.state slot.old slot.new at query.now result }
{
    match &mut slot.place {
        Place::Open(file) => file.answer_at(at, query),
        _ => unreachable!(),
    }
}
