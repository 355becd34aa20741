//! Writes of the device that fail: the file is broken until it is closed.
use crate::changes::Change;
use crate::looks::Look;
use crate::questions::{Answer, Question};
use crate::sessions::{Session, device_with, linted, open_file, run_new};
use crate::steps::{Step, take_all};
use adf_model::{AdfError, Mode};
use cg_io::MemoryDevice;
use std::alloc::Global;
use std::process::Abort;
use std::test::Fail;

const MADE: [Step; 1] = [Step::Group(&[Change::Create(0, b"A", b"A_t")], &[1])];

/// A commit that fails, and what is answered then.
const BROKEN: [Step; 11] = [
    Step::Does(Change::SetLabel(1, b"B_t")),
    Step::NoCommit(AdfError::WriteFault),
    Step::Refuses(Change::SetLabel(1, b"C_t"), AdfError::Broken),
    Step::NoCommit(AdfError::Broken),
    Step::Asks(Question::Name(1), Answer::Refused(AdfError::Broken)),
    Step::Looks(Look::NoHeader(1, AdfError::Broken)),
    Step::Looks(Look::NoMap(AdfError::Broken)),
    Step::Undo,
    Step::NoGroup(&[Change::Delete(1)], 0, AdfError::Broken),
    Step::Group(&[], &[]),
    Step::Asks(Question::Find(0, b"A"), Answer::Refused(AdfError::Broken)),
];

/// A group whose commit fails stands behind all its edits.
const BROKEN_GROUP: [Step; 2] = [
    Step::NoGroup(
        &[Change::SetLabel(1, b"B_t"), Change::Rename(1, b"C")],
        2,
        AdfError::WriteFault,
    ),
    Step::Asks(Question::Name(1), Answer::Refused(AdfError::Broken)),
];

/// Where the next opening finds the label.
const OPENED: [Step; 2] = [
    Step::Asks(Question::Name(1), Answer::Bytes(b"A")),
    Step::Asks(Question::Label(1), Answer::Bytes(b"A_t")),
];

const ONE_CHILD: [Session; 1] = [Session {
    mode: Mode::New,
    steps: &MADE,
    left: (2, 0),
    same: false,
}];

// A device with the file of one child, whose next write fails after these first bytes of its block.
fn failing(
    rt: &impl Abort,
    alloc: Global,
    wide: bool,
    kept: u16,
) -> Result<MemoryDevice, AdfError> {
    let made = run_new(rt, alloc, wide, &ONE_CHILD)?;
    let mut device = device_with(alloc, made.held())?;
    device.fail_write(1, kept.min(4096))?;
    Ok(device)
}

// The steps on such a device, and the device then.
fn run_failing(
    rt: &impl Abort,
    alloc: Global,
    wide: bool,
    kept: u16,
    steps: &[Step],
) -> Result<MemoryDevice, AdfError> {
    let device = failing(rt, alloc, wide, kept)?;
    let mut file = open_file(alloc, device, Mode::ReadWrite)?;
    take_all(rt, alloc, &mut file, steps)?;
    Ok(file.close())
}

// A write that fails before the label leaves the file as it was.
fn is_kept(rt: &impl Abort, alloc: Global, wide: bool, steps: &[Step]) -> Result<(), AdfError> {
    let device = run_failing(rt, alloc, wide, 100, steps)?;
    assert!(rt; device.writes() == 1);
    assert!(rt; linted(alloc, &device)? == (2, 0));
    let mut file = open_file(alloc, device, Mode::ReadWrite)?;
    take_all(rt, alloc, &mut file, &OPENED)
}

#[test]
fn a_failed_write_breaks_the_file(rt: HostRuntime) -> Result<(), Fail> {
    for wide in [false, true] {
        is_kept(&rt, rt.alloc(), wide, &BROKEN)?;
        is_kept(&rt, rt.alloc(), wide, &BROKEN_GROUP)?;
    }
    Ok(())
}
