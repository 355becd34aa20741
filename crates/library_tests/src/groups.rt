//! Groups of edits: in which file they are done, in which order they are refused, and what a refused one and a failed
//! write leave.

use crate::calls::library_of_two;
use crate::files::{FIRST, SECOND, device_with, empty_device};
use crate::steps::{Step, wrong_step};
use adf_model::{AdfError, Mode, NodeId};
use std::test::Fail;

// A serial that a refused group drew is drawn again, and all else is as it was.
static REFUSED: [Step; 23] = [
    Step::Open(0, Mode::New, None),
    Step::Open(1, Mode::New, None),
    Step::Stops(
        "edit create 0.0 A % ; create 0.0 B % ; create 0.0 A %",
        2,
        AdfError::Duplicate,
    ),
    Step::Leads("next 0.0", NodeId { file: 0, serial: 1 }),
    Step::Refuses("name 0.1", AdfError::NoSuchNode),
    Step::Refuses("find 0.0 /A", AdfError::NotFound),
    Step::Makes(
        "edit create 0.0 A La ; create 0.1 B % ; dims 0.2 C1 4 ; put 0.2 61626364",
        &[NodeId { file: 0, serial: 1 }, NodeId { file: 0, serial: 2 }],
    ),
    Step::Stops(
        "edit delete 0.2 ; create 0.1 C % ; dims 0.3 I4 0",
        2,
        AdfError::BadShape,
    ),
    Step::Stops(
        "edit put 0.2 65666768 ; setlabel 0.1 Lb ; rename 0.1 x/y",
        2,
        AdfError::BadName,
    ),
    Step::Stops(
        "edit dims 0.2 C1 2 ; move 0.2 0.0 ; move 0.1 0.1",
        2,
        AdfError::IntoItself,
    ),
    Step::Stops(
        "edit create 0.0 D % ; create 0.3 E % ; create 1.0 F %",
        2,
        AdfError::OtherFile,
    ),
    Step::Says("read 0.2", b"abcd"),
    Step::Says("label 0.1", b"La"),
    Step::Leads("find 0.0 /A/B", NodeId { file: 0, serial: 2 }),
    Step::Leads("next 0.0", NodeId { file: 0, serial: 3 }),
    Step::Leads("next 1.0", NodeId { file: 1, serial: 1 }),
    Step::Makes(
        "edit create 0.0 D % ; create 0.3 E %",
        &[NodeId { file: 0, serial: 3 }, NodeId { file: 0, serial: 4 }],
    ),
    Step::Makes(
        "edit delete 0.4 ; create 0.3 E %",
        &[NodeId { file: 0, serial: 5 }],
    ),
    Step::Refuses("label 0.4", AdfError::NoSuchNode),
    Step::Close(0, None),
    Step::Open(0, Mode::ReadWrite, None),
    Step::Leads("next 0.0", NodeId { file: 0, serial: 5 }),
    Step::Leads("find 0.0 /D/E", NodeId { file: 0, serial: 4 }),
];

// Of two linked files: an edit is done where the links lead, but a link that is deleted, renamed or moved is the one itself.
static LINKED: [Step; 30] = [
    Step::Open(0, Mode::ReadWrite, None),
    Step::Stops("edit create 0.2 N %", 0, AdfError::LinkMissing),
    Step::Open(1, Mode::ReadWrite, None),
    Step::Makes("edit create 0.2 N Lab", &[NodeId { file: 1, serial: 4 }]),
    Step::Says("label 1.4", b"Lab"),
    Step::Makes(
        "edit create 0.3 C % ; create 1.1 D %",
        &[NodeId { file: 1, serial: 5 }, NodeId { file: 1, serial: 6 }],
    ),
    Step::Leads("parent 1.5", NodeId { file: 1, serial: 2 }),
    Step::Stops(
        "edit create 0.2 E % ; create 0.0 F %",
        1,
        AdfError::OtherFile,
    ),
    Step::Stops(
        "edit setlabel 1.3 Q ; setlabel 0.2 Q",
        1,
        AdfError::OtherFile,
    ),
    Step::Stops("edit move 0.1 0.2", 0, AdfError::OtherFile),
    Step::Stops("edit move 1.2 1.3", 0, AdfError::OtherFile),
    Step::Stops("edit create 0.6 N %", 0, AdfError::LinkChain),
    Step::Stops("edit create 0.4 N %", 0, AdfError::LinkMissing),
    Step::Stops("edit move 0.1 0.4", 0, AdfError::LinkMissing),
    Step::Makes("edit move 0.2 1.3", &[]),
    Step::Leads("parent 0.2", NodeId { file: 0, serial: 1 }),
    Step::Refuses("target 0.3", AdfError::LinkMissing),
    Step::Makes("edit move 0.2 0.0", &[]),
    Step::Leads("target 0.3", NodeId { file: 1, serial: 2 }),
    Step::Makes("edit rename 0.5 Q ; setlabel 0.5 Lx", &[]),
    Step::Says("name 0.5", b"Q"),
    Step::Says("label 0.1", b"Lx"),
    Step::Says("name 0.1", b"X"),
    Step::Makes("edit delete 0.3", &[]),
    Step::Refuses("name 0.3", AdfError::NoSuchNode),
    Step::Says("name 1.2", b"Z"),
    Step::Makes("edit delete 1.1", &[]),
    Step::Refuses("target 0.2", AdfError::LinkMissing),
    Step::Refuses("name 1.2", AdfError::NoSuchNode),
    Step::Leads("target 1.3", NodeId { file: 0, serial: 1 }),
];

// Both nodes of a move are looked for by file, then by whether it is open, then by serial; links come next, then the other
// file, then the mode, then the arguments.
static ORDERED: [Step; 29] = [
    Step::Stops("edit move 0.9 7.0", 0, AdfError::NoSuchFile),
    Step::Stops("edit move 7.0 0.9", 0, AdfError::NoSuchFile),
    Step::Stops("edit move 0.9 1.9", 0, AdfError::NotOpen),
    Step::Refuses("name 0.9", AdfError::NotOpen),
    Step::Refuses("name 7.0", AdfError::NoSuchFile),
    Step::Open(0, Mode::ReadWrite, None),
    Step::Stops("edit move 0.9 1.9", 0, AdfError::NotOpen),
    Step::Stops("edit move 1.9 0.9", 0, AdfError::NotOpen),
    Step::Close(1, Some(AdfError::NotOpen)),
    Step::Open(1, Mode::ReadOnly, None),
    Step::Stops("edit move 0.9 1.0", 0, AdfError::NoSuchNode),
    Step::Stops("edit move 1.0 0.9", 0, AdfError::NoSuchNode),
    Step::Stops("edit move 1.1 0.4", 0, AdfError::LinkMissing),
    Step::Stops("edit move 1.1 0.6", 0, AdfError::LinkChain),
    Step::Stops("edit move 1.1 0.1", 0, AdfError::OtherFile),
    Step::Stops("edit move 1.1 1.2", 0, AdfError::ReadOnly),
    Step::Stops("edit create 0.2 x/y %", 0, AdfError::ReadOnly),
    Step::Stops("edit create 1.9 x/y %", 0, AdfError::NoSuchNode),
    Step::Stops("edit delete 1.0", 0, AdfError::ReadOnly),
    Step::Stops("edit delete 0.0", 0, AdfError::NotAChild),
    Step::Stops("edit move 0.0 0.1", 0, AdfError::NotAChild),
    Step::Stops("edit rename 0.0 x/y", 0, AdfError::NotAChild),
    Step::Refuses("parent 1.0", AdfError::NotAChild),
    Step::Stops(
        "edit create 0.0 Y % ; create 0.2 N %",
        1,
        AdfError::OtherFile,
    ),
    Step::Stops(
        "edit create 0.2 N % ; create 0.0 Y %",
        0,
        AdfError::ReadOnly,
    ),
    Step::Open(1, Mode::ReadWrite, Some(AdfError::AlreadyOpen)),
    Step::Close(1, None),
    Step::Open(1, Mode::ReadWrite, None),
    Step::Makes("edit create 0.2 N %", &[NodeId { file: 1, serial: 4 }]),
];

// The third write of the first file fails: the file answers that it is broken until it is closed.
static BROKEN: [Step; 41] = [
    Step::Open(0, Mode::New, None),
    Step::Open(1, Mode::New, None),
    Step::Makes("edit create 0.0 A La", &[NodeId { file: 0, serial: 1 }]),
    Step::Makes(
        "edit link 1.0 K a /A ; create 1.0 M %",
        &[NodeId { file: 1, serial: 1 }, NodeId { file: 1, serial: 2 }],
    ),
    Step::Says("label 1.1", b"La"),
    Step::Stops(
        "edit create 0.0 B % ; setlabel 0.1 Lb",
        2,
        AdfError::WriteFault,
    ),
    Step::Refuses("name 0.0", AdfError::Broken),
    Step::Refuses("label 0.1", AdfError::Broken),
    Step::Refuses("shape 0.1", AdfError::Broken),
    Step::Refuses("children 0.0", AdfError::Broken),
    Step::Refuses("link 0.1", AdfError::Broken),
    Step::Refuses("read 0.1", AdfError::Broken),
    Step::Refuses("part 0.1 1 1 1", AdfError::Broken),
    Step::Refuses("find 0.0 /A", AdfError::Broken),
    Step::Refuses("next 0.0", AdfError::Broken),
    Step::Refuses("parent 0.1", AdfError::Broken),
    Step::Refuses("target 0.1", AdfError::Broken),
    Step::Refuses("format 0.0", AdfError::Broken),
    Step::Refuses("name 0.9", AdfError::Broken),
    Step::Refuses("label 1.1", AdfError::Broken),
    Step::Refuses("target 1.1", AdfError::Broken),
    Step::Refuses("find 1.0 /K/A", AdfError::Broken),
    Step::Stops("edit create 0.0 C %", 0, AdfError::Broken),
    Step::Stops("edit delete 0.9", 0, AdfError::Broken),
    Step::Stops("edit setlabel 1.1 Q", 0, AdfError::Broken),
    Step::Stops("edit move 1.2 1.1", 0, AdfError::Broken),
    Step::Stops("edit create 1.0 N % ; create 0.0 N %", 1, AdfError::Broken),
    Step::Open(0, Mode::ReadWrite, Some(AdfError::AlreadyOpen)),
    Step::Discard(0, Some(AdfError::AlreadyOpen)),
    Step::Leads("find 1.0 /K", NodeId { file: 1, serial: 1 }),
    Step::Leads("next 1.0", NodeId { file: 1, serial: 3 }),
    Step::Close(0, None),
    Step::Refuses("name 0.0", AdfError::NotOpen),
    Step::Refuses("label 1.1", AdfError::LinkMissing),
    Step::Open(0, Mode::New, Some(AdfError::NotEmpty)),
    Step::Open(0, Mode::ReadWrite, None),
    Step::Says("label 1.1", b"La"),
    Step::Leads("next 0.0", NodeId { file: 0, serial: 2 }),
    Step::Refuses("find 0.0 /B", AdfError::NotFound),
    Step::Makes("edit create 0.0 B %", &[NodeId { file: 0, serial: 2 }]),
    Step::Close(0, None),
];

#[test]
fn a_refused_group_leaves_nodes_and_serials(rt: HostRuntime) -> Result<(), Fail> {
    let alloc = rt.alloc();
    let mut library = library_of_two(alloc, empty_device(alloc), empty_device(alloc))?;
    assert!(rt; wrong_step(alloc, &mut library, &REFUSED)? == 0);
    Ok(())
}

#[test]
fn edits_go_through_links_and_stay_in_one_file(rt: HostRuntime) -> Result<(), Fail> {
    let alloc = rt.alloc();
    for steps in [LINKED.as_slice(), &ORDERED] {
        let first = device_with(alloc, &FIRST)?;
        let second = device_with(alloc, &SECOND)?;
        let mut library = library_of_two(alloc, first, second)?;
        let wrong = wrong_step(alloc, &mut library, steps)?;
        assert!(rt; wrong == 0, "step {wrong}");
    }
    Ok(())
}

#[test]
fn a_broken_file_answers_so_until_it_is_closed(rt: HostRuntime) -> Result<(), Fail> {
    let alloc = rt.alloc();
    let mut device = empty_device(alloc);
    device.fail_write(3, 0)?;
    let mut library = library_of_two(alloc, device, empty_device(alloc))?;
    let wrong = wrong_step(alloc, &mut library, &BROKEN)?;
    assert!(rt; wrong == 0, "step {wrong}");
    Ok(())
}
