//! Groups of edits: all are done, or none.
use crate::changes::Change;
use crate::questions::{Answer, Question};
use crate::sessions::{Session, run_new};
use crate::steps::Step;
use adf_format::DataType;
use adf_model::{AdfError, Mode};
use std::test::Fail;

/// One edit of each kind, of nodes that the group makes.
const ALL: [Change; 11] = [
    Change::Create(0, b"A", b"A_t"),
    Change::Create(0, b"B", b"B_t"),
    Change::Create(2, b"C", b"C_t"),
    Change::Link(1, b"L", b"", b"/B"),
    Change::SetDims(3, (DataType::C1, &[2, 2])),
    Change::PutAll(3, b"abcd"),
    Change::PutPart(3, (&[1, 1], &[2, 1], &[1, 1]), b"AB"),
    Change::Move(3, 1),
    Change::Rename(1, b"D"),
    Change::SetLabel(3, b"E_t"),
    Change::Delete(2),
];

/// The third edit names a node that the second has deleted.
const STALE: [Change; 4] = [
    Change::SetLabel(1, b"F_t"),
    Change::Delete(3),
    Change::SetLabel(3, b"F_t"),
    Change::Delete(4),
];

/// The third edit puts fewer bytes than the node has.
const SHORT: [Change; 3] = [
    Change::Create(1, b"N", b"N_t"),
    Change::SetDims(5, (DataType::I8, &[1])),
    Change::PutAll(5, b"abcd"),
];

const MADE: [Step; 12] = [
    Step::Group(&[], &[]),
    Step::Group(&ALL, &[1, 2, 3, 4]),
    Step::Asks(Question::Children(0), Answer::Children(&[(1, b"D")])),
    Step::Asks(
        Question::Children(1),
        Answer::Children(&[(4, b"L"), (3, b"C")]),
    ),
    Step::Asks(Question::LinkText(4), Answer::LinkText(b"", b"/B")),
    Step::Asks(Question::All(3), Answer::Bytes(b"ABcd")),
    Step::Asks(Question::Label(3), Answer::Bytes(b"E_t")),
    Step::NoGroup(&STALE, 2, AdfError::NoSuchNode),
    Step::Asks(Question::Label(1), Answer::Bytes(b"A_t")),
    Step::Asks(Question::All(3), Answer::Bytes(b"ABcd")),
    Step::Asks(Question::Next(0), Answer::Node(5)),
    Step::Group(&[Change::Create(1, b"M", b"M_t")], &[5]),
];

/// Groups that are refused leave the bytes.
const REFUSED: [Step; 6] = [
    Step::NoGroup(&SHORT, 2, AdfError::WrongLength { want: 8, got: 4 }),
    Step::Asks(
        Question::Children(1),
        Answer::Children(&[(2, b"L"), (3, b"C"), (4, b"M")]),
    ),
    Step::NoGroup(&[Change::Delete(0)], 0, AdfError::NotAChild),
    Step::NoGroup(
        &[Change::Delete(4), Change::Delete(3), Change::Move(1, 2)],
        2,
        AdfError::LinkMissing,
    ),
    Step::NoGroup(
        &[Change::Rename(4, b"N"), Change::Move(1, 4)],
        1,
        AdfError::IntoItself,
    ),
    Step::Asks(Question::Name(4), Answer::Bytes(b"M")),
];

/// A file that is open for reading alone.
const READ: [Step; 3] = [
    Step::NoGroup(&[Change::Delete(4)], 0, AdfError::ReadOnly),
    Step::Refuses(Change::SetLabel(1, b"B_t"), AdfError::ReadOnly),
    Step::Group(&[], &[]),
];

/// What becomes of one file.
const SESSIONS: [Session; 3] = [
    Session {
        mode: Mode::New,
        steps: &MADE,
        left: (5, 1),
        same: false,
    },
    Session {
        mode: Mode::ReadWrite,
        steps: &REFUSED,
        left: (5, 1),
        same: true,
    },
    Session {
        mode: Mode::ReadOnly,
        steps: &READ,
        left: (5, 1),
        same: true,
    },
];

#[test]
fn a_group_is_done_whole_or_not_at_all(rt: HostRuntime) -> Result<(), Fail> {
    run_new(&rt, rt.alloc(), false, &SESSIONS)?;
    Ok(())
}

#[test]
fn and_so_it_is_in_a_wide_file(rt: HostRuntime) -> Result<(), Fail> {
    run_new(&rt, rt.alloc(), true, &SESSIONS)?;
    Ok(())
}
