//! Edits in work: what a commit writes, and what an undo drops.
use crate::changes::Change::{
    Create, Delete, Link, Move, PutAll, PutPart, Rename, SetDims, SetLabel,
};
use crate::looks::Look;
use crate::questions::{Answer, Question};
use crate::sessions::{Session, run_new};
use crate::steps::Step;
use adf_format::{DataType, Format};
use adf_model::{AdfError, Mode};
use std::test::Fail;

/// One edit of each kind but for a deletion. Each that goes before is asked about in work, and again once it is committed.
const MADE: [Step; 21] = [
    Step::Makes(Create(0, b"Base", b"CGNSBase_t"), 1),
    Step::Makes(Create(1, b"Zone", b"Zone_t"), 2),
    Step::Makes(Create(2, b"X", b"DataArray_t"), 3),
    Step::Makes(Link(1, b"Other", b"b.cgns", b"/Base/Zone"), 4),
    Step::Asks(Question::Find(0, b"Base/Zone/X"), Answer::Node(3)),
    Step::Does(SetDims(3, (DataType::I4, &[3]))),
    Step::Asks(Question::All(3), Answer::Refused(AdfError::NoData)),
    Step::Does(PutAll(3, b"aaaabbbbcccc")),
    Step::Does(PutPart(3, (&[2], &[3], &[1]), b"BBBBCCCC")),
    Step::Asks(Question::All(3), Answer::Bytes(b"aaaaBBBBCCCC")),
    Step::Does(SetLabel(2, b"Zone2_t")),
    Step::Does(Rename(1, b"Ground")),
    Step::Does(Move(3, 1)),
    Step::Asks(Question::Find(0, b"Ground/X"), Answer::Node(3)),
    Step::Asks(Question::Next(0), Answer::Node(5)),
    Step::Commit,
    Step::Asks(Question::Name(1), Answer::Bytes(b"Ground")),
    Step::Asks(Question::Label(2), Answer::Bytes(b"Zone2_t")),
    Step::Asks(
        Question::Children(1),
        Answer::Children(&[(2, b"Zone"), (4, b"Other"), (3, b"X")]),
    ),
    Step::Asks(Question::All(3), Answer::Bytes(b"aaaaBBBBCCCC")),
    Step::Commit,
];

/// The same file, with the numbers of an opening: each kind of question, and why one is refused.
const ASKED: [Step; 28] = [
    Step::Asks(Question::Name(1), Answer::Bytes(b"Ground")),
    Step::Asks(Question::Label(2), Answer::Bytes(b"Zone2_t")),
    Step::Asks(Question::Shape(4), Answer::Shape((DataType::I4, &[3]))),
    Step::Asks(
        Question::Children(1),
        Answer::Children(&[(2, b"Zone"), (3, b"Other"), (4, b"X")]),
    ),
    Step::Asks(Question::Children(4), Answer::Children(&[])),
    Step::Asks(
        Question::LinkText(3),
        Answer::LinkText(b"b.cgns", b"/Base/Zone"),
    ),
    Step::Asks(Question::All(4), Answer::Bytes(b"aaaaBBBBCCCC")),
    Step::Asks(
        Question::Part(4, (&[1], &[3], &[2])),
        Answer::Bytes(b"aaaaCCCC"),
    ),
    Step::Asks(Question::Find(0, b"Ground/X"), Answer::Node(4)),
    Step::Asks(Question::Next(0), Answer::Node(5)),
    Step::Asks(Question::Format(2), Answer::Format(Format::Little)),
    Step::Asks(Question::Parent(4), Answer::Node(1)),
    Step::Asks(Question::Target(4), Answer::Node(4)),
    Step::Asks(Question::Target(3), Answer::Refused(AdfError::LinkMissing)),
    Step::Asks(Question::LinkText(1), Answer::Refused(AdfError::NotALink)),
    Step::Asks(Question::All(1), Answer::Refused(AdfError::NoData)),
    Step::Asks(
        Question::Part(4, (&[1], &[4], &[1])),
        Answer::Refused(AdfError::BadRange),
    ),
    Step::Asks(
        Question::Find(0, b"Ground/Y"),
        Answer::Refused(AdfError::NotFound),
    ),
    Step::Asks(Question::Parent(0), Answer::Refused(AdfError::NotAChild)),
    Step::Asks(Question::Name(5), Answer::Refused(AdfError::NoSuchNode)),
    Step::Looks(Look::Child(1, b"Other", Some(3))),
    Step::Looks(Look::Child(1, b"Base", None)),
    Step::Looks(Look::Text(3, Some(b"b.cgns>/Base/Zone"))),
    Step::Looks(Look::Text(2, None)),
    Step::Looks(Look::Header(1, DataType::Mt, 3)),
    Step::Looks(Look::NoHeader(5, AdfError::NoSuchNode)),
    Step::Looks(Look::Node(3, Question::Name(0), Answer::Bytes(b"Other"))),
    Step::Commit,
];

/// Edits that are dropped: by an undo, by a refusal of a later one, and by the end of the session.
const DROPPED: [Step; 17] = [
    Step::Does(Rename(2, b"Area")),
    Step::Does(Delete(4)),
    Step::DoesAt(SetDims(3, (DataType::R4, &[1])), 2),
    Step::DoesAt(PutAll(3, b"abcd"), 2),
    Step::Asks(Question::All(2), Answer::Bytes(b"abcd")),
    Step::Asks(Question::Name(2), Answer::Bytes(b"Area")),
    Step::Asks(Question::Name(4), Answer::Refused(AdfError::NoSuchNode)),
    Step::Undo,
    Step::Asks(Question::Name(2), Answer::Bytes(b"Zone")),
    Step::Asks(Question::All(4), Answer::Bytes(b"aaaaBBBBCCCC")),
    Step::Makes(Create(2, b"Y", b"DataArray_t"), 5),
    Step::Refuses(Create(2, b"Y", b"DataArray_t"), AdfError::Duplicate),
    Step::Asks(Question::Children(2), Answer::Children(&[])),
    Step::Makes(Create(2, b"Y", b"DataArray_t"), 5),
    Step::Undo,
    Step::Commit,
    Step::Makes(Create(2, b"Y", b"DataArray_t"), 5),
];

/// A serial of a deleted node names none, and is not drawn again before the next opening.
const DELETED: [Step; 9] = [
    Step::Does(Delete(3)),
    Step::Does(Delete(4)),
    Step::Commit,
    Step::Refuses(SetLabel(4, b"A"), AdfError::NoSuchNode),
    Step::Asks(Question::Name(3), Answer::Refused(AdfError::NoSuchNode)),
    Step::Makes(Create(1, b"Y", b"DataArray_t"), 5),
    Step::Asks(Question::Parent(5), Answer::Node(1)),
    Step::Commit,
    Step::Asks(Question::Next(0), Answer::Node(6)),
];

const AGAIN: [Step; 2] = [
    Step::Asks(Question::Name(3), Answer::Bytes(b"Y")),
    Step::Asks(Question::Name(5), Answer::Refused(AdfError::NoSuchNode)),
];

/// What becomes of one file.
const SESSIONS: [Session; 6] = [
    Session {
        mode: Mode::New,
        steps: &MADE,
        left: (5, 0),
        same: false,
    },
    Session {
        mode: Mode::ReadOnly,
        steps: &ASKED,
        left: (5, 0),
        same: true,
    },
    Session {
        mode: Mode::ReadWrite,
        steps: &ASKED,
        left: (5, 0),
        same: true,
    },
    Session {
        mode: Mode::ReadWrite,
        steps: &DROPPED,
        left: (5, 0),
        same: true,
    },
    Session {
        mode: Mode::ReadWrite,
        steps: &DELETED,
        left: (4, 1),
        same: false,
    },
    Session {
        mode: Mode::ReadOnly,
        steps: &AGAIN,
        left: (4, 1),
        same: true,
    },
];

#[test]
fn edits_in_work_are_committed_or_dropped(rt: HostRuntime) -> Result<(), Fail> {
    run_new(&rt, rt.alloc(), false, &SESSIONS)?;
    Ok(())
}

#[test]
fn and_so_they_are_in_a_wide_file(rt: HostRuntime) -> Result<(), Fail> {
    run_new(&rt, rt.alloc(), true, &SESSIONS)?;
    Ok(())
}
