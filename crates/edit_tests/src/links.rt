//! Links, as tables of steps.
use crate::files::{A, A_TABLE, ROOT, ROOT_TABLE};
use crate::steps::{Step, run_both, run_on};
use adf_model::AdfError;
use std::test::Fail;

/// A link in an unused entry, whose chunk is filled up with zeros, and one in a longer table, which stands between its header
/// and its chunk.
const LINKS: [Step; 14] = [
    Step::Link {
        of: 0,
        name: b"D",
        file: b"",
        path: b"/A/C",
        serial: 6,
    },
    Step::Bytes {
        at: 4000,
        are: b"NoDeD                                                               0000000000000000000000001000LK                              010000000500000000",
    },
    Step::Bytes {
        at: 4000 + 226,
        are: b"0001000000010096TaiL",
    },
    Step::Bytes {
        at: 4246,
        are: b"DaTa0000000100B2>/A/C\0\0\0\0\0\0\0dEnD",
    },
    Step::Bytes {
        at: ROOT_TABLE + 148,
        are: b"D                               000000000FA0",
    },
    Step::Bytes {
        at: ROOT + 68,
        are: b"0000000400000004",
    },
    Step::Link {
        of: 0,
        name: b"E",
        file: b"other.cgns",
        path: b"/Base/Zone",
        serial: 7,
    },
    Step::Bytes {
        at: 4278,
        are: b"NoDeE                               ",
    },
    Step::Bytes {
        at: 4278 + 130,
        are: b"00000015",
    },
    Step::Bytes {
        at: 4278 + 230,
        are: b"000000010320TaiL",
    },
    Step::Bytes {
        at: 4524,
        are: b"SNTb00000001031C",
    },
    Step::Bytes {
        at: 4540 + 176,
        are: b"E                               0000000100B6",
    },
    Step::Bytes {
        at: 4896,
        are: b"DaTa000000010345other.cgns>/Base/ZonedEnD",
    },
    Step::Bytes {
        at: ROOT_TABLE,
        are: b"FreE",
    },
];

#[test]
fn a_link_joins_its_parent(rt: HostRuntime) -> Result<(), Fail> {
    run_on(&rt, rt.alloc(), false, true, &LINKS)
}

const LONG_PATH: &[u8; 26] = b"/A name of some letters/B/";

const BAD_LINKS: [Step; 9] = [
    Step::NoLink {
        of: 5,
        name: b"/",
        file: b">",
        path: b"",
        error: AdfError::NoSuchNode,
    },
    Step::NoLink {
        of: 3,
        name: b"/",
        file: b">",
        path: b"",
        error: AdfError::LinkMissing,
    },
    Step::NoLink {
        of: 0,
        name: b"/",
        file: b">",
        path: b"",
        error: AdfError::BadName,
    },
    Step::NoLink {
        of: 0,
        name: b"A",
        file: b">",
        path: b"",
        error: AdfError::Duplicate,
    },
    Step::NoLink {
        of: 0,
        name: b"D",
        file: b"a>b",
        path: b"/A",
        error: AdfError::BadLink,
    },
    Step::NoLink {
        of: 0,
        name: b"D",
        file: b"a",
        path: b"A",
        error: AdfError::BadLink,
    },
    Step::NoLink {
        of: 0,
        name: b"D",
        file: b"",
        path: LONG_PATH,
        error: AdfError::BadLink,
    },
    Step::NoLink {
        of: 0,
        name: b"D",
        file: &[b'f'; 4094],
        path: b"/A",
        error: AdfError::TooLarge,
    },
    Step::Within { ranges: &[] },
];

#[test]
fn a_link_may_be_refused(rt: HostRuntime) -> Result<(), Fail> {
    run_both(&rt, rt.alloc(), &BAD_LINKS)
}

const READ_ONLY_LINKS: [Step; 2] = [
    Step::NoLink {
        of: 3,
        name: b"",
        file: b"",
        path: b"",
        error: AdfError::LinkMissing,
    },
    Step::NoLink {
        of: 0,
        name: b"",
        file: b"",
        path: b"",
        error: AdfError::ReadOnly,
    },
];

#[test]
fn a_file_that_is_read_only_gets_no_links(rt: HostRuntime) -> Result<(), Fail> {
    run_on(&rt, rt.alloc(), true, false, &READ_ONLY_LINKS)
}

/// The longest text fits behind the header; in the wide version the header leaves no room for it.
const LONGEST: [Step; 3] = [
    Step::Link {
        of: 1,
        name: b"D",
        file: &[b'f'; 3800],
        path: b"/A",
        serial: 6,
    },
    Step::Bytes {
        at: A_TABLE + 60,
        are: b"D                               000000000FA0",
    },
    Step::Bytes {
        at: A + 68,
        are: b"0000000200000002",
    },
];

const NO_ROOM: [Step; 2] = [
    Step::NoLink {
        of: 1,
        name: b"D",
        file: &[b'f'; 3924],
        path: b"/A",
        error: AdfError::Full {
            asked: 3947,
            end: 4245,
        },
    },
    Step::NoLink {
        of: 1,
        name: b"E",
        file: &[b'f'; 4094],
        path: b"A",
        error: AdfError::BadLink,
    },
];

#[test]
fn a_chunk_without_room_is_refused(rt: HostRuntime) -> Result<(), Fail> {
    run_both(&rt, rt.alloc(), &LONGEST)?;
    run_on(&rt, rt.alloc(), false, true, &NO_ROOM)
}
