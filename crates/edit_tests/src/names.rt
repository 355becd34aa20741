//! Names, as tables of steps.
use crate::files::{A, A_TABLE, B, C, LINK, ROOT_TABLE};
use crate::steps::{Step, run_both, run_on};
use adf_model::AdfError;
use std::test::Fail;

const LONG_NAME: &[u8; 32] = b"A name of 32 letters, as a name.";

const NAMES: [Step; 11] = [
    Step::Name {
        node: 2,
        name: b"B",
    },
    Step::Within { ranges: &[] },
    Step::Name {
        node: 2,
        name: LONG_NAME,
    },
    Step::Bytes {
        at: B,
        are: b"NoDeA name of 32 letters, as a name.Zone_t   ",
    },
    Step::Bytes {
        at: ROOT_TABLE + 60,
        are: b"A name of 32 letters, as a name.000000000960",
    },
    Step::Name {
        node: 1,
        name: b"B",
    },
    Step::Name {
        node: 4,
        name: b"A",
    },
    Step::Bytes {
        at: A_TABLE + 16,
        are: b"A                               000000000C80",
    },
    Step::Name {
        node: 3,
        name: b"A",
    },
    Step::Bytes {
        at: LINK,
        are: b"NoDeA                               Zone_t   ",
    },
    Step::Within {
        ranges: &[
            (A + 4, A + 36),
            (B + 4, B + 36),
            (C + 4, C + 36),
            (LINK + 4, LINK + 36),
            (ROOT_TABLE + 16, ROOT_TABLE + 48),
            (ROOT_TABLE + 60, ROOT_TABLE + 92),
            (ROOT_TABLE + 104, ROOT_TABLE + 136),
            (A_TABLE + 16, A_TABLE + 48),
        ],
    },
];

#[test]
fn a_name_is_written_in_the_header_and_in_the_entry(rt: HostRuntime) -> Result<(), Fail> {
    run_both(&rt, rt.alloc(), &NAMES)
}

const BAD_NAMES: [Step; 8] = [
    Step::NoName {
        node: 2,
        name: b"A",
        error: AdfError::Duplicate,
    },
    Step::NoName {
        node: 1,
        name: b"L",
        error: AdfError::Duplicate,
    },
    Step::NoName {
        node: 2,
        name: b"A name of 33 letters is not one.!",
        error: AdfError::BadName,
    },
    Step::NoName {
        node: 2,
        name: b"x/y",
        error: AdfError::BadName,
    },
    Step::NoName {
        node: 2,
        name: b"",
        error: AdfError::BadName,
    },
    Step::NoName {
        node: 0,
        name: b"x/y",
        error: AdfError::NotAChild,
    },
    Step::NoName {
        node: 5,
        name: b"x/y",
        error: AdfError::NoSuchNode,
    },
    Step::Within { ranges: &[] },
];

#[test]
fn a_refused_name_changes_no_byte(rt: HostRuntime) -> Result<(), Fail> {
    run_both(&rt, rt.alloc(), &BAD_NAMES)
}

const READ_ONLY_NAMES: [Step; 3] = [
    Step::NoName {
        node: 5,
        name: b"B",
        error: AdfError::NoSuchNode,
    },
    Step::NoName {
        node: 0,
        name: b"x/y",
        error: AdfError::ReadOnly,
    },
    Step::NoName {
        node: 2,
        name: b"B",
        error: AdfError::ReadOnly,
    },
];

#[test]
fn a_file_that_is_read_only_keeps_its_names(rt: HostRuntime) -> Result<(), Fail> {
    run_on(&rt, rt.alloc(), false, false, &READ_ONLY_NAMES)
}

const BROKEN_PARENTS: [Step; 8] = [
    Step::Put {
        at: ROOT_TABLE + 92,
        bytes: b"000000000961",
    },
    Step::NoName {
        node: 2,
        name: b"A",
        error: AdfError::Layout { rule: 30, place: B },
    },
    Step::Put {
        at: A + 68,
        bytes: b"00000003",
    },
    Step::NoName {
        node: 4,
        name: b"A",
        error: AdfError::Layout {
            rule: 22,
            place: A + 68,
        },
    },
    Step::Put {
        at: A + 96,
        bytes: b"I5",
    },
    Step::NoName {
        node: 4,
        name: b"A",
        error: AdfError::Layout {
            rule: 20,
            place: A + 96,
        },
    },
    Step::NoName {
        node: 4,
        name: b"",
        error: AdfError::BadName,
    },
    Step::Name {
        node: 1,
        name: b"B2",
    },
];

#[test]
fn a_parent_that_changed_meanwhile_is_told(rt: HostRuntime) -> Result<(), Fail> {
    run_both(&rt, rt.alloc(), &BROKEN_PARENTS)
}
