//! New nodes, as tables of steps.
use crate::files::{ROOT, ROOT_TABLE};
use crate::steps::{Step, run_both, run_on};
use adf_model::AdfError;
use std::test::Fail;

const CHILDREN: [Step; 13] = [
    Step::Child {
        of: 0,
        name: b"D",
        serial: 6,
    },
    Step::Bytes {
        at: 4000,
        are: b"NoDeD                               Zone_t                          0000000000000000000000001000MT",
    },
    Step::Bytes {
        at: ROOT_TABLE + 148,
        are: b"D                               000000000FA0",
    },
    Step::Bytes {
        at: 266 + 68,
        are: b"0000000400000004",
    },
    Step::Bytes {
        at: 146,
        are: b"000000010095",
    },
    Step::Child {
        of: 0,
        name: b"E",
        serial: 7,
    },
    Step::Bytes {
        at: 266 + 68,
        are: b"000000050000000800000001018C",
    },
    Step::Bytes {
        at: 4492,
        are: b"SNTb0000000102FCA                               0000000007D0B  ",
    },
    Step::Bytes {
        at: 4508 + 176,
        are: b"E                               000000010096\0\0\0\0",
    },
    Step::Bytes {
        at: 4860,
        are: b"snTE",
    },
    Step::Bytes {
        at: ROOT_TABLE,
        are: b"FreE",
    },
    Step::Child {
        of: 7,
        name: b"A",
        serial: 8,
    },
    Step::NoChild {
        of: 7,
        name: b"A",
        label: b"",
        error: AdfError::Duplicate,
    },
];

#[test]
fn a_new_node_joins_its_parent(rt: HostRuntime) -> Result<(), Fail> {
    run_on(&rt, rt.alloc(), false, true, &CHILDREN)
}

/// Nine children and ten: the table grows from four entries to eight and to twelve.
const TEN_CHILDREN: [Step; 10] = [
    Step::Child {
        of: 0,
        name: b"D",
        serial: 6,
    },
    Step::Child {
        of: 0,
        name: b"E",
        serial: 7,
    },
    Step::Child {
        of: 0,
        name: b"F",
        serial: 8,
    },
    Step::Child {
        of: 0,
        name: b"G",
        serial: 9,
    },
    Step::Child {
        of: 0,
        name: b"H",
        serial: 10,
    },
    Step::Bytes {
        at: ROOT + 68,
        are: b"0000000800000008",
    },
    Step::Child {
        of: 0,
        name: b"I",
        serial: 11,
    },
    Step::Bytes {
        at: ROOT + 68,
        are: b"000000090000000C",
    },
    Step::Child {
        of: 0,
        name: b"J",
        serial: 12,
    },
    Step::Bytes {
        at: ROOT + 68,
        are: b"0000000A0000000C",
    },
];

#[test]
fn a_table_grows_with_its_children(rt: HostRuntime) -> Result<(), Fail> {
    run_both(&rt, rt.alloc(), &TEN_CHILDREN)
}

const FULL_OF_HEADERS: [Step; 15] = [
    Step::Child {
        of: 0,
        name: b"D",
        serial: 6,
    },
    Step::Child {
        of: 0,
        name: b"E",
        serial: 7,
    },
    Step::Child {
        of: 0,
        name: b"F",
        serial: 8,
    },
    Step::Child {
        of: 0,
        name: b"G",
        serial: 9,
    },
    Step::Child {
        of: 0,
        name: b"H",
        serial: 10,
    },
    Step::Child {
        of: 0,
        name: b"I",
        serial: 11,
    },
    Step::Child {
        of: 0,
        name: b"J",
        serial: 12,
    },
    Step::Child {
        of: 0,
        name: b"K",
        serial: 13,
    },
    Step::Child {
        of: 0,
        name: b"M",
        serial: 14,
    },
    Step::Child {
        of: 0,
        name: b"N",
        serial: 15,
    },
    Step::Child {
        of: 0,
        name: b"O",
        serial: 16,
    },
    Step::Child {
        of: 0,
        name: b"P",
        serial: 17,
    },
    Step::Child {
        of: 0,
        name: b"Q",
        serial: 18,
    },
    Step::NoChild {
        of: 0,
        name: b"Q",
        label: b"",
        error: AdfError::Duplicate,
    },
    Step::NoChild {
        of: 0,
        name: b"R",
        label: b"",
        error: AdfError::Full {
            asked: 246,
            end: 8191,
        },
    },
];

#[test]
fn a_header_fills_the_last_byte_and_the_next_is_refused(rt: HostRuntime) -> Result<(), Fail> {
    run_on(&rt, rt.alloc(), false, true, &FULL_OF_HEADERS)
}

const FULL_OF_TABLES: [Step; 10] = [
    Step::Child {
        of: 0,
        name: b"D",
        serial: 6,
    },
    Step::Child {
        of: 0,
        name: b"E",
        serial: 7,
    },
    Step::Child {
        of: 0,
        name: b"F",
        serial: 8,
    },
    Step::Child {
        of: 0,
        name: b"G",
        serial: 9,
    },
    Step::Child {
        of: 0,
        name: b"H",
        serial: 10,
    },
    Step::Child {
        of: 0,
        name: b"I",
        serial: 11,
    },
    Step::Child {
        of: 0,
        name: b"J",
        serial: 12,
    },
    Step::Child {
        of: 0,
        name: b"K",
        serial: 13,
    },
    Step::Child {
        of: 0,
        name: b"M",
        serial: 14,
    },
    Step::NoChild {
        of: 0,
        name: b"N",
        label: b"",
        error: AdfError::Full {
            asked: 812,
            end: 7997,
        },
    },
];

#[test]
fn a_longer_table_without_room_is_refused(rt: HostRuntime) -> Result<(), Fail> {
    run_on(&rt, rt.alloc(), true, true, &FULL_OF_TABLES)
}

const BAD_CHILDREN: [Step; 6] = [
    Step::NoChild {
        of: 5,
        name: b"/",
        label: b"\t",
        error: AdfError::NoSuchNode,
    },
    Step::NoChild {
        of: 3,
        name: b"/",
        label: b"\t",
        error: AdfError::LinkMissing,
    },
    Step::NoChild {
        of: 0,
        name: b"/",
        label: b"\t",
        error: AdfError::BadName,
    },
    Step::NoChild {
        of: 0,
        name: b"A",
        label: b"\t",
        error: AdfError::BadLabel,
    },
    Step::NoChild {
        of: 0,
        name: b"L",
        label: b"",
        error: AdfError::Duplicate,
    },
    Step::Within { ranges: &[] },
];

#[test]
fn a_new_node_may_be_refused(rt: HostRuntime) -> Result<(), Fail> {
    run_both(&rt, rt.alloc(), &BAD_CHILDREN)
}
