//! Moves, as tables of steps.
use crate::files::{A, A_TABLE, B, ROOT, ROOT_TABLE};
use crate::steps::{Step, run_both, run_on};
use adf_model::AdfError;
use std::test::Fail;

/// To another parent and back: the entries behind move up, and both lists are counted.
const OVER: [Step; 9] = [
    Step::Move { node: 2, to: 1 },
    Step::Stands {
        node: 2,
        below: 1,
        depth: 2,
    },
    Step::Bytes {
        at: ROOT_TABLE + 16,
        are: b"A                               0000000007D0L                               000000000AF0",
    },
    Step::Bytes {
        at: ROOT + 68,
        are: b"0000000200000004",
    },
    Step::Bytes {
        at: A_TABLE + 60,
        are: b"B                               000000000960",
    },
    Step::Bytes {
        at: A + 68,
        are: b"0000000200000002",
    },
    Step::Move { node: 2, to: 0 },
    Step::Bytes {
        at: ROOT_TABLE + 60,
        are: b"L                               000000000AF0B                               000000000960",
    },
    Step::Within {
        ranges: &[
            (ROOT_TABLE + 60, ROOT_TABLE + 148),
            (A_TABLE + 60, A_TABLE + 104),
        ],
    },
];

#[test]
fn a_node_moves_to_another_parent(rt: HostRuntime) -> Result<(), Fail> {
    run_both(&rt, rt.alloc(), &OVER)
}

/// To the end of its own list; the last one stays.
const LAST: [Step; 5] = [
    Step::Move { node: 3, to: 0 },
    Step::Within { ranges: &[] },
    Step::Move { node: 1, to: 0 },
    Step::Bytes {
        at: ROOT_TABLE + 16,
        are: b"B                               000000000960L                               000000000AF0A                               0000000007D0",
    },
    Step::Within {
        ranges: &[(ROOT_TABLE + 16, ROOT_TABLE + 148)],
    },
];

#[test]
fn a_node_moves_to_the_end_of_its_list(rt: HostRuntime) -> Result<(), Fail> {
    run_both(&rt, rt.alloc(), &LAST)
}

/// Below a node without a table, and into a full table: a longer one takes its place, and the old one is given.
const LONGER: [Step; 13] = [
    Step::Move { node: 1, to: 2 },
    Step::Stands {
        node: 1,
        below: 2,
        depth: 2,
    },
    Step::Stands {
        node: 4,
        below: 1,
        depth: 3,
    },
    Step::Bytes {
        at: B + 68,
        are: b"0000000100000008000000000FA0",
    },
    Step::Bytes {
        at: 4000,
        are: b"SNTb000000010110A                               0000000007D0\0\0\0\0",
    },
    Step::Child {
        of: 0,
        name: b"D",
        serial: 6,
    },
    Step::Child {
        of: 0,
        name: b"E",
        serial: 7,
    },
    Step::Move { node: 2, to: 0 },
    Step::Bytes {
        at: ROOT + 68,
        are: b"00000004000000080000000103",
    },
    Step::Bytes {
        at: ROOT_TABLE,
        are: b"FreE",
    },
    Step::Stands {
        node: 2,
        below: 0,
        depth: 1,
    },
    Step::Stands {
        node: 4,
        below: 1,
        depth: 3,
    },
    Step::NoMove {
        node: 2,
        to: 4,
        error: AdfError::IntoItself,
    },
];

#[test]
fn a_node_moves_into_a_longer_table(rt: HostRuntime) -> Result<(), Fail> {
    run_on(&rt, rt.alloc(), false, true, &LONGER)
}

const BAD_MOVES: [Step; 9] = [
    Step::NoMove {
        node: 5,
        to: 0,
        error: AdfError::NoSuchNode,
    },
    Step::NoMove {
        node: 0,
        to: 5,
        error: AdfError::NoSuchNode,
    },
    Step::NoMove {
        node: 0,
        to: 3,
        error: AdfError::LinkMissing,
    },
    Step::NoMove {
        node: 0,
        to: 0,
        error: AdfError::NotAChild,
    },
    Step::NoMove {
        node: 1,
        to: 1,
        error: AdfError::IntoItself,
    },
    Step::NoMove {
        node: 1,
        to: 4,
        error: AdfError::IntoItself,
    },
    Step::Name {
        node: 4,
        name: b"B",
    },
    Step::NoMove {
        node: 4,
        to: 0,
        error: AdfError::Duplicate,
    },
    Step::Stands {
        node: 4,
        below: 1,
        depth: 2,
    },
];

#[test]
fn a_move_may_be_refused(rt: HostRuntime) -> Result<(), Fail> {
    run_both(&rt, rt.alloc(), &BAD_MOVES)
}

const READ_ONLY_MOVES: [Step; 2] = [
    Step::NoMove {
        node: 0,
        to: 3,
        error: AdfError::LinkMissing,
    },
    Step::NoMove {
        node: 0,
        to: 0,
        error: AdfError::ReadOnly,
    },
];

#[test]
fn a_file_that_is_read_only_keeps_its_nodes(rt: HostRuntime) -> Result<(), Fail> {
    run_on(&rt, rt.alloc(), false, false, &READ_ONLY_MOVES)
}
