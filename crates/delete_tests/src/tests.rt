//! Deletions, as tables of steps.
use crate::steps::{Step, open, run_both};
use adf_model::AdfError;
use std::test::Fail;

// ---- one node

const LAST: [Step; 4] = [
    Step::Delete { node: 4 },
    Step::Has {
        node: 4,
        row: false,
    },
    Step::Bytes {
        part: 0,
        offset: 68,
        are: b"0000000300000004",
    },
    Step::Sound { nodes: 8, gaps: 1 },
];

#[test]
fn the_last_child_is_deleted(rt: HostRuntime) -> Result<(), Fail> {
    run_both(&rt, rt.alloc(), &LAST)
}

const MIDDLE: [Step; 6] = [
    Step::Delete { node: 2 },
    Step::Has {
        node: 2,
        row: false,
    },
    Step::Has { node: 3, row: true },
    Step::Bytes {
        part: 1,
        offset: 60,
        are: b"L                               ",
    },
    Step::Bytes {
        part: 1,
        offset: 104,
        are: b"D                               ",
    },
    Step::Sound { nodes: 8, gaps: 1 },
];

#[test]
fn a_child_in_the_middle_is_deleted(rt: HostRuntime) -> Result<(), Fail> {
    run_both(&rt, rt.alloc(), &MIDDLE)
}

const DATA: [Step; 5] = [
    Step::Delete { node: 5 },
    Step::Sound { nodes: 8, gaps: 1 },
    Step::Delete { node: 8 },
    Step::Sound { nodes: 7, gaps: 2 },
    Step::Bytes {
        part: 6,
        offset: 68,
        are: b"0000000000000001",
    },
];

#[test]
fn data_in_one_chunk_and_in_two_are_given(rt: HostRuntime) -> Result<(), Fail> {
    run_both(&rt, rt.alloc(), &DATA)
}

const LINKS: [Step; 4] = [
    Step::Delete { node: 3 },
    Step::Sound { nodes: 8, gaps: 1 },
    Step::Delete { node: 7 },
    Step::Sound { nodes: 7, gaps: 2 },
];

#[test]
fn a_link_is_deleted_with_its_text(rt: HostRuntime) -> Result<(), Fail> {
    run_both(&rt, rt.alloc(), &LINKS)
}

// ---- a subtree

const BELOW: [Step; 11] = [
    Step::Delete { node: 1 },
    Step::Has {
        node: 1,
        row: false,
    },
    Step::Has {
        node: 5,
        row: false,
    },
    Step::Has {
        node: 6,
        row: false,
    },
    Step::Has {
        node: 7,
        row: false,
    },
    Step::Has {
        node: 8,
        row: false,
    },
    Step::Has { node: 2, row: true },
    Step::Bytes {
        part: 1,
        offset: 16,
        are: b"B                               ",
    },
    Step::Bytes {
        part: 1,
        offset: 104,
        are: b"D                               ",
    },
    Step::Sound { nodes: 4, gaps: 1 },
    Step::NoDelete {
        node: 8,
        error: AdfError::NoSuchNode,
    },
];

#[test]
fn a_node_is_deleted_with_all_below_it(rt: HostRuntime) -> Result<(), Fail> {
    run_both(&rt, rt.alloc(), &BELOW)
}

const ALL: [Step; 6] = [
    Step::Delete { node: 6 },
    Step::Sound { nodes: 7, gaps: 1 },
    Step::Delete { node: 1 },
    Step::Delete { node: 3 },
    Step::Delete { node: 4 },
    Step::Delete { node: 2 },
];

const NONE_LEFT: [Step; 2] = [
    Step::Bytes {
        part: 0,
        offset: 68,
        are: b"0000000000000004",
    },
    Step::Sound { nodes: 1, gaps: 1 },
];

#[test]
fn the_root_alone_is_left(rt: HostRuntime) -> Result<(), Fail> {
    let mut file = open(rt.alloc(), false, true)?;
    file.run(&rt, &ALL)?;
    file.run(&rt, &NONE_LEFT)?;
    Ok(())
}

// ---- refusals

const REFUSED: [Step; 5] = [
    Step::NoDelete {
        node: 0,
        error: AdfError::NotAChild,
    },
    Step::NoDelete {
        node: 9,
        error: AdfError::NoSuchNode,
    },
    Step::Delete { node: 5 },
    Step::NoDelete {
        node: 5,
        error: AdfError::NoSuchNode,
    },
    Step::Sound { nodes: 8, gaps: 1 },
];

#[test]
fn the_root_and_what_is_not_there_are_not_deleted(rt: HostRuntime) -> Result<(), Fail> {
    run_both(&rt, rt.alloc(), &REFUSED)
}

const READ_ONLY: [Step; 4] = [
    Step::NoDelete {
        node: 9,
        error: AdfError::NoSuchNode,
    },
    Step::NoDelete {
        node: 0,
        error: AdfError::ReadOnly,
    },
    Step::NoDelete {
        node: 1,
        error: AdfError::ReadOnly,
    },
    Step::Sound { nodes: 9, gaps: 0 },
];

#[test]
fn nothing_is_deleted_of_a_file_that_is_read_only(rt: HostRuntime) -> Result<(), Fail> {
    open(rt.alloc(), false, false)?.run(&rt, &READ_ONLY)?;
    Ok(())
}

// The table of `E` names a place at which no node stands.
const BROKEN: [Step; 4] = [
    Step::Put {
        part: 7,
        offset: 48,
        bytes: b"000000000001",
    },
    Step::NoDelete {
        node: 1,
        error: AdfError::Layout { rule: 30, place: 1 },
    },
    Step::Put {
        part: 7,
        offset: 48,
        bytes: b"            ",
    },
    Step::Has { node: 1, row: true },
];

#[test]
fn a_table_that_names_no_node_is_told(rt: HostRuntime) -> Result<(), Fail> {
    open(rt.alloc(), false, true)?.run(&rt, &BROKEN)?;
    Ok(())
}
