//! The edits of the data of one file, as tables of steps.
use crate::files::{MANY, NONE, ONE};
use crate::steps::{Step, run_both, run_on};
use adf_format::DataType;
use adf_model::AdfError;
use std::test::Fail;

// ---- shapes

/// Grown, cut and grown again: what was cut does not come back.
const SIZES: [Step; 13] = [
    Step::Dims {
        node: 2,
        dims: (DataType::I4, &[7]),
    },
    Step::Reads {
        node: 2,
        chunks: 2,
        are: b"AAAABBBBCCCCDDDDEEEE\0\0\0\0\0\0\0\0",
    },
    Step::Dims {
        node: 2,
        dims: (DataType::I4, &[2]),
    },
    Step::Reads {
        node: 2,
        chunks: 2,
        are: b"AAAABBBB",
    },
    Step::Dims {
        node: 2,
        dims: (DataType::I4, &[6]),
    },
    Step::Reads {
        node: 2,
        chunks: 2,
        are: b"AAAABBBB\0\0\0\0\0\0\0\0\0\0\0\0\0\0\0\0",
    },
    Step::Dims {
        node: 4,
        dims: (DataType::C1, &[5, 3]),
    },
    Step::Reads {
        node: 4,
        chunks: 3,
        are: b"abcdefghijkl\0\0\0",
    },
    Step::Dims {
        node: 4,
        dims: (DataType::C1, &[5, 4]),
    },
    Step::Reads {
        node: 4,
        chunks: 4,
        are: b"abcdefghijkl\0\0\0\0\0\0\0\0",
    },
    Step::Bytes {
        at: ONE + 96,
        are: b"I4                              01",
    },
    Step::Bytes {
        at: MANY + 96,
        are: b"C1                              02",
    },
    Step::Sound,
];

#[test]
fn data_grow_and_shrink_with_their_shape(rt: HostRuntime) -> Result<(), Fail> {
    run_both(&rt, rt.alloc(), &SIZES)
}

/// Another type or rank leaves no data.
const OTHERS: [Step; 11] = [
    Step::Dims {
        node: 2,
        dims: (DataType::R4, &[5]),
    },
    Step::Reads {
        node: 2,
        chunks: 0,
        are: b"",
    },
    Step::Dims {
        node: 4,
        dims: (DataType::C1, &[12]),
    },
    Step::Reads {
        node: 4,
        chunks: 0,
        are: b"",
    },
    Step::Dims {
        node: 4,
        dims: (DataType::Mt, &[]),
    },
    Step::Dims {
        node: 1,
        dims: (DataType::X8, &[1, 2, 3, 1, 2, 3, 1, 2, 3, 1, 2, 3]),
    },
    Step::Reads {
        node: 1,
        chunks: 0,
        are: b"",
    },
    Step::Bytes {
        at: NONE + 96,
        are: b"X8                              0C",
    },
    Step::Bytes {
        at: ONE + 96,
        are: b"R4                              01",
    },
    Step::Bytes {
        at: MANY + 96,
        are: b"MT                              00",
    },
    Step::Sound,
];

#[test]
fn another_type_or_rank_leaves_no_data(rt: HostRuntime) -> Result<(), Fail> {
    run_both(&rt, rt.alloc(), &OTHERS)
}

const BAD_SHAPES: [Step; 8] = [
    Step::NoDims {
        node: 5,
        dims: (DataType::Mt, &[1]),
        error: AdfError::NoSuchNode,
    },
    Step::NoDims {
        node: 3,
        dims: (DataType::Mt, &[1]),
        error: AdfError::LinkMissing,
    },
    Step::NoDims {
        node: 2,
        dims: (DataType::Mt, &[1]),
        error: AdfError::BadShape,
    },
    Step::NoDims {
        node: 2,
        dims: (DataType::I4, &[]),
        error: AdfError::BadShape,
    },
    Step::NoDims {
        node: 2,
        dims: (DataType::I4, &[3, 0]),
        error: AdfError::BadShape,
    },
    Step::NoDims {
        node: 2,
        dims: (DataType::Lk, &[3]),
        error: AdfError::BadShape,
    },
    Step::NoDims {
        node: 2,
        dims: (DataType::I4, &[268_435_457]),
        error: AdfError::TooLarge,
    },
    Step::Reads {
        node: 2,
        chunks: 1,
        are: b"AAAABBBBCCCCDDDDEEEE",
    },
];

#[test]
fn a_shape_is_refused_in_order(rt: HostRuntime) -> Result<(), Fail> {
    run_both(&rt, rt.alloc(), &BAD_SHAPES)?;
    run_on(
        &rt,
        rt.alloc(),
        false,
        false,
        16,
        &[Step::NoDims {
            node: 2,
            dims: (DataType::Mt, &[1]),
            error: AdfError::ReadOnly,
        }],
    )
}

/// Of large data without data: only a narrow file refuses their shape.
const LARGE: [Step; 3] = [
    Step::Dims {
        node: 1,
        dims: (DataType::I8, &[4_294_967_296]),
    },
    Step::NoAll {
        node: 1,
        bytes: b"",
        error: AdfError::TooLarge,
    },
    Step::Sound,
];

const NARROW_LARGE: [Step; 2] = [
    Step::NoDims {
        node: 1,
        dims: (DataType::I8, &[4_294_967_296]),
        error: AdfError::BadShape,
    },
    Step::NoDims {
        node: 1,
        dims: (DataType::I8, &[4_294_967_295]),
        error: AdfError::TooLarge,
    },
];

#[test]
fn a_wide_file_has_shapes_of_larger_data(rt: HostRuntime) -> Result<(), Fail> {
    run_on(&rt, rt.alloc(), true, true, 16, &LARGE)?;
    run_on(&rt, rt.alloc(), false, true, 16, &NARROW_LARGE)
}

/// The limit leaves 3,192 bytes: 4,000 are too many for a chunk, and behind one of 3,172 no table has room.
const FULL: [Step; 3] = [
    Step::NoDims {
        node: 2,
        dims: (DataType::I4, &[1000]),
        error: AdfError::Full {
            asked: 4000,
            end: 4999,
        },
    },
    Step::NoDims {
        node: 2,
        dims: (DataType::I4, &[793]),
        error: AdfError::Full {
            asked: 68,
            end: 8171,
        },
    },
    Step::Reads {
        node: 2,
        chunks: 1,
        are: b"AAAABBBBCCCCDDDDEEEE",
    },
];

// ---- data

/// All data, where there were none, in one chunk and in several.
const WHOLE: [Step; 10] = [
    Step::NoAll {
        node: 1,
        bytes: b"",
        error: AdfError::NoData,
    },
    Step::Dims {
        node: 1,
        dims: (DataType::I4, &[2]),
    },
    Step::All {
        node: 1,
        bytes: b"AAAABBBB",
    },
    Step::Reads {
        node: 1,
        chunks: 1,
        are: b"AAAABBBB",
    },
    Step::All {
        node: 2,
        bytes: b"aaaabbbbccccddddeeee",
    },
    Step::Reads {
        node: 2,
        chunks: 1,
        are: b"aaaabbbbccccddddeeee",
    },
    Step::All {
        node: 4,
        bytes: b"ABCDEFGHIJKL",
    },
    Step::Reads {
        node: 4,
        chunks: 3,
        are: b"ABCDEFGHIJKL...",
    },
    Step::NoAll {
        node: 4,
        bytes: b"ABCDEFGHIJK",
        error: AdfError::WrongLength { want: 12, got: 11 },
    },
    Step::Sound,
];

#[test]
fn all_data_are_put(rt: HostRuntime) -> Result<(), Fail> {
    run_both(&rt, rt.alloc(), &WHOLE)
}

/// A part over data, and over zeros where there were none.
const PARTS: [Step; 10] = [
    Step::Part {
        node: 4,
        part: (&[1, 2], &[3, 4], &[2, 1]),
        bytes: b"UVWXYZ",
    },
    Step::Reads {
        node: 4,
        chunks: 3,
        are: b"abcUeVWhXYkZ",
    },
    Step::Part {
        node: 2,
        part: (&[2], &[5], &[3]),
        bytes: b"bbbbeeee",
    },
    Step::Reads {
        node: 2,
        chunks: 1,
        are: b"AAAAbbbbCCCCDDDDeeee",
    },
    Step::Dims {
        node: 1,
        dims: (DataType::C1, &[3, 2]),
    },
    Step::Part {
        node: 1,
        part: (&[2, 1], &[3, 2], &[1, 1]),
        bytes: b"bcef",
    },
    Step::Reads {
        node: 1,
        chunks: 1,
        are: b"\0bc\0ef",
    },
    Step::Part {
        node: 1,
        part: (&[1, 1], &[1, 1], &[1, 1]),
        bytes: b"a",
    },
    Step::Reads {
        node: 1,
        chunks: 1,
        are: b"abc\0ef",
    },
    Step::Sound,
];

#[test]
fn a_part_is_put_over_data_or_zeros(rt: HostRuntime) -> Result<(), Fail> {
    run_both(&rt, rt.alloc(), &PARTS)
}

const BAD_PARTS: [Step; 8] = [
    Step::NoPart {
        node: 5,
        part: (&[1], &[1], &[1]),
        bytes: b"",
        error: AdfError::NoSuchNode,
    },
    Step::NoPart {
        node: 3,
        part: (&[1], &[1], &[1]),
        bytes: b"",
        error: AdfError::LinkMissing,
    },
    Step::NoPart {
        node: 1,
        part: (&[1], &[1], &[1]),
        bytes: b"",
        error: AdfError::NoData,
    },
    Step::NoPart {
        node: 2,
        part: (&[1], &[6], &[1]),
        bytes: b"",
        error: AdfError::BadRange,
    },
    Step::NoPart {
        node: 2,
        part: (&[1, 1], &[1, 1], &[1, 1]),
        bytes: b"",
        error: AdfError::BadRange,
    },
    Step::NoPart {
        node: 2,
        part: (&[1], &[5], &[2]),
        bytes: b"AAAABBBB",
        error: AdfError::WrongLength { want: 12, got: 8 },
    },
    Step::Reads {
        node: 2,
        chunks: 1,
        are: b"AAAABBBBCCCCDDDDEEEE",
    },
    Step::Reads {
        node: 4,
        chunks: 3,
        are: b"abcdefghijkl",
    },
];

#[test]
fn a_part_is_refused_in_order(rt: HostRuntime) -> Result<(), Fail> {
    run_both(&rt, rt.alloc(), &BAD_PARTS)
}

#[test]
fn a_full_file_is_told_by_its_numbers(rt: HostRuntime) -> Result<(), Fail> {
    run_on(&rt, rt.alloc(), false, true, 2, &FULL)
}

/// Headers and chunks that changed meanwhile.
const BROKEN: [Step; 6] = [
    Step::Put {
        at: MANY + 226,
        bytes: b"0003000000001257",
    },
    Step::Put {
        at: 4600 + 4,
        bytes: b"zzzz",
    },
    Step::Put {
        at: ONE + 96,
        bytes: b"MT                              00",
    },
    Step::NoDims {
        node: 2,
        dims: (DataType::Mt, &[]),
        error: AdfError::Layout {
            rule: 27,
            place: ONE + 226,
        },
    },
    Step::Put {
        at: ONE + 128,
        bytes: b"01",
    },
    Step::NoAll {
        node: 2,
        bytes: b"",
        error: AdfError::Layout {
            rule: 21,
            place: ONE + 128,
        },
    },
];

#[test]
fn bytes_that_changed_meanwhile_are_told(rt: HostRuntime) -> Result<(), Fail> {
    run_on(&rt, rt.alloc(), false, true, 16, &BROKEN)
}
