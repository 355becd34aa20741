//! The data of one node, as tables of steps.
use crate::images::{crowded, front, opened};
use crate::steps::{Step, new_heap, run, run_at, run_on};
use adf_chunks::ExtentKind::FreeChunk;
use adf_data::DataPlace;
use std::test::Fail;
use test_spaces::Bytes;

const HUNDRED: [u8; 100] = [7; 100];

const A_NODE_GROWS: [Step; 19] = [
    Step::Resize { old: 0, new: 100 },
    Step::One { place: 1130 },
    Step::End { is: 1249 },
    Step::Write {
        element: 1,
        runs: &[(0, 100)],
        bytes: &HUNDRED,
    },
    Step::Resize { old: 100, new: 150 },
    Step::Many {
        count: 2,
        table: 1320,
    },
    Step::End { is: 1387 },
    Step::Gaps { are: &[] },
    Step::Bytes {
        at: 1320,
        are: b"DCtb00000000056800000000046A0000000004DE0000000004E2000000000524dcTE",
    },
    Step::Resize { old: 150, new: 160 },
    Step::Many {
        count: 3,
        table: 1420,
    },
    Step::End { is: 1511 },
    Step::Gaps {
        are: &[(1320, 68, FreeChunk)],
    },
    Step::Bytes {
        at: 1420,
        are: b"DCtb0000000005E400000000046A0000000004DE0000000004E200000000052400000000056C000000000588dcTE",
    },
    Step::Resize { old: 160, new: 162 },
    Step::Many {
        count: 3,
        table: 1420,
    },
    Step::End { is: 1511 },
    Step::Read {
        element: 20,
        runs: &[(4, 2)],
        are: &[
            7, 7, 7, 7, 7, 7, 7, 7, 7, 7, 7, 7, 7, 7, 7, 7, 7, 7, 7, 7, 0, 0, 0, 0, 0, 0, 0, 0, 0,
            0, 0, 0, 0, 0, 0, 0, 0, 0, 0, 0,
        ],
    },
    Step::Gaps {
        are: &[(1320, 68, FreeChunk)],
    },
];

#[test]
fn a_growth_adds_a_chunk_and_places_the_table_anew(rt: HostRuntime) -> Result<(), Fail> {
    let space = front(rt.alloc(), 4096)?;
    run_on(&rt, rt.alloc(), space, 1129, 1, &A_NODE_GROWS)
}

const SHRUNK: [Step; 9] = [
    Step::Resize { old: 0, new: 100 },
    Step::Write {
        element: 1,
        runs: &[(0, 100)],
        bytes: &HUNDRED,
    },
    Step::Resize { old: 100, new: 50 },
    Step::One { place: 1130 },
    Step::Resize { old: 50, new: 100 },
    Step::Read {
        element: 1,
        runs: &[(48, 4), (98, 2)],
        are: &[7, 7, 0, 0, 0, 0],
    },
    Step::One { place: 1130 },
    Step::End { is: 1249 },
    Step::Gaps { are: &[] },
];

#[test]
fn old_bytes_do_not_come_back(rt: HostRuntime) -> Result<(), Fail> {
    let space = front(rt.alloc(), 4096)?;
    run_on(&rt, rt.alloc(), space, 1129, 1, &SHRUNK)
}

const SIXTY_FOUR_CHUNKS: [Step; 73] = [
    Step::Resize { old: 0, new: 12 },
    Step::Resize { old: 12, new: 24 },
    Step::Resize { old: 24, new: 36 },
    Step::Resize { old: 36, new: 48 },
    Step::Resize { old: 48, new: 60 },
    Step::Resize { old: 60, new: 72 },
    Step::Resize { old: 72, new: 84 },
    Step::Resize { old: 84, new: 96 },
    Step::Resize { old: 96, new: 108 },
    Step::Resize { old: 108, new: 120 },
    Step::Resize { old: 120, new: 132 },
    Step::Resize { old: 132, new: 144 },
    Step::Resize { old: 144, new: 156 },
    Step::Resize { old: 156, new: 168 },
    Step::Resize { old: 168, new: 180 },
    Step::Resize { old: 180, new: 192 },
    Step::Resize { old: 192, new: 204 },
    Step::Resize { old: 204, new: 216 },
    Step::Resize { old: 216, new: 228 },
    Step::Resize { old: 228, new: 240 },
    Step::Resize { old: 240, new: 252 },
    Step::Resize { old: 252, new: 264 },
    Step::Resize { old: 264, new: 276 },
    Step::Resize { old: 276, new: 288 },
    Step::Resize { old: 288, new: 300 },
    Step::Resize { old: 300, new: 312 },
    Step::Resize { old: 312, new: 324 },
    Step::Resize { old: 324, new: 336 },
    Step::Resize { old: 336, new: 348 },
    Step::Resize { old: 348, new: 360 },
    Step::Resize { old: 360, new: 372 },
    Step::Resize { old: 372, new: 384 },
    Step::Resize { old: 384, new: 396 },
    Step::Resize { old: 396, new: 408 },
    Step::Resize { old: 408, new: 420 },
    Step::Resize { old: 420, new: 432 },
    Step::Resize { old: 432, new: 444 },
    Step::Resize { old: 444, new: 456 },
    Step::Resize { old: 456, new: 468 },
    Step::Resize { old: 468, new: 480 },
    Step::Resize { old: 480, new: 492 },
    Step::Resize { old: 492, new: 504 },
    Step::Resize { old: 504, new: 516 },
    Step::Resize { old: 516, new: 528 },
    Step::Resize { old: 528, new: 540 },
    Step::Resize { old: 540, new: 552 },
    Step::Resize { old: 552, new: 564 },
    Step::Resize { old: 564, new: 576 },
    Step::Resize { old: 576, new: 588 },
    Step::Resize { old: 588, new: 600 },
    Step::Resize { old: 600, new: 612 },
    Step::Resize { old: 612, new: 624 },
    Step::Resize { old: 624, new: 636 },
    Step::Resize { old: 636, new: 648 },
    Step::Resize { old: 648, new: 660 },
    Step::Resize { old: 660, new: 672 },
    Step::Resize { old: 672, new: 684 },
    Step::Resize { old: 684, new: 696 },
    Step::Resize { old: 696, new: 708 },
    Step::Resize { old: 708, new: 720 },
    Step::Resize { old: 720, new: 732 },
    Step::Resize { old: 732, new: 744 },
    Step::Resize { old: 744, new: 756 },
    Step::Resize { old: 756, new: 768 },
    Step::Many {
        count: 64,
        table: 5282,
    },
    Step::End { is: 9705 },
    Step::Write {
        element: 12,
        runs: &[(0, 1), (63, 1)],
        bytes: b"first bytes!last bytes!!",
    },
    Step::Resize { old: 768, new: 780 },
    Step::One { place: 3750 },
    Step::Length { is: 800 },
    Step::Gaps {
        are: &[(1130, 2620, FreeChunk), (4550, 5156, FreeChunk)],
    },
    Step::End { is: 9705 },
    Step::Read {
        element: 12,
        runs: &[(0, 1), (1, 1), (63, 2)],
        are: b"first bytes!\0\0\0\0\0\0\0\0\0\0\0\0last bytes!!\0\0\0\0\0\0\0\0\0\0\0\0",
    },
];

#[test]
fn data_in_many_chunks_are_gathered(rt: HostRuntime) -> Result<(), Fail> {
    let space = front(rt.alloc(), 1 << 16)?;
    run_on(&rt, rt.alloc(), space, 1129, 16, &SIXTY_FOUR_CHUNKS)
}

// Elements 12 and 18 of eight bytes each are cut by the ends of the first two chunks.
const CUT_ELEMENTS: [Step; 12] = [
    Step::Resize { old: 0, new: 100 },
    Step::Resize { old: 100, new: 150 },
    Step::Resize { old: 150, new: 160 },
    Step::Write {
        element: 8,
        runs: &[(12, 1), (18, 1)],
        bytes: b"abcdefghijklmnop",
    },
    Step::Read {
        element: 8,
        runs: &[(12, 1), (18, 1)],
        are: b"abcdefghijklmnop",
    },
    Step::Read {
        element: 8,
        runs: &[(11, 1), (13, 1), (17, 1), (19, 1)],
        are: &[0; 32],
    },
    Step::Bytes {
        at: 1242,
        are: b"abcddEnDDaTa",
    },
    Step::Bytes {
        at: 1266,
        are: b"efgh",
    },
    Step::Bytes {
        at: 1310,
        are: b"ijklmndEnD",
    },
    Step::Bytes {
        at: 1404,
        are: b"op",
    },
    Step::Write {
        element: 4,
        runs: &[(36, 1), (24, 1)],
        bytes: b"ABCDEFGH",
    },
    Step::Read {
        element: 8,
        runs: &[(18, 1), (12, 1)],
        are: b"ABCDmnopEFGHefgh",
    },
];

#[test]
fn elements_are_cut_between_chunks(rt: HostRuntime) -> Result<(), Fail> {
    let space = front(rt.alloc(), 4096)?;
    run_on(&rt, rt.alloc(), space, 1129, 1, &CUT_ELEMENTS)
}

const EIGHT_ELEMENTS: [Step; 1] = [Step::Put {
    bytes: b"abcdefgh........ijklmnop........qrstuvwx........yzabcdef........",
}];

const EVERY_OTHER: [Step; 1] = [Step::Read {
    element: 8,
    runs: &[(0, 1), (2, 1), (4, 1), (6, 1)],
    are: b"abcdefghijklmnopqrstuvwxyzabcdef",
}];

// The head of the chunk is read, and then the block of all runs once.
#[test]
fn short_runs_read_their_block_once(rt: HostRuntime) -> Result<(), Fail> {
    let alloc = rt.alloc();
    let mut space = front(alloc, 4096)?;
    let mut heap = new_heap(alloc, &mut space, 1129, 1)?;
    let mut at = DataPlace::none();
    run(&rt, alloc, &mut heap, &mut space, &mut at, &EIGHT_ELEMENTS)?;
    let before = space.calls;
    run(&rt, alloc, &mut heap, &mut space, &mut at, &EVERY_OTHER)?;
    let calls = space.calls.saturating_sub(before);
    assert!(rt; calls == 2, "{calls} calls");
    Ok(())
}

const RELEASED: [Step; 9] = [
    Step::Resize { old: 0, new: 100 },
    Step::Resize { old: 100, new: 150 },
    Step::Resize { old: 150, new: 160 },
    Step::Release,
    Step::None,
    Step::Gaps {
        are: &[(1130, 382, FreeChunk)],
    },
    Step::End { is: 1511 },
    Step::Release,
    Step::Resize { old: 0, new: 362 },
];

#[test]
fn a_release_gives_the_table_and_all_chunks(rt: HostRuntime) -> Result<(), Fail> {
    let space = front(rt.alloc(), 4096)?;
    run_on(&rt, rt.alloc(), space, 1129, 1, &RELEASED)
}

const NO_ROOM_FOR_A_CHUNK: [Step; 1] = [Step::Full {
    old: 0,
    new: 4000,
    asked: 4020,
    end: 1129,
}];

const NO_ROOM_FOR_THE_TABLE: [Step; 2] = [
    Step::Resize { old: 0, new: 100 },
    Step::Full {
        old: 100,
        new: 2880,
        asked: 68,
        end: 4049,
    },
];

#[test]
fn a_take_that_does_not_fit_is_named(rt: HostRuntime) -> Result<(), Fail> {
    let space = front(rt.alloc(), 4096)?;
    run_on(&rt, rt.alloc(), space, 1129, 1, &NO_ROOM_FOR_A_CHUNK)?;
    let space = front(rt.alloc(), 4096)?;
    run_on(&rt, rt.alloc(), space, 1129, 1, &NO_ROOM_FOR_THE_TABLE)
}

// Three chunks in descending places, with slack behind the first 20 bytes.
const DESCENDING: [(u64, &[u8]); 3] = [
    (3000, b"0123456789"),
    (2500, b"abcde"),
    (2000, b"vwxyzslackslackslackslackslack"),
];

const AN_OPENED_FILE: [Step; 11] = [
    Step::Read {
        element: 1,
        runs: &[(8, 4), (14, 2), (19, 1)],
        are: b"89abevz",
    },
    Step::Write {
        element: 4,
        runs: &[(2, 2)],
        bytes: b"ABCDEFGH",
    },
    Step::Bytes {
        at: 3016,
        are: b"01234567ABdEnD",
    },
    Step::Bytes {
        at: 2516,
        are: b"CDEFGdEnD",
    },
    Step::Bytes {
        at: 2016,
        are: b"HwxyzslackslackslackslackslackdEnD",
    },
    Step::Resize { old: 20, new: 25 },
    Step::Read {
        element: 5,
        runs: &[(3, 2)],
        are: b"Hwxyz\0\0\0\0\0",
    },
    Step::Resize { old: 25, new: 46 },
    Step::Count { is: 4 },
    Step::Read {
        element: 1,
        runs: &[(0, 2), (15, 2), (24, 3), (44, 2)],
        are: b"01Hw\0\0\0\0\0",
    },
    Step::Release,
];

#[test]
fn chunks_of_an_opened_file_stand_in_any_order(rt: HostRuntime) -> Result<(), Fail> {
    let mut space = front(rt.alloc(), 8192)?;
    let Some(at) = opened(&mut space, 4000, &DESCENDING) else {
        return Err("the file is not made")?;
    };
    run_at(&rt, rt.alloc(), space, at, 6000, 2, &AN_OPENED_FILE)
}

const A_CROWDED_FILE: [Step; 8] = [
    Step::Read {
        element: 1,
        runs: &[(0, 3), (250, 3), (65_534, 1)],
        are: &[0, 1, 2, 250, 0, 1, 23],
    },
    Step::Write {
        element: 2,
        runs: &[(125, 1), (0, 1)],
        bytes: b"wxyz",
    },
    Step::Read {
        element: 1,
        runs: &[(0, 3), (249, 4)],
        are: &[121, 122, 2, 249, 119, 120, 1],
    },
    Step::Resize {
        old: 65_535,
        new: 65_536,
    },
    Step::Length { is: 65_556 },
    Step::Read {
        element: 1,
        runs: &[(0, 3), (249, 4), (65_534, 2)],
        are: &[121, 122, 2, 249, 119, 120, 1, 23, 0],
    },
    Step::Gaps {
        are: &[(10_000, 2_949_095, FreeChunk)],
    },
    Step::End { is: 3_065_555 },
];

#[test]
fn as_many_chunks_as_a_table_lists_are_gathered(rt: HostRuntime) -> Result<(), Fail> {
    let mut space = front(rt.alloc(), 1 << 22)?;
    let Some(at) = crowded(&mut space, 65_535) else {
        return Err("the file is not made")?;
    };
    run_at(&rt, rt.alloc(), space, at, 2_999_999, 4096, &A_CROWDED_FILE)
}

// A chunk is at least 32 bytes long, with zeros behind its data. One of 120 bytes does not fit where one of 32 was given.
const PUT: [Step; 11] = [
    Step::Put { bytes: b"abcde" },
    Step::One { place: 1130 },
    Step::Length { is: 32 },
    Step::End { is: 1161 },
    Step::Bytes {
        at: 1146,
        are: b"abcde\0\0\0\0\0\0\0dEnD",
    },
    Step::Release,
    Step::Put { bytes: &HUNDRED },
    Step::One { place: 1162 },
    Step::Length { is: 120 },
    Step::End { is: 1281 },
    Step::Read {
        element: 50,
        runs: &[(0, 2)],
        are: &HUNDRED,
    },
];

#[test]
fn data_are_put_where_there_are_none(rt: HostRuntime) -> Result<(), Fail> {
    let space = front(rt.alloc(), 4096)?;
    run_on(&rt, rt.alloc(), space, 1129, 1, &PUT)
}

const PUT_IN_PART: [Step; 5] = [
    Step::PutPart {
        size: 100,
        element: 4,
        runs: &[(24, 1), (0, 1)],
        bytes: b"abcdwxyz",
    },
    Step::One { place: 1130 },
    Step::Length { is: 120 },
    Step::End { is: 1249 },
    Step::Read {
        element: 4,
        runs: &[(0, 2), (23, 2)],
        are: b"wxyz\0\0\0\0\0\0\0\0abcd",
    },
];

#[test]
fn elements_are_put_over_zeros(rt: HostRuntime) -> Result<(), Fail> {
    let space = front(rt.alloc(), 4096)?;
    run_on(&rt, rt.alloc(), space, 1129, 1, &PUT_IN_PART)
}
