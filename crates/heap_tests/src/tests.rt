//! Takes and gives on files made by hand, as tables of steps.
use crate::files::{CHUNK_GAPS, Gap, blank, chunks, extents, nine_children};
use crate::steps::{
    Step, ends_at, has_gaps, is_refused, is_refused_with, new_heap, run, run_on, take, undo,
};
use adf_chunks::ExtentKind::{Filler, FreeChunk};
use adf_model::AdfError;
use std::test::Fail;
use test_spaces::Bytes;

/// The one gap of the file with nine children.
const FIRST_TABLE: [Gap; 1] = [(758, 372, FreeChunk)];

const A_SMALLER_CHUNK: [Step; 6] = [
    Step::Take { n: 300, place: 758 },
    Step::Gaps {
        are: &[(1058, 72, FreeChunk)],
    },
    Step::End { is: 3645 },
    Step::Lists {
        small: &[(1058, 72)],
        medium: &[],
        large: &[],
    },
    Step::Last { is: 3645 },
    Step::Undo,
];

#[test]
fn a_take_from_a_chunk_leaves_a_smaller_one(rt: HostRuntime) -> Result<(), Fail> {
    let space = nine_children(rt.alloc())?;
    run_on(&rt, rt.alloc(), space, &FIRST_TABLE, 3645, &A_SMALLER_CHUNK)
}

const BEHIND_THE_END: [Step; 12] = [
    Step::Full { n: 500, end: 3645 },
    Step::Undo,
    Step::Full { n: 451, end: 3645 },
    Step::Undo,
    Step::Take {
        n: 450,
        place: 3646,
    },
    Step::End { is: 4095 },
    Step::Last { is: 4095 },
    Step::Lists {
        small: &[(758, 372)],
        medium: &[],
        large: &[],
    },
    Step::Full { n: 373, end: 4095 },
    Step::Undo,
    Step::End { is: 3645 },
    Step::Gaps { are: &FIRST_TABLE },
];

#[test]
fn a_take_that_fits_nowhere_is_behind_the_end(rt: HostRuntime) -> Result<(), Fail> {
    let space = nine_children(rt.alloc())?;
    run_on(&rt, rt.alloc(), space, &FIRST_TABLE, 3645, &BEHIND_THE_END)
}

const A_FILLER: [Step; 5] = [
    Step::Take { n: 341, place: 758 },
    Step::Gaps {
        are: &[(1099, 31, Filler)],
    },
    Step::Lists {
        small: &[],
        medium: &[],
        large: &[],
    },
    Step::Bytes {
        from: 1099,
        to: 1130,
        are: b'z',
    },
    Step::Bytes {
        from: 1130,
        to: 1131,
        are: b'N',
    },
];

const A_LEAST_CHUNK: [Step; 3] = [
    Step::Take { n: 340, place: 758 },
    Step::Gaps {
        are: &[(1098, 32, FreeChunk)],
    },
    Step::Lists {
        small: &[(1098, 32)],
        medium: &[],
        large: &[],
    },
];

const A_WHOLE_CHUNK: [Step; 3] = [
    Step::Take { n: 372, place: 758 },
    Step::Gaps { are: &[] },
    Step::Lists {
        small: &[],
        medium: &[],
        large: &[],
    },
];

#[test]
fn a_rest_under_32_bytes_is_a_filler(rt: HostRuntime) -> Result<(), Fail> {
    for steps in [A_FILLER.as_slice(), &A_LEAST_CHUNK, &A_WHOLE_CHUNK] {
        let space = nine_children(rt.alloc())?;
        run_on(&rt, rt.alloc(), space, &FIRST_TABLE, 3645, steps)?;
    }
    Ok(())
}

const ANY_PLACE_OF_A_LIST: [Step; 15] = [
    Step::Lists {
        small: &[(2000, 100), (1000, 200), (3000, 600)],
        medium: &[],
        large: &[(4000, 64)],
    },
    // the middle one, and its rest is one with the filler behind it
    Step::Take {
        n: 180,
        place: 1000,
    },
    Step::Gaps {
        are: &[
            (1180, 60, Filler),
            (2000, 100, FreeChunk),
            (3000, 600, FreeChunk),
            (4000, 64, FreeChunk),
        ],
    },
    Step::Lists {
        small: &[(2000, 100), (3000, 600)],
        medium: &[],
        large: &[(4000, 64)],
    },
    // the last one, and its rest is a medium chunk
    Step::Take {
        n: 101,
        place: 3000,
    },
    Step::Lists {
        small: &[(3101, 499), (2000, 100)],
        medium: &[],
        large: &[(4000, 64)],
    },
    // that behind the first
    Step::Take {
        n: 100,
        place: 2000,
    },
    Step::Lists {
        small: &[(3101, 499)],
        medium: &[],
        large: &[(4000, 64)],
    },
    // the first and only one
    Step::Take {
        n: 499,
        place: 3101,
    },
    Step::Lists {
        small: &[],
        medium: &[],
        large: &[(4000, 64)],
    },
    // one in the list of another class
    Step::Take { n: 32, place: 4000 },
    Step::Lists {
        small: &[(4032, 32)],
        medium: &[],
        large: &[],
    },
    Step::Gaps {
        are: &[(1180, 60, Filler), (4032, 32, FreeChunk)],
    },
    Step::Undo,
    Step::Gaps { are: &CHUNK_GAPS },
];

const THE_FIRST_OF_A_LIST: [Step; 3] = [
    Step::Take {
        n: 200,
        place: 1000,
    },
    Step::Take { n: 60, place: 2000 },
    Step::Lists {
        small: &[(2060, 40), (3000, 600)],
        medium: &[],
        large: &[(4000, 64)],
    },
];

const GIVEN: [Gap; 6] = [
    (1000, 200, FreeChunk),
    (1200, 89, FreeChunk),
    (2000, 100, FreeChunk),
    (3000, 600, FreeChunk),
    (4000, 576, FreeChunk),
    (4600, 4696, FreeChunk),
];

/// Ranges that are joined with none, with a chunk before them, with a filler before them, with a chunk behind them, and
/// with two gaps; a chunk and a filler that touched before stay apart.
const A_RANGE_IS_GIVEN: [Step; 10] = [
    Step::Give {
        place: 5200,
        n: 4096,
    },
    Step::Give {
        place: 4064,
        n: 512,
    },
    Step::Give { place: 1240, n: 31 },
    Step::Give {
        place: 4600,
        n: 600,
    },
    Step::Give { place: 1280, n: 9 },
    Step::Bytes {
        from: 1280,
        to: 1289,
        are: b'z',
    },
    Step::Give { place: 1271, n: 9 },
    Step::Gaps { are: &GIVEN },
    Step::Lists {
        small: &[(1200, 89), (2000, 100), (1000, 200), (3000, 600)],
        medium: &[(4000, 576)],
        large: &[(4600, 4696)],
    },
    Step::End { is: 9999 },
];

const ACCEPTED: [Gap; 5] = [
    (1000, 100, FreeChunk),
    (1200, 40, Filler),
    (2000, 100, FreeChunk),
    (3000, 600, FreeChunk),
    (4000, 64, FreeChunk),
];

const WHAT_IS_ACCEPTED: [Step; 14] = [
    Step::Accept,
    Step::Take {
        n: 200,
        place: 1000,
    },
    Step::Give {
        place: 1000,
        n: 100,
    },
    Step::Accept,
    Step::Gaps { are: &ACCEPTED },
    Step::Give {
        place: 1100,
        n: 100,
    },
    Step::Take {
        n: 600,
        place: 3000,
    },
    Step::Undo,
    Step::Gaps { are: &ACCEPTED },
    Step::Undo,
    Step::Gaps { are: &ACCEPTED },
    Step::End { is: 9999 },
    Step::Undo,
    Step::Gaps { are: &ACCEPTED },
];

#[test]
fn chunks_of_three_lists_are_taken_and_given(rt: HostRuntime) -> Result<(), Fail> {
    let tables = [
        ANY_PLACE_OF_A_LIST.as_slice(),
        &THE_FIRST_OF_A_LIST,
        &A_RANGE_IS_GIVEN,
        &WHAT_IS_ACCEPTED,
    ];
    for steps in tables {
        let space = chunks(rt.alloc())?;
        run_on(&rt, rt.alloc(), space, &CHUNK_GAPS, 9999, steps)?;
    }
    Ok(())
}

/// Ten calls that leave the gaps as they were after the first round: each kind of neighbours of a range that is given, a chunk
/// behind the end, and a rest that is a filler.
const A_ROUND: [Step; 10] = [
    Step::Take { n: 300, place: 758 },
    Step::Take { n: 80, place: 3646 },
    Step::Give { place: 758, n: 100 },
    Step::Give { place: 958, n: 100 },
    Step::Give { place: 858, n: 100 },
    Step::Give { place: 3646, n: 80 },
    Step::Take { n: 341, place: 758 },
    Step::Give { place: 800, n: 299 },
    Step::Take { n: 32, place: 800 },
    Step::Give { place: 758, n: 74 },
];

/// What a hundred calls leave.
const A_HUNDRED_CALLS: [Step; 4] = [
    Step::Gaps {
        are: &[(758, 372, FreeChunk), (3646, 80, FreeChunk)],
    },
    Step::Lists {
        small: &[(758, 372), (3646, 80)],
        medium: &[],
        large: &[],
    },
    Step::End { is: 3725 },
    Step::Last { is: 3725 },
];

#[test]
fn a_hundred_calls_are_undone(rt: HostRuntime) -> Result<(), Fail> {
    let before = nine_children(rt.alloc())?;
    let mut space = before.copy(rt.alloc())?;
    let gaps = extents(rt.alloc(), &FIRST_TABLE)?;
    let mut heap = new_heap(rt.alloc(), &mut space, &gaps, 3645)?;
    for _ in 0..10 {
        run(&rt, rt.alloc(), &mut heap, &mut space, &A_ROUND)?;
    }
    run(&rt, rt.alloc(), &mut heap, &mut space, &A_HUNDRED_CALLS)?;
    undo(&mut heap);
    assert!(rt; has_gaps(rt.alloc(), &heap, &FIRST_TABLE)? && ends_at(&heap, 3645));
    // the lists are those of the bytes before the calls
    space = before;
    run(&rt, rt.alloc(), &mut heap, &mut space, &A_SMALLER_CHUNK)?;
    Ok(())
}

/// Three of four nodes behind a table are deleted, that in the middle last.
const THREE_NODES: [Step; 11] = [
    Step::Give {
        place: 1130,
        n: 246,
    },
    Step::Give {
        place: 1622,
        n: 246,
    },
    Step::Lists {
        small: &[(1622, 246), (1130, 246)],
        medium: &[],
        large: &[],
    },
    Step::Give {
        place: 1376,
        n: 246,
    },
    Step::Gaps {
        are: &[(1130, 738, FreeChunk)],
    },
    Step::Lists {
        small: &[],
        medium: &[(1130, 738)],
        large: &[],
    },
    Step::Pointer {
        at: 190,
        is: b"000000001000",
    },
    Step::Pointer {
        at: 214,
        is: b"00000000046A",
    },
    Step::Pointer {
        at: 226,
        is: b"00000000046A",
    },
    Step::End { is: 1867 },
    Step::Last { is: 1867 },
];

/// A node in front of a filler is deleted.
const BEFORE_A_FILLER: [Step; 4] = [
    Step::Give {
        place: 1376,
        n: 246,
    },
    Step::Gaps {
        are: &[(1376, 256, FreeChunk)],
    },
    Step::Lists {
        small: &[(1376, 256)],
        medium: &[],
        large: &[],
    },
    Step::End { is: 1631 },
];

#[test]
fn what_is_deleted_is_one_gap(rt: HostRuntime) -> Result<(), Fail> {
    run_on(
        &rt,
        rt.alloc(),
        blank(rt.alloc(), 1867)?,
        &[],
        1867,
        &THREE_NODES,
    )?;
    let filler = [(1622, 10, Filler)];
    run_on(
        &rt,
        rt.alloc(),
        blank(rt.alloc(), 1631)?,
        &filler,
        1631,
        &BEFORE_A_FILLER,
    )
}

/// Bytes that are put over the lists of a file, and the rule and the place that they break.
const NO_LISTS: [(u64, &[u8; 12], u8, u64); 6] = [
    (1016, b"000000000800", 30, 2048),
    (1016, b"0000000007D0", 30, 190),
    (1016, b"FFFFFFFF0FFF", 29, 17_592_186_044_415),
    (1016, b"000000001001", 29, 1016),
    (190, b"000000002000", 10, 190),
    (238, b"000000000FA1", 30, 4001),
];

#[test]
fn bytes_that_thread_no_lists_are_refused(rt: HostRuntime) -> Result<(), Fail> {
    let gaps = extents(rt.alloc(), &CHUNK_GAPS)?;
    for (at, bytes, rule, place) in NO_LISTS {
        let mut space = chunks(rt.alloc())?;
        let made = space.put(at, bytes);
        let layout = AdfError::Layout { rule, place };
        assert!(rt;
            made && is_refused_with(rt.alloc(), &mut space, &gaps, layout)?,
            "at {at}"
        );
    }
    Ok(())
}

/// A free chunk that no list has is not taken.
#[test]
fn a_chunk_of_no_list_is_not_taken(rt: HostRuntime) -> Result<(), Fail> {
    let gaps = extents(rt.alloc(), &[(1500, 40, FreeChunk)])?;
    let mut space = blank(rt.alloc(), 9999)?;
    let mut heap = new_heap(rt.alloc(), &mut space, &gaps, 9999)?;
    let answer = take(&mut heap, &mut space, 40);
    let layout = AdfError::Layout {
        rule: 30,
        place: 1500,
    };
    assert!(rt; is_refused(answer, layout)?);
    Ok(())
}
