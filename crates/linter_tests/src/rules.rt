//! Files that break a rule: which, and where.

use adf_model::AdfError;
use block_cache::BlockCache;
use cg_io::MemoryDevice;
use layout_lint::{Verdict, lint};
use sample_files::{Change, Image, Sample, image_of};
use std::alloc::Global;
use std::process::Abort;
use std::test::Fail;

/// What the linter says of the bytes, over a device whose read of this number, from 1, is to fail.
pub fn verdict(alloc: Global, image: Image, failing: u64) -> Result<Verdict, AdfError> {
    let text = image.text();
    if text.items().len() > 1 << 20 {
        return Err(AdfError::Memory);
    }
    let mut device = MemoryDevice::new(alloc, text);
    match device.fail_read(failing) {
        Ok(()) => {}
        Err(_) => return Err(AdfError::Memory),
    }
    match BlockCache::new(alloc, device, 1) {
        Ok(mut blocks) => lint(alloc, &mut blocks),
        Err((error, _)) => Err(error),
    }
}

// The rule that the bytes break and where, or 0 and the number of nodes.
type Outcome = (u8, u64);

fn outcome_of(verdict: Verdict) -> Outcome {
    match verdict {
        Verdict::Sound { nodes, .. } => (0, nodes.items().len() as u64),
        Verdict::Unsound { rule, place } => (rule, place),
    }
}

// Whether this is what the linter says of a sample with some changes and the first bytes alone left.
fn is_told(
    alloc: Global,
    sample: Sample,
    changes: &[Change],
    length: usize,
    wanted: Outcome,
) -> bool {
    let Ok(mut image) = image_of(alloc, sample) else {
        return false;
    };
    image.change(changes);
    image.cut(length);
    match verdict(alloc, image, 0) {
        Ok(found) => outcome_of(found) == wanted,
        Err(_) => false,
    }
}

// No file of the tests has so many bytes.
const WHOLE: usize = 1 << 20;

// A change of a file, the rule that is broken then, and where; or 0 and the number of nodes.
type Damage = (usize, &'static [u8], u8, u64);

// Changes made together, the rule that is broken then, and where; or 0 and the number of nodes.
type Case = (&'static [Change], u8, u64);

// Of a fresh file: first the examples of the format's document.
const FRESH: [Damage; 19] = [
    (4000, b"X", 0, 1),
    (100, b"C", 4, 100),
    (134, b"000000000000", 12, 0),
    (146, b"0000000001FE", 8, 146),
    (146, b"0000000001ff", 0, 1),
    (186, b"X", 9, 186),
    (190, b"00000000010A", 11, 190),
    (190, b"00000000010A00000000010A", 29, 266),
    (270, b" ", 16, 270),
    (334, b"FFFFFFFF", 22, 334),
    (342, b"FFFFFFFF000000000200", 23, 512),
    (362, b"XX", 20, 362),
    (394, b"0D", 21, 394),
    (492, b"0001", 19, 496),
    (106, b"fFaAbBcCdDeE", 0, 1),
    (134, b"00000000010a", 0, 1),
    (158, b"0000000000bA", 0, 1),
    (492, b"000a000000000200", 25, 512),
    (146, b"000000000FFF", 0, 1),
];

const NUMBER: Change = (362, b"I4");

const BYTE: Change = (362, b"B1");

const LINK: Change = (362, b"LK");

const TWELVE_DIMENSIONS: Change = (
    394,
    b"0c00000001000000020000aBcD0000000a0000000b0000000c0000000d0000000e0000000f0000000F0000000E0000000D",
);

// Parts in those bytes of the root's dimensions that mean nothing.
const TO_TABLE: Change = (342, b"0000000100000000018C");

const TABLE: Change = (396, b"SNTb0000000001C8");

const TABLE_END: Change = (456, b"snTE");

const TO_CHUNKS: Change = (492, b"0002000000000194");

const CHUNKS: Change = (
    394,
    b"0100000001DCtb0000000001D400000000010A00000000010A00000000010A00000000010AdcTE",
);

const TO_CHUNK: Change = (492, b"0001000000000194");

const CHUNK: Change = (394, b"0100000001DaTa0000000001A5zdEnD");

const TO_FREE: Change = (190, b"00000000018C00000000018C");

const FREE: Change = (396, b"FreE0000000001A8000000001000EndC");

// Of a fresh file. Parts in the root have no room; where the end is far enough, they share its bytes.
const FRESH_TOGETHER: [Case; 12] = [
    (&[(146, b"0000000003FF"), (512, b"\0")], 30, 512),
    (&[NUMBER, (394, b"0100000000")], 21, 396),
    (
        &[NUMBER, (394, b"0100000001"), (492, b"0001000000000200")],
        26,
        512,
    ),
    (&[NUMBER, TWELVE_DIMENSIONS], 0, 1),
    (&[TO_TABLE, TABLE, TABLE_END], 14, 396),
    (
        &[(146, b"00000000023F"), TO_TABLE, TABLE, TABLE_END],
        30,
        396,
    ),
    (&[BYTE, CHUNKS, TO_CHUNKS], 14, 404),
    (&[(146, b"000000000243"), BYTE, CHUNKS, TO_CHUNKS], 26, 266),
    (&[BYTE, CHUNK, TO_CHUNK], 14, 404),
    (&[(146, b"000000000214"), BYTE, CHUNK, TO_CHUNK], 30, 404),
    (&[TO_FREE, FREE], 14, 396),
    (&[(146, b"00000000021F"), TO_FREE, FREE], 30, 396),
];

// A chunk of twelve bytes behind the root of a wide file.
const WIDE_END: Change = (146, b"00000000027F");

const WIDE_CHUNK: Change = (608, b"DaTa00000000027C");

const WIDE_CHUNK_END: Change = (636, b"dEnD");

const TO_WIDE_CHUNK: Change = (588, b"0001000000000260");

const TWELVE: Change = (394, b"01000000000000000C");

const THIRTEEN: Change = (394, b"01000000000000000D");

const ONE_AND_NONE: Change = (394, b"0200000000000000010000000000000000");

const MANY_AND_ONE: Change = (394, b"0200000001000000000000000000000001");

// Of a fresh file of the wide version.
const FRESH_WIDE: [Case; 12] = [
    (&[(146, b"00000000025E")], 8, 146),
    (&[(134, b"00000000010B")], 12, 267),
    (&[(604, b"X")], 15, 604),
    (&[(492, b"XXXX")], 0, 1),
    (&[(588, b"X")], 18, 588),
    (&[(592, b"000000000200")], 19, 592),
    (&[NUMBER, ONE_AND_NONE], 21, 412),
    (&[NUMBER, MANY_AND_ONE], 0, 1),
    (
        &[WIDE_END, TO_WIDE_CHUNK, WIDE_CHUNK, WIDE_CHUNK_END],
        27,
        588,
    ),
    (
        &[
            WIDE_END,
            BYTE,
            TWELVE,
            TO_WIDE_CHUNK,
            WIDE_CHUNK,
            WIDE_CHUNK_END,
        ],
        0,
        1,
    ),
    (
        &[
            WIDE_END,
            BYTE,
            THIRTEEN,
            TO_WIDE_CHUNK,
            WIDE_CHUNK,
            WIDE_CHUNK_END,
        ],
        27,
        588,
    ),
    (
        &[
            WIDE_END,
            LINK,
            TWELVE,
            TO_WIDE_CHUNK,
            WIDE_CHUNK,
            WIDE_CHUNK_END,
        ],
        28,
        362,
    ),
];

// Of a file with one child.
const ONE_CHILD: [Damage; 40] = [
    (5, b"X", 2, 0),
    (25, b"B", 2, 0),
    (31, b"<", 2, 0),
    (32, b"X", 3, 32),
    (102, b"X", 3, 102),
    (185, b"X", 3, 182),
    (100, b"X", 4, 100),
    (109, b"G", 5, 108),
    (134, b"000000001000", 6, 134),
    (146, b"00000000 469", 6, 146),
    (158, b"000000001001", 6, 158),
    (158, b"0000000000BB", 7, 158),
    (146, b"000000001000", 6, 146),
    (146, b"0000000001FE", 8, 146),
    (146, b"000000010000", 8, 146),
    (186, b"X", 9, 186),
    (265, b"X", 9, 262),
    (190, b"X", 10, 190),
    (250, b"X", 10, 250),
    (202, b"000000000200", 11, 190),
    (134, b"0000000000BA", 12, 186),
    (134, b"000000000468", 12, 1128),
    (806, b"00000000010A", 13, 266),
    (512, b"X", 15, 512),
    (757, b"X", 15, 754),
    (516, b"base", 16, 516),
    (548, b" Label", 17, 548),
    (587, b"G", 18, 580),
    (588, b"X", 18, 588),
    (640, b"X", 18, 640),
    (738, b"X", 18, 738),
    (596, b"000000000300", 19, 596),
    (742, b"000000000300", 19, 742),
    (608, b"ZZ", 20, 608),
    (640, b"01", 21, 640),
    (640, b"13", 21, 640),
    (334, b"00000009", 22, 334),
    (758, b"X", 23, 758),
    (762, b"000000000467", 23, 762),
    (1126, b"X", 23, 1126),
];

const TWO_CHILDREN: Change = (334, b"00000002");

const BASE_AGAIN: Change = (818, b"Base                            000000000200");

const BASE_AS_COPY: Change = (818, b"Copy                            000000000200");

// Of the same. A node that is met twice is no child of two.
const ONE_CHILD_TOGETHER: [Case; 4] = [
    (&[(806, b"00000000010A"), (774, b"ADF MotherNode")], 13, 266),
    (&[TWO_CHILDREN, BASE_AGAIN], 24, 818),
    (&[TWO_CHILDREN, BASE_AS_COPY], 13, 512),
    (&[LINK, (394, b"0100000001")], 22, 334),
];

// Of a file whose child has two chunks of data.
const TWO_CHUNKS: [Damage; 17] = [
    (774, b"/", 24, 774),
    (806, b"000000001000", 24, 774),
    (1130, b"X", 25, 1130),
    (1134, b"0000000004AB", 25, 1134),
    (1146, b"X", 25, 1146),
    (1182, b"000000001000", 25, 1170),
    (1194, b"X", 25, 1194),
    (1198, b"X", 26, 1198),
    (1202, b"000000001000", 26, 1202),
    (1158, b"0000000004CB", 26, 1202),
    (1226, b"X", 26, 1226),
    (1170, b"0000000004AE", 26, 1202),
    (1170, b"0000000004CA", 26, 1226),
    (608, b"I8", 27, 738),
    (608, b"LK", 0, 2),
    (642, b"00000019", 27, 738),
    (642, b"00000018", 0, 2),
];

const CHILD_LINK: Change = (608, b"LK");

const TEXT_OF_24: Change = (642, b"00000018");

const FILE: Change = (1214, b"file in full");

// Of the same. A link's text stands in both chunks where it is longer than 12 bytes.
const TWO_CHUNKS_TOGETHER: [Case; 8] = [
    (&[(608, b"MT"), (640, b"00")], 27, 738),
    (&[CHILD_LINK, (1214, b"f/Xyzz")], 28, 608),
    (&[CHILD_LINK, (640, b"020000000600000001")], 28, 608),
    (&[CHILD_LINK, TEXT_OF_24, FILE, (1246, b">/Xyz")], 0, 2),
    (
        &[CHILD_LINK, (642, b"0000000C"), FILE, (1246, b">/Xyz")],
        28,
        608,
    ),
    (&[CHILD_LINK, TEXT_OF_24, FILE, (1246, b"/Xyz>")], 28, 608),
    (&[CHILD_LINK, TEXT_OF_24, (1257, b"/")], 28, 608),
    (&[CHILD_LINK, (642, b"00000017"), (1257, b"/")], 0, 2),
];

// Of a file with nine children and a free chunk.
const NINE_CHILDREN: [Damage; 13] = [
    (758, b"X", 29, 758),
    (762, b"000000000315", 29, 789),
    (762, b"000000000311", 29, 762),
    (774, b"X", 29, 774),
    (774, b"0000000002F6", 29, 758),
    (1126, b"X", 29, 1126),
    (202, b"00000000010A", 29, 202),
    (190, b"00000000010A00000000010A", 29, 266),
    (190, b"000000001000000000001000", 30, 758),
    (214, b"0000000002F60000000002F6", 29, 758),
    (238, b"0000000002F60000000002F6", 29, 758),
    (342, b"0000000c000000000c1A", 0, 10),
    (146, b"000000000E3E", 0, 10),
];

// Of the same. The last child is named as the first; and bytes behind the table.
const NINE_CHILDREN_TOGETHER: [Case; 2] = [
    (&[(2856, b"N1"), (3466, b"N1")], 24, 3466),
    (&[(146, b"000000000E74"), (3700, b"y")], 30, 3700),
];

// Of a file whose tree order is not that of places, nor that of depth: the root at 600, its child at
// 1200, that one's child at 300, and the root's other child at 954.
const MOVED_ROOT: [Case; 7] = [
    (
        &[(300, b"X"), (600, b"X"), (954, b"X"), (1200, b"X")],
        15,
        600,
    ),
    (&[(300, b"X"), (954, b"X"), (1200, b"X")], 15, 1200),
    (&[(300, b"X"), (954, b"X")], 15, 300),
    (&[(299, b"y"), (954, b"X")], 15, 954),
    (&[(1494, b"000000000258")], 13, 600),
    (&[(599, b"y")], 30, 599),
    (&[(299, b"y"), (599, b"y")], 30, 299),
];

// Of a file of three blocks with a link of 4,096 bytes.
const THREE_BLOCKS: [Damage; 6] = [
    (642, b"00001001", 28, 608),
    (642, b"00001002", 27, 738),
    (5241, b"/", 28, 608),
    (5247, b"y", 30, 5247),
    (8999, b"y", 30, 8999),
    (9016, b"000000020328", 29, 9000),
];

const DAMAGES: [(Sample, &[Damage]); 6] = [
    (Sample::Fresh, &FRESH),
    (Sample::OneChild, &ONE_CHILD),
    (Sample::TwoChunks, &TWO_CHUNKS),
    (Sample::NineChildren, &NINE_CHILDREN),
    (Sample::TenChildren, &[(334, b"0000000a", 0, 11)]),
    (Sample::ThreeBlocks, &THREE_BLOCKS),
];

#[test]
fn a_damage_breaks_its_rule(rt: HostRuntime) -> Result<(), Fail> {
    for (sample, damages) in DAMAGES {
        for (at, text, rule, place) in damages {
            let told = is_told(rt.alloc(), sample, &[(*at, *text)], WHOLE, (*rule, *place));
            assert!(rt; told, "at {at}: {rule} {place}");
        }
    }
    Ok(())
}

const CASES: [(Sample, &[Case]); 9] = [
    (Sample::Fresh, &FRESH_TOGETHER),
    (Sample::FreshWide, &FRESH_WIDE),
    (Sample::OneChild, &ONE_CHILD_TOGETHER),
    (Sample::TwoChunks, &TWO_CHUNKS_TOGETHER),
    (Sample::NineChildren, &NINE_CHILDREN_TOGETHER),
    (Sample::MovedRoot, &MOVED_ROOT),
    (Sample::NodeInside, &[(&[], 14, 870)]),
    (Sample::Chain(256), &[(&[], 0, 256)]),
    (Sample::Chain(257), &[(&[], 22, 79384)]),
];

#[test]
fn damages_together_break_the_first_rule(rt: HostRuntime) -> Result<(), Fail> {
    for (sample, cases) in CASES {
        for (changes, rule, place) in cases {
            let told = is_told(rt.alloc(), sample, changes, WHOLE, (*rule, *place));
            assert!(rt; told, "{rule} {place}");
        }
    }
    Ok(())
}

// How many bytes are left, the rule that is broken then, and where; or 0 and the number of nodes.
type Cut = (usize, u8, u64);

const CUTS: [(Sample, &[Cut]); 2] = [
    (Sample::Fresh, &[(0, 1, 0), (511, 8, 146), (512, 0, 1)]),
    (Sample::OneChild, &[(1130, 0, 2)]),
];

#[test]
fn a_cut_file_is_too_short(rt: HostRuntime) -> Result<(), Fail> {
    for (sample, cuts) in CUTS {
        for (length, rule, place) in cuts {
            let told = is_told(rt.alloc(), sample, &[], *length, (*rule, *place));
            assert!(rt; told, "at {length}");
        }
    }
    for length in 0..1130 {
        let wanted = if length < 266 { (1, 0) } else { (8, 146) };
        let told = is_told(rt.alloc(), Sample::OneChild, &[], length, wanted);
        assert!(rt; told, "at {length}");
    }
    Ok(())
}
