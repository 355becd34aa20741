//! What `check` and `check4` print of files that stand as tables of nodes.

use crate::plain_trees::{PlainTrees, Row, Target};
use adf_model::{DataType, Format};
use cg_io::MemorySink;
use cgns_check::{CheckFault, check, check4};
use sids_readings::RuleSet;
use std::alloc::Global;

macro_rules! row {
    ($name:expr, $label:expr, $kind:ident $dims:expr, $bytes:expr, $children:expr) => {
        Row {
            name: $name,
            label: $label,
            kind: DataType::$kind,
            dims: &$dims,
            bytes: $bytes,
            children: &$children,
            target: Target::Itself,
        }
    };
}

macro_rules! group {
    ($name:expr, $label:expr, $children:expr) => {
        row!($name, $label, Mt [], None, $children)
    };
}

macro_rules! link {
    ($name:expr, $target:expr) => {
        Row {
            name: $name,
            label: b"",
            kind: DataType::Lk,
            dims: &[1],
            bytes: Some(b"x"),
            children: &[],
            target: $target,
        }
    };
}

/// Nine numbers of a zone of three indices: two vertices and two cells in each, and no boundary.
const CUBE: &[u8] =
    b"\x02\0\0\0\x02\0\0\0\x02\0\0\0\x02\0\0\0\x02\0\0\0\x02\0\0\0\0\0\0\0\0\0\0\0\0\0\0\0";

/// A base of more cell dimensions than physical ones, two zones with too many cells, and a boundary
/// condition whose type is misspelled.
const FLAT: [Row<'static>; 9] = [
    group!(b"Root", b"Root Node of ADF File", [1, 2]),
    row!(
        b"CGNSLibraryVersion",
        b"CGNSLibraryVersion_t",
        R4[1],
        Some(&[0; 4]),
        []
    ),
    row!(
        b"Base",
        b"CGNSBase_t",
        I4[2],
        Some(b"\x03\0\0\0\x02\0\0\0"),
        [3, 8]
    ),
    row!(b"Z", b"Zone_t", I4 [3, 3], Some(CUBE), [4, 5]),
    row!(b"ZoneType", b"ZoneType_t", C1[10], Some(b"Structured"), []),
    group!(b"ZoneBC", b"ZoneBC_t", [6]),
    row!(b"B", b"BC_t", C1[5], Some(b"BCWal"), [7]),
    row!(b"PointRange", b"IndexRange_t", I4 [3, 2], Some(&[1; 24]), []),
    row!(b"Y", b"Zone_t", I4 [3, 3], Some(CUBE), []),
];

const FLAT_LINES: &[u8] = b"/Base K06 base-dimensions
/Base/Z K10 cell-size
/Base/Z/ZoneBC/B K31 bc-type
/Base/Y K10 cell-size
";

/// Sections of one zone: mixed elements without offsets; triangles over the element of those; polygons;
/// polyhedra whose face is no polygon.
const SECTIONS: [Row<'static>; 21] = [
    group!(b"Root", b"Root Node of ADF File", [1, 2]),
    row!(
        b"CGNSLibraryVersion",
        b"CGNSLibraryVersion_t",
        R4[1],
        Some(&[0; 4]),
        []
    ),
    row!(
        b"Base",
        b"CGNSBase_t",
        I4[2],
        Some(b"\x03\0\0\0\x03\0\0\0"),
        [3]
    ),
    row!(b"Z", b"Zone_t", I4 [1, 3], Some(b"\x04\0\0\0\x02\0\0\0\0\0\0\0"), [4, 5, 8, 11, 15, 19]),
    row!(
        b"ZoneType",
        b"ZoneType_t",
        C1[12],
        Some(b"Unstructured"),
        []
    ),
    row!(
        b"M",
        b"Elements_t",
        I4[2],
        Some(b"\x14\0\0\0\0\0\0\0"),
        [6, 7]
    ),
    row!(
        b"ElementRange",
        b"IndexRange_t",
        I4[2],
        Some(b"\x01\0\0\0\x01\0\0\0"),
        []
    ),
    row!(
        b"ElementConnectivity",
        b"DataArray_t",
        I4[4],
        Some(b"\x05\0\0\0\x01\0\0\0\x02\0\0\0\x03\0\0\0"),
        []
    ),
    row!(
        b"T",
        b"Elements_t",
        I4[2],
        Some(b"\x05\0\0\0\0\0\0\0"),
        [9, 10]
    ),
    row!(
        b"ElementRange",
        b"IndexRange_t",
        I4[2],
        Some(b"\x01\0\0\0\x03\0\0\0"),
        []
    ),
    row!(
        b"ElementConnectivity",
        b"DataArray_t",
        I4[9],
        Some(
            b"\x01\0\0\0\x02\0\0\0\x03\0\0\0\x01\0\0\0\x02\0\0\0\x04\0\0\0\x02\0\0\0\x03\0\0\0\x04\0\0\0"
        ),
        []
    ),
    row!(
        b"P",
        b"Elements_t",
        I4[2],
        Some(b"\x16\0\0\0\0\0\0\0"),
        [12, 13, 14]
    ),
    row!(
        b"ElementRange",
        b"IndexRange_t",
        I4[2],
        Some(b"\x04\0\0\0\x04\0\0\0"),
        []
    ),
    row!(
        b"ElementConnectivity",
        b"DataArray_t",
        I4[3],
        Some(b"\x01\0\0\0\x02\0\0\0\x03\0\0\0"),
        []
    ),
    row!(
        b"ElementStartOffset",
        b"DataArray_t",
        I4[2],
        Some(b"\0\0\0\0\x03\0\0\0"),
        []
    ),
    row!(
        b"F",
        b"Elements_t",
        I4[2],
        Some(b"\x17\0\0\0\0\0\0\0"),
        [16, 17, 18]
    ),
    row!(
        b"ElementRange",
        b"IndexRange_t",
        I4[2],
        Some(b"\x05\0\0\0\x05\0\0\0"),
        []
    ),
    row!(
        b"ElementConnectivity",
        b"DataArray_t",
        I4[1],
        Some(b"\xFD\xFF\xFF\xFF"),
        []
    ),
    row!(
        b"ElementStartOffset",
        b"DataArray_t",
        I4[2],
        Some(b"\0\0\0\0\x01\0\0\0"),
        []
    ),
    row!(
        b"G",
        b"Elements_t",
        I4[2],
        Some(b"\x17\0\0\0\0\0\0\0"),
        [20, 13, 18]
    ),
    row!(
        b"ElementRange",
        b"IndexRange_t",
        I4[2],
        Some(b"\x06\0\0\0\x06\0\0\0"),
        []
    ),
];

const SECTION_LINES: &[u8] = b"/Base/Z/T K30 sections-overlap\n";

const SECTION_LINES_4: &[u8] = b"/Base/Z/M K35 start-offset
/Base/Z/T K30 sections-overlap
/Base/Z/F K40 face-numbers
/Base/Z/G K37 offset-numbers
";

/// A good file of linked nodes: a zone that holds a link and a lost link, and a link to that zone.
const LINKED: [Row<'static>; 8] = [
    group!(b"Root", b"Root Node of ADF File", [1, 2]),
    row!(
        b"CGNSLibraryVersion",
        b"CGNSLibraryVersion_t",
        R4[1],
        Some(&[0; 4]),
        []
    ),
    row!(
        b"Base",
        b"CGNSBase_t",
        I4[2],
        Some(b"\x01\0\0\0\x01\0\0\0"),
        [3, 7]
    ),
    row!(b"Z", b"Zone_t", I4 [1, 3], Some(b"\x02\0\0\0\x01\0\0\0\0\0\0\0"), [4, 5, 6]),
    row!(b"Note", b"Descriptor_t", C1[2], Some(b"hi"), []),
    link!(b"Same", Target::Place(4)),
    link!(b"Lost", Target::Nowhere),
    link!(b"A b", Target::Place(3)),
];

const LINKED_LINES: &[u8] = b"/Base/Z/Lost K01 link
/Base/A%20b/Same N01 link-inside-link
/Base/A%20b/Lost N01 link-inside-link
/Base/A%20b/Lost K01 link
";

/// A table, the rules, how many findings there are, and the lines.
const FILES: [(&[Row<'static>], RuleSet, u64, &[u8]); 6] = [
    (&FLAT, RuleSet::Check, 4, FLAT_LINES),
    (&FLAT, RuleSet::Check4, 4, FLAT_LINES),
    (&SECTIONS, RuleSet::Check, 1, SECTION_LINES),
    (&SECTIONS, RuleSet::Check4, 4, SECTION_LINES_4),
    (&LINKED, RuleSet::Check, 2, LINKED_LINES),
    (&LINKED, RuleSet::Check4, 2, LINKED_LINES),
];

fn checked(
    alloc: Global,
    set: RuleSet,
    trees: &mut PlainTrees,
    sink: &mut MemorySink,
) -> Result<u64, CheckFault> {
    match set {
        RuleSet::Check => check(alloc, trees, 0, sink),
        RuleSet::Check4 => check4(alloc, trees, 0, sink),
    }
}

/// Whether a check answers and prints so.
pub(crate) fn prints(alloc: Global, rows: &[Row], set: RuleSet, count: u64, lines: &[u8]) -> bool {
    prints_in(alloc, rows, Format::Little, set, count, lines)
}

/// The same, of a table whose numbers have this byte order.
pub(crate) fn prints_in(
    alloc: Global,
    rows: &[Row],
    format: Format,
    set: RuleSet,
    count: u64,
    lines: &[u8],
) -> bool {
    let mut trees = PlainTrees::new(alloc, rows, format);
    let mut sink = MemorySink::new(alloc);
    let answer = checked(alloc, set, &mut trees, &mut sink);
    answer == Ok(count) && sink.taken() == lines
}

#[test]
fn a_check_prints_each_broken_rule_in_tree_order_and_then_by_number(rt: HostRuntime) {
    for (place, (rows, set, count, lines)) in FILES.iter().enumerate() {
        assert!(rt; prints(rt.alloc(), rows, *set, *count, lines), "at {place}");
    }
}

fn is_whole(lines: &[u8]) -> bool {
    match lines.last() {
        Some(byte) => *byte == b'\n',
        None => true,
    }
}

/// Whether a check whose k-th question fails ends with it, and has printed whole first lines. Where no
/// k-th question is asked it has no value.
fn stops_at_question(
    alloc: Global,
    rows: &[Row],
    set: RuleSet,
    k: u64,
    lines: &[u8],
) -> Option<bool> {
    let mut trees = PlainTrees::new(alloc, rows, Format::Little);
    trees.fail_at(k);
    let mut sink = MemorySink::new(alloc);
    match checked(alloc, set, &mut trees, &mut sink) {
        Ok(_) => None,
        Err(fault) => Some(
            fault == CheckFault::Memory
                && lines.starts_with(sink.taken())
                && is_whole(sink.taken()),
        ),
    }
}

/// Whether a check stops so at each of its questions, of which there are at most 3,000, or at each of so
/// many in turn.
pub(crate) fn stops_at_each(
    alloc: Global,
    rows: &[Row],
    set: RuleSet,
    lines: &[u8],
    step: u64,
) -> bool {
    for turn in 0..3000u64 {
        let k = turn.saturating_mul(step).saturating_add(1);
        match stops_at_question(alloc, rows, set, k, lines) {
            Some(true) => {}
            Some(false) => return false,
            None => return k > 40,
        }
    }
    false
}

#[test]
fn each_question_that_fails_ends_a_check_behind_whole_first_lines(rt: HostRuntime) {
    for (place, (rows, set, _, lines)) in FILES.iter().enumerate() {
        assert!(rt;
            stops_at_each(rt.alloc(), rows, *set, lines, 1),
            "at {place}"
        );
    }
}

/// Whether a check whose k-th call of the sink fails ends with it, and has printed a first part; where
/// no k-th call is made, whether all is printed.
fn stops_at_put(alloc: Global, rows: &[Row], set: RuleSet, k: u64, lines: &[u8]) -> bool {
    let mut trees = PlainTrees::new(alloc, rows, Format::Little);
    let mut sink = MemorySink::new(alloc);
    sink.fail_at(k);
    match checked(alloc, set, &mut trees, &mut sink) {
        Ok(_) => sink.taken() == lines,
        Err(fault) => {
            fault == CheckFault::Sink
                && lines.starts_with(sink.taken())
                && sink.taken().len() < lines.len()
        }
    }
}

#[test]
fn each_call_of_the_output_that_fails_ends_a_check(rt: HostRuntime) {
    for (place, (rows, set, _, lines)) in FILES.iter().enumerate() {
        for k in 1..6 {
            assert!(rt;
                stops_at_put(rt.alloc(), rows, *set, k, lines),
                "at {place} {k}"
            );
        }
    }
}
