//! What is printed of files as they are seen through links, in either byte order, and with nodes of other parents between arrays.

use crate::checks::{prints, prints_in, stops_at_each};
use crate::plain_trees::{Row, Target, row};
use adf_model::{DataType, Format};
use sids_readings::RuleSet;
use std::alloc::Global;

/// A base, coordinates of two zones, and the base once more through a link.
const LINKED: [Row<'static>; 11] = [
    row!(b"Root": b"Root Node of ADF File" [1, 2, 10]),
    row!(b"CGNSLibraryVersion": b"CGNSLibraryVersion_t" R4 [1] (&[0; 4]) []),
    row!(b"Base": b"CGNSBase_t" I4 [2] b"\x03\0\0\0\x03\0\0\0" [3, 8]),
    row!(b"S": b"Zone_t" I4 [3, 3] b"\x03\0\0\0\x03\0\0\0\x02\0\0\0\x02\0\0\0\x02\0\0\0\x01\0\0\0\0\0\0\0\0\0\0\0\0\0\0\0" [4, 5]),
    row!(b"ZoneType": b"ZoneType_t" C1 [10] b"Structured" []),
    row!(b"GridCoordinates" -> 6),
    row!(b"Grid": b"GridCoordinates_t" [7]),
    row!(b"CoordinateX": b"DataArray_t" R8 [3, 3, 2] (&[0; 144]) []),
    row!(b"T": b"Zone_t" I4 [3, 3] b"\x02\0\0\0\x02\0\0\0\x02\0\0\0\x01\0\0\0\x01\0\0\0\x01\0\0\0\0\0\0\0\0\0\0\0\0\0\0\0" [9]),
    row!(b"GridCoordinates" -> 6),
    row!(b"Again" -> 2),
];

const LINKED_LINES: &[u8] =
    b"/Base/T/GridCoordinates/CoordinateX K17 coordinate-size\n/Again/S/GridCoordinates N01 link-inside-link\n/Again/T/GridCoordinates N01 link-inside-link\n";

/// A root that is a link to another root, with a lost link below it.
const ROOTED: [Row<'static>; 5] = [
    row!(b"Root" -> 1),
    row!(b"Root": b"Root Node of ADF File" [2, 3]),
    row!(b"CGNSLibraryVersion": b"CGNSLibraryVersion_t" R4 [1] (&[0; 4]) []),
    row!(b"Base": b"CGNSBase_t" I4 [2] b"\x02\0\0\0\x01\0\0\0" [4]),
    row!(b"Z" -> nowhere),
];

const ROOTED_LINES: &[u8] =
    b"/CGNSLibraryVersion K02 place\n/Base K02 place\n/Base K06 base-dimensions\n/Base/Z N01 link-inside-link\n/Base/Z K01 link\n";

/// A root that is a lost link.
const LOST_ROOT: [Row<'static>; 1] = [row!(b"Root" -> nowhere)];

const LOST_ROOT_LINES: &[u8] = b"/ K01 link\n";

/// Numbers whose first byte is the highest: four vertices and two cells in one index, and a rind.
const BIG: [Row<'static>; 10] = [
    row!(b"Root": b"Root Node of ADF File" [1, 2]),
    row!(b"CGNSLibraryVersion": b"CGNSLibraryVersion_t" R4 [1] (&[0; 4]) []),
    row!(b"Base": b"CGNSBase_t" I4 [2] b"\0\0\0\x01\0\0\0\x03" [3]),
    row!(b"Z": b"Zone_t" I8 [1, 3] b"\0\0\0\0\0\0\0\x04\0\0\0\0\0\0\0\x02\0\0\0\0\0\0\0\0" [4, 7]),
    row!(b"GridCoordinates": b"GridCoordinates_t" [5, 6]),
    row!(b"Rind": b"Rind_t" I4 [2] b"\0\0\0\x01\0\0\0\x02" []),
    row!(b"CoordinateX": b"DataArray_t" R4 [7] (&[0; 28]) []),
    row!(b"Bars": b"Elements_t" I4 [2] b"\0\0\0\x03\0\0\0\0" [8, 9]),
    row!(b"ElementRange": b"IndexRange_t" I8 [2] b"\0\0\0\0\0\0\0\x01\0\0\0\0\0\0\0\x01" []),
    row!(b"ElementConnectivity": b"DataArray_t" I4 [2] b"\0\0\0\x01\0\0\x01\0" []),
];

const BIG_LINES: &[u8] = b"/Base/Z K10 cell-size\n";

/// Arrays between which nodes of another parent stand, and the same arrays in a second zone.
const BETWEEN: [Row<'static>; 13] = [
    row!(b"Root": b"Root Node of ADF File" [1, 2]),
    row!(b"CGNSLibraryVersion": b"CGNSLibraryVersion_t" R4 [1] (&[0; 4]) []),
    row!(b"Base": b"CGNSBase_t" I4 [2] b"\x01\0\0\0\x03\0\0\0" [3, 10]),
    row!(b"A": b"Zone_t" I4 [1, 3] b"\x03\0\0\0\x02\0\0\0\0\0\0\0" [4, 7]),
    row!(b"GridCoordinates": b"GridCoordinates_t" [5, 6]),
    row!(b"CoordinateX": b"DataArray_t" R8 [3] (&[0; 24]) [9]),
    row!(b"CoordinateY": b"DataArray_t" R8 [4] (&[0; 32]) [9]),
    row!(b"Flow": b"FlowSolution_t" [5, 8, 6]),
    row!(b"Mine": b"UserDefinedData_t" [5]),
    row!(b"DataClass": b"DataClass_t" C1 [11] b"Dimensional" []),
    row!(b"B": b"Zone_t" I4 [1, 3] b"\x04\0\0\0\x03\0\0\0\0\0\0\0" [4, 11]),
    row!(b"Flow": b"FlowSolution_t" [6, 12]),
    row!(b"GridLocation": b"GridLocation_t" C1 [10] b"CellCenter" []),
];

const BETWEEN_LINES: &[u8] =
    b"/Base/A/GridCoordinates/CoordinateY K17 coordinate-size\n/Base/A/Flow/CoordinateY K22 field-size\n/Base/B/GridCoordinates/CoordinateX K17 coordinate-size\n/Base/B/Flow/CoordinateY K22 field-size\n";

/// A table, how many findings there are, and the lines.
const VIEWS: [(&[Row<'static>], u64, &[u8]); 4] = [
    (&LINKED, 1, LINKED_LINES),
    (&ROOTED, 4, ROOTED_LINES),
    (&LOST_ROOT, 1, LOST_ROOT_LINES),
    (&BETWEEN, 4, BETWEEN_LINES),
];

fn prints_by_both(alloc: Global, rows: &[Row], count: u64, lines: &[u8]) -> bool {
    prints(alloc, rows, RuleSet::Check, count, lines)
        && prints(alloc, rows, RuleSet::Check4, count, lines)
}

#[test]
fn a_check_sees_nodes_through_links_and_knows_parents_again(rt: HostRuntime) {
    for (place, (rows, count, lines)) in VIEWS.iter().enumerate() {
        assert!(rt;
            prints_by_both(rt.alloc(), rows, *count, lines),
            "at {place}"
        );
    }
}

#[test]
fn numbers_are_read_in_the_byte_order_of_their_file(rt: HostRuntime) {
    assert!(rt; prints_in(rt.alloc(), &BIG, Format::Big, RuleSet::Check, 1, BIG_LINES));
}

#[test]
fn each_question_that_fails_ends_a_check_of_what_is_seen(rt: HostRuntime) {
    assert!(rt; stops_at_each(rt.alloc(), &LINKED, RuleSet::Check, LINKED_LINES, 1));
    assert!(rt; stops_at_each(rt.alloc(), &BETWEEN, RuleSet::Check, BETWEEN_LINES, 1));
}
