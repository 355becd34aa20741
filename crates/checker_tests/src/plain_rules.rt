//! The rules over plain values, against rows written by hand.

use adf_format::DataType;
use sids_rules::{
    RuleKind, breaks_k06, breaks_k08, breaks_k09, breaks_k10, breaks_k11, breaks_k15, breaks_k16,
    breaks_k20, breaks_k21, breaks_k26, breaks_k28, breaks_k29, breaks_k30, breaks_k31, breaks_k33,
    without_padding,
};

// ---- bases and zones

fn base_breaks(cell: i64, phys: i64) -> bool {
    breaks_k06(cell, phys)
}

#[test]
fn base_dimensions_are_1_to_3_and_cells_fit_in_space(rt: HostRuntime) {
    for (cell, phys, broken) in [
        (1, 1, false),
        (1, 3, false),
        (2, 3, false),
        (3, 3, false),
        (3, 2, true),
        (0, 3, true),
        (1, 0, true),
        (3, 4, true),
        (4, 4, true),
        (-1, 1, true),
        (i64::MIN, i64::MAX, true),
    ] {
        assert!(rt; base_breaks(cell, phys) == broken, "at {cell} {phys}");
    }
}

// What a rule answers of a structured zone, of an unstructured one, and of another.
fn index_breaks(index: u64, cell: i64) -> [bool; 3] {
    [
        breaks_k08(RuleKind::Structured, index, cell),
        breaks_k08(RuleKind::Unstructured, index, cell),
        breaks_k08(RuleKind::Other, index, cell),
    ]
}

#[test]
fn the_number_of_indices_goes_by_the_kind_of_zone(rt: HostRuntime) {
    for (index, cell, broken) in [
        (3, 3, [false, true, false]),
        (3, 2, [true, true, false]),
        (2, 3, [true, true, false]),
        (u64::MAX, -1, [true, true, false]),
        (1, 3, [true, false, false]),
        (1, -1, [true, false, false]),
        (1, 1, [false, false, false]),
        (0, 0, [false, true, false]),
        (2, 2, [false, true, false]),
    ] {
        assert!(rt; index_breaks(index, cell) == broken, "at {index} {cell}");
    }
}

fn vertices_break(vertex: &[i64], cell: &[i64]) -> bool {
    breaks_k09(vertex, cell)
}

#[test]
fn a_zone_has_vertices_and_no_negative_number_of_cells(rt: HostRuntime) {
    let rows: [(&[i64], &[i64], bool); 6] = [
        (&[2, 2, 2], &[1, 1, 1], false),
        (&[1], &[0], false),
        (&[0], &[0], true),
        (&[2, 2, 0], &[1, 1, 1], true),
        (&[2, 2], &[1, -1], true),
        (&[i64::MIN], &[i64::MAX], true),
    ];
    for (vertex, cell, broken) in rows {
        assert!(rt;
            vertices_break(vertex, cell) == broken,
            "at {vertex:?} {cell:?}"
        );
    }
}

fn cells_break(vertex: [i64; 3], cell: [i64; 3]) -> [bool; 3] {
    [
        breaks_k10(RuleKind::Structured, &vertex, &cell),
        breaks_k10(RuleKind::Unstructured, &vertex, &cell),
        breaks_k10(RuleKind::Other, &vertex, &cell),
    ]
}

#[test]
fn structured_cells_are_one_fewer_than_vertices(rt: HostRuntime) {
    for (vertex, cell, broken) in [
        ([2, 2, 2], [1, 1, 1], false),
        ([4, 3, 1], [3, 2, 0], false),
        ([2, 2, 2], [2, 2, 2], true),
        ([3, 3, 3], [2, 2, 1], true),
        ([i64::MIN, 1, 1], [i64::MAX, 0, 0], true),
    ] {
        assert!(rt;
            cells_break(vertex, cell) == [broken, false, false],
            "at {vertex:?} {cell:?}"
        );
    }
}

fn boundary_breaks(vertex: [i64; 2], boundary: [i64; 2]) -> [bool; 3] {
    [
        breaks_k11(RuleKind::Structured, &vertex, &boundary),
        breaks_k11(RuleKind::Unstructured, &vertex, &boundary),
        breaks_k11(RuleKind::Other, &vertex, &boundary),
    ]
}

#[test]
fn boundary_vertices_are_0_or_as_many_as_vertices(rt: HostRuntime) {
    for (boundary, broken) in [
        ([0, 0], [false, false, false]),
        ([0, 4], [true, false, false]),
        ([5, 0], [true, true, false]),
        ([0, -1], [true, true, false]),
    ] {
        assert!(rt;
            boundary_breaks([4, 4], boundary) == broken,
            "at {boundary:?}"
        );
    }
}

// ---- arrays

// Whether a type breaks the rules on arrays with data and without, on coordinates and on fields.
fn type_breaks(kind: DataType) -> [bool; 4] {
    [
        breaks_k15(kind, true),
        breaks_k15(kind, false),
        breaks_k16(kind),
        breaks_k21(kind),
    ]
}

#[test]
fn arrays_are_judged_by_type(rt: HostRuntime) {
    for (kind, broken) in [
        (DataType::Mt, [true, true, true, false]),
        (DataType::I4, [false, true, true, false]),
        (DataType::I8, [false, true, true, false]),
        (DataType::U4, [false, true, true, false]),
        (DataType::U8, [false, true, true, false]),
        (DataType::R4, [false, true, false, false]),
        (DataType::R8, [false, true, false, false]),
        (DataType::X4, [false, true, true, false]),
        (DataType::X8, [false, true, true, false]),
        (DataType::B1, [false, true, true, true]),
        (DataType::C1, [false, true, true, true]),
        (DataType::Lk, [false, true, true, false]),
    ] {
        assert!(rt; type_breaks(kind) == broken, "at {kind:?}");
    }
}

// ---- words

fn text_is(bytes: &[u8], wanted: &[u8]) -> bool {
    without_padding(bytes) == wanted
}

#[test]
fn padding_at_the_end_of_a_text_does_not_count(rt: HostRuntime) {
    let rows: [(&[u8], &[u8]); 6] = [
        (b"", b""),
        (b" \0 ", b""),
        (b"Vertex", b"Vertex"),
        (b"Vertex \0 \0\0", b"Vertex"),
        (b" Vertex", b" Vertex"),
        (b"Ver\0 tex ", b"Ver\0 tex"),
    ];
    for (bytes, text) in rows {
        assert!(rt; text_is(bytes, text), "of {bytes:?}");
    }
}

fn location_breaks(text: &[u8]) -> bool {
    breaks_k20(text)
}

#[test]
fn a_location_is_a_word_of_the_list(rt: HostRuntime) {
    let rows: [(&[u8], bool); 10] = [
        (b"Vertex", false),
        (b"Vertex  ", false),
        (b"CellCenter\0", false),
        (b"Null \0", false),
        (b"", true),
        (b"  ", true),
        (b"vertex", true),
        (b" Vertex", true),
        (b"Vertex\0x", true),
        (b"BCWall", true),
    ];
    for (text, broken) in rows {
        assert!(rt; location_breaks(text) == broken, "of {text:?}");
    }
}

// Whether the text breaks the rule on types, and the one on families with a family and without.
fn condition_breaks(text: &[u8]) -> [bool; 3] {
    [
        breaks_k31(text),
        breaks_k33(text, true),
        breaks_k33(text, false),
    ]
}

#[test]
fn a_boundary_condition_has_a_type_and_its_family(rt: HostRuntime) {
    let rows: [(&[u8], [bool; 3]); 9] = [
        (b"BCWall", [false, false, false]),
        (b"BCWall \0", [false, false, false]),
        (b"FamilySpecified", [false, false, true]),
        (b"FamilySpecified \0", [false, false, true]),
        (b"Familyspecified", [true, false, false]),
        (b"", [true, false, false]),
        (b"BCWal", [true, false, false]),
        (b"bcwall", [true, false, false]),
        (b"Vertex", [true, false, false]),
    ];
    for (text, broken) in rows {
        assert!(rt; condition_breaks(text) == broken, "of {text:?}");
    }
}

// ---- sections

fn range_breaks(start: i64, end: i64) -> bool {
    breaks_k26(start, end)
}

#[test]
fn a_range_begins_at_1_and_ends_no_earlier(rt: HostRuntime) {
    for (start, end, broken) in [
        (1, 1, false),
        (1, 8, false),
        (i64::MAX, i64::MAX, false),
        (0, 1, true),
        (2, 1, true),
        (i64::MIN, i64::MAX, true),
    ] {
        assert!(rt; range_breaks(start, end) == broken, "at {start} {end}");
    }
}

fn size_breaks(code: i64, elements: u64, length: u64) -> bool {
    breaks_k28(code, elements, length)
}

#[test]
fn a_connectivity_is_nodes_times_elements_long(rt: HostRuntime) {
    for (code, elements, length, broken) in [
        (17, 2, 16, false),
        (17, 2, 15, true),
        (17, 2, 17, true),
        (17, 0, 0, false),
        (2, u64::MAX, u64::MAX, false),
        (3, u64::MAX, u64::MAX - 1, true),
        (3, 1 << 63, 0, true),
        (20, 2, 5, false),
        (24, 2, 5, false),
        (-17, 2, 15, false),
        ((1 << 32) + 17, 2, 15, false),
    ] {
        assert!(rt;
            size_breaks(code, elements, length) == broken,
            "at {code}, {length}"
        );
    }
}

fn nodes_break(code: i64, entries: &[i64], limit: Option<i64>) -> bool {
    breaks_k29(code, entries, limit)
}

#[test]
fn entries_of_a_connectivity_are_nodes(rt: HostRuntime) {
    let rows: [(i64, &[i64], Option<i64>, bool); 12] = [
        (5, &[1, 2, 3], None, false),
        (5, &[1, 2, i64::MAX], None, false),
        (5, &[1, 2, 4], Some(4), false),
        (5, &[1, 2, 5], Some(4), true),
        (5, &[5, 1, 2], Some(4), true),
        (5, &[1, 2, 0], None, true),
        (5, &[0, 1, 2], Some(4), true),
        (5, &[1, -2, 3], None, true),
        (5, &[], Some(0), false),
        (22, &[0], Some(4), false),
        (1, &[-1], None, false),
        (-5, &[0], None, false),
    ];
    for (code, entries, limit, broken) in rows {
        assert!(rt;
            nodes_break(code, entries, limit) == broken,
            "at {code} {entries:?}"
        );
    }
}

fn ranges_meet(start: i64, end: i64, earlier: &[[i64; 2]]) -> bool {
    breaks_k30(start, end, earlier)
}

#[test]
fn a_section_overlaps_earlier_ones(rt: HostRuntime) {
    let rows: [(i64, i64, &[[i64; 2]], bool); 10] = [
        (1, 4, &[], false),
        (1, 4, &[[5, 8]], false),
        (5, 8, &[[1, 4]], false),
        (4, 6, &[[1, 4]], true),
        (1, 5, &[[5, 8]], true),
        (1, 10, &[[4, 5]], true),
        (4, 5, &[[1, 10]], true),
        (9, 12, &[[1, 4], [5, 9]], true),
        (9, 12, &[[5, 9], [1, 4]], true),
        (9, 12, &[[1, 4], [5, 8], [13, 13]], false),
    ];
    for (start, end, earlier, broken) in rows {
        assert!(rt;
            ranges_meet(start, end, earlier) == broken,
            "at {start} {end} {earlier:?}"
        );
    }
}
