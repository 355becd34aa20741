//! What the rules read of nodes, and which they break, over a table of nodes.

use crate::plain_trees::{PlainTrees, Row, Target};
use adf_model::{AdfError, DataType, Format, NodeId};
use sids_node_rules::{
    breaks_array_data, breaks_bc_family, breaks_bc_points, breaks_coordinate_type, breaks_dims,
    breaks_field_type, breaks_not_empty, breaks_place, breaks_rind_data, breaks_rind_name,
    breaks_small_node, breaks_version, breaks_version_data, breaks_zone_types, dims_under,
};
use sids_offset_rules::{breaks_offset_size, breaks_start_offset, offsets_of, wants_offsets};
use sids_readings::{
    WordList, base_dimensions, connectivity_of, is_no_word, rind_there, section_head,
    section_range, vertex_limit, zone_kind, zone_sizes,
};
use sids_rules::RuleKind;
use sids_section_rules::{breaks_connectivity_size, breaks_sections_overlap};
use sids_tables::LabelKind;
use std::alloc::Global;

macro_rules! node {
    ($name:expr, $label:expr, $kind:ident $dims:expr, $bytes:expr, $children:expr) => {
        Row {
            name: $name,
            label: $label,
            kind: DataType::$kind,
            dims: &$dims,
            bytes: $bytes,
            children: &$children,
            target: Target::Itself,
        }
    };
}

const ROWS: [Row<'static>; 25] = [
    node!(b"Root", b"Root Node of ADF File", Mt [], None, [1, 2, 15]),
    node!(
        b"CGNSLibraryVersion",
        b"CGNSLibraryVersion_t",
        R4[1],
        Some(&[0; 4]),
        []
    ),
    node!(
        b"Base",
        b"CGNSBase_t",
        I4[2],
        Some(&[3, 0, 0, 0, 255, 255, 255, 255]),
        [3]
    ),
    node!(b"Zone", b"Zone_t", I8 [1, 3], Some(&[8, 0, 0, 0, 0, 0, 0, 0, 1, 0, 0, 0, 0, 0, 0, 0, 0, 0, 0, 0, 0, 0, 0, 0]), [4, 5, 8, 10, 20]),
    node!(
        b"ZoneType",
        b"ZoneType_t",
        C1[14],
        Some(b"Unstructured \0"),
        []
    ),
    node!(
        b"Hex",
        b"Elements_t",
        I4[2],
        Some(&[17, 0, 0, 0, 0, 0, 0, 0]),
        [6, 7]
    ),
    node!(
        b"ElementRange",
        b"IndexRange_t",
        I4[2],
        Some(&[1, 0, 0, 0, 2, 0, 0, 0]),
        []
    ),
    node!(
        b"ElementConnectivity",
        b"DataArray_t",
        I4[1],
        Some(&[1, 0, 0, 0]),
        []
    ),
    node!(b"Grid", b"GridCoordinates_t", Mt [], None, [9]),
    node!(
        b"Rind",
        b"Rind_t",
        I4[2],
        Some(&[1, 0, 0, 0, 2, 0, 0, 0]),
        []
    ),
    node!(b"Wall", b"BC_t", C1[15], Some(b"FamilySpecified"), [11]),
    node!(b"PointRange", b"IndexRange_t", I4 [1, 2], Some(&[1, 0, 0, 0, 2, 0, 0, 0]), []),
    node!(b"Note", b"Descriptor_t", C1[2], Some(b"hi"), []),
    node!(b"Rinds", b"Rind_t", I4[4], Some(&[0; 16]), []),
    node!(b"Field", b"DataArray_t", C1[1], Some(b"x"), []),
    Row {
        name: b"Lost",
        label: b"",
        kind: DataType::Lk,
        dims: &[1],
        bytes: Some(b"x"),
        children: &[],
        target: Target::Nowhere,
    },
    node!(b"CoordinateX", b"DataArray_t", R8[11], Some(&[0; 88]), []),
    node!(b"Solution", b"FlowSolution_t", Mt [], None, [18, 9]),
    node!(
        b"GridLocation",
        b"GridLocation_t",
        C1[10],
        Some(b"CellCenter"),
        []
    ),
    node!(
        b"ElementConnectivity",
        b"DataArray_t",
        I4[16],
        Some(&[1; 64]),
        []
    ),
    node!(
        b"Polygons",
        b"Elements_t",
        I4[2],
        Some(&[22, 0, 0, 0, 0, 0, 0, 0]),
        [6, 21]
    ),
    node!(
        b"ElementStartOffset",
        b"DataArray_t",
        I4[3],
        Some(&[0; 12]),
        []
    ),
    node!(b"Other", b"Zone_t", Mt [], None, [4]),
    node!(b"Vertices", b"FlowSolution_t", Mt [], None, [9]),
    node!(b"Part", b"FlowSolution_t", Mt [], None, [11, 9]),
];

fn at(serial: u64) -> NodeId {
    NodeId { file: 0, serial }
}

fn has_dimensions(alloc: Global, rows: &[Row], serial: u64) -> Result<bool, AdfError> {
    let mut trees = PlainTrees::new(alloc, rows, Format::Little);
    match base_dimensions(alloc, &mut trees, at(serial))? {
        Some(base) => Ok(base.cell() == 3 && base.phys() == -1),
        None => Ok(false),
    }
}

fn has_sizes(alloc: Global, rows: &[Row], serial: u64) -> Result<bool, AdfError> {
    let mut trees = PlainTrees::new(alloc, rows, Format::Little);
    match zone_sizes(alloc, &mut trees, at(serial))? {
        Some(zone) => Ok(
            zone.index() == 1
                && zone.vertex() == [8].as_slice()
                && zone.cell() == [1].as_slice()
                && zone.boundary() == [0].as_slice(),
        ),
        None => Ok(false),
    }
}

fn is_unstructured(alloc: Global, rows: &[Row], serial: u64) -> Result<bool, AdfError> {
    let mut trees = PlainTrees::new(alloc, rows, Format::Little);
    Ok(zone_kind(alloc, &mut trees, at(serial))? == RuleKind::Unstructured)
}

fn has_head(alloc: Global, rows: &[Row], serial: u64) -> Result<bool, AdfError> {
    let mut trees = PlainTrees::new(alloc, rows, Format::Little);
    match section_head(alloc, &mut trees, at(serial))? {
        Some(head) => Ok(head.is_good() && head.code() == 17 && head.boundary() == 0),
        None => Ok(false),
    }
}

fn has_range(alloc: Global, rows: &[Row], serial: u64) -> Result<bool, AdfError> {
    let mut trees = PlainTrees::new(alloc, rows, Format::Little);
    match section_range(alloc, &mut trees, at(serial))? {
        Some(range) => Ok(range.is_good() && range.start() == 1 && range.end() == 2),
        None => Ok(false),
    }
}

fn is_connected(alloc: Global, rows: &[Row], serial: u64) -> Result<bool, AdfError> {
    let mut trees = PlainTrees::new(alloc, rows, Format::Little);
    Ok(connectivity_of(alloc, &mut trees, at(serial))? == Some(at(7)))
}

fn has_rind(alloc: Global, rows: &[Row], serial: u64) -> Result<bool, AdfError> {
    let mut trees = PlainTrees::new(alloc, rows, Format::Little);
    Ok(rind_there(alloc, &mut trees, 1, at(serial))?.items() == [1, 2].as_slice())
}

fn has_limit(alloc: Global, rows: &[Row], serial: u64) -> Result<bool, AdfError> {
    let mut trees = PlainTrees::new(alloc, rows, Format::Little);
    match zone_sizes(alloc, &mut trees, at(3))? {
        Some(sizes) => Ok(vertex_limit(alloc, &mut trees, at(serial), &sizes)? == Some(8)),
        None => Ok(false),
    }
}

fn has_offsets(alloc: Global, rows: &[Row], serial: u64) -> Result<bool, AdfError> {
    let mut trees = PlainTrees::new(alloc, rows, Format::Little);
    Ok(offsets_of(alloc, &mut trees, at(serial))? == Some(at(21)))
}

fn is_with_offsets(alloc: Global, rows: &[Row], serial: u64) -> Result<bool, AdfError> {
    let mut trees = PlainTrees::new(alloc, rows, Format::Little);
    match section_head(alloc, &mut trees, at(serial))? {
        Some(head) => Ok(wants_offsets(&head)),
        None => Ok(false),
    }
}

fn reads(alloc: Global, rows: &[Row], what: u8, serial: u64) -> Result<bool, AdfError> {
    match what {
        0 => has_dimensions(alloc, rows, serial),
        1 => has_sizes(alloc, rows, serial),
        2 => is_unstructured(alloc, rows, serial),
        3 => has_head(alloc, rows, serial),
        4 => has_range(alloc, rows, serial),
        5 => is_connected(alloc, rows, serial),
        6 => has_rind(alloc, rows, serial),
        7 => has_limit(alloc, rows, serial),
        8 => has_offsets(alloc, rows, serial),
        _ => is_with_offsets(alloc, rows, serial),
    }
}

#[test]
fn numbers_and_words_of_nodes_are_read_through_their_children(rt: HostRuntime) {
    let cases: [(u8, u64, bool); 20] = [
        (0, 2, true),
        (0, 3, false),
        (1, 3, true),
        (1, 2, false),
        (2, 3, true),
        (2, 2, false),
        (3, 5, true),
        (3, 6, false),
        (4, 5, true),
        (4, 8, false),
        (5, 5, true),
        (5, 8, false),
        (6, 8, true),
        (6, 3, false),
        (7, 22, true),
        (7, 3, false),
        (8, 20, true),
        (8, 5, false),
        (9, 20, true),
        (9, 5, false),
    ];
    for (what, serial, wanted) in cases {
        let found = reads(rt.alloc(), &ROWS, what, serial);
        assert!(rt;
            matches!(found, Ok(is) if is == wanted),
            "at {what} {serial}"
        );
    }
}

fn breaks(alloc: Global, rows: &[Row], rule: u8, serial: u64) -> Result<bool, AdfError> {
    let mut trees = PlainTrees::new(alloc, rows, Format::Little);
    let calls = &mut trees;
    match rule {
        2 => breaks_place(calls, LabelKind::Zone, at(serial)),
        3 => breaks_version(alloc, calls, at(serial)),
        4 => breaks_version_data(calls, at(serial)),
        12 => is_no_word(alloc, calls, at(serial), WordList::ZoneTypes),
        13 => breaks_zone_types(alloc, calls, at(serial)),
        14 => breaks_not_empty(calls, at(serial)),
        15 => breaks_array_data(calls, at(serial)),
        16 => breaks_coordinate_type(calls, at(serial)),
        18 => breaks_rind_name(calls, at(serial)),
        19 => breaks_rind_data(calls, at(serial), 1),
        21 => breaks_field_type(calls, at(serial)),
        32 => breaks_bc_points(alloc, calls, at(serial), 1),
        33 => breaks_bc_family(alloc, calls, at(serial)),
        _ => breaks_small_node(alloc, calls, at(serial), LabelKind::Descriptor),
    }
}

#[test]
fn each_rule_is_broken_by_one_node_and_not_by_another(rt: HostRuntime) {
    let cases: [(u8, u64, bool); 27] = [
        (2, 0, true),
        (2, 2, false),
        (3, 0, false),
        (3, 2, true),
        (4, 1, false),
        (4, 2, true),
        (12, 4, false),
        (12, 10, true),
        (13, 3, false),
        (14, 8, false),
        (14, 2, true),
        (15, 7, false),
        (15, 8, true),
        (16, 1, false),
        (16, 7, true),
        (16, 8, false),
        (18, 9, false),
        (18, 13, true),
        (19, 9, false),
        (19, 13, true),
        (21, 7, false),
        (21, 14, true),
        (32, 10, false),
        (32, 3, true),
        (33, 10, true),
        (33, 4, false),
        (34, 12, false),
    ];
    for (rule, serial, wanted) in cases {
        let found = breaks(rt.alloc(), &ROWS, rule, serial);
        assert!(rt;
            matches!(found, Ok(is) if is == wanted),
            "at {rule} {serial}"
        );
    }
}

fn breaks_in_section(
    alloc: Global,
    calls: &mut PlainTrees,
    rule: u8,
    node: NodeId,
    section: NodeId,
) -> Result<bool, AdfError> {
    let head = section_head(alloc, calls, section)?;
    match (head, section_range(alloc, calls, section)?) {
        (Some(head), Some(range)) => {
            if !range.is_good() {
                Ok(false)
            } else if rule == 28 {
                breaks_connectivity_size(calls, node, &head, &range)
            } else if rule == 30 {
                breaks_sections_overlap(alloc, calls, section, node, &range)
            } else if rule == 35 {
                breaks_start_offset(alloc, calls, section)
            } else {
                breaks_offset_size(calls, node, &range)
            }
        }
        _ => Ok(false),
    }
}

fn breaks_in(
    alloc: Global,
    rows: &[Row],
    rule: u8,
    serial: u64,
    parent: u64,
) -> Result<bool, AdfError> {
    let mut trees = PlainTrees::new(alloc, rows, Format::Little);
    let calls = &mut trees;
    if rule > 22 {
        return breaks_in_section(alloc, calls, rule, at(serial), at(parent));
    }
    let sizes = zone_sizes(alloc, calls, at(3))?;
    match dims_under(alloc, calls, Some(at(parent)), &sizes)? {
        Some(dims) => breaks_dims(calls, at(serial), &dims),
        None => Ok(false),
    }
}

#[test]
fn rules_that_look_at_two_nodes_are_broken_by_some_and_not_by_others(rt: HostRuntime) {
    let cases: [(u8, u64, u64, bool); 16] = [
        (17, 16, 8, false),
        (17, 13, 8, true),
        (22, 13, 17, false),
        (22, 16, 17, true),
        (22, 16, 23, false),
        (22, 13, 23, true),
        (22, 13, 24, false),
        (22, 13, 5, false),
        (28, 19, 5, false),
        (28, 7, 5, true),
        (30, 3, 5, false),
        (30, 3, 20, true),
        (35, 3, 5, true),
        (35, 3, 20, false),
        (36, 21, 20, false),
        (36, 19, 20, true),
    ];
    for (rule, serial, parent, wanted) in cases {
        let found = breaks_in(rt.alloc(), &ROWS, rule, serial, parent);
        assert!(rt;
            matches!(found, Ok(is) if is == wanted),
            "at {rule} {serial} in {parent}"
        );
    }
}
