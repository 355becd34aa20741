//! Labels, allowed children, words and codes of elements against the lists written by hand.

use sids_tables::{
    LabelKind, allowed, is_bc_type, is_data_class, is_location, is_simulation_type, is_zone_type,
    label_kind, nodes_of,
};

// Each kind with its label, with the number of kinds that may stand under it, and with the general children that it may
// have: data classes, units, descriptors, user-defined data. The root and what is outside the profile have no label.
const KINDS: [(LabelKind, &[u8], usize, [bool; 4]); 24] = [
    (LabelKind::Root, b"", 2, [false; 4]),
    (
        LabelKind::CgnsLibraryVersion,
        b"CGNSLibraryVersion_t",
        0,
        [false; 4],
    ),
    (LabelKind::CgnsBase, b"CGNSBase_t", 7, [true; 4]),
    (LabelKind::Zone, b"Zone_t", 10, [true; 4]),
    (LabelKind::ZoneType, b"ZoneType_t", 0, [false; 4]),
    (
        LabelKind::GridCoordinates,
        b"GridCoordinates_t",
        6,
        [true; 4],
    ),
    (
        LabelKind::Elements,
        b"Elements_t",
        5,
        [false, false, true, true],
    ),
    (LabelKind::FlowSolution, b"FlowSolution_t", 9, [true; 4]),
    (LabelKind::ZoneBc, b"ZoneBC_t", 5, [true; 4]),
    (LabelKind::Bc, b"BC_t", 9, [true; 4]),
    (
        LabelKind::DataArray,
        b"DataArray_t",
        4,
        [true, true, true, false],
    ),
    (LabelKind::Family, b"Family_t", 6, [true; 4]),
    (LabelKind::FamilyName, b"FamilyName_t", 0, [false; 4]),
    (
        LabelKind::SimulationType,
        b"SimulationType_t",
        0,
        [false; 4],
    ),
    (LabelKind::DataClass, b"DataClass_t", 0, [false; 4]),
    (
        LabelKind::DimensionalUnits,
        b"DimensionalUnits_t",
        0,
        [false; 4],
    ),
    (
        LabelKind::DimensionalExponents,
        b"DimensionalExponents_t",
        0,
        [false; 4],
    ),
    (LabelKind::Descriptor, b"Descriptor_t", 0, [false; 4]),
    (
        LabelKind::UserDefinedData,
        b"UserDefinedData_t",
        9,
        [true; 4],
    ),
    (LabelKind::Rind, b"Rind_t", 0, [false; 4]),
    (LabelKind::IndexRange, b"IndexRange_t", 0, [false; 4]),
    (LabelKind::IndexArray, b"IndexArray_t", 0, [false; 4]),
    (LabelKind::GridLocation, b"GridLocation_t", 0, [false; 4]),
    (LabelKind::Other, b"", 0, [false; 4]),
];

// ---- labels

fn kind_is(label: &[u8], wanted: LabelKind) -> bool {
    label_kind(label) == wanted
}

#[test]
fn each_label_of_the_profile_has_its_kind(rt: HostRuntime) {
    for (kind, label, _, _) in &KINDS {
        if !label.is_empty() {
            assert!(rt; kind_is(label, *kind), "of {label:?}");
        }
    }
}

#[test]
fn a_label_off_the_list_is_other(rt: HostRuntime) {
    let labels: [&[u8]; 9] = [
        b"",
        b"Zone",
        b"zone_t",
        b"Zone_t ",
        b" Zone_t",
        b"Zome_t",
        b"ZoneBc_t",
        b"ZoneIterativeData_t",
        b"Root Node of ADF File",
    ];
    for label in labels {
        assert!(rt; kind_is(label, LabelKind::Other), "of {label:?}");
    }
}

// ---- children

fn may_stand(parent: LabelKind, child: LabelKind) -> bool {
    allowed(parent, child)
}

#[test]
fn some_children_stand_where_the_table_names_them(rt: HostRuntime) {
    let rows = [
        (LabelKind::Root, LabelKind::CgnsBase, true),
        (LabelKind::CgnsBase, LabelKind::Root, false),
        (LabelKind::Zone, LabelKind::ZoneBc, true),
        (LabelKind::ZoneBc, LabelKind::Zone, false),
        (LabelKind::Family, LabelKind::Family, true),
        (LabelKind::UserDefinedData, LabelKind::FlowSolution, false),
    ];
    for (parent, child, wanted) in rows {
        assert!(rt;
            may_stand(parent, child) == wanted,
            "{child:?} in {parent:?}"
        );
    }
}

fn general_children(parent: LabelKind) -> [bool; 4] {
    [
        allowed(parent, LabelKind::DataClass),
        allowed(parent, LabelKind::DimensionalUnits),
        allowed(parent, LabelKind::Descriptor),
        allowed(parent, LabelKind::UserDefinedData),
    ]
}

fn count_children(parent: LabelKind) -> usize {
    KINDS.iter().filter(|row| allowed(parent, row.0)).count()
}

#[test]
fn each_parent_has_the_children_of_its_row(rt: HostRuntime) {
    for (parent, _, count, general) in &KINDS {
        assert!(rt; count_children(*parent) == *count, "in {parent:?}");
        assert!(rt; general_children(*parent) == *general, "in {parent:?}");
        assert!(rt; !may_stand(*parent, LabelKind::Root), "in {parent:?}");
        assert!(rt; !may_stand(*parent, LabelKind::Other), "in {parent:?}");
    }
}

// ---- words

// Which lists have the text: locations, zone types, simulation types, data classes, types of boundary conditions.
fn lists_of(text: &[u8]) -> [bool; 5] {
    [
        is_location(text),
        is_zone_type(text),
        is_simulation_type(text),
        is_data_class(text),
        is_bc_type(text),
    ]
}

const ALL: [bool; 5] = [true; 5];

const NONE: [bool; 5] = [false; 5];

const LOCATIONS: [bool; 5] = [true, false, false, false, false];

const ZONE_TYPES: [bool; 5] = [false, true, false, false, false];

const SIMULATION_TYPES: [bool; 5] = [false, false, true, false, false];

const DATA_CLASSES: [bool; 5] = [false, false, false, true, false];

const BC_TYPES: [bool; 5] = [false, false, false, false, true];

const WORDS: [(&[u8], [bool; 5]); 58] = [
    (b"UserDefined", ALL),
    (b"Null", ALL),
    (b"Vertex", LOCATIONS),
    (b"CellCenter", LOCATIONS),
    (b"FaceCenter", LOCATIONS),
    (b"IFaceCenter", LOCATIONS),
    (b"JFaceCenter", LOCATIONS),
    (b"KFaceCenter", LOCATIONS),
    (b"EdgeCenter", LOCATIONS),
    (b"Structured", ZONE_TYPES),
    (b"Unstructured", ZONE_TYPES),
    (b"TimeAccurate", SIMULATION_TYPES),
    (b"NonTimeAccurate", SIMULATION_TYPES),
    (b"Dimensional", DATA_CLASSES),
    (b"NormalizedByDimensional", DATA_CLASSES),
    (b"NormalizedByUnknownDimensional", DATA_CLASSES),
    (b"NondimensionalParameter", DATA_CLASSES),
    (b"DimensionlessConstant", DATA_CLASSES),
    (b"BCAxisymmetricWedge", BC_TYPES),
    (b"BCDegenerateLine", BC_TYPES),
    (b"BCDegeneratePoint", BC_TYPES),
    (b"BCDirichlet", BC_TYPES),
    (b"BCExtrapolate", BC_TYPES),
    (b"BCFarfield", BC_TYPES),
    (b"BCGeneral", BC_TYPES),
    (b"BCInflow", BC_TYPES),
    (b"BCInflowSubsonic", BC_TYPES),
    (b"BCInflowSupersonic", BC_TYPES),
    (b"BCNeumann", BC_TYPES),
    (b"BCOutflow", BC_TYPES),
    (b"BCOutflowSubsonic", BC_TYPES),
    (b"BCOutflowSupersonic", BC_TYPES),
    (b"BCSymmetryPlane", BC_TYPES),
    (b"BCSymmetryPolar", BC_TYPES),
    (b"BCTunnelInflow", BC_TYPES),
    (b"BCTunnelOutflow", BC_TYPES),
    (b"BCWall", BC_TYPES),
    (b"BCWallInviscid", BC_TYPES),
    (b"BCWallViscous", BC_TYPES),
    (b"BCWallViscousHeatFlux", BC_TYPES),
    (b"BCWallViscousIsothermal", BC_TYPES),
    (b"FamilySpecified", BC_TYPES),
    (b"", NONE),
    (b"vertex", NONE),
    (b"Vertex ", NONE),
    (b"Vertez", NONE),
    (b"structured", NONE),
    (b"Structured ", NONE),
    (b"Strictured", NONE),
    (b"timeaccurate", NONE),
    (b" TimeAccurate", NONE),
    (b"TimeAccurrate", NONE),
    (b"DIMENSIONAL", NONE),
    (b"Dimensional ", NONE),
    (b"Dimensionul", NONE),
    (b"BCWal", NONE),
    (b"BCwall", NONE),
    (b"BCWall ", NONE),
];

#[test]
fn each_word_is_in_its_lists(rt: HostRuntime) {
    for (word, lists) in &WORDS {
        assert!(rt; lists_of(word) == *lists, "of {word:?}");
    }
}

// ---- elements

fn nodes_are(code: u32, wanted: Option<u32>) -> bool {
    nodes_of(code) == wanted
}

#[test]
fn fixed_element_types_have_their_node_counts(rt: HostRuntime) {
    let rows: [(u32, Option<u32>); 27] = [
        (0, None),
        (1, None),
        (2, Some(1)),
        (3, Some(2)),
        (4, Some(3)),
        (5, Some(3)),
        (6, Some(6)),
        (7, Some(4)),
        (8, Some(8)),
        (9, Some(9)),
        (10, Some(4)),
        (11, Some(10)),
        (12, Some(5)),
        (13, Some(14)),
        (14, Some(6)),
        (15, Some(15)),
        (16, Some(18)),
        (17, Some(8)),
        (18, Some(20)),
        (19, Some(27)),
        (20, None),
        (21, Some(13)),
        (22, None),
        (23, None),
        (24, None),
        (255, None),
        (u32::MAX, None),
    ];
    for (code, wanted) in rows {
        assert!(rt; nodes_are(code, wanted), "of {code}");
    }
}
