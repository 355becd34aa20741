//! Each rule broken alone, and neighbours that break none: what is found where some nodes of a good file are others.

use crate::checks::{prints, stops_at_each};
use crate::plain_trees::{Row, Target, row};
use adf_model::DataType;
use sids_readings::RuleSet;
use std::alloc::Global;

macro_rules! case {
    ($lines:literal $(, $place:literal => $row:expr)*) => {
        Case {
            changes: &[$(($place, $row)),*],
            lines: $lines,
        }
    };
}

/// A structured zone with coordinates in a rind, a solution at cells and a wall, and an unstructured one with a
/// hexahedron and two bars. Nothing is found in it.
const GOOD: [Row<'static>; 33] = [
    row!(b"Root": b"Root Node of ADF File" [1, 2]),
    row!(b"CGNSLibraryVersion": b"CGNSLibraryVersion_t" R4 [1] (&[0; 4]) []),
    row!(b"Base": b"CGNSBase_t" I4 [2] b"\x03\0\0\0\x03\0\0\0" [3, 17, 25, 26, 27, 28, 29, 31]),
    row!(b"S": b"Zone_t" I4 [3, 3] b"\x03\0\0\0\x03\0\0\0\x02\0\0\0\x02\0\0\0\x02\0\0\0\x01\0\0\0\0\0\0\0\0\0\0\0\0\0\0\0" [4, 5, 8, 12, 16]),
    row!(b"ZoneType": b"ZoneType_t" C1 [12] b"Structured  " []),
    row!(b"GridCoordinates": b"GridCoordinates_t" [6, 7]),
    row!(b"Rind": b"Rind_t" I4 [6] b"\x01\0\0\0\x01\0\0\0\0\0\0\0\0\0\0\0\0\0\0\0\0\0\0\0" []),
    row!(b"CoordinateX": b"DataArray_t" R4 [5, 3, 2] (&[0; 120]) []),
    row!(b"Flow": b"FlowSolution_t" [9, 10, 11]),
    row!(b"GridLocation": b"GridLocation_t" C1 [10] b"CellCenter" []),
    row!(b"About": b"Descriptor_t" C1 [7] b"at rest" []),
    row!(b"Density": b"DataArray_t" R8 [2, 2, 1] (&[0; 32]) [30]),
    row!(b"ZoneBC": b"ZoneBC_t" [13]),
    row!(b"Wall": b"BC_t" C1 [6] b"BCWall" [14, 15]),
    row!(b"PointRange": b"IndexRange_t" I4 [3, 2] (&[0; 24]) []),
    row!(b"FamilyName": b"FamilyName_t" C1 [4] b"Wing" []),
    row!(b"FamilyName": b"FamilyName_t" C1 [4] b"Wing" []),
    row!(b"U": b"Zone_t" I4 [1, 3] b"\x08\0\0\0\x01\0\0\0\0\0\0\0" [18, 19, 22]),
    row!(b"ZoneType": b"ZoneType_t" C1 [14] b"Unstructured \0" []),
    row!(b"Hexa": b"Elements_t" I4 [2] b"\x11\0\0\0\0\0\0\0" [20, 21]),
    row!(b"ElementRange": b"IndexRange_t" I4 [2] b"\x01\0\0\0\x01\0\0\0" []),
    row!(b"ElementConnectivity": b"DataArray_t" I4 [8] b"\x01\0\0\0\x02\0\0\0\x03\0\0\0\x04\0\0\0\x05\0\0\0\x06\0\0\0\x07\0\0\0\x08\0\0\0" []),
    row!(b"Bars": b"Elements_t" I4 [2] b"\x03\0\0\0\0\0\0\0" [23, 24]),
    row!(b"ElementRange": b"IndexRange_t" I4 [2] b"\x02\0\0\0\x03\0\0\0" []),
    row!(b"ElementConnectivity": b"DataArray_t" I4 [4] b"\x01\0\0\0\x02\0\0\0\x02\0\0\0\x03\0\0\0" []),
    row!(b"SimulationType": b"SimulationType_t" C1 [12] b"TimeAccurate" []),
    row!(b"DataClass": b"DataClass_t" C1 [11] b"Dimensional" []),
    row!(b"DimensionalUnits": b"DimensionalUnits_t" C1 [32, 5] (&[0; 160]) []),
    row!(b"Wing": b"Family_t" []),
    row!(b"Mine": b"UserDefinedData_t" []),
    row!(b"DimensionalExponents": b"DimensionalExponents_t" R8 [5] (&[0; 40]) []),
    row!(b"Yours": b"Unknown_t" [32]),
    row!(b"Deep": b"Zone_t" R4 [1] (&[0; 4]) []),
];

/// What is found where some of these nodes are others: K01 to K06.
const BASES: [Case; 12] = [
    // nothing is changed
    case!(b""),
    // a link that leads nowhere
    case!(b"/Base/S/FamilyName K01 link\n", 16 => row!(b"FamilyName" -> nowhere)),
    // a link that leads to another name
    case!(b"", 16 => row!(b"FamilyName" -> 15)),
    // a base under a zone
    case!(b"/Base/S/Base2 K02 place\n", 16 => row!(b"Base2": b"CGNSBase_t" I4 [2] b"\x03\0\0\0\x03\0\0\0" [])),
    // data of the user under a zone
    case!(b"", 16 => row!(b"Mine2": b"UserDefinedData_t" [])),
    // a label outside the profile under a zone, with a zone below it
    case!(b"", 16 => row!(b"Other": b"Unknown_t" [32])),
    // no version
    case!(b"/ K03 version\n", 0 => row!(b"Root": b"Root Node of ADF File" [2])),
    // two versions
    case!(b"/ K03 version\n", 0 => row!(b"Root": b"Root Node of ADF File" [1, 1, 2])),
    // a version of another type
    case!(b"/CGNSLibraryVersion K04 version-data\n", 1 => row!(b"CGNSLibraryVersion": b"CGNSLibraryVersion_t" R8 [1] (&[0; 8]) [])),
    // a base of three numbers, so that the indices of its zones are not tested
    case!(b"/Base K05 base-data\n", 2 => row!(b"Base": b"CGNSBase_t" I4 [3] b"\x01\0\0\0\x03\0\0\0\x03\0\0\0" [3])),
    // a cell dimension of 4, so that those are not tested
    case!(b"/Base K06 base-dimensions\n", 2 => row!(b"Base": b"CGNSBase_t" I4 [2] b"\x04\0\0\0\x03\0\0\0" [3])),
    // more physical dimensions than cell dimensions
    case!(b"", 2 => row!(b"Base": b"CGNSBase_t" I4 [2] b"\x01\0\0\0\x02\0\0\0" [17])),
];

/// What is found where some of these nodes are others: K07 to K13.
const ZONES: [Case; 14] = [
    // a zone of real numbers, so that nothing is tested that needs its numbers
    case!(
        b"/Base/S K07 zone-data\n",
        3 => row!(b"S": b"Zone_t" R4 [3, 3] (&[0; 36]) [4, 5, 8, 12, 16]),
        7 => row!(b"CoordinateX": b"DataArray_t" R4 [7] (&[0; 28]) []),
        11 => row!(b"Density": b"DataArray_t" R8 [7] (&[0; 56]) []),
        6 => row!(b"Rind": b"Rind_t" I4 [1] b"\0\0\0\0" []),
        14 => row!(b"PointRange": b"IndexRange_t" I4 [7] (&[0; 28]) [])
    ),
    // a base of two cell dimensions
    case!(b"/Base/S K08 index-dimension\n", 2 => row!(b"Base": b"CGNSBase_t" I4 [2] b"\x02\0\0\0\x03\0\0\0" [3, 17])),
    // an unstructured zone of three indices
    case!(b"/Base/S K08 index-dimension\n", 4 => row!(b"ZoneType": b"ZoneType_t" C1 [12] b"Unstructured" [])),
    // a negative number of cells in an unstructured zone
    case!(b"/Base/U K09 vertex-size\n", 17 => row!(b"U": b"Zone_t" I4 [1, 3] b"\x08\0\0\0\xFF\xFF\xFF\xFF\0\0\0\0" [18])),
    // no cells in an unstructured zone
    case!(b"", 17 => row!(b"U": b"Zone_t" I4 [1, 3] b"\x08\0\0\0\0\0\0\0\0\0\0\0" [18])),
    // as many cells as vertices
    case!(b"/Base/S K10 cell-size\n", 3 => row!(b"S": b"Zone_t" I4 [3, 3] b"\x03\0\0\0\x03\0\0\0\x02\0\0\0\x02\0\0\0\x02\0\0\0\x02\0\0\0\0\0\0\0\0\0\0\0\0\0\0\0" [4])),
    // as many cells as vertices, and no kind
    case!(b"/Base/S K10 cell-size\n", 3 => row!(b"S": b"Zone_t" I4 [3, 3] b"\x03\0\0\0\x03\0\0\0\x02\0\0\0\x02\0\0\0\x02\0\0\0\x02\0\0\0\0\0\0\0\0\0\0\0\0\0\0\0" [])),
    // as many cells as vertices in an unstructured zone
    case!(b"", 17 => row!(b"U": b"Zone_t" I4 [1, 3] b"\x08\0\0\0\x08\0\0\0\0\0\0\0" [18])),
    // boundary vertices in a structured zone
    case!(b"/Base/S K11 boundary-size\n", 3 => row!(b"S": b"Zone_t" I4 [3, 3] b"\x03\0\0\0\x03\0\0\0\x02\0\0\0\x02\0\0\0\x02\0\0\0\x01\0\0\0\0\0\0\0\0\0\0\0\x01\0\0\0" [4])),
    // more boundary vertices than vertices
    case!(b"/Base/U K11 boundary-size\n", 17 => row!(b"U": b"Zone_t" I4 [1, 3] b"\x08\0\0\0\x01\0\0\0\x09\0\0\0" [18])),
    // as many boundary vertices as vertices
    case!(b"", 17 => row!(b"U": b"Zone_t" I4 [1, 3] b"\x08\0\0\0\x01\0\0\0\x08\0\0\0" [18])),
    // a kind in small letters: the zone is of neither, so that its cells and boundary are not tested
    case!(
        b"/Base/S/ZoneType K12 zone-type\n",
        4 => row!(b"ZoneType": b"ZoneType_t" C1 [10] b"structured" []),
        3 => row!(b"S": b"Zone_t" I4 [3, 3] b"\x03\0\0\0\x03\0\0\0\x02\0\0\0\x03\0\0\0\x03\0\0\0\x03\0\0\0\x01\0\0\0\x01\0\0\0\x01\0\0\0" [4])
    ),
    // a kind with zero bytes behind it
    case!(b"", 4 => row!(b"ZoneType": b"ZoneType_t" C1 [12] b"Structured\0\0" [])),
    // two kinds of a zone
    case!(b"/Base/S K13 zone-types\n", 3 => row!(b"S": b"Zone_t" I4 [3, 3] b"\x03\0\0\0\x03\0\0\0\x02\0\0\0\x02\0\0\0\x02\0\0\0\x01\0\0\0\0\0\0\0\0\0\0\0\0\0\0\0" [4, 18])),
];

/// What is found where some of these nodes are others: K14 to K22.
const ARRAYS: [Case; 15] = [
    // a solution with data
    case!(b"/Base/S/Flow K14 not-empty\n", 8 => row!(b"Flow": b"FlowSolution_t" I4 [1] b"\x01\0\0\0" [])),
    // coordinates without data, whose type and size are not tested
    case!(b"/Base/S/GridCoordinates/CoordinateX K15 array-data\n", 7 => row!(b"CoordinateX": b"DataArray_t" I4 [1] none [])),
    // whole numbers as coordinates
    case!(b"/Base/S/GridCoordinates/CoordinateX K16 coordinate-type\n", 7 => row!(b"CoordinateX": b"DataArray_t" I4 [5, 3, 2] (&[0; 120]) [])),
    // coordinates of eight bytes
    case!(b"", 7 => row!(b"CoordinateX": b"DataArray_t" R8 [5, 3, 2] (&[0; 240]) [])),
    // coordinates without the rind
    case!(b"/Base/S/GridCoordinates/CoordinateX K17 coordinate-size\n", 7 => row!(b"CoordinateX": b"DataArray_t" R4 [3, 3, 2] (&[0; 72]) [])),
    // a rind under another name
    case!(b"/Base/S/GridCoordinates/Rinds K18 rind-name\n", 6 => row!(b"Rinds": b"Rind_t" I4 [6] b"\x01\0\0\0\x01\0\0\0\0\0\0\0\0\0\0\0\0\0\0\0\0\0\0\0" [])),
    // a rind of two numbers, which is none
    case!(
        b"/Base/S/GridCoordinates/Rind K19 rind-data\n",
        6 => row!(b"Rind": b"Rind_t" I4 [2] b"\x01\0\0\0\x01\0\0\0" []),
        7 => row!(b"CoordinateX": b"DataArray_t" R4 [3, 3, 2] (&[0; 72]) [])
    ),
    // a location that is no word, so that the size of the field is not tested
    case!(
        b"/Base/S/Flow/GridLocation K20 location\n",
        9 => row!(b"GridLocation": b"GridLocation_t" C1 [5] b"Cells" []),
        11 => row!(b"Density": b"DataArray_t" R8 [7] (&[0; 56]) [])
    ),
    // a location at faces, where the size of the field is not tested
    case!(
        b"",
        9 => row!(b"GridLocation": b"GridLocation_t" C1 [10] b"FaceCenter" []),
        11 => row!(b"Density": b"DataArray_t" R8 [7] (&[0; 56]) [])
    ),
    // letters as a field
    case!(b"/Base/S/Flow/Density K21 field-type\n", 11 => row!(b"Density": b"DataArray_t" C1 [2, 2, 1] (&[0; 4]) [])),
    // whole numbers as a field
    case!(b"", 11 => row!(b"Density": b"DataArray_t" I4 [2, 2, 1] (&[0; 16]) [])),
    // a field at vertices where the solution lies at cells
    case!(b"/Base/S/Flow/Density K22 field-size\n", 11 => row!(b"Density": b"DataArray_t" R8 [3, 3, 2] (&[0; 144]) [])),
    // no location, so that the field lies at vertices
    case!(
        b"",
        8 => row!(b"Flow": b"FlowSolution_t" [10, 11]),
        11 => row!(b"Density": b"DataArray_t" R8 [3, 3, 2] (&[0; 144]) [])
    ),
    // a solution with a range, whose fields are not tested
    case!(
        b"",
        8 => row!(b"Flow": b"FlowSolution_t" [14, 11]),
        11 => row!(b"Density": b"DataArray_t" R8 [7] (&[0; 56]) [])
    ),
    // a solution with a rind
    case!(
        b"",
        8 => row!(b"Flow": b"FlowSolution_t" [9, 6, 11]),
        11 => row!(b"Density": b"DataArray_t" R8 [4, 2, 1] (&[0; 64]) [])
    ),
];

/// What is found where some of these nodes are others: K23 to K30.
const SECTIONS: [Case; 15] = [
    // a section of one number, whose connectivity is not tested
    case!(
        b"/Base/U/Hexa K23 section-data\n",
        19 => row!(b"Hexa": b"Elements_t" I4 [1] b"\x11\0\0\0" [20, 21]),
        21 => row!(b"ElementConnectivity": b"DataArray_t" I4 [1] b"\0\0\0\0" [])
    ),
    // a code of -1
    case!(b"/Base/U/Hexa K24 section-numbers\n", 19 => row!(b"Hexa": b"Elements_t" I4 [2] b"\xFF\xFF\xFF\xFF\0\0\0\0" [20, 21])),
    // a boundary of -1
    case!(b"/Base/U/Hexa K24 section-numbers\n", 19 => row!(b"Hexa": b"Elements_t" I4 [2] b"\x11\0\0\0\xFF\xFF\xFF\xFF" [20, 21])),
    // no range of elements, so that neither connectivity nor overlap are tested
    case!(
        b"/Base/U/Hexa K25 range\n",
        19 => row!(b"Hexa": b"Elements_t" I4 [2] b"\x11\0\0\0\0\0\0\0" [21]),
        21 => row!(b"ElementConnectivity": b"DataArray_t" I4 [1] b"\0\0\0\0" [])
    ),
    // a range of elements with another label
    case!(
        b"/Base/U/Hexa K25 range\n",
        19 => row!(b"Hexa": b"Elements_t" I4 [2] b"\x11\0\0\0\0\0\0\0" [24, 21]),
        24 => row!(b"ElementRange": b"DataArray_t" I4 [2] b"\x01\0\0\0\x01\0\0\0" []),
        22 => row!(b"Bars": b"Elements_t" I4 [2] b"\x03\0\0\0\0\0\0\0" [23, 21]),
        21 => row!(b"ElementConnectivity": b"DataArray_t" I4 [4] b"\x01\0\0\0\x02\0\0\0\x02\0\0\0\x03\0\0\0" [])
    ),
    // a range from 0
    case!(
        b"/Base/U/Hexa K26 range-numbers\n",
        20 => row!(b"ElementRange": b"IndexRange_t" I4 [2] b"\0\0\0\0\0\0\0\0" []),
        21 => row!(b"ElementConnectivity": b"DataArray_t" I4 [1] b"\0\0\0\0" [])
    ),
    // a range that ends before it begins
    case!(
        b"/Base/U/Hexa K26 range-numbers\n",
        20 => row!(b"ElementRange": b"IndexRange_t" I4 [2] b"\x05\0\0\0\x04\0\0\0" []),
        21 => row!(b"ElementConnectivity": b"DataArray_t" I4 [1] b"\0\0\0\0" [])
    ),
    // no connectivity
    case!(b"/Base/U/Hexa K27 connectivity\n", 19 => row!(b"Hexa": b"Elements_t" I4 [2] b"\x11\0\0\0\0\0\0\0" [20])),
    // seven nodes of a hexahedron, one of them 0
    case!(b"/Base/U/Hexa K28 connectivity-size\n", 21 => row!(b"ElementConnectivity": b"DataArray_t" I4 [7] b"\x01\0\0\0\x02\0\0\0\x03\0\0\0\x04\0\0\0\x05\0\0\0\x06\0\0\0\0\0\0\0" [])),
    // a node above the vertices
    case!(b"/Base/U/Hexa K29 connectivity-nodes\n", 21 => row!(b"ElementConnectivity": b"DataArray_t" I4 [8] b"\x01\0\0\0\x02\0\0\0\x03\0\0\0\x04\0\0\0\x05\0\0\0\x06\0\0\0\x07\0\0\0\x09\0\0\0" [])),
    // a node 0
    case!(b"/Base/U/Hexa K29 connectivity-nodes\n", 21 => row!(b"ElementConnectivity": b"DataArray_t" I4 [8] b"\x01\0\0\0\x02\0\0\0\x03\0\0\0\x04\0\0\0\x05\0\0\0\x06\0\0\0\x07\0\0\0\0\0\0\0" [])),
    // a node above the vertices of a zone whose grid has a rind
    case!(
        b"",
        21 => row!(b"ElementConnectivity": b"DataArray_t" I4 [8] b"\x01\0\0\0\x02\0\0\0\x03\0\0\0\x04\0\0\0\x05\0\0\0\x06\0\0\0\x07\0\0\0\x09\0\0\0" []),
        17 => row!(b"U": b"Zone_t" I4 [1, 3] b"\x08\0\0\0\x01\0\0\0\0\0\0\0" [18, 19, 22, 5]),
        6 => row!(b"Rind": b"Rind_t" I4 [2] b"\x01\0\0\0\x02\0\0\0" []),
        7 => row!(b"CoordinateX": b"DataArray_t" R4 [11] (&[0; 44]) []),
        3 => row!(b"S": b"Zone_t" I4 [3, 3] b"\x03\0\0\0\x03\0\0\0\x02\0\0\0\x02\0\0\0\x02\0\0\0\x01\0\0\0\0\0\0\0\0\0\0\0\0\0\0\0" [4])
    ),
    // a range that begins at the last element of an earlier one
    case!(
        b"/Base/U/Bars K30 sections-overlap\n",
        23 => row!(b"ElementRange": b"IndexRange_t" I4 [2] b"\x01\0\0\0\x03\0\0\0" []),
        24 => row!(b"ElementConnectivity": b"DataArray_t" I4 [6] b"\x01\0\0\0\x02\0\0\0\x02\0\0\0\x03\0\0\0\x03\0\0\0\x04\0\0\0" [])
    ),
    // a range over a later one, which is the one that overlaps
    case!(
        b"/Base/U/Bars K30 sections-overlap\n",
        20 => row!(b"ElementRange": b"IndexRange_t" I4 [2] b"\x01\0\0\0\x03\0\0\0" []),
        19 => row!(b"Hexa": b"Elements_t" I4 [2] b"\x03\0\0\0\0\0\0\0" [20, 21]),
        21 => row!(b"ElementConnectivity": b"DataArray_t" I4 [6] b"\x01\0\0\0\x02\0\0\0\x02\0\0\0\x03\0\0\0\x03\0\0\0\x04\0\0\0" [])
    ),
    // a range over an earlier one that is none
    case!(
        b"/Base/U/Hexa K26 range-numbers\n",
        20 => row!(b"ElementRange": b"IndexRange_t" I4 [2] b"\0\0\0\0\x03\0\0\0" []),
        21 => row!(b"ElementConnectivity": b"DataArray_t" I4 [1] b"\0\0\0\0" []),
        23 => row!(b"ElementRange": b"IndexRange_t" I4 [2] b"\x02\0\0\0\x03\0\0\0" [])
    ),
];

/// What is found where some of these nodes are others: K31 to K34, and rules of one zone in their order.
const CONDITIONS: [Case; 17] = [
    // a misspelled type of a condition
    case!(b"/Base/S/ZoneBC/Wall K31 bc-type\n", 13 => row!(b"Wall": b"BC_t" C1 [5] b"BCWal" [14, 15])),
    // no points
    case!(b"/Base/S/ZoneBC/Wall K32 bc-points\n", 13 => row!(b"Wall": b"BC_t" C1 [6] b"BCWall" [15])),
    // points of two indices
    case!(b"/Base/S/ZoneBC/Wall K32 bc-points\n", 14 => row!(b"PointRange": b"IndexRange_t" I4 [2, 2] (&[0; 16]) [])),
    // a list that is labelled as a range
    case!(b"/Base/S/ZoneBC/Wall K32 bc-points\n", 14 => row!(b"PointList": b"IndexRange_t" I4 [3, 5] (&[0; 60]) [])),
    // a list of points
    case!(b"", 14 => row!(b"PointList": b"IndexArray_t" I4 [3, 5] (&[0; 60]) [])),
    // a range of elements, which is not looked at
    case!(b"", 14 => row!(b"ElementRange": b"IndexRange_t" I4 [1] (&[0; 4]) [])),
    // no family
    case!(b"/Base/S/ZoneBC/Wall K33 bc-family\n", 13 => row!(b"Wall": b"BC_t" C1 [15] b"FamilySpecified" [14])),
    // a family
    case!(b"", 13 => row!(b"Wall": b"BC_t" C1 [15] b"FamilySpecified" [14, 15])),
    // a class that is no word
    case!(b"/Base/DataClass K34 small-node\n", 26 => row!(b"DataClass": b"DataClass_t" C1 [3] b"Dim" [])),
    // a simulation type that is no word
    case!(b"/Base/SimulationType K34 small-node\n", 25 => row!(b"SimulationType": b"SimulationType_t" C1 [4] b"Time" [])),
    // a name of a family that is a number
    case!(b"/Base/S/FamilyName K34 small-node\n", 16 => row!(b"FamilyName": b"FamilyName_t" I4 [1] b"\x01\0\0\0" [])),
    // a descriptor of two dimensions
    case!(b"", 10 => row!(b"About": b"Descriptor_t" C1 [2, 2] (&[0; 4]) [])),
    // a descriptor without data
    case!(b"/Base/S/Flow/About K34 small-node\n", 10 => row!(b"About": b"Descriptor_t" [])),
    // units of another size
    case!(b"/Base/DimensionalUnits K34 small-node\n", 27 => row!(b"DimensionalUnits": b"DimensionalUnits_t" C1 [32, 8] (&[0; 256]) [])),
    // exponents that are whole numbers
    case!(b"/Base/S/Flow/Density/DimensionalExponents K34 small-node\n", 30 => row!(b"DimensionalExponents": b"DimensionalExponents_t" I4 [5] (&[0; 20]) [])),
    // exponents of four bytes
    case!(b"", 30 => row!(b"DimensionalExponents": b"DimensionalExponents_t" R4 [5] (&[0; 20]) [])),
    // two rules of one node, and one of a node behind it: tree order, then by number
    case!(
        b"/Base/S K09 vertex-size\n/Base/S K10 cell-size\n/Base/S K11 boundary-size\n",
        3 => row!(b"S": b"Zone_t" I4 [3, 3] b"\x03\0\0\0\x03\0\0\0\0\0\0\0\x02\0\0\0\x02\0\0\0\x01\0\0\0\0\0\0\0\0\0\0\0\x01\0\0\0" [4]),
        4 => row!(b"ZoneType": b"ZoneType_t" C1 [12] b"Structured\0 " [])
    ),
];

/// A zone of two triangles in a mixed section, a polygon and a polyhedron of that face. Nothing is found in it.
const WITH_OFFSETS: [Row<'static>; 17] = [
    row!(b"Root": b"Root Node of ADF File" [1, 2]),
    row!(b"CGNSLibraryVersion": b"CGNSLibraryVersion_t" R4 [1] (&[0; 4]) []),
    row!(b"Base": b"CGNSBase_t" I4 [2] b"\x03\0\0\0\x03\0\0\0" [3]),
    row!(b"Z": b"Zone_t" I4 [1, 3] b"\x04\0\0\0\x02\0\0\0\0\0\0\0" [4, 5, 9, 13]),
    row!(b"ZoneType": b"ZoneType_t" C1 [12] b"Unstructured" []),
    row!(b"M": b"Elements_t" I4 [2] b"\x14\0\0\0\0\0\0\0" [6, 7, 8]),
    row!(b"ElementRange": b"IndexRange_t" I4 [2] b"\x01\0\0\0\x02\0\0\0" []),
    row!(b"ElementConnectivity": b"DataArray_t" I4 [8] b"\x05\0\0\0\x01\0\0\0\x02\0\0\0\x03\0\0\0\x05\0\0\0\x02\0\0\0\x03\0\0\0\x04\0\0\0" []),
    row!(b"ElementStartOffset": b"DataArray_t" I4 [3] b"\0\0\0\0\x04\0\0\0\x08\0\0\0" []),
    row!(b"P": b"Elements_t" I4 [2] b"\x16\0\0\0\0\0\0\0" [10, 11, 12]),
    row!(b"ElementRange": b"IndexRange_t" I4 [2] b"\x03\0\0\0\x03\0\0\0" []),
    row!(b"ElementConnectivity": b"DataArray_t" I4 [3] b"\x01\0\0\0\x02\0\0\0\x03\0\0\0" []),
    row!(b"ElementStartOffset": b"DataArray_t" I4 [2] b"\0\0\0\0\x03\0\0\0" []),
    row!(b"F": b"Elements_t" I4 [2] b"\x17\0\0\0\0\0\0\0" [14, 15, 16]),
    row!(b"ElementRange": b"IndexRange_t" I4 [2] b"\x04\0\0\0\x04\0\0\0" []),
    row!(b"ElementConnectivity": b"DataArray_t" I4 [1] b"\xFD\xFF\xFF\xFF" []),
    row!(b"ElementStartOffset": b"DataArray_t" I4 [2] b"\0\0\0\0\x01\0\0\0" []),
];

/// What is found where some of these nodes are others.
const OFFSETS: [Case; 22] = [
    // nothing is changed
    case!(b""),
    // offsets under another name
    case!(b"/Base/Z/M K35 start-offset\n", 8 => row!(b"StartOffset": b"DataArray_t" I4 [3] b"\0\0\0\0\x04\0\0\0\x08\0\0\0" [])),
    // offsets of two dimensions
    case!(b"/Base/Z/M K35 start-offset\n", 8 => row!(b"ElementStartOffset": b"DataArray_t" I4 [3, 1] b"\0\0\0\0\x04\0\0\0\x08\0\0\0" [])),
    // offsets that are no whole numbers
    case!(b"/Base/Z/M K35 start-offset\n", 8 => row!(b"ElementStartOffset": b"DataArray_t" R4 [3] (&[0; 12]) [])),
    // no offsets of a section of triangles
    case!(
        b"",
        5 => row!(b"M": b"Elements_t" I4 [2] b"\x05\0\0\0\0\0\0\0" [6, 7]),
        7 => row!(b"ElementConnectivity": b"DataArray_t" I4 [6] b"\x01\0\0\0\x02\0\0\0\x03\0\0\0\x02\0\0\0\x03\0\0\0\x04\0\0\0" [])
    ),
    // offsets where there is no range
    case!(
        b"/Base/Z/M K25 range\n",
        5 => row!(b"M": b"Elements_t" I4 [2] b"\x14\0\0\0\0\0\0\0" [7, 8]),
        8 => row!(b"ElementStartOffset": b"DataArray_t" I4 [1] b"\x01\0\0\0" [])
    ),
    // too few offsets, whose numbers are not tested
    case!(b"/Base/Z/M K36 offset-size\n", 8 => row!(b"ElementStartOffset": b"DataArray_t" I4 [2] b"\x01\0\0\0\x08\0\0\0" [])),
    // a wrong end
    case!(b"/Base/Z/M K37 offset-numbers\n", 8 => row!(b"ElementStartOffset": b"DataArray_t" I4 [3] b"\0\0\0\0\x04\0\0\0\x07\0\0\0" [])),
    // a fall
    case!(b"/Base/Z/M K37 offset-numbers\n", 8 => row!(b"ElementStartOffset": b"DataArray_t" I4 [3] b"\0\0\0\0\x09\0\0\0\x08\0\0\0" [])),
    // a wrong beginning
    case!(b"/Base/Z/M K37 offset-numbers\n", 8 => row!(b"ElementStartOffset": b"DataArray_t" I4 [3] b"\x01\0\0\0\x04\0\0\0\x08\0\0\0" [])),
    // a wrong end of the offsets of a polyhedron, whose faces are not tested
    case!(
        b"/Base/Z/F K37 offset-numbers\n",
        15 => row!(b"ElementConnectivity": b"DataArray_t" I4 [1] b"\x09\0\0\0" []),
        16 => row!(b"ElementStartOffset": b"DataArray_t" I4 [2] b"\0\0\0\0\x02\0\0\0" [])
    ),
    // a piece that is too short
    case!(b"/Base/Z/M K38 mixed-pieces\n", 8 => row!(b"ElementStartOffset": b"DataArray_t" I4 [3] b"\0\0\0\0\x03\0\0\0\x08\0\0\0" [])),
    // a piece whose code fixes no number of nodes, with a node 0
    case!(b"/Base/Z/M K38 mixed-pieces\n", 7 => row!(b"ElementConnectivity": b"DataArray_t" I4 [8] b"\x16\0\0\0\x01\0\0\0\x02\0\0\0\x03\0\0\0\x05\0\0\0\x02\0\0\0\x03\0\0\0\0\0\0\0" [])),
    // a piece of one node
    case!(
        b"",
        7 => row!(b"ElementConnectivity": b"DataArray_t" I4 [6] b"\x02\0\0\0\x01\0\0\0\x05\0\0\0\x02\0\0\0\x03\0\0\0\x04\0\0\0" []),
        8 => row!(b"ElementStartOffset": b"DataArray_t" I4 [3] b"\0\0\0\0\x02\0\0\0\x06\0\0\0" [])
    ),
    // a node above the vertices
    case!(b"/Base/Z/M K39 piece-nodes\n", 7 => row!(b"ElementConnectivity": b"DataArray_t" I4 [8] b"\x05\0\0\0\x01\0\0\0\x02\0\0\0\x03\0\0\0\x05\0\0\0\x02\0\0\0\x03\0\0\0\x05\0\0\0" [])),
    // a node 0
    case!(b"/Base/Z/M K39 piece-nodes\n", 7 => row!(b"ElementConnectivity": b"DataArray_t" I4 [8] b"\x05\0\0\0\0\0\0\0\x02\0\0\0\x03\0\0\0\x05\0\0\0\x02\0\0\0\x03\0\0\0\x04\0\0\0" [])),
    // a node above the vertices in a polygon
    case!(b"/Base/Z/P K39 piece-nodes\n", 11 => row!(b"ElementConnectivity": b"DataArray_t" I4 [3] b"\x01\0\0\0\x02\0\0\0\x05\0\0\0" [])),
    // an empty polygon
    case!(
        b"",
        10 => row!(b"ElementRange": b"IndexRange_t" I4 [2] b"\x03\0\0\0\x04\0\0\0" []),
        12 => row!(b"ElementStartOffset": b"DataArray_t" I4 [3] b"\0\0\0\0\0\0\0\0\x03\0\0\0" []),
        14 => row!(b"ElementRange": b"IndexRange_t" I4 [2] b"\x05\0\0\0\x05\0\0\0" [])
    ),
    // a face that is a section of triangles
    case!(b"/Base/Z/F K40 face-numbers\n", 15 => row!(b"ElementConnectivity": b"DataArray_t" I4 [1] b"\x01\0\0\0" [])),
    // a face 0
    case!(b"/Base/Z/F K40 face-numbers\n", 15 => row!(b"ElementConnectivity": b"DataArray_t" I4 [1] b"\0\0\0\0" [])),
    // a face of polygons whose range overlaps an earlier one
    case!(
        b"/Base/Z/P K30 sections-overlap\n",
        10 => row!(b"ElementRange": b"IndexRange_t" I4 [2] b"\x02\0\0\0\x02\0\0\0" []),
        15 => row!(b"ElementConnectivity": b"DataArray_t" I4 [1] b"\x02\0\0\0" [])
    ),
    // a face of polygons that have no connectivity
    case!(b"/Base/Z/P K27 connectivity\n", 9 => row!(b"P": b"Elements_t" I4 [2] b"\x16\0\0\0\0\0\0\0" [10, 12])),
];

/// Rows that stand in the places of others, and what is printed then.
struct Case {
    changes: &'static [(usize, Row<'static>)],
    lines: &'static [u8],
}

/// A table in which some rows are others.
fn changed(
    alloc: Global,
    rows: &[Row<'static>],
    changes: &[(usize, Row<'static>)],
) -> Option<Vec<Row<'static>>> {
    let mut all = match rows.to_vec(alloc) {
        Ok(all) => all,
        Err(_) => return None,
    };
    for (place, row) in changes {
        match all.get_mut(*place) {
            Some(old) => *old = *row,
            None => return None,
        }
    }
    Some(all)
}

fn count_of(lines: &[u8]) -> u64 {
    let mut count = 0;
    for byte in lines {
        if *byte == b'\n' && count < u64::MAX {
            count += 1;
        }
    }
    count
}

fn finds(alloc: Global, rows: &[Row<'static>], set: RuleSet, case: &Case, lines: &[u8]) -> bool {
    match changed(alloc, rows, case.changes) {
        Some(rows) => prints(alloc, &rows, set, count_of(lines), lines),
        None => false,
    }
}

/// The first of some cases that finds something else, by the rules of either set: those on offsets add
/// nothing here.
fn first_other(alloc: Global, cases: &[Case]) -> Option<usize> {
    for (place, case) in cases.iter().enumerate() {
        if !finds_by_both(alloc, case) {
            return Some(place);
        }
    }
    None
}

fn finds_by_both(alloc: Global, case: &Case) -> bool {
    let rows = &GOOD;
    finds(alloc, rows, RuleSet::Check, case, case.lines)
        && finds(alloc, rows, RuleSet::Check4, case, case.lines)
}

#[test]
fn each_rule_on_bases_is_broken_alone(rt: HostRuntime) {
    let other = first_other(rt.alloc(), &BASES);
    assert!(rt; other.is_none(), "at {other:?}");
}

#[test]
fn each_rule_on_zones_is_broken_alone(rt: HostRuntime) {
    let other = first_other(rt.alloc(), &ZONES);
    assert!(rt; other.is_none(), "at {other:?}");
}

#[test]
fn each_rule_on_arrays_is_broken_alone(rt: HostRuntime) {
    let other = first_other(rt.alloc(), &ARRAYS);
    assert!(rt; other.is_none(), "at {other:?}");
}

#[test]
fn each_rule_on_sections_is_broken_alone(rt: HostRuntime) {
    let other = first_other(rt.alloc(), &SECTIONS);
    assert!(rt; other.is_none(), "at {other:?}");
}

#[test]
fn each_rule_on_conditions_and_small_nodes_is_broken_alone(rt: HostRuntime) {
    let other = first_other(rt.alloc(), &CONDITIONS);
    assert!(rt; other.is_none(), "at {other:?}");
}

#[test]
fn each_rule_on_offsets_is_broken_alone(rt: HostRuntime) {
    for (place, case) in OFFSETS.iter().enumerate() {
        assert!(rt;
            finds(rt.alloc(), &WITH_OFFSETS, RuleSet::Check4, case, case.lines),
            "at {place}"
        );
    }
}

/// Lines without those of K35 to K40, where they are of one rule.
fn without_offset_rules(lines: &[u8]) -> &[u8] {
    for word in lines.windows(4) {
        if word > b" K34".as_slice() && word <= b" K40".as_slice() {
            return b"";
        }
    }
    lines
}

#[test]
fn rules_on_offsets_are_not_tested_by_check(rt: HostRuntime) {
    for (place, case) in OFFSETS.iter().enumerate() {
        let lines = without_offset_rules(case.lines);
        assert!(rt;
            finds(rt.alloc(), &WITH_OFFSETS, RuleSet::Check, case, lines),
            "at {place}"
        );
    }
}

#[test]
fn each_question_about_a_good_file_that_fails_ends_its_check(rt: HostRuntime) {
    assert!(rt; stops_at_each(rt.alloc(), &GOOD, RuleSet::Check, b"", 7));
    assert!(rt; stops_at_each(rt.alloc(), &WITH_OFFSETS, RuleSet::Check4, b"", 3));
}
