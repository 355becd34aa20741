//! Words of the nodes whose text is one of a list.

ghost use Rattle.std.specs.Prelude.{◌↔◌, IsTrue, Contains, map};
ghost use Rattle.sids_tables.specs.Words.{grid_locations, zone_types, simulation_types};
ghost use Rattle.sids_tables.specs.Words.{data_classes, bc_types};

/// Source: SIDS (AIAA R-101A), `GridLocation_t`.
const GRID_LOCATIONS: [&[u8]; 9] = [
    b"Vertex",
    b"CellCenter",
    b"FaceCenter",
    b"IFaceCenter",
    b"JFaceCenter",
    b"KFaceCenter",
    b"EdgeCenter",
    b"UserDefined",
    b"Null",
];

/// Source: SIDS (AIAA R-101A), `ZoneType_t`.
const ZONE_TYPES: [&[u8]; 4] = [b"Structured", b"Unstructured", b"UserDefined", b"Null"];

/// Source: SIDS (AIAA R-101A), `SimulationType_t`.
const SIMULATION_TYPES: [&[u8]; 4] = [b"TimeAccurate", b"NonTimeAccurate", b"UserDefined", b"Null"];

/// Source: SIDS (AIAA R-101A), `DataClass_t`.
const DATA_CLASSES: [&[u8]; 7] = [
    b"Dimensional",
    b"NormalizedByDimensional",
    b"NormalizedByUnknownDimensional",
    b"NondimensionalParameter",
    b"DimensionlessConstant",
    b"UserDefined",
    b"Null",
];

/// Source: SIDS (AIAA R-101A), `BCType_t`.
const BC_TYPES: [&[u8]; 26] = [
    b"Null",
    b"UserDefined",
    b"BCAxisymmetricWedge",
    b"BCDegenerateLine",
    b"BCDegeneratePoint",
    b"BCDirichlet",
    b"BCExtrapolate",
    b"BCFarfield",
    b"BCGeneral",
    b"BCInflow",
    b"BCInflowSubsonic",
    b"BCInflowSupersonic",
    b"BCNeumann",
    b"BCOutflow",
    b"BCOutflowSubsonic",
    b"BCOutflowSupersonic",
    b"BCSymmetryPlane",
    b"BCSymmetryPolar",
    b"BCTunnelInflow",
    b"BCTunnelOutflow",
    b"BCWall",
    b"BCWallInviscid",
    b"BCWallViscous",
    b"BCWallViscousHeatFlux",
    b"BCWallViscousIsothermal",
    b"FamilySpecified",
];

/// Whether the text is a grid location.
#[tactic(auto, unfolding(crate::specs::Words::grid_locations))]
pub fn is_location(text: &[u8]) -> bool
    ensures { IsTrue result ↔ Contains grid_locations text.now }
{
    is_one_of(&GRID_LOCATIONS, text)
}

/// Whether the text is a zone type.
#[tactic(auto, unfolding(crate::specs::Words::zone_types))]
pub fn is_zone_type(text: &[u8]) -> bool
    ensures { IsTrue result ↔ Contains zone_types text.now }
{
    is_one_of(&ZONE_TYPES, text)
}

/// Whether the text is a simulation type.
#[tactic(auto, unfolding(crate::specs::Words::simulation_types))]
pub fn is_simulation_type(text: &[u8]) -> bool
    ensures { IsTrue result ↔ Contains simulation_types text.now }
{
    is_one_of(&SIMULATION_TYPES, text)
}

/// Whether the text is a data class.
#[tactic(auto, unfolding(crate::specs::Words::data_classes))]
pub fn is_data_class(text: &[u8]) -> bool
    ensures { IsTrue result ↔ Contains data_classes text.now }
{
    is_one_of(&DATA_CLASSES, text)
}

/// Whether the text is a type of boundary condition.
#[tactic(auto, unfolding(crate::specs::Words::bc_types))]
pub fn is_bc_type(text: &[u8]) -> bool
    ensures { IsTrue result ↔ Contains bc_types text.now }
{
    is_one_of(&BC_TYPES, text)
}

fn is_one_of(words: &[&[u8]], text: &[u8]) -> bool
    ensures { IsTrue result ↔ Contains (map (λ word. word.now) words.now) text.now }
{
    words.contains(&text)
}
