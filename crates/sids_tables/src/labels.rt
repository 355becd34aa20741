//! Labels of nodes, and which children a node may have.

ghost use Rattle.std.specs.Prelude.{◌≡◌, ◌≢◌, ◌↔◌, ◌++◌, IsTrue, Contains, map};
ghost use Rattle.sids_tables.specs.Labels.{profile_labels, kind_in, kind_of, children_of};

/// What a label says that a node is.
#[derive(Clone, Copy, Debug, PartialEq, Eq, Drop)]
pub enum LabelKind {
    /// The root of a file, whatever its label is.
    Root,
    CgnsLibraryVersion,
    CgnsBase,
    Zone,
    ZoneType,
    GridCoordinates,
    Elements,
    FlowSolution,
    ZoneBc,
    Bc,
    DataArray,
    Family,
    FamilyName,
    SimulationType,
    DataClass,
    DimensionalUnits,
    DimensionalExponents,
    Descriptor,
    UserDefinedData,
    Rind,
    IndexRange,
    IndexArray,
    GridLocation,
    /// A label outside the profile.
    Other,
}

/// The labels of the profile.
///
/// Source: SIDS (AIAA R-101A), the structure types, as the SIDS File Mapping Manual spells them in
/// the labels of nodes.
const LABELS: [(&[u8], LabelKind); 22] = [
    (b"CGNSLibraryVersion_t", LabelKind::CgnsLibraryVersion),
    (b"CGNSBase_t", LabelKind::CgnsBase),
    (b"Zone_t", LabelKind::Zone),
    (b"ZoneType_t", LabelKind::ZoneType),
    (b"GridCoordinates_t", LabelKind::GridCoordinates),
    (b"Elements_t", LabelKind::Elements),
    (b"FlowSolution_t", LabelKind::FlowSolution),
    (b"ZoneBC_t", LabelKind::ZoneBc),
    (b"BC_t", LabelKind::Bc),
    (b"DataArray_t", LabelKind::DataArray),
    (b"Family_t", LabelKind::Family),
    (b"FamilyName_t", LabelKind::FamilyName),
    (b"SimulationType_t", LabelKind::SimulationType),
    (b"DataClass_t", LabelKind::DataClass),
    (b"DimensionalUnits_t", LabelKind::DimensionalUnits),
    (b"DimensionalExponents_t", LabelKind::DimensionalExponents),
    (b"Descriptor_t", LabelKind::Descriptor),
    (b"UserDefinedData_t", LabelKind::UserDefinedData),
    (b"Rind_t", LabelKind::Rind),
    (b"IndexRange_t", LabelKind::IndexRange),
    (b"IndexArray_t", LabelKind::IndexArray),
    (b"GridLocation_t", LabelKind::GridLocation),
];

/// The kind of a label: `Other` exactly outside the profile, and never `Root`, which no label tells.
#[tactic(auto, unfolding(crate::specs::Labels::profile_labels))]
pub fn label_kind(label: &[u8]) -> LabelKind
    ensures kind { result ≡ kind_of label.now }
    ensures outside { (result ≡ LabelKind.Other)
        ↔ (¬ Contains (map (λ entry. entry.0) profile_labels) label.now) }
    ensures never_root { result ≢ LabelKind.Root }
{
    kind_in(&LABELS, label)
}

fn kind_in(table: &[(&[u8], LabelKind)], label: &[u8]) -> LabelKind
    ensures { result ≡ kind_in (map (λ entry. (entry.0.now, entry.1)) table.now) label.now }
{
    for (name, kind) in table {
        if *name == label {
            return *kind;
        }
    }
    LabelKind::Other
}

/// Whether a node of the kind `child` may stand under one of the kind `parent`.
///
/// Source: SIDS File Mapping Manual, the child nodes of each node. The table is this project's
/// profile of it.
pub fn allowed(parent: LabelKind, child: LabelKind) -> bool
    ensures { IsTrue result ↔ Contains (children_of parent) child }
{
    let (own, general) = children_row(parent);
    is_among(own, child) || is_among(general, child)
}

fn is_among(kinds: &[LabelKind], kind: LabelKind) -> bool
    ensures { IsTrue result ↔ Contains kinds.now kind }
{
    kinds.contains(&kind)
}

/// Children that many nodes may have, whatever they describe.
const GENERAL: [LabelKind; 4] = [
    LabelKind::DataClass,
    LabelKind::DimensionalUnits,
    LabelKind::Descriptor,
    LabelKind::UserDefinedData,
];

/// The row of a parent: its own children, and the general ones where it may have them.
fn children_row(parent: LabelKind) -> (&'static [LabelKind], &'static [LabelKind])
    ensures { result.0.now ++ result.1.now ≡ children_of parent }
{
    match parent {
        LabelKind::Root => (&[LabelKind::CgnsLibraryVersion, LabelKind::CgnsBase], &[]),
        LabelKind::CgnsBase => (
            &[
                LabelKind::Zone,
                LabelKind::Family,
                LabelKind::SimulationType,
            ],
            &GENERAL,
        ),
        LabelKind::Zone => (
            &[
                LabelKind::ZoneType,
                LabelKind::GridCoordinates,
                LabelKind::Elements,
                LabelKind::FlowSolution,
                LabelKind::ZoneBc,
                LabelKind::FamilyName,
            ],
            &GENERAL,
        ),
        LabelKind::GridCoordinates => (&[LabelKind::DataArray, LabelKind::Rind], &GENERAL),
        LabelKind::Elements => (
            &[
                LabelKind::IndexRange,
                LabelKind::DataArray,
                LabelKind::Rind,
                LabelKind::Descriptor,
                LabelKind::UserDefinedData,
            ],
            &[],
        ),
        LabelKind::FlowSolution => (
            &[
                LabelKind::DataArray,
                LabelKind::GridLocation,
                LabelKind::Rind,
                LabelKind::IndexRange,
                LabelKind::IndexArray,
            ],
            &GENERAL,
        ),
        LabelKind::ZoneBc => (&[LabelKind::Bc], &GENERAL),
        LabelKind::Bc => (
            &[
                LabelKind::IndexRange,
                LabelKind::IndexArray,
                LabelKind::GridLocation,
                LabelKind::FamilyName,
                LabelKind::DataArray,
            ],
            &GENERAL,
        ),
        LabelKind::DataArray => (
            &[
                LabelKind::DimensionalExponents,
                LabelKind::DataClass,
                LabelKind::DimensionalUnits,
                LabelKind::Descriptor,
            ],
            &[],
        ),
        LabelKind::Family => (&[LabelKind::Family, LabelKind::FamilyName], &GENERAL),
        LabelKind::UserDefinedData => (
            &[
                LabelKind::DataArray,
                LabelKind::GridLocation,
                LabelKind::FamilyName,
                LabelKind::IndexRange,
                LabelKind::IndexArray,
            ],
            &GENERAL,
        ),
        _ => (&[], &[]),
    }
}
