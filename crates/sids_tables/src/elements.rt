//! Types of elements, by their codes.

ghost use Rattle.std.specs.Prelude.{◌≡◌};
ghost use Rattle.sids_tables.specs.Elements.{nodes_of};

/// The nodes of an element of each type, by its code from 0 on, where that number is fixed.
///
/// Source: SIDS (AIAA R-101A), `ElementType_t`; the codes are those of the SIDS File Mapping Manual
/// in this project's profile.
const ELEMENT_NODES: [Option<u32>; 24] = [
    None, // null
    None, // user defined
    Some(1), // NODE
    Some(2), // BAR_2
    Some(3), // BAR_3
    Some(3), // TRI_3
    Some(6), // TRI_6
    Some(4), // QUAD_4
    Some(8), // QUAD_8
    Some(9), // QUAD_9
    Some(4), // TETRA_4
    Some(10), // TETRA_10
    Some(5), // PYRA_5
    Some(14), // PYRA_14
    Some(6), // PENTA_6
    Some(15), // PENTA_15
    Some(18), // PENTA_18
    Some(8), // HEXA_8
    Some(20), // HEXA_20
    Some(27), // HEXA_27
    None, // MIXED
    Some(13), // PYRA_13
    None, // NGON_n
    None, // NFACE_n
];

/// The nodes of an element of the type with this code, where the type fixes their number.
#[tactic(auto, unfolding(crate::specs::Elements::element_nodes))]
pub fn nodes_of(code: u32) -> Option<u32>
    ensures { result ≡ nodes_of code }
{
    match ELEMENT_NODES.get(code as usize) {
        Some(nodes) => *nodes,
        None => None,
    }
}
