//! The tables of the standard in this project's profile: labels and their kinds, the children that
//! a node may have, words of enumerated nodes, and node counts of element types. Nothing here takes
//! memory.

#![tactic(auto)]

mod elements;
mod labels;
mod words;

pub use elements::nodes_of;
pub use labels::{LabelKind, allowed, label_kind};
pub use words::{is_bc_type, is_data_class, is_location, is_simulation_type, is_zone_type};
