//! The rules of the checker on sections of elements, over any trees, but for those on offsets.

#![tactic(auto)]

mod connectivities;
mod entries;
mod notes;
mod overlaps;
mod part_rules;
mod parts;
mod section_rules;
mod spans;

pub use connectivities::{breaks_connectivity_nodes, breaks_connectivity_size};
pub use entries::{EntryTest, has_failing_entry};
pub use notes::{good_range, overlap_notes};
pub use overlaps::{breaks_sections_overlap, is_same_node};
pub use part_rules::{SectionParts, section_parts};
pub use section_rules::{Spot, with_check_rules};
pub use spans::union_of;
