//! The rules of the checker on sections of elements that begin where offsets say, over any trees.

#![tactic(auto)]

mod faces;
mod offset_lists;
mod offset_rules;
mod offset_section_rules;
mod pieces;

pub use faces::face_ranges;
pub use offset_lists::{OffsetSection, OffsetState, offset_state};
pub use offset_rules::{breaks_offset_size, breaks_start_offset, offsets_of, wants_offsets};
pub use offset_section_rules::with_offset_rules;
pub use pieces::{PieceFault, has_no_face, piece_fault};
