//! Ranges of element numbers: whether one of some has a number in common with another, found by halves, and which
//! of them overlap earlier ones.

#![tactic(auto)]

mod overlaps;
mod union;

pub use overlaps::OverlapNotes;
pub use union::{RangeUnion, Span};
