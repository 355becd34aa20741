//! The gaps of a file in order of place, each with its spot in the lists of free chunks, in a tree whose parts are shared.
//!
//! A tree is never changed: a call makes another, which shares all but the way to what differs. So a tree that was kept
//! costs no memory beyond what changed since, and to return to it takes none. The work of each call but that of all gaps
//! grows with the logarithm of their number.
#![tactic(auto)]

mod slot;
mod tree;

pub use slot::{Class, Slot, Spot};
pub use tree::Tree;
