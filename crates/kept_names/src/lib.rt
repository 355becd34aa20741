//! The children of nodes, kept in memory: names with serials, in the order of the tables that list them.
//!
//! What is kept of a node is what its table has, so an answer never depends on whether it is kept.

#![tactic(auto)]

mod list;
mod names;

pub use list::Listed;
pub use names::{Kept, MOST_NAMES, Names};
