//! Questions on the children of nodes: where the names of a node's children are kept, they are answered from memory, without a
//! read; and where its children are read whole, their names are kept from then on.
//!
//! The answers are those of the tree, and never depend on what is kept.

#![tactic(auto)]

mod asks;
mod lists;

pub use asks::{answer_at, child_at, know_children};
