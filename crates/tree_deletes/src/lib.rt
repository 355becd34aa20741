//! A node is deleted with all below it: its entry leaves its parent's table, its rows leave the table of nodes, and its parts
//! are given to the heap.

#![tactic(auto)]

mod deletion;
mod doomed;
mod erase;
mod gifts;
mod subtree;

pub use deletion::delete;
