//! The runs of consecutive elements that a selection names of an array.

#![tactic(auto)]

mod axis;
mod rows;
mod selected;

pub use selected::{one_list_of_runs, runs};
