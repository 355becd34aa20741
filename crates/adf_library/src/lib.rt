//! The files of a shelf under their numbers, opened, asked and closed: each open file is a tree, and links
//! lead from one to another.

#![tactic(auto)]

mod calls;
mod edits;
mod entries;
mod library;
mod looks;
mod openings;
mod places;
mod shelf;
mod slots;

pub use library::Library;
pub use shelf::Shelf;
