//! A node moves with all below it: it becomes the last child of another node, or of its own parent.
//!
//! Of each tree and placement that the bytes and the memory mean, a call that answers `Ok` makes those of the edit. After a
//! refusal the caller abandons what was written to the space, and undoes the rest.

#![tactic(auto)]

mod depths;
mod lists;
mod moving;
mod place;

pub use moving::move_to;
