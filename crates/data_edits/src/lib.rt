//! The edits of the data of one file: the shape of a node, all its data, and a part of them.
//!
//! Of each tree and placement that the bytes and the memory mean, a call that answers `Ok` makes those of the edit. After a
//! refusal the caller abandons what was written to the space, and undoes the rest.

#![tactic(auto)]

mod fields;
mod found;
mod placing;
mod put;
mod shape;

pub use put::{put_all, put_part};
pub use shape::set_dims;
