//! The data of a node as one list of bytes, in one chunk or in several.
//!
//! The chunks are read once, into a list of places and lengths; all else is over that list and a space.

#![tactic(auto)]

mod chunks;
mod fills;
mod gifts;
mod grow;
mod pages;
mod place;
mod ranges;
mod room;
mod runs;
mod sizes;
mod spaces;
mod tables;
mod whole;

pub use place::DataPlace;
pub use runs::{read_runs, write_runs};
pub use sizes::{release, resize};
pub use whole::{put_part, put_whole};
