//! Changes of blocks that wait for a commit, as a space of bytes.
//!
//! A draft shows the bytes of the blocks below it with its own writes over them. A commit writes the changed blocks, in
//! ascending order; until then nothing below it changes.
#![tactic(auto)]

mod changes;
mod draft;

pub use draft::Draft;
