//! Files for tests, put together from parts: files of both versions, damaged ones, and packed copies.

#![tactic(auto)]

mod images;
mod samples;

pub use images::{Change, Image, Part, chain};
pub use samples::{Sample, image_of};
