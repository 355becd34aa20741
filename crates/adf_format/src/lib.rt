//! The file format: the plain types that its definitions name, and, in `specs/`, what a file means.

#![tactic(auto)]

pub mod fields;
pub mod laws;
pub mod limits;
mod lists;
pub mod texts;
mod types;
pub mod writes;

pub use lists::Listing;
pub use types::{DataType, Extent, ExtentKind, Extents, Format};
