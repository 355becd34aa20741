//! The text of a link, `file>path`, and the components of a path.
//!
//! A link's text is a file (any bytes but `>`; none for the link's own file), `>`, and a path: `/`
//! alone, or `/` and names joined by `/`.

#![tactic(auto)]

mod links;
mod paths;

pub use links::{LONGEST_LINK, join_link, parts_of_joined, split_link};
pub use paths::components;
