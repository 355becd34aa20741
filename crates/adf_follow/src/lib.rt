//! Links that are followed over open files, by their numbers: walks, queries and groups of edits.

#![tactic(auto)]

mod asks;
mod edit_groups;
mod edited;
mod edits;
pub mod file_groups;
pub mod groups;
mod lookups;
mod parts;
pub mod runs;
mod walks;

pub use asks::{ask, asked_node};
pub use edit_groups::edit_group;
pub use edited::EditedFiles;
pub use edits::edit_one;
pub use lookups::{AskedFiles, OpenFiles};
pub use walks::{MOST_LINKS, Reached, follow, reach, search, walk};
