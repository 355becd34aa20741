//! Fields read from bytes by their places, and written to them: texts, tags, pointers and numbers.
#![tactic(auto)]

mod reading;
mod writing;

pub use reading::{has_tag, read_field, read_number, read_pointer};
pub use writing::{write_field, write_number, write_pointer};
