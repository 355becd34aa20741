//! The lines of scripts: call lines are read, and reply lines are written.
//!
//! A call line is tokens with exactly one space between two of them. Numbers are decimal without
//! leading zeros, a node is `FILE.SERIAL`, and texts have `%` and two hexadecimal digits for bytes
//! that may not stand for themselves.

#![tactic(auto)]

mod calls;
mod dims;
mod edits;
mod fields;
pub mod laws;
mod lines;
mod reads;
mod refusals;
mod replies;
mod tokens;
mod words;

pub use calls::{Answer, Call, OpenMode};
pub use lines::read_line;
pub use replies::reply_text;
