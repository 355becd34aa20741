//! One open file: the tree that a device holds, edited in a draft that a commit writes.

#![tactic(auto)]

mod asks;
mod contents;
mod edits;
mod file;
mod fresh;
mod groups;
mod headers;
mod hints;
mod known;
mod looks;
mod making;
mod maps;
mod names;
mod opening;
mod standing;
mod steps;

pub use file::{AdfFile, OpenRefused};
pub use making::make_fresh;
