//! The commands of `cgns_tool`: what the words of a command line ask for, what each command does to the
//! devices of a shelf, what it prints, and the status with which it ends.

#![tactic(auto)]

mod checks;
mod commands;
mod copies;
mod named_files;
mod pairs;
mod printing;
mod salvages;
mod status;
mod trees;
mod words;

pub use commands::{run_on, run_tool};
pub use status::Status;
