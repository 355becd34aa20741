//! Sessions: call lines are read from a source, and a reply line is printed for each call as it goes.

#![tactic(auto)]

mod calls;
pub mod laws;
mod output;
mod reader;
mod session;
mod turns;

pub use calls::FileCalls;
pub use output::print;
pub use reader::{Found, LineReader, Stopped};
pub use session::{Ended, run_session};
