//! The lines that tell of each node of a file, in tree order.

#![tactic(auto)]

mod fault;
mod fields;
mod frame;
pub mod laws;
mod lines;
mod report;
mod sight;
mod stack;

pub use fault::TreeFault;
pub use report::tree;
