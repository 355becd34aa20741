//! The rules of the checker that a seen node breaks, rising, over any trees.

#![tactic(auto)]

mod broken_rules;
mod element_rules;

pub use broken_rules::{broken, broken_by, broken4};
