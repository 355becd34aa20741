//! Laws of layouts: an image lays out a tree exactly where it breaks no rule, and it lays out one tree at
//! one placement. Each law is the contract of a function that does nothing.

#![tactic(auto)]

pub mod laws;
pub mod passes;
