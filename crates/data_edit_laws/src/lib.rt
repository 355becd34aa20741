//! Laws of the edits of data of one file, from what the calls on data leave to what the file then holds.

#![tactic(auto)]

pub mod laws;
