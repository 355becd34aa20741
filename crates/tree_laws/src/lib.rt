//! Laws of edits: what becomes of a file in the midst of an edit, and what each edit and each group of edits leaves of
//! it. Each law is the contract of a function that does nothing: who calls it has the law.

#![tactic(auto)]

pub mod data_laws;
pub mod delete_laws;
pub mod edit_laws;
pub mod fact_laws;
pub mod group_laws;
pub mod holding_laws;
pub mod leaving_laws;
pub mod move_laws;
pub mod placed_laws;
pub mod reach_laws;
pub mod reading_laws;
pub mod whole_laws;
