//! Tests of the linter and of its reports, over files that are written out as tables.
//!
//! They stand outside the crates that they test, so that a change of a test proves none of those again.

#![tactic(auto)]

#[cfg(test)]
mod layouts;
#[cfg(test)]
mod reports;
#[cfg(test)]
mod rules;
