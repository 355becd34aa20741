//! Tests of packed copies, over files that are written out as tables.
//!
//! They stand outside the crates that they test, so that a change of a test proves none of those again.

#![tactic(auto)]

#[cfg(test)]
mod copies;
#[cfg(test)]
mod damaged;
#[cfg(test)]
mod salvaged;
