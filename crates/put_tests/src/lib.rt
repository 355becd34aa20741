//! Tests of the edits of the data of one file over a file made by hand.
#![tactic(auto)]

#[cfg(test)]
mod faults;
#[cfg(test)]
mod files;
#[cfg(test)]
mod lints;
#[cfg(test)]
mod steps;
#[cfg(test)]
mod tests;
