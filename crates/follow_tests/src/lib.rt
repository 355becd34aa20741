//! Tests of links that are followed, of queries and of groups of edits, over files made by hand.

#![tactic(auto)]

#[cfg(test)]
mod asks;
#[cfg(test)]
mod edit_groups;
pub mod kept;
pub mod scripted;
#[cfg(test)]
mod walks;
