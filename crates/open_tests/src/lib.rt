//! Tests of an open file over devices in memory: its edits in work and in groups, its questions, its openings, and failed writes.
#![tactic(auto)]

#[cfg(test)]
mod changes;
#[cfg(test)]
mod depths;
#[cfg(test)]
mod faults;
#[cfg(test)]
mod groups;
#[cfg(test)]
mod looks;
#[cfg(test)]
mod maps;
#[cfg(test)]
mod openings;
#[cfg(test)]
mod questions;
#[cfg(test)]
mod sessions;
#[cfg(test)]
mod steps;
#[cfg(test)]
mod works;
