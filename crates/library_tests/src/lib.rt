//! Tests of a library of files: links from one file to another, walks as long as they may be, and openings in each
//! mode, and groups of edits, over devices in memory.

#![tactic(auto)]

#[cfg(test)]
mod calls;
#[cfg(test)]
mod files;
#[cfg(test)]
mod groups;
#[cfg(test)]
mod links;
#[cfg(test)]
mod openings;
#[cfg(test)]
mod steps;
