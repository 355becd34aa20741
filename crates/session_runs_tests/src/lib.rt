//! Sessions over two files: random lines, each reply of which is what a plain model of the files answers, and the lines of a
//! linked pair of files where a call of a device or of a stream fails.

#![tactic(auto)]

#[cfg(test)]
mod calls;
#[cfg(test)]
mod draws;
#[cfg(test)]
mod edits;
#[cfg(test)]
mod faults;
#[cfg(test)]
mod files;
#[cfg(test)]
mod nodes;
#[cfg(test)]
mod random;
#[cfg(test)]
mod runs;
#[cfg(test)]
mod tables;
