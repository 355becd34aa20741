//! Tests of the edits of one file over files made by hand.
#![tactic(auto)]

#[cfg(test)]
mod children;
#[cfg(test)]
mod faults;
#[cfg(test)]
mod files;
#[cfg(test)]
mod labels;
#[cfg(test)]
mod links;
#[cfg(test)]
mod moves;
#[cfg(test)]
mod names;
#[cfg(test)]
mod steps;
