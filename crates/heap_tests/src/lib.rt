//! Tests of the heap over files made by hand.
#![tactic(auto)]

#[cfg(test)]
mod conditions;
#[cfg(test)]
mod faults;
#[cfg(test)]
mod files;
#[cfg(test)]
mod lists;
#[cfg(test)]
mod steps;
#[cfg(test)]
mod tests;
#[cfg(test)]
mod trees;
