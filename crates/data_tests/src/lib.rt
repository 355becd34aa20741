//! Tests of the data of a node over files made by hand.
#![tactic(auto)]

#[cfg(test)]
mod faults;
#[cfg(test)]
mod images;
#[cfg(test)]
mod steps;
#[cfg(test)]
mod tests;
