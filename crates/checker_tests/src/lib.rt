//! Tests of the checker: its tables, and its rules over plain values, in a crate of their own, so that these libraries are
//! not proved again for their tests. What a test asks stands in helpers without clauses, which ask what a call requires.

#![tactic(auto)]

#[cfg(test)]
mod checks;
#[cfg(test)]
mod offset_rules;
#[cfg(test)]
mod plain_rules;
#[cfg(test)]
mod plain_trees;
#[cfg(test)]
mod single_rules;
#[cfg(test)]
mod tables;
#[cfg(test)]
mod tree_rules;
#[cfg(test)]
mod views;
#[cfg(test)]
mod walks;
