//! Tests of the codecs of a file's records and of the laws of the format, in a crate of their own: these libraries are not
//! proved again for their tests. What a test asks stands in helpers without clauses, which ask what a call requires.

#![tactic(auto)]

#[cfg(test)]
mod chunks;
#[cfg(test)]
mod format;
#[cfg(test)]
mod layouts;
#[cfg(test)]
mod links;
#[cfg(test)]
mod model;
#[cfg(test)]
mod pointers;
#[cfg(test)]
mod records;
#[cfg(test)]
mod selections;
