//! Tests of devices, sources and sinks, of caches, drafts and pages over them, and of fields and nodes read from bytes.
#![tactic(auto)]

#[cfg(test)]
mod caches;
#[cfg(test)]
mod drafts;
#[cfg(test)]
mod hosts;
#[cfg(test)]
mod memory;
#[cfg(test)]
mod nodes;
#[cfg(test)]
mod plain;
#[cfg(test)]
mod spaces;
#[cfg(test)]
mod streams;
