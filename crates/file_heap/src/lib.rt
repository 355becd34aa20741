//! The free space of a file: gaps by place, the last byte, and the three lists of free chunks that the bytes thread.
//!
//! The gaps stand in memory, each free chunk with its spot in the lists, so that no list is walked in the space. The bytes of the
//! free chunks, of the fillers, of the free table and of the end pointer stand in a space, which each call is lent.
#![tactic(auto)]

mod give;
mod heap;
pub mod laws;
mod links;
mod lists;
mod reading;
mod slots;
mod take;

pub use heap::Heap;
