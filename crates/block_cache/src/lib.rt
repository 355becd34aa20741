//! A device with copies of the blocks that were used last.
//!
//! A block that is kept is read without the device, in constant time. A write goes to the device first, so that a block
//! that is kept is never newer than the device. The memory is bounded by the capacity and one block more, and a cache that is
//! full takes none.
#![tactic(auto)]

mod cache;
mod entries;

pub use cache::BlockCache;
