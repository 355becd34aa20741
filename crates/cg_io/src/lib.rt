//! Devices, sources and sinks.
#![tactic(auto)]

mod access;
mod blocks;
mod boxed;
mod bytes;
mod device;
mod memory;
mod memory_stream;
mod pages;
mod space;
mod stream;

pub use access::{read_bytes, write_bytes};
pub use blocks::{BlockFault, Blocks};
pub use boxed::BoxedDevice;
pub use bytes::overwrite;
pub use device::{Device, DeviceFault};
pub use memory::MemoryDevice;
pub use memory_stream::{MemorySink, MemorySource};
pub use pages::{Page, Pages, read_at, turn_to};
pub use space::{ReadBytes, ReadFault, Space, SpaceFault};
pub use stream::{Sink, Source, StreamFault};
