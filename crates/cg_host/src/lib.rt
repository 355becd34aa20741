//! Files and standard streams as devices, sources and sinks. They tell nothing of their bytes.
//! This is the trusted edge: that the bytes of a file or a stream are passed on is shown by tests.

#![tactic(auto)]

mod device;
mod stream;

pub use device::HostDevice;
pub use stream::{HostSink, HostSource};
