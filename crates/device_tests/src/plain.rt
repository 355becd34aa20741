//! Devices for tests, and their blocks with nothing between.
ghost use Rattle.std.specs.Prelude.{◌≤◌, ◌^◌};

use adf_model::{AdfError, Text};
use cg_io::{BlockFault, Blocks, Device, MemoryDevice};
use std::alloc::Global;

/// The blocks of a device, with nothing between.
#[derive(Drop)]
pub struct Plain<D: Device> {
    pub device: D,
}

impl<D: Device> Blocks for Plain<D> {
    ghost state = { λ p. D.state p.device };

    ghost is_sound = { λ _. Unit {0} };

    fn length(&mut self) -> Result<u64, BlockFault> {
        self.device.length().map_err(|_| BlockFault::Read)
    }

    fn read_block(&mut self, n: u32, into: &mut [u8; 4096]) -> Result<(), BlockFault> {
        self.device
            .read_block(n, into)
            .map_err(|_| BlockFault::Read)
    }

    fn write_block(&mut self, n: u32, from: &[u8; 4096]) -> Result<(), BlockFault> {
        self.device
            .write_block(n, from)
            .map_err(|_| BlockFault::Write)
    }
}

/// A device of so many bytes, each of which is this one.
pub fn device_of(alloc: Global, byte: u8, len: usize) -> Result<MemoryDevice, AdfError>
    requires { len ≤ 2 ^ 44 }
{
    let bytes = vec![in alloc; byte; len].map_err(|_| AdfError::Memory)?;
    Ok(MemoryDevice::new(alloc, Text::new(bytes)))
}

/// A device of three blocks, of bytes 1, 2 and 3.
pub fn three_blocks(alloc: Global) -> Result<MemoryDevice, AdfError> {
    let mut bytes = vec![in alloc; 1; 4096].map_err(|_| AdfError::Memory)?;
    bytes.resize(8192, 2).map_err(|_| AdfError::Memory)?;
    bytes.resize(12288, 3).map_err(|_| AdfError::Memory)?;
    Ok(MemoryDevice::new(alloc, Text::new(bytes)))
}

/// A byte of a device, or 255 past its end.
pub fn byte_at(device: &MemoryDevice, place: usize) -> u8 {
    device.held().get(place).copied().unwrap_or(255)
}
