//! What the linter says of the bytes of a space.
ghost use Rattle.std.specs.Prelude.{◌≤◌, ◌^◌};

use adf_model::{AdfError, Text};
use cg_io::{BlockFault, Blocks, Device, MemoryDevice, ReadBytes};
use layout_lint::{Verdict, lint};
use std::alloc::Global;
use test_spaces::Bytes;

/// The blocks of a device, with nothing between.
#[derive(Drop)]
struct Plain<D: Device> {
    device: D,
}

impl<D: Device> Blocks for Plain<D> {
    ghost state = { λ p. D.state p.device };

    ghost is_sound = { λ _. Unit {0} };

    fn length(&mut self) -> Result<u64, BlockFault> {
        self.device.length().map_err(|_| BlockFault::Read)
    }

    fn read_block(&mut self, n: u32, into: &mut [u8; 4096]) -> Result<(), BlockFault> {
        self.device
            .read_block(n, into)
            .map_err(|_| BlockFault::Read)
    }

    fn write_block(&mut self, n: u32, from: &[u8; 4096]) -> Result<(), BlockFault> {
        self.device
            .write_block(n, from)
            .map_err(|_| BlockFault::Write)
    }
}

// All bytes of a space up to a last one.
fn bytes_to(alloc: Global, space: &Bytes, end: u64) -> Result<Vec<u8>, AdfError> {
    if end >= 1 << 20 {
        return Err(AdfError::Memory);
    }
    let mut copy = space.copy(alloc).map_err(|_| AdfError::Memory)?;
    let mut bytes = Vec::new(alloc);
    if bytes.resize(end as usize + 1, 0).is_err() {
        return Err(AdfError::Memory);
    }
    match copy.read(0, &mut bytes) {
        Ok(()) => Ok(bytes),
        Err(_) => Err(AdfError::ReadFault),
    }
}

/// Whether the linter finds the bytes up to a last one sound.
pub fn is_sound(alloc: Global, space: &Bytes, end: u64) -> Result<bool, AdfError> {
    let bytes = bytes_to(alloc, space, end)?;
    if bytes.len() > 1 << 24 {
        return Err(AdfError::Memory);
    }
    let mut blocks = Plain {
        device: MemoryDevice::new(alloc, Text::new(bytes)),
    };
    match lint(alloc, &mut blocks)? {
        Verdict::Sound { .. } => Ok(true),
        Verdict::Unsound { .. } => Ok(false),
    }
}
