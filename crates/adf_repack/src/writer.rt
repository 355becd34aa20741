//! Bytes that are appended to an empty device, and written to it block by block.

ghost use Rattle.std.specs.Prelude.{◌≡◌, ◌+◌, ◌-◌, ◌*◌, ◌^◌, ◌≤◌, ◌<◌, ◌++◌, [], min, length, take, replicate, IfOk, IfSome, OnOk};
ghost use Rattle.std.specs.Option.{option_map};
ghost use Rattle.cg_io.specs.Cause.{HasCause};
ghost use Rattle.adf_repack.specs.Writers.{tail_bytes, device_under, state_under, blocks_in, count_in, appended_in, with_more, IsWriter, OnlyWrites, WritesBlocks, blocks_for, in_blocks};

use cg_io::{Device, DeviceFault};

// The bytes that wait for the rest of their block.
#[derive(Drop)]
struct Tail {
    block: [u8; 4096],
    filled: usize,
}

impl Tail {
    fn new() -> Tail
        ensures { result.filled ≡ 0 }
    {
        Tail {
            block: [0; 4096],
            filled: 0,
        }
    }

    // Takes the first bytes, as many as the block has room for, and says how many.
    fn put(&mut self, bytes: &[u8]) -> usize
        requires { self.old.filled ≤ 4096 }
        ensures count { result ≡ min (4096 - self.old.filled) (length bytes.now) }
        ensures filled { self.new.filled ≡ self.old.filled + result }
        ensures bytes { tail_bytes self.new ≡ tail_bytes self.old ++ take result bytes.now }
    {
        let count = (4096 - self.filled).min(bytes.len());
        let end = self.filled + count;
        self.block[self.filled..end].copy_from_slice(&bytes[..count]);
        self.filled = end;
        count
    }

    // Fills the rest of the block with zeros.
    fn put_zeros(&mut self)
        requires { self.old.filled ≤ 4096 }
        ensures filled { self.new.filled ≡ 4096 }
        ensures bytes { tail_bytes self.new
            ≡ tail_bytes self.old ++ replicate (4096 - self.old.filled) 0 }
    {
        let zeros = [0u8; 4096];
        let rest = 4096 - self.filled;
        let _ = self.put(&zeros[..rest]);
    }
}

/// Bytes that are appended to an empty device.
///
/// Each block is written once, when all its bytes are there, and the blocks are written in ascending order. The device is
/// not read. After a failed write it holds any bytes, and nothing more can be appended.
#[derive(Drop)]
pub struct BlockWriter<E: Device> {
    device: E,
    tail: Tail,
    // How many blocks were written.
    blocks: u64,
}

impl<E: Device> BlockWriter<E> {
    /// A writer by which nothing was appended yet.
    pub fn new(device: E) -> BlockWriter<E>
        ensures device { device_under result ≡ device }
        ensures none { count_in result ≡ 0 }
        ensures appended { appended_in E.state result ≡ (E.state device).held }
        ensures sound { IfSome (E.state device).held (λ held. held ≡ []) → IsWriter E.state result }
    {
        BlockWriter {
            device,
            tail: Tail::new(),
            blocks: 0,
        }
    }

    /// The device below.
    pub fn into_device(self) -> E
        ensures { result ≡ device_under self }
    {
        let BlockWriter {
            device,
            tail: _,
            blocks: _,
        } = self;
        device
    }

    /// How many bytes were appended.
    pub fn count(&self) -> u64
        requires { IsWriter E.state self.now }
        ensures { result ≡ count_in self.now }
    {
        self.blocks * 4096 + self.tail.filled as u64
    }

    /// Appends bytes, and writes the blocks that are full then.
    pub fn append(&mut self, bytes: &[u8]) -> Result<(), DeviceFault>
        requires sound { IsWriter E.state self.old }
        requires within { count_in self.old + length bytes.now ≤ 2 ^ 44 }
        ensures sound { OnOk result (IsWriter E.state self.new) }
        ensures appended { OnOk result (appended_in E.state self.new
            ≡ with_more (appended_in E.state self.old) bytes.now) }
        ensures count { OnOk result (count_in self.new ≡ count_in self.old + length bytes.now) }
        ensures wrote { OnOk result (WritesBlocks (blocks_in self.old) (blocks_in self.new)
            (state_under E.state self.old) (state_under E.state self.new)) }
        ensures effect { OnlyWrites (state_under E.state self.old) (state_under E.state self.new) }
        ensures cause { HasCause (state_under E.state self.old).faults
            (state_under E.state self.new).faults result }
        ensures lost { HasCause (state_under E.state self.old).lost
            (state_under E.state self.new).lost result }
    {
        let mut done = 0;
        while done < bytes.len() {
            match self.append_some(&bytes[done..]) {
                Ok(count) => done += count,
                Err(fault) => return Err(fault),
            }
        }
        Ok(())
    }

    /// Writes the bytes that wait, with zeros up to the end of their block. Nothing is appended after that.
    pub fn finish(&mut self) -> Result<(), DeviceFault>
        requires sound { IsWriter E.state self.old }
        ensures held { OnOk result ((state_under E.state self.new).held
            ≡ option_map in_blocks (appended_in E.state self.old)) }
        ensures wrote { OnOk result (WritesBlocks (blocks_in self.old)
            (blocks_for (count_in self.old)) (state_under E.state self.old)
            (state_under E.state self.new)) }
        ensures effect { OnlyWrites (state_under E.state self.old) (state_under E.state self.new) }
        ensures cause { HasCause (state_under E.state self.old).faults
            (state_under E.state self.new).faults result }
        ensures lost { HasCause (state_under E.state self.old).lost
            (state_under E.state self.new).lost result }
    {
        if self.tail.filled == 0 {
            return Ok(());
        }
        self.tail.put_zeros();
        self.write_block()
    }

    // Appends the first bytes, up to the end of the block, and says how many.
    fn append_some(&mut self, bytes: &[u8]) -> Result<usize, DeviceFault>
        requires sound { IsWriter E.state self.old }
        requires some { 1 ≤ length bytes.now }
        requires within { count_in self.old + length bytes.now ≤ 2 ^ 44 }
        ensures sound { OnOk result (IsWriter E.state self.new) }
        ensures some { IfOk result (λ n. (1 ≤ n) × (n ≤ length bytes.now)) }
        ensures appended { IfOk result (λ n. appended_in E.state self.new
            ≡ with_more (appended_in E.state self.old) (take n bytes.now)) }
        ensures count { IfOk result (λ n. count_in self.new ≡ count_in self.old + n) }
        ensures wrote { OnOk result (WritesBlocks (blocks_in self.old) (blocks_in self.new)
            (state_under E.state self.old) (state_under E.state self.new)) }
        ensures effect { OnlyWrites (state_under E.state self.old) (state_under E.state self.new) }
        ensures cause { HasCause (state_under E.state self.old).faults
            (state_under E.state self.new).faults result }
        ensures lost { HasCause (state_under E.state self.old).lost
            (state_under E.state self.new).lost result }
    {
        let count = self.tail.put(bytes);
        if self.tail.filled == 4096 {
            match self.write_block() {
                Ok(()) => {}
                Err(fault) => return Err(fault),
            }
        }
        Ok(count)
    }

    // Writes the block, which is full.
    fn write_block(&mut self) -> Result<(), DeviceFault>
        requires full { self.old.tail.filled ≡ 4096 }
        requires whole { IfSome (state_under E.state self.old).held (λ held. length held
            ≡ blocks_in self.old * 4096) }
        requires within { blocks_in self.old < 2 ^ 32 }
        ensures held { OnOk result ((state_under E.state self.new).held
            ≡ appended_in E.state self.old) }
        ensures appended { OnOk result (appended_in E.state self.new
            ≡ appended_in E.state self.old) }
        ensures whole { OnOk result (IfSome (state_under E.state self.new).held (λ held. length held
            ≡ blocks_in self.new * 4096)) }
        ensures empty { OnOk result (self.new.tail.filled ≡ 0) }
        ensures blocks { OnOk result (blocks_in self.new ≡ blocks_in self.old + 1) }
        ensures wrote { OnOk result (WritesBlocks (blocks_in self.old) (blocks_in self.old + 1)
            (state_under E.state self.old) (state_under E.state self.new)) }
        ensures effect { OnlyWrites (state_under E.state self.old) (state_under E.state self.new) }
        ensures cause { HasCause (state_under E.state self.old).faults
            (state_under E.state self.new).faults result }
        ensures lost { HasCause (state_under E.state self.old).lost
            (state_under E.state self.new).lost result }
    {
        match self
            .device
            .write_block(self.blocks as u32, &self.tail.block)
        {
            Ok(()) => {
                self.tail.filled = 0;
                self.blocks += 1;
                Ok(())
            }
            Err(fault) => Err(fault),
        }
    }
}
