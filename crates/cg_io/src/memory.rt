// A device in memory, whose calls fail where they are told to.
ghost use Rattle.std.specs.Prelude.{◌≡◌, ◌⊎◌, ◌↔◌, ◌^◌, ◌≤◌, ◌<◌, ◌+◌, ◌*◌, ◌++◌, [], ◌∷◌, max, length, true, false, Some, None, IfOk, IfSome, OnOk, OnErr, IsErr, IfErr, IsSome, Contains};
ghost use Rattle.cg_io.specs.Cause.{HasCause, raised};
ghost use Rattle.cg_io.specs.Device.{Reads, Writes, Gives, with_block, Tears, overwritten};
ghost use Rattle.cg_io.specs.Memory.{device_of, kept_of, LeavesTorn, CountsFailures};

use crate::bytes::{read_at, store, tear};
use crate::{Device, DeviceFault};
use adf_model::{AdfError, Text};
use std::alloc::Global;
use std::marker::Model;

/// A device in memory.
#[derive(Drop)]
pub struct MemoryDevice {
    bytes: Vec<u8>,
    failing_reads: Vec<u64>,
    failing_writes: Vec<(u64, u16)>,
    faults: u64,
    lost: u64,
    reads: u64,
    writes: u64,
}

impl Model for MemoryDevice {
    ghost use Rattle.std.specs.Prelude.{◌≤◌, ◌^◌, length};
    ghost use Rattle.cg_io.specs.Memory.{MemoryState};

    ghost Value = { MemoryState };

    ghost view = { λ m. record {
      bytes = m.bytes.items;
      faults = m.faults;
      lost = m.lost;
      reads = m.reads;
      writes = m.writes;
      failing_reads = m.failing_reads.items;
      failing_writes = m.failing_writes.items;
    } };

    ghost invariant = { λ m. length m.bytes.items ≤ 2 ^ 44 };
}

impl MemoryDevice {
    /// A device of these bytes, none of whose calls is to fail.
    pub fn new(alloc: Global, bytes: Text) -> MemoryDevice
        requires { length bytes ≤ 2 ^ 44 }
        ensures { result ≡ record {
          bytes = bytes;
          faults = 0;
          lost = 0;
          reads = 0;
          writes = 0;
          failing_reads = [];
          failing_writes = [];
        } }
    {
        MemoryDevice {
            bytes: bytes.into_items(),
            failing_reads: Vec::new(alloc),
            failing_writes: Vec::new(alloc),
            faults: 0,
            lost: 0,
            reads: 0,
            writes: 0,
        }
    }

    /// Lists the k-th read, from 1, to fail.
    pub fn fail_read(&mut self, k: u64) -> Result<(), AdfError>
        ensures ok { OnOk result (self.new
            ≡ record self.old { failing_reads = self.old.failing_reads ++ k ∷ [] }) }
        ensures err { OnErr result (self.new ≡ self.old) }
        ensures memory { IfErr result (λ e. e ≡ AdfError.Memory) }
    {
        self.failing_reads.push(k).map_err(|_| AdfError::Memory)?;
        Ok(())
    }

    /// Lists the k-th write, from 1, to fail after these first bytes of its block.
    pub fn fail_write(&mut self, k: u64, kept: u16) -> Result<(), AdfError>
        requires { kept ≤ 4096 }
        ensures ok { OnOk result (self.new
            ≡ record self.old { failing_writes = self.old.failing_writes ++ (k, kept) ∷ [] }) }
        ensures err { OnErr result (self.new ≡ self.old) }
        ensures memory { IfErr result (λ e. e ≡ AdfError.Memory) }
    {
        self.failing_writes
            .push((k, kept))
            .map_err(|_| AdfError::Memory)?;
        Ok(())
    }

    pub fn reads(&self) -> u64
        ensures { result ≡ self.now.reads }
    {
        self.reads
    }

    pub fn writes(&self) -> u64
        ensures { result ≡ self.now.writes }
    {
        self.writes
    }

    /// The bytes that it holds.
    pub fn held(&self) -> &[u8]
        ensures { result.now ≡ self.now.bytes }
    {
        &self.bytes
    }

    // Counts a read, and whether it is to fail.
    fn count_read(&mut self) -> Result<(), DeviceFault>
        ensures effect { Reads (device_of self.old) (device_of self.new) }
        ensures bytes { self.new.bytes ≡ self.old.bytes }
        ensures cause { HasCause self.old.faults self.new.faults result }
        ensures fails { IsErr result ↔ Contains self.old.failing_reads (raised self.old.reads) }
        ensures counts { CountsFailures self.old.faults self.new.faults result }
        ensures lists { (self.new.failing_reads ≡ self.old.failing_reads)
            × (self.new.failing_writes ≡ self.old.failing_writes) }
    {
        self.reads = self.reads.saturating_add(1);
        if self.failing_reads.contains(&self.reads) {
            self.faults = self.faults.saturating_add(1);
            return Err(DeviceFault);
        }
        Ok(())
    }
}

// How much the write of this number keeps, where it is to fail.
fn kept_by(entries: &[(u64, u16)], k: u64) -> Option<u16>
    ensures { result ≡ kept_of entries.now k }
{
    entries.iter().rev().find(|e| e.0 == k).map(|e| e.1)
}

impl Device for MemoryDevice {
    ghost use Rattle.cg_io.specs.Memory.{device_of};

    ghost state = { device_of };

    fn length(&mut self) -> Result<u64, DeviceFault>
        ensures bound { IfOk result (λ n. n ≤ 2 ^ 44) }
        ensures told { IfOk result (λ n. n ≡ length self.old.bytes) }
        ensures effect { Reads (device_of self.old) (device_of self.new) }
        ensures cause { HasCause self.old.faults self.new.faults result }
        ensures fails { IsErr result ↔ Contains self.old.failing_reads (raised self.old.reads) }
        ensures counts { CountsFailures self.old.faults self.new.faults result }
        ensures lists { (self.new.failing_reads ≡ self.old.failing_reads)
            × (self.new.failing_writes ≡ self.old.failing_writes) }
    {
        self.count_read()?;
        Ok(self.bytes.len() as u64)
    }

    fn read_block(&mut self, n: u32, into: &mut [u8; 4096]) -> Result<(), DeviceFault>
        ensures told { OnOk result (Gives (Some self.old.bytes) n into.new) }
        ensures effect { Reads (device_of self.old) (device_of self.new) }
        ensures cause { HasCause self.old.faults self.new.faults result }
        ensures fails { IsErr result ↔ Contains self.old.failing_reads (raised self.old.reads) }
        ensures counts { CountsFailures self.old.faults self.new.faults result }
        ensures lists { (self.new.failing_reads ≡ self.old.failing_reads)
            × (self.new.failing_writes ≡ self.old.failing_writes) }
    {
        self.count_read()?;
        read_at(&self.bytes, n as usize * 4096, into);
        Ok(())
    }

    fn write_block(&mut self, n: u32, from: &[u8; 4096]) -> Result<(), DeviceFault>
        ensures written { OnOk result (Some self.new.bytes
            ≡ with_block (Some self.old.bytes) n from.now) }
        ensures torn { OnErr result (Tears (Some self.old.bytes) n (Some self.new.bytes)) }
        ensures effect { Writes (device_of self.old) (device_of self.new) }
        ensures cause { HasCause self.old.faults self.new.faults result }
        ensures lost { HasCause self.old.lost self.new.lost result }
        ensures counts { CountsFailures self.old.faults self.new.faults result
            × CountsFailures self.old.lost self.new.lost result }
        ensures listed { IfSome (kept_of self.old.failing_writes (raised self.old.writes))
            (λ kept. IsErr result
            × LeavesTorn self.old.bytes (n * 4096) from.now kept self.new.bytes) }
        ensures unlisted { IsErr result → kept_of self.old.failing_writes (raised self.old.writes)
            ≡ None → self.new.bytes ≡ self.old.bytes }
        ensures fails { IsErr result → IsSome (kept_of self.old.failing_writes
            (raised self.old.writes)) ⊎ (length self.old.bytes < n * 4096 + 4096) }
        ensures lists { (self.new.failing_reads ≡ self.old.failing_reads)
            × (self.new.failing_writes ≡ self.old.failing_writes) }
    {
        self.writes = self.writes.saturating_add(1);
        let at = n as usize * 4096;
        let kept = kept_by(&self.failing_writes, self.writes);
        if write_or_tear(&mut self.bytes, at, from, kept) {
            return Ok(());
        }
        self.faults = self.faults.saturating_add(1);
        self.lost = self.lost.saturating_add(1);
        Err(DeviceFault)
    }
}

// Writes the block, or what it keeps of it; whether it was written.
fn write_or_tear(bytes: &mut Vec<u8>, at: usize, from: &[u8; 4096], kept: Option<u16>) -> bool
    requires small { at ≤ 2 ^ 44 }
    ensures written { result ≡ true → (bytes.new.items ≡ overwritten bytes.old.items at from.now)
        × (kept ≡ None) }
    ensures listed { IfSome kept (λ k. (result ≡ false)
        × LeavesTorn bytes.old.items at from.now k bytes.new.items) }
    ensures len { length bytes.new.items ≤ max (length bytes.old.items) (at + 4096) }
    ensures none { result ≡ false → kept ≡ None
        → (bytes.new.items ≡ bytes.old.items) × (length bytes.old.items < at + 4096) }
{
    match kept {
        None => store(bytes, at, from).is_ok(),
        Some(kept) => {
            tear(bytes, at, from, kept);
            false
        }
    }
}
