//! A space for tests: bytes in memory that tell nothing, and whose k-th call fails.

#![tactic(auto)]

ghost use Rattle.std.specs.Prelude.{◌≡◌, ◌≤◌, ◌^◌, ◌+◌, length};

use cg_io::{ReadBytes, ReadFault, Space, SpaceFault};
use std::alloc::{AllocError, Global};

/// Bytes in memory that tell nothing.
#[derive(Drop)]
pub struct Bytes {
    held: Vec<u8>,
    /// How many calls were made.
    pub calls: u64,
    /// The number of the call that fails, counted from 1; 0 for none.
    pub failing: u64,
    /// Whether memory is wanting where a write fails, and not the device below.
    pub memory: bool,
    /// How often the device below failed.
    pub faults: u64,
}

impl Bytes {
    /// No bytes, and room for so many.
    pub fn with_room(alloc: Global, length: usize) -> Result<Bytes, AllocError> {
        Ok(Bytes {
            held: Vec::with_capacity(alloc, length)?,
            calls: 0,
            failing: 0,
            memory: false,
            faults: 0,
        })
    }

    /// The same bytes, of which no call fails.
    pub fn copy(&self, alloc: Global) -> Result<Bytes, AllocError> {
        Ok(Bytes {
            held: self.held.to_vec(alloc)?,
            calls: 0,
            failing: 0,
            memory: false,
            faults: 0,
        })
    }

    /// Puts bytes at a place, and tells whether there was room.
    pub fn put(&mut self, at: u64, bytes: &[u8]) -> bool {
        if at >= 1 << 24 || bytes.len() >= 1 << 24 {
            return false;
        }
        overwrite(&mut self.held, at as usize, bytes).is_ok()
    }

    /// So many bytes at a place, by one call.
    pub fn bytes_at<const N: usize>(&mut self, at: u64) -> Option<[u8; N]> {
        if at >= 1 << 24 || N >= 1 << 20 {
            return None;
        }
        let mut bytes = [0u8; N];
        match self.read(at, &mut bytes) {
            Ok(()) => Some(bytes),
            Err(_) => None,
        }
    }

    /// Whether these bytes stand at a place.
    pub fn holds(&self, at: u64, bytes: &[u8]) -> bool {
        let mut k = at as usize;
        for b in bytes {
            if self.held.get(k).copied().unwrap_or(0) != *b {
                return false;
            }
            k = k.saturating_add(1);
        }
        true
    }

    /// Whether it has the bytes of another but in some ranges, and is as long.
    pub fn differs_within(&self, other: &Bytes, ranges: &[(u64, u64)]) -> bool {
        if self.held.len() != other.held.len() {
            return false;
        }
        for (k, (one, another)) in self.held.iter().zip(other.held.iter()).enumerate() {
            if one != another && !is_in(ranges, k as u64) {
                return false;
            }
        }
        true
    }

    // Counts a call, and whether it is to fail.
    fn fails(&mut self) -> bool
        ensures { self.new.faults ≡ self.old.faults }
    {
        self.calls = self.calls.saturating_add(1);
        self.calls == self.failing
    }
}

// Whether a place is in one of some ranges, each with its first place and the one behind its last.
fn is_in(ranges: &[(u64, u64)], place: u64) -> bool {
    for (from, to) in ranges {
        if *from <= place && place < *to {
            return true;
        }
    }
    false
}

impl ReadBytes for Bytes {
    ghost use Rattle.std.specs.Prelude.{None, []};

    ghost image = { λ _. None };

    ghost state = { λ s. record { held = None; faults = s.faults; lost = 0; reads = 0; writes = 0 } };

    ghost is_sound = { λ _. Unit {0} };

    ghost waiting = { λ _. [] };

    fn read(&mut self, place: u64, into: &mut [u8]) -> Result<(), ReadFault> {
        if self.fails() {
            self.faults = self.faults.saturating_add(1);
            return Err(ReadFault);
        }
        let mut at = place as usize;
        for b in into.iter_mut() {
            *b = self.held.get(at).copied().unwrap_or(0);
            at = at.saturating_add(1);
        }
        Ok(())
    }
}

impl Space for Bytes {
    fn write(&mut self, place: u64, from: &[u8]) -> Result<(), SpaceFault> {
        if self.fails() {
            if self.memory {
                return Err(SpaceFault::Memory);
            }
            self.faults = self.faults.saturating_add(1);
            return Err(SpaceFault::Read);
        }
        match overwrite(&mut self.held, place as usize, from) {
            Ok(()) => Ok(()),
            Err(_) => Err(SpaceFault::Memory),
        }
    }
}

// Puts bytes at a place.
fn overwrite(held: &mut Vec<u8>, at: usize, from: &[u8]) -> Result<(), AllocError>
    requires { at + length from.now ≤ 2 ^ 45 }
{
    let end = at + from.len();
    if held.len() < end {
        held.resize(end, 0)?;
    }
    for (i, b) in from.iter().enumerate() {
        if at + i < held.len() {
            held[at + i] = *b;
        }
    }
    Ok(())
}
