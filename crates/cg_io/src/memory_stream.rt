// A source and a sink in memory, of which one call may be told to fail.
ghost use Rattle.std.specs.Prelude.{◌≡◌, ◌↔◌, ◌⊎◌, ◌<◌, ◌+◌, [], length, Some, None, IfOk, IsErr};
ghost use Rattle.std.specs.Io.{ReadsAtMost, WritesAtMost};
ghost use Rattle.std.specs.Io.KnownBytes.{ReadConsumes, WriteAppends};
ghost use Rattle.cg_io.specs.Cause.{HasCause, raised};
ghost use Rattle.cg_io.specs.Memory.{CountsFailures};

use crate::bytes::take_front;
use crate::{Sink, Source, StreamFault};
use adf_model::Text;
use std::alloc::Global;
use std::marker::Model;

/// A source of these bytes.
#[derive(Drop)]
pub struct MemorySource {
    bytes: Vec<u8>,
    at: usize,
    calls: u64,
    faults: u64,
    failing: Option<u64>,
}

impl Model for MemorySource {
    ghost use Rattle.std.specs.Prelude.{◌≤◌, length, drop};
    ghost use Rattle.cg_io.specs.Memory.{SourceState};

    ghost Value = { SourceState };

    ghost view = { λ s. record {
      left = drop s.at s.bytes.items;
      calls = s.calls;
      faults = s.faults;
      failing = s.failing;
    } };

    ghost invariant = { λ s. s.at ≤ length s.bytes.items };
}

impl MemorySource {
    pub fn new(bytes: Text) -> MemorySource
        ensures { result ≡ record { left = bytes; calls = 0; faults = 0; failing = None } }
    {
        MemorySource {
            bytes: bytes.into_items(),
            at: 0,
            calls: 0,
            faults: 0,
            failing: None,
        }
    }

    /// Makes the k-th call, from 1, the one that fails.
    pub fn fail_at(&mut self, k: u64)
        ensures { self.new ≡ record self.old { failing = Some k } }
    {
        self.failing = Some(k);
    }
}

impl Source for MemorySource {
    ghost left = { λ s. Some s.left };

    ghost faults = { λ s. s.faults };

    fn take(&mut self, into: &mut [u8]) -> Result<usize, StreamFault>
        ensures count { ReadsAtMost result into.new }
        ensures bytes { ReadConsumes (Some self.old.left) (Some self.new.left) result into.new }
        ensures cause { HasCause self.old.faults self.new.faults result }
        ensures fails { IsErr result ↔ (self.old.failing ≡ Some (raised self.old.calls)) }
        ensures counts { CountsFailures self.old.faults self.new.faults result }
        ensures calls { self.new.calls ≡ raised self.old.calls }
        ensures same { self.new.failing ≡ self.old.failing }
    {
        self.calls = self.calls.saturating_add(1);
        if self.failing == Some(self.calls) {
            self.faults = self.faults.saturating_add(1);
            return Err(StreamFault);
        }
        let count = take_front(&self.bytes[self.at..], into);
        self.at += count;
        Ok(count)
    }
}

/// A sink that keeps what it takes. A call that is not the one to fail fails only where it finds no memory for what it is to
/// take.
#[derive(Drop)]
pub struct MemorySink {
    taken: Vec<u8>,
    calls: u64,
    faults: u64,
    failing: Option<u64>,
}

impl Model for MemorySink {
    ghost use Rattle.std.specs.Prelude.{vec_capacity};
    ghost use Rattle.cg_io.specs.Memory.{SinkState};

    ghost Value = { SinkState };

    ghost view = { λ s. record {
      taken = s.taken.items;
      room = vec_capacity s.taken;
      calls = s.calls;
      faults = s.faults;
      failing = s.failing;
    } };
}

impl MemorySink {
    pub fn new(alloc: Global) -> MemorySink
        ensures taken { result.taken ≡ [] }
        ensures counts { (result.calls ≡ 0) × (result.faults ≡ 0) }
        ensures failing { result.failing ≡ None }
    {
        MemorySink {
            taken: Vec::new(alloc),
            calls: 0,
            faults: 0,
            failing: None,
        }
    }

    /// Makes the k-th call, from 1, the one that fails.
    pub fn fail_at(&mut self, k: u64)
        ensures { self.new ≡ record self.old { failing = Some k } }
    {
        self.failing = Some(k);
    }

    /// The bytes that it took.
    pub fn taken(&self) -> &[u8]
        ensures { result.now ≡ self.now.taken }
    {
        &self.taken
    }
}

impl Sink for MemorySink {
    ghost taken = { λ s. Some s.taken };

    ghost faults = { λ s. s.faults };

    fn put(&mut self, from: &[u8]) -> Result<usize, StreamFault>
        ensures count { WritesAtMost result from.now }
        ensures some { IfOk result (λ n. 0 < length from.now → 0 < n) }
        ensures bytes { WriteAppends (Some self.old.taken) (Some self.new.taken) result from.now }
        ensures cause { HasCause self.old.faults self.new.faults result }
        ensures listed { self.old.failing ≡ Some (raised self.old.calls) → IsErr result }
        ensures fails { IsErr result → (self.old.failing ≡ Some (raised self.old.calls))
            ⊎ (self.old.room < length self.old.taken + length from.now) }
        ensures counts { CountsFailures self.old.faults self.new.faults result }
        ensures calls { self.new.calls ≡ raised self.old.calls }
        ensures same { self.new.failing ≡ self.old.failing }
    {
        self.calls = self.calls.saturating_add(1);
        if self.failing == Some(self.calls) || self.taken.extend_from_slice(from).is_err() {
            self.faults = self.faults.saturating_add(1);
            return Err(StreamFault);
        }
        Ok(from.len())
    }
}
