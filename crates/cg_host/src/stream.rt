//! Standard input and output.

ghost use Rattle.std.specs.Prelude.{◌≡◌, None};
ghost use Rattle.std.specs.Io.{ReadsAtMost};

use cg_io::{Sink, Source, StreamFault};
use std::io;
use std::io::{ErrorKind, Read, Write};

/// Standard input.
#[derive(Drop)]
pub struct HostSource<R: Input + Clone + Drop> {
    rt: R,
    faults: u64,
}

impl<R: Input + Clone + Drop> HostSource<R> {
    ghost use Rattle.cg_host.specs.Host.{source_faults};

    /// The standard input of this runtime.
    pub fn new(rt: R) -> HostSource<R>
        ensures { source_faults result ≡ 0 }
    {
        HostSource { rt, faults: 0 }
    }
}

// Reads once more where a signal came in between.
fn read_some<R: Read>(reader: &mut R, into: &mut [u8]) -> io::Result<usize>
    ensures { ReadsAtMost result into.new }
{
    for _ in 0..u64::MAX {
        match reader.read(into) {
            Err(error) if error.kind() == ErrorKind::Interrupted => {}
            outcome => return outcome,
        }
    }
    Err(io::Error::from(ErrorKind::TimedOut))
}

impl<R: Input + Clone + Drop> Source for HostSource<R> {
    ghost use Rattle.cg_host.specs.Host.{source_faults};

    ghost left = { λ _. None };

    ghost faults = { source_faults };

    fn take(&mut self, into: &mut [u8]) -> Result<usize, StreamFault> {
        match read_some(&mut self.rt.reader(), into) {
            Ok(count) => Ok(count),
            Err(_) => {
                self.faults = self.faults.saturating_add(1);
                Err(StreamFault)
            }
        }
    }
}

/// Standard output.
#[derive(Drop)]
pub struct HostSink<R: Print + Clone + Drop> {
    rt: R,
    faults: u64,
}

impl<R: Print + Clone + Drop> HostSink<R> {
    ghost use Rattle.cg_host.specs.Host.{sink_faults};

    /// The standard output of this runtime.
    pub fn new(rt: R) -> HostSink<R>
        ensures { sink_faults result ≡ 0 }
    {
        HostSink { rt, faults: 0 }
    }
}

impl<R: Print + Clone + Drop> Sink for HostSink<R> {
    ghost use Rattle.cg_host.specs.Host.{sink_faults};

    ghost taken = { λ _. None };

    ghost faults = { sink_faults };

    fn put(&mut self, from: &[u8]) -> Result<usize, StreamFault> {
        if from.is_empty() {
            return Ok(0);
        }
        match io::writer(&self.rt).write(from) {
            Ok(count) if count > 0 => Ok(count),
            _ => {
                self.faults = self.faults.saturating_add(1);
                Err(StreamFault)
            }
        }
    }
}
