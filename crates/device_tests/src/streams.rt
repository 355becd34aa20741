//! What a source and a sink in memory do, call by call.

use adf_model::{AdfError, Text};
use cg_io::{MemorySink, MemorySource, Sink, Source};
use std::alloc::Global;
use std::test::Fail;

/// What a call of a source for three bytes gives: some bytes, or a fault.
#[derive(Clone, Copy)]
enum TakeStep {
    Gives(&'static [u8]),
    Fails,
}

/// A call of a sink: the bytes that it takes, or does not.
#[derive(Clone, Copy)]
enum PutStep {
    Takes(&'static [u8]),
    Fails(&'static [u8]),
}

fn take(source: &mut MemorySource, wanted: TakeStep) -> bool {
    let mut piece = [0u8; 3];
    match (source.take(&mut piece), wanted) {
        (Ok(count), TakeStep::Gives(bytes)) => {
            count == bytes.len() && count <= 3 && &piece[..count] == bytes
        }
        (Err(_), TakeStep::Fails) => true,
        _ => false,
    }
}

// How many of the calls went as expected, up to the first that did not, where the k-th fails.
fn takes(alloc: Global, bytes: &[u8], k: u64, calls: &[TakeStep]) -> Result<usize, AdfError> {
    let Ok(text) = bytes.to_vec(alloc) else {
        return Err(AdfError::Memory);
    };
    let mut source = MemorySource::new(Text::new(text));
    source.fail_at(k);
    for (done, call) in calls.iter().enumerate() {
        if !take(&mut source, *call) {
            return Ok(done);
        }
    }
    Ok(calls.len())
}

fn put(sink: &mut MemorySink, wanted: PutStep) -> bool {
    match wanted {
        PutStep::Takes(bytes) => sink.put(bytes) == Ok(bytes.len()),
        PutStep::Fails(bytes) => sink.put(bytes).is_err(),
    }
}

// Whether all calls go as expected where the k-th fails, and these bytes were taken.
fn puts(alloc: Global, k: u64, calls: &[PutStep], taken: &[u8]) -> bool {
    let mut sink = MemorySink::new(alloc);
    sink.fail_at(k);
    for call in calls {
        if !put(&mut sink, *call) {
            return false;
        }
    }
    sink.taken() == taken
}

const TAKES: &[TakeStep] = &[
    TakeStep::Gives(b"abc"),
    TakeStep::Fails,
    TakeStep::Gives(b"de"),
    TakeStep::Gives(b""),
];

#[test]
fn a_source_gives_its_bytes_in_pieces_and_fails_where_told(rt: HostRuntime) -> Result<(), Fail> {
    let done = takes(rt.alloc(), b"abcde", 2, TAKES)?;
    assert!(rt; done == TAKES.len(), "call {done}");
    Ok(())
}

const PUTS: &[PutStep] = &[
    PutStep::Takes(b"ab"),
    PutStep::Fails(b"cd"),
    PutStep::Takes(b""),
    PutStep::Takes(b"ef"),
];

#[test]
fn a_sink_keeps_what_it_takes_and_fails_where_told(rt: HostRuntime) {
    assert!(rt; puts(rt.alloc(), 2, PUTS, b"abef"));
}
