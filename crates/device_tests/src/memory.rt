//! What a device in memory does, call by call.

use adf_model::{AdfError, Text};
use cg_io::{BoxedDevice, Device, MemoryDevice};
use std::alloc::Global;
use std::test::Fail;

/// A call of a device, and what it answers, or what is expected where it stands.
#[derive(Clone, Copy)]
enum Step {
    FailRead(u64),
    FailWrite(u64, u16),
    Length(u64),
    LengthFails,
    /// The first bytes of a block.
    Read(u32, &'static [u8]),
    ReadFails(u32),
    /// A block of this byte.
    Write(u32, u8),
    WriteFails(u32, u8),
    /// How many bytes it holds.
    Holds(usize),
    /// Bytes that it holds at a place.
    HoldsAt(usize, &'static [u8]),
    /// How often it was read and written.
    Counts(u64, u64),
}

fn fail_write(device: &mut MemoryDevice, k: u64, kept: u16) -> Result<(), AdfError> {
    if kept > 4096 {
        return Err(AdfError::BadRange);
    }
    device.fail_write(k, kept)
}

fn begins_with(device: &mut MemoryDevice, n: u32, bytes: &[u8]) -> bool {
    let mut block = [7u8; 4096];
    device.read_block(n, &mut block).is_ok() && block.starts_with(bytes)
}

fn holds_at(device: &MemoryDevice, at: usize, bytes: &[u8]) -> bool {
    match device.held().get(at..) {
        Some(held) => held.starts_with(bytes),
        None => false,
    }
}

// Makes a call, and tells whether it answered as expected.
fn make(device: &mut MemoryDevice, step: Step) -> Result<bool, AdfError> {
    match step {
        Step::FailRead(k) => {
            device.fail_read(k)?;
            Ok(true)
        }
        Step::FailWrite(k, kept) => {
            fail_write(device, k, kept)?;
            Ok(true)
        }
        Step::Length(is) => Ok(device.length() == Ok(is)),
        Step::LengthFails => Ok(device.length().is_err()),
        Step::Read(n, bytes) => Ok(begins_with(device, n, bytes)),
        Step::ReadFails(n) => Ok(device.read_block(n, &mut [7; 4096]).is_err()),
        Step::Write(n, byte) => Ok(device.write_block(n, &[byte; 4096]).is_ok()),
        Step::WriteFails(n, byte) => Ok(device.write_block(n, &[byte; 4096]).is_err()),
        Step::Holds(length) => Ok(device.held().len() == length),
        Step::HoldsAt(at, bytes) => Ok(holds_at(device, at, bytes)),
        Step::Counts(reads, writes) => Ok(device.reads() == reads && device.writes() == writes),
    }
}

// How many of the steps went as expected, up to the first that did not.
fn run(alloc: Global, bytes: &[u8], steps: &[Step]) -> Result<usize, AdfError> {
    let Ok(text) = bytes.to_vec(alloc) else {
        return Err(AdfError::Memory);
    };
    if text.len() > 4096 {
        return Err(AdfError::BadRange);
    }
    let mut device = MemoryDevice::new(alloc, Text::new(text));
    for (done, step) in steps.iter().enumerate() {
        if !make(&mut device, *step)? {
            return Ok(done);
        }
    }
    Ok(steps.len())
}

const LISTED_READS: &[Step] = &[
    Step::FailRead(2),
    Step::FailRead(6),
    Step::Length(5),
    Step::ReadFails(0),
    Step::Read(0, b"abcde\0\0"),
    Step::Read(u32::MAX, &[0; 7]),
    Step::Counts(4, 0),
    Step::Read(1, &[0; 7]),
    Step::LengthFails,
    Step::Length(5),
];

#[test]
fn a_listed_read_fails_and_the_others_give_the_bytes(rt: HostRuntime) -> Result<(), Fail> {
    let done = run(rt.alloc(), b"abcde", LISTED_READS)?;
    assert!(rt; done == LISTED_READS.len(), "step {done}");
    Ok(())
}

const GAPS: &[Step] = &[
    Step::Write(1, 9),
    Step::Holds(8192),
    Step::HoldsAt(0, b"abc\0\0"),
    Step::HoldsAt(4094, &[0, 0, 9, 9]),
    Step::Counts(0, 1),
    Step::Length(8192),
];

#[test]
fn a_write_past_the_end_fills_the_gap_with_zeros(rt: HostRuntime) -> Result<(), Fail> {
    let done = run(rt.alloc(), b"abc", GAPS)?;
    assert!(rt; done == GAPS.len(), "step {done}");
    Ok(())
}

const LISTED_WRITES: &[Step] = &[
    Step::FailWrite(1, 0),
    Step::FailWrite(2, 4096),
    Step::FailWrite(2, 3),
    Step::FailWrite(4, 4096),
    Step::WriteFails(0, 1),
    Step::Holds(0),
    Step::WriteFails(0, 2),
    Step::Holds(4096),
    Step::HoldsAt(0, &[2, 2, 2, 0, 0]),
    Step::Write(0, 3),
    Step::WriteFails(0, 4),
    Step::HoldsAt(4095, &[4]),
    Step::Counts(0, 4),
];

#[test]
fn a_listed_write_keeps_the_first_bytes_of_its_latest_entry(rt: HostRuntime) -> Result<(), Fail> {
    let done = run(rt.alloc(), b"", LISTED_WRITES)?;
    assert!(rt; done == LISTED_WRITES.len(), "step {done}");
    Ok(())
}

// Whether a boxed device hands each call on.
fn hands_on(inner: Box<dyn Device>) -> bool {
    let mut device = BoxedDevice { inner };
    let mut block = [0u8; 4096];
    device.length() == Ok(3)
        && device.write_block(0, &[5; 4096]).is_ok()
        && device.read_block(0, &mut block).is_ok()
        && block[4095] == 5
        && device.length() == Ok(4096)
}

#[test]
fn a_boxed_device_hands_each_call_on(rt: HostRuntime) -> Result<(), Fail> {
    let bytes = b"abc".to_vec(rt.alloc())?;
    let inner: Box<dyn Device> = Box::new(
        rt.alloc(),
        MemoryDevice::new(rt.alloc(), Text::new(bytes)),
    )?;
    assert!(rt; hands_on(inner));
    Ok(())
}
