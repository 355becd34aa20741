//! That each adapter passes bytes on to a real file or stream.

use cg_host::{HostDevice, HostSink, HostSource};
use cg_io::{Device, Sink, Source};
use std::fs;
use std::test::Fail;

// The first byte of a block, which is that of all of it; none where it cannot be read.
fn read<D: Device>(device: &mut D, n: u32) -> Option<u8> {
    let mut block = [7u8; 4096];
    match device.read_block(n, &mut block) {
        Ok(()) if block == [block[0]; 4096] => Some(block[0]),
        _ => None,
    }
}

fn writes<D: Device>(device: &mut D, n: u32, byte: u8) -> bool {
    device.write_block(n, &[byte; 4096]).is_ok()
}

fn is_long<D: Device>(device: &mut D, length: u64) -> bool {
    device.length() == Ok(length)
}

#[test]
fn a_file_is_made_by_its_first_write_and_read_back(rt: HostRuntime) -> Result<(), Fail> {
    let path = "made_by_its_first_write";
    let mut device = HostDevice::new(rt.clone()?, String::from_str(rt.alloc(), path)?);
    assert!(rt; is_long(&mut device, 0));
    assert!(rt; read(&mut device, 3) == Some(0));
    assert!(rt; fs::read(&rt, path).is_err());
    assert!(rt; writes(&mut device, 1, 5));
    assert!(rt; writes(&mut device, 0, 6));
    assert!(rt; is_long(&mut device, 8192));
    assert!(rt; read(&mut device, 1) == Some(5));
    let held = fs::read(&rt, path)?;
    assert!(rt; held.len() == 8192);
    assert!(rt; &held[4094..4098] == [6, 6, 5, 5].as_slice());
    fs::remove_file(&rt, path)?;
    Ok(())
}

// A write of a block, or a read of it, with its byte.
#[derive(Clone, Copy, Drop)]
enum Step {
    Write(u32, u8),
    Read(u32, u8),
}

fn goes<D: Device>(device: &mut D, step: Step) -> bool {
    match step {
        Step::Write(n, byte) => writes(device, n, byte),
        Step::Read(n, byte) => read(device, n) == Some(byte),
    }
}

// Blocks behind one another and not, at the end and past it.
const STEPS: [Step; 13] = [
    Step::Write(0, 1),
    Step::Write(1, 2),
    Step::Read(0, 1),
    Step::Read(1, 2),
    Step::Read(2, 0),
    Step::Read(2, 0),
    Step::Read(3, 0),
    Step::Read(1, 2),
    Step::Write(2, 3),
    Step::Read(1, 2),
    Step::Read(2, 3),
    Step::Write(0, 4),
    Step::Read(1, 2),
];

#[test]
fn blocks_are_read_and_written_in_any_order(rt: HostRuntime) -> Result<(), Fail> {
    let path = "read_and_written_in_any_order";
    let mut device = HostDevice::new(rt.clone()?, String::from_str(rt.alloc(), path)?);
    for step in STEPS {
        assert!(rt; goes(&mut device, step));
    }
    fs::remove_file(&rt, path)?;
    Ok(())
}

#[test]
fn a_path_that_is_no_file_is_a_fault_of_each_call(rt: HostRuntime) -> Result<(), Fail> {
    let mut device = HostDevice::new(rt.clone()?, String::from_str(rt.alloc(), ".")?);
    assert!(rt; device.length().is_err());
    assert!(rt; read(&mut device, 0).is_none());
    assert!(rt; !writes(&mut device, 0, 0));
    Ok(())
}

#[test]
fn the_standard_streams_are_read_and_written(rt: HostRuntime) -> Result<(), Fail> {
    let mut sink = HostSink::new(rt.clone()?);
    assert!(rt; sink.put(b"") == Ok(0));
    assert!(rt; sink.put(b"printed\n") == Ok(8));
    let mut source = HostSource::new(rt.clone()?);
    assert!(rt; source.take(&mut [0; 16]).is_ok());
    Ok(())
}
