//! What a cache reads, keeps and writes, call by call.
ghost use Rattle.std.specs.Prelude.{IfOk, ◌≤◌, ◌≡◌};
ghost use Rattle.cg_io.specs.Memory.{device_of};
ghost use Rattle.block_cache.specs.Cache.{IsCache};

use crate::plain::three_blocks;
use adf_model::AdfError;
use block_cache::BlockCache;
use cg_io::{BlockFault, Blocks, Device, MemoryDevice};
use std::alloc::Global;
use std::test::Fail;

/// A call of a cache, and what it answers.
#[derive(Clone, Copy)]
enum Step {
    /// A block, and its byte at an index.
    Read(u32, usize, u8),
    ReadFails(u32),
    /// A block of this byte.
    Write(u32, u8),
    WriteFails(u32, u8),
    Length(u64),
    LengthFails,
}

fn cache_of(
    alloc: Global,
    device: MemoryDevice,
    capacity: usize,
) -> Result<BlockCache<MemoryDevice>, AdfError>
    ensures { IfOk result (λ c. IsCache device_of c) }
{
    if capacity == 0 {
        return Err(AdfError::BadRange);
    }
    match BlockCache::new(alloc, device, capacity) {
        Ok(cache) => Ok(cache),
        Err((error, _)) => Err(error),
    }
}

// The byte at an index of a block; none where it cannot be read.
fn read(cache: &mut BlockCache<MemoryDevice>, n: u32, at: usize) -> Option<u8>
    requires { IsCache device_of cache.old }
    ensures { IsCache device_of cache.new }
{
    let mut block = [9; 4096];
    match cache.read_block(n, &mut block) {
        Ok(()) => block.get(at).copied(),
        Err(_) => None,
    }
}

fn writes(cache: &mut BlockCache<MemoryDevice>, n: u32, byte: u8) -> bool
    requires { IsCache device_of cache.old }
    ensures { IsCache device_of cache.new }
{
    cache.write_block(n, &[byte; 4096]).is_ok()
}

fn length(cache: &mut BlockCache<MemoryDevice>) -> Option<u64>
    requires { IsCache device_of cache.old }
    ensures { IsCache device_of cache.new }
{
    match cache.length() {
        Ok(length) => Some(length),
        Err(_) => None,
    }
}

// Makes a call, and tells whether it answered as expected.
fn make(cache: &mut BlockCache<MemoryDevice>, step: Step) -> bool
    requires { IsCache device_of cache.old }
    ensures { IsCache device_of cache.new }
{
    match step {
        Step::Read(n, at, byte) => read(cache, n, at) == Some(byte),
        Step::ReadFails(n) => read(cache, n, 0).is_none(),
        Step::Write(n, byte) => writes(cache, n, byte),
        Step::WriteFails(n, byte) => !writes(cache, n, byte),
        Step::Length(is) => length(cache) == Some(is),
        Step::LengthFails => length(cache).is_none(),
    }
}

/// How many of the steps went as expected, up to the first that did not, and the device then.
#[derive(Drop)]
struct Ran {
    done: usize,
    device: MemoryDevice,
}

fn run(
    alloc: Global,
    device: MemoryDevice,
    capacity: usize,
    steps: &[Step],
) -> Result<Ran, AdfError> {
    let mut cache = cache_of(alloc, device, capacity)?;
    let mut done = 0usize;
    for step in steps {
        if !make(&mut cache, *step) {
            break;
        }
        done = done.saturating_add(1);
    }
    let device = cache.into_device();
    Ok(Ran { done, device })
}

fn has_counts(device: &MemoryDevice, reads: u64, writes: u64) -> bool {
    device.reads() == reads && device.writes() == writes
}

const KEPT: &[Step] = &[
    Step::Read(0, 0, 1),
    Step::Read(1, 4095, 2),
    Step::Read(0, 4095, 1),
    Step::Read(2, 0, 3),
    Step::Read(0, 0, 1),
];

#[test]
fn a_block_that_is_kept_is_read_without_the_device(rt: HostRuntime) -> Result<(), Fail> {
    let ran = run(rt.alloc(), three_blocks(rt.alloc())?, 2, KEPT)?;
    assert!(rt; ran.done == KEPT.len(), "step {}", ran.done);
    assert!(rt; has_counts(&ran.device, 3, 0));
    Ok(())
}

const ONE: &[Step] = &[
    Step::Read(0, 0, 1),
    Step::Read(0, 0, 1),
    Step::Read(1, 0, 2),
    Step::Read(0, 0, 1),
    Step::Write(2, 7),
    Step::Read(2, 0, 7),
    Step::Length(12288),
];

#[test]
fn one_block_is_kept_at_capacity_one(rt: HostRuntime) -> Result<(), Fail> {
    let ran = run(rt.alloc(), three_blocks(rt.alloc())?, 1, ONE)?;
    assert!(rt; ran.done == ONE.len(), "step {}", ran.done);
    assert!(rt; has_counts(&ran.device, 4, 1));
    Ok(())
}

const FAILED_READS: &[Step] = &[
    Step::Read(0, 0, 1),
    Step::ReadFails(1),
    Step::Read(0, 0, 1),
    Step::Read(1, 0, 2),
    Step::LengthFails,
    Step::Read(1, 0, 2),
    Step::Read(u32::MAX, 4095, 0),
];

#[test]
fn a_failed_read_leaves_what_is_kept(rt: HostRuntime) -> Result<(), Fail> {
    let mut device = three_blocks(rt.alloc())?;
    device.fail_read(2)?;
    device.fail_read(4)?;
    let ran = run(rt.alloc(), device, 2, FAILED_READS)?;
    assert!(rt; ran.done == FAILED_READS.len(), "step {}", ran.done);
    assert!(rt; has_counts(&ran.device, 5, 0));
    Ok(())
}

const FAILED_WRITES: &[Step] = &[
    Step::Write(0, 7),
    Step::Read(0, 0, 7),
    Step::WriteFails(0, 8),
    Step::Read(0, 99, 8),
    Step::Read(0, 100, 7),
    Step::Write(4, 6),
    Step::Read(3, 0, 0),
];

#[test]
fn a_failed_write_is_read_back_from_the_device(rt: HostRuntime) -> Result<(), Fail> {
    let mut device = three_blocks(rt.alloc())?;
    device.fail_write(2, 100)?;
    let ran = run(rt.alloc(), device, 2, FAILED_WRITES)?;
    assert!(rt; ran.done == FAILED_WRITES.len(), "step {}", ran.done);
    assert!(rt; has_counts(&ran.device, 2, 3));
    assert!(rt; ran.device.held().len() == 20480);
    Ok(())
}

const WRITTEN: &[Step] = &[
    Step::Read(0, 0, 1),
    Step::Read(1, 0, 2),
    Step::Write(0, 7),
    Step::Read(2, 0, 3),
    Step::Write(2, 8),
    Step::Read(0, 4095, 7),
    Step::Read(2, 4095, 8),
];

#[test]
fn a_full_cache_keeps_what_was_written_last(rt: HostRuntime) -> Result<(), Fail> {
    let ran = run(rt.alloc(), three_blocks(rt.alloc())?, 2, WRITTEN)?;
    assert!(rt; ran.done == WRITTEN.len(), "step {}", ran.done);
    assert!(rt; has_counts(&ran.device, 3, 2));
    Ok(())
}

// Reads a block twice, by the bound alone.
fn read_twice<B: Blocks>(blocks: &mut B, n: u32) -> Result<u8, BlockFault>
    requires { B.is_sound blocks.old }
    ensures { B.is_sound blocks.new }
{
    let mut block = [0; 4096];
    blocks.read_block(n, &mut block)?;
    blocks.read_block(n, &mut block)?;
    Ok(block[0])
}

#[derive(Drop)]
struct Held {
    cache: BlockCache<Box<dyn Device>>,
}

fn read_held(held: &mut Held, n: u32) -> Result<u8, BlockFault>
    requires { IsCache state held.old.cache }
    ensures { IsCache state held.new.cache }
{
    read_twice(&mut held.cache, n)
}

#[test]
fn a_cache_is_read_by_its_bound(rt: HostRuntime) -> Result<(), Fail> {
    let mut cache = cache_of(rt.alloc(), three_blocks(rt.alloc())?, 2)?;
    assert!(rt; read_twice(&mut cache, 2) == Ok(3));
    assert!(rt; has_counts(&cache.into_device(), 1, 0));
    Ok(())
}

#[test]
fn boxed_devices_are_cached(rt: HostRuntime) -> Result<(), Fail> {
    let boxed: Box<dyn Device> = Box::new(rt.alloc(), three_blocks(rt.alloc())?)?;
    let cache = match BlockCache::new(rt.alloc(), boxed, 2) {
        Ok(cache) => cache,
        Err((error, _)) => return Err(error.into()),
    };
    let mut held = Held { cache };
    assert!(rt; read_held(&mut held, 1) == Ok(2));
    let mut device = held.cache.into_device();
    assert!(rt; device.length() == Ok(12288));
    Ok(())
}
