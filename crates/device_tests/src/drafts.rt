//! What a draft shows, changes and commits, call by call.
ghost use Rattle.std.specs.Prelude.{◌<◌, ◌^◌};

use crate::plain::{Plain, byte_at, device_of};
use adf_model::AdfError;
use block_draft::Draft;
use cg_io::{BlockFault, Device, MemoryDevice, ReadBytes, Space, SpaceFault};
use std::alloc::Global;
use std::test::Fail;

type PlainDraft = Draft<Plain<MemoryDevice>>;

/// A call of a draft, and what it answers, or what is expected where it stands.
#[derive(Clone, Copy)]
enum Step {
    Write(u64, &'static [u8]),
    WriteFails(u64, &'static [u8]),
    /// So many bytes of one kind at a place.
    Fill(u64, usize, u8),
    Read(u64, &'static [u8]),
    /// How many bytes it was to read.
    ReadFails(u64, usize),
    /// A read of so many bytes of one kind at a place, and of the bytes before and after them.
    Span(u64, usize, u8, u8),
    Commit,
    CommitFails,
    Abandon,
    /// How many blocks are changed.
    Changed(usize),
}

const END: u64 = 1 << 44;

fn writes(draft: &mut PlainDraft, place: u64, bytes: &[u8]) -> bool {
    if bytes.len() > 1 << 20 || place > END - bytes.len() as u64 {
        return false;
    }
    draft.write(place, bytes).is_ok()
}

// The bytes from a place on; none where they cannot be read.
fn read(
    alloc: Global,
    draft: &mut PlainDraft,
    place: u64,
    n: usize,
) -> Result<Option<Vec<u8>>, AdfError> {
    let mut into = bytes_of(alloc, 9, n)?;
    if into.len() > 1 << 20 || place > END - into.len() as u64 {
        return Ok(None);
    }
    match draft.read(place, &mut into) {
        Ok(()) => Ok(Some(into)),
        Err(_) => Ok(None),
    }
}

fn bytes_of(alloc: Global, byte: u8, n: usize) -> Result<Vec<u8>, AdfError> {
    vec![in alloc; byte; n].map_err(|_| AdfError::Memory)
}

// Whether the bytes are one, then many of one kind, and the one again.
fn is_span(bytes: &[u8], byte: u8, around: u8) -> bool {
    let last = bytes.len().saturating_sub(1);
    for (i, b) in bytes.iter().enumerate() {
        let wanted = if i == 0 || i == last { around } else { byte };
        if *b != wanted {
            return false;
        }
    }
    bytes.len() > 2
}

fn shows(
    alloc: Global,
    draft: &mut PlainDraft,
    place: u64,
    bytes: &[u8],
) -> Result<bool, AdfError> {
    match read(alloc, draft, place, bytes.len())? {
        Some(read) => Ok(read.as_slice() == bytes),
        None => Ok(false),
    }
}

fn shows_span(
    alloc: Global,
    draft: &mut PlainDraft,
    place: u64,
    n: usize,
    byte: u8,
    around: u8,
) -> Result<bool, AdfError> {
    if n > 1 << 20 || place == 0 {
        return Ok(false);
    }
    match read(alloc, draft, place - 1, n + 2)? {
        Some(read) => Ok(is_span(&read, byte, around)),
        None => Ok(false),
    }
}

fn fills(
    alloc: Global,
    draft: &mut PlainDraft,
    place: u64,
    n: usize,
    byte: u8,
) -> Result<bool, AdfError> {
    let from = bytes_of(alloc, byte, n)?;
    Ok(writes(draft, place, &from))
}

// Makes a call, and tells whether it answered as expected.
fn make(alloc: Global, draft: &mut PlainDraft, step: Step) -> Result<bool, AdfError> {
    match step {
        Step::Write(place, bytes) => Ok(writes(draft, place, bytes)),
        Step::WriteFails(place, bytes) => Ok(!writes(draft, place, bytes)),
        Step::Fill(place, n, byte) => fills(alloc, draft, place, n, byte),
        Step::Read(place, bytes) => shows(alloc, draft, place, bytes),
        Step::ReadFails(place, n) => Ok(read(alloc, draft, place, n)?.is_none()),
        Step::Span(place, n, byte, around) => shows_span(alloc, draft, place, n, byte, around),
        Step::Commit => Ok(draft.commit().is_ok()),
        Step::CommitFails => Ok(draft.commit() == Err(BlockFault::Write)),
        Step::Abandon => {
            draft.abandon();
            Ok(true)
        }
        Step::Changed(is) => Ok(draft.changed() == is),
    }
}

/// How many of the steps went as expected, up to the first that did not, and the device then.
#[derive(Drop)]
struct Ran {
    done: usize,
    device: MemoryDevice,
}

fn run(alloc: Global, device: MemoryDevice, steps: &[Step]) -> Result<Ran, AdfError> {
    let mut draft = Draft::new(alloc, Plain { device });
    let mut done = 0usize;
    for step in steps {
        if !make(alloc, &mut draft, *step)? {
            break;
        }
        done = done.saturating_add(1);
    }
    let Plain { device } = draft.into_blocks();
    Ok(Ran { done, device })
}

fn has_counts(device: &MemoryDevice, reads: u64, writes: u64) -> bool {
    device.reads() == reads && device.writes() == writes
}

// Whether a device has these bytes at these places.
fn has_bytes(device: &MemoryDevice, bytes: &[(usize, u8)]) -> bool {
    for (place, byte) in bytes {
        if byte_at(device, *place) != *byte {
            return false;
        }
    }
    true
}

const OVER_AN_EDGE: &[Step] = &[
    Step::Write(4095, &[0x41, 0x42]),
    Step::Changed(2),
    Step::Read(4094, &[0, 0x41, 0x42, 0]),
    Step::Write(4096, &[0x43]),
    Step::Changed(2),
    Step::Commit,
    Step::Changed(0),
    Step::Commit,
];

#[test]
fn a_write_over_an_edge_changes_two_blocks(rt: HostRuntime) -> Result<(), Fail> {
    let ran = run(rt.alloc(), device_of(rt.alloc(), 0, 0)?, OVER_AN_EDGE)?;
    assert!(rt; ran.done == OVER_AN_EDGE.len(), "step {}", ran.done);
    let bytes = [
        (4094, 0),
        (4095, 0x41),
        (4096, 0x43),
        (8191, 0),
        (8192, 255),
    ];
    assert!(rt; has_bytes(&ran.device, &bytes));
    assert!(rt; has_counts(&ran.device, 2, 2));
    Ok(())
}

const ABANDONED: &[Step] = &[
    Step::Fill(0, 8192, 7),
    Step::Abandon,
    Step::Changed(0),
    Step::Read(4095, &[1, 1]),
    Step::Commit,
];

#[test]
fn an_abandoned_draft_shows_the_device(rt: HostRuntime) -> Result<(), Fail> {
    let ran = run(rt.alloc(), device_of(rt.alloc(), 1, 8192)?, ABANDONED)?;
    assert!(rt; ran.done == ABANDONED.len(), "step {}", ran.done);
    assert!(rt; byte_at(&ran.device, 4096) == 1);
    assert!(rt; ran.device.writes() == 0);
    Ok(())
}

const MANY_BLOCKS: &[Step] = &[
    Step::Fill(8292, 20000, 7),
    Step::Changed(5),
    Step::Span(8292, 20000, 7, 0),
    Step::Commit,
];

#[test]
fn many_blocks_are_written_and_read(rt: HostRuntime) -> Result<(), Fail> {
    let ran = run(rt.alloc(), device_of(rt.alloc(), 1, 4096)?, MANY_BLOCKS)?;
    assert!(rt; ran.done == MANY_BLOCKS.len(), "step {}", ran.done);
    assert!(rt; ran.device.held().len() == 28672);
    let bytes = [
        (4095, 1),
        (4096, 0),
        (8291, 0),
        (8292, 7),
        (28291, 7),
        (28292, 0),
    ];
    assert!(rt; has_bytes(&ran.device, &bytes));
    // the first and the last block alone are not written whole
    assert!(rt; has_counts(&ran.device, 2, 5));
    Ok(())
}

const READ_FAILS: &[Step] = &[Step::ReadFails(4095, 4098), Step::Span(4096, 4096, 1, 1)];

const WRITE_FAILS_AT_THE_FIRST: &[Step] = &[
    Step::WriteFails(4095, &[7, 7]),
    Step::Changed(0),
    Step::Abandon,
    Step::Read(4095, &[1, 1]),
];

const WRITE_FAILS_AT_THE_SECOND: &[Step] = &[
    Step::WriteFails(4095, &[7, 7]),
    Step::Changed(1),
    Step::Abandon,
    Step::Read(4095, &[1, 1]),
];

// The steps over three blocks, of which the k-th read fails.
fn run_without(alloc: Global, k: u64, steps: &[Step]) -> Result<usize, AdfError> {
    let mut device = device_of(alloc, 1, 12288)?;
    device.fail_read(k)?;
    Ok(run(alloc, device, steps)?.done)
}

#[test]
fn each_read_that_fails_is_told(rt: HostRuntime) -> Result<(), Fail> {
    let rows = [
        (1, READ_FAILS),
        (2, READ_FAILS),
        (3, READ_FAILS),
        (1, WRITE_FAILS_AT_THE_FIRST),
        (2, WRITE_FAILS_AT_THE_SECOND),
    ];
    for (k, steps) in rows {
        let done = run_without(rt.alloc(), k, steps)?;
        assert!(rt; done == steps.len(), "read {k}, step {done}");
    }
    Ok(())
}

const COMMIT_FAILS: &[Step] = &[
    Step::Fill(8192, 4096, 7),
    Step::Fill(0, 4096, 7),
    Step::Fill(4096, 4096, 7),
    Step::CommitFails,
    Step::Changed(0),
];

#[test]
fn a_commit_stops_at_each_write_that_fails(rt: HostRuntime) -> Result<(), Fail> {
    let rows = [
        (
            1,
            [
                (99, 7),
                (100, 1),
                (4195, 1),
                (4196, 1),
                (8291, 1),
                (8292, 1),
            ],
        ),
        (
            2,
            [
                (99, 7),
                (100, 7),
                (4195, 7),
                (4196, 1),
                (8291, 1),
                (8292, 1),
            ],
        ),
        (
            3,
            [
                (99, 7),
                (100, 7),
                (4195, 7),
                (4196, 7),
                (8291, 7),
                (8292, 1),
            ],
        ),
    ];
    for (k, bytes) in rows {
        let mut device = device_of(rt.alloc(), 1, 12288)?;
        device.fail_write(k, 100)?;
        let ran = run(rt.alloc(), device, COMMIT_FAILS)?;
        assert!(rt;
            ran.done == COMMIT_FAILS.len(),
            "write {k}, step {}",
            ran.done
        );
        assert!(rt; ran.device.writes() == k, "write {k}");
        assert!(rt; has_bytes(&ran.device, &bytes), "write {k}");
    }
    Ok(())
}

const LAST_BYTES: &[Step] = &[
    Step::Read(17592186044412, &[0; 4]),
    Step::Write(17592186044415, &[5]),
    Step::Read(17592186044412, &[0, 0, 0, 5]),
    Step::Read(8, &[1, 1, 0, 0]),
    Step::Write(0, &[]),
    Step::Read(0, &[]),
    Step::Changed(1),
];

#[test]
fn the_last_bytes_of_the_space_are_zero_until_written(rt: HostRuntime) -> Result<(), Fail> {
    let ran = run(rt.alloc(), device_of(rt.alloc(), 1, 10)?, LAST_BYTES)?;
    assert!(rt; ran.done == LAST_BYTES.len(), "step {}", ran.done);
    Ok(())
}

// Writes a byte and reads it back, by the bound alone.
fn write_and_read<S: Space>(space: &mut S, place: u64, byte: u8) -> Result<u8, SpaceFault>
    requires sound { S.is_sound space.old }
    requires within { place < 2 ^ 44 }
    ensures { S.is_sound space.new }
{
    space.write(place, &[byte])?;
    let mut into = [0; 1];
    match space.read(place, &mut into) {
        Ok(()) => Ok(into[0]),
        Err(_) => Err(SpaceFault::Read),
    }
}

#[derive(Drop)]
struct Held {
    draft: Draft<Plain<Box<dyn Device>>>,
}

fn write_held(held: &mut Held, place: u64, byte: u8) -> Result<u8, BlockFault>
    requires { place < 2 ^ 44 }
{
    match write_and_read(&mut held.draft, place, byte) {
        Ok(read) => {
            held.draft.commit()?;
            Ok(read)
        }
        Err(_) => {
            held.draft.abandon();
            Err(BlockFault::Read)
        }
    }
}

#[test]
fn boxed_devices_have_drafts(rt: HostRuntime) -> Result<(), Fail> {
    let device: Box<dyn Device> = Box::new(rt.alloc(), device_of(rt.alloc(), 1, 10)?)?;
    let mut held = Held {
        draft: Draft::new(rt.alloc(), Plain { device }),
    };
    assert!(rt; write_held(&mut held, 5000, 3) == Ok(3));
    assert!(rt; held.draft.changed() == 0);
    let mut blocks = held.draft.into_blocks();
    assert!(rt; blocks.device.length() == Ok(8192));
    Ok(())
}
