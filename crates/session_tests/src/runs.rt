//! One run of the tool on the device `a.adf`, of whose calls one may fail.

ghost use Rattle.adf_library.specs.Shelf.{IsShelf, IsWhole};
ghost use Rattle.std.specs.Prelude.{IfOk};

use crate::fixtures::{device_of, source_of, stands, text_of, words_of};
use adf_library::Shelf;
use cg_io::{MemoryDevice, MemorySink, MemorySource};
use std::alloc::Global;
use std::test::Fail;
use tool_commands::{Status, run_on};

/// The call that fails, counted from 1: none, a read or a write of the device (with the first bytes of
/// its block that it keeps), a take from the input, or a put to the output.
#[derive(Clone, Copy)]
pub enum Fault {
    Nothing,
    Read(u64),
    Write(u64, u16),
    Take(u64),
    Put(u64),
}

/// What is left of the device: whether it was read, how often it was written, how many bytes it holds,
/// and texts among them by their places.
#[derive(Drop)]
pub struct Left {
    pub is_read: bool,
    pub writes: u64,
    pub length: usize,
    pub texts: &'static [(usize, &'static [u8])],
}

/// A run: the words, what the device holds, the input and the call that fails; then what has to come of
/// it.
#[derive(Drop)]
pub struct Run {
    pub name: &'static str,
    pub words: &'static str,
    pub held: &'static [u8],
    pub input: &'static [u8],
    pub fault: Fault,
    pub status: Status,
    pub printed: &'static [u8],
    pub left: Left,
}

// The device of a run, on a shelf.
fn shelf_of(alloc: Global, run: &Run) -> Result<Shelf<MemoryDevice>, Fail>
    ensures whole { IfOk result IsWhole }
    ensures shelf { IfOk result IsShelf }
{
    let mut device = device_of(alloc, run.held)?;
    match run.fault {
        Fault::Read(call) => device.fail_read(call)?,
        Fault::Write(call, kept) if kept <= 4096 => device.fail_write(call, kept)?,
        _ => {}
    }
    let mut shelf = Shelf::new(alloc);
    match shelf.add(text_of(alloc, b"a.adf")?, device) {
        Ok(_) => Ok(shelf),
        Err((error, _)) => Err(Fail::from(error)),
    }
}

fn input_of(alloc: Global, run: &Run) -> Result<MemorySource, Fail> {
    let mut input = source_of(alloc, run.input)?;
    if let Fault::Take(call) = run.fault {
        input.fail_at(call);
    }
    Ok(input)
}

fn output_of(alloc: Global, run: &Run) -> MemorySink {
    let mut output = MemorySink::new(alloc);
    if let Fault::Put(call) = run.fault {
        output.fail_at(call);
    }
    output
}

fn is_left(device: &MemoryDevice, left: &Left) -> bool {
    let held = device.held();
    (device.reads() > 0) == left.is_read
        && device.writes() == left.writes
        && held.len() == left.length
        && left.texts.iter().all(|(at, text)| stands(held, *at, text))
}

/// What is not as it has to be: nothing is the empty text.
pub fn wrong_part(alloc: Global, run: &Run) -> Result<&'static str, Fail> {
    let words = words_of(alloc, run.words)?;
    let mut shelf = shelf_of(alloc, run)?;
    let mut input = input_of(alloc, run)?;
    let mut output = output_of(alloc, run);
    let status = run_on(alloc, &words, &mut shelf, &mut input, &mut output);
    if status != run.status {
        return Ok("the status");
    }
    if output.taken() != run.printed {
        return Ok("what is printed");
    }
    match shelf.take(0) {
        Some(device) if is_left(&device, &run.left) => Ok(""),
        _ => Ok("the device"),
    }
}
