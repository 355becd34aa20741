//! Sessions over two files in memory, of whose calls some may fail.

ghost use Rattle.adf_library.specs.Shelf.{IsShelf, IsWhole};
ghost use Rattle.std.specs.Prelude.{IfOk, OnOk};

use adf_library::Shelf;
use adf_model::{AdfError, Text};
use cg_io::{MemoryDevice, MemorySink, MemorySource};
use std::alloc::Global;
use std::test::Fail;
use tool_commands::{Status, run_on};

/// The calls that fail, counted from 1: none, a read of a file, all writes of a file from one on, a take from the input, or
/// a put to the output.
#[derive(Clone, Copy)]
pub enum Fault {
    Nothing,
    Read(u32, u64),
    Writes(u32, u64),
    Take(u64),
    Put(u64),
}

/// How a session ended, what it printed, and the devices that it left.
#[derive(Drop)]
pub struct Outcome {
    pub status: Status,
    pub output: MemorySink,
    pub devices: [Option<MemoryDevice>; 2],
}

/// A text of these bytes.
pub fn text_of(alloc: Global, bytes: &[u8]) -> Result<Text, Fail> {
    Ok(Text::new(bytes.to_vec(alloc)?))
}

// More writes than a session of these tests does.
const WRITES: u64 = 100;

// An empty device of this number.
fn device_of(alloc: Global, number: u32, fault: Fault) -> Result<MemoryDevice, Fail> {
    let mut device = MemoryDevice::new(alloc, Text::new(Vec::new(alloc)));
    match fault {
        Fault::Read(file, call) if file == number => device.fail_read(call)?,
        Fault::Writes(file, first) if file == number => {
            for call in first..WRITES {
                device.fail_write(call, 0)?;
            }
        }
        _ => {}
    }
    Ok(device)
}

// Adds a device to a shelf of at most one.
fn add_file(shelf: &mut Shelf<MemoryDevice>, name: Text, device: MemoryDevice) -> Result<(), Fail>
    requires { IsWhole shelf.old }
    ensures whole { IsWhole shelf.new }
    ensures shelf { OnOk result (IsShelf shelf.new) }
{
    if shelf.len() > 1 {
        return Err(Fail::from(AdfError::TooLarge));
    }
    match shelf.add(name, device) {
        Ok(_) => Ok(()),
        Err((error, _)) => Err(Fail::from(error)),
    }
}

// The files `a.adf` and `b.adf`.
fn two_files(alloc: Global, fault: Fault) -> Result<Shelf<MemoryDevice>, Fail>
    ensures whole { IfOk result IsWhole }
    ensures shelf { IfOk result IsShelf }
{
    let first = device_of(alloc, 0, fault)?;
    let second = device_of(alloc, 1, fault)?;
    let mut shelf = Shelf::new(alloc);
    add_file(&mut shelf, text_of(alloc, b"a.adf")?, first)?;
    add_file(&mut shelf, text_of(alloc, b"b.adf")?, second)?;
    Ok(shelf)
}

/// A session of these lines over two files that are empty at first.
pub fn run_lines(alloc: Global, lines: &[u8], fault: Fault) -> Result<Outcome, Fail> {
    let mut words = Vec::new(alloc);
    for word in ["session", "a.adf", "b.adf"] {
        words.push(String::from_str(alloc, word)?)?;
    }
    let mut input = MemorySource::new(text_of(alloc, lines)?);
    let mut output = MemorySink::new(alloc);
    match fault {
        Fault::Take(call) => input.fail_at(call),
        Fault::Put(call) => output.fail_at(call),
        _ => {}
    }
    let mut shelf = two_files(alloc, fault)?;
    let status = run_on(alloc, &words, &mut shelf, &mut input, &mut output);
    let devices = [shelf.take(0), shelf.take(1)];
    Ok(Outcome {
        status,
        output,
        devices,
    })
}
