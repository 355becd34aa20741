//! Words that are not right touch nothing, and a command touches its own device alone.

ghost use Rattle.adf_library.specs.Shelf.{IsShelf, IsWhole};
ghost use Rattle.std.specs.Prelude.{IfOk, OnOk};

use crate::fixtures::{device_of, source_of, text_of, words_of};
use crate::runs::{Fault, Left, Run, wrong_part};
use adf_library::Shelf;
use adf_model::{AdfError, Text};
use cg_io::{Device, MemorySink};
use std::alloc::Global;
use std::test::Fail;
use tool_commands::{Status, run_tool};

static WRONG_WORDS: [&str; 17] = [
    "",
    "init",
    "init-wide",
    "init-wide a.adf a.adf",
    "init b.adf",
    "init ",
    "init -a",
    "Init a.adf",
    "trees a.adf",
    "init a.adf a.adf",
    "session",
    "session ",
    "session -a",
    "session b.adf",
    "session a.adf b.adf",
    "sessions a.adf",
    "--help",
];

fn usage_run(words: &'static str) -> Run {
    Run {
        name: words,
        words,
        held: b"",
        input: b"open 0 new 1",
        fault: Fault::Nothing,
        status: Status::Usage,
        printed: b"usage: cgns_tool COMMAND WORD..\n",
        left: Left {
            is_read: false,
            writes: 0,
            length: 0,
            texts: &[],
        },
    }
}

#[test]
fn wrong_words_print_the_usage_line_and_touch_nothing(rt: HostRuntime) -> Result<(), Fail> {
    for words in &WRONG_WORDS {
        let wrong = wrong_part(rt.alloc(), &usage_run(*words))?;
        assert!(rt; wrong.is_empty(), "{words}: {wrong}");
    }
    Ok(())
}

// Puts one more device on a shelf of at most one.
fn add_file(
    shelf: &mut Shelf<Box<dyn Device>>,
    name: Text,
    device: Box<dyn Device>,
) -> Result<(), Fail>
    requires { IsWhole shelf.old }
    ensures whole { IsWhole shelf.new }
    ensures shelf { OnOk result (IsShelf shelf.new) }
{
    if shelf.len() > 1 {
        return Err(Fail::from(AdfError::TooLarge));
    }
    match shelf.add(name, device) {
        Ok(_) => Ok(()),
        Err((error, _)) => Err(Fail::from(error)),
    }
}

// Two files, each in a box: `a.adf` holds three bytes, and `b.adf` none.
fn two_files(alloc: Global) -> Result<Shelf<Box<dyn Device>>, Fail>
    ensures whole { IfOk result IsWhole }
    ensures shelf { IfOk result IsShelf }
{
    let first: Box<dyn Device> = Box::new(alloc, device_of(alloc, b"abc")?)?;
    let second: Box<dyn Device> = Box::new(alloc, device_of(alloc, b"")?)?;
    let mut shelf = Shelf::new(alloc);
    add_file(&mut shelf, text_of(alloc, b"a.adf")?, first)?;
    add_file(&mut shelf, text_of(alloc, b"b.adf")?, second)?;
    Ok(shelf)
}

fn has_length(device: Box<dyn Device>, wanted: u64) -> bool {
    let mut device = device;
    device.length() == Ok(wanted)
}

// Whether these words over two files print this, make `b.adf` a fresh file, and leave `a.adf`.
fn leaves_the_other(alloc: Global, line: &str, input: &[u8], printed: &[u8]) -> Result<bool, Fail> {
    let words = words_of(alloc, line)?;
    let mut shelf = two_files(alloc)?;
    let mut input = source_of(alloc, input)?;
    let mut output = MemorySink::new(alloc);
    let status = run_tool(alloc, &words, &mut shelf, &mut input, &mut output);
    match (shelf.take(0), shelf.take(1)) {
        (Some(first), Some(second)) => Ok(
            status == Status::Done
                && output.taken() == printed
                && has_length(first, 3)
                && has_length(second, 4096),
        ),
        _ => Ok(false),
    }
}

#[test]
fn a_command_leaves_the_other_devices_of_the_shelf(rt: HostRuntime) -> Result<(), Fail> {
    for (line, input, printed) in [
        ("init b.adf", b"".as_slice(), b"ok 511\n".as_slice()),
        ("init-wide b.adf", b"", b"ok 607\n"),
        (
            "session b.adf",
            b"open 1 new 1\nedit create 1.0 X Lab\nchildren 1.0\nchildren 0.0\n",
            b"ok\nok 1.1\nok 1 1.1 X\nE05 NotOpen\n",
        ),
    ] {
        assert!(rt;
            leaves_the_other(rt.alloc(), line, input, printed)?,
            "{line}"
        );
    }
    Ok(())
}
