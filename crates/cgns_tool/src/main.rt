//! A tool for CGNS databases in ADF files: `cgns_tool COMMAND WORD..`. The program reads the words, makes
//! devices and streams of the host, and hands them to `run_tool`.

#![tactic(auto)]

ghost use Rattle.adf_library.specs.Shelf.{IsShelf, IsWhole};

use adf_library::Shelf;
use adf_model::{AdfError, Text};
use cg_host::{HostDevice, HostSink, HostSource};
use cg_io::Device;
use std::alloc::AllocError;
use std::env;
use std::io::ErrorKind;
use std::process::ExitCode;
use tool_commands::{Status, run_tool};

// So many devices have numbers on a shelf.
const MOST_DEVICES: usize = u32::MAX as usize;

// The words behind the program's name. A command line that is not text as a whole has none.
fn read_words(rt: &HostRuntime) -> Result<Vec<String>, AllocError> {
    let mut words = Vec::new(rt.alloc());
    match env::args(rt) {
        Ok(args) => {
            for word in args.skip(1) {
                words.push(word)?;
            }
        }
        Err(error) if error.kind() == ErrorKind::OutOfMemory => return Err(AllocError),
        Err(_) => {}
    }
    Ok(words)
}

// Runs the command of the words on files, standard input and standard output. There is one device for
// each word after the first, under that word; a repeated word has one. A word past the last number stays
// without a device, so that the words are not right. No function of its own makes the shelf, since boxes of
// a trait's values may not be handed out.
fn run(rt: &HostRuntime) -> Result<Status, AllocError> {
    let alloc = rt.alloc();
    let words = read_words(rt)?;
    let mut shelf = Shelf::new(alloc);
    'shelving: for word in words.iter().skip(1) {
        if shelf.len() >= MOST_DEVICES {
            break;
        }
        let name = Text::new(word.as_bytes().to_vec(alloc)?);
        let device: Box<dyn Device> = Box::new(alloc, HostDevice::new(rt.clone()?, word.clone()?))?;
        if let Err((AdfError::Memory, _)) = shelf.add(name, device) {
            return Err(AllocError);
        }
    }
    let mut input = HostSource::new(rt.clone()?);
    let mut output = HostSink::new(rt.clone()?);
    Ok(run_tool(alloc, &words, &mut shelf, &mut input, &mut output))
}

fn main(rt: HostRuntime) -> ExitCode {
    match run(&rt) {
        Ok(status) => ExitCode::from(status as u8),
        Err(_) => ExitCode::from(Status::Memory as u8),
    }
}
