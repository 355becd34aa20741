//! Copies of the sound parts of damaged files: what is made of them, and what is printed.

ghost use Rattle.std.specs.Prelude.{◌≡◌, Ok, Err, IfOk, IfErr};
ghost use Rattle.adf_model.specs.Counts.{NoCountFell, OnlyReads};
ghost use Rattle.adf_model.specs.NamedRules.{NamesRule};
ghost use Rattle.tool_commands.specs.Salvages.{IsSalvage, TellsSalvage, left_line, saved_status};

use crate::copies::{KEPT_BLOCKS, line_of, tell_copy};
use crate::printing::ended;
use crate::status::Status;
use adf_model::AdfError;
use adf_salvage::{Left, LeftOut, salvage};
use block_cache::BlockCache;
use cg_io::{Device, Sink};
use layout_report::fault_line;
use session::print;
use std::alloc::{AllocError, Global};

/// The last byte of a copy of a sound part, and the nodes that were left out.
#[derive(Drop)]
pub struct Saved {
    pub end: u64,
    pub left: LeftOut,
}

/// Two devices behind a copy of the sound part of the file of the first into the second, and what was saved or why there
/// is no copy.
#[derive(Drop)]
pub struct Salvage<D> {
    pub source: D,
    pub target: D,
    pub made: Result<Saved, AdfError>,
}

/// Copies the sound part of the file of a device into another device. It is refused as `salvage` is.
pub fn salvage_file<D: Device>(alloc: Global, source: D, target: D) -> Salvage<D>
    ensures salvage { IsSalvage result.made (D.state source) (D.state result.source)
        (D.state target) (D.state result.target) }
    ensures reads { OnlyReads (D.state source) (D.state result.source) }
    ensures counts { NoCountFell (D.state target) (D.state result.target) }
    ensures rule { IfErr result.made NamesRule }
{
    let mut blocks = match BlockCache::new(alloc, source, KEPT_BLOCKS) {
        Ok(blocks) => blocks,
        Err((error, source)) => {
            return Salvage {
                source,
                target,
                made: Err(error),
            };
        }
    };
    match salvage(alloc, &mut blocks, target) {
        Ok(salvaged) => Salvage {
            source: blocks.into_device(),
            target: salvaged.device,
            made: Ok(Saved {
                end: salvaged.end,
                left: salvaged.left,
            }),
        },
        Err((error, target)) => Salvage {
            source: blocks.into_device(),
            target,
            made: Err(error),
        },
    }
}

// The line of a node that was left out: its path, the first rule that it breaks, and where.
fn line_of_left(alloc: Global, left: &Left) -> Result<Vec<u8>, AllocError>
    ensures { IfOk result (λ line. line.items ≡ left_line left.now) }
{
    let mut line = Vec::new(alloc);
    line.extend_from_slice(b"left ")?;
    line.extend_from_slice(left.path.items())?;
    line.push(b' ')?;
    line.extend_from_slice(fault_line(alloc, left.rule, left.place)?.as_bytes())?;
    Ok(line)
}

// The status with which a salvage ends that saved something.
fn status_of(saved: &Saved) -> Status
    ensures { result ≡ saved_status saved.now.left }
{
    if saved.left.items().is_empty() {
        Status::Done
    } else {
        Status::No
    }
}

// Says which nodes were left out, one by one, and then the last byte of the copy.
fn tell_saved<O: Sink>(alloc: Global, saved: &Saved, output: &mut O) -> Status
    ensures { TellsSalvage (Ok saved.now) result (O.taken output.old) (O.taken output.new)
        (O.faults output.old) (O.faults output.new) }
{
    let left = saved.left.items();
    for k in 0..left.len() {
        let line = match line_of_left(alloc, &left[k]) {
            Ok(line) => line,
            Err(_) => return Status::Memory,
        };
        match print(output, &line) {
            Ok(()) => {}
            Err(_) => return Status::SinkFault,
        }
    }
    match line_of(alloc, &Ok(saved.end)) {
        Ok(line) => ended(output, &line, status_of(saved)),
        Err(_) => Status::Memory,
    }
}

/// Says what was left out of a copy and where it ends, or why there is none, as far as there is memory for the lines.
pub fn tell_salvage<O: Sink>(
    alloc: Global,
    made: &Result<Saved, AdfError>,
    output: &mut O,
) -> Status
    requires { IfErr made.now NamesRule }
    ensures { TellsSalvage made.now result (O.taken output.old) (O.taken output.new)
        (O.faults output.old) (O.faults output.new) }
{
    match made {
        Ok(saved) => tell_saved(alloc, saved, output),
        Err(error) => tell_copy(alloc, &Err(*error), output),
    }
}
