//! Packed copies of files: what is made of them, and what is printed.

ghost use Rattle.std.specs.Prelude.{◌≡◌, Err, IfOk, IfErr};
ghost use Rattle.adf_model.specs.Counts.{NoCountFell, OnlyReads};
ghost use Rattle.adf_model.specs.NamedRules.{NamesRule};
ghost use Rattle.tool_commands.specs.Copies.{IsCopy, Tells, copy_line, copy_status, lacks_memory};

use crate::printing::ended;
use crate::status::Status;
use adf_model::AdfError;
use adf_repack::{Target, repack};
use block_cache::BlockCache;
use call_script::{Answer, reply_text};
use cg_io::{Device, Sink};
use std::alloc::{AllocError, Global};

/// How many blocks of the file that is copied are kept in memory.
pub const KEPT_BLOCKS: usize = 256;

/// Two devices behind a copy of the file of the first into the second, and the last byte of the copy or why there is none.
#[derive(Drop)]
pub struct Copied<D> {
    pub source: D,
    pub target: D,
    pub made: Result<u64, AdfError>,
}

/// Copies the file of a device into another device, in a version. It is refused as `repack` is.
pub fn copy_file<D: Device>(alloc: Global, source: D, target: D, version: Target) -> Copied<D>
    ensures copy { IsCopy version result.made (D.state source) (D.state result.source)
        (D.state target) (D.state result.target) }
    ensures reads { OnlyReads (D.state source) (D.state result.source) }
    ensures counts { NoCountFell (D.state target) (D.state result.target) }
    ensures rule { IfErr result.made NamesRule }
{
    let mut blocks = match BlockCache::new(alloc, source, KEPT_BLOCKS) {
        Ok(blocks) => blocks,
        Err((error, source)) => {
            return Copied {
                source,
                target,
                made: Err(error),
            };
        }
    };
    match repack(alloc, &mut blocks, target, version) {
        Ok(packed) => Copied {
            source: blocks.into_device(),
            target: packed.device,
            made: Ok(packed.end),
        },
        Err((error, target)) => Copied {
            source: blocks.into_device(),
            target,
            made: Err(error),
        },
    }
}

/// The line of a refusal, with its line feed.
pub fn refusal_line(alloc: Global, error: AdfError) -> Result<Vec<u8>, AllocError>
    requires { NamesRule error }
    ensures { IfOk result (λ line. line.items ≡ copy_line (Err error)) }
{
    let mut line = match reply_text(alloc, &Answer::Refused(error)) {
        Ok(text) => text.into_items(),
        Err(_) => return Err(AllocError),
    };
    line.push(b'\n')?;
    Ok(line)
}

/// The line of a copy, with its line feed.
pub fn line_of(alloc: Global, made: &Result<u64, AdfError>) -> Result<Vec<u8>, AllocError>
    requires { IfErr made.now NamesRule }
    ensures { IfOk result (λ line. line.items ≡ copy_line made.now) }
{
    match made {
        Ok(end) => Ok(format!(in alloc; "ok {end}\n")?.into_bytes()),
        Err(error) => refusal_line(alloc, *error),
    }
}

// The status with which a copy ends.
fn status_of(made: &Result<u64, AdfError>) -> Status
    ensures { result ≡ copy_status made.now }
{
    match made {
        Ok(_) => Status::Done,
        Err(AdfError::Memory) => Status::Memory,
        Err(AdfError::ReadFault | AdfError::WriteFault) => Status::DeviceFault,
        Err(_) => Status::No,
    }
}

// Whether a copy was refused for want of memory.
fn lacks_memory(made: &Result<u64, AdfError>) -> bool
    ensures { result ≡ lacks_memory made.now }
{
    match made {
        Err(AdfError::Memory) => true,
        _ => false,
    }
}

/// Says what was made of a copy, if there is memory for its line.
pub fn tell_copy<O: Sink>(alloc: Global, made: &Result<u64, AdfError>, output: &mut O) -> Status
    requires { IfErr made.now NamesRule }
    ensures { Tells made.now result (O.taken output.old) (O.taken output.new)
        (O.faults output.old) (O.faults output.new) }
{
    if lacks_memory(made) {
        return Status::Memory;
    }
    match line_of(alloc, made) {
        Ok(line) => ended(output, &line, status_of(made)),
        Err(_) => Status::Memory,
    }
}
