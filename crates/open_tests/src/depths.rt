//! How deep a file may be.
ghost use Rattle.cg_io.specs.Memory.{device_of};
ghost use Rattle.adf_tree.specs.Files.{IsWorking};

use crate::changes::Change;
use crate::sessions::{device_with, linted, open_file};
use crate::steps::{File, Step, take};
use adf_model::{AdfError, Mode};
use std::alloc::Global;
use std::test::Fail;

// Makes so many nodes in work, each below the last: whether they draw their serials in turn.
fn make_chain(alloc: Global, file: &mut File, levels: u64) -> Result<bool, AdfError>
    requires { IsWorking device_of file.old }
    ensures { IsWorking device_of file.new }
{
    for parent in 0..levels {
        let child = Change::Create(parent, b"A", b"A_t");
        if !take(alloc, file, Step::Makes(child, parent + 1))? {
            return Ok(false);
        }
    }
    Ok(true)
}

// Whether no node is made deeper than 255 levels, and the file of these is sound.
fn ends_at_depth(alloc: Global, mode: Mode) -> Result<bool, AdfError> {
    let mut file = open_file(alloc, device_with(alloc, b"")?, mode)?;
    if !make_chain(alloc, &mut file, 255)? || !take(alloc, &mut file, Step::Commit)? {
        return Ok(false);
    }
    let deeper = Step::Refuses(Change::Create(255, b"A", b"A_t"), AdfError::TooDeep);
    if !take(alloc, &mut file, deeper)? {
        return Ok(false);
    }
    let device = file.close();
    Ok(linted(alloc, &device)? == (256, 0))
}

#[test]
fn no_node_is_deeper_than_255(rt: HostRuntime) -> Result<(), Fail> {
    assert!(rt; ends_at_depth(rt.alloc(), Mode::New)?);
    Ok(())
}
