//! Files that are opened, edited by steps, and closed, one session after another over one device.
ghost use Rattle.std.specs.Prelude.{IfOk};
ghost use Rattle.cg_io.specs.Memory.{device_of};
ghost use Rattle.adf_tree.specs.Files.{IsWorking};

use crate::changes::text;
use crate::steps::{File, Step, take_all};
use adf_model::{AdfError, Mode};
use adf_tree::AdfFile;
use block_cache::BlockCache;
use cg_io::MemoryDevice;
use layout_lint::{Verdict, lint};
use std::alloc::Global;
use std::process::Abort;

/// A file that is opened, what is done, and what it leaves.
#[derive(Clone, Copy)]
pub struct Session {
    pub mode: Mode,
    pub steps: &'static [Step],
    /// How many nodes and gaps the linter finds then.
    pub left: (usize, usize),
    /// Whether the bytes are those from before.
    pub same: bool,
}

/// A device that holds these bytes.
pub fn device_with(alloc: Global, bytes: &[u8]) -> Result<MemoryDevice, AdfError> {
    let held = text(alloc, bytes)?;
    if held.items().len() > 1 << 24 {
        return Err(AdfError::Memory);
    }
    Ok(MemoryDevice::new(alloc, held))
}

/// The file of a device.
pub fn open_file(alloc: Global, device: MemoryDevice, mode: Mode) -> Result<File, AdfError>
    ensures { IfOk result (IsWorking device_of) }
{
    match AdfFile::open(alloc, device, mode, 64) {
        Ok(file) => Ok(file),
        Err(refused) => Err(refused.error),
    }
}

/// How many nodes and gaps the linter finds in what a device holds.
pub fn linted(alloc: Global, device: &MemoryDevice) -> Result<(usize, usize), AdfError> {
    let copy = device_with(alloc, device.held())?;
    match BlockCache::new(alloc, copy, 1) {
        Ok(mut blocks) => match lint(alloc, &mut blocks)? {
            Verdict::Sound { nodes, gaps, .. } => Ok((nodes.items().len(), gaps.items().len())),
            Verdict::Unsound { rule, place } => Err(AdfError::Layout { rule, place }),
        },
        Err((error, _)) => Err(error),
    }
}

// The mode of a session, where a fresh file is of this version.
fn mode_of(session: &Session, wide: bool) -> Mode {
    match session.mode {
        Mode::New if wide => Mode::NewWide,
        mode => mode,
    }
}

// Opens the file of a device, takes steps and closes it.
fn run(
    rt: &impl Abort,
    alloc: Global,
    device: MemoryDevice,
    mode: Mode,
    steps: &[Step],
) -> Result<MemoryDevice, AdfError> {
    let mut file = open_file(alloc, device, mode)?;
    take_all(rt, alloc, &mut file, steps)?;
    Ok(file.close())
}

/// One session after another on a device that holds nothing, where a fresh file is of this version: the device, as the last has
/// left it.
pub fn run_new(
    rt: &impl Abort,
    alloc: Global,
    wide: bool,
    sessions: &[Session],
) -> Result<MemoryDevice, AdfError> {
    let mut device = device_with(alloc, b"")?;
    for (i, session) in sessions.iter().enumerate() {
        let before = text(alloc, device.held())?;
        device = run(rt, alloc, device, mode_of(session, wide), session.steps)?;
        assert!(rt;
            linted(alloc, &device)? == session.left,
            "behind session {i}"
        );
        assert!(rt;
            (device.held() == before.items()) == session.same,
            "behind session {i}"
        );
    }
    Ok(device)
}
