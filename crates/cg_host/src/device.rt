//! A file as a device.

ghost use Rattle.std.specs.Prelude.{◌≡◌, ◌^◌, ◌≤◌, length, Some, IfOk, OnOk};

use cg_io::{Device, DeviceFault};
use std::fs::{OpenFile, OpenOptions};
use std::io;
use std::io::{ErrorKind, Read, Seek, SeekFrom, Write};
use std::rt::Files;

// The most bytes that a device may have.
const MAX_LENGTH: u64 = 1 << 44;

/// A file, which is opened by the first call. One that is absent has no bytes until it is written.
#[derive(Drop)]
pub struct HostDevice<R: Files + Clone + Drop> {
    rt: R,
    path: String,
    file: Option<R::File>,
    // Where the file stands, if that is known.
    stands: Option<u64>,
    faults: u64,
    lost: u64,
    reads: u64,
    writes: u64,
}

impl<R: Files + Clone + Drop> HostDevice<R> {
    ghost use Rattle.cg_host.specs.Host.{device_of, untouched};

    /// The file at this path, not opened yet.
    pub fn new(rt: R, path: String) -> HostDevice<R>
        ensures { device_of result ≡ untouched }
    {
        HostDevice {
            rt,
            path,
            file: None,
            stands: None,
            faults: 0,
            lost: 0,
            reads: 0,
            writes: 0,
        }
    }
}

// Whether a file that cannot be opened for writing too may be one that can be read: it may not be written, or stands on a file
// system that is read only.
fn may_be_read(kind: ErrorKind) -> bool {
    matches!(
        kind,
        ErrorKind::PermissionDenied | ErrorKind::ReadOnlyFilesystem
    )
}

// Opens the file, unless it is open, or absent and not to be made. A file that may not be written is
// opened for reading alone, so that a write of it is what fails.
fn open_once<R: Files + Clone + Drop>(
    rt: &R,
    path: &str,
    file: &mut Option<R::File>,
    create: bool,
) -> io::Result<()> {
    if file.is_some() {
        return Ok(());
    }
    match OpenOptions::new()
        .read(true)
        .write(true)
        .create(create)
        .open(rt, path)
    {
        Ok(opened) => {
            *file = Some(opened);
            Ok(())
        }
        Err(error) => match error.kind() {
            ErrorKind::NotFound if !create => Ok(()),
            kind if !create && may_be_read(kind) => {
                *file = Some(OpenOptions::new().read(true).open(rt, path)?);
                Ok(())
            }
            _ => Err(error),
        },
    }
}

// How many bytes the file has.
fn measure<R: Files + Clone + Drop>(
    rt: &R,
    path: &str,
    file: &mut Option<R::File>,
) -> io::Result<u64>
    ensures { IfOk result (λ n. n ≤ 2 ^ 44) }
{
    open_once(rt, path, file, false)?;
    let length = match file {
        None => 0,
        Some(file) => file.metadata()?.len(),
    };
    if length > MAX_LENGTH {
        return Err(io::Error::from(ErrorKind::InvalidData));
    }
    Ok(length)
}

// Seeks a place, unless the file stands there already.
fn stand_at<F: Seek>(file: &mut F, stands: &mut Option<u64>, at: u64) -> io::Result<()>
    ensures { OnOk result (stands.new ≡ Some at) }
{
    if *stands == Some(at) {
        return Ok(());
    }
    *stands = None;
    file.seek(SeekFrom::Start(at))?;
    *stands = Some(at);
    Ok(())
}

// Reads the bytes up to the end, and zeros past it. It says how many were read.
fn fill<F: Read>(file: &mut F, into: &mut [u8]) -> io::Result<usize>
    ensures { IfOk result (λ n. n ≤ length into.new) }
{
    let mut filled = 0;
    'pieces: for _ in 0..u64::MAX {
        if filled == into.len() {
            return Ok(filled);
        }
        match file.read(&mut into[filled..]) {
            Ok(0) => {
                into[filled..].fill(0);
                return Ok(filled);
            }
            Ok(count) => filled += count,
            Err(error) => {
                if error.kind() != ErrorKind::Interrupted {
                    return Err(error);
                }
            }
        }
    }
    Err(io::Error::from(ErrorKind::TimedOut))
}

// Reads a block. After a failed read the file may stand anywhere.
fn read_from<F: Read + Seek>(
    file: &mut F,
    stands: &mut Option<u64>,
    n: u32,
    into: &mut [u8; 4096],
) -> io::Result<()> {
    let at = u64::from(n) * 4096;
    stand_at(file, stands, at)?;
    *stands = None;
    let filled = fill(file, into)?;
    *stands = Some(at + filled as u64);
    Ok(())
}

// Writes a block. After a failed write the file may stand anywhere.
fn write_to<F: Write + Seek>(
    file: &mut F,
    stands: &mut Option<u64>,
    n: u32,
    from: &[u8; 4096],
) -> io::Result<()> {
    let at = u64::from(n) * 4096;
    stand_at(file, stands, at)?;
    *stands = None;
    file.write_all(from)?;
    *stands = Some(at + 4096);
    Ok(())
}

fn read_block_at<R: Files + Clone + Drop>(
    rt: &R,
    path: &str,
    file: &mut Option<R::File>,
    stands: &mut Option<u64>,
    n: u32,
    into: &mut [u8; 4096],
) -> io::Result<()> {
    open_once(rt, path, file, false)?;
    match file {
        None => {
            into.fill(0);
            Ok(())
        }
        Some(file) => read_from(file, stands, n, into),
    }
}

fn write_block_at<R: Files + Clone + Drop>(
    rt: &R,
    path: &str,
    file: &mut Option<R::File>,
    stands: &mut Option<u64>,
    n: u32,
    from: &[u8; 4096],
) -> io::Result<()> {
    open_once(rt, path, file, true)?;
    match file {
        None => Err(io::Error::from(ErrorKind::NotFound)),
        Some(file) => write_to(file, stands, n, from),
    }
}

impl<R: Files + Clone + Drop> Device for HostDevice<R> {
    ghost use Rattle.cg_host.specs.Host.{device_of};

    ghost state = { device_of };

    fn length(&mut self) -> Result<u64, DeviceFault> {
        self.reads = self.reads.saturating_add(1);
        match measure(&self.rt, &self.path, &mut self.file) {
            Ok(length) => Ok(length),
            Err(_) => {
                self.faults = self.faults.saturating_add(1);
                Err(DeviceFault)
            }
        }
    }

    fn read_block(&mut self, n: u32, into: &mut [u8; 4096]) -> Result<(), DeviceFault> {
        self.reads = self.reads.saturating_add(1);
        match read_block_at(
            &self.rt,
            &self.path,
            &mut self.file,
            &mut self.stands,
            n,
            into,
        ) {
            Ok(()) => Ok(()),
            Err(_) => {
                self.faults = self.faults.saturating_add(1);
                Err(DeviceFault)
            }
        }
    }

    fn write_block(&mut self, n: u32, from: &[u8; 4096]) -> Result<(), DeviceFault> {
        self.writes = self.writes.saturating_add(1);
        match write_block_at(
            &self.rt,
            &self.path,
            &mut self.file,
            &mut self.stands,
            n,
            from,
        ) {
            Ok(()) => Ok(()),
            Err(_) => {
                self.faults = self.faults.saturating_add(1);
                self.lost = self.lost.saturating_add(1);
                Err(DeviceFault)
            }
        }
    }
}
