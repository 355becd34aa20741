//! Files that are made node by node, each on a device of its own.

ghost use Rattle.std.specs.Prelude.{IfOk};
ghost use Rattle.adf_tree.specs.Files.{IsWorking};
ghost use Rattle.cg_io.specs.Memory.{device_of};

use adf_model::{Edit, Mode, NodeId, Text};
use adf_tree::AdfFile;
use cg_io::MemoryDevice;
use std::alloc::Global;
use std::test::Fail;

/// A node below the one of a serial: of no data, or a link.
pub enum Made {
    Node(u64, &'static [u8]),
    Link(u64, &'static [u8], &'static [u8], &'static [u8]),
}

/// The first file: X is 1, K leads to Y of `b`, L through K to Z, M to a file that is not there, N to X, S to itself,
/// and O to no node.
pub static FIRST: [Made; 7] = [
    Made::Node(0, b"X"),
    Made::Link(0, b"K", b"b", b"/Y"),
    Made::Link(0, b"L", b"", b"/K/Z"),
    Made::Link(0, b"M", b"c", b"/Y"),
    Made::Link(0, b"N", b"a", b"/X"),
    Made::Link(0, b"S", b"", b"/S"),
    Made::Link(0, b"O", b"b", b"/W"),
];

/// The second: Y is 1, Z below it is 2, and B leads back to X of `a`.
pub static SECOND: [Made; 3] = [
    Made::Node(0, b"Y"),
    Made::Node(1, b"Z"),
    Made::Link(0, b"B", b"a", b"/X"),
];

pub fn text_of(alloc: Global, bytes: &[u8]) -> Result<Text, Fail> {
    Ok(Text::new(bytes.to_vec(alloc)?))
}

/// A device that holds nothing.
pub fn empty_device(alloc: Global) -> MemoryDevice {
    MemoryDevice::new(alloc, Text::new(Vec::new(alloc)))
}

fn node_of(serial: u64) -> NodeId {
    NodeId { file: 0, serial }
}

/// A fresh file, to be made.
pub fn fresh(alloc: Global) -> Result<AdfFile<MemoryDevice>, Fail>
    ensures { IfOk result (IsWorking device_of) }
{
    match AdfFile::open(alloc, empty_device(alloc), Mode::New, 1024) {
        Ok(file) => Ok(file),
        Err(refused) => Err(Fail::from(refused.error)),
    }
}

/// Makes a node below the one of a serial.
pub fn make_node(
    alloc: Global,
    file: &mut AdfFile<MemoryDevice>,
    parent: u64,
    name: &[u8],
) -> Result<(), Fail>
    requires { IsWorking device_of file.old }
    ensures { IsWorking device_of file.new }
{
    let edit = Edit::Create {
        parent: node_of(parent),
        name: text_of(alloc, name)?,
        label: text_of(alloc, b"")?,
    };
    match file.step(&edit) {
        Ok(_) => Ok(()),
        Err(error) => Err(Fail::from(error)),
    }
}

/// Makes a link below the one of a serial.
pub fn make_link(
    alloc: Global,
    file: &mut AdfFile<MemoryDevice>,
    parent: u64,
    name: &[u8],
    of: &[u8],
    path: &[u8],
) -> Result<(), Fail>
    requires { IsWorking device_of file.old }
    ensures { IsWorking device_of file.new }
{
    let edit = Edit::Link {
        parent: node_of(parent),
        name: text_of(alloc, name)?,
        file: text_of(alloc, of)?,
        path: text_of(alloc, path)?,
    };
    match file.step(&edit) {
        Ok(_) => Ok(()),
        Err(error) => Err(Fail::from(error)),
    }
}

/// The device of a file, with all that was made.
pub fn finished(mut file: AdfFile<MemoryDevice>) -> Result<MemoryDevice, Fail>
    requires { IsWorking device_of file }
{
    match file.commit() {
        Ok(()) => Ok(file.close()),
        Err(error) => Err(Fail::from(error)),
    }
}

fn make(alloc: Global, file: &mut AdfFile<MemoryDevice>, made: &Made) -> Result<(), Fail>
    requires { IsWorking device_of file.old }
    ensures { IsWorking device_of file.new }
{
    match made {
        Made::Node(parent, name) => make_node(alloc, file, *parent, name),
        Made::Link(parent, name, of, path) => make_link(alloc, file, *parent, name, of, path),
    }
}

/// A device that holds a file of these nodes.
pub fn device_with(alloc: Global, nodes: &[Made]) -> Result<MemoryDevice, Fail> {
    let mut file = fresh(alloc)?;
    'making: for made in nodes {
        make(alloc, &mut file, made)?;
    }
    finished(file)
}
