//! One call each, and what it answers.

ghost use Rattle.std.specs.Prelude.{IfOk};
ghost use Rattle.adf_library.specs.Library.{IsLibrary};
ghost use Rattle.adf_library.specs.Shelf.{IsShelf, IsWhole};
ghost use Rattle.cg_io.specs.Memory.{device_of};

use adf_library::{Library, Shelf};
use adf_model::{AdfError, Mode, NodeId, Query, Reply, Text};
use cg_io::MemoryDevice;
use std::alloc::Global;
use std::test::Fail;

/// A library of one device, named `a`.
pub fn library_of_one(alloc: Global, one: MemoryDevice) -> Result<Library<MemoryDevice>, Fail>
    ensures { IfOk result (IsLibrary device_of) }
{
    let mut shelf = Shelf::new(alloc);
    put(alloc, &mut shelf, b"a", one)?;
    library_over(alloc, shelf)
}

/// A library of two devices, named `a` and `b`.
pub fn library_of_two(
    alloc: Global,
    one: MemoryDevice,
    other: MemoryDevice,
) -> Result<Library<MemoryDevice>, Fail>
    ensures { IfOk result (IsLibrary device_of) }
{
    let mut shelf = Shelf::new(alloc);
    put(alloc, &mut shelf, b"a", one)?;
    put(alloc, &mut shelf, b"b", other)?;
    library_over(alloc, shelf)
}

fn put(
    alloc: Global,
    shelf: &mut Shelf<MemoryDevice>,
    name: &[u8],
    device: MemoryDevice,
) -> Result<(), Fail>
    requires shelf { IsShelf shelf.old }
    requires whole { IsWhole shelf.old }
    ensures shelf { IsShelf shelf.new }
    ensures whole { IsWhole shelf.new }
{
    if shelf.len() >= 10 {
        return Err(Fail::from(AdfError::Memory));
    }
    match shelf.add(Text::new(name.to_vec(alloc)?), device) {
        Ok(_) => Ok(()),
        Err((error, _)) => Err(Fail::from(error)),
    }
}

fn library_over(alloc: Global, shelf: Shelf<MemoryDevice>) -> Result<Library<MemoryDevice>, Fail>
    requires shelf { IsShelf shelf }
    requires whole { IsWhole shelf }
    ensures { IfOk result (IsLibrary device_of) }
{
    match Library::new(alloc, shelf) {
        Ok(library) => Ok(library),
        Err((error, _)) => Err(Fail::from(error)),
    }
}

/// Whether an opening is answered so.
pub fn opens(
    library: &mut Library<MemoryDevice>,
    number: u32,
    mode: Mode,
    wanted: Result<(), AdfError>,
) -> bool
    requires { IsLibrary device_of library.old }
    ensures { IsLibrary device_of library.new }
{
    library.open(number, mode, 1024) == wanted
}

pub fn closes(
    library: &mut Library<MemoryDevice>,
    number: u32,
    wanted: Result<(), AdfError>,
) -> bool
    requires { IsLibrary device_of library.old }
    ensures { IsLibrary device_of library.new }
{
    library.close(number) == wanted
}

pub fn discards(
    library: &mut Library<MemoryDevice>,
    number: u32,
    wanted: Result<(), AdfError>,
) -> bool
    requires { IsLibrary device_of library.old }
    ensures { IsLibrary device_of library.new }
{
    library.discard(number) == wanted
}

/// Whether a query is answered by a node.
pub fn leads(
    library: &mut Library<MemoryDevice>,
    query: &Query,
    wanted: Result<NodeId, AdfError>,
) -> bool
    requires { IsLibrary device_of library.old }
    ensures { IsLibrary device_of library.new }
{
    match library.ask(query) {
        Ok(Reply::Node(node)) => Ok(node) == wanted,
        Ok(_) => false,
        Err(error) => Err(error) == wanted,
    }
}

/// Whether a query is answered by bytes.
pub fn says(library: &mut Library<MemoryDevice>, query: &Query, wanted: &[u8]) -> bool
    requires { IsLibrary device_of library.old }
    ensures { IsLibrary device_of library.new }
{
    match library.ask(query) {
        Ok(Reply::Bytes(bytes)) => bytes.items() == wanted,
        _ => false,
    }
}

/// The number of devices that a shelf has after all files are closed.
pub fn left_on_shelf(library: Library<MemoryDevice>, number: u32) -> bool
    requires { IsLibrary device_of library }
{
    let mut shelf = library.finish();
    shelf.take(number).is_some()
}
