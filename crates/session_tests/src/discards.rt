//! Files that are discarded.

ghost use Rattle.std.specs.Prelude.{IfOk};
ghost use Rattle.cg_io.specs.Memory.{device_of};
ghost use Rattle.adf_library.specs.Library.{IsLibrary};

use crate::fixtures::{device_of, text_of};
use adf_library::{Library, Shelf};
use adf_model::{AdfError, Mode};
use cg_io::MemoryDevice;
use std::alloc::Global;
use std::test::Fail;

// A library of one file, which holds nothing.
fn one_file(alloc: Global) -> Result<Library<MemoryDevice>, Fail>
    ensures { IfOk result (IsLibrary device_of) }
{
    let mut shelf = Shelf::new(alloc);
    if let Err((error, _)) = shelf.add(text_of(alloc, b"a")?, device_of(alloc, b"")?) {
        return Err(Fail::from(error));
    }
    match Library::new(alloc, shelf) {
        Ok(library) => Ok(library),
        Err((error, _)) => Err(Fail::from(error)),
    }
}

fn opens(library: &mut Library<MemoryDevice>, wanted: Result<(), AdfError>) -> bool
    requires { IsLibrary device_of library.old }
    ensures { IsLibrary device_of library.new }
{
    library.open(0, Mode::New, 16) == wanted
}

fn closes(library: &mut Library<MemoryDevice>, wanted: Result<(), AdfError>) -> bool
    requires { IsLibrary device_of library.old }
    ensures { IsLibrary device_of library.new }
{
    library.close(0) == wanted
}

fn discards(library: &mut Library<MemoryDevice>, wanted: Result<(), AdfError>) -> bool
    requires { IsLibrary device_of library.old }
    ensures { IsLibrary device_of library.new }
{
    library.discard(0) == wanted
}

// Whether no device is left on the shelf.
fn leaves_none(library: Library<MemoryDevice>) -> bool
    requires { IsLibrary device_of library }
{
    let mut shelf = library.finish();
    shelf.take(0).is_none() && shelf.number_of(b"a").is_none()
}

#[test]
fn a_file_is_discarded_once_it_is_closed(rt: HostRuntime) -> Result<(), Fail> {
    let mut library = one_file(rt.alloc())?;
    assert!(rt; opens(&mut library, Ok(())));
    assert!(rt; discards(&mut library, Err(AdfError::AlreadyOpen)));
    assert!(rt; closes(&mut library, Ok(())));
    assert!(rt; discards(&mut library, Ok(())));
    assert!(rt; discards(&mut library, Err(AdfError::NoSuchFile)));
    assert!(rt; opens(&mut library, Err(AdfError::NoSuchFile)));
    assert!(rt; leaves_none(library));
    Ok(())
}
