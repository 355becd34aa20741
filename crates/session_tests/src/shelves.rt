//! Names and numbers of a shelf.

ghost use Rattle.adf_library.specs.Shelf.{IsShelf};

use crate::fixtures::{device_of, text_of};
use adf_library::Shelf;
use adf_model::AdfError;
use cg_io::MemoryDevice;
use std::alloc::Global;
use std::test::Fail;

// Whether adding a device of these bytes is answered so; a refused one comes back.
fn adds(
    alloc: Global,
    shelf: &mut Shelf<MemoryDevice>,
    name: &[u8],
    held: &[u8],
    wanted: Result<u32, AdfError>,
) -> Result<bool, Fail>
    requires { IsShelf shelf.old }
    ensures { IsShelf shelf.new }
{
    if shelf.len() >= 10 {
        return Ok(false);
    }
    match shelf.add(text_of(alloc, name)?, device_of(alloc, held)?) {
        Ok(number) => Ok(Ok(number) == wanted),
        Err((error, device)) => Ok(Err(error) == wanted && device.held() == held),
    }
}

// Whether a device stands there that leaves its number when it is taken, and can be taken again once it
// was put back.
fn comes_back(shelf: &mut Shelf<MemoryDevice>, number: u32, name: &[u8]) -> bool
    requires { IsShelf shelf.old }
    ensures { IsShelf shelf.new }
{
    let Some(device) = shelf.take(number) else {
        return false;
    };
    let stays = shelf.number_of(name) == Some(number);
    shelf.put_back(number, device);
    stays && shelf.take(number).is_some()
}

fn is_number_of(shelf: &Shelf<MemoryDevice>, name: &[u8], wanted: Option<u32>) -> bool
    requires { IsShelf shelf.now }
{
    shelf.number_of(name) == wanted
}

fn is_empty_at(shelf: &mut Shelf<MemoryDevice>, number: u32) -> bool
    requires { IsShelf shelf.old }
    ensures { IsShelf shelf.new }
{
    shelf.take(number).is_none()
}

// Whether a device is discarded, or none is.
fn discards(shelf: &mut Shelf<MemoryDevice>, number: u32, wanted: bool) -> bool
    requires { IsShelf shelf.old }
    ensures { IsShelf shelf.new }
{
    shelf.discard(number) == wanted
}

#[test]
fn a_shelf_hands_out_each_name_and_each_device_once(rt: HostRuntime) -> Result<(), Fail> {
    let alloc = rt.alloc();
    let mut shelf = Shelf::new(alloc);
    assert!(rt; adds(alloc, &mut shelf, b"a", b"1", Ok(0))?);
    assert!(rt; adds(alloc, &mut shelf, b"b", b"22", Ok(1))?);
    assert!(rt; adds(alloc, &mut shelf, b"a", b"333", Err(AdfError::AlreadyOpen))?);
    assert!(rt; shelf.len() == 2);
    assert!(rt; is_number_of(&shelf, b"b", Some(1)));
    assert!(rt; is_number_of(&shelf, b"c", None));
    assert!(rt; is_empty_at(&mut shelf, 2));
    assert!(rt; comes_back(&mut shelf, 1, b"b"));
    assert!(rt; is_empty_at(&mut shelf, 1));
    assert!(rt; is_number_of(&shelf, b"b", Some(1)));
    Ok(())
}

#[test]
fn a_discarded_name_is_free_and_its_number_is_not(rt: HostRuntime) -> Result<(), Fail> {
    let alloc = rt.alloc();
    let mut shelf = Shelf::new(alloc);
    assert!(rt; adds(alloc, &mut shelf, b"a", b"1", Ok(0))?);
    assert!(rt; adds(alloc, &mut shelf, b"b", b"22", Ok(1))?);
    assert!(rt; discards(&mut shelf, 0, true));
    assert!(rt; discards(&mut shelf, 0, false));
    assert!(rt; discards(&mut shelf, 2, false));
    assert!(rt; is_number_of(&shelf, b"a", None));
    assert!(rt; is_empty_at(&mut shelf, 0));
    assert!(rt; adds(alloc, &mut shelf, b"a", b"333", Ok(2))?);
    assert!(rt; is_number_of(&shelf, b"a", Some(2)));
    assert!(rt; is_number_of(&shelf, b"b", Some(1)));
    Ok(())
}
