//! Opening, closing and discarding the file of one place.

ghost use Rattle.std.specs.Prelude.{◌≡◌, ◌^◌, ◌≤◌, Ok};
ghost use Rattle.adf_library.specs.Calls.{ClosesPlace, DiscardsPlace, OpensPlace, closed_as, refused_as};
ghost use Rattle.adf_library.specs.Places.{IsReadyPlace};
ghost use Rattle.adf_model.specs.Modes.{opening_of};

use crate::places::{Left, Place, husk_of, left_of};
use adf_model::{AdfError, Mode};
use adf_tree::{AdfFile, OpenRefused};
use cg_io::Device;
use std::alloc::Global;

// A closed file, as it was left.
fn closed<D: Device>(device: D, saved: Option<Left<D>>) -> Place<D>
    ensures { result ≡ closed_as device saved }
{
    match saved {
        None => Place::Closed(device),
        Some(left) => Place::Saved(device, left),
    }
}

// A closed file whose opening was refused.
fn refused<D: Device>(error: &AdfError, device: D, saved: Option<Left<D>>) -> Place<D>
    ensures { result ≡ refused_as error.now device saved }
{
    match error {
        AdfError::WriteFault => Place::Closed(device),
        _ => closed(device, saved),
    }
}

// Opens a closed file.
fn open_closed<D: Device>(
    alloc: Global,
    device: D,
    saved: Option<Left<D>>,
    mode: Mode,
    limit: u64,
) -> (Place<D>, Result<(), AdfError>)
    requires ready { IsReadyPlace D.state (closed_as device saved) }
    requires limit { (1 ≤ limit) × (limit ≤ 2 ^ 32) }
    ensures ready { IsReadyPlace D.state result.0 }
    ensures opens { OpensPlace D.state (opening_of mode) limit (closed_as device saved) result.0
        result.1 }
{
    match AdfFile::open(alloc, device, mode, limit) {
        Ok(file) => (Place::Open(file), Ok(())),
        Err(failed) => {
            let OpenRefused { error, device } = failed;
            (refused(&error, device, saved), Err(error))
        }
    }
}

/// Opens the file of a place. It is refused with NoSuchFile where none is there, with AlreadyOpen where it is open,
/// and as `AdfFile::open` refuses it; the device stays in its place.
pub(crate) fn open_place<D: Device>(
    alloc: Global,
    place: Place<D>,
    mode: Mode,
    limit: u64,
) -> (Place<D>, Result<(), AdfError>)
    requires ready { IsReadyPlace D.state place }
    requires limit { (1 ≤ limit) × (limit ≤ 2 ^ 32) }
    ensures ready { IsReadyPlace D.state result.0 }
    ensures opens { OpensPlace D.state (opening_of mode) limit place result.0 result.1 }
{
    match place {
        Place::Closed(device) => open_closed(alloc, device, None, mode, limit),
        Place::Saved(device, left) => open_closed(alloc, device, Some(left), mode, limit),
        Place::Open(file) => (Place::Open(file), Err(AdfError::AlreadyOpen)),
        Place::Taken => (Place::Taken, Err(AdfError::NoSuchFile)),
        Place::Gone(husk) => (Place::Gone(husk), Err(AdfError::NoSuchFile)),
    }
}

// Closes an open file: a broken one leaves any bytes.
fn close_file<D: Device>(file: AdfFile<D>) -> Place<D>
    requires { IsReadyPlace D.state (Place.Open file) }
    ensures ready { IsReadyPlace D.state result }
    ensures closes { ClosesPlace D.state (Place.Open file) result (Ok tt) }
{
    if file.is_broken() {
        return Place::Closed(file.close());
    }
    let left = left_of(&file);
    Place::Saved(file.close(), left)
}

/// Closes the file of a place, a broken one too. It is refused with NoSuchFile where none is there, and with NotOpen
/// where it is closed. It takes no memory.
pub(crate) fn close_place<D: Device>(place: Place<D>) -> (Place<D>, Result<(), AdfError>)
    requires { IsReadyPlace D.state place }
    ensures ready { IsReadyPlace D.state result.0 }
    ensures closes { ClosesPlace D.state place result.0 result.1 }
{
    match place {
        Place::Open(file) => (close_file(file), Ok(())),
        Place::Closed(device) => (Place::Closed(device), Err(AdfError::NotOpen)),
        Place::Saved(device, left) => (Place::Saved(device, left), Err(AdfError::NotOpen)),
        Place::Taken => (Place::Taken, Err(AdfError::NoSuchFile)),
        Place::Gone(husk) => (Place::Gone(husk), Err(AdfError::NoSuchFile)),
    }
}

/// Drops the device of a closed file. It is refused with NoSuchFile where none is there, and with AlreadyOpen where
/// it is open. It takes no memory.
pub(crate) fn discard_place<D: Device>(place: Place<D>) -> (Place<D>, Result<(), AdfError>)
    requires { IsReadyPlace D.state place }
    ensures ready { IsReadyPlace D.state result.0 }
    ensures discards { DiscardsPlace D.state place result.0 result.1 }
{
    match place {
        Place::Closed(device) | Place::Saved(device, _) => (Place::Gone(husk_of(&device)), Ok(())),
        Place::Open(file) => (Place::Open(file), Err(AdfError::AlreadyOpen)),
        Place::Taken => (Place::Taken, Err(AdfError::NoSuchFile)),
        Place::Gone(husk) => (Place::Gone(husk), Err(AdfError::NoSuchFile)),
    }
}
