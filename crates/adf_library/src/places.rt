//! What stands under the numbers of a shelf.

ghost use Rattle.std.specs.Prelude.{◌≡◌, [], ◌∷◌};
ghost use Rattle.adf_model.specs.Counts.{dropped};
ghost use Rattle.adf_library.specs.Shelf.{Gone, place_of};

use adf_model::Text;
use adf_tree::AdfFile;
use cg_io::Device;
use http_server::Log;

/// What is left of a device that was dropped: its last counts are still meant. It has no bytes.
#[derive(Drop)]
pub struct Husk<D> {
    pub last: Log<D, u8>,
}

/// What is left of an open file that was closed: its tree is still meant. It has no bytes.
#[derive(Drop)]
pub struct Left<D: Device> {
    pub last: Log<AdfFile<D>, u8>,
}

/// What stands under a number.
#[derive(Drop)]
pub enum Place<D: Device> {
    /// Nothing, while the device is taken.
    Taken,
    /// The device of a file that is closed, with any bytes.
    Closed(D),
    /// The device of a file that was closed with the tree that it then had.
    Saved(D, Left<D>),
    /// An open file, over its device.
    Open(AdfFile<D>),
    /// Nothing any more: the device was discarded.
    Gone(Husk<D>),
}

/// A name, and what stands under it.
#[derive(Drop)]
pub struct Slot<D: Device> {
    pub name: Text,
    pub place: Place<D>,
}

/// What is left of a device once it is dropped.
pub fn husk_of<D: Device>(device: &D) -> Husk<D>
    ensures { place_of D.state (Place.Gone result) ≡ Gone (dropped (D.state device.now)) }
{
    Husk {
        last: Log::new().and(device, &0),
    }
}

/// What is left of an open file once it is closed.
pub fn left_of<D: Device>(file: &AdfFile<D>) -> Left<D>
    ensures { result.last.items ≡ (file.now, 0) ∷ [] }
{
    Left {
        last: Log::new().and(file, &0),
    }
}
