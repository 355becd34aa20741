// Where the data of a node stand.
ghost use Rattle.std.specs.Prelude.{◌≡◌};
ghost use Rattle.disk_ptr.specs.declared.DiskPtr.{DiskPtr};

use disk_ptr::DiskPtr;

/// Where the data of a node stand: the number of their chunks, and the one chunk, or the table of several.
#[derive(Clone, Copy, PartialEq, Eq)]
pub struct DataPlace {
    pub count: u16,
    pub pointer: DiskPtr,
}

impl DataPlace {
    /// Data in no chunk.
    pub fn none() -> DataPlace
        ensures { result ≡ record { count = 0; pointer = DiskPtr.Blank } }
    {
        DataPlace {
            count: 0,
            pointer: DiskPtr::Blank,
        }
    }
}
