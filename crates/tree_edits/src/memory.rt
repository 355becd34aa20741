//! What is kept in memory of an open file.

use crate::rows::Rows;
use file_heap::Heap;

/// What is kept in memory of an open file, beside its bytes.
#[derive(Drop)]
pub struct Core {
    /// The free space.
    pub heap: Heap,
    /// The nodes by their serials.
    pub rows: Rows,
    /// Whether it is a file of the wide version.
    pub wide: bool,
    /// Whether it may be edited.
    pub writable: bool,
}
