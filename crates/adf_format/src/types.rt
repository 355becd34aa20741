//! The types that the definitions of the format name.

use crate::lists::Listing;

/// The type of a node's data.
#[derive(Clone, Copy, Debug, PartialEq, Eq, Drop)]
pub enum DataType {
    Mt,
    I4,
    I8,
    U4,
    U8,
    R4,
    R8,
    X4,
    X8,
    B1,
    C1,
    Lk,
}

/// The byte order of numbers in data.
#[derive(Clone, Copy, Debug, PartialEq, Eq, Drop)]
pub enum Format {
    Little,
    Big,
}

/// What a range of a file is used for.
#[derive(Clone, Copy, Debug, PartialEq, Eq, Drop)]
pub enum ExtentKind {
    Header,
    FreeTable,
    Node,
    SubNodes,
    DataChunk,
    ChunkTable,
    FreeChunk,
    Filler,
}

/// A range of a file that has one use.
#[derive(Clone, Copy, Debug, PartialEq, Eq, Drop)]
pub struct Extent {
    pub place: u64,
    pub length: u64,
    pub kind: ExtentKind,
}

/// Ranges of a file, in the order in which they are told.
pub type Extents = Listing<Extent>;
