// A gap, and where it stands in the lists of free chunks.
use adf_format::Extent;

/// The lists of free chunks, by the length of the chunks that are put into them.
#[derive(Clone, Copy, Debug, PartialEq, Eq)]
pub enum Class {
    Small,
    Medium,
    Large,
}

/// Where a free chunk stands: in a list, behind the chunk at a place there, or as its first.
#[derive(Clone, Copy)]
pub struct Spot {
    pub list: Class,
    pub front: Option<u64>,
}

/// A gap, and its spot where it is a free chunk of a list.
#[derive(Clone, Copy)]
pub struct Slot {
    pub gap: Extent,
    pub spot: Option<Spot>,
}
