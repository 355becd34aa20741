//! The lists of the calls on trees, which contracts see as the lists of their items.

use crate::tree::{Child, Edit, NodeId};
use adf_format::Listing;

/// Elements of an array that stand one behind another: the first of them, counted from 0, and how many.
#[derive(Clone, Copy, PartialEq, Eq)]
pub struct Run {
    pub first: u64,
    pub count: u64,
}

/// A part of a path: its first byte, and the first byte behind it.
#[derive(Clone, Copy, PartialEq, Eq)]
pub struct PathRange {
    pub start: usize,
    pub end: usize,
}

/// Bytes of a text or of data.
pub type Text = Listing<u8>;

/// The children of a node, in their order.
pub type Children = Listing<Child>;

/// The edits of a group.
pub type Edits = Listing<Edit>;

/// The nodes that a group created, in the order of its edits.
pub type Serials = Listing<NodeId>;

/// Whole numbers with a sign.
pub type Numbers = Listing<i64>;

/// The runs of a selection, in its order.
pub type Runs = Listing<Run>;

/// The components of a path, in their order.
pub type Ranges = Listing<PathRange>;

/// Numbers of rules.
pub type Rules = Listing<u8>;
