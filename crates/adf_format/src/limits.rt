//! Limits of trees that no field of a record states.

/// The children that a node has at most.
pub const MOST_CHILDREN: u32 = 1 << 20;

/// The depth at which a node stands at most; the root stands at depth 0.
pub const DEEPEST: u8 = 255;
