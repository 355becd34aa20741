//! The linter: whether the bytes of a file lay out a tree, and if not, the first rule that they break.
//!
//! It works in groups: the file header and the free table, the nodes in tree order from the root, the
//! three lists of free chunks, and the tiling. The verdict is that of the first broken rule, or of a
//! sound file its nodes, gaps, end, byte order and version. Nothing is written.

#![tactic(auto)]

mod chunks;
mod contents;
mod entries;
mod examine;
mod fillers;
mod gaps;
mod head;
mod keys;
mod lists;
mod look;
mod marks;
mod node;
mod owners;
mod pages;
mod paths;
mod stack;
mod verdict;
mod walk;
pub mod walking;

pub use adf_format::{Extent, ExtentKind, Extents, Format};
pub use examine::lint;
pub use owners::{
    NodeNames, Owned, OwnedExtents, Surveyed, extents, extents_in, owned_extents, survey,
    survey_places,
};
pub use paths::path_of;
pub use verdict::{NodePlace, NodePlaces, Verdict};
