//! What the linter says, and what ends its work before the end.

ghost use Rattle.std.specs.Prelude.{◌≡◌, ◌^◌, ◌≤◌, ◌<◌, Err};
ghost use Rattle.adf_format.specs.Parts.{node_length};
ghost use Rattle.adf_format.specs.FirstFault.{fits, has_room};
ghost use Rattle.layout_lint.specs.declared.verdict.Halt.{Halt};

use adf_format::{Extents, Format, Listing};
use adf_records::{FILE_HEAD_LENGTH, node_length};

/// Where a node of a sound file stands.
#[derive(Clone, Copy, Debug, PartialEq, Eq, Drop)]
pub struct NodePlace {
    /// The place of its header, in bytes from the start of the file.
    pub place: u64,
    /// The number of its parent among the nodes; 0 for the root.
    pub parent: u64,
    /// Its place among the children of its parent, from 0; 0 for the root.
    pub position: u32,
    /// How far it stands below the root: 0 to 255.
    pub depth: u8,
}

/// The nodes of a sound file, in tree order.
pub type NodePlaces = Listing<NodePlace>;

/// What the linter says of a file.
#[derive(Debug, Drop)]
pub enum Verdict {
    /// The bytes lay out a tree: its nodes in tree order, the gaps by place, the last byte, the byte
    /// order of numbers in data, and whether the file is of the wide version.
    Sound {
        nodes: NodePlaces,
        gaps: Extents,
        end: u64,
        format: Format,
        wide: bool,
    },
    /// The first broken rule, from 1 to 30, and where, in bytes from the start of the file.
    Unsound {
        rule: u8,
        place: u64,
    },
}

/// A broken rule, and where.
#[derive(Clone, Copy, Debug, PartialEq, Eq, Drop)]
pub struct Broken {
    pub rule: u8,
    pub place: u64,
}

/// What ends the work before its end.
#[derive(Clone, Copy, Debug, PartialEq, Eq, Drop)]
pub enum Halt {
    /// A rule is broken.
    Broken(Broken),
    /// Want of memory.
    Memory,
    /// A read failed.
    Read,
}

/// The answer where a rule is broken.
pub fn halt_at<T>(rule: u8, place: u64) -> Result<T, Halt>
    ensures { result ≡ Err (Halt.Broken (record { rule = rule; place = place })) }
{
    Err(Halt::Broken(Broken { rule, place }))
}

/// Where the walk reads: the version of the file, and its last byte.
#[derive(Clone, Copy, Drop)]
pub struct Span {
    pub wide: bool,
    pub end: u64,
}

impl Span {
    /// Whether a range begins behind the free table and ends by the last byte.
    pub fn fits(self, place: u64, length: u64) -> bool
        requires end { self.end < 2 ^ 44 }
        requires some { 1 ≤ length }
        ensures { result ≡ fits self.end place length }
    {
        FILE_HEAD_LENGTH as u64 <= place && place <= self.end && length <= self.end - place + 1
    }

    /// Whether so many more bytes fit beside those of all extents found so far.
    pub fn has_room(self, used: u64, length: u64) -> bool
        requires end { self.end < 2 ^ 44 }
        requires some { 1 ≤ length }
        ensures { result ≡ has_room self.end used length }
    {
        used <= self.end && length <= self.end - used + 1
    }

    /// The length of a node's header.
    pub fn node_length(self) -> usize
        ensures { result ≡ node_length self.wide }
    {
        node_length(self.wide)
    }
}
