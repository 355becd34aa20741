//! What a copy is made of, before it is written.

ghost use Rattle.std.specs.Prelude.{◌≡◌, ◌<◌, length, get_or};
ghost use Rattle.adf_repack.specs.Plans.{shape_at};

use crate::families::Families;
use crate::places::NodeShape;

/// The children of each node, how many they are and how many bytes of data it has, and where its header stands in the copy.
#[derive(Drop)]
pub struct Plan {
    pub families: Families,
    pub shapes: Vec<NodeShape>,
    pub headers: Vec<u64>,
    /// Whether the copy is of the wide version.
    pub wide: bool,
}

impl Plan {
    /// The shape of a node.
    pub fn shape(&self, number: usize) -> NodeShape
        requires { number < length self.now.shapes.items }
        ensures { result ≡ shape_at self.now number }
    {
        self.shapes[number]
    }

    /// Where the header of a node stands in the copy.
    pub fn header(&self, number: usize) -> u64
        requires { number < length self.now.headers.items }
        ensures { result ≡ get_or self.now.headers.items number 0 }
    {
        self.headers[number]
    }
}
