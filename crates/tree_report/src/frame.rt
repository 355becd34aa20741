//! The children of a node that wait.

ghost use Rattle.std.specs.Prelude.{◌≡◌};
ghost use Rattle.tree_report.specs.Levels.{Advances};

use adf_model::{Child, Children, Text};
use std::alloc::Global;
use std::marker::Model;
use std::vec::IntoIter;

/// The children of a node that wait, and the way to the node.
#[derive(Drop)]
pub struct Frame {
    way: Text,
    rest: IntoIter<Child, Global>,
}

impl Model for Frame {
    ghost use Rattle.std.specs.Vec.Iter.{into_iter_items};
    ghost use Rattle.tree_report.specs.Level.{Level};

    ghost Value = { Level };

    ghost view = { λ f. record { way = f.way; rest = into_iter_items f.rest } };
}

impl Frame {
    /// All children of a node wait.
    pub(crate) fn new(way: Text, children: Children) -> Frame
        ensures way { result.way ≡ way }
        ensures rest { result.rest ≡ children }
    {
        Frame {
            way,
            rest: children.into_items().into_iter(),
        }
    }

    /// The way to the node.
    pub(crate) fn way(&self) -> &[u8]
        ensures { result.now ≡ self.now.way }
    {
        self.way.items()
    }

    /// Takes the next child, where one waits.
    pub(crate) fn advance(&mut self) -> Option<Child>
        ensures { Advances self.old result self.new }
    {
        self.rest.next()
    }
}
