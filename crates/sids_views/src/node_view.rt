//! What is looked at of a node before its data are read.

ghost use Rattle.std.specs.Prelude.{◌≡◌, take};

use adf_model::{DataType, Shape};
use std::marker::Model;

/// The type and the dimensions of a node, and whether it has data.
#[derive(Drop)]
pub struct NodeView {
    shape: Shape,
    has_data: bool,
}

impl Model for NodeView {
    ghost use Rattle.std.specs.Prelude.{take};
    ghost use Rattle.sids_views.specs.Nodes.{View};

    ghost Value = { View };

    ghost view = { λ v. record {
      kind = v.shape.kind;
      dims = take v.shape.rank v.shape.dims;
      has_data = v.has_data;
    } };
}

impl NodeView {
    pub(crate) fn new(shape: Shape, has_data: bool) -> NodeView
        ensures kind { result.kind ≡ shape.kind }
        ensures dims { result.dims ≡ take shape.rank shape.dims }
        ensures presence { result.has_data ≡ has_data }
    {
        NodeView { shape, has_data }
    }

    /// The type.
    pub fn kind(&self) -> DataType
        ensures { result ≡ self.now.kind }
    {
        self.shape.kind
    }

    /// The dimensions.
    pub fn dims(&self) -> &[u64]
        ensures { result.now ≡ self.now.dims }
    {
        match self.shape.dims.get(..usize::from(self.shape.rank)) {
            Some(dims) => dims,
            None => &self.shape.dims,
        }
    }

    /// Whether there are data.
    pub fn has_data(&self) -> bool
        ensures { result ≡ self.now.has_data }
    {
        self.has_data
    }
}
