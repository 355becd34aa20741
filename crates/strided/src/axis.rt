//! One dimension of a selection.

ghost use Rattle.std.specs.Prelude.{◌≡◌, ◌<◌, ◌≤◌, slice_index};
ghost use Rattle.strided.specs.Axes.{axis_fits, is_whole};

use adf_model::{Selection, Shape};

/// A dimension, and the indices that are taken of it, from 1: those from `start` to at most `end`,
/// `stride` apart.
#[derive(Clone, Copy)]
pub(crate) struct Axis {
    pub dim: u64,
    pub start: u64,
    pub end: u64,
    pub stride: u64,
}

impl Axis {
    /// The axis of this number, from 0.
    pub fn of(shape: &Shape, selection: &Selection, number: usize) -> Axis
        requires { number < 12 }
        ensures dim { result.dim ≡ slice_index shape.now.dims number }
        ensures start { result.start ≡ slice_index selection.now.start number }
        ensures end { result.end ≡ slice_index selection.now.end number }
        ensures stride { result.stride ≡ slice_index selection.now.stride number }
    {
        Axis {
            dim: shape.dims[number],
            start: selection.start[number],
            end: selection.end[number],
            stride: selection.stride[number],
        }
    }

    /// Whether the indices lie within the dimension, and the stride is at least 1.
    pub fn fits(self) -> bool
        ensures { result ≡ axis_fits self }
    {
        if self.start < 1 || self.start > self.end {
            return false;
        }
        self.end <= self.dim && self.stride >= 1
    }

    /// Whether all indices of the dimension are taken.
    pub fn is_whole(self) -> bool
        ensures { result ≡ is_whole self }
    {
        self.start == 1 && self.end == self.dim && (self.stride == 1 || self.dim == 1)
    }
}
