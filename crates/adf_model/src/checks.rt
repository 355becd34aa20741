//! What is a shape, and how long data are. No check takes memory.

ghost use Rattle.std.specs.Prelude.{◌≡◌, true, false};
ghost use Rattle.adf_format.specs.Names.{element_size, is_rank_of, is_dimension};
ghost use Rattle.std.specs.List.{list_all};
ghost use Rattle.adf_model.specs.Shapes.{is_shape, dims_of, shape_size};

use crate::tree::Shape;
use adf_format::DataType;

/// Whether a type and its dimensions are a shape: rank 0 exactly for the empty type, a rank of at
/// most 12, and each dimension from 1 to 2^32 - 1. Dimensions past the rank do not count.
pub fn is_shape(shape: &Shape) -> bool
    ensures { result ≡ is_shape false shape.now }
{
    is_shape_of(shape, false)
}

/// Whether a type and its dimensions are a shape of a wide file, where each dimension is from 1 to
/// 2^64 - 1.
pub fn is_wide_shape(shape: &Shape) -> bool
    ensures { result ≡ is_shape true shape.now }
{
    is_shape_of(shape, true)
}

fn is_shape_of(shape: &Shape, wide: bool) -> bool
    ensures { result ≡ is_shape wide shape.now }
{
    if shape.rank > 12 {
        return false;
    }
    if !is_rank(shape.kind, shape.rank) {
        return false;
    }
    are_dimensions(dims_of(shape), wide)
}

// Whether there are dimensions, as for every type but the empty one.
fn is_rank(kind: DataType, rank: u8) -> bool
    ensures { result ≡ is_rank_of kind rank }
{
    if kind == DataType::Mt {
        rank == 0
    } else {
        rank > 0
    }
}

fn are_dimensions(dims: &[u64], wide: bool) -> bool
    ensures { result ≡ list_all (is_dimension wide) dims.now }
{
    dims.iter().all(|dim| is_dimension(*dim, wide))
}

fn is_dimension(dim: u64, wide: bool) -> bool
    ensures { result ≡ is_dimension wide dim }
{
    if dim == 0 {
        return false;
    }
    wide || dim <= u64::from(u32::MAX)
}

// The dimensions that count.
fn dims_of(shape: &Shape) -> &[u64]
    ensures { result.now ≡ dims_of shape.now }
{
    let rank = usize::from(shape.rank).min(shape.dims.len());
    &shape.dims[..rank]
}

/// The bytes of one element: none for the empty type.
pub fn element_size(kind: DataType) -> u64
    ensures { result ≡ element_size kind }
{
    match kind {
        DataType::Mt => 0,
        DataType::B1 | DataType::C1 | DataType::Lk => 1,
        DataType::I4 | DataType::U4 | DataType::R4 => 4,
        DataType::I8 | DataType::U8 | DataType::R8 | DataType::X4 => 8,
        DataType::X8 => 16,
    }
}

/// The bytes of data of a shape: the size of an element times the dimensions, at most 2^64 - 1.
pub fn size(shape: &Shape) -> u64
    ensures { result ≡ shape_size shape.now }
{
    let mut bytes = element_size(shape.kind);
    for dim in dims_of(shape) {
        bytes = bytes.saturating_mul(*dim);
    }
    bytes
}
