//! The fields of a header as they are answered.

ghost use Rattle.std.specs.Prelude.{◌≡◌, ◌≤◌, ◌-◌, ◌^◌, min, IfOk, IfErr};
ghost use Rattle.adf_format.specs.Fields.{trimmed};
ghost use Rattle.adf_format.specs.Names.{data_size};
ghost use Rattle.adf_model.specs.declared.error.AdfError.{AdfError};
ghost use Rattle.tree_asks.specs.Headers.{dims_of, shape_of};

use adf_format::texts::trimmed;
use adf_model::{AdfError, Listing, Shape, Text, size};
use adf_records::{NodeHeader, dimensions_of};
use std::alloc::Global;

/// A copy of a text.
pub(crate) fn copied(alloc: Global, bytes: &[u8]) -> Result<Text, AdfError>
    ensures text { IfOk result (λ text. text ≡ bytes.now) }
    ensures memory { IfErr result (λ e. e ≡ AdfError.Memory) }
{
    match bytes.to_vec(alloc) {
        Ok(bytes) => Ok(Listing::new(bytes)),
        Err(_) => Err(AdfError::Memory),
    }
}

/// The text in a field, without the spaces behind it.
pub(crate) fn text_in(alloc: Global, field: &[u8; 32]) -> Result<Text, AdfError>
    ensures text { IfOk result (λ text. text ≡ trimmed field.now) }
    ensures memory { IfErr result (λ e. e ≡ AdfError.Memory) }
{
    copied(alloc, trimmed(field))
}

/// The shape that a header says, with 0 past the rank.
pub(crate) fn shape_in(header: &NodeHeader) -> Shape
    requires { header.now.rank ≤ 12 }
    ensures { result ≡ shape_of header.now }
{
    let rank = usize::from(header.rank);
    let numbers = dimensions_of(header);
    let mut dims = [0u64; 12];
    dims[..rank].copy_from_slice(&numbers[..rank]);
    Shape {
        kind: header.kind,
        rank: header.rank,
        dims,
    }
}

/// The bytes of a node's data, at most 2^64 - 1.
pub(crate) fn size_in(header: &NodeHeader) -> u64
    ensures { result ≡ min (data_size header.now.kind (dims_of header.now)) (2 ^ 64 - 1) }
{
    size(&Shape {
        kind: header.kind,
        rank: header.rank,
        dims: dimensions_of(header),
    })
}
