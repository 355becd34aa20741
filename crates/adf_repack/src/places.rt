//! Where the parts of a packed file stand.

ghost use Rattle.std.specs.Prelude.{◌≡◌, ◌↔◌, ℕ, ◌^◌, ◌<◌, length, get_or, IfOk, IfErr, IsErr};
ghost use Rattle.adf_format.specs.Parts.{node_length};
ghost use Rattle.adf_model.specs.declared.error.AdfError.{AdfError};
ghost use Rattle.adf_repack.specs.Places.{table_room, data_room, room_of, place_of, length_of, limited, LengthIsPacked};

use adf_format::fields::{ENTRY_LENGTH, HEAD_LENGTH, TAG_LENGTH};
use adf_model::AdfError;
use adf_records::{FILE_HEAD_LENGTH, node_length};
use std::alloc::{AllocError, Global};

/// How many children a node has, and how many bytes of data, where it has data.
#[derive(Clone, Copy, Drop)]
pub struct NodeShape {
    pub children: u64,
    pub size: Option<u64>,
}

/// Where the header of each node stands in a packed file, and how many bytes the file has.
///
/// What does not fit 64 bits is the greatest number of them.
#[derive(Drop)]
pub struct PackedPlaces {
    pub headers: Vec<u64>,
    pub length: u64,
}

/// Where the nodes stand, in their order, each behind all parts of those before it.
pub fn packed_places(
    alloc: Global,
    wide: bool,
    shapes: &[NodeShape],
) -> Result<PackedPlaces, AllocError>
    ensures length { IfOk result (λ p. p.length
        ≡ limited (length_of wide shapes.now)) }
    ensures count { IfOk result (λ p. length p.headers.items ≡ length shapes.now) }
    ensures headers { IfOk result (λ p. (k : ℕ) → k < length shapes.now
        → get_or p.headers.items k 0 ≡ limited (place_of wide shapes.now k)) }
{
    let mut headers = Vec::new(alloc);
    let mut place = FILE_HEAD_LENGTH as u64;
    for shape in shapes {
        headers.push(place)?;
        place = place.saturating_add(room_for(wide, shape));
    }
    Ok(PackedPlaces {
        headers,
        length: place,
    })
}

/// Refuses a file that no pointer reaches the end of.
pub fn check_length(length: u64) -> Result<(), AdfError>
    ensures exactly { IsErr result ↔ (2 ^ 44 < length) }
    ensures refused { IfErr result (λ e. e ≡ AdfError.Full length 0) }
{
    if length > 1 << 44 {
        return Err(AdfError::Full {
            asked: length,
            end: 0,
        });
    }
    Ok(())
}

/// The numbers of a tree give the length of its packed file.
pub fn length_is_packed()
    ensures { LengthIsPacked }
{}

// The bytes of the parts of a node.
fn room_for(wide: bool, shape: &NodeShape) -> u64
    ensures { result ≡ limited (room_of wide shape.now) }
{
    (node_length(wide) as u64)
        .saturating_add(table_room(shape.children))
        .saturating_add(data_room(shape.size))
}

// The bytes of a table of so many children: none without children.
pub(crate) fn table_room(children: u64) -> u64
    ensures { result ≡ limited (table_room children) }
{
    if children == 0 {
        return 0;
    }
    (ENTRY_LENGTH as u64)
        .saturating_mul(children)
        .saturating_add((HEAD_LENGTH + TAG_LENGTH) as u64)
}

// The bytes of a chunk for data of a size: none without data.
fn data_room(size: Option<u64>) -> u64
    ensures { result ≡ limited (data_room size) }
{
    match size {
        None => 0,
        Some(size) => size
            .saturating_add((HEAD_LENGTH + TAG_LENGTH) as u64)
            .max(32),
    }
}
