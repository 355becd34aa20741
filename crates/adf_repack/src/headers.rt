//! The headers of a packed file and of its nodes.

ghost use Rattle.std.specs.Prelude.{◌≡◌, ◌+◌, ◌^◌, ◌≤◌, ◌<◌, ℕ, map, take, replicate, get_or, ◌-◌, ◌++◌, cond, is_some, IsTrue, IsFalse};
ghost use Rattle.adf_format.specs.Hex.{hex_text};
ghost use Rattle.adf_format.specs.Parts.{node_length, dimension_digits};
ghost use Rattle.adf_format.specs.Pointer.{Blank, To};
ghost use Rattle.adf_records.specs.View.{record_of, header_of, pointers_of, HasOffsets, HasHeaderOffsets, HasFreeOffsets};
ghost use Rattle.disk_ptr.specs.View.{view, HasOffset};
ghost use Rattle.layout_lint.specs.Nodes.{numbers_of};
ghost use Rattle.packed_laws.specs.PackedForm.{packed_header_of};
ghost use Rattle.adf_repack.specs.Places.{room_of};
ghost use Rattle.adf_repack.specs.Copies.{pointer_when, copied_record, CopiedIsPacked};

use crate::places::{NodeShape, table_room};
use adf_format::Format;
use adf_format::fields::FREE_TABLE_PLACE;
use adf_records::{
    FILE_HEAD_LENGTH, FileHeader, FreeTable, NodeHeader, dimensions_of, node_length,
};
use disk_ptr::fields::put_number;
use disk_ptr::{DiskPtr, from_place};

/// The header of a packed file with this last byte.
pub fn file_header(wide: bool, format: Format, end: u64) -> FileHeader
    requires { end < 2 ^ 44 }
    ensures says { header_of result ≡ packed_header_of wide format end }
    ensures offsets { HasHeaderOffsets result }
{
    FileHeader {
        what: what(wide),
        created: [0; 28],
        modified: [0; 28],
        format,
        size_letter: b'L',
        sizes: [b'0'; 24],
        root: pointer(true, FILE_HEAD_LENGTH as u64),
        end: pointer(true, end),
        free_table: pointer(true, FREE_TABLE_PLACE as u64),
        extra: *b"000000001000",
    }
}

// What a file of the version is.
fn what(wide: bool) -> [u8; 32]
    ensures { result ≡ (packed_header_of wide Format.Little 0).what }
{
    if wide {
        *b"@(#)ADF Database Version W02007>"
    } else {
        *b"@(#)ADF Database Version A02007>"
    }
}

/// A free table without lists.
pub fn no_lists() -> FreeTable
    ensures says { pointers_of result ≡ replicate 6 Blank }
    ensures offsets { HasFreeOffsets result }
{
    FreeTable {
        small_first: DiskPtr::Blank,
        small_last: DiskPtr::Blank,
        medium_first: DiskPtr::Blank,
        medium_last: DiskPtr::Blank,
        large_first: DiskPtr::Blank,
        large_last: DiskPtr::Blank,
    }
}

/// The header of a node at a place of a packed file, by its header as it was read and its dimensions, with zeros past the
/// rank.
pub fn packed_header(
    header: &NodeHeader,
    values: &[u64; 12],
    wide: bool,
    place: u64,
    shape: NodeShape,
) -> NodeHeader
    requires values { values.now ≡ take header.now.rank (numbers_of header.now)
        ++ replicate (12 - header.now.rank) 0 }
    requires fits { (i : ℕ) → i < 12 → get_or values.now i 0 < 16 ^ dimension_digits wide }
    requires few { shape.children ≤ 2 ^ 20 }
    requires near { place + room_of wide shape ≤ 2 ^ 44 }
    ensures says { record_of result ≡ copied_record wide (record_of header.now) place shape }
    ensures offsets { HasOffsets result }
    ensures wide { result.wide ≡ wide }
{
    let table = place + node_length(wide) as u64;
    NodeHeader {
        wide,
        name: header.name,
        label: header.label,
        children: shape.children as u32,
        entries: shape.children as u32,
        table: pointer(shape.children != 0, table),
        kind: header.kind,
        rank: header.rank,
        dims: dimensions(values, wide),
        chunks: chunk_count(shape.size),
        chunk: pointer(shape.size.is_some(), table + table_room(shape.children)),
    }
}

/// What is written of the header of a node is what a packed file has there.
pub fn copied_is_packed()
    ensures { CopiedIsPacked }
{}

// The pointer to a place.
pub(crate) fn pointer_to(place: u64) -> DiskPtr
    requires { place < 2 ^ 44 }
    ensures says { view result ≡ To place }
    ensures offset { HasOffset result }
{
    from_place(place)
}

// The pointer to a place, or the blank one.
fn pointer(there: bool, place: u64) -> DiskPtr
    requires { IsTrue there → place < 2 ^ 44 }
    ensures says { view result ≡ pointer_when there place }
    ensures offset { HasOffset result }
{
    if there {
        pointer_to(place)
    } else {
        DiskPtr::Blank
    }
}

// No chunk, or one.
fn chunk_count(size: Option<u64>) -> u16
    ensures { result ≡ cond (is_some size) 1 0 }
{
    match size {
        None => 0,
        Some(_) => 1,
    }
}

// A dimension in the digits of the version.
fn dimension(value: u64, wide: bool) -> [u8; 16]
    requires { value < 16 ^ dimension_digits wide }
    ensures { take (dimension_digits wide) result ≡ hex_text (dimension_digits wide) value }
{
    let mut text = [0u8; 16];
    let _ = put_number(&mut text, 0, value, if wide { 16 } else { 8 });
    text
}

// Twelve dimensions.
fn dimensions(values: &[u64; 12], wide: bool) -> [[u8; 16]; 12]
    requires { (i : ℕ) → i < 12 → get_or values.now i 0 < 16 ^ dimension_digits wide }
    ensures { map (take (dimension_digits wide)) result
        ≡ map (hex_text (dimension_digits wide)) values.now }
{
    [
        dimension(values[0], wide),
        dimension(values[1], wide),
        dimension(values[2], wide),
        dimension(values[3], wide),
        dimension(values[4], wide),
        dimension(values[5], wide),
        dimension(values[6], wide),
        dimension(values[7], wide),
        dimension(values[8], wide),
        dimension(values[9], wide),
        dimension(values[10], wide),
        dimension(values[11], wide),
    ]
}

/// The dimensions of a node, with zeros past the rank.
pub fn dimensions_within(header: &NodeHeader) -> [u64; 12]
    ensures { result ≡ take header.now.rank (numbers_of header.now)
        ++ replicate (12 - header.now.rank) 0 }
{
    let values = dimensions_of(header);
    let rank = usize::from(header.rank).min(12);
    let mut within = [0u64; 12];
    within[..rank].copy_from_slice(&values[..rank]);
    within
}

/// Whether a version has digits for each of these dimensions.
pub fn dimensions_fit(values: &[u64; 12], wide: bool) -> bool
    ensures fit { IsTrue result → (i : ℕ) → i < 12
        → get_or values.now i 0 < 16 ^ dimension_digits wide }
    ensures long { IsFalse result → (i : ℕ) × (i < 12)
        × (16 ^ dimension_digits wide ≤ get_or values.now i 0) }
{
    let most = if wide { u64::MAX } else { u64::from(u32::MAX) };
    for i in 0..12 {
        if values[i] > most {
            return false;
        }
    }
    true
}
