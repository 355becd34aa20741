//! The fields of a header that say the shape of a node, and where its data stand.

ghost use Rattle.std.specs.Prelude.{◌≡◌, ◌∷◌, [], ◌+◌, ◌*◌, ◌^◌, ◌<◌, ◌≤◌, ◌++◌, length, map, take, OnOk};
ghost use Rattle.std.specs.List.{flat_map};
ghost use Rattle.adf_format.specs.declared.types.ExtentKind.{ExtentKind};
ghost use Rattle.adf_format.specs.Hex.{hex_text};
ghost use Rattle.adf_format.specs.Parts.{type_word, dimension_digits, chunk_count_at, node_length};
ghost use Rattle.adf_format.specs.Pointer.{pointer_text};
ghost use Rattle.adf_model.specs.Shapes.{dims_of};
ghost use Rattle.cg_io.specs.Answers.{AnswersWrite, IsRefusal};
ghost use Rattle.cg_io.specs.Blocks.{Both, ReadsFew};
ghost use Rattle.disk_ptr.specs.View.{view, HasOffset};
ghost use Rattle.field_access.specs.Fields.{WaitsWithin, range};
ghost use Rattle.tree_laws.specs.DataSwitch.{AreSpelled, shape_text};
ghost use Rattle.tree_laws.specs.MidEdit.{Puts};

use adf_data::DataPlace;
use adf_format::DataType;
use adf_format::fields::{NODE_CHUNKS, NODE_RANK, NODE_TYPE, dimension_digits, node_chunks};
use adf_format::texts::padded;
use adf_model::{AdfError, Shape};
use cg_io::Space;
use disk_ptr::fields::{put, put_number, put_pointer};
use field_access::write_field;

/// The most bytes that the type, the rank and the dimensions of a node have.
const SHAPE_LENGTH: usize = 226;

// The word of a type.
fn word_of(kind: DataType) -> [u8; 2]
    ensures { result ≡ type_word kind }
{
    match kind {
        DataType::Mt => *b"MT",
        DataType::I4 => *b"I4",
        DataType::I8 => *b"I8",
        DataType::U4 => *b"U4",
        DataType::U8 => *b"U8",
        DataType::R4 => *b"R4",
        DataType::R8 => *b"R8",
        DataType::X4 => *b"X4",
        DataType::X8 => *b"X8",
        DataType::B1 => *b"B1",
        DataType::C1 => *b"C1",
        DataType::Lk => *b"LK",
    }
}

// Writes the dimensions of a shape behind what is written, and says where they end.
fn put_dimensions(into: &mut [u8], at: usize, wide: bool, shape: &Shape) -> usize
    requires few { shape.now.rank ≤ 12 }
    requires within { at + shape.now.rank * dimension_digits wide ≤ length into.old }
    requires fits { AreSpelled wide (dims_of shape.now) }
    ensures end { result ≡ at + shape.now.rank * dimension_digits wide }
    ensures long { length into.new ≡ length into.old }
    ensures text { take result into.new ≡ take at into.old
        ++ flat_map (λ d. d) (map (hex_text (dimension_digits wide)) (dims_of shape.now)) }
{
    let digits = dimension_digits(wide);
    let mut end = at;
    for i in 0..usize::from(shape.rank) {
        end = put_number(into, end, shape.dims[i], digits);
    }
    end
}

// The type, the rank and the dimensions of a node as its header has them: how many bytes they are.
fn put_shape(into: &mut [u8], wide: bool, shape: &Shape) -> usize
    requires long { length into.old ≡ 226 }
    requires few { shape.now.rank ≤ 12 }
    requires fits { AreSpelled wide (dims_of shape.now) }
    ensures end { result ≡ 34 + shape.now.rank * dimension_digits wide }
    ensures long { length into.new ≡ 226 }
    ensures text { take result into.new ≡ shape_text wide shape.now.kind (dims_of shape.now) }
{
    let at = put(into, 0, &padded(&word_of(shape.kind)));
    let at = put_number(into, at, u64::from(shape.rank), NODE_RANK.length);
    put_dimensions(into, at, wide, shape)
}

/// Writes the type, the rank and the dimensions of the node whose header stands at a place.
pub(crate) fn write_shape<S: Space>(
    space: &mut S,
    place: u64,
    wide: bool,
    shape: &Shape,
) -> Result<(), AdfError>
    requires sound { S.is_sound space.old }
    requires header { place + node_length wide ≤ 2 ^ 44 }
    requires few { shape.now.rank ≤ 12 }
    requires fits { AreSpelled wide (dims_of shape.now) }
    ensures written { OnOk result (Both (Puts ExtentKind.Node (place + 96)
        (34 + length (dims_of shape.now) * dimension_digits wide)
        (shape_text wide shape.now.kind (dims_of shape.now)))
        (S.image space.old) (S.image space.new)) }
    ensures only { WaitsWithin (range place (node_length wide) ∷ []) (S.waiting space.old)
        (S.waiting space.new) }
    ensures writes { AnswersWrite S.is_sound S.state S.waiting 2 (ReadsFew 2) (IsRefusal ⊥)
        space.old space.new result }
{
    let mut text = [0u8; SHAPE_LENGTH];
    let end = put_shape(&mut text, wide, shape);
    write_field(space, place + NODE_TYPE.offset as u64, &text[..end])
}

/// Writes where the data stand of the node whose header stands at a place.
pub(crate) fn write_chunks<S: Space>(
    space: &mut S,
    place: u64,
    wide: bool,
    at: DataPlace,
) -> Result<(), AdfError>
    requires sound { S.is_sound space.old }
    requires header { place + node_length wide ≤ 2 ^ 44 }
    requires offset { HasOffset at.pointer }
    ensures written { OnOk result (Both (Puts ExtentKind.Node (place + chunk_count_at wide) 16
        (hex_text 4 at.count ++ pointer_text (view at.pointer)))
        (S.image space.old) (S.image space.new)) }
    ensures few { at.count < 16 ^ 4 }
    ensures only { WaitsWithin (range place (node_length wide) ∷ []) (S.waiting space.old)
        (S.waiting space.new) }
    ensures writes { AnswersWrite S.is_sound S.state S.waiting 2 (ReadsFew 2) (IsRefusal ⊥)
        space.old space.new result }
{
    let mut text = [0u8; 16];
    let end = put_number(&mut text, 0, u64::from(at.count), NODE_CHUNKS.length);
    put_pointer(&mut text, end, at.pointer);
    write_field(space, place + node_chunks(wide).offset as u64, &text)
}
