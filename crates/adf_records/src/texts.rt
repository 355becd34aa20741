//! The words of types.

ghost use Rattle.std.specs.Prelude.{◌≡◌, ◌≤◌, length, bytes_eq};
ghost use Rattle.adf_format.specs.Fields.{text_field};
ghost use Rattle.adf_format.specs.Names.{is_mt};
ghost use Rattle.adf_format.specs.Parts.{type_of, type_word};
ghost use Rattle.adf_format.specs.FirstFault.{type_or_mt};

use adf_format::DataType;
use adf_format::texts::padded;

fn is_text(field: &[u8], text: &[u8]) -> bool
    requires { length text.now ≤ 32 }
    ensures { result ≡ bytes_eq (text_field 32 text.now) field.now }
{
    padded(text).as_slice() == field
}

pub fn type_of(field: &[u8]) -> Option<DataType>
    ensures { result ≡ type_of field.now }
{
    if is_text(field, b"MT") {
        return Some(DataType::Mt);
    }
    if is_text(field, b"I4") {
        return Some(DataType::I4);
    }
    if is_text(field, b"I8") {
        return Some(DataType::I8);
    }
    if is_text(field, b"U4") {
        return Some(DataType::U4);
    }
    if is_text(field, b"U8") {
        return Some(DataType::U8);
    }
    if is_text(field, b"R4") {
        return Some(DataType::R4);
    }
    if is_text(field, b"R8") {
        return Some(DataType::R8);
    }
    if is_text(field, b"X4") {
        return Some(DataType::X4);
    }
    if is_text(field, b"X8") {
        return Some(DataType::X8);
    }
    if is_text(field, b"B1") {
        return Some(DataType::B1);
    }
    if is_text(field, b"C1") {
        return Some(DataType::C1);
    }
    if is_text(field, b"LK") {
        return Some(DataType::Lk);
    }
    None
}

pub fn type_or_mt(field: &[u8]) -> DataType
    ensures { result ≡ type_or_mt field.now }
{
    match type_of(field) {
        Some(kind) => kind,
        None => DataType::Mt,
    }
}

// Whether it is the empty type.
pub fn is_mt(kind: DataType) -> bool
    ensures { result ≡ is_mt kind }
{
    match kind {
        DataType::Mt => true,
        _ => false,
    }
}

// The word of a type.
pub fn word_of(kind: DataType) -> &'static [u8]
    ensures word { result.now ≡ type_word kind }
    ensures two { length result.now ≡ 2 }
{
    match kind {
        DataType::Mt => b"MT",
        DataType::I4 => b"I4",
        DataType::I8 => b"I8",
        DataType::U4 => b"U4",
        DataType::U8 => b"U8",
        DataType::R4 => b"R4",
        DataType::R8 => b"R8",
        DataType::X4 => b"X4",
        DataType::X8 => b"X8",
        DataType::B1 => b"B1",
        DataType::C1 => b"C1",
        DataType::Lk => b"LK",
    }
}
