//! The fields of a record, read and written by the table of them (`adf_format::fields`).

ghost use Rattle.std.specs.Prelude.{◌≡◌, ◌+◌, ◌^◌, ◌<◌, ◌≤◌, ◌++◌, length, take, Some, None, IfSome, option_map};
ghost use Rattle.adf_format.specs.Hex.{is_hex, hex_text};
ghost use Rattle.adf_format.specs.Pointer.{pointer, pointer_text, is_blank, is_place};
ghost use Rattle.adf_format.specs.Fields.{field, holds};
ghost use Rattle.adf_format.specs.RecordFields.{field_in, number_in, holds_tag, tag_text};
ghost use Rattle.adf_format.specs.FirstFault.{is_pointer_to};
ghost use Rattle.adf_format.specs.Records.{pointer_of};
ghost use Rattle.disk_ptr.specs.View.{view, HasOffset};

use crate::{DiskPtr, decode, encode, read_long_hex, write_long_hex};
use adf_format::fields::{Field, FieldKind};

// ---- reading

/// The bytes of a field.
pub fn bytes_of(bytes: &[u8], at: Field) -> &[u8]
    requires { at.offset + at.length ≤ length bytes.now }
    ensures value { result.now ≡ field_in bytes.now at }
    ensures long { length result.now ≡ at.length }
{
    &bytes[at.offset..at.offset + at.length]
}

/// A copy of the bytes of a field, of the length that is wanted.
pub fn copied<const N: usize>(bytes: &[u8], at: Field) -> [u8; N]
    requires { at.offset + N ≤ length bytes.now }
    ensures { result ≡ field bytes.now at.offset N }
{
    let mut text = [0u8; N];
    text.copy_from_slice(&bytes[at.offset..at.offset + N]);
    text
}

/// Whether a text stands at an offset.
pub fn holds(bytes: &[u8], offset: usize, text: &[u8]) -> bool
    requires { offset + length text.now ≤ length bytes.now }
    ensures { result ≡ holds bytes.now offset text.now }
{
    &bytes[offset..offset + text.len()] == text
}

/// Whether the tag stands in its field; a field of another kind has none to compare.
pub fn holds_tag(bytes: &[u8], at: Field) -> bool
    requires { at.offset + length (tag_text at) ≤ length bytes.now }
    ensures { result ≡ holds_tag bytes.now at }
{
    match at.kind {
        FieldKind::Tag(text) => holds(bytes, at.offset, &text),
        _ => holds(bytes, at.offset, &[]),
    }
}

/// Whether a field is hexadecimal.
pub fn is_number(bytes: &[u8], at: Field) -> bool
    requires some { 1 ≤ at.length }
    requires few { at.length ≤ 16 }
    requires within { at.offset + at.length ≤ length bytes.now }
    ensures { result ≡ is_hex (field_in bytes.now at) }
{
    read_long_hex(bytes_of(bytes, at)).is_some()
}

/// The number of a hexadecimal field, or 0.
#[tactic(auto, using(crate::proofs::Digits::some_power))]
pub fn number(bytes: &[u8], at: Field) -> u64
    requires some { 1 ≤ at.length }
    requires few { at.length ≤ 16 }
    requires within { at.offset + at.length ≤ length bytes.now }
    ensures value { result ≡ number_in bytes.now at }
    ensures small { result < 16 ^ at.length }
{
    match read_long_hex(bytes_of(bytes, at)) {
        Some(value) => value,
        None => 0,
    }
}

/// The pointer of a field: none only if its bytes are no pointer.
pub fn pointer_at(bytes: &[u8], at: Field) -> Option<DiskPtr>
    requires { at.offset + 12 ≤ length bytes.now }
    ensures value { option_map view result ≡ pointer (field bytes.now at.offset 12) }
    ensures offset { IfSome result HasOffset }
{
    decode(&copied(bytes, at))
}

/// The pointer of a field, or the blank one.
pub fn pointer_or_blank(bytes: &[u8], at: Field) -> DiskPtr
    requires { at.offset + 12 ≤ length bytes.now }
    ensures value { view result ≡ pointer_of bytes.now at }
    ensures offset { HasOffset result }
{
    match pointer_at(bytes, at) {
        Some(p) => p,
        None => DiskPtr::Blank,
    }
}

/// Whether a field is the blank pointer.
pub fn is_blank(bytes: &[u8], at: Field) -> bool
    requires { at.offset + 12 ≤ length bytes.now }
    ensures { result ≡ is_blank (field bytes.now at.offset 12) }
{
    match pointer_at(bytes, at) {
        Some(DiskPtr::Blank) => true,
        Some(DiskPtr::At { .. }) => false,
        None => false,
    }
}

/// Whether a field is the pointer to some place.
pub fn is_place(bytes: &[u8], at: Field) -> bool
    requires { at.offset + 12 ≤ length bytes.now }
    ensures { result ≡ is_place (field bytes.now at.offset 12) }
{
    match pointer_at(bytes, at) {
        Some(DiskPtr::Blank) => false,
        Some(DiskPtr::At { .. }) => true,
        None => false,
    }
}

/// Whether a field is the pointer to this place.
pub fn points_to(bytes: &[u8], at: Field, place: u64) -> bool
    requires { at.offset + 12 ≤ length bytes.now }
    ensures { result ≡ is_pointer_to (field bytes.now at.offset 12) place }
{
    match pointer_at(bytes, at) {
        Some(DiskPtr::Blank) => false,
        Some(DiskPtr::At { block, offset }) => u64::from(block) * 4096 + u64::from(offset) == place,
        None => false,
    }
}

// ---- writing

/// Writes a piece behind what is written, and says where it ends.
pub fn put(into: &mut [u8], at: usize, piece: &[u8]) -> usize
    requires { at + length piece.now ≤ length into.old }
    ensures end { result ≡ at + length piece.now }
    ensures long { length into.new ≡ length into.old }
    ensures text { take result into.new ≡ take at into.old ++ piece.now }
{
    let end = at + piece.len();
    into[at..end].copy_from_slice(piece);
    end
}

/// Writes the text of a tag behind what is written, and says where it ends; a field of another kind has none to write.
pub fn put_tag(into: &mut [u8], at: usize, tag: Field) -> usize
    requires { at + length (tag_text tag) ≤ length into.old }
    ensures end { result ≡ at + length (tag_text tag) }
    ensures long { length into.new ≡ length into.old }
    ensures text { take result into.new ≡ take at into.old ++ tag_text tag }
{
    match tag.kind {
        FieldKind::Tag(text) => put(into, at, &text),
        _ => put(into, at, &[]),
    }
}

/// Writes a number in so many digits behind what is written, and says where it ends.
pub fn put_number(into: &mut [u8], at: usize, value: u64, digits: usize) -> usize
    requires within { at + digits ≤ length into.old }
    requires some { 1 ≤ digits }
    requires few { digits ≤ 16 }
    requires fits { value < 16 ^ digits }
    ensures end { result ≡ at + digits }
    ensures long { length into.new ≡ length into.old }
    ensures text { take result into.new ≡ take at into.old ++ hex_text digits value }
{
    let mut text = [0u8; 16];
    write_long_hex(value, &mut text[..digits]);
    put(into, at, &text[..digits])
}

/// Writes a pointer behind what is written, and says where it ends.
pub fn put_pointer(into: &mut [u8], at: usize, p: DiskPtr) -> usize
    requires within { at + 12 ≤ length into.old }
    requires offset { HasOffset p }
    ensures end { result ≡ at + 12 }
    ensures long { length into.new ≡ length into.old }
    ensures text { take result into.new ≡ take at into.old ++ pointer_text (view p) }
{
    put(into, at, &encode(p))
}
