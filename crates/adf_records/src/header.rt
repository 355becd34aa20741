//! The file header, 186 bytes.

ghost use Rattle.std.specs.Prelude.{◌≡◌, ◌<◌, ◌&&◌, ◌||◌, true, false, [], ◌∷◌, length, map, option_map};
ghost use Rattle.adf_format.specs.Fields.{holds};
ghost use Rattle.adf_format.specs.Checks.{first_broken};
ghost use Rattle.adf_format.specs.FirstFault.{header_rows, count_up};
ghost use Rattle.adf_format.specs.Parts.{version_letter, format_letter};
ghost use Rattle.adf_format.specs.SoundPart.{format_in};
ghost use Rattle.adf_format.specs.Records.{header_record, header_text};
ghost use Rattle.adf_records.specs.Groups.{mark_rows, size_row, place_rows};
ghost use Rattle.adf_records.specs.View.{fault, header_of, HasHeaderOffsets};

use crate::faults::bad;
use crate::{BadField, FileHeader};
use adf_format::Format;
use adf_format::fields::{
    CLOSING, FREE_TABLE_PLACE, Field, HEADER_CREATED, HEADER_END, HEADER_EXTRA, HEADER_FORMAT,
    HEADER_FREE_TABLE, HEADER_MODIFIED, HEADER_ROOT, HEADER_SIZE, HEADER_SIZE_LETTER, HEADER_SIZES,
    HEADER_TAG_0, HEADER_TAG_1, HEADER_TAG_2, HEADER_TAG_3, HEADER_TAG_4, HEADER_TAG_5,
    HEADER_WHAT, PRODUCT, WHAT_CLOSING, WHAT_PRODUCT, WHAT_VERSION,
};
use disk_ptr::fields::{
    copied, holds, holds_tag, is_number, is_place, pointer_or_blank, points_to, put, put_pointer,
    put_tag,
};

// Whether the bytes say that this is such a file, in either version.
fn is_what(bytes: &[u8]) -> bool
    requires { length bytes.now ≡ 186 }
    ensures { result ≡ (holds bytes.now WHAT_PRODUCT.offset PRODUCT
        && (holds bytes.now WHAT_VERSION.offset (version_letter false)
        || holds bytes.now WHAT_VERSION.offset (version_letter true))
        && holds bytes.now WHAT_CLOSING.offset CLOSING) }
{
    if !holds(bytes, WHAT_PRODUCT.offset, &PRODUCT) {
        return false;
    }
    if !holds(bytes, WHAT_CLOSING.offset, &CLOSING) {
        return false;
    }
    if holds(bytes, WHAT_VERSION.offset, b"A") {
        return true;
    }
    holds(bytes, WHAT_VERSION.offset, b"W")
}

fn is_format(bytes: &[u8]) -> bool
    requires { length bytes.now ≡ 186 }
    ensures { result ≡ (holds bytes.now HEADER_FORMAT.offset (format_letter Format.Little)
        || holds bytes.now HEADER_FORMAT.offset (format_letter Format.Big)) }
{
    if holds(bytes, HEADER_FORMAT.offset, &format_letter(Format::Little)) {
        return true;
    }
    holds(bytes, HEADER_FORMAT.offset, &format_letter(Format::Big))
}

#[tactic(auto, unfolding(crate::specs::Groups::mark_rows))]
fn mark_fault(bytes: &[u8]) -> Option<BadField>
    requires { length bytes.now ≡ 186 }
    ensures { option_map fault result ≡ first_broken (mark_rows bytes.now) }
{
    if !is_what(bytes) {
        return bad(2, HEADER_WHAT);
    }
    if !holds_tag(bytes, HEADER_TAG_0) {
        return bad(3, HEADER_TAG_0);
    }
    if !holds_tag(bytes, HEADER_TAG_1) {
        return bad(3, HEADER_TAG_1);
    }
    if !holds_tag(bytes, HEADER_TAG_2) {
        return bad(3, HEADER_TAG_2);
    }
    if !holds_tag(bytes, HEADER_TAG_3) {
        return bad(3, HEADER_TAG_3);
    }
    if !holds_tag(bytes, HEADER_TAG_4) {
        return bad(3, HEADER_TAG_4);
    }
    if !holds_tag(bytes, HEADER_TAG_5) {
        return bad(3, HEADER_TAG_5);
    }
    if !is_format(bytes) {
        return bad(4, HEADER_FORMAT);
    }
    None
}

#[tactic(auto, unfolding(crate::specs::Groups::size_row))]
fn one_size_fault(bytes: &[u8], i: usize) -> Option<BadField>
    requires long { length bytes.now ≡ 186 }
    requires within { i < 12 }
    ensures { option_map fault result ≡ first_broken (size_row bytes.now i ∷ []) }
{
    let size = Field {
        offset: HEADER_SIZE.offset + HEADER_SIZE.length * i,
        length: HEADER_SIZE.length,
        kind: HEADER_SIZE.kind,
    };
    if !is_number(bytes, size) {
        return bad(5, size);
    }
    None
}

#[tactic(auto, using(crate::proofs::RowGroups::row_then))]
fn size_fault(bytes: &[u8]) -> Option<BadField>
    requires { length bytes.now ≡ 186 }
    ensures { option_map fault result ≡ first_broken (map (size_row bytes.now) (count_up 12)) }
{
    for i in 0..12 {
        if let Some(bad) = one_size_fault(bytes, i) {
            return Some(bad);
        }
    }
    None
}

#[tactic(auto, unfolding(crate::specs::Groups::place_rows))]
fn place_fault(bytes: &[u8]) -> Option<BadField>
    requires { length bytes.now ≡ 186 }
    ensures { option_map fault result ≡ first_broken (place_rows bytes.now) }
{
    if !is_place(bytes, HEADER_ROOT) {
        return bad(6, HEADER_ROOT);
    }
    if !is_place(bytes, HEADER_END) {
        return bad(6, HEADER_END);
    }
    if !is_place(bytes, HEADER_FREE_TABLE) {
        return bad(6, HEADER_FREE_TABLE);
    }
    if !points_to(bytes, HEADER_FREE_TABLE, FREE_TABLE_PLACE as u64) {
        return bad(7, HEADER_FREE_TABLE);
    }
    None
}

/// The first rule that a file's header breaks.
#[tactic(auto, using(crate::proofs::RowGroups::header_parts))]
pub fn first_fault(bytes: &[u8]) -> Option<BadField>
    requires { length bytes.now ≡ 186 }
    ensures { option_map fault result ≡ first_broken (header_rows bytes.now) }
{
    if let Some(bad) = mark_fault(bytes) {
        return Some(bad);
    }
    if let Some(bad) = size_fault(bytes) {
        return Some(bad);
    }
    place_fault(bytes)
}

fn format_in(bytes: &[u8]) -> Format
    requires { length bytes.now ≡ 186 }
    ensures { result ≡ format_in bytes.now }
{
    if holds(bytes, HEADER_FORMAT.offset, &format_letter(Format::Big)) {
        return Format::Big;
    }
    Format::Little
}

/// What a file's header says.
#[tactic(auto, unfolding(adf_format::specs::Records::header_record))]
pub fn read(bytes: &[u8]) -> FileHeader
    requires { length bytes.now ≡ 186 }
    ensures says { header_of result ≡ header_record bytes.now }
    ensures offsets { HasHeaderOffsets result }
{
    let [size_letter] = copied::<1>(bytes, HEADER_SIZE_LETTER);
    FileHeader {
        what: copied(bytes, HEADER_WHAT),
        created: copied(bytes, HEADER_CREATED),
        modified: copied(bytes, HEADER_MODIFIED),
        format: format_in(bytes),
        size_letter,
        sizes: copied(bytes, HEADER_SIZES),
        root: pointer_or_blank(bytes, HEADER_ROOT),
        end: pointer_or_blank(bytes, HEADER_END),
        free_table: pointer_or_blank(bytes, HEADER_FREE_TABLE),
        extra: copied(bytes, HEADER_EXTRA),
    }
}

fn format_letter(format: Format) -> [u8; 1]
    ensures { result ≡ format_letter format }
{
    match format {
        Format::Little => *b"L",
        Format::Big => *b"B",
    }
}

/// Writes a file's header.
#[tactic(auto, unfolding(adf_format::specs::Records::header_text))]
pub fn write(header: &FileHeader, into: &mut [u8; 186])
    requires { HasHeaderOffsets header.now }
    ensures { into.new ≡ header_text (header_of header.now) }
{
    let at = put(into, 0, &header.what);
    let at = put_tag(into, at, HEADER_TAG_0);
    let at = put(into, at, &header.created);
    let at = put_tag(into, at, HEADER_TAG_1);
    let at = put(into, at, &header.modified);
    let at = put_tag(into, at, HEADER_TAG_2);
    let at = put(into, at, &format_letter(header.format));
    let at = put(into, at, &[header.size_letter]);
    let at = put_tag(into, at, HEADER_TAG_3);
    let at = put(into, at, &header.sizes);
    let at = put_tag(into, at, HEADER_TAG_4);
    let at = put_pointer(into, at, header.root);
    let at = put_pointer(into, at, header.end);
    let at = put_pointer(into, at, header.free_table);
    let at = put(into, at, &header.extra);
    put_tag(into, at, HEADER_TAG_5);
}
