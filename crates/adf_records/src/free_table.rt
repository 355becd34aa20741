//! The free table, 80 bytes.

ghost use Rattle.std.specs.Prelude.{◌≡◌, length, option_map};
ghost use Rattle.adf_format.specs.Checks.{first_broken};
ghost use Rattle.adf_format.specs.FirstFault.{free_table_rows};
ghost use Rattle.adf_format.specs.Records.{free_table_record, free_table_text};
ghost use Rattle.adf_records.specs.View.{fault, pointers_of, HasFreeOffsets};

use crate::faults::bad;
use crate::{BadField, FreeTable};
use adf_format::fields::{
    FREE_END_TAG, FREE_TAG, LARGE_FIRST, LARGE_LAST, MEDIUM_FIRST, MEDIUM_LAST, SMALL_FIRST,
    SMALL_LAST,
};
use disk_ptr::fields::{holds_tag, is_blank, pointer_at, pointer_or_blank, put_pointer, put_tag};

/// The first rule that a free table breaks.
#[tactic(auto, unfolding(adf_format::specs::FirstFault::free_table_rows))]
pub fn first_fault(bytes: &[u8]) -> Option<BadField>
    requires { length bytes.now ≡ 80 }
    ensures { option_map fault result ≡ first_broken (free_table_rows 0 bytes.now) }
{
    if !holds_tag(bytes, FREE_TAG) {
        return bad(9, FREE_TAG);
    }
    if !holds_tag(bytes, FREE_END_TAG) {
        return bad(9, FREE_END_TAG);
    }
    if pointer_at(bytes, SMALL_FIRST).is_none() {
        return bad(10, SMALL_FIRST);
    }
    if pointer_at(bytes, SMALL_LAST).is_none() {
        return bad(10, SMALL_LAST);
    }
    if pointer_at(bytes, MEDIUM_FIRST).is_none() {
        return bad(10, MEDIUM_FIRST);
    }
    if pointer_at(bytes, MEDIUM_LAST).is_none() {
        return bad(10, MEDIUM_LAST);
    }
    if pointer_at(bytes, LARGE_FIRST).is_none() {
        return bad(10, LARGE_FIRST);
    }
    if pointer_at(bytes, LARGE_LAST).is_none() {
        return bad(10, LARGE_LAST);
    }
    if is_blank(bytes, SMALL_FIRST) != is_blank(bytes, SMALL_LAST) {
        return bad(11, SMALL_FIRST);
    }
    if is_blank(bytes, MEDIUM_FIRST) != is_blank(bytes, MEDIUM_LAST) {
        return bad(11, MEDIUM_FIRST);
    }
    if is_blank(bytes, LARGE_FIRST) != is_blank(bytes, LARGE_LAST) {
        return bad(11, LARGE_FIRST);
    }
    None
}

/// What a free table says.
#[tactic(auto, unfolding(adf_format::specs::Records::free_table_record))]
pub fn read(bytes: &[u8]) -> FreeTable
    requires { length bytes.now ≡ 80 }
    ensures says { pointers_of result ≡ free_table_record bytes.now }
    ensures offsets { HasFreeOffsets result }
{
    FreeTable {
        small_first: pointer_or_blank(bytes, SMALL_FIRST),
        small_last: pointer_or_blank(bytes, SMALL_LAST),
        medium_first: pointer_or_blank(bytes, MEDIUM_FIRST),
        medium_last: pointer_or_blank(bytes, MEDIUM_LAST),
        large_first: pointer_or_blank(bytes, LARGE_FIRST),
        large_last: pointer_or_blank(bytes, LARGE_LAST),
    }
}

/// Writes a free table.
#[tactic(auto, unfolding(adf_format::specs::Records::free_table_text))]
pub fn write(table: &FreeTable, into: &mut [u8; 80])
    requires { HasFreeOffsets table.now }
    ensures { into.new ≡ free_table_text (pointers_of table.now) }
{
    let at = put_tag(into, 0, FREE_TAG);
    let at = put_pointer(into, at, table.small_first);
    let at = put_pointer(into, at, table.small_last);
    let at = put_pointer(into, at, table.medium_first);
    let at = put_pointer(into, at, table.medium_last);
    let at = put_pointer(into, at, table.large_first);
    let at = put_pointer(into, at, table.large_last);
    put_tag(into, at, FREE_END_TAG);
}
