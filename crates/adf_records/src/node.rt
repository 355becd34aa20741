//! The header of a node: 246 bytes, and in its wide form 342.

ghost use Rattle.std.specs.Prelude.{◌≡◌, ◌+◌, ◌*◌, ◌<◌, ◌≤◌, ◌&&◌, ◌++◌, [], ◌∷◌, nat_lt, length, map, take, option_map, unwrap_or, slice_index_or};
ghost use Rattle.std.specs.List.{AllByRecursion, flat_map};
ghost use Rattle.adf_format.specs.Hex.{is_hex, hex_value};
ghost use Rattle.adf_format.specs.Fields.{field};
ghost use Rattle.adf_format.specs.RecordFields.{field_in, number_in, node_length, node_dimension, dimension_digits};
ghost use Rattle.adf_format.specs.Checks.{first_broken};
ghost use Rattle.adf_format.specs.FirstFault.{text_rows, number_rows, pointer_rows, shape_rows, node_rows, dimension_row, count_up, is_pointer_for};
ghost use Rattle.adf_format.specs.Records.{node_record, node_text};
ghost use Rattle.adf_records.specs.View.{fault, record_of, HasOffsets, IsNarrow, zeros_behind};

use crate::faults::bad;
use crate::texts::{is_mt, type_of, type_or_mt, word_of};
use crate::{BadField, NodeHeader};
use adf_format::fields::{
    Field, NODE_CHILDREN, NODE_CHUNKS, NODE_END_TAG, NODE_ENTRIES, NODE_LABEL, NODE_NAME,
    NODE_RANK, NODE_TABLE, NODE_TAG, NODE_TYPE, dimension_digits, node_chunk, node_chunks,
    node_dimension, node_end_tag,
};
use adf_format::texts::{is_label, is_name, padded, trimmed};
use disk_ptr::fields::{
    bytes_of, copied, holds_tag, is_number, number, pointer_at, pointer_or_blank, put, put_number,
    put_pointer, put_tag,
};
use disk_ptr::{DiskPtr, read_long_hex};

// ---- the first broken rule, a group of rules at a time

#[tactic(auto, unfolding(adf_format::specs::FirstFault::text_rows))]
fn text_fault(bytes: &[u8], wide: bool, named: bool) -> Option<BadField>
    requires { length bytes.now ≡ node_length wide }
    ensures { option_map fault result ≡ first_broken (text_rows wide 0 named bytes.now) }
{
    let end = node_end_tag(wide);
    if !holds_tag(bytes, NODE_TAG) {
        return bad(15, NODE_TAG);
    }
    if !holds_tag(bytes, end) {
        return bad(15, end);
    }
    if !is_name(trimmed(bytes_of(bytes, NODE_NAME))) {
        return bad(16, NODE_NAME);
    }
    if !named {
        return bad(16, NODE_NAME);
    }
    if !is_label(trimmed(bytes_of(bytes, NODE_LABEL))) {
        return bad(17, NODE_LABEL);
    }
    None
}

#[tactic(auto, unfolding(adf_format::specs::FirstFault::number_rows))]
fn number_fault(bytes: &[u8], wide: bool) -> Option<BadField>
    requires { length bytes.now ≡ node_length wide }
    ensures { option_map fault result ≡ first_broken (number_rows wide 0 bytes.now) }
{
    let chunks = node_chunks(wide);
    if !is_number(bytes, NODE_CHILDREN) {
        return bad(18, NODE_CHILDREN);
    }
    if !is_number(bytes, NODE_ENTRIES) {
        return bad(18, NODE_ENTRIES);
    }
    if !is_number(bytes, NODE_RANK) {
        return bad(18, NODE_RANK);
    }
    if !is_number(bytes, chunks) {
        return bad(18, chunks);
    }
    None
}

// Whether a field is a pointer that is blank exactly if the number is 0.
fn is_pointer_for(n: u64, bytes: &[u8], at: Field) -> bool
    requires { at.offset + 12 ≤ length bytes.now }
    ensures { result ≡ is_pointer_for n (field bytes.now at.offset 12) }
{
    match pointer_at(bytes, at) {
        None => false,
        Some(DiskPtr::Blank) => n == 0,
        Some(DiskPtr::At { .. }) => n != 0,
    }
}

#[tactic(auto, unfolding(adf_format::specs::FirstFault::pointer_rows))]
fn pointer_fault(bytes: &[u8], wide: bool) -> Option<BadField>
    requires { length bytes.now ≡ node_length wide }
    ensures { option_map fault result ≡ first_broken (pointer_rows wide 0 bytes.now) }
{
    let chunks = node_chunks(wide);
    let chunk = node_chunk(wide);
    if !is_pointer_for(number(bytes, NODE_ENTRIES), bytes, NODE_TABLE) {
        return bad(19, NODE_TABLE);
    }
    if !is_pointer_for(number(bytes, chunks), bytes, chunk) {
        return bad(19, chunk);
    }
    None
}

fn is_dimension(bytes: &[u8], at: Field) -> bool
    requires some { 1 ≤ at.length }
    requires few { at.length ≤ 16 }
    requires within { at.offset + at.length ≤ length bytes.now }
    ensures { result ≡ (is_hex (field_in bytes.now at) && nat_lt 0 (number_in bytes.now at)) }
{
    if !is_number(bytes, at) {
        return false;
    }
    number(bytes, at) > 0
}

#[tactic(auto, unfolding(adf_format::specs::FirstFault::dimension_row))]
fn one_dimension_fault(bytes: &[u8], wide: bool, i: usize) -> Option<BadField>
    requires long { length bytes.now ≡ node_length wide }
    requires within { i < 12 }
    ensures { option_map fault result ≡ first_broken (dimension_row wide 0 bytes.now i ∷ []) }
{
    let dimension = node_dimension(wide, i);
    if !is_dimension(bytes, dimension) {
        return bad(21, dimension);
    }
    None
}

#[tactic(auto, using(crate::proofs::RowGroups::row_then))]
fn dimension_fault(bytes: &[u8], wide: bool, rank: usize) -> Option<BadField>
    requires long { length bytes.now ≡ node_length wide }
    requires few { rank ≤ 12 }
    ensures { option_map fault result ≡ first_broken
        (map (dimension_row wide 0 bytes.now) (count_up rank)) }
{
    for i in 0..rank {
        if let Some(bad) = one_dimension_fault(bytes, wide, i) {
            return Some(bad);
        }
    }
    None
}

#[tactic(auto, unfolding(adf_format::specs::FirstFault::shape_rows))]
fn shape_fault(bytes: &[u8], wide: bool) -> Option<BadField>
    requires { length bytes.now ≡ node_length wide }
    ensures { option_map fault result ≡ first_broken (shape_rows wide 0 bytes.now) }
{
    let rank = number(bytes, NODE_RANK) as usize;
    let word = bytes_of(bytes, NODE_TYPE);
    if type_of(word).is_none() {
        return bad(20, NODE_TYPE);
    }
    if rank > 12 {
        return bad(21, NODE_RANK);
    }
    if (rank == 0) != is_mt(type_or_mt(word)) {
        return bad(21, NODE_RANK);
    }
    dimension_fault(bytes, wide, rank)
}

/// The first rule that a node's header breaks; the rule of names too where `named` is false.
#[tactic(auto, using(crate::proofs::RowGroups::node_parts))]
pub fn first_fault(bytes: &[u8], wide: bool, named: bool) -> Option<BadField>
    requires { length bytes.now ≡ node_length wide }
    ensures { option_map fault result ≡ first_broken (node_rows wide 0 named bytes.now) }
{
    if let Some(bad) = text_fault(bytes, wide, named) {
        return Some(bad);
    }
    if let Some(bad) = number_fault(bytes, wide) {
        return Some(bad);
    }
    if let Some(bad) = pointer_fault(bytes, wide) {
        return Some(bad);
    }
    shape_fault(bytes, wide)
}

// ---- what the bytes say

fn dimension(bytes: &[u8], wide: bool, i: usize) -> [u8; 16]
    requires long { length bytes.now ≡ node_length wide }
    requires within { i < 12 }
    ensures digits { take (dimension_digits wide) result
        ≡ field_in bytes.now (node_dimension wide 0 i) }
    ensures narrow { zeros_behind wide result }
{
    let at = node_dimension(wide, i);
    let mut dimension = [0u8; 16];
    dimension[..at.length].copy_from_slice(bytes_of(bytes, at));
    dimension
}

fn dimensions(bytes: &[u8], wide: bool) -> [[u8; 16]; 12]
    requires { length bytes.now ≡ node_length wide }
    ensures digits { map (take (dimension_digits wide)) result
        ≡ map (λ i. field_in bytes.now (node_dimension wide 0 i)) (count_up 12) }
    ensures narrow { AllByRecursion (zeros_behind wide) result }
{
    [
        dimension(bytes, wide, 0),
        dimension(bytes, wide, 1),
        dimension(bytes, wide, 2),
        dimension(bytes, wide, 3),
        dimension(bytes, wide, 4),
        dimension(bytes, wide, 5),
        dimension(bytes, wide, 6),
        dimension(bytes, wide, 7),
        dimension(bytes, wide, 8),
        dimension(bytes, wide, 9),
        dimension(bytes, wide, 10),
        dimension(bytes, wide, 11),
    ]
}

/// What a node's header says.
#[tactic(auto, unfolding(adf_format::specs::Records::node_record))]
pub fn read(bytes: &[u8], wide: bool) -> NodeHeader
    requires { length bytes.now ≡ node_length wide }
    ensures says { record_of result ≡ node_record wide bytes.now }
    ensures offsets { HasOffsets result }
    ensures narrow { IsNarrow result }
    ensures wide { result.wide ≡ wide }
{
    let chunks = node_chunks(wide);
    NodeHeader {
        wide,
        name: copied(bytes, NODE_NAME),
        label: copied(bytes, NODE_LABEL),
        children: number(bytes, NODE_CHILDREN) as u32,
        entries: number(bytes, NODE_ENTRIES) as u32,
        table: pointer_or_blank(bytes, NODE_TABLE),
        kind: type_or_mt(bytes_of(bytes, NODE_TYPE)),
        rank: number(bytes, NODE_RANK) as u8,
        dims: dimensions(bytes, wide),
        chunks: number(bytes, chunks) as u16,
        chunk: pointer_or_blank(bytes, node_chunk(wide)),
    }
}

// The number of a dimension, or 0.
fn number_of(dimension: &[u8; 16], wide: bool) -> u64
    ensures { result ≡ unwrap_or (hex_value (take (dimension_digits wide) dimension.now)) 0 }
{
    match read_long_hex(&dimension[..dimension_digits(wide)]) {
        Some(value) => value,
        None => 0,
    }
}

/// The dimensions as numbers.
pub fn numbers(dims: &[[u8; 16]; 12], wide: bool) -> [u64; 12]
    ensures { result ≡ map (λ i.
        unwrap_or (hex_value (take (dimension_digits wide) (slice_index_or dims.now i []))) 0)
        (count_up 12) }
{
    [
        number_of(&dims[0], wide),
        number_of(&dims[1], wide),
        number_of(&dims[2], wide),
        number_of(&dims[3], wide),
        number_of(&dims[4], wide),
        number_of(&dims[5], wide),
        number_of(&dims[6], wide),
        number_of(&dims[7], wide),
        number_of(&dims[8], wide),
        number_of(&dims[9], wide),
        number_of(&dims[10], wide),
        number_of(&dims[11], wide),
    ]
}

// ---- writing

fn put_dimensions(into: &mut [u8], at: usize, dims: &[[u8; 16]; 12], digits: usize) -> usize
    requires within { at + 12 * digits ≤ length into.old }
    requires few { digits ≤ 16 }
    ensures end { result ≡ at + 12 * digits }
    ensures long { length into.new ≡ length into.old }
    ensures text { take result into.new ≡ take at into.old
        ++ flat_map (λ d. d) (map (take digits) dims.now) }
{
    let mut end = at;
    for i in 0..12 {
        end = put(into, end, &dims[i][..digits]);
    }
    end
}

/// Writes a node's header in its form.
#[tactic(auto, unfolding(adf_format::specs::Records::node_text))]
pub fn write(header: &NodeHeader, into: &mut [u8])
    requires offsets { HasOffsets header.now }
    requires long { length into.old ≡ node_length header.now.wide }
    ensures { into.new ≡ node_text (record_of header.now) }
{
    let digits = dimension_digits(header.wide);
    let at = put_tag(into, 0, NODE_TAG);
    let at = put(into, at, &header.name);
    let at = put(into, at, &header.label);
    let at = put_number(into, at, u64::from(header.children), NODE_CHILDREN.length);
    let at = put_number(into, at, u64::from(header.entries), NODE_ENTRIES.length);
    let at = put_pointer(into, at, header.table);
    let at = put(into, at, &padded(word_of(header.kind)));
    let at = put_number(into, at, u64::from(header.rank), NODE_RANK.length);
    let at = put_dimensions(into, at, &header.dims, digits);
    let at = put_number(into, at, u64::from(header.chunks), NODE_CHUNKS.length);
    let at = put_pointer(into, at, header.chunk);
    put_tag(into, at, NODE_END_TAG);
}
