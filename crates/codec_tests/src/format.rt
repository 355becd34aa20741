//! The fields of records, lists, and the laws of the format.

use adf_format::fields::{
    FREE_END_TAG, FREE_TAG, Field, FieldKind, HEADER_TAG_0, HEADER_TAG_1, HEADER_TAG_2,
    HEADER_TAG_3, HEADER_TAG_4, HEADER_TAG_5, NODE_TAG, dimension_digits, node_chunk, node_chunks,
    node_dimension, node_end_tag, tag_text,
};
use adf_format::{Listing, laws, writes};
use std::alloc::{AllocError, Global};

// ---- fields. Each helper asks one thing and has no clause.

fn is_at(field: Field, offset: usize, length: usize) -> bool {
    field.offset == offset && field.length == length
}

fn digits_are(narrow: usize, wide: usize) -> bool {
    dimension_digits(false) == narrow && dimension_digits(true) == wide
}

fn dimension_is_at(wide: bool, i: usize, offset: usize, length: usize) -> bool {
    i < 12 && is_at(node_dimension(wide, i), offset, length)
}

fn chunks_are_at(wide: bool, offset: usize, length: usize) -> bool {
    is_at(node_chunks(wide), offset, length)
}

fn chunk_is_at(wide: bool, offset: usize, length: usize) -> bool {
    is_at(node_chunk(wide), offset, length)
}

fn end_tag_is_at(wide: bool, offset: usize, length: usize) -> bool {
    is_at(node_end_tag(wide), offset, length)
}

#[test]
fn the_version_moves_what_stands_behind_the_dimensions(rt: HostRuntime) {
    assert!(rt; digits_are(8, 16));
    assert!(rt; dimension_is_at(false, 0, 130, 8));
    assert!(rt; dimension_is_at(false, 11, 218, 8));
    assert!(rt; dimension_is_at(true, 0, 130, 16));
    assert!(rt; dimension_is_at(true, 11, 306, 16));
    assert!(rt; chunks_are_at(false, 226, 4));
    assert!(rt; chunks_are_at(true, 322, 4));
    assert!(rt; chunk_is_at(false, 230, 12));
    assert!(rt; chunk_is_at(true, 326, 12));
    assert!(rt; end_tag_is_at(false, 242, 4));
    assert!(rt; end_tag_is_at(true, 338, 4));
}

fn has_text(field: Field, wanted: &[u8; 4]) -> bool {
    match field.kind {
        FieldKind::Tag(_) => tag_text(field) == *wanted,
        _ => false,
    }
}

fn end_tag_has_text(wide: bool, wanted: &[u8; 4]) -> bool {
    has_text(node_end_tag(wide), wanted)
}

#[test]
fn tags_have_their_texts(rt: HostRuntime) {
    let rows: [(Field, &[u8; 4]); 9] = [
        (HEADER_TAG_0, b"AdF0"),
        (HEADER_TAG_1, b"AdF1"),
        (HEADER_TAG_2, b"AdF2"),
        (HEADER_TAG_3, b"AdF3"),
        (HEADER_TAG_4, b"AdF4"),
        (HEADER_TAG_5, b"AdF5"),
        (FREE_TAG, b"fCbt"),
        (FREE_END_TAG, b"Fcte"),
        (NODE_TAG, b"NoDe"),
    ];
    for (tag, wanted) in rows {
        assert!(rt; has_text(tag, wanted), "of {wanted:?}");
    }
    assert!(rt; end_tag_has_text(true, b"TaiL"));
}

// ---- lists

fn keeps(alloc: Global, items: &[u8]) -> Result<bool, AllocError> {
    let listing = Listing::new(items.to_vec(alloc)?);
    Ok(listing.items() == items && listing.into_items().as_slice() == items)
}

#[test]
fn lists_keep_their_items_in_order(rt: HostRuntime) -> Result<(), AllocError> {
    assert!(rt; keeps(rt.alloc(), &[3, 1, 2])?);
    assert!(rt; keeps(rt.alloc(), &[])?);
    Ok(())
}

// ---- laws

#[test]
fn laws_of_records_and_layouts_are_calls() {
    laws::fields_in_a_row();
    laws::record_lengths();
    laws::tiles_add_up();
    laws::spelled_is_read_again();
    laws::walks_end();
    laws::one_first_fault();
    laws::header_of_layouts();
    laws::frame();
    laws::takes();
    laws::gives();
    laws::gives_in_any_order();
}

#[test]
fn further_laws_of_layouts_are_calls() {
    laws::fresh_file();
    laws::same_tree();
    laws::pointers();
    laws::paths_and_links();
    laws::parts_of_nodes();
    laws::unused_bytes();
    laws::bytes_behind_the_end();
    laws::verdict_of_header();
    laws::fresh_file_is_packed();
}

#[test]
fn laws_of_writes_are_calls() {
    writes::fields_after_a_write();
    writes::records_written();
    writes::parts_written();
    writes::fields_written();
}
