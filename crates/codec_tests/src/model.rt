//! Names, labels, shapes, sizes and spelled texts; and the laws of trees and calls.

use adf_model::{
    AdfError, DataType, Shape, ask_laws, data_laws, edit_laws, element_size, fault_laws,
    file_group_laws, is_label, is_name, is_shape, is_wide_shape, laws, one_file_laws, run_laws,
    size, spell, standing_laws, tree_laws, untouched_laws, walk_laws, write_laws,
};
use std::alloc::Global;

// ---- names and labels

// Each of these helpers asks one thing and has no clause.
fn is_name_so(text: &[u8], wanted: bool) -> bool {
    is_name(text) == wanted
}

fn is_label_so(text: &[u8], wanted: bool) -> bool {
    is_label(text) == wanted
}

#[test]
fn names_have_their_bytes_and_length(rt: HostRuntime) {
    let rows: [(&[u8], bool); 13] = [
        (b"Base", true),
        (b"...", true),
        (b"a > b~", true),
        (&[b'N'; 32], true),
        (&[b'N'; 33], false),
        (b"", false),
        (b".", false),
        (b"..", false),
        (b"x/y", false),
        (b" x", false),
        (b"x ", false),
        (b"x\x7F", false),
        (b"x\ty", false),
    ];
    for (text, wanted) in rows {
        assert!(rt; is_name_so(text, wanted), "of {text:?}");
    }
}

#[test]
fn labels_may_be_empty_and_have_slashes(rt: HostRuntime) {
    let rows: [(&[u8], bool); 10] = [
        (b"", true),
        (b"CGNSBase_t", true),
        (b"x/y", true),
        (b"..", true),
        (&[b'L'; 32], true),
        (&[b'L'; 33], false),
        (b" ", false),
        (b" x", false),
        (b"x ", false),
        (b"\x80", false),
    ];
    for (text, wanted) in rows {
        assert!(rt; is_label_so(text, wanted), "of {text:?}");
    }
}

// ---- shapes and sizes

// Whether a type and twelve dimensions, of which all but the first are 1, are a shape: of a narrow and of a wide file.
fn shape_kinds(kind: DataType, rank: u8, first: u64) -> (bool, bool) {
    let shape = Shape {
        kind,
        rank,
        dims: [first, 1, 1, 1, 1, 1, 1, 1, 1, 1, 1, 1],
    };
    (is_shape(&shape), is_wide_shape(&shape))
}

#[test]
fn shapes_have_a_rank_and_dimensions(rt: HostRuntime) {
    for (kind, rank, first, wanted) in [
        (DataType::Mt, 0, 0, (true, true)),
        (DataType::Mt, 1, 1, (false, false)),
        (DataType::I4, 0, 1, (false, false)),
        (DataType::I4, 1, 1, (true, true)),
        (DataType::C1, 12, 7, (true, true)),
        (DataType::C1, 13, 7, (false, false)),
        (DataType::R8, 1, 0, (false, false)),
        (DataType::R8, 1, 0xFFFF_FFFF, (true, true)),
        (DataType::R8, 1, 0x1_0000_0000, (false, true)),
        (DataType::R8, 1, u64::MAX, (false, true)),
    ] {
        assert!(rt;
            shape_kinds(kind, rank, first) == wanted,
            "of {kind:?}, {rank}, {first}"
        );
    }
}

fn element_is(kind: DataType, bytes: u64) -> bool {
    element_size(kind) == bytes
}

// The size of three dimensions and ones behind them.
fn size_of(kind: DataType, rank: u8, [x, y, z]: [u64; 3]) -> u64 {
    size(&Shape {
        kind,
        rank,
        dims: [x, y, z, 1, 1, 1, 1, 1, 1, 1, 1, 1],
    })
}

#[test]
fn sizes_stop_at_the_last_number(rt: HostRuntime) {
    assert!(rt; element_is(DataType::X8, 16));
    for (kind, rank, dims, wanted) in [
        (DataType::X8, 3, [4, 5, 6], 1920),
        (DataType::X8, 2, [4, 5, 6], 320),
        (DataType::Mt, 0, [9, 1, 1], 0),
        (DataType::C1, 1, [u64::MAX, 1, 1], u64::MAX),
        (DataType::I8, 1, [1 << 61, 1, 1], u64::MAX),
        (DataType::I8, 1, [(1 << 61) - 1, 1, 1], u64::MAX - 7),
        (DataType::X8, 2, [u64::MAX, 5, 6], u64::MAX),
        (DataType::X8, 2, [u64::MAX, 0, 6], 0),
    ] {
        assert!(rt;
            size_of(kind, rank, dims) == wanted,
            "of {kind:?}, {rank}, {dims:?}"
        );
    }
}

// ---- texts of a line

fn is_spelled(alloc: Global, text: &[u8], wanted: &[u8]) -> Result<bool, AdfError> {
    let spelling = spell(alloc, text)?;
    Ok(spelling.items() == wanted)
}

#[test]
fn texts_are_spelled_for_a_line(rt: HostRuntime) -> Result<(), AdfError> {
    let rows: [(&[u8], &[u8]); 3] = [
        (b"", b"%"),
        (b"Root Node of ADF File", b"Root%20Node%20of%20ADF%20File"),
        (b"!%;~\x7F\xFF\x00/>", b"!%25%3B~%7F%FF%00/>"),
    ];
    for (text, wanted) in rows {
        assert!(rt; is_spelled(rt.alloc(), text, wanted)?, "of {text:?}");
    }
    Ok(())
}

// ---- laws

#[test]
fn laws_of_trees_are_calls() {
    laws::edits_keep_trees();
    laws::following_ends();
    laws::calls_keep_trees();
    laws::one_spelling();
    laws::room_is_exact();
    laws::trees_decide();
    laws::torn_writes_stay_small();
    laws::writes_are_bounded();
    laws::trees_have_no_cycle();
    laws::placements_stay();
    laws::entry_comes_first();
    laws::data_stand_alone();
}

#[test]
fn laws_of_layouts_are_calls() {
    edit_laws::created_child_in_its_tree();
    tree_laws::tree_order_lists_once();
    tree_laws::numbering();
    tree_laws::numbering_keeps_layouts();
    tree_laws::stray_bytes_are_refused();
    untouched_laws::heads_stay();
    untouched_laws::parts_stay();
    untouched_laws::groups_leave_the_rest();
    walk_laws::walks_find_trees();
    write_laws::torn_files_stay_small();
    write_laws::torn_files_keep_the_tail();
    write_laws::failed_groups_leave_the_rest();
}

#[test]
fn laws_of_calls_are_calls() {
    data_laws::chunks_hold_data();
    data_laws::resized_data();
    data_laws::released_data();
    data_laws::room_of_data();
    data_laws::other_parts();
    fault_laws::faults_bound_replies();
    file_group_laws::few_edits_and_broken_files();
    file_group_laws::file_groups_have_causes();
    one_file_laws::one_file_as_many();
    one_file_laws::one_query_as_many();
    ask_laws::asks_leave_all();
    ask_laws::queries_have_causes();
    run_laws::states_are_laid_out();
    run_laws::fresh_files_are_known();
    run_laws::no_fresh_file_over_bytes();
    standing_laws::openings_stand();
    standing_laws::openings_have_causes();
    standing_laws::closings_stand();
    standing_laws::groups_stand();
    standing_laws::one_file_refuses();
    standing_laws::lines_change_nothing();
    standing_laws::refusals_name_rules();
    standing_laws::edits_have_causes();
    standing_laws::shelves_by_name();
}
