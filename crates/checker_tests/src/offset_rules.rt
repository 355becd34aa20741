//! The rules on sections with start offsets over plain values, against rows written by hand.

use sids_rules::{breaks_k36, breaks_k37, breaks_k38, breaks_k39, breaks_k40};

fn size_breaks(offsets: &[i64], elements: u64) -> bool {
    breaks_k36(offsets, elements)
}

#[test]
fn offsets_are_one_more_than_elements(rt: HostRuntime) {
    let rows: [(&[i64], u64, bool); 5] = [
        (&[0, 4, 8], 2, false),
        (&[0, 8], 2, true),
        (&[0, 4, 8, 8], 2, true),
        (&[0], 0, false),
        (&[], u64::MAX, true),
    ];
    for (offsets, elements, broken) in rows {
        assert!(rt; size_breaks(offsets, elements) == broken, "at {offsets:?}");
    }
}

fn numbers_break(offsets: &[i64], entries: u64) -> bool {
    breaks_k37(offsets, entries)
}

#[test]
fn offsets_rise_from_0_to_the_length(rt: HostRuntime) {
    let rows: [(&[i64], u64, bool); 9] = [
        (&[0, 4, 8], 8, false),
        (&[0, 4, 4, 8], 8, false),
        (&[0], 0, false),
        (&[0, 4, 7], 8, true),
        (&[0, 9, 8], 8, true),
        (&[1, 4, 8], 8, true),
        (&[0, -1, 8], 8, true),
        (&[], 0, true),
        (&[0, -1], u64::MAX, true),
    ];
    for (offsets, entries, broken) in rows {
        assert!(rt; numbers_break(offsets, entries) == broken, "at {offsets:?}");
    }
}

// Nothing where the offsets are none of the connectivity.
fn pieces_break(code: i64, connectivity: &[i64], offsets: &[i64]) -> Option<bool> {
    if breaks_k37(offsets, connectivity.len() as u64) {
        return None;
    }
    Some(breaks_k38(code, connectivity, offsets))
}

const TRIANGLES: [i64; 8] = [5, 1, 2, 3, 5, 2, 3, 4];

#[test]
fn a_mixed_piece_is_a_code_and_its_nodes(rt: HostRuntime) {
    let rows: [(i64, &[i64], &[i64], Option<bool>); 9] = [
        (20, &TRIANGLES, &[0, 4, 8], Some(false)),
        (20, &TRIANGLES, &[0, 3, 8], Some(true)),
        (20, &TRIANGLES, &[0, 4, 4, 8], Some(true)),
        (20, &TRIANGLES, &[0, 4, 7], None),
        (20, &[22, 1, 2, 3], &[0, 4], Some(true)),
        (20, &[-5, 1, 2, 3], &[0, 4], Some(true)),
        (20, &[], &[0], Some(false)),
        (22, &TRIANGLES, &[0, 3, 8], Some(false)),
        (23, &TRIANGLES, &[0, 3, 8], Some(false)),
    ];
    for (code, connectivity, offsets, broken) in rows {
        assert!(rt;
            pieces_break(code, connectivity, offsets) == broken,
            "at {code} {connectivity:?} {offsets:?}"
        );
    }
}

// Nothing where the pieces may not be asked.
fn nodes_break(
    code: i64,
    connectivity: &[i64],
    offsets: &[i64],
    limit: Option<i64>,
) -> Option<bool> {
    if breaks_k37(offsets, connectivity.len() as u64) || breaks_k38(code, connectivity, offsets) {
        return None;
    }
    Some(breaks_k39(code, connectivity, offsets, limit))
}

#[test]
fn nodes_of_pieces_are_nodes_of_the_zone(rt: HostRuntime) {
    let rows: [(i64, &[i64], &[i64], Option<i64>, Option<bool>); 8] = [
        (20, &TRIANGLES, &[0, 4, 8], Some(4), Some(false)),
        (20, &TRIANGLES, &[0, 4, 8], Some(3), Some(true)),
        (20, &TRIANGLES, &[0, 4, 8], None, Some(false)),
        (20, &[5, 0, 2, 3], &[0, 4], None, Some(true)),
        (20, &TRIANGLES, &[0, 3, 8], Some(4), None),
        (22, &[1, 2, 3], &[0, 3], Some(3), Some(false)),
        (22, &[1, 2, 4], &[0, 3], Some(3), Some(true)),
        (23, &[0, 2, 4], &[0, 3], Some(3), Some(false)),
    ];
    for (code, connectivity, offsets, limit, broken) in rows {
        assert!(rt;
            nodes_break(code, connectivity, offsets, limit) == broken,
            "at {code} {connectivity:?} {offsets:?}"
        );
    }
}

fn faces_break(connectivity: &[i64], faces: &[[i64; 2]]) -> bool {
    breaks_k40(connectivity, faces)
}

#[test]
fn faces_of_polyhedra_are_polygons_either_way_round(rt: HostRuntime) {
    let rows: [(&[i64], &[[i64; 2]], bool); 7] = [
        (&[], &[], false),
        (&[1, -2, 4], &[[4, 4], [1, 2]], false),
        (&[1, -3], &[[4, 4], [1, 2]], true),
        (&[0], &[[0, 2]], true),
        (&[1], &[], true),
        (&[i64::MIN], &[[1, i64::MAX]], true),
        (&[i64::MAX, -i64::MAX], &[[1, i64::MAX]], false),
    ];
    for (connectivity, faces, broken) in rows {
        assert!(rt;
            faces_break(connectivity, faces) == broken,
            "at {connectivity:?}"
        );
    }
}
