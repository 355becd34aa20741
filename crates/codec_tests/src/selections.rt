//! Worked selections.

use adf_model::{AdfError, DataType, Run, Selection, Shape, is_wide_shape, size};
use std::alloc::Global;
use strided::{one_list_of_runs, runs};

// Numbers, and ones behind them.
fn with_ones(numbers: &[u64]) -> [u64; 12] {
    let mut all = [1; 12];
    for (place, number) in all.iter_mut().zip(numbers) {
        *place = *number;
    }
    all
}

fn part(start: &[u64], end: &[u64], stride: &[u64]) -> Selection {
    Selection {
        rank: start.len().min(12) as u8,
        start: with_ones(start),
        end: with_ones(end),
        stride: with_ones(stride),
    }
}

fn run(first: u64, count: u64) -> Run {
    Run { first, count }
}

fn shape(kind: DataType, rank: u8, dims: [u64; 12]) -> Shape {
    Shape { kind, rank, dims }
}

// Whether a selection may be asked for: its shape is one, and its data are not too large.
// Each of these asks one thing and has no clause; of a shape that is none they answer what no row wants.
fn has_runs(
    alloc: Global,
    shape: &Shape,
    selection: &Selection,
    wanted: &[Run],
) -> Result<bool, AdfError> {
    if !is_wide_shape(shape) || size(shape) > 1 << 30 {
        return Err(AdfError::BadShape);
    }
    let found = runs(alloc, shape, selection)?;
    Ok(found.items() == wanted)
}

fn refusal(alloc: Global, shape: &Shape, selection: &Selection) -> Option<AdfError> {
    if !is_wide_shape(shape) || size(shape) > 1 << 30 {
        return None;
    }
    match runs(alloc, shape, selection) {
        Ok(_) => None,
        Err(error) => Some(error),
    }
}

#[test]
fn first_index_goes_fastest(rt: HostRuntime) -> Result<(), AdfError> {
    let plane = shape(DataType::I4, 2, [3, 2, 0, 0, 0, 0, 0, 0, 0, 0, 0, 0]);
    let rows: [([u64; 2], [u64; 2], [u64; 2], &[Run]); 9] = [
        ([1, 1], [3, 2], [2, 1], &[run(0, 1), run(2, 2), run(5, 1)]),
        ([1, 1], [3, 2], [1, 1], &[run(0, 6)]),
        ([2, 1], [3, 2], [1, 1], &[run(1, 2), run(4, 2)]),
        ([1, 2], [3, 2], [1, 1], &[run(3, 3)]),
        ([3, 1], [3, 2], [1, 1], &[run(2, 1), run(5, 1)]),
        ([2, 2], [2, 2], [1, 1], &[run(4, 1)]),
        ([1, 1], [3, 2], [3, 2], &[run(0, 1)]),
        ([1, 1], [2, 2], [2, 1], &[run(0, 1), run(3, 1)]),
        ([1, 1], [3, 2], [u64::MAX, u64::MAX], &[run(0, 1)]),
    ];
    for (start, end, stride, wanted) in rows {
        let selection = part(&start, &end, &stride);
        assert!(rt;
            has_runs(rt.alloc(), &plane, &selection, wanted)?,
            "from {start:?}"
        );
    }
    Ok(())
}

#[test]
fn selections_that_do_not_fit_are_refused(rt: HostRuntime) {
    let plane = shape(DataType::X8, 2, [3, 2, 9, 0, 0, 0, 0, 0, 0, 0, 0, 0]);
    let rows: [(&[u64], &[u64], &[u64]); 8] = [
        (&[1], &[3], &[1]),
        (&[1, 1, 1], &[3, 2, 1], &[1, 1, 1]),
        (&[0, 1], &[3, 2], &[1, 1]),
        (&[1, 1], &[4, 2], &[1, 1]),
        (&[1, 1], &[3, 3], &[1, 1]),
        (&[1, 2], &[3, 1], &[1, 1]),
        (&[1, 1], &[3, 2], &[0, 1]),
        (&[1, 1], &[3, 2], &[1, 0]),
    ];
    for (start, end, stride) in rows {
        let found = refusal(rt.alloc(), &plane, &part(start, end, stride));
        assert!(rt; found == Some(AdfError::BadRange), "from {start:?}");
    }
}

#[test]
fn an_empty_shape_has_one_run(rt: HostRuntime) -> Result<(), AdfError> {
    let empty = shape(DataType::Mt, 0, [0; 12]);
    assert!(rt; has_runs(rt.alloc(), &empty, &part(&[], &[], &[]), &[run(0, 1)])?);
    Ok(())
}

#[test]
fn a_long_line_has_runs(rt: HostRuntime) -> Result<(), AdfError> {
    let line = shape(DataType::B1, 1, [1 << 30, 0, 0, 0, 0, 0, 0, 0, 0, 0, 0, 0]);
    let rows: [(u64, &[Run]); 3] = [
        (1, &[run(0, 1 << 30)]),
        ((1 << 30) - 1, &[run(0, 1), run((1 << 30) - 1, 1)]),
        (1 << 30, &[run(0, 1)]),
    ];
    for (stride, wanted) in rows {
        let selection = part(&[1], &[1 << 30], &[stride]);
        assert!(rt;
            has_runs(rt.alloc(), &line, &selection, wanted)?,
            "by {stride}"
        );
    }
    Ok(())
}

#[test]
fn a_block_of_twelve_dimensions_has_runs(rt: HostRuntime) -> Result<(), AdfError> {
    let block = shape(DataType::C1, 12, [4, 8, 4, 8, 4, 8, 4, 8, 4, 8, 4, 8]);
    let ones = [1; 12];
    let mut by_seven = ones;
    by_seven[11] = 7;
    let rows: [([u64; 12], [u64; 12], &[Run]); 3] = [
        (ones, ones, &[run(0, 1 << 30)]),
        (ones, by_seven, &[run(0, 1 << 27), run(7 << 27, 1 << 27)]),
        (block.dims, ones, &[run((1 << 30) - 1, 1)]),
    ];
    for (start, stride, wanted) in rows {
        let selection = part(&start, &block.dims, &stride);
        assert!(rt;
            has_runs(rt.alloc(), &block, &selection, wanted)?,
            "from {start:?}"
        );
    }
    Ok(())
}

#[test]
fn laws_are_calls() {
    one_list_of_runs();
}
