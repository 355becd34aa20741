//! The runs of a selection.

ghost use Rattle.std.specs.Prelude.{◌≡◌, ◌↔◌, ℕ, ◌+◌, ◌*◌, ◌^◌, ◌<◌, ◌≤◌, true, Err, IfOk, IfErr, IsTrue, IsFalse, List, map};
ghost use Rattle.std.specs.List.{All, flat_map};
ghost use Rattle.adf_format.specs.Names.{data_size, product};
ghost use Rattle.adf_model.specs.declared.error.AdfError.{AdfError};
ghost use Rattle.adf_model.specs.declared.lists.Run.{Run};
ghost use Rattle.adf_model.specs.Shapes.{dims_of, is_shape};
ghost use Rattle.adf_model.specs.Selection.{selection_fits, elements};
ghost use Rattle.strided.specs.RunLists.{spread, AreMaximal, EndsWithin, IsRunsRefusal};
ghost use Rattle.strided.specs.Axes.{Fits, row_of, whole_rows, HasRoom};

use crate::axis::Axis;
use crate::rows::push_rows;
use adf_model::{AdfError, Listing, Run, Runs, Selection, Shape};
use std::alloc::Global;

/// The runs of consecutive elements that a selection names, in its order: the first index goes
/// fastest, and elements are counted from 0. The runs are as long as can be. BadRange is refused
/// exactly where the selection does not fit the shape, else Memory alone.
///
/// The time grows with the number of runs times the rank, and not with the number of elements.
pub fn runs(alloc: Global, shape: &Shape, selection: &Selection) -> Result<Runs, AdfError>
    requires shape { IsTrue (is_shape true shape.now) }
    requires size { data_size shape.now.kind (dims_of shape.now) ≤ 2 ^ 30 }
    ensures elements { IfOk result (λ found. spread found
        ≡ elements (dims_of shape.now) selection.now) }
    ensures maximal { IfOk result AreMaximal }
    ensures within { IfOk result (All (EndsWithin (product (dims_of shape.now)))) }
    ensures range { (result ≡ Err AdfError.BadRange)
        ↔ IsFalse (selection_fits (dims_of shape.now) selection.now) }
    ensures refused { IfErr result IsRunsRefusal }
{
    if !selection_fits(shape, selection) {
        return Err(AdfError::BadRange);
    }
    let mut found = Vec::new(alloc);
    found
        .push(Run { first: 0, count: 1 })
        .map_err(|_| AdfError::Memory)?;
    for number in (0..usize::from(shape.rank)).rev() {
        found = runs_of_rows(alloc, Axis::of(shape, selection, number), &found)?;
    }
    Ok(Listing::new(found))
}

fn selection_fits(shape: &Shape, selection: &Selection) -> bool
    requires { shape.now.rank ≤ 12 }
    ensures { result ≡ selection_fits (dims_of shape.now) selection.now }
{
    if selection.rank != shape.rank {
        return false;
    }
    for number in 0..usize::from(shape.rank) {
        if !Axis::of(shape, selection, number).fits() {
            return false;
        }
    }
    true
}

// The runs of what an axis takes of rows, where the rows are those of some runs.
fn runs_of_rows(alloc: Global, axis: Axis, rows: &[Run]) -> Result<Vec<Run>, AdfError>
    requires fits { Fits axis }
    requires room { All (HasRoom axis.dim) rows.now }
    requires maximal { AreMaximal rows.now }
    ensures spread { IfOk result (λ found. spread found.items
        ≡ flat_map (row_of axis) (spread rows.now)) }
    ensures maximal { IfOk result (λ found. AreMaximal found.items) }
    ensures memory { IfErr result (λ error. error ≡ AdfError.Memory) }
{
    if axis.is_whole() {
        return runs_of_whole_rows(alloc, axis.dim, rows);
    }
    let mut found = Vec::new(alloc);
    for run in rows {
        push_rows(&mut found, axis, *run)?;
    }
    Ok(found)
}

fn runs_of_whole_rows(alloc: Global, dim: u64, rows: &[Run]) -> Result<Vec<Run>, AdfError>
    requires { All (HasRoom dim) rows.now }
    ensures value { IfOk result (λ found. found.items ≡ map (whole_rows dim) rows.now) }
    ensures memory { IfErr result (λ error. error ≡ AdfError.Memory) }
{
    let found: Vec<Run> = rows
        .iter()
        .map(|run| Run {
            first: dim * run.first,
            count: dim * run.count,
        })
        .collect(alloc)
        .map_err(|_| AdfError::Memory)?;
    Ok(found)
}

/// A list of runs that are as long as can be is known by its elements.
pub fn one_list_of_runs()
    ensures { (a b : List Run) → AreMaximal a → AreMaximal b → spread a ≡ spread b → a ≡ b }
{}
