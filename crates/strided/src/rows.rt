//! The runs of rows.

ghost use Rattle.std.specs.Prelude.{◌≡◌, ℕ, ◌+◌, ◌*◌, ◌^◌, ◌<◌, ◌≤◌, ◌++◌, OnOk, OnErr, IfErr, List};
ghost use Rattle.std.specs.List.{All, flat_map};
ghost use Rattle.adf_model.specs.declared.error.AdfError.{AdfError};
ghost use Rattle.strided.specs.RunLists.{elements_of, spread, AreMaximal, EndsWithin};
ghost use Rattle.strided.specs.Axes.{Fits, row_of, HasRoom};

use crate::axis::Axis;
use adf_model::{AdfError, Run};

// Puts a run behind the others; it joins the last one where it begins at its end.
pub(crate) fn push_run(runs: &mut Vec<Run>, run: Run) -> Result<(), AdfError>
    requires some { 1 ≤ run.count }
    requires room { EndsWithin (2 ^ 30) run }
    requires maximal { AreMaximal runs.old.items }
    requires within { All (EndsWithin (2 ^ 30)) runs.old.items }
    ensures spread { OnOk result (spread runs.new.items
        ≡ spread runs.old.items ++ elements_of run) }
    ensures maximal { OnOk result (AreMaximal runs.new.items) }
    ensures within { OnOk result (All (EndsWithin (2 ^ 30)) runs.new.items) }
    ensures memory { IfErr result (λ error. error ≡ AdfError.Memory) }
{
    if let Some(last) = runs.last_mut() {
        if last.first + last.count == run.first {
            last.count += run.count;
            return Ok(());
        }
    }
    runs.push(run).map_err(|_| AdfError::Memory)?;
    Ok(())
}

// Puts the elements of one row behind the others.
fn push_row(runs: &mut Vec<Run>, axis: Axis, row: u64) -> Result<(), AdfError>
    requires fits { Fits axis }
    requires room { axis.dim * (row + 1) ≤ 2 ^ 30 }
    requires maximal { AreMaximal runs.old.items }
    requires within { All (EndsWithin (2 ^ 30)) runs.old.items }
    ensures spread { OnOk result (spread runs.new.items
        ≡ spread runs.old.items ++ row_of axis row) }
    ensures maximal { OnOk result (AreMaximal runs.new.items) }
    ensures within { OnOk result (All (EndsWithin (2 ^ 30)) runs.new.items) }
    ensures memory { IfErr result (λ error. error ≡ AdfError.Memory) }
{
    let first = axis.dim * row + (axis.start - 1);
    let span = axis.end - axis.start;
    if axis.stride == 1 {
        let count = span + 1;
        return push_run(runs, Run { first, count });
    }
    for step in 0..span / axis.stride + 1 {
        let first = first + axis.stride * step;
        push_run(runs, Run { first, count: 1 })?;
    }
    Ok(())
}

// Puts the elements of a run of rows behind the others.
pub(crate) fn push_rows(runs: &mut Vec<Run>, axis: Axis, rows: Run) -> Result<(), AdfError>
    requires fits { Fits axis }
    requires room { HasRoom axis.dim rows }
    requires maximal { AreMaximal runs.old.items }
    requires within { All (EndsWithin (2 ^ 30)) runs.old.items }
    ensures spread { OnOk result (spread runs.new.items
        ≡ spread runs.old.items ++ flat_map (row_of axis) (elements_of rows)) }
    ensures maximal { OnOk result (AreMaximal runs.new.items) }
    ensures within { OnOk result (All (EndsWithin (2 ^ 30)) runs.new.items) }
    ensures memory { IfErr result (λ error. error ≡ AdfError.Memory) }
{
    for row in rows.first..rows.first + rows.count {
        push_row(runs, axis, row)?;
    }
    Ok(())
}
