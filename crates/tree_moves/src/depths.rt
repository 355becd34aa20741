//! The nodes below a node, by who stands above whom in memory.

ghost use Rattle.std.specs.Prelude.{◌≡◌, ◌⊎◌, ◌≤◌, ◌<◌, ℕ, length, Some, OnOk, OnErr, IfErr};
ghost use Rattle.adf_model.specs.declared.error.AdfError.{AdfError};
ghost use Rattle.tree_edits.specs.Rows.{row_of};
ghost use Rattle.tree_moves.specs.Below.{above_of, climb_rows, is_below, IsDepthBelow, NoneDeeper, IsDeepest, deeper_row, shifted_row, SetsRow, Shifts, FitsBelow, SamePlaces};

use adf_model::AdfError;
use tree_edits::{Row, Rows};

// Who stands above a node.
fn above(rows: &Rows, serial: u64) -> Option<u64>
    ensures { result ≡ above_of (row_of rows.now.items serial) }
{
    match rows.get(serial) {
        Some(row) => row.parent,
        None => None,
    }
}

// The node so many steps up from another.
fn climb(rows: &Rows, serial: u64, steps: u8) -> Option<u64>
    ensures { result ≡ climb_rows steps rows.now.items (Some serial) }
{
    let mut at = serial;
    for step in 0..steps {
        match above(rows, at) {
            Some(parent) => at = parent,
            None => return None,
        }
    }
    Some(at)
}

/// Whether a node is another one, whose depth is told, or stands below it. At most 255 steps up.
pub(crate) fn is_below(rows: &Rows, serial: u64, top: u64, depth: u8) -> bool
    ensures { result ≡ is_below rows.now.items top depth serial }
{
    let row = match rows.get(serial) {
        Some(row) => row,
        None => return false,
    };
    if row.depth < depth {
        return false;
    }
    match climb(rows, serial, row.depth - depth) {
        Some(at) => at == top,
        None => false,
    }
}

// The depth of a node, where it stands below another and deeper than all so far.
fn deeper(rows: &Rows, serial: u64, top: u64, depth: u8, most: u8) -> u8
    ensures least { most ≤ result }
    ensures all { NoneDeeper rows.now.items top depth result serial }
    ensures one { (result ≡ most) ⊎ IsDepthBelow rows.now.items top depth result }
{
    let row = match rows.get(serial) {
        Some(row) => row,
        None => return most,
    };
    if row.depth <= most {
        return most;
    }
    if is_below(rows, serial, top, depth) {
        return row.depth;
    }
    most
}

/// The greatest depth of a node and of those below it. By one pass over the rows.
pub(crate) fn deepest(rows: &Rows, top: u64, depth: u8) -> u8
    ensures { IsDeepest rows.now.items top depth result }
{
    let mut most = depth;
    for serial in 0..rows.count() as u64 {
        most = deeper(rows, serial, top, depth, most);
    }
    most
}

// Sets a row that was drawn.
fn set_row(rows: &mut Rows, serial: u64, row: Row) -> Result<(), AdfError>
    requires { serial < length rows.old.items }
    ensures set { OnOk result (SetsRow rows.old.items rows.new.items serial (Some row)) }
    ensures kept { rows.new.kept ≡ rows.old.kept }
    ensures same { OnErr result (rows.new.items ≡ rows.old.items) }
    ensures cause { IfErr result (λ e. e ≡ AdfError.Memory) }
{
    match rows.set(serial, Some(row)) {
        Ok(()) => Ok(()),
        Err(_) => Err(AdfError::Memory),
    }
}

// Sets the depth of a node, where it stands below one that moves from a depth to another.
fn shift_one(rows: &mut Rows, serial: u64, top: u64, from: u8, to: u8) -> Result<(), AdfError>
    requires drawn { serial < length rows.old.items }
    requires fits { FitsBelow rows.old.items top from to serial }
    ensures set { OnOk result (SetsRow rows.old.items rows.new.items serial
        (shifted_row rows.old.items top from to serial)) }
    ensures kept { rows.new.kept ≡ rows.old.kept }
    ensures same { OnErr result (rows.new.items ≡ rows.old.items) }
    ensures cause { IfErr result (λ e. e ≡ AdfError.Memory) }
{
    let row = match rows.get(serial) {
        Some(row) => row,
        None => return Ok(()),
    };
    if !is_below(rows, serial, top, from) {
        return Ok(());
    }
    let depth = row.depth - from + to;
    set_row(rows, serial, Row { depth, ..row })
}

/// A node stands below another parent, at another depth, and all below it as far below it as before.
pub(crate) fn shift(
    rows: &mut Rows,
    top: u64,
    row: Row,
    parent: u64,
    to: u8,
) -> Result<(), AdfError>
    requires top { row_of rows.old.items top ≡ Some row }
    requires fits { (k : ℕ) → FitsBelow rows.old.items top row.depth to k }
    ensures shifts { OnOk result (Shifts rows.old.items rows.new.items top row.depth parent to
        row) }
    ensures kept { rows.new.kept ≡ rows.old.kept }
    ensures places { SamePlaces rows.old.items rows.new.items }
    ensures cause { IfErr result (λ e. e ≡ AdfError.Memory) }
{
    for serial in 0..rows.count() as u64 {
        match shift_one(rows, serial, top, row.depth, to) {
            Ok(()) => {}
            Err(error) => return Err(error),
        }
    }
    let now = Row {
        parent: Some(parent),
        depth: to,
        ..row
    };
    set_row(rows, top, now)
}
