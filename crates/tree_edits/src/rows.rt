//! The table of the nodes by their serials.

ghost use Rattle.std.specs.Prelude.{◌≡◌, ◌+◌, ◌^◌, ◌≤◌, ◌<◌, ◌++◌, ◌∷◌, [], length, slice_set, Some, IfSome, IsTrue, OnOk, OnErr};
ghost use Rattle.std.specs.List.{AllByRecursion};
ghost use Rattle.adf_format.specs.RecordFields.{node_length};
ghost use Rattle.tree_edits.specs.Rows.{AreNear, row_of};
ghost use Rattle.tree_edits.specs.Undo.{put_back};

use adf_records::node_length;
use std::alloc::{AllocError, Global};
use std::marker::Model;

/// Where a live node stands.
#[derive(Clone, Copy, Debug, PartialEq, Eq, Drop)]
pub struct Row {
    /// The place of its header.
    pub place: u64,
    /// The serial of its parent: none of the root.
    pub parent: Option<u64>,
    /// How far it stands below the root.
    pub depth: u8,
}

/// A row as it was before it was set.
#[derive(Clone, Copy, Drop)]
struct Undone {
    serial: u64,
    row: Option<Row>,
}

/// The nodes by their serials, in work and as they were last accepted: none where a node is deleted.
#[derive(Drop)]
pub struct Rows {
    items: Vec<Option<Row>>,
    // the rows that were accepted and are set since then, the latest last
    undone: Vec<Undone>,
    // how many rows were accepted
    kept: usize,
}

impl Model for Rows {
    ghost use Rattle.tree_edits.specs.Undo.{RowsState, AreUndone, kept_of};

    ghost Value = { RowsState };

    ghost view = { λ r. record { items = r.items.items; kept = kept_of r.items.items r.undone.items r.kept } };

    ghost invariant = { λ r. AreUndone r.items.items r.undone.items r.kept };
}

impl Rows {
    /// The rows of a file that was opened.
    pub fn new(alloc: Global, rows: Vec<Option<Row>>) -> Rows
        ensures { result ≡ record { items = rows.items; kept = rows.items } }
    {
        let kept = rows.len();
        Rows {
            items: rows,
            undone: Vec::new(alloc),
            kept,
        }
    }

    /// How many serials were drawn.
    pub fn count(&self) -> usize
        ensures { result ≡ length self.now.items }
    {
        self.items.len()
    }

    /// The row of a serial: none where its node is not live.
    pub fn get(&self, serial: u64) -> Option<Row>
        ensures { result ≡ row_of self.now.items serial }
    {
        if serial < self.items.len() as u64 {
            self.items[serial as usize]
        } else {
            None
        }
    }

    /// Whether each header ends by the greatest place that a file has.
    pub fn are_near(&self, wide: bool) -> bool
        ensures may { IsTrue result → AreNear wide self.now.items }
        ensures must { AreNear wide self.now.items → IsTrue result }
    {
        all_near(&self.items, wide)
    }

    /// Adds the row of the next serial.
    pub fn add(&mut self, row: Row) -> Result<(), AllocError>
        ensures ok { OnOk result (self.new
            ≡ record self.old { items = self.old.items ++ Some row ∷ [] }) }
        ensures err { OnErr result (self.new ≡ self.old) }
    {
        self.items.push(Some(row))?;
        Ok(())
    }

    /// Sets the row of a serial that was drawn: none where its node is deleted.
    pub fn set(&mut self, serial: u64, row: Option<Row>) -> Result<(), AllocError>
        requires { serial < length self.old.items }
        ensures ok { OnOk result (self.new
            ≡ record self.old { items = slice_set self.old.items serial row }) }
        ensures err { OnErr result (self.new ≡ self.old) }
    {
        let at = serial as usize;
        if at >= self.kept {
            self.items[at] = row;
            return Ok(());
        }
        let was = Undone {
            serial,
            row: self.items[at],
        };
        self.undone.push(was)?;
        self.items[at] = row;
        Ok(())
    }

    /// The rows are as they were accepted. It takes no memory.
    pub fn undo(&mut self)
        ensures { self.new ≡ record self.old { items = self.old.kept } }
    {
        put_back(&mut self.items, &mut self.undone);
        self.items.truncate(self.kept);
    }

    /// What the rows are now is accepted. It takes no memory.
    pub fn accept(&mut self)
        ensures { self.new ≡ record self.old { kept = self.old.items } }
    {
        self.undone.clear();
        self.kept = self.items.len();
    }
}

// Puts back a row that was set.
fn put_row(rows: &mut [Option<Row>], last: Undone)
    requires { last.serial < length rows.old }
    ensures { rows.new ≡ slice_set rows.old last.serial last.row }
{
    rows[last.serial as usize] = last.row;
}

// Puts back the rows that were set, the latest first.
fn put_back(rows: &mut [Option<Row>], undone: &mut Vec<Undone>)
    requires { AllByRecursion (λ u. u.serial < length rows.old) undone.old.items }
    ensures rows { rows.new ≡ put_back rows.old undone.old.items }
    ensures none { undone.new.items ≡ [] }
{
    while let Some(last) = undone.pop() {
        put_row(rows, last);
    }
}

// Whether the header of a row ends by the greatest place.
fn is_near(row: Option<Row>, wide: bool) -> bool
    ensures may { IsTrue result → IfSome row (λ r. r.place + node_length wide ≤ 2 ^ 44) }
    ensures must { IfSome row (λ r. r.place + node_length wide ≤ 2 ^ 44) → IsTrue result }
{
    match row {
        Some(row) => row.place <= (1 << 44) - node_length(wide) as u64,
        None => true,
    }
}

fn all_near(rows: &[Option<Row>], wide: bool) -> bool
    ensures may { IsTrue result → AreNear wide rows.now }
    ensures must { AreNear wide rows.now → IsTrue result }
{
    for serial in 0..rows.len() {
        if !is_near(rows[serial], wide) {
            return false;
        }
    }
    true
}
