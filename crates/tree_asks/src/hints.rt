//! Serials of nodes by the places of their headers.

ghost use Rattle.std.specs.Prelude.{◌≡◌, ◌<◌, ◌≤◌, ℕ, false, length};
ghost use Rattle.tree_asks.specs.Hints.{stands_at, is_placed, IsSerialAt};

use std::alloc::{AllocError, Global};
use std::collections::HashMap;
use tree_edits::{Row, Rows};

/// Where the serial of a node is likely found by the place of its header.
///
/// A hint is tested before it is told, and where it fails all rows are searched: so hints that are missing or outdated cost time,
/// and change no answer.
#[derive(Drop)]
pub struct Hints {
    serials: HashMap<u64, u64>,
}

// Whether a row is there and names a place.
fn stands_at(row: Option<Row>, place: u64) -> bool
    ensures { result ≡ stands_at place row }
{
    match row {
        Some(row) => row.place == place,
        None => false,
    }
}

impl Hints {
    /// The hints for all rows, made in one pass.
    pub fn new(alloc: Global, rows: &Rows) -> Result<Hints, AllocError> {
        let mut hints = Hints {
            serials: HashMap::new(alloc),
        };
        for serial in 0..rows.count() as u64 {
            if let Some(row) = rows.get(serial) {
                hints.add(row.place, serial)?;
            }
        }
        Ok(hints)
    }

    /// Notes where the header of a node stands.
    pub fn add(&mut self, place: u64, serial: u64) -> Result<(), AllocError> {
        self.serials.insert(place, serial)?;
        Ok(())
    }

    /// A serial whose row names a place: none where no row does. It takes no memory.
    pub fn serial_at(&self, rows: &Rows, place: u64) -> Option<u64>
        ensures { IsSerialAt rows.now.items place result }
    {
        if let Some(serial) = self.serials.get(&place) {
            if stands_at(rows.get(*serial), place) {
                return Some(*serial);
            }
        }
        search(rows, place)
    }
}

// The first serial whose row names a place.
fn search(rows: &Rows, place: u64) -> Option<u64>
    ensures { IsSerialAt rows.now.items place result }
{
    for serial in 0..rows.count() as u64 {
        if stands_at(rows.get(serial), place) {
            return Some(serial);
        }
    }
    None
}
