//! The first entry of a table that is wanted.

ghost use Rattle.std.specs.Prelude.{◌≡◌, ◌^◌, ◌+◌, ◌-◌, ◌*◌, ◌/◌, ◌≤◌, ◌<◌, length, IfOk, IfSome};
ghost use Rattle.adf_format.specs.Fields.{field, text_field};
ghost use Rattle.cg_io.specs.Blocks.{ReadsFew};
ghost use Rattle.cg_io.specs.Answers.{AnswersRead, HasRisen};
ghost use Rattle.node_reads.specs.Reads.{IsFirst};
ghost use Rattle.node_reads.specs.Entries.{is_wanted, is_wanted_at, pieces_of};

use crate::entries::read_children;
use crate::header::ChildTable;
use adf_format::fields::{ENTRY_CHILD, ENTRY_LENGTH, ENTRY_NAME};
use cg_io::{ReadBytes, ReadFault};
use disk_ptr::fields::{bytes_of, points_to};

/// What an entry is wanted for.
#[derive(Clone, Copy, Drop, PartialEq, Eq)]
pub enum Wanted {
    /// This name field: the name, and spaces behind it.
    Name([u8; 32]),
    /// A child whose header stands at this place.
    Place(u64),
}

impl Wanted {
    // Whether an entry is wanted.
    fn is_in(&self, entry: &[u8]) -> bool
        requires { length entry.now ≡ 44 }
        ensures { result ≡ is_wanted self.now entry.now }
    {
        match self {
            Wanted::Name(name) => bytes_of(entry, ENTRY_NAME) == name.as_slice(),
            Wanted::Place(place) => points_to(entry, ENTRY_CHILD, *place),
        }
    }
}

/// A name as a name field, with spaces behind it.
pub fn name_field(name: &[u8]) -> [u8; 32]
    requires { length name.now ≤ 32 }
    ensures { result ≡ text_field 32 name.now }
{
    let mut field = [b' '; 32];
    field[..name.len()].copy_from_slice(name);
    field
}

// The first position from one up to another whose entry is wanted, where the piece begins with the entry of the one.
fn first_in(piece: &[u8], from: u32, to: u32, wanted: &Wanted) -> Option<u32>
    requires order { from ≤ to }
    requires within { 44 * (to - from) ≤ length piece.now }
    ensures { IsFirst (λ i. is_wanted wanted.now (field piece.now (44 * (i - from)) 44)) from to
        result }
{
    for position in from..to {
        let at = ENTRY_LENGTH * (position - from) as usize;
        if wanted.is_in(&piece[at..at + ENTRY_LENGTH]) {
            return Some(position);
        }
    }
    None
}

/// The position of the first entry in use that is wanted, by a read for each piece of 93 entries up to it.
pub fn find_entry<R: ReadBytes>(
    bytes: &mut R,
    table: ChildTable,
    wanted: &Wanted,
) -> Result<Option<u32>, ReadFault>
    requires sound { R.is_sound bytes.old }
    requires within { table.place + 16 + 44 * table.count ≤ 2 ^ 44 }
    ensures told { IfOk result (λ found. IfSome (R.image bytes.old)
        (λ image. table.place + 16 + 44 * table.count ≤ length image
        → IsFirst (is_wanted_at wanted.now image table.place) 0 table.count found)) }
    ensures below { IfOk result (λ found. IfSome found (λ i. i < table.count)) }
    ensures soon { IfOk result (λ found. IfSome found
        (λ i. ReadsFew (2 * (i / 93 + 1)) (R.state bytes.old) (R.state bytes.new))) }
    ensures reads { AnswersRead R.is_sound R.image R.state R.waiting
        (ReadsFew (2 * pieces_of table.count)) HasRisen
        bytes.old bytes.new result }
{
    let mut piece = [0u8; 4092];
    let mut from = 0;
    while from < table.count {
        let count = match read_children(bytes, table, from, &mut piece) {
            Ok(count) => count,
            Err(fault) => return Err(fault),
        };
        let end = from + count as u32;
        if let Some(position) = first_in(&piece, from, end, wanted) {
            return Ok(Some(position));
        }
        from = end;
    }
    Ok(None)
}
