//! The entries of a table of children.

ghost use Rattle.std.specs.Prelude.{◌≡◌, ◌^◌, ◌+◌, ◌-◌, ◌*◌, ◌/◌, ◌≤◌, ◌<◌, min, length, take, None, Some, IfOk, IfSome, option_map};
ghost use Rattle.adf_format.specs.Fields.{field};
ghost use Rattle.cg_io.specs.Blocks.{ReadsFew, blocks_of};
ghost use Rattle.cg_io.specs.Device.{GivesAt};
ghost use Rattle.cg_io.specs.Answers.{AnswersRead, HasRisen};
ghost use Rattle.node_reads.specs.Reads.{ReadAt, IsUnread};
ghost use Rattle.node_reads.specs.Entries.{child_view, child_said};

use crate::header::ChildTable;
use crate::places::place_in;
use adf_format::fields::{ENTRY_CHILD, ENTRY_LENGTH, ENTRY_NAME};
use adf_model::AdfError;
use adf_records::is_name_field;
use cg_io::{ReadBytes, ReadFault, read_bytes};
use disk_ptr::fields::copied;

/// A child as an entry names it.
#[derive(Clone, Copy, Drop, PartialEq, Eq)]
pub struct ListedChild {
    /// The name, and spaces behind it.
    pub name: [u8; 32],
    /// Where its header stands.
    pub place: u64,
}

// The child in an entry.
fn child_of(entry: &[u8]) -> Option<ListedChild>
    requires { length entry.now ≡ 44 }
    ensures value { option_map child_view result ≡ child_said entry.now }
    ensures near { IfSome result (λ child. child.place < 2 ^ 44) }
{
    let name = copied(entry, ENTRY_NAME);
    if !is_name_field(&name) {
        return None;
    }
    match place_in(entry, ENTRY_CHILD) {
        Some(place) => Some(ListedChild { name, place }),
        None => None,
    }
}

/// The child in the i-th of the entries of a piece: none where its name is no name, or its pointer names no place.
pub fn child_in(piece: &[u8], i: usize) -> Option<ListedChild>
    requires { 44 * i + 44 ≤ length piece.now }
    ensures value { option_map child_view result ≡ child_said (field piece.now (44 * i) 44) }
    ensures near { IfSome result (λ child. child.place < 2 ^ 44) }
{
    child_of(&piece[44 * i..44 * i + 44])
}

/// The child in the entry at a position. By one read.
pub fn child_at<R: ReadBytes>(
    bytes: &mut R,
    table: ChildTable,
    position: u32,
) -> Result<ListedChild, AdfError>
    requires sound { R.is_sound bytes.old }
    requires within { table.place + 16 + 44 * (position + 1) ≤ 2 ^ 44 }
    ensures child { IfOk result (λ child. ReadAt (R.image bytes.old)
        (table.place + 16 + 44 * position) 44
        (λ entry. child_said entry ≡ Some (child_view child))) }
    ensures near { IfOk result (λ child. child.place < 2 ^ 44) }
    ensures reads { AnswersRead R.is_sound R.image R.state R.waiting
        (ReadsFew (blocks_of (table.place + 16 + 44 * position) 44))
        (IsUnread (λ rule at. (rule ≡ 24) × (at ≡ table.place + 16 + 44 * position)
        × ReadAt (R.image bytes.old) (table.place + 16 + 44 * position) 44
        (λ entry. child_said entry ≡ None)))
        bytes.old bytes.new result }
{
    let at = table.entry(position);
    let entry = match read_bytes::<R, 44>(bytes, at) {
        Ok(entry) => entry,
        Err(_) => return Err(AdfError::ReadFault),
    };
    match child_of(&entry) {
        Some(child) => Ok(child),
        None => Err(AdfError::Layout {
            rule: 24,
            place: at,
        }),
    }
}

/// Reads the entries in use from a position on, as many as a piece has room for, and says how many. By one read.
pub fn read_children<R: ReadBytes>(
    bytes: &mut R,
    table: ChildTable,
    from: u32,
    piece: &mut [u8],
) -> Result<usize, ReadFault>
    requires sound { R.is_sound bytes.old }
    requires within { table.place + 16 + 44 * table.count ≤ 2 ^ 44 }
    requires from { from ≤ table.count }
    ensures count { IfOk result (λ n. n ≡ min (table.count - from) (length piece.old / 44)) }
    ensures told { IfOk result (λ n. GivesAt (R.image bytes.old) (table.place + 16 + 44 * from)
        (take (44 * n) piece.new)) }
    ensures reads { AnswersRead R.is_sound R.image R.state R.waiting
        (ReadsFew (blocks_of (table.place + 16 + 44 * from)
        (44 * min (table.count - from) (length piece.old / 44))))
        HasRisen bytes.old bytes.new result }
{
    let n = ((table.count - from) as usize).min(piece.len() / ENTRY_LENGTH);
    match bytes.read(table.entry(from), &mut piece[..ENTRY_LENGTH * n]) {
        Ok(()) => Ok(n),
        Err(fault) => Err(fault),
    }
}
