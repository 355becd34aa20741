//! The entries of a table of data chunks, and the head of a chunk.

ghost use Rattle.std.specs.Prelude.{◌≡◌, ◌^◌, ◌+◌, ◌-◌, ◌*◌, ◌/◌, ◌≤◌, ◌<◌, min, length, take, None, Some, IfOk, IfSome, option_map};
ghost use Rattle.adf_format.specs.declared.fields.TheConstants.{HEAD_POINTER};
ghost use Rattle.adf_format.specs.Checks.{first_broken};
ghost use Rattle.adf_format.specs.Fields.{field};
ghost use Rattle.adf_format.specs.Pointer.{place_of};
ghost use Rattle.adf_format.specs.RecordFields.{field_in, chunk_table_length};
ghost use Rattle.cg_io.specs.Blocks.{ReadsFew, blocks_of};
ghost use Rattle.cg_io.specs.Device.{GivesAt};
ghost use Rattle.cg_io.specs.Answers.{AnswersRead, HasRisen};
ghost use Rattle.node_reads.specs.Reads.{ReadAt, Breaks, IsUnread};
ghost use Rattle.node_reads.specs.Entries.{chunk_view, chunk_said, chunk_head_rows};

use crate::places::place_in;
use adf_chunks::{Part, begins};
use adf_format::fields::{
    CHUNK_END, CHUNK_ENTRY_LENGTH, CHUNK_START, HEAD_LENGTH, HEAD_POINTER, TAG_LENGTH,
};
use adf_model::AdfError;
use cg_io::{ReadBytes, ReadFault, read_bytes};

/// A table of data chunks: where it stands, and how many entries it has.
#[derive(Clone, Copy, Drop, PartialEq, Eq)]
pub struct ChunkTable {
    pub place: u64,
    pub count: u16,
}

impl ChunkTable {
    /// How many bytes the table has.
    pub fn length(self) -> u64
        ensures { result ≡ chunk_table_length self.count }
    {
        (HEAD_LENGTH + TAG_LENGTH) as u64 + CHUNK_ENTRY_LENGTH as u64 * u64::from(self.count)
    }

    /// Where an entry stands.
    pub fn entry(self, position: u16) -> u64
        requires { self.place ≤ 2 ^ 44 }
        ensures { result ≡ self.place + 16 + 24 * position }
    {
        self.place + HEAD_LENGTH as u64 + CHUNK_ENTRY_LENGTH as u64 * u64::from(position)
    }
}

/// A data chunk: where it stands, and where its end tag does.
#[derive(Clone, Copy, Drop, PartialEq, Eq)]
pub struct ListedChunk {
    pub place: u64,
    pub tail: u64,
}

// The chunk in an entry.
fn chunk_of(entry: &[u8]) -> Option<ListedChunk>
    requires { length entry.now ≡ 24 }
    ensures value { option_map chunk_view result ≡ chunk_said entry.now }
    ensures near { IfSome result (λ chunk. (chunk.place < 2 ^ 44) × (chunk.tail < 2 ^ 44)) }
{
    let place = match place_in(entry, CHUNK_START) {
        Some(place) => place,
        None => return None,
    };
    match place_in(entry, CHUNK_END) {
        Some(tail) => Some(ListedChunk { place, tail }),
        None => None,
    }
}

/// The chunk in the i-th of the entries of a piece: none where a pointer names no place.
pub fn chunk_in(piece: &[u8], i: usize) -> Option<ListedChunk>
    requires { 24 * i + 24 ≤ length piece.now }
    ensures value { option_map chunk_view result ≡ chunk_said (field piece.now (24 * i) 24) }
    ensures near { IfSome result (λ chunk. (chunk.place < 2 ^ 44) × (chunk.tail < 2 ^ 44)) }
{
    chunk_of(&piece[24 * i..24 * i + 24])
}

/// The chunk in the entry at a position. By one read.
pub fn chunk_at<R: ReadBytes>(
    bytes: &mut R,
    table: ChunkTable,
    position: u16,
) -> Result<ListedChunk, AdfError>
    requires sound { R.is_sound bytes.old }
    requires within { table.place + 16 + 24 * (position + 1) ≤ 2 ^ 44 }
    ensures chunk { IfOk result (λ chunk. ReadAt (R.image bytes.old)
        (table.place + 16 + 24 * position) 24
        (λ entry. chunk_said entry ≡ Some (chunk_view chunk))) }
    ensures near { IfOk result (λ chunk. (chunk.place < 2 ^ 44) × (chunk.tail < 2 ^ 44)) }
    ensures reads { AnswersRead R.is_sound R.image R.state R.waiting
        (ReadsFew (blocks_of (table.place + 16 + 24 * position) 24))
        (IsUnread (λ rule at. (rule ≡ 25) × (at ≡ table.place + 16 + 24 * position)
        × ReadAt (R.image bytes.old) (table.place + 16 + 24 * position) 24
        (λ entry. chunk_said entry ≡ None)))
        bytes.old bytes.new result }
{
    let at = table.entry(position);
    let entry = match read_bytes::<R, 24>(bytes, at) {
        Ok(entry) => entry,
        Err(_) => return Err(AdfError::ReadFault),
    };
    match chunk_of(&entry) {
        Some(chunk) => Ok(chunk),
        None => Err(AdfError::Layout {
            rule: 25,
            place: at,
        }),
    }
}

/// Reads the entries from a position on, as many as a piece has room for, and says how many. By one read.
pub fn read_chunks<R: ReadBytes>(
    bytes: &mut R,
    table: ChunkTable,
    from: u16,
    piece: &mut [u8],
) -> Result<usize, ReadFault>
    requires sound { R.is_sound bytes.old }
    requires within { table.place + 16 + 24 * table.count ≤ 2 ^ 44 }
    requires from { from ≤ table.count }
    ensures count { IfOk result (λ n. n ≡ min (table.count - from) (length piece.old / 24)) }
    ensures told { IfOk result (λ n. GivesAt (R.image bytes.old) (table.place + 16 + 24 * from)
        (take (24 * n) piece.new)) }
    ensures reads { AnswersRead R.is_sound R.image R.state R.waiting
        (ReadsFew (blocks_of (table.place + 16 + 24 * from)
        (24 * min (table.count - from) (length piece.old / 24))))
        HasRisen bytes.old bytes.new result }
{
    let n = usize::from(table.count - from).min(piece.len() / CHUNK_ENTRY_LENGTH);
    match bytes.read(table.entry(from), &mut piece[..CHUNK_ENTRY_LENGTH * n]) {
        Ok(()) => Ok(n),
        Err(fault) => Err(fault),
    }
}

/// The chunk at a place, by its head: it begins with its tag, and its end tag stands 17 bytes behind the place or further
/// (rule 26). By one read.
pub fn read_chunk_head<R: ReadBytes>(bytes: &mut R, place: u64) -> Result<ListedChunk, AdfError>
    requires sound { R.is_sound bytes.old }
    requires within { place + 16 ≤ 2 ^ 44 }
    ensures chunk { IfOk result (λ chunk. ReadAt (R.image bytes.old) place 16 (λ head.
        (first_broken (chunk_head_rows place head) ≡ None)
        × (chunk.tail ≡ place_of (field_in head HEAD_POINTER)))) }
    ensures place { IfOk result (λ chunk. chunk.place ≡ place) }
    ensures long { IfOk result (λ chunk. (place + 17 ≤ chunk.tail) × (chunk.tail < 2 ^ 44)) }
    ensures reads { AnswersRead R.is_sound R.image R.state R.waiting (ReadsFew (blocks_of place 16))
        (IsUnread (Breaks (R.image bytes.old) place 16 (chunk_head_rows place))) bytes.old bytes.new
        result }
{
    let head = match read_bytes::<R, 16>(bytes, place) {
        Ok(head) => head,
        Err(_) => return Err(AdfError::ReadFault),
    };
    if !begins(Part::Data, &head) {
        return Err(AdfError::Layout { rule: 26, place });
    }
    match place_in(&head, HEAD_POINTER) {
        Some(tail) if tail >= place + 17 => Ok(ListedChunk { place, tail }),
        _ => Err(AdfError::Layout {
            rule: 26,
            place: place + HEAD_POINTER.offset as u64,
        }),
    }
}
