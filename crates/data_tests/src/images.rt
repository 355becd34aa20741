//! Data of opened files: chunks of any lengths, in any order of places.
ghost use Rattle.std.specs.Prelude.{◌≡◌, ◌≤◌, ◌^◌, ◌<◌, IfSome};
ghost use Rattle.disk_ptr.specs.View.{HasOffset};

use adf_chunks::{ChunkEntry, Part, encode_chunk_entry, encode_head, tail};
use adf_data::DataPlace;
use disk_ptr::{DiskPtr, from_place};
use std::alloc::{AllocError, Global};
use test_spaces::Bytes;

fn near(at: u64) -> DiskPtr
    requires { at < 2 ^ 44 }
    ensures { HasOffset result }
{
    from_place(at)
}

/// The front of a file with blank lists, and room for so many bytes.
pub fn front(alloc: Global, room: usize) -> Result<Bytes, AllocError> {
    let mut space = Bytes::with_room(alloc, room)?;
    space.put(146, b"0000000001FF");
    space.put(186, b"fCbt");
    for k in 0..6u64 {
        space.put(190 + 12 * k, b"000000001000");
    }
    space.put(262, b"Fcte");
    Ok(space)
}

// Writes a chunk with this payload.
fn put_chunk(space: &mut Bytes, at: u64, payload: &[u8]) -> bool {
    if at >= 1 << 24 || payload.is_empty() || payload.len() >= 1 << 20 {
        return false;
    }
    let end = at + 16 + payload.len() as u64;
    space.put(at, &encode_head(Part::Data, near(end)))
        && space.put(at + 16, payload)
        && space.put(end, &tail(Part::Data))
}

// Writes an entry of a table.
fn put_entry(space: &mut Bytes, entry: u64, at: u64, length: usize) -> bool {
    if at >= 1 << 24 || length >= 1 << 20 {
        return false;
    }
    let named = ChunkEntry {
        start: near(at),
        end_tag: near(at + 16 + length as u64),
    };
    space.put(entry, &encode_chunk_entry(named))
}

// Writes the head and the end tag of a table of so many chunks.
fn put_table(space: &mut Bytes, at: u64, count: u16) -> bool {
    if at >= 1 << 24 {
        return false;
    }
    let end = at + 16 + 24 * u64::from(count);
    space.put(at, &encode_head(Part::Chunks, near(end))) && space.put(end, &tail(Part::Chunks))
}

/// Chunks with these payloads at these places, and a table of them; their place, where they were made.
pub fn opened(space: &mut Bytes, table: u64, chunks: &[(u64, &[u8])]) -> Option<DataPlace>
    ensures { IfSome result (λ at. HasOffset at.pointer) }
{
    if table >= 1 << 24 || chunks.len() < 2 || chunks.len() > 1 << 10 {
        return None;
    }
    let mut entry = table + 16;
    for (at, payload) in chunks {
        if !put_chunk(space, *at, payload) || !put_entry(space, entry, *at, payload.len()) {
            return None;
        }
        entry = entry.saturating_add(24);
    }
    let count = chunks.len() as u16;
    if !put_table(space, table, count) {
        return None;
    }
    Some(DataPlace {
        count,
        pointer: from_place(table),
    })
}

/// So many chunks, each of one byte, from place 10,000 on, with their table behind them.
pub fn crowded(space: &mut Bytes, count: u16) -> Option<DataPlace>
    ensures { IfSome result (λ at. HasOffset at.pointer) }
{
    let table: u64 = 10_000 + 21 * u64::from(count);
    let mut entry = table + 16;
    let mut at: u64 = 10_000;
    for number in 0..count {
        let byte = (number % 251) as u8;
        if !put_chunk(space, at, &[byte]) || !put_entry(space, entry, at, 1) {
            return None;
        }
        entry = entry.saturating_add(24);
        at = at.saturating_add(21);
    }
    if !put_table(space, table, count) {
        return None;
    }
    Some(DataPlace {
        count,
        pointer: from_place(table),
    })
}
