//! The text of a chunk table.

ghost use Rattle.std.specs.Prelude.{◌≡◌, ◌∷◌, [], ◌++◌, ◌^◌, ◌+◌, ◌-◌, ◌*◌, ◌≤◌, ◌<◌, length, map, IfOk, IfErr, OnOk};
ghost use Rattle.std.specs.List.{All};
ghost use Rattle.adf_format.specs.Records.{Chunks};
ghost use Rattle.adf_format.specs.Spelled.{in_row, framed_text};
ghost use Rattle.adf_model.specs.declared.error.AdfError.{AdfError};
ghost use Rattle.adf_data.specs.Chunks.{part_of, parts_of, IsSane};
ghost use Rattle.adf_data.specs.Growing.{entry_of};

use crate::chunks::Chunk;
use crate::ranges::chunk_of;
use adf_chunks::{ChunkEntry, Part, encode_chunk_entry, encode_head, tail};
use adf_model::AdfError;
use disk_ptr::from_place;
use std::alloc::Global;

// The entry of a chunk.
#[tactic(auto, using(crate::proofs::ChunkLaws::view_from))]
fn entry_text(chunk: Chunk) -> [u8; 24]
    requires sane { IsSane chunk }
    ensures { result ≡ entry_of (part_of chunk) }
{
    encode_chunk_entry(ChunkEntry {
        start: from_place(chunk.place),
        end_tag: from_place(chunk.place + chunk.length - 4),
    })
}

// More of a text.
fn put(text: &mut Vec<u8>, more: &[u8]) -> Result<(), AdfError>
    ensures text { OnOk result (text.new.items ≡ text.old.items ++ more.now) }
    ensures cause { IfErr result (λ e. e ≡ AdfError.Memory) }
{
    match text.extend_from_slice(more) {
        Ok(()) => Ok(()),
        Err(_) => Err(AdfError::Memory),
    }
}

// The entries of some chunks behind a text.
fn put_entries(text: &mut Vec<u8>, chunks: &[Chunk]) -> Result<(), AdfError>
    requires sane { All IsSane chunks.now }
    ensures text { OnOk result (text.new.items
        ≡ text.old.items ++ in_row (map entry_of (parts_of chunks.now))) }
    ensures cause { IfErr result (λ e. e ≡ AdfError.Memory) }
{
    for i in 0..chunks.len() {
        match put(text, &entry_text(chunk_of(chunks, i))) {
            Ok(()) => {}
            Err(error) => return Err(error),
        }
    }
    Ok(())
}

/// The text of a table of some chunks and a last one, at a place.
pub(crate) fn table_text(
    alloc: Global,
    place: u64,
    chunks: &[Chunk],
    last: Chunk,
) -> Result<Vec<u8>, AdfError>
    requires few { length chunks.now < 65535 }
    requires near { place + 44 + 24 * length chunks.now ≤ 2 ^ 44 }
    requires sane { All IsSane chunks.now }
    requires last { IsSane last }
    ensures text { IfOk result (λ text. text.items
        ≡ framed_text Chunks place
        (in_row (map entry_of (parts_of chunks.now ++ part_of last ∷ [])))) }
    ensures long { IfOk result (λ text. length text.items ≡ 44 + 24 * length chunks.now) }
    ensures cause { IfErr result (λ e. e ≡ AdfError.Memory) }
{
    let end = place + 40 + 24 * chunks.len() as u64;
    let mut text = Vec::new(alloc);
    match put(&mut text, &encode_head(Part::Chunks, from_place(end))) {
        Ok(()) => {}
        Err(error) => return Err(error),
    }
    match put_entries(&mut text, chunks) {
        Ok(()) => {}
        Err(error) => return Err(error),
    }
    match put(&mut text, &entry_text(last)) {
        Ok(()) => {}
        Err(error) => return Err(error),
    }
    match put(&mut text, &tail(Part::Chunks)) {
        Ok(()) => Ok(text),
        Err(error) => Err(error),
    }
}
