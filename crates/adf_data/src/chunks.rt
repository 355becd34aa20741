// The chunks of some data, as a space has them.
ghost use Rattle.std.specs.Prelude.{◌≡◌, ◌^◌, List, Option, ℕ, ◌+◌, ◌-◌, ◌≤◌, ◌<◌, ◌∷◌, [], ◌++◌, ◌≢◌, length, Some, option_map, IfOk, IfErr, IfSome, OnOk};
ghost use Rattle.adf_model.specs.declared.error.AdfError.{AdfError};
ghost use Rattle.std.specs.List.{All};
ghost use Rattle.adf_format.specs.Pointer.{To};
ghost use Rattle.adf_format.specs.Placement.{NodeParts, ChunkPart};
ghost use Rattle.disk_ptr.specs.View.{view, HasOffset};
ghost use Rattle.cg_io.specs.Answers.{OnlyReads, IsRefusal};
ghost use Rattle.adf_data.specs.Chunks.{part_of, parts_of, part_at, IsSane, SaysChunk, HeadSaysChunk, Named, NoneNamed};

use crate::place::DataPlace;
use crate::spaces::load;
use adf_chunks::{Part, decode_chunk_entry, decode_head};
use adf_model::AdfError;
use cg_io::Space;
use disk_ptr::{DiskPtr, place as place_named};
use std::alloc::Global;

/// A chunk of data: its place, and its length with its head and its end tag.
#[derive(Clone, Copy)]
pub(crate) struct Chunk {
    pub place: u64,
    pub length: u64,
}

// The chunk between two places, where it has a payload.
fn chunk_between(start: DiskPtr, end_tag: DiskPtr) -> Option<Chunk>
    requires start { HasOffset start }
    requires end { HasOffset end_tag }
    ensures says { (c : ChunkPart) → 21 ≤ c.length → view start ≡ To c.place
        → view end_tag ≡ To (c.place + c.length - 4) → option_map part_of result ≡ Some c }
    ensures sane { IfSome result IsSane }
{
    let Some(place) = place_named(start) else {
        return None;
    };
    let Some(end) = place_named(end_tag) else {
        return None;
    };
    if end < place + 17 {
        return None;
    }
    Some(Chunk {
        place,
        length: end + 4 - place,
    })
}

// The chunk that an entry of a table names.
fn chunk_in_entry(bytes: &[u8; 24]) -> Option<Chunk>
    ensures says { (c : ChunkPart) → 21 ≤ c.length → SaysChunk bytes.now c
        → option_map part_of result ≡ Some c }
    ensures sane { IfSome result IsSane }
{
    match decode_chunk_entry(bytes) {
        Some(entry) => chunk_between(entry.start, entry.end_tag),
        None => None,
    }
}

// The chunk at a place, by its head.
fn chunk_in_head(pointer: DiskPtr, bytes: &[u8; 16]) -> Option<Chunk>
    requires { HasOffset pointer }
    ensures says { (c : ChunkPart) → 21 ≤ c.length → view pointer ≡ To c.place
        → HeadSaysChunk bytes.now c → option_map part_of result ≡ Some c }
    ensures sane { IfSome result IsSane }
{
    match decode_head(Part::Data, bytes) {
        Some(end_tag) => chunk_between(pointer, end_tag),
        None => None,
    }
}

/// The last place at which an entry of a table may begin.
const LAST_ENTRY: u64 = (1 << 44) - 24;

/// The last place at which the head of a chunk may begin.
const LAST_HEAD: u64 = (1 << 44) - 16;

// The chunk in an entry of the table.
fn listed_chunk<S: Space>(space: &mut S, at: DataPlace, number: u64) -> Result<Chunk, AdfError>
    requires sound { S.is_sound space.old }
    requires offset { HasOffset at.pointer }
    requires several { 2 ≤ at.count }
    requires inside { number < at.count }
    ensures sound { S.is_sound space.new }
    ensures image { S.image space.new ≡ S.image space.old }
    ensures waits { S.waiting space.new ≡ S.waiting space.old }
    ensures says { IfOk result (λ c. (parts : NodeParts) → Named at parts (S.image space.old)
        → part_of c ≡ part_at parts.chunks number) }
    ensures sane { IfOk result IsSane }
    ensures effect { OnlyReads (S.state space.old) (S.state space.new) }
    ensures cause { IfErr result (IsRefusal (NoneNamed at (S.image space.old))
        (S.state space.old).faults (S.state space.new).faults) }
{
    let Some(table) = place_named(at.pointer) else {
        return Err(AdfError::Layout { rule: 30, place: 0 });
    };
    let entry = table + 16 + 24 * number;
    if entry > LAST_ENTRY {
        return Err(AdfError::Layout {
            rule: 25,
            place: entry,
        });
    }
    let mut bytes = [0u8; 24];
    load(space, entry, &mut bytes)?;
    match chunk_in_entry(&bytes) {
        Some(chunk) => Ok(chunk),
        None => Err(AdfError::Layout {
            rule: 25,
            place: entry,
        }),
    }
}

/// The one chunk.
pub(crate) fn only_chunk<S: Space>(space: &mut S, at: DataPlace) -> Result<Chunk, AdfError>
    requires sound { S.is_sound space.old }
    requires offset { HasOffset at.pointer }
    requires one { at.count ≡ 1 }
    ensures sound { S.is_sound space.new }
    ensures image { S.image space.new ≡ S.image space.old }
    ensures waits { S.waiting space.new ≡ S.waiting space.old }
    ensures says { IfOk result (λ c. (parts : NodeParts) → Named at parts (S.image space.old)
        → part_of c ∷ [] ≡ parts.chunks) }
    ensures sane { IfOk result IsSane }
    ensures effect { OnlyReads (S.state space.old) (S.state space.new) }
    ensures cause { IfErr result (IsRefusal (NoneNamed at (S.image space.old))
        (S.state space.old).faults (S.state space.new).faults) }
{
    let Some(place) = place_named(at.pointer) else {
        return Err(AdfError::Layout { rule: 30, place: 0 });
    };
    if place > LAST_HEAD {
        return Err(AdfError::Layout { rule: 26, place });
    }
    let mut bytes = [0u8; 16];
    load(space, place, &mut bytes)?;
    match chunk_in_head(at.pointer, &bytes) {
        Some(chunk) => Ok(chunk),
        None => Err(AdfError::Layout { rule: 26, place }),
    }
}

// One more chunk.
fn keep(chunks: &mut Vec<Chunk>, chunk: Chunk) -> Result<(), AdfError>
    requires one { IsSane chunk }
    requires sane { All IsSane chunks.old.items }
    ensures items { OnOk result (chunks.new.items ≡ chunks.old.items ++ chunk ∷ []) }
    ensures sane { OnOk result (All IsSane chunks.new.items) }
    ensures cause { IfErr result (λ e. e ≡ AdfError.Memory) }
{
    match chunks.push(chunk) {
        Ok(()) => Ok(()),
        Err(_) => Err(AdfError::Memory),
    }
}

// The chunks that a table lists.
fn list_several<S: Space>(
    alloc: Global,
    space: &mut S,
    at: DataPlace,
    count: u16,
) -> Result<Vec<Chunk>, AdfError>
    requires sound { S.is_sound space.old }
    requires offset { HasOffset at.pointer }
    requires count { count ≡ at.count }
    requires several { count ≢ 1 }
    ensures sound { S.is_sound space.new }
    ensures image { S.image space.new ≡ S.image space.old }
    ensures waits { S.waiting space.new ≡ S.waiting space.old }
    ensures says { IfOk result (λ chunks. (parts : NodeParts) → Named at parts (S.image space.old)
        → parts_of chunks.items ≡ parts.chunks) }
    ensures sane { IfOk result (λ chunks. All IsSane chunks.items) }
    ensures few { IfOk result (λ chunks. length chunks.items < 65536) }
    ensures count { IfOk result (λ chunks. length chunks.items ≡ at.count) }
    ensures effect { OnlyReads (S.state space.old) (S.state space.new) }
    ensures cause { IfErr result (IsRefusal (NoneNamed at (S.image space.old))
        (S.state space.old).faults (S.state space.new).faults) }
{
    let mut chunks = match Vec::with_capacity(alloc, usize::from(count)) {
        Ok(chunks) => chunks,
        Err(_) => return Err(AdfError::Memory),
    };
    for number in 0..u64::from(count) {
        match listed_chunk(space, at, number) {
            Ok(chunk) => keep(&mut chunks, chunk)?,
            Err(error) => return Err(error),
        }
    }
    Ok(chunks)
}

/// All chunks, in their order.
pub(crate) fn list_chunks<S: Space>(
    alloc: Global,
    space: &mut S,
    at: DataPlace,
) -> Result<Vec<Chunk>, AdfError>
    requires sound { S.is_sound space.old }
    requires offset { HasOffset at.pointer }
    ensures sound { S.is_sound space.new }
    ensures image { S.image space.new ≡ S.image space.old }
    ensures waits { S.waiting space.new ≡ S.waiting space.old }
    ensures says { IfOk result (λ chunks. (parts : NodeParts) → Named at parts (S.image space.old)
        → parts_of chunks.items ≡ parts.chunks) }
    ensures sane { IfOk result (λ chunks. All IsSane chunks.items) }
    ensures few { IfOk result (λ chunks. length chunks.items < 65536) }
    ensures count { IfOk result (λ chunks. length chunks.items ≡ at.count) }
    ensures effect { OnlyReads (S.state space.old) (S.state space.new) }
    ensures cause { IfErr result (IsRefusal (NoneNamed at (S.image space.old))
        (S.state space.old).faults (S.state space.new).faults) }
{
    if at.count != 1 {
        return list_several(alloc, space, at, at.count);
    }
    let mut chunks = Vec::new(alloc);
    match only_chunk(space, at) {
        Ok(chunk) => keep(&mut chunks, chunk)?,
        Err(error) => return Err(error),
    }
    Ok(chunks)
}

/// The table of the chunks, where there are two or more.
#[tactic(auto, using(crate::proofs::Listing::table_named, crate::proofs::Listing::untabled))]
pub(crate) fn table_in(at: DataPlace) -> Option<u64>
    requires offset { HasOffset at.pointer }
    ensures says { (parts : NodeParts) (image : Option (List ℕ)) → Named at parts image
        → result ≡ parts.chunk_table }
    ensures near { IfSome result (λ place. place < 2 ^ 44) }
{
    if at.count < 2 {
        return None;
    }
    place_named(at.pointer)
}
