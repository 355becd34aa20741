// Ranges of the data as ranges of a space.
ghost use Rattle.std.specs.Prelude.{◌≡◌, ◌^◌, ◌+◌, ◌-◌, ◌≤◌, ◌<◌, List, length, IfErr, OnOk};
ghost use Rattle.std.specs.List.{All};
ghost use Rattle.cg_io.specs.Blocks.{Both};
ghost use Rattle.adf_format.specs.HeapRule.{payload_length};
ghost use Rattle.adf_format.specs.Placement.{ChunkPart};
ghost use Rattle.cg_io.specs.Answers.{OnlyReads, IsRefusal};
ghost use Rattle.adf_data.specs.Chunks.{part_of, parts_of, part_at, IsSane};
ghost use Rattle.cg_io.specs.Waits.{WaitsOnly};
ghost use Rattle.cg_io.specs.Pages.{IsPage};
ghost use Rattle.adf_data.specs.Ranges.{IsSpot, IsSpan, IsRead, WritesBytes, ChangesBytes, HasByte};

use crate::chunks::Chunk;
use crate::pages::{load_piece, piece_length};
use crate::spaces::store;
use adf_model::AdfError;
use cg_io::{Page, Space};

/// Where a chunk begins in the data: its number, and the first byte of the data in it.
#[derive(Clone, Copy)]
pub(crate) struct Spot {
    pub number: usize,
    pub first: u64,
}

/// The first chunk.
pub(crate) const START: Spot = Spot {
    number: 0,
    first: 0,
};

/// Bytes of a space one behind another.
#[derive(Clone, Copy)]
pub(crate) struct Span {
    pub place: u64,
    pub length: usize,
}

/// The chunk of a number.
#[tactic(auto, using(crate::proofs::Spots::chunk_there, crate::proofs::Spots::sane_there))]
pub(crate) fn chunk_of(chunks: &[Chunk], number: usize) -> Chunk
    requires there { number < length chunks.now }
    requires sane { All IsSane chunks.now }
    ensures part { part_of result ≡ part_at (parts_of chunks.now) number }
    ensures sane { IsSane result }
{
    chunks[number]
}

// The spot, or the first one where it is too far.
fn not_beyond(from: Spot, k: u64) -> Spot
    ensures first { result.first ≤ k }
    ensures spot { (parts : List ChunkPart) → IsSpot parts from → IsSpot parts result }
{
    if from.first <= k { from } else { START }
}

// The chunk that has a byte of the data.
#[tactic(auto, using(crate::proofs::Spots::next_spot, crate::proofs::Spots::last_spot))]
fn seek(chunks: &[Chunk], from: Spot, k: u64) -> Spot
    requires sane { All IsSane chunks.now }
    requires spot { IsSpot (parts_of chunks.now) from }
    requires within { k < payload_length (parts_of chunks.now) }
    ensures spot { IsSpot (parts_of chunks.now) result }
    ensures first { result.first ≤ k }
    ensures there { result.number < length chunks.now }
    ensures holds { k < result.first + ((part_at (parts_of chunks.now) result.number).length - 20) }
{
    let mut spot = not_beyond(from, k);
    while spot.number < chunks.len() {
        let room = chunk_of(chunks, spot.number).length - 20;
        if k - spot.first < room {
            return spot;
        }
        spot = Spot {
            number: spot.number + 1,
            first: spot.first + room,
        };
    }
    spot
}

/// Where some bytes of the data stand, from one on: as many as stand one behind another.
#[tactic(auto, using(crate::proofs::Spots::spot_spans))]
fn span_at(chunks: &[Chunk], spot: &mut Spot, k: u64, most: usize) -> Span
    requires sane { All IsSane chunks.now }
    requires spot { IsSpot (parts_of chunks.now) spot.old }
    requires some { 0 < most }
    requires within { k + most ≤ payload_length (parts_of chunks.now) }
    ensures spot { IsSpot (parts_of chunks.now) spot.new }
    ensures span { IsSpan (parts_of chunks.now) k most result }
{
    let here = seek(chunks, *spot, k);
    *spot = here;
    let chunk = chunk_of(chunks, here.number);
    let inside = k - here.first;
    let left = chunk.length - 20 - inside;
    Span {
        place: chunk.place + 16 + inside,
        length: if left < most as u64 {
            left as usize
        } else {
            most
        },
    }
}

/// Reads bytes of the data, from one on.
pub(crate) fn read_range<S: Space>(
    space: &mut S,
    page: &mut Page,
    chunks: &[Chunk],
    spot: &mut Spot,
    first: u64,
    into: &mut [u8],
) -> Result<(), AdfError>
    requires sound { S.is_sound space.old }
    requires sane { All IsSane chunks.now }
    requires spot { IsSpot (parts_of chunks.now) spot.old }
    requires within { first + length into.old ≤ payload_length (parts_of chunks.now) }
    requires small { first + length into.old < 2 ^ 63 }
    requires page { IsPage (S.image space.old) page.old }
    ensures sound { S.is_sound space.new }
    ensures spot { IsSpot (parts_of chunks.now) spot.new }
    ensures read { OnOk result (IsRead (parts_of chunks.now) first (length into.old) into.new
        (S.image space.old)) }
    ensures page { IsPage (S.image space.old) page.new }
    ensures image { S.image space.new ≡ S.image space.old }
    ensures waits { S.waiting space.new ≡ S.waiting space.old }
    ensures effect { OnlyReads (S.state space.old) (S.state space.new) }
    ensures cause { IfErr result (IsRefusal ⊥ (S.state space.old).faults
        (S.state space.new).faults) }
{
    let mut done = 0;
    while done < into.len() {
        let span = span_at(chunks, spot, first + done as u64, into.len() - done);
        let count = piece_length(span.place, span.length);
        load_piece(space, page, span.place, &mut into[done..done + count])?;
        done += count;
    }
    Ok(())
}

/// Writes over bytes of the data, from one on.
pub(crate) fn write_range<S: Space>(
    space: &mut S,
    chunks: &[Chunk],
    spot: &mut Spot,
    first: u64,
    from: &[u8],
) -> Result<(), AdfError>
    requires sound { S.is_sound space.old }
    requires sane { All IsSane chunks.now }
    requires spot { IsSpot (parts_of chunks.now) spot.old }
    requires within { first + length from.now ≤ payload_length (parts_of chunks.now) }
    requires small { first + length from.now < 2 ^ 63 }
    ensures sound { S.is_sound space.new }
    ensures spot { IsSpot (parts_of chunks.now) spot.new }
    ensures written { OnOk result (Both (WritesBytes (parts_of chunks.now) first from.now
        (length from.now)) (S.image space.old) (S.image space.new)) }
    ensures bytes { Both (ChangesBytes (parts_of chunks.now) first (length from.now))
        (S.image space.old) (S.image space.new) }
    ensures only { WaitsOnly (HasByte (parts_of chunks.now) first (length from.now))
        (S.waiting space.old) (S.waiting space.new) }
    ensures effect { OnlyReads (S.state space.old) (S.state space.new) }
    ensures cause { IfErr result (IsRefusal ⊥ (S.state space.old).faults
        (S.state space.new).faults) }
{
    let mut done = 0;
    while done < from.len() {
        let span = span_at(chunks, spot, first + done as u64, from.len() - done);
        store(space, span.place, &from[done..done + span.length])?;
        done += span.length;
    }
    Ok(())
}
