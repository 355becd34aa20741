// Zeros and copies, block by block.
ghost use Rattle.std.specs.Prelude.{◌≡◌, ◌^◌, ◌+◌, ◌-◌, ◌%◌, ◌≤◌, ◌<◌, length, IfErr, OnOk};
ghost use Rattle.std.specs.List.{All};
ghost use Rattle.cg_io.specs.Blocks.{Both};
ghost use Rattle.adf_format.specs.HeapRule.{payload_length};
ghost use Rattle.cg_io.specs.Answers.{OnlyReads, IsRefusal};
ghost use Rattle.cg_io.specs.Waits.{IsTouched, WaitsOnly};
ghost use Rattle.adf_data.specs.Chunks.{parts_of, IsSane};
ghost use Rattle.adf_data.specs.Ranges.{IsSpot, ChangesBytes, HasByte};
ghost use Rattle.adf_data.specs.Fills.{Fills, ChangesAt, AllZero, ZeroesBytes, CopiesPart, Copies, MakesChunk};

use crate::chunks::Chunk;
use crate::ranges::{START, Spot, read_range, write_range};
use crate::spaces::store;
use adf_chunks::{Part, encode_head, tail};
use adf_model::AdfError;
use cg_io::{Page, Space};
use disk_ptr::from_place;

// How many bytes from a place on stand in its block, at most so many.
fn block_part(place: u64, left: u64) -> usize
    requires { 0 < left }
    ensures some { 0 < result }
    ensures few { result ≤ left }
    ensures block { result ≤ 4096 }
    ensures within { place % 4096 + result ≤ 4096 }
{
    let room = 4096 - place % 4096;
    if left < room {
        left as usize
    } else {
        room as usize
    }
}

// A block of zeros.
fn zero_block() -> [u8; 4096]
    ensures { AllZero result }
{
    [0; 4096]
}

// Fills a range of at most a block.
fn fill_part<S: Space>(
    space: &mut S,
    place: u64,
    block: &[u8; 4096],
    part: usize,
) -> Result<(), AdfError>
    requires sound { S.is_sound space.old }
    requires zero { AllZero block.now }
    requires block { part ≤ 4096 }
    requires within { place + part ≤ 2 ^ 44 }
    ensures sound { S.is_sound space.new }
    ensures filled { OnOk result (Both (Fills place part) (S.image space.old) (S.image space.new)) }
    ensures bytes { Both (ChangesAt place part) (S.image space.old) (S.image space.new) }
    ensures only { WaitsOnly (IsTouched place part) (S.waiting space.old) (S.waiting space.new) }
    ensures effect { OnlyReads (S.state space.old) (S.state space.new) }
    ensures cause { IfErr result (IsRefusal ⊥ (S.state space.old).faults
        (S.state space.new).faults) }
{
    match store(space, place, &block[..part]) {
        Ok(()) => Ok(()),
        Err(error) => Err(error),
    }
}

/// Fills a range of a space with zeros.
pub(crate) fn fill<S: Space>(space: &mut S, place: u64, count: u64) -> Result<(), AdfError>
    requires sound { S.is_sound space.old }
    requires within { place + count ≤ 2 ^ 44 }
    ensures sound { S.is_sound space.new }
    ensures filled { OnOk result (Both (Fills place count) (S.image space.old)
        (S.image space.new)) }
    ensures bytes { Both (ChangesAt place count) (S.image space.old) (S.image space.new) }
    ensures only { WaitsOnly (IsTouched place count) (S.waiting space.old) (S.waiting space.new) }
    ensures effect { OnlyReads (S.state space.old) (S.state space.new) }
    ensures cause { IfErr result (IsRefusal ⊥ (S.state space.old).faults
        (S.state space.new).faults) }
{
    let block = zero_block();
    let mut done = 0;
    while done < count {
        let part = block_part(place + done, count - done);
        match fill_part(space, place + done, &block, part) {
            Ok(()) => {}
            Err(error) => return Err(error),
        }
        done += part as u64;
    }
    Ok(())
}

// Copies some bytes of the data, at most a block, to a place.
fn copy_part<S: Space>(
    space: &mut S,
    chunks: &[Chunk],
    spot: &mut Spot,
    first: u64,
    part: usize,
    to: u64,
) -> Result<(), AdfError>
    requires sound { S.is_sound space.old }
    requires sane { All IsSane chunks.now }
    requires spot { IsSpot (parts_of chunks.now) spot.old }
    requires block { part ≤ 4096 }
    requires within { first + part ≤ payload_length (parts_of chunks.now) }
    requires small { first + part < 2 ^ 63 }
    requires room { to + part ≤ 2 ^ 44 }
    ensures sound { S.is_sound space.new }
    ensures spot { IsSpot (parts_of chunks.now) spot.new }
    ensures copied { OnOk result (Both (CopiesPart (parts_of chunks.now) first part to)
        (S.image space.old) (S.image space.new)) }
    ensures bytes { Both (ChangesAt to part) (S.image space.old) (S.image space.new) }
    ensures only { WaitsOnly (IsTouched to part) (S.waiting space.old) (S.waiting space.new) }
    ensures effect { OnlyReads (S.state space.old) (S.state space.new) }
    ensures cause { IfErr result (IsRefusal ⊥ (S.state space.old).faults
        (S.state space.new).faults) }
{
    let mut block = [0u8; 4096];
    let mut page = Page::new();
    match read_range(space, &mut page, chunks, spot, first, &mut block[..part]) {
        Ok(()) => {}
        Err(error) => return Err(error),
    }
    match store(space, to, &block[..part]) {
        Ok(()) => Ok(()),
        Err(error) => Err(error),
    }
}

/// Copies the first bytes of the data to a place.
pub(crate) fn copy_out<S: Space>(
    space: &mut S,
    chunks: &[Chunk],
    count: u64,
    to: u64,
) -> Result<(), AdfError>
    requires sound { S.is_sound space.old }
    requires sane { All IsSane chunks.now }
    requires within { count ≤ payload_length (parts_of chunks.now) }
    requires room { to + count ≤ 2 ^ 44 }
    ensures sound { S.is_sound space.new }
    ensures copied { OnOk result (Both (Copies (parts_of chunks.now) count count to)
        (S.image space.old) (S.image space.new)) }
    ensures bytes { Both (ChangesAt to count) (S.image space.old) (S.image space.new) }
    ensures only { WaitsOnly (IsTouched to count) (S.waiting space.old) (S.waiting space.new) }
    ensures effect { OnlyReads (S.state space.old) (S.state space.new) }
    ensures cause { IfErr result (IsRefusal ⊥ (S.state space.old).faults
        (S.state space.new).faults) }
{
    let mut spot = START;
    let mut done = 0;
    while done < count {
        let part = block_part(to + done, count - done);
        match copy_part(space, chunks, &mut spot, done, part, to + done) {
            Ok(()) => {}
            Err(error) => return Err(error),
        }
        done += part as u64;
    }
    Ok(())
}

/// Writes zeros over bytes of the data, from one on.
pub(crate) fn zero_range<S: Space>(
    space: &mut S,
    chunks: &[Chunk],
    first: u64,
    count: u64,
) -> Result<(), AdfError>
    requires sound { S.is_sound space.old }
    requires sane { All IsSane chunks.now }
    requires within { first + count ≤ payload_length (parts_of chunks.now) }
    requires small { first + count < 2 ^ 63 }
    ensures sound { S.is_sound space.new }
    ensures zeroed { OnOk result (Both (ZeroesBytes (parts_of chunks.now) first count)
        (S.image space.old) (S.image space.new)) }
    ensures bytes { Both (ChangesBytes (parts_of chunks.now) first count) (S.image space.old)
        (S.image space.new) }
    ensures only { WaitsOnly (HasByte (parts_of chunks.now) first count) (S.waiting space.old)
        (S.waiting space.new) }
    ensures effect { OnlyReads (S.state space.old) (S.state space.new) }
    ensures cause { IfErr result (IsRefusal ⊥ (S.state space.old).faults
        (S.state space.new).faults) }
{
    let block = zero_block();
    zero_by_blocks(space, chunks, &block, first, count)
}

fn zero_by_blocks<S: Space>(
    space: &mut S,
    chunks: &[Chunk],
    block: &[u8; 4096],
    first: u64,
    count: u64,
) -> Result<(), AdfError>
    requires sound { S.is_sound space.old }
    requires zero { AllZero block.now }
    requires sane { All IsSane chunks.now }
    requires within { first + count ≤ payload_length (parts_of chunks.now) }
    requires small { first + count < 2 ^ 63 }
    ensures sound { S.is_sound space.new }
    ensures zeroed { OnOk result (Both (ZeroesBytes (parts_of chunks.now) first count)
        (S.image space.old) (S.image space.new)) }
    ensures bytes { Both (ChangesBytes (parts_of chunks.now) first count) (S.image space.old)
        (S.image space.new) }
    ensures only { WaitsOnly (HasByte (parts_of chunks.now) first count) (S.waiting space.old)
        (S.waiting space.new) }
    ensures effect { OnlyReads (S.state space.old) (S.state space.new) }
    ensures cause { IfErr result (IsRefusal ⊥ (S.state space.old).faults
        (S.state space.new).faults) }
{
    let mut spot = START;
    let mut done = 0;
    while done < count {
        let part = block_part(0, count - done);
        match write_range(space, chunks, &mut spot, first + done, &block[..part]) {
            Ok(()) => {}
            Err(error) => return Err(error),
        }
        done += part as u64;
    }
    Ok(())
}

/// Writes a chunk at a place, with the first bytes of the data and zeros behind them.
pub(crate) fn write_chunk<S: Space>(
    space: &mut S,
    chunks: &[Chunk],
    kept: u64,
    length: u64,
    place: u64,
) -> Result<(), AdfError>
    requires sound { S.is_sound space.old }
    requires sane { All IsSane chunks.now }
    requires kept { kept ≤ payload_length (parts_of chunks.now) }
    requires long { 21 ≤ length }
    requires fits { 20 + kept ≤ length }
    requires near { place + length ≤ 2 ^ 44 }
    ensures sound { S.is_sound space.new }
    ensures made { OnOk result (Both (MakesChunk (parts_of chunks.now) kept length place)
        (S.image space.old) (S.image space.new)) }
    ensures bytes { Both (ChangesAt place length) (S.image space.old) (S.image space.new) }
    ensures only { WaitsOnly (IsTouched place length) (S.waiting space.old) (S.waiting space.new) }
    ensures effect { OnlyReads (S.state space.old) (S.state space.new) }
    ensures cause { IfErr result (IsRefusal ⊥ (S.state space.old).faults
        (S.state space.new).faults) }
{
    let end = place + length - 4;
    match store(space, place, &encode_head(Part::Data, from_place(end))) {
        Ok(()) => {}
        Err(error) => return Err(error),
    }
    match copy_out(space, chunks, kept, place + 16) {
        Ok(()) => {}
        Err(error) => return Err(error),
    }
    match fill(space, place + 16 + kept, length - 20 - kept) {
        Ok(()) => {}
        Err(error) => return Err(error),
    }
    match store(space, end, &tail(Part::Data)) {
        Ok(()) => Ok(()),
        Err(error) => Err(error),
    }
}
