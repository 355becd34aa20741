//! Elements of the data, by runs.

ghost use Rattle.std.specs.Prelude.{◌≡◌, ℕ, ◌+◌, ◌*◌, ◌/◌, ◌^◌, ◌≤◌, ◌<◌, IsTrue, ◌↔◌, List, Some, length, take, IfOk, IfErr, IfSome, OnOk};
ghost use Rattle.std.specs.List.{All};
ghost use Rattle.cg_io.specs.Blocks.{Both};
ghost use Rattle.adf_format.specs.Placement.{NodeParts};
ghost use Rattle.adf_format.specs.HeapRule.{payload_length};
ghost use Rattle.adf_model.specs.declared.error.AdfError.{AdfError};
ghost use Rattle.adf_model.specs.Selection.{element_bytes};
ghost use Rattle.strided.specs.RunLists.{spread};
ghost use Rattle.disk_ptr.specs.View.{HasOffset};
ghost use Rattle.cg_io.specs.Answers.{OnlyReads, IsRefusal};
ghost use Rattle.cg_io.specs.Waits.{how_many, WaitsOnly};
ghost use Rattle.adf_data.specs.Chunks.{parts_of, IsSane, Named};
ghost use Rattle.field_access.specs.Fields.{WaitsWithin};
ghost use Rattle.adf_data.specs.Ranges.{HasByte};
ghost use Rattle.adf_data.specs.Runs.{EndsIn, run_bytes, run_at, RunsRead, WritesRuns, ChangesPayloads, IsShort, Holds, NoRuns, WritesElements, ChangesDataAlone, payload_extents};

use crate::chunks::{Chunk, list_chunks};
use crate::place::DataPlace;
use crate::ranges::{START, chunk_of, read_range, write_range};
use adf_model::{AdfError, Listing, Run, Runs, Text};
use cg_io::{Page, Space};
use std::alloc::Global;

/// Bytes of the data one behind another.
#[derive(Clone, Copy)]
struct Stretch {
    first: u64,
    count: usize,
}

// The bytes of a run.
#[tactic(auto, using(crate::proofs::RunLaws::run_there, crate::proofs::RunLaws::run_ends))]
fn stretch_at(runs: &[Run], i: usize, element: u64) -> Stretch
    requires there { i < length runs.now }
    requires small { All (EndsIn element (2 ^ 30)) runs.now }
    ensures first { result.first ≡ (run_at runs.now i).first * element }
    ensures count { result.count ≡ (run_at runs.now i).count * element }
    ensures small { result.first + result.count ≤ 2 ^ 30 }
    ensures ends { (limit : ℕ) → All (EndsIn element limit) runs.now
        → result.first + result.count ≤ limit }
    ensures room { run_bytes element (take i runs.now) + result.count ≤ run_bytes element runs.now }
    ensures more { run_bytes element (take (i + 1) runs.now)
        ≡ run_bytes element (take i runs.now) + result.count }
{
    let run = runs[i];
    Stretch {
        first: run.first * element,
        count: (run.count * element) as usize,
    }
}

/// How long all payloads are together.
#[tactic(auto, using(crate::proofs::Spots::more_payload, crate::proofs::Spots::all_payload))]
pub(crate) fn payload_total(chunks: &[Chunk]) -> u64
    requires few { length chunks.now < 65536 }
    requires sane { All IsSane chunks.now }
    ensures { result ≡ payload_length (parts_of chunks.now) }
{
    let mut total = 0;
    for i in 0..chunks.len() {
        total += chunk_of(chunks, i).length - 20;
    }
    total
}

// Whether all runs end within some bytes.
fn end_in(runs: &[Run], element: u64, limit: u64) -> bool
    requires small { All (EndsIn element (2 ^ 30)) runs.now }
    ensures { IsTrue result ↔ All (EndsIn element limit) runs.now }
{
    for i in 0..runs.len() {
        let stretch = stretch_at(runs, i, element);
        if stretch.first + stretch.count as u64 > limit {
            return false;
        }
    }
    true
}

// Reads the bytes of all runs.
fn read_each<S: Space>(
    space: &mut S,
    chunks: &[Chunk],
    element: u64,
    runs: &[Run],
    into: &mut [u8],
) -> Result<(), AdfError>
    requires sound { S.is_sound space.old }
    requires sane { All IsSane chunks.now }
    requires small { All (EndsIn element (2 ^ 30)) runs.now }
    requires within { All (EndsIn element (payload_length (parts_of chunks.now))) runs.now }
    requires room { length into.old ≡ run_bytes element runs.now }
    ensures sound { S.is_sound space.new }
    ensures read { OnOk result (RunsRead (parts_of chunks.now) element runs.now into.new
        (S.image space.old)) }
    ensures image { S.image space.new ≡ S.image space.old }
    ensures waits { S.waiting space.new ≡ S.waiting space.old }
    ensures effect { OnlyReads (S.state space.old) (S.state space.new) }
    ensures cause { IfErr result (IsRefusal ⊥ (S.state space.old).faults
        (S.state space.new).faults) }
{
    let mut page = Page::new();
    let mut spot = START;
    let mut done = 0;
    for i in 0..runs.len() {
        let stretch = stretch_at(runs, i, element);
        read_range(
            space,
            &mut page,
            chunks,
            &mut spot,
            stretch.first,
            &mut into[done..done + stretch.count],
        )?;
        done += stretch.count;
    }
    Ok(())
}

// How many bytes the runs have, where all of them lie within the payloads.
fn text_length(chunks: &[Chunk], element: u64, runs: &[Run]) -> Result<usize, AdfError>
    requires few { length chunks.now < 65536 }
    requires sane { All IsSane chunks.now }
    requires small { All (EndsIn element (2 ^ 30)) runs.now }
    ensures within { OnOk result (All (EndsIn element (payload_length (parts_of chunks.now)))
        runs.now) }
    ensures length { IfOk result (λ n. n ≡ run_bytes element runs.now) }
    ensures cause { IfErr result (IsShort (All
        (EndsIn element (payload_length (parts_of chunks.now))) runs.now → ⊥)) }
{
    if !end_in(runs, element, payload_total(chunks)) {
        return Err(AdfError::Layout { rule: 27, place: 0 });
    }
    let mut total: usize = 0;
    for i in 0..runs.len() {
        let stretch = stretch_at(runs, i, element);
        match total.checked_add(stretch.count) {
            Some(sum) => total = sum,
            None => return Err(AdfError::Memory),
        }
    }
    Ok(total)
}

// So many zeros.
fn zeros(alloc: Global, count: usize) -> Result<Vec<u8>, AdfError>
    ensures length { IfOk result (λ bytes. length bytes.items ≡ count) }
    ensures cause { IfErr result (λ e. e ≡ AdfError.Memory) }
{
    let mut bytes = Vec::new(alloc);
    match bytes.resize(count, 0) {
        Ok(()) => Ok(bytes),
        Err(_) => Err(AdfError::Memory),
    }
}

// The bytes of all runs.
fn read_text<S: Space>(
    alloc: Global,
    space: &mut S,
    chunks: &[Chunk],
    element: u64,
    runs: &[Run],
) -> Result<Vec<u8>, AdfError>
    requires sound { S.is_sound space.old }
    requires few { length chunks.now < 65536 }
    requires sane { All IsSane chunks.now }
    requires small { All (EndsIn element (2 ^ 30)) runs.now }
    ensures sound { S.is_sound space.new }
    ensures long { IfOk result (λ text. length text.items ≡ run_bytes element runs.now) }
    ensures read { IfOk result (λ text. RunsRead (parts_of chunks.now) element runs.now text.items
        (S.image space.old)) }
    ensures image { S.image space.new ≡ S.image space.old }
    ensures waits { S.waiting space.new ≡ S.waiting space.old }
    ensures effect { OnlyReads (S.state space.old) (S.state space.new) }
    ensures cause { IfErr result (IsRefusal (All
        (EndsIn element (payload_length (parts_of chunks.now))) runs.now
        → ⊥) (S.state space.old).faults (S.state space.new).faults) }
{
    let total = match text_length(chunks, element, runs) {
        Ok(total) => total,
        Err(error) => return Err(error),
    };
    let mut text = match zeros(alloc, total) {
        Ok(text) => text,
        Err(error) => return Err(error),
    };
    match read_each(space, chunks, element, runs, &mut text) {
        Ok(()) => Ok(text),
        Err(error) => Err(error),
    }
}

/// The bytes of the elements of some runs, in their order.
pub fn read_runs<S: Space>(
    alloc: Global,
    space: &mut S,
    at: &DataPlace,
    element: u64,
    runs: &Runs,
) -> Result<Text, AdfError>
    requires sound { S.is_sound space.old }
    requires offset { HasOffset at.now.pointer }
    requires small { All (EndsIn element (2 ^ 30)) runs.now }
    ensures sound { S.is_sound space.new }
    ensures long { IfOk result (λ text. length text ≡ element * length (spread runs.now)) }
    ensures read { IfOk result (λ text. (parts : NodeParts) (data' : List ℕ)
        → Holds at.now parts data' (S.image space.old)
        → All (EndsIn element (length data')) runs.now
        → text ≡ element_bytes element (spread runs.now) data') }
    ensures image { S.image space.new ≡ S.image space.old }
    ensures waits { S.waiting space.new ≡ S.waiting space.old }
    ensures effect { OnlyReads (S.state space.old) (S.state space.new) }
    ensures cause { IfErr result (IsRefusal (NoRuns at.now element runs.now (S.image space.old))
        (S.state space.old).faults (S.state space.new).faults) }
{
    let chunks = match list_chunks(alloc, space, *at) {
        Ok(chunks) => chunks,
        Err(error) => return Err(error),
    };
    match read_text(alloc, space, &chunks, element, runs.items()) {
        Ok(text) => Ok(Listing::new(text)),
        Err(error) => Err(error),
    }
}

// Writes the bytes of all runs.
pub(crate) fn write_each<S: Space>(
    space: &mut S,
    chunks: &[Chunk],
    element: u64,
    runs: &[Run],
    from: &[u8],
) -> Result<(), AdfError>
    requires sound { S.is_sound space.old }
    requires sane { All IsSane chunks.now }
    requires small { All (EndsIn element (2 ^ 30)) runs.now }
    requires within { All (EndsIn element (payload_length (parts_of chunks.now))) runs.now }
    requires room { length from.now ≡ run_bytes element runs.now }
    ensures sound { S.is_sound space.new }
    ensures written { OnOk result (Both (WritesRuns (parts_of chunks.now) element runs.now from.now)
        (S.image space.old) (S.image space.new)) }
    ensures bytes { Both (ChangesPayloads (parts_of chunks.now)) (S.image space.old)
        (S.image space.new) }
    ensures only { (limit : ℕ) → All (EndsIn element limit) runs.now
        → WaitsOnly (HasByte (parts_of chunks.now) 0 limit) (S.waiting space.old)
        (S.waiting space.new) }
    ensures effect { OnlyReads (S.state space.old) (S.state space.new) }
    ensures cause { IfErr result (IsRefusal ⊥ (S.state space.old).faults
        (S.state space.new).faults) }
{
    let mut spot = START;
    let mut done = 0;
    for i in 0..runs.len() {
        let stretch = stretch_at(runs, i, element);
        match write_range(
            space,
            chunks,
            &mut spot,
            stretch.first,
            &from[done..done + stretch.count],
        ) {
            Ok(()) => {}
            Err(error) => return Err(error),
        }
        done += stretch.count;
    }
    Ok(())
}

/// Writes over the elements of some runs, in their order. The time grows with the number of runs and
/// of bytes, and only the blocks that the runs touch, and those of the chunks' heads or their table, are read.
/// However many the runs are, no more blocks wait anew than the bytes up to the end of the last run fill, and two a chunk.
pub fn write_runs<S: Space>(
    alloc: Global,
    space: &mut S,
    at: &DataPlace,
    element: u64,
    runs: &Runs,
    bytes: &[u8],
) -> Result<(), AdfError>
    requires sound { S.is_sound space.old }
    requires offset { HasOffset at.now.pointer }
    requires small { All (EndsIn element (2 ^ 30)) runs.now }
    requires bytes { length bytes.now ≡ element * length (spread runs.now) }
    ensures sound { S.is_sound space.new }
    ensures written { OnOk result (Both (WritesElements at.now element runs.now bytes.now)
        (S.image space.old) (S.image space.new)) }
    ensures alone { Both (ChangesDataAlone at.now) (S.image space.old) (S.image space.new) }
    ensures only { (parts : NodeParts) → Named at.now parts (S.image space.old)
        → WaitsWithin (payload_extents parts.chunks) (S.waiting space.old) (S.waiting space.new) }
    ensures waits { (limit : ℕ) → All (EndsIn element limit) runs.now
        → how_many (S.waiting space.new)
        ≤ how_many (S.waiting space.old) + (limit / 4096 + 2 * at.now.count) }
    ensures effect { OnlyReads (S.state space.old) (S.state space.new) }
    ensures cause { IfErr result (IsRefusal (NoRuns at.now element runs.now (S.image space.old))
        (S.state space.old).faults (S.state space.new).faults) }
{
    let chunks = match list_chunks(alloc, space, *at) {
        Ok(chunks) => chunks,
        Err(error) => return Err(error),
    };
    write_bytes(space, &chunks, element, runs.items(), bytes)
}

// Writes the bytes of all runs, where they lie within the payloads.
fn write_bytes<S: Space>(
    space: &mut S,
    chunks: &[Chunk],
    element: u64,
    runs: &[Run],
    bytes: &[u8],
) -> Result<(), AdfError>
    requires sound { S.is_sound space.old }
    requires few { length chunks.now < 65536 }
    requires sane { All IsSane chunks.now }
    requires small { All (EndsIn element (2 ^ 30)) runs.now }
    requires bytes { length bytes.now ≡ element * length (spread runs.now) }
    ensures sound { S.is_sound space.new }
    ensures written { OnOk result (Both (WritesRuns
        (parts_of chunks.now) element runs.now bytes.now) (S.image space.old) (S.image space.new)) }
    ensures changes { Both (ChangesPayloads (parts_of chunks.now)) (S.image space.old)
        (S.image space.new) }
    ensures only { (limit : ℕ) → All (EndsIn element limit) runs.now
        → WaitsOnly (HasByte (parts_of chunks.now) 0 limit) (S.waiting space.old)
        (S.waiting space.new) }
    ensures effect { OnlyReads (S.state space.old) (S.state space.new) }
    ensures cause { IfErr result (IsRefusal (All
        (EndsIn element (payload_length (parts_of chunks.now))) runs.now
        → ⊥) (S.state space.old).faults (S.state space.new).faults) }
{
    if !end_in(runs, element, payload_total(chunks)) {
        return Err(AdfError::Layout { rule: 27, place: 0 });
    }
    match write_each(space, chunks, element, runs, bytes) {
        Ok(()) => Ok(()),
        Err(error) => Err(error),
    }
}
