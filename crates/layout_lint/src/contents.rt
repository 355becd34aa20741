//! What a node is, and what its chunks hold.

ghost use Rattle.std.specs.Prelude.{◌≡◌, ◌^◌, ◌+◌, ◌-◌, ◌≤◌, ◌<◌, ◌++◌, ◌&&◌, ◌||◌, ◌==◌, not, if◌then◌else◌, nat_lt, nat_le, min, length, map, take, ℕ, List, true, IfOk, IfErr, OnOk};
ghost use Rattle.std.specs.List.{All};
ghost use Rattle.cg_io.specs.Blocks.{ReadsFew};
ghost use Rattle.adf_format.specs.Names.{data_size, is_mt, is_lk};
ghost use Rattle.adf_format.specs.Fields.{field};
ghost use Rattle.adf_format.specs.Links.{is_link_text};
ghost use Rattle.adf_format.specs.FirstFault.{ChunkVisit, chunks_in, data_rows, payload_total, payloads_in};
ghost use Rattle.cg_io.specs.Answers.{Told};
ghost use Rattle.cg_io.specs.Pages.{IsReady};
ghost use Rattle.layout_lint.specs.Halts.{Finds, HasCount, IsNoFault};
ghost use Rattle.layout_lint.specs.Chunks.{data_extent, IsChunk};
ghost use Rattle.layout_lint.specs.Nodes.{IsHeaderAt, numbers_of};

use crate::pages::read_at;
use crate::verdict::{Halt, Span, halt_at};
use adf_format::fields::{HEAD_LENGTH, NODE_TYPE, TAG_LENGTH};
use adf_format::{DataType, Extent};
use adf_links::{LONGEST_LINK, split_link};
use adf_model::{Shape, size};
use adf_records::{NodeHeader, dimensions_of};
use cg_io::{Blocks, Page};

/// The bytes of a node's data, at most 2^64 - 1.
pub fn size_of_data(header: &NodeHeader) -> u64
    ensures { result ≡ min (data_size header.now.kind
        (take header.now.rank (numbers_of header.now))) (2 ^ 64 - 1) }
{
    let shape = Shape {
        kind: header.kind,
        rank: header.rank,
        dims: dimensions_of(header),
    };
    size(&shape)
}

// Whether the node is a link.
fn is_link(header: &NodeHeader) -> bool
    ensures { result ≡ is_lk header.now.kind }
{
    header.kind == DataType::Lk
}

// Whether there are chunks as the type wants them, and enough payload for the data.
fn has_payload(header: &NodeHeader, size: u64, payload: u64) -> bool
    ensures { result ≡ ((not (is_mt header.now.kind) || (header.now.chunks == 0))
        && (not (is_lk header.now.kind) || nat_lt 0 header.now.chunks)
        && ((header.now.chunks == 0) || nat_le size payload)) }
{
    if header.kind == DataType::Mt {
        return header.chunks == 0;
    }
    if is_link(header) && header.chunks == 0 {
        return false;
    }
    header.chunks == 0 || size <= payload
}

// Reads some bytes into a part of those that are wanted.
fn read_part<B: Blocks>(
    blocks: &mut B,
    page: &mut Page,
    place: u64,
    into: &mut [u8],
    start: usize,
    count: usize,
) -> Result<(), Halt>
    requires ready { IsReady (B.is_sound blocks.old) (B.state blocks.old).held page.old }
    requires within { place + count ≤ 2 ^ 44 }
    requires fits { start + count ≤ length into.old }
    ensures ready { IsReady (B.is_sound blocks.new) (B.state blocks.new).held page.new }
    ensures told { OnOk result (Told (B.state blocks.old).held (λ image. place + count
        ≤ length image → take (start + count) into.new
        ≡ take start into.old ++ field image place count)) }
    ensures no_fault { IfErr result IsNoFault }
    ensures effect { ReadsFew count (B.state blocks.old) (B.state blocks.new) }
    ensures cause { IfErr result (HasCount (B.state blocks.old).faults
        (B.state blocks.new).faults) }
{
    read_at(blocks, page, place, &mut into[start..start + count])
}

// Reads the first bytes of the payloads of some chunks, in their order.
fn gather<B: Blocks>(
    blocks: &mut B,
    page: &mut Page,
    chunks: &[Extent],
    into: &mut [u8],
) -> Result<(), Halt>
    requires ready { IsReady (B.is_sound blocks.old) (B.state blocks.old).held page.old }
    requires end { (k : ℕ) × (k < 2 ^ 44) × All (IsChunk k) chunks.now }
    ensures ready { IsReady (B.is_sound blocks.new) (B.state blocks.new).held page.new }
    ensures told { OnOk result (Told (B.state blocks.old).held
        (λ image. (end : ℕ) (visits : List ChunkVisit) → end < length image
        → All (IsChunk end) chunks.now → chunks.now ≡ map (data_extent image) visits
        → length into.old ≤ payload_total image visits
        → into.new ≡ take (length into.old) (payloads_in image visits))) }
    ensures no_fault { IfErr result IsNoFault }
    ensures effect { ReadsFew (length into.old) (B.state blocks.old) (B.state blocks.new) }
    ensures cause { IfErr result (HasCount (B.state blocks.old).faults
        (B.state blocks.new).faults) }
{
    let mut done = 0;
    for chunk in chunks {
        let payload = chunk.length - (HEAD_LENGTH + TAG_LENGTH) as u64;
        let count = payload.min((into.len() - done) as u64) as usize;
        read_part(
            blocks,
            page,
            chunk.place + HEAD_LENGTH as u64,
            into,
            done,
            count,
        )?;
        done += count;
    }
    Ok(())
}

// Whether the first bytes of the payloads, which are read into `text`, are the text of a link.
fn reads_link_text<B: Blocks>(
    blocks: &mut B,
    page: &mut Page,
    chunks: &[Extent],
    text: &mut [u8],
    size: usize,
) -> Result<bool, Halt>
    requires ready { IsReady (B.is_sound blocks.old) (B.state blocks.old).held page.old }
    requires end { (k : ℕ) × (k < 2 ^ 44) × All (IsChunk k) chunks.now }
    requires fits { size ≤ length text.old }
    ensures ready { IsReady (B.is_sound blocks.new) (B.state blocks.new).held page.new }
    ensures told { IfOk result (λ yes. Told (B.state blocks.old).held
        (λ image. (end : ℕ) (visits : List ChunkVisit) → end < length image
        → All (IsChunk end) chunks.now → chunks.now ≡ map (data_extent image) visits
        → size ≤ payload_total image visits → yes
        ≡ is_link_text (take size (payloads_in image visits)))) }
    ensures no_fault { IfErr result IsNoFault }
    ensures effect { ReadsFew size (B.state blocks.old) (B.state blocks.new) }
    ensures cause { IfErr result (HasCount (B.state blocks.old).faults
        (B.state blocks.new).faults) }
{
    match gather(blocks, page, chunks, &mut text[..size]) {
        Ok(()) => Ok(split_link(&text[..size]).is_some()),
        Err(halt) => Err(halt),
    }
}

// Whether the first bytes of the payloads are the text of a link.
fn is_link_text<B: Blocks>(
    blocks: &mut B,
    page: &mut Page,
    chunks: &[Extent],
    size: usize,
) -> Result<bool, Halt>
    requires ready { IsReady (B.is_sound blocks.old) (B.state blocks.old).held page.old }
    requires end { (k : ℕ) × (k < 2 ^ 44) × All (IsChunk k) chunks.now }
    requires short { size ≤ 4096 }
    ensures ready { IsReady (B.is_sound blocks.new) (B.state blocks.new).held page.new }
    ensures told { IfOk result (λ yes. Told (B.state blocks.old).held
        (λ image. (end : ℕ) (visits : List ChunkVisit) → end < length image
        → All (IsChunk end) chunks.now → chunks.now ≡ map (data_extent image) visits
        → size ≤ payload_total image visits → yes
        ≡ is_link_text (take size (payloads_in image visits)))) }
    ensures no_fault { IfErr result IsNoFault }
    ensures effect { ReadsFew size (B.state blocks.old) (B.state blocks.new) }
    ensures cause { IfErr result (HasCount (B.state blocks.old).faults
        (B.state blocks.new).faults) }
{
    let mut text = [0u8; LONGEST_LINK];
    reads_link_text(blocks, page, chunks, &mut text, size)
}

// Whether a node's link, if it is one, is as it has to be.
fn is_sound_link<B: Blocks>(
    blocks: &mut B,
    page: &mut Page,
    header: &NodeHeader,
    size: u64,
    chunks: &[Extent],
) -> Result<bool, Halt>
    requires ready { IsReady (B.is_sound blocks.old) (B.state blocks.old).held page.old }
    requires end { (k : ℕ) × (k < 2 ^ 44) × All (IsChunk k) chunks.now }
    ensures ready { IsReady (B.is_sound blocks.new) (B.state blocks.new).held page.new }
    ensures told { IfOk result (λ yes. Told (B.state blocks.old).held
        (λ image. (end : ℕ) (visits : List ChunkVisit) → end < length image
        → All (IsChunk end) chunks.now → chunks.now ≡ map (data_extent image) visits
        → (is_lk header.now.kind ≡ true → size ≤ payload_total image visits)
        → yes ≡ (not (is_lk header.now.kind) || (header.now.rank == 1) && nat_le size 4096
        && is_link_text (take size (payloads_in image visits))))) }
    ensures no_fault { IfErr result IsNoFault }
    ensures effect { ReadsFew (if is_lk header.now.kind then size else 0) (B.state blocks.old)
        (B.state blocks.new) }
    ensures cause { IfErr result (HasCount (B.state blocks.old).faults
        (B.state blocks.new).faults) }
{
    if !is_link(header) {
        return Ok(true);
    }
    if header.rank != 1 || size > LONGEST_LINK as u64 {
        return Ok(false);
    }
    is_link_text(blocks, page, chunks, size as usize)
}

/// Looks at what a node is and what its chunks hold: rules 27 and 28.
pub fn look_at_contents<B: Blocks>(
    blocks: &mut B,
    page: &mut Page,
    span: Span,
    place: u64,
    header: &NodeHeader,
    payload: u64,
    chunks: &[Extent],
) -> Result<(), Halt>
    requires ready { IsReady (B.is_sound blocks.old) (B.state blocks.old).held page.old }
    requires end { span.end < 2 ^ 44 }
    requires place { place ≤ span.end }
    requires chunks { All (IsChunk span.end) chunks.now }
    requires count { length chunks.now ≡ header.now.chunks }
    requires payload { payload ≤ span.end + 1 }
    ensures ready { IsReady (B.is_sound blocks.new) (B.state blocks.new).held page.new }
    ensures rows { Told (B.state blocks.old).held (λ image. span.end < length image
        → IsHeaderAt image span.wide place header.now
        → chunks.now ≡ map (data_extent image) (chunks_in image span.wide place)
        → payload ≡ payload_total image (chunks_in image span.wide place)
        → Finds (data_rows image span.wide place) result) }
    ensures effect { ReadsFew payload (B.state blocks.old) (B.state blocks.new) }
    ensures cause { IfErr result (HasCount (B.state blocks.old).faults
        (B.state blocks.new).faults) }
{
    let size = size_of_data(header);
    if !has_payload(header, size, payload) {
        return halt_at(27, place + span.node_length() as u64 - 20);
    }
    match is_sound_link(blocks, page, header, size, chunks) {
        Ok(true) => Ok(()),
        Ok(false) => halt_at(28, place + NODE_TYPE.offset as u64),
        Err(halt) => Err(halt),
    }
}
