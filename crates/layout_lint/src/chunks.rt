//! The chunks of a node's data, and the table of them.

ghost use Rattle.std.specs.Prelude.{◌≡◌, ◌^◌, ◌+◌, ◌-◌, ◌*◌, ◌≤◌, ◌<◌, ◌==◌, ◌++◌, [], ◌∷◌, ℕ, List, length, map, nat_lt, Some, None, IfOk, IfErr, IfSome, OnOk, option_map};
ghost use Rattle.std.specs.List.{All};
ghost use Rattle.cg_io.specs.Blocks.{ReadsFew};
ghost use Rattle.adf_format.specs.Parts.{chunk_table_length};
ghost use Rattle.adf_format.specs.Fields.{field};
ghost use Rattle.adf_format.specs.FirstFault.{chunk_table_rows, chunk_rows, chunk_length, payload_total, count_up, agrees, rows_unless, one_chunk_rows};
ghost use Rattle.adf_format.specs.Tiles.{total_length};
ghost use Rattle.cg_io.specs.Answers.{Told};
ghost use Rattle.cg_io.specs.Pages.{IsReady};
ghost use Rattle.layout_lint.specs.Halts.{Finds, HasCount, MayLackMemory, IsWant};
ghost use Rattle.layout_lint.specs.Chunks.{visit_of, entry_visit, listed_chunks, AreListed, IsList, IsNear, chunk_said, chunk_entry_row, listed_chunk, chunk_visit, tail_said, chunk_list, data_extent, list_extents, AddsChunks};

use crate::marks::{Mark, look_at_start, look_at_tail, place_in};
use crate::pages::field_at;
use crate::verdict::{Halt, Span, halt_at};
use adf_chunks::Part;
use adf_format::fields::{
    CHUNK_END, CHUNK_ENTRY_LENGTH, CHUNK_START, HEAD_LENGTH, HEAD_POINTER, TAG_LENGTH,
};
use adf_format::{Extent, ExtentKind};
use cg_io::{Blocks, Page};
use disk_ptr::fields::points_to;
use std::alloc::Global;

/// The chunks of a node: their number, and the place of the one chunk or of the table of several.
#[derive(Clone, Copy, Drop)]
pub struct Chunks {
    pub count: u16,
    pub place: u64,
}

impl Chunks {
    /// Whether they have a table.
    pub fn are_listed(self) -> bool
        ensures { result ≡ nat_lt 1 self.count }
    {
        self.count > 1
    }

    /// How many bytes the table has.
    pub fn table_length(self) -> u64
        ensures { result ≡ chunk_table_length self.count }
    {
        (HEAD_LENGTH + TAG_LENGTH) as u64 + CHUNK_ENTRY_LENGTH as u64 * u64::from(self.count)
    }

    /// Where the end tag of the table stands.
    pub fn tail(self) -> u64
        requires { self.place < 2 ^ 44 }
        ensures { result ≡ self.place + 16 + 24 * self.count }
    {
        self.place + HEAD_LENGTH as u64 + CHUNK_ENTRY_LENGTH as u64 * u64::from(self.count)
    }

    /// Where an entry of the table stands.
    pub fn entry(self, position: u16) -> u64
        requires { self.place < 2 ^ 44 }
        ensures { result ≡ self.place + 16 + 24 * position }
    {
        self.place + HEAD_LENGTH as u64 + CHUNK_ENTRY_LENGTH as u64 * u64::from(position)
    }
}

/// An entry of a table: where a chunk stands, and its end tag.
#[derive(Clone, Copy, Drop)]
pub struct Listed {
    pub place: u64,
    pub tail: u64,
}

/// The bytes that are used with the table, and its entries; none where there is no table.
#[derive(Drop)]
pub struct Framed {
    pub used: u64,
    pub list: Vec<Listed>,
}

/// A chunk as its node or the table names it, with the end tag that the table gives.
#[derive(Clone, Copy, Drop)]
pub struct Chunk {
    pub place: u64,
    pub listed: Option<u64>,
}

// The entry of a table, where both pointers name places.
fn listed_in(bytes: &[u8; 24]) -> Option<Listed>
    ensures said { option_map entry_visit result ≡ chunk_said bytes.now }
    ensures bound { IfSome result IsNear }
{
    let place = place_in(bytes, CHUNK_START)?;
    let tail = place_in(bytes, CHUNK_END)?;
    Some(Listed { place, tail })
}

/// Looks at an entry of a table of chunks: rule 25.
pub fn look_at_chunk_entry<B: Blocks>(
    blocks: &mut B,
    page: &mut Page,
    at: u64,
) -> Result<Listed, Halt>
    requires ready { IsReady (B.is_sound blocks.old) (B.state blocks.old).held page.old }
    requires within { at + 24 ≤ 2 ^ 44 }
    ensures ready { IsReady (B.is_sound blocks.new) (B.state blocks.new).held page.new }
    ensures rows { Told (B.state blocks.old).held (λ image. at + 24 ≤ length image
        → Finds (chunk_entry_row image at ∷ []) result) }
    ensures says { IfOk result (λ listed. Told (B.state blocks.old).held (λ image. at + 24
        ≤ length image → entry_visit listed ≡ listed_chunk image at)) }
    ensures bound { IfOk result IsNear }
    ensures effect { ReadsFew 2 (B.state blocks.old) (B.state blocks.new) }
    ensures cause { IfErr result (HasCount (B.state blocks.old).faults
        (B.state blocks.new).faults) }
{
    let bytes = field_at::<B, 24>(blocks, page, at)?;
    match listed_in(&bytes) {
        Some(listed) => Ok(listed),
        None => halt_at(25, at),
    }
}

// Reads the entries of a table of chunks: rule 25.
fn look_at_chunk_entries<B: Blocks>(
    alloc: Global,
    blocks: &mut B,
    page: &mut Page,
    chunks: Chunks,
) -> Result<Vec<Listed>, Halt>
    requires ready { IsReady (B.is_sound blocks.old) (B.state blocks.old).held page.old }
    requires within { chunks.place + 16 + 24 * chunks.count ≤ 2 ^ 44 }
    ensures ready { IsReady (B.is_sound blocks.new) (B.state blocks.new).held page.new }
    ensures rows { Told (B.state blocks.old).held (λ image. chunks.place + 16 + 24 * chunks.count
        ≤ length image
        → Finds (map (λ i. chunk_entry_row image (chunks.place + 16 + 24 * i))
        (count_up chunks.count)) result) }
    ensures says { IfOk result (λ list. Told (B.state blocks.old).held
        (λ image. chunks.place + 16 + 24 * chunks.count ≤ length image
        → map entry_visit list.items ≡ listed_chunks image chunks.place chunks.count)) }
    ensures count { IfOk result (λ list. length list.items ≡ chunks.count) }
    ensures near { IfOk result (λ list. All IsNear list.items) }
    ensures effect { ReadsFew (2 * chunks.count) (B.state blocks.old) (B.state blocks.new) }
    ensures cause { IfErr result (MayLackMemory (B.state blocks.old).faults
        (B.state blocks.new).faults) }
{
    let mut list = Vec::new(alloc);
    for position in 0..chunks.count {
        let listed = look_at_chunk_entry(blocks, page, chunks.entry(position))?;
        match list.push(listed) {
            Ok(()) => {}
            Err(_) => return Err(Halt::Memory),
        }
    }
    Ok(list)
}

/// Reads the table of chunks: rules 25 and 14.
pub fn look_at_chunk_table<B: Blocks>(
    alloc: Global,
    blocks: &mut B,
    page: &mut Page,
    span: Span,
    used: u64,
    chunks: Chunks,
) -> Result<Vec<Listed>, Halt>
    requires ready { IsReady (B.is_sound blocks.old) (B.state blocks.old).held page.old }
    requires end { span.end < 2 ^ 44 }
    requires place { chunks.place < 2 ^ 44 }
    ensures ready { IsReady (B.is_sound blocks.new) (B.state blocks.new).held page.new }
    ensures rows { Told (B.state blocks.old).held (λ image. span.end < length image
        → Finds (chunk_table_rows image span.end used chunks.place chunks.count) result) }
    ensures says { IfOk result (λ list. Told (B.state blocks.old).held (λ image. span.end
        < length image → map entry_visit list.items
        ≡ listed_chunks image chunks.place chunks.count)) }
    ensures count { IfOk result (λ list. length list.items ≡ chunks.count) }
    ensures near { IfOk result (λ list. All IsNear list.items) }
    ensures fits { OnOk result ((266 ≤ chunks.place)
        × (chunks.place + chunk_table_length chunks.count ≤ span.end + 1)) }
    ensures room { OnOk result (used + chunk_table_length chunks.count ≤ span.end + 1) }
    ensures effect { ReadsFew (2 * chunks.count + 4) (B.state blocks.old) (B.state blocks.new) }
    ensures short { ReadsFew (span.end + 5) (B.state blocks.old) (B.state blocks.new) }
    ensures cause { IfErr result (MayLackMemory (B.state blocks.old).faults
        (B.state blocks.new).faults) }
{
    let length = chunks.table_length();
    let tail = chunks.tail();
    let mark = Mark {
        part: Part::Chunks,
        place: chunks.place,
        rule: 25,
        least: length,
    };
    let head = look_at_start::<B, 16>(blocks, page, span, mark)?;
    if !points_to(&head, HEAD_POINTER, tail) {
        return halt_at(25, chunks.place + HEAD_POINTER.offset as u64);
    }
    let list = look_at_chunk_entries(alloc, blocks, page, chunks)?;
    look_at_tail(blocks, page, mark, tail)?;
    if !span.has_room(used, length) {
        return halt_at(14, chunks.place);
    }
    Ok(list)
}

/// Reads the table of chunks, if there is one, and adds it to the extents: rules 25 and 14.
pub fn look_at_listing<B: Blocks>(
    alloc: Global,
    blocks: &mut B,
    page: &mut Page,
    span: Span,
    used: u64,
    chunks: Chunks,
    extents: &mut Vec<Extent>,
) -> Result<Framed, Halt>
    requires ready { IsReady (B.is_sound blocks.old) (B.state blocks.old).held page.old }
    requires end { span.end < 2 ^ 44 }
    requires used { used ≤ span.end + 1 }
    requires place { chunks.place < 2 ^ 44 }
    ensures ready { IsReady (B.is_sound blocks.new) (B.state blocks.new).held page.new }
    ensures rows { Told (B.state blocks.old).held (λ image. span.end < length image
        → Finds (rows_unless (nat_lt chunks.count 2)
        (chunk_table_rows image span.end used chunks.place chunks.count)) result) }
    ensures used { IfOk result (λ framed. framed.used
        ≡ used + total_length (list_extents chunks.place chunks.count)) }
    ensures extents { OnOk result (extents.new.items
        ≡ extents.old.items ++ list_extents chunks.place chunks.count) }
    ensures fits { OnOk result (1 < chunks.count
        → chunks.place + chunk_table_length chunks.count ≤ span.end + 1) }
    ensures listed { IfOk result (λ framed. Told (B.state blocks.old).held (λ image. span.end
        < length image → AreListed image chunks.place chunks.count framed.list.items)) }
    ensures list { IfOk result (λ framed. IsList chunks.count framed.list.items) }
    ensures room { IfOk result (λ framed. framed.used ≤ span.end + 1) }
    ensures few { IfOk result (λ framed. ReadsFew (framed.used - used) (B.state blocks.old)
        (B.state blocks.new)) }
    ensures short { ReadsFew (span.end + 5) (B.state blocks.old) (B.state blocks.new) }
    ensures cause { IfErr result (MayLackMemory (B.state blocks.old).faults
        (B.state blocks.new).faults) }
{
    if !chunks.are_listed() {
        return Ok(Framed {
            used,
            list: Vec::new(alloc),
        });
    }
    let list = look_at_chunk_table(alloc, blocks, page, span, used, chunks)?;
    let length = chunks.table_length();
    match add_extent(extents, ExtentKind::ChunkTable, chunks.place, length) {
        Ok(()) => Ok(Framed {
            used: used + length,
            list,
        }),
        Err(halt) => Err(halt),
    }
}

// The chunk at a position.
fn chunk_at(chunks: Chunks, list: &[Listed], position: u16) -> Chunk
    requires place { chunks.place < 2 ^ 44 }
    requires within { position < chunks.count }
    requires list { IsList chunks.count list.now }
    ensures says { (image : List ℕ) → AreListed image chunks.place chunks.count list.now
        → visit_of result ≡ chunk_visit image chunks.place chunks.count position }
    ensures bound { result.place < 2 ^ 44 }
{
    if !chunks.are_listed() {
        return Chunk {
            place: chunks.place,
            listed: None,
        };
    }
    let listed = list[position as usize];
    Chunk {
        place: listed.place,
        listed: Some(listed.tail),
    }
}

// Whether the table, if there is one, gives this end tag too.
fn agrees(listed: Option<u64>, tail: u64) -> bool
    ensures { result ≡ agrees listed tail }
{
    match listed {
        Some(listed) => listed == tail,
        None => true,
    }
}

// A chunk has a byte of data at least.
const LEAST_CHUNK: u64 = (HEAD_LENGTH + TAG_LENGTH) as u64 + 1;

// Where the end tag stands, if that is a chunk's, and the table gives it too.
fn tail_of(span: Span, chunk: Chunk, head: &[u8; 16]) -> Option<u64>
    requires end { span.end < 2 ^ 44 }
    requires place { chunk.place < 2 ^ 44 }
    ensures said { result ≡ tail_said span.end (visit_of chunk) (field head.now 4 12) }
    ensures bounds { IfSome result (λ tail. (chunk.place + 17 ≤ tail) × (tail + 3 ≤ span.end)) }
{
    let tail = place_in(head, HEAD_POINTER)?;
    let end = tail + TAG_LENGTH as u64;
    if end < chunk.place + LEAST_CHUNK || span.end + 1 < end || !agrees(chunk.listed, tail) {
        return None;
    }
    Some(tail)
}

/// Looks at a chunk, and says how long it is: rules 26 and 14.
pub fn look_at_chunk<B: Blocks>(
    blocks: &mut B,
    page: &mut Page,
    span: Span,
    used: u64,
    chunk: Chunk,
) -> Result<u64, Halt>
    requires ready { IsReady (B.is_sound blocks.old) (B.state blocks.old).held page.old }
    requires end { span.end < 2 ^ 44 }
    requires place { chunk.place < 2 ^ 44 }
    ensures ready { IsReady (B.is_sound blocks.new) (B.state blocks.new).held page.new }
    ensures rows { Told (B.state blocks.old).held (λ image. span.end < length image
        → Finds (one_chunk_rows image span.end used (visit_of chunk)) result) }
    ensures says { IfOk result (λ n. Told (B.state blocks.old).held (λ image. span.end
        < length image → n ≡ chunk_length image chunk.place)) }
    ensures fits { IfOk result (λ n. (266 ≤ chunk.place) × (21 ≤ n)
        × (chunk.place + n ≤ span.end + 1) × (used + n ≤ span.end + 1)) }
    ensures effect { ReadsFew 4 (B.state blocks.old) (B.state blocks.new) }
    ensures cause { IfErr result (HasCount (B.state blocks.old).faults
        (B.state blocks.new).faults) }
{
    let mark = Mark {
        part: Part::Data,
        place: chunk.place,
        rule: 26,
        least: LEAST_CHUNK,
    };
    let head = look_at_start::<B, 16>(blocks, page, span, mark)?;
    let tail = match tail_of(span, chunk, &head) {
        Some(tail) => tail,
        None => return halt_at(26, chunk.place + HEAD_POINTER.offset as u64),
    };
    look_at_tail(blocks, page, mark, tail)?;
    let length = tail + TAG_LENGTH as u64 - chunk.place;
    if !span.has_room(used, length) {
        return halt_at(14, chunk.place);
    }
    Ok(length)
}

/// What the chunks of a node add up to.
#[derive(Clone, Copy, Drop)]
pub struct Sums {
    /// The bytes of all extents found so far.
    pub used: u64,
    /// The bytes of the payloads.
    pub payload: u64,
}

/// Looks at the chunks of a node in their order, and adds them to the extents: rules 26 and 14.
pub fn look_at_chunks<B: Blocks>(
    blocks: &mut B,
    page: &mut Page,
    span: Span,
    used: u64,
    chunks: Chunks,
    list: &[Listed],
    extents: &mut Vec<Extent>,
) -> Result<Sums, Halt>
    requires ready { IsReady (B.is_sound blocks.old) (B.state blocks.old).held page.old }
    requires end { span.end < 2 ^ 44 }
    requires used { used ≤ span.end + 1 }
    requires place { chunks.place < 2 ^ 44 }
    requires list { IsList chunks.count list.now }
    ensures ready { IsReady (B.is_sound blocks.new) (B.state blocks.new).held page.new }
    ensures rows { Told (B.state blocks.old).held (λ image. span.end < length image
        → AreListed image chunks.place chunks.count list.now
        → Finds (chunk_rows image span.end used (chunk_list image chunks.place chunks.count))
        result) }
    ensures used { IfOk result (λ s. Told (B.state blocks.old).held (λ image. span.end
        < length image → AreListed image chunks.place chunks.count list.now
        → s.used ≡ used
        + total_length (map (data_extent image) (chunk_list image chunks.place chunks.count)))) }
    ensures payload { IfOk result (λ s. Told (B.state blocks.old).held (λ image. span.end
        < length image → AreListed image chunks.place chunks.count list.now
        → s.payload ≡ payload_total image (chunk_list image chunks.place chunks.count))) }
    ensures extents { OnOk result (Told (B.state blocks.old).held (λ image. span.end < length image
        → AreListed image chunks.place chunks.count list.now
        → extents.new.items ≡ extents.old.items
        ++ map (data_extent image) (chunk_list image chunks.place chunks.count))) }
    ensures added { OnOk result (AddsChunks span.end chunks.count extents.old.items
        extents.new.items) }
    ensures bounds { IfOk result (λ s. (s.used ≡ used + 20 * chunks.count + s.payload)
        × (s.used ≤ span.end + 1)) }
    ensures effect { ReadsFew (4 * chunks.count) (B.state blocks.old) (B.state blocks.new) }
    ensures cause { IfErr result (MayLackMemory (B.state blocks.old).faults
        (B.state blocks.new).faults) }
{
    let mut sums = Sums { used, payload: 0 };
    for position in 0..chunks.count {
        let chunk = chunk_at(chunks, list, position);
        let length = look_at_chunk(blocks, page, span, sums.used, chunk)?;
        add_extent(extents, ExtentKind::DataChunk, chunk.place, length)?;
        sums.used += length;
        sums.payload += length - 20;
    }
    Ok(sums)
}

/// Puts an extent behind those found so far.
pub fn add_extent(
    extents: &mut Vec<Extent>,
    kind: ExtentKind,
    place: u64,
    length: u64,
) -> Result<(), Halt>
    ensures added { OnOk result (extents.new.items
        ≡ extents.old.items ++ record { place = place; length = length; kind = kind } ∷ []) }
    ensures want { IfErr result IsWant }
{
    let extent = Extent {
        place,
        length,
        kind,
    };
    match extents.push(extent) {
        Ok(()) => Ok(()),
        Err(_) => Err(Halt::Memory),
    }
}
