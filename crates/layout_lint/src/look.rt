//! One node with its parts.

ghost use Rattle.std.specs.Prelude.{◌≡◌, ◌^◌, ◌+◌, ◌-◌, ◌*◌, ◌≤◌, ◌<◌, ◌++◌, ◌&&◌, ◌||◌, ◌==◌, not, nat_le, nat_lt, length, IfOk, IfErr, OnOk};
ghost use Rattle.std.specs.List.{All};
ghost use Rattle.cg_io.specs.Blocks.{ReadsFew};
ghost use Rattle.adf_format.specs.Fields.{field};
ghost use Rattle.adf_format.specs.Names.{is_lk};
ghost use Rattle.adf_format.specs.Parts.{table_length, node_length};
ghost use Rattle.adf_format.specs.Tiles.{total_length};
ghost use Rattle.adf_records.specs.View.{HasOffsets};
ghost use Rattle.adf_format.specs.FirstFault.{node_rows_at};
ghost use Rattle.cg_io.specs.Answers.{Told};
ghost use Rattle.cg_io.specs.Pages.{IsReady};
ghost use Rattle.layout_lint.specs.Halts.{Finds, MayLackMemory};
ghost use Rattle.layout_lint.specs.Gaps.{IsSolid};
ghost use Rattle.layout_lint.specs.Shapes.{Adds, AddsNode};
ghost use Rattle.layout_lint.specs.Nodes.{extents_at, LeadsTo, IsNext, IsHeaderAt, table_of, children_rows, table_extents, data_rows_at, data_extents_at};

use crate::chunks::{Chunks, add_extent, look_at_chunks, look_at_listing};
use crate::contents::look_at_contents;
use crate::entries::{SubNodeTable, look_at_entries, look_at_table};
use crate::head::place_of;
use crate::node::{Met, look_at_header};
use crate::verdict::{Halt, Span, halt_at};
use adf_format::fields::NODE_CHILDREN;
use adf_format::limits::{DEEPEST, MOST_CHILDREN};
use adf_format::{DataType, Extent, ExtentKind};
use adf_records::NodeHeader;
use cg_io::{Blocks, Page};
use std::alloc::Global;

/// What a sound node leads to.
#[derive(Clone, Copy, Drop)]
pub struct Next {
    pub table: SubNodeTable,
    pub children: u32,
    /// The bytes of all extents found so far, those of the node among them.
    pub used: u64,
    /// The name field of the node.
    pub name: [u8; 32],
}

// Whether a node may have so many children: rule 22.
fn has_few_children(header: &NodeHeader, depth: u8) -> bool
    ensures { result ≡ (nat_le header.now.children header.now.entries
        && nat_le header.now.children (2 ^ 20) && (nat_lt depth 255 || (header.now.children == 0))
        && (not (is_lk header.now.kind) || (header.now.children == 0))) }
{
    if header.children > header.entries {
        return false;
    }
    if header.children > MOST_CHILDREN {
        return false;
    }
    if header.children == 0 {
        return true;
    }
    if depth >= DEEPEST {
        return false;
    }
    !matches!(header.kind, DataType::Lk)
}

// Looks at the table of children, if there is one: rules 23, 14 and 24. It says how many bytes are
// used with it.
fn look_at_children<B: Blocks>(
    alloc: Global,
    blocks: &mut B,
    page: &mut Page,
    span: Span,
    used: u64,
    header: &NodeHeader,
    extents: &mut Vec<Extent>,
) -> Result<u64, Halt>
    requires ready { IsReady (B.is_sound blocks.old) (B.state blocks.old).held page.old }
    requires end { span.end < 2 ^ 44 }
    requires used { used ≤ span.end + 1 }
    requires offsets { HasOffsets header.now }
    requires fewer { header.now.children ≤ header.now.entries }
    ensures ready { IsReady (B.is_sound blocks.new) (B.state blocks.new).held page.new }
    ensures rows { Told (B.state blocks.old).held (λ image. span.end < length image
        → Finds (children_rows image span.end used
        (table_of header.now) header.now.entries header.now.children) result) }
    ensures used { IfOk result (λ n. n ≡ used + total_length
        (table_extents (table_of header.now) header.now.entries)) }
    ensures extents { OnOk result (extents.new.items
        ≡ extents.old.items ++ table_extents (table_of header.now) header.now.entries) }
    ensures fits { OnOk result (0 < header.now.entries
        → (266 ≤ table_of header.now)
        × (table_of header.now + table_length header.now.entries ≤ span.end + 1)) }
    ensures room { IfOk result (λ n. n ≤ span.end + 1) }
    ensures effect { ReadsFew (2 * header.now.children + 4) (B.state blocks.old)
        (B.state blocks.new) }
    ensures short { ReadsFew (span.end + 5) (B.state blocks.old) (B.state blocks.new) }
    ensures few { OnOk result (header.now.entries ≡ 0
        → (B.state blocks.new) ≡ (B.state blocks.old)) }
    ensures cause { IfErr result (MayLackMemory (B.state blocks.old).faults
        (B.state blocks.new).faults) }
{
    let table = table_of(header);
    if table.entries == 0 {
        return Ok(used);
    }
    look_at_table(blocks, page, span, used, table)?;
    look_at_entries(alloc, blocks, page, table, header.children)?;
    let length = table.length();
    match add_extent(extents, ExtentKind::SubNodes, table.place, length) {
        Ok(()) => Ok(used + length),
        Err(halt) => Err(halt),
    }
}

// The table that a header names.
fn table_of(header: &NodeHeader) -> SubNodeTable
    ensures value { result ≡ record { place = table_of header.now; entries = header.now.entries } }
    ensures bound { HasOffsets header.now → result.place < 2 ^ 44 }
{
    SubNodeTable {
        place: place_of(header.table),
        entries: header.entries,
    }
}

// Looks at the chunks and their table, and at what they hold: rules 25 to 28. It says how many bytes
// are used with them.
fn look_at_data<B: Blocks>(
    alloc: Global,
    blocks: &mut B,
    page: &mut Page,
    span: Span,
    used: u64,
    place: u64,
    header: &NodeHeader,
    extents: &mut Vec<Extent>,
) -> Result<u64, Halt>
    requires ready { IsReady (B.is_sound blocks.old) (B.state blocks.old).held page.old }
    requires end { span.end < 2 ^ 44 }
    requires used { used ≤ span.end + 1 }
    requires place { place ≤ span.end }
    requires offsets { HasOffsets header.now }
    ensures ready { IsReady (B.is_sound blocks.new) (B.state blocks.new).held page.new }
    ensures rows { Told (B.state blocks.old).held (λ image. span.end < length image
        → IsHeaderAt image span.wide place header.now
        → Finds (data_rows_at image span.wide span.end used place) result) }
    ensures used { IfOk result (λ n. Told (B.state blocks.old).held (λ image. span.end
        < length image → IsHeaderAt image span.wide place header.now
        → n ≡ used + total_length (data_extents_at image span.wide place))) }
    ensures extents { OnOk result (Told (B.state blocks.old).held (λ image. span.end < length image
        → IsHeaderAt image span.wide place header.now
        → extents.new.items ≡ extents.old.items ++ data_extents_at image span.wide place)) }
    ensures adds { OnOk result (Adds extents.old.items extents.new.items) }
    ensures solid { OnOk result (All (IsSolid span.end) extents.old.items
        → All (IsSolid span.end) extents.new.items) }
    ensures bounds { IfOk result (λ n. (used ≤ n) × (n ≤ span.end + 1)) }
    ensures few { IfOk result (λ n. ReadsFew (n - used) (B.state blocks.old) (B.state blocks.new)) }
    ensures effect { ReadsFew (2 * (span.end + 1) + 16) (B.state blocks.old) (B.state blocks.new) }
    ensures cause { IfErr result (MayLackMemory (B.state blocks.old).faults
        (B.state blocks.new).faults) }
{
    let chunks = Chunks {
        count: header.chunks,
        place: place_of(header.chunk),
    };
    let framed = look_at_listing(alloc, blocks, page, span, used, chunks, extents)?;
    let first = extents.len();
    let list = &framed.list;
    let sums = look_at_chunks(blocks, page, span, framed.used, chunks, list, extents)?;
    let parts = &extents[first..];
    match look_at_contents(blocks, page, span, place, header, sums.payload, parts) {
        Ok(()) => Ok(sums.used),
        Err(halt) => Err(halt),
    }
}

/// Looks at a node: rules 12 to 28. Where they are kept, its extents are added to those found, and
/// what it leads to is answered.
pub fn look<B: Blocks>(
    alloc: Global,
    blocks: &mut B,
    page: &mut Page,
    span: Span,
    known: bool,
    used: u64,
    met: &Met,
    extents: &mut Vec<Extent>,
) -> Result<Next, Halt>
    requires ready { IsReady (B.is_sound blocks.old) (B.state blocks.old).held page.old }
    requires end { span.end < 2 ^ 44 }
    requires solid { All (IsSolid span.end) extents.old.items }
    ensures ready { IsReady (B.is_sound blocks.new) (B.state blocks.new).held page.new }
    ensures rows { Told (B.state blocks.old).held (λ image. span.end < length image
        → Finds (node_rows_at image span.wide span.end known used met.now.place met.now.entry
        met.now.depth) result) }
    ensures leads { IfOk result (λ next. Told (B.state blocks.old).held (λ image. span.end
        < length image → LeadsTo image span.wide used met.now.place next)) }
    ensures extents { OnOk result (Told (B.state blocks.old).held (λ image. span.end < length image
        → extents.new.items ≡ extents.old.items ++ extents_at image span.wide met.now.place)) }
    ensures adds { OnOk result (AddsNode span.wide met.now.place extents.old.items
        extents.new.items) }
    ensures inside { OnOk result ((266 ≤ met.now.place)
        × (met.now.place + node_length span.wide ≤ span.end + 1)) }
    ensures next { IfOk result (IsNext span.end used met.now.depth) }
    ensures named { IfOk result (λ next. Told (B.state blocks.old).held (λ image. span.end
        < length image → next.name ≡ field image (met.now.place + 4) 32)) }
    ensures solid { OnOk result (All (IsSolid span.end) extents.new.items) }
    ensures effect { ReadsFew (3 * (span.end + 1) + 32) (B.state blocks.old) (B.state blocks.new) }
    ensures few { IfOk result (λ next. ReadsFew (next.used - used - 2 * next.children)
        (B.state blocks.old) (B.state blocks.new)) }
    ensures cause { IfErr result (MayLackMemory (B.state blocks.old).faults
        (B.state blocks.new).faults) }
{
    let header = look_at_header(blocks, page, span, known, used, met)?;
    if !has_few_children(&header, met.depth) {
        return halt_at(22, met.place + NODE_CHILDREN.offset as u64);
    }
    let length = span.node_length() as u64;
    add_extent(extents, ExtentKind::Node, met.place, length)?;
    let behind = look_at_children(alloc, blocks, page, span, used + length, &header, extents)?;
    match look_at_data(
        alloc, blocks, page, span, behind, met.place, &header, extents,
    ) {
        Ok(used) => Ok(Next {
            table: table_of(&header),
            children: header.children,
            used,
            name: header.name,
        }),
        Err(halt) => Err(halt),
    }
}
