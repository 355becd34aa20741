//! The head of a file: its header and the free table.

ghost use Rattle.std.specs.Prelude.{◌≡◌, ◌^◌, ◌+◌, ◌≤◌, ◌<◌, ◌&&◌, [], ◌∷◌, length, nat_lt, nat_le, true, codes, Some, IfOk, IfErr};
ghost use Rattle.cg_io.specs.Blocks.{ReadsFew};
ghost use Rattle.adf_format.specs.Pointer.{place_value};
ghost use Rattle.adf_format.specs.Fields.{field, holds};
ghost use Rattle.adf_format.specs.Parts.{node_length};
ghost use Rattle.adf_format.specs.Records.{header_record, free_table_record};
ghost use Rattle.adf_format.specs.FirstFault.{row_of_length, header_rows, free_table_rows, head_rows};
ghost use Rattle.disk_ptr.specs.View.{view, HasOffset};
ghost use Rattle.adf_records.specs.View.{header_of, pointers_of, HasHeaderOffsets, HasFreeOffsets};
ghost use Rattle.cg_io.specs.Answers.{Told};
ghost use Rattle.cg_io.specs.Pages.{IsReady};
ghost use Rattle.layout_lint.specs.Halts.{Finds, HasCount};
ghost use Rattle.layout_lint.specs.Heads.{IsHead};

use crate::pages::field_at;
use crate::verdict::{Halt, Span, halt_at};
use adf_format::Format;
use adf_format::fields::{FREE_TABLE_PLACE, HEADER_END};
use adf_records::{FILE_HEAD_LENGTH, FileHeader, FreeTable, decode_free, decode_header};
use cg_io::{Blocks, Page};
use disk_ptr::{DiskPtr, place};

/// What the head of a file says.
#[derive(Clone, Copy, Drop)]
pub struct Head {
    pub format: Format,
    pub root: u64,
    pub span: Span,
    pub lists: FreeTable,
}

/// The place that a pointer names; 0 where it names none.
pub fn place_of(p: DiskPtr) -> u64
    ensures value { result ≡ place_value (Some (view p)) }
    ensures bound { HasOffset p → result < 2 ^ 44 }
{
    match place(p) {
        Some(place) => place,
        None => 0,
    }
}

/// The length of the device, which has a head: rule 1.
pub fn length_of<B: Blocks>(blocks: &mut B, page: &Page) -> Result<u64, Halt>
    requires { IsReady (B.is_sound blocks.old) (B.state blocks.old).held page.now }
    ensures ready { IsReady (B.is_sound blocks.new) (B.state blocks.new).held page.now }
    ensures rows { Told (B.state blocks.old).held
        (λ image. Finds (row_of_length image ∷ []) result) }
    ensures told { IfOk result (λ n. Told (B.state blocks.old).held (λ image. n ≡ length image)) }
    ensures bounds { IfOk result (λ n. (266 ≤ n) × (n ≤ 2 ^ 44)) }
    ensures effect { ReadsFew 1 (B.state blocks.old) (B.state blocks.new) }
    ensures cause { IfErr result (HasCount (B.state blocks.old).faults
        (B.state blocks.new).faults) }
{
    match blocks.length() {
        Ok(length) if length < FILE_HEAD_LENGTH as u64 => halt_at(1, 0),
        Ok(length) => Ok(length),
        Err(_) => Err(Halt::Read),
    }
}

/// The header: rules 2 to 7.
pub fn header_at<B: Blocks>(blocks: &mut B, page: &mut Page) -> Result<FileHeader, Halt>
    requires { IsReady (B.is_sound blocks.old) (B.state blocks.old).held page.old }
    ensures ready { IsReady (B.is_sound blocks.new) (B.state blocks.new).held page.new }
    ensures rows { Told (B.state blocks.old).held (λ image. 266 ≤ length image
        → Finds (header_rows (field image 0 186)) result) }
    ensures says { IfOk result (λ h. Told (B.state blocks.old).held (λ image. 266 ≤ length image
        → header_of h ≡ header_record (field image 0 186))) }
    ensures offsets { IfOk result HasHeaderOffsets }
    ensures effect { ReadsFew 1 (B.state blocks.old) (B.state blocks.new) }
    ensures cause { IfErr result (HasCount (B.state blocks.old).faults
        (B.state blocks.new).faults) }
{
    let bytes = field_at(blocks, page, 0)?;
    match decode_header(&bytes) {
        Ok(header) => Ok(header),
        Err(bad) => halt_at(bad.rule, u64::from(bad.offset)),
    }
}

// The free table: rules 9 to 11.
fn free_table_at<B: Blocks>(blocks: &mut B, page: &mut Page) -> Result<FreeTable, Halt>
    requires { IsReady (B.is_sound blocks.old) (B.state blocks.old).held page.old }
    ensures ready { IsReady (B.is_sound blocks.new) (B.state blocks.new).held page.new }
    ensures rows { Told (B.state blocks.old).held (λ image. 266 ≤ length image
        → Finds (free_table_rows 186 (field image 186 80)) result) }
    ensures says { IfOk result (λ t. Told (B.state blocks.old).held (λ image. 266 ≤ length image
        → pointers_of t ≡ free_table_record (field image 186 80))) }
    ensures offsets { IfOk result (λ t. HasFreeOffsets t) }
    ensures effect { ReadsFew 1 (B.state blocks.old) (B.state blocks.new) }
    ensures cause { IfErr result (HasCount (B.state blocks.old).faults
        (B.state blocks.new).faults) }
{
    let bytes = field_at(blocks, page, FREE_TABLE_PLACE as u64)?;
    match decode_free(&bytes) {
        Ok(lists) => Ok(lists),
        Err(bad) => halt_at(bad.rule, FREE_TABLE_PLACE as u64 + u64::from(bad.offset)),
    }
}

// The version of a file and its last byte.
fn span_of(header: &FileHeader) -> Span
    ensures { result ≡ record {
      wide = holds header.now.what 25 (codes "W");
      end = place_value (Some (view header.now.end));
    } }
{
    Span {
        wide: &header.what[25..26] == b"W".as_slice(),
        end: place_of(header.end),
    }
}

// Whether the last byte lies within the device, and behind the header of the root.
fn is_end(span: Span, length: u64) -> bool
    ensures value { result ≡ (nat_lt span.end length
        && nat_le (265 + node_length span.wide) span.end) }
    ensures bounds { result ≡ true → (510 < span.end) × (span.end < length) }
{
    if span.end >= length {
        return false;
    }
    265 + span.node_length() as u64 <= span.end
}

/// The head of a file, or the first of rules 1 to 11 that it breaks.
pub fn look_at_head<B: Blocks>(blocks: &mut B, page: &mut Page) -> Result<Head, Halt>
    requires { IsReady (B.is_sound blocks.old) (B.state blocks.old).held page.old }
    ensures ready { IsReady (B.is_sound blocks.new) (B.state blocks.new).held page.new }
    ensures rows { Told (B.state blocks.old).held (λ image. Finds (head_rows image) result) }
    ensures says { IfOk result (λ head. Told (B.state blocks.old).held
        (λ image. IsHead image head)) }
    ensures bounds { IfOk result (λ head. (510 < head.span.end) × (head.span.end < 2 ^ 44)) }
    ensures offsets { IfOk result (λ head. HasFreeOffsets head.lists) }
    ensures effect { ReadsFew 3 (B.state blocks.old) (B.state blocks.new) }
    ensures cause { IfErr result (HasCount (B.state blocks.old).faults
        (B.state blocks.new).faults) }
{
    let length = length_of(blocks, page)?;
    let header = header_at(blocks, page)?;
    let span = span_of(&header);
    if !is_end(span, length) {
        return halt_at(8, HEADER_END.offset as u64);
    }
    let lists = free_table_at(blocks, page)?;
    Ok(Head {
        format: header.format,
        root: place_of(header.root),
        span,
        lists,
    })
}
