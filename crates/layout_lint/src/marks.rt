//! The start and the end of a part of a file.

ghost use Rattle.std.specs.Prelude.{◌≡◌, ◌^◌, ◌+◌, ◌≤◌, ◌<◌, [], ◌∷◌, length, IfOk, IfErr, IfSome, MatchOption, OnOk, true, false};
ghost use Rattle.cg_io.specs.Blocks.{ReadsFew};
ghost use Rattle.adf_format.specs.Pointer.{is_place, place_of};
ghost use Rattle.adf_format.specs.RuleNumbers.{IsRule};
ghost use Rattle.adf_format.specs.Fields.{field};
ghost use Rattle.cg_io.specs.Answers.{Told};
ghost use Rattle.cg_io.specs.Pages.{IsReady};
ghost use Rattle.layout_lint.specs.Halts.{Finds, HasCount};
ghost use Rattle.layout_lint.specs.Marks.{start_row, tail_row};

use crate::pages::field_at;
use crate::verdict::{Halt, Span, halt_at};
use adf_chunks::{Part, begins, is_tail};
use adf_format::fields::Field;
use cg_io::{Blocks, Page};
use disk_ptr::DiskPtr;
use disk_ptr::fields::pointer_at;

/// A part of a file as it is looked at: its kind, its place, the number of its rule, and how many
/// bytes it has at least.
#[derive(Clone, Copy, Drop)]
pub struct Mark {
    pub part: Part,
    pub place: u64,
    pub rule: u8,
    pub least: u64,
}

/// The first bytes of a part that fits and begins with its tag.
pub fn look_at_start<B: Blocks, const N: usize>(
    blocks: &mut B,
    page: &mut Page,
    span: Span,
    mark: Mark,
) -> Result<[u8; N], Halt>
    requires ready { IsReady (B.is_sound blocks.old) (B.state blocks.old).held page.old }
    requires end { span.end < 2 ^ 44 }
    requires few { N ≤ 4096 }
    requires tag { 4 ≤ N }
    requires least { N ≤ mark.least }
    requires rule { IsRule mark.rule }
    ensures ready { IsReady (B.is_sound blocks.new) (B.state blocks.new).held page.new }
    ensures rows { Told (B.state blocks.old).held (λ image. span.end < length image
        → Finds (start_row image span.end mark ∷ []) result) }
    ensures says { IfOk result (λ head. Told (B.state blocks.old).held (λ image. span.end
        < length image → head ≡ field image mark.place N)) }
    ensures fits { OnOk result ((266 ≤ mark.place) × (mark.place + mark.least ≤ span.end + 1)) }
    ensures effect { ReadsFew 2 (B.state blocks.old) (B.state blocks.new) }
    ensures cause { IfErr result (HasCount (B.state blocks.old).faults
        (B.state blocks.new).faults) }
{
    if !span.fits(mark.place, mark.least) {
        return halt_at(mark.rule, mark.place);
    }
    let head = field_at(blocks, page, mark.place)?;
    if !begins(mark.part, &head) {
        return halt_at(mark.rule, mark.place);
    }
    Ok(head)
}

/// Whether the end tag of a part stands at a place.
pub fn look_at_tail<B: Blocks>(
    blocks: &mut B,
    page: &mut Page,
    mark: Mark,
    tail: u64,
) -> Result<(), Halt>
    requires ready { IsReady (B.is_sound blocks.old) (B.state blocks.old).held page.old }
    requires within { tail + 4 ≤ 2 ^ 44 }
    requires rule { IsRule mark.rule }
    ensures ready { IsReady (B.is_sound blocks.new) (B.state blocks.new).held page.new }
    ensures rows { Told (B.state blocks.old).held (λ image. tail + 4 ≤ length image
        → Finds (tail_row image mark tail ∷ []) result) }
    ensures effect { ReadsFew 2 (B.state blocks.old) (B.state blocks.new) }
    ensures cause { IfErr result (HasCount (B.state blocks.old).faults
        (B.state blocks.new).faults) }
{
    let tag = field_at(blocks, page, tail)?;
    if !is_tail(mark.part, &tag) {
        return halt_at(mark.rule, tail);
    }
    Ok(())
}

/// The place that the pointer in a field names, if it names one.
pub fn place_in(bytes: &[u8], at: Field) -> Option<u64>
    requires { at.offset + 12 ≤ length bytes.now }
    ensures value { MatchOption result (is_place (field bytes.now at.offset 12) ≡ false)
        (λ place. (is_place (field bytes.now at.offset 12) ≡ true)
        × (place_of (field bytes.now at.offset 12) ≡ place)) }
    ensures bound { IfSome result (λ place. place < 2 ^ 44) }
{
    match pointer_at(bytes, at) {
        Some(DiskPtr::At { block, offset }) => Some(u64::from(block) * 4096 + u64::from(offset)),
        Some(DiskPtr::Blank) => None,
        None => None,
    }
}

/// The place that the pointer in a field names; 0 where it names none.
pub fn place_or_zero(bytes: &[u8], at: Field) -> u64
    requires { at.offset + 12 ≤ length bytes.now }
    ensures value { result ≡ place_of (field bytes.now at.offset 12) }
    ensures bound { result < 2 ^ 44 }
{
    match pointer_at(bytes, at) {
        Some(DiskPtr::At { block, offset }) => u64::from(block) * 4096 + u64::from(offset),
        Some(DiskPtr::Blank) => 0,
        None => 0,
    }
}
