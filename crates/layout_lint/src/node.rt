//! The header of a node.

ghost use Rattle.std.specs.Prelude.{◌≡◌, ◌^◌, ◌+◌, ◌≤◌, ◌<◌, length, true, false, IfOk, IfErr, OnOk};
ghost use Rattle.cg_io.specs.Blocks.{ReadsFew};
ghost use Rattle.adf_format.specs.Fields.{field};
ghost use Rattle.adf_format.specs.Parts.{node_length};
ghost use Rattle.adf_format.specs.Records.{node_record};
ghost use Rattle.adf_format.specs.FirstFault.{node_rows, is_same_name};
ghost use Rattle.adf_records.specs.View.{record_of, HasOffsets};
ghost use Rattle.cg_io.specs.Answers.{Told};
ghost use Rattle.cg_io.specs.Pages.{IsReady};
ghost use Rattle.layout_lint.specs.Halts.{Finds, HasCount};
ghost use Rattle.layout_lint.specs.Nodes.{header_rows_at};

use crate::pages::field_at;
use crate::verdict::{Halt, Span, halt_at};
use adf_records::{NodeHeader, decode_named};
use cg_io::{Blocks, Page};

/// A node that waits to be looked at.
#[derive(Clone, Copy, Drop)]
pub struct Met {
    pub place: u64,
    /// The name field of the entry that points to it; none for the root.
    pub entry: Option<[u8; 32]>,
    /// The number of its parent.
    pub parent: u64,
    /// Its place among the children of its parent.
    pub position: u32,
    pub depth: u8,
}

// Whether the name in a header is that of the entry that led to it.
fn is_named(entry: &Option<[u8; 32]>, header: &[u8]) -> bool
    requires { 36 ≤ length header.now }
    ensures { result ≡ is_same_name entry.now (field header.now 4 32) }
{
    match entry {
        None => true,
        Some(name) => name.as_slice() == &header[4..36],
    }
}

// The header at a place: rules 15 to 21.
fn header_at<B: Blocks, const N: usize>(
    blocks: &mut B,
    page: &mut Page,
    wide: bool,
    met: &Met,
) -> Result<NodeHeader, Halt>
    requires ready { IsReady (B.is_sound blocks.old) (B.state blocks.old).held page.old }
    requires long { N ≡ node_length wide }
    requires within { met.now.place + N ≤ 2 ^ 44 }
    ensures ready { IsReady (B.is_sound blocks.new) (B.state blocks.new).held page.new }
    ensures rows { Told (B.state blocks.old).held (λ image. met.now.place + node_length wide
        ≤ length image
        → Finds (node_rows wide met.now.place (is_same_name met.now.entry
        (field image (met.now.place + 4) 32)) (field image met.now.place (node_length wide)))
        result) }
    ensures says { IfOk result (λ n. Told (B.state blocks.old).held
        (λ image. met.now.place + node_length wide ≤ length image
        → record_of n ≡ node_record wide (field image met.now.place (node_length wide)))) }
    ensures wide { IfOk result (λ n. n.wide ≡ wide) }
    ensures offsets { IfOk result HasOffsets }
    ensures effect { ReadsFew 2 (B.state blocks.old) (B.state blocks.new) }
    ensures cause { IfErr result (HasCount (B.state blocks.old).faults
        (B.state blocks.new).faults) }
{
    let bytes = field_at::<B, N>(blocks, page, met.place)?;
    let named = is_named(&met.entry, &bytes);
    match decode_named(&bytes, wide, named) {
        Ok(header) => Ok(header),
        Err(bad) => halt_at(bad.rule, met.place + u64::from(bad.offset)),
    }
}

/// Looks at the header of a node that fits, is met for the first time and has room: rules 12 to 21.
pub fn look_at_header<B: Blocks>(
    blocks: &mut B,
    page: &mut Page,
    span: Span,
    known: bool,
    used: u64,
    met: &Met,
) -> Result<NodeHeader, Halt>
    requires ready { IsReady (B.is_sound blocks.old) (B.state blocks.old).held page.old }
    requires end { span.end < 2 ^ 44 }
    ensures ready { IsReady (B.is_sound blocks.new) (B.state blocks.new).held page.new }
    ensures rows { Told (B.state blocks.old).held (λ image. span.end < length image
        → Finds (header_rows_at image span.wide span.end known used met.now) result) }
    ensures says { IfOk result (λ n. Told (B.state blocks.old).held (λ image. span.end
        < length image → record_of n ≡ node_record span.wide
        (field image met.now.place (node_length span.wide)))) }
    ensures wide { IfOk result (λ n. n.wide ≡ span.wide) }
    ensures offsets { IfOk result HasOffsets }
    ensures fits { OnOk result ((266 ≤ met.now.place)
        × (met.now.place + node_length span.wide ≤ span.end + 1)) }
    ensures room { OnOk result (used + node_length span.wide ≤ span.end + 1) }
    ensures new { OnOk result (known ≡ false) }
    ensures effect { ReadsFew 2 (B.state blocks.old) (B.state blocks.new) }
    ensures cause { IfErr result (HasCount (B.state blocks.old).faults
        (B.state blocks.new).faults) }
{
    let length = span.node_length() as u64;
    if !span.fits(met.place, length) {
        return halt_at(12, met.place);
    }
    if known {
        return halt_at(13, met.place);
    }
    if !span.has_room(used, length) {
        return halt_at(14, met.place);
    }
    if span.wide {
        header_at::<B, 342>(blocks, page, true, met)
    } else {
        header_at::<B, 246>(blocks, page, false, met)
    }
}
