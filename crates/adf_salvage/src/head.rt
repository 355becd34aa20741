//! The head of a damaged file: what a survey of its nodes begins with.

ghost use Rattle.std.specs.Prelude.{◌≡◌, ◌^◌, ◌-◌, ◌≤◌, ◌<◌, min, Some, codes, IfOk, IfErr};
ghost use Rattle.cg_io.specs.Blocks.{ReadsFew};
ghost use Rattle.adf_format.specs.Pointer.{place_value};
ghost use Rattle.adf_format.specs.Fields.{holds};
ghost use Rattle.disk_ptr.specs.View.{view};
ghost use Rattle.cg_io.specs.Answers.{Told};
ghost use Rattle.cg_io.specs.Pages.{IsReady};
ghost use Rattle.layout_lint.specs.Halts.{Finds, HasCount};
ghost use Rattle.adf_salvage.specs.Parts.{start_rows};
ghost use Rattle.adf_salvage.specs.Surveys.{IsStart};

use adf_records::FileHeader;
use cg_io::Blocks;
use layout_lint::walking::{Halt, Page, Span, header_at, length_of, place_of};

/// Where the root stands, the version, and the last byte that can be one of the file.
#[derive(Clone, Copy, Drop)]
pub struct Start {
    pub root: u64,
    pub span: Span,
}

// The version, and the last byte: that of the header, where the device reaches so far.
fn span_of(header: &FileHeader, length: u64) -> Span
    requires { 1 ≤ length }
    ensures { result ≡ record {
      wide = holds header.now.what 25 (codes "W");
      end = min (place_value (Some (view header.now.end))) (length - 1);
    } }
{
    Span {
        wide: &header.what[25..26] == b"W".as_slice(),
        end: place_of(header.end).min(length - 1),
    }
}

/// The head of a file, or the first of rules 1 to 7 that it breaks. The end is the lesser of the recorded one and the
/// device's last byte.
pub fn look_at_start<B: Blocks>(blocks: &mut B, page: &mut Page) -> Result<Start, Halt>
    requires { IsReady (B.is_sound blocks.old) (B.state blocks.old).held page.old }
    ensures ready { IsReady (B.is_sound blocks.new) (B.state blocks.new).held page.new }
    ensures rows { Told (B.state blocks.old).held (λ image. Finds (start_rows image) result) }
    ensures says { IfOk result (λ start. Told (B.state blocks.old).held
        (λ image. IsStart image start)) }
    ensures bound { IfOk result (λ start. start.span.end < 2 ^ 44) }
    ensures effect { ReadsFew 2 (B.state blocks.old) (B.state blocks.new) }
    ensures cause { IfErr result (HasCount (B.state blocks.old).faults
        (B.state blocks.new).faults) }
{
    let length = length_of(blocks, page)?;
    let header = header_at(blocks, page)?;
    Ok(Start {
        root: place_of(header.root),
        span: span_of(&header, length),
    })
}
