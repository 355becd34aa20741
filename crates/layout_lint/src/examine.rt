//! The linter as a whole.

ghost use Rattle.std.specs.Prelude.{◌≡◌, ◌^◌, ◌+◌, ◌*◌, ◌<◌, ◌↔◌, true, length, IfOk, IfErr, IsTrue};
ghost use Rattle.cg_io.specs.Blocks.{ReadsFew};
ghost use Rattle.adf_format.specs.LaysOut.{IsSound};
ghost use Rattle.adf_records.specs.View.{HasFreeOffsets};
ghost use Rattle.cg_io.specs.Answers.{Told};
ghost use Rattle.cg_io.specs.Pages.{IsReady};
ghost use Rattle.layout_lint.specs.Halts.{MayLackMemory};
ghost use Rattle.layout_lint.specs.Heads.{IsHead};
ghost use Rattle.layout_lint.specs.Shapes.{HasShape};
ghost use Rattle.layout_lint.specs.Verdicts.{IsVerdict, NamesRule, IsFault, MayFail, is_sound};

use crate::gaps::look_at_tiling;
use crate::head::{Head, look_at_head};
use crate::lists::look_at_lists;
use crate::verdict::{Halt, Verdict};
use crate::walk::{FoundNodes, look_at_nodes};
use adf_format::Listing;
use adf_model::AdfError;
use cg_io::{Blocks, Page};
use std::alloc::Global;

// The verdict of a file with a sound head, if that is sound.
fn look_behind_head<B: Blocks>(
    alloc: Global,
    blocks: &mut B,
    page: &mut Page,
    head: &Head,
) -> Result<Verdict, Halt>
    requires ready { IsReady (B.is_sound blocks.old) (B.state blocks.old).held page.old }
    requires end { head.now.span.end < 2 ^ 44 }
    requires long { 510 < head.now.span.end }
    requires offsets { HasFreeOffsets head.now.lists }
    ensures ready { IsReady (B.is_sound blocks.new) (B.state blocks.new).held page.new }
    ensures sound { IfOk result (λ verdict. is_sound verdict ≡ true) }
    ensures shape { IfOk result HasShape }
    ensures laid_out { IfOk result (λ verdict.
        Told (B.state blocks.old).held (λ image. IsHead image head.now → IsVerdict image verdict)) }
    ensures broken { IfErr result (λ h. Told (B.state blocks.old).held
        (λ image. IsHead image head.now → IsFault image h)) }
    ensures effect { ReadsFew (8 * (head.now.span.end + 1) + 13) (B.state blocks.old)
        (B.state blocks.new) }
    ensures cause { IfErr result (MayLackMemory (B.state blocks.old).faults
        (B.state blocks.new).faults) }
{
    let found = look_at_nodes(alloc, blocks, page, head)?;
    let FoundNodes {
        nodes,
        extents,
        used,
    } = found;
    let span = head.span;
    let all = look_at_lists(alloc, blocks, page, span, &head.lists, used, extents)?;
    let gaps = look_at_tiling(alloc, blocks, page, span, all)?;
    Ok(Verdict::Sound {
        nodes: Listing::new(nodes),
        gaps: Listing::new(gaps),
        end: span.end,
        format: head.format,
        wide: span.wide,
    })
}

// The verdict of a sound file.
fn look_at_all<B: Blocks>(alloc: Global, blocks: &mut B) -> Result<Verdict, Halt>
    requires { B.is_sound blocks.old }
    ensures layer { B.is_sound blocks.new }
    ensures sound { IfOk result (λ verdict. is_sound verdict ≡ true) }
    ensures shape { IfOk result HasShape }
    ensures laid_out { IfOk result (λ verdict.
        Told (B.state blocks.old).held (λ image. IsVerdict image verdict)) }
    ensures broken { IfErr result (λ h. Told (B.state blocks.old).held (λ image. IsFault image h)) }
    ensures effect { ReadsFew (8 * 2 ^ 44 + 16) (B.state blocks.old) (B.state blocks.new) }
    ensures few { Told (B.state blocks.old).held
        (λ image. ReadsFew (8 * length image + 16) (B.state blocks.old) (B.state blocks.new)) }
    ensures cause { IfErr result (MayLackMemory (B.state blocks.old).faults
        (B.state blocks.new).faults) }
{
    let mut page = Page::new();
    let head = look_at_head(blocks, &mut page)?;
    look_behind_head(alloc, blocks, &mut page, &head)
}

/// Whether the bytes of a file lay out a tree: its nodes, gaps, end, byte order and version, or the
/// first rule that they break.
///
/// It is refused with Memory, or with ReadFault where a read failed. Nothing is written.
pub fn lint<B: Blocks>(alloc: Global, blocks: &mut B) -> Result<Verdict, AdfError>
    requires { B.is_sound blocks.old }
    ensures layer { B.is_sound blocks.new }
    ensures verdict { IfOk result (λ verdict. Told (B.state blocks.old).held
        (λ image. IsVerdict image verdict)) }
    ensures shape { IfOk result HasShape }
    ensures rule { IfOk result NamesRule }
    ensures exactly { IfOk result (λ verdict. Told (B.state blocks.old).held
        (λ image. IsTrue (is_sound verdict) ↔ IsSound image)) }
    ensures effect { ReadsFew (8 * 2 ^ 44 + 16) (B.state blocks.old) (B.state blocks.new) }
    ensures few { Told (B.state blocks.old).held
        (λ image. ReadsFew (8 * length image + 16) (B.state blocks.old) (B.state blocks.new)) }
    ensures cause { IfErr result (MayFail (B.state blocks.old).faults (B.state blocks.new).faults) }
{
    match look_at_all(alloc, blocks) {
        Ok(verdict) => Ok(verdict),
        Err(Halt::Broken(fault)) => Ok(Verdict::Unsound {
            rule: fault.rule,
            place: fault.place,
        }),
        Err(Halt::Memory) => Err(AdfError::Memory),
        Err(Halt::Read) => Err(AdfError::ReadFault),
    }
}
