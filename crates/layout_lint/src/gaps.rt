//! The tiling: each byte up to the end in exactly one extent, or a blank one in none.

ghost use Rattle.std.specs.Prelude.{◌≡◌, ◌^◌, ◌+◌, ◌-◌, ◌≤◌, ◌<◌, length, IfOk, IfErr, OnOk};
ghost use Rattle.std.specs.List.{All};
ghost use Rattle.std.specs.List.Sorted.{IsPermutation, IsNonDecreasingBy};
ghost use Rattle.adf_format.specs.declared.types.Extent.{Extent};
ghost use Rattle.adf_format.specs.Tiles.{is_free};
ghost use Rattle.layout_laws.specs.TilePass.{AreBlank, filled_up, passed_gaps};
ghost use Rattle.layout_lint.specs.Fillers.{IsHole};
ghost use Rattle.layout_lint.specs.Gaps.{IsSolid, StopsAt, IsMisplaced, AreTiled};
ghost use Rattle.layout_lint.specs.Shapes.{AreSet};
ghost use Rattle.layout_lint.specs.Halts.{MayLackMemory};
ghost use Rattle.cg_io.specs.Answers.{Told};
ghost use Rattle.cg_io.specs.Pages.{IsReady};
ghost use Rattle.cg_io.specs.Blocks.{ReadsFew};

use crate::chunks::add_extent;
use crate::fillers::look_at_filler;
use crate::verdict::{Halt, Span, halt_at};
use adf_format::{Extent, ExtentKind};
use cg_io::{Blocks, Page};
use std::alloc::Global;

fn sort_by_place(extents: &mut Vec<Extent>)
    ensures sorted { IsNonDecreasingBy (λ (e : Extent). e.place) extents.new.items }
    ensures same { IsPermutation extents.old.items extents.new.items }
{
    extents.sort_unstable_by_key(|e| e.place);
}

// Looks at the bytes between two extents, and adds them to the gaps as a filler.
fn fill<B: Blocks>(
    blocks: &mut B,
    page: &mut Page,
    from: u64,
    to: u64,
    gaps: &mut Vec<Extent>,
) -> Result<(), Halt>
    requires ready { IsReady (B.is_sound blocks.old) (B.state blocks.old).held page.old }
    requires order { from ≤ to }
    requires end { to ≤ 2 ^ 44 }
    ensures ready { IsReady (B.is_sound blocks.new) (B.state blocks.new).held page.new }
    ensures blank { OnOk result (Told (B.state blocks.old).held (λ image. to ≤ length image
        → AreBlank image from to)) }
    ensures gaps { OnOk result (gaps.new.items ≡ filled_up gaps.old.items from to) }
    ensures hole { IfErr result (λ h. Told (B.state blocks.old).held (λ image. to ≤ length image
        → IsHole image from to h)) }
    ensures effect { ReadsFew (to - from) (B.state blocks.old) (B.state blocks.new) }
    ensures cause { IfErr result (MayLackMemory (B.state blocks.old).faults
        (B.state blocks.new).faults) }
{
    if from == to {
        return Ok(());
    }
    look_at_filler(blocks, page, from, to)?;
    add_extent(gaps, ExtentKind::Filler, from, to - from)
}

fn is_free(extent: &Extent) -> bool
    ensures { result ≡ is_free extent.now }
{
    matches!(extent.kind, ExtentKind::FreeChunk)
}

// Looks at an extent behind those that end before a place, and at the bytes between. It says where
// it ends.
fn pass<B: Blocks>(
    blocks: &mut B,
    page: &mut Page,
    reach: u64,
    extent: Extent,
    gaps: &mut Vec<Extent>,
) -> Result<u64, Halt>
    requires ready { IsReady (B.is_sound blocks.old) (B.state blocks.old).held page.old }
    requires end { extent.place + extent.length ≤ 2 ^ 44 }
    ensures ready { IsReady (B.is_sound blocks.new) (B.state blocks.new).held page.new }
    ensures ends { IfOk result (λ n. (n ≡ extent.place + extent.length) × (reach ≤ extent.place)) }
    ensures blank { OnOk result (Told (B.state blocks.old).held (λ image. extent.place
        ≤ length image → AreBlank image reach extent.place)) }
    ensures gaps { OnOk result (gaps.new.items ≡ passed_gaps gaps.old.items reach extent) }
    ensures stops { IfErr result (λ h. Told (B.state blocks.old).held (λ image. extent.place
        ≤ length image → StopsAt image reach extent h)) }
    ensures effect { ReadsFew (extent.place - reach) (B.state blocks.old) (B.state blocks.new) }
    ensures cause { IfErr result (MayLackMemory (B.state blocks.old).faults
        (B.state blocks.new).faults) }
{
    if extent.place < reach {
        return halt_at(30, extent.place);
    }
    fill(blocks, page, reach, extent.place, gaps)?;
    if is_free(&extent) {
        add_extent(gaps, extent.kind, extent.place, extent.length)?;
    }
    Ok(extent.place + extent.length)
}

/// The gaps by place, the free chunks among the extents and the fillers: rule 30.
pub fn look_at_tiling<B: Blocks>(
    alloc: Global,
    blocks: &mut B,
    page: &mut Page,
    span: Span,
    mut extents: Vec<Extent>,
) -> Result<Vec<Extent>, Halt>
    requires ready { IsReady (B.is_sound blocks.old) (B.state blocks.old).held page.old }
    requires end { span.end < 2 ^ 44 }
    requires solid { All (IsSolid span.end) extents.items }
    ensures ready { IsReady (B.is_sound blocks.new) (B.state blocks.new).held page.new }
    ensures tiled { IfOk result (λ gaps. Told (B.state blocks.old).held (λ image. span.end
        < length image → AreTiled image extents.items span.end gaps.items)) }
    ensures set { IfOk result (λ gaps. AreSet extents.items span.end gaps.items) }
    ensures bad { IfErr result (λ h. Told (B.state blocks.old).held (λ image. span.end
        < length image → IsMisplaced image extents.items span.end h)) }
    ensures effect { ReadsFew (span.end + 1) (B.state blocks.old) (B.state blocks.new) }
    ensures cause { IfErr result (MayLackMemory (B.state blocks.old).faults
        (B.state blocks.new).faults) }
{
    sort_by_place(&mut extents);
    let mut gaps = Vec::new(alloc);
    let mut reach = 0;
    for k in 0..extents.len() {
        match pass(blocks, page, reach, extents[k], &mut gaps) {
            Ok(end) => reach = end,
            Err(halt) => return Err(halt),
        }
    }
    match fill(blocks, page, reach, span.end + 1, &mut gaps) {
        Ok(()) => Ok(gaps),
        Err(halt) => Err(halt),
    }
}
