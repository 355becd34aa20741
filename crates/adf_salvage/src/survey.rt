//! The survey of the nodes of a damaged file, from the root, each before its children.

ghost use Rattle.std.specs.Prelude.{◌≡◌, ◌^◌, ◌+◌, ◌<◌, ◌≤◌, ◌++◌, ◌∷◌, [], map, length, replicate, true, false, unwrap_or, Some, IfOk, IfErr, OnOk};
ghost use Rattle.adf_model.specs.Counts.{OnlyReads};
ghost use Rattle.layout_laws.specs.NodePass.{named_node};
ghost use Rattle.cg_io.specs.Answers.{Told};
ghost use Rattle.cg_io.specs.Pages.{IsReady};
ghost use Rattle.layout_lint.specs.Halts.{MayLackMemory, IsNoFault};
ghost use Rattle.layout_lint.specs.Shapes.{MayFollow, met_place};
ghost use Rattle.layout_lint.specs.Walks.{node_place, waiting_of, waiting_in};
ghost use Rattle.adf_salvage.specs.Surveys.{IsStart, IsReach, IsGoing, IsSurvey, IsNextIn, EndsSurvey, ahead};

use crate::head::Start;
use crate::progress::{Progress, begin, enter, keep, omit};
use adf_records::FILE_HEAD_LENGTH;
use cg_io::Blocks;
use layout_lint::walking::{Halt, Met, Page, Span, child_of, look, take_next};
use std::alloc::Global;

// Looks at the root, which is kept.
fn look_at_root<B: Blocks>(
    alloc: Global,
    blocks: &mut B,
    page: &mut Page,
    start: &Start,
) -> Result<Progress, Halt>
    requires ready { IsReady (B.is_sound blocks.old) (B.state blocks.old).held page.old }
    requires end { start.now.span.end < 2 ^ 44 }
    ensures ready { IsReady (B.is_sound blocks.new) (B.state blocks.new).held page.new }
    ensures begun { IfOk result (λ p. Told (B.state blocks.old).held (λ image.
        IsStart image start.now → IsSurvey image (waiting_in image p.families.items) p)) }
    ensures stops { IfErr result (λ h. Told (B.state blocks.old).held
        (λ image. IsStart image start.now → EndsSurvey image h)) }
    ensures going { IfOk result (IsGoing start.now.span.wide start.now.span.end) }
    ensures reads { OnlyReads (B.state blocks.old) (B.state blocks.new) }
    ensures cause { IfErr result (MayLackMemory (B.state blocks.old).faults
        (B.state blocks.new).faults) }
{
    let root = Met {
        place: start.root,
        entry: None,
        parent: 0,
        position: 0,
        depth: 0,
    };
    let mut extents = Vec::new(alloc);
    let used = FILE_HEAD_LENGTH as u64;
    let next = look(
        alloc,
        blocks,
        page,
        start.span,
        false,
        used,
        &root,
        &mut extents,
    )?;
    let mut progress = begin(alloc);
    match keep(&mut progress, &root, &next) {
        Ok(()) => Ok(progress),
        Err(halt) => Err(halt),
    }
}

// Looks at a node below the root, of which this is the name field in its entry, and keeps it or leaves it out.
fn turn<B: Blocks>(
    alloc: Global,
    blocks: &mut B,
    page: &mut Page,
    span: Span,
    progress: &mut Progress,
    met: &Met,
    name: &[u8; 32],
) -> Result<(), Halt>
    requires ready { IsReady (B.is_sound blocks.old) (B.state blocks.old).held page.old }
    requires end { span.end < 2 ^ 44 }
    requires going { IsGoing span.wide span.end progress.old }
    requires deep { met.now.depth ≡ length progress.old.families.items }
    requires named { length progress.old.families.items
        ≡ length progress.old.names.items + 1 }
    requires follows { MayFollow (map node_place progress.old.nodes.items) (met_place met.now) }
    ensures ready { IsReady (B.is_sound blocks.new) (B.state blocks.new).held page.new }
    ensures goes_on { OnOk result (Told (B.state blocks.old).held (λ image. IsReach image span
        → IsNextIn image met.now name.now progress.old
        → IsSurvey image (waiting_in image progress.new.families.items) progress.new)) }
    ensures going { OnOk result (IsGoing span.wide span.end progress.new) }
    ensures nearer { OnOk result (ahead span.end progress.new ≤ ahead span.end progress.old) }
    ensures no_fault { IfErr result IsNoFault }
    ensures reads { OnlyReads (B.state blocks.old) (B.state blocks.new) }
    ensures cause { IfErr result (MayLackMemory (B.state blocks.old).faults
        (B.state blocks.new).faults) }
{
    let known = progress.places.contains(&met.place);
    let mut extents = Vec::new(alloc);
    let used = progress.used;
    match look(alloc, blocks, page, span, known, used, met, &mut extents) {
        Ok(next) => {
            enter(progress, name)?;
            keep(progress, met, &next)
        }
        Err(Halt::Broken(fault)) => omit(alloc, progress, name, fault),
        Err(halt) => Err(halt),
    }
}

// The name field in the entry of a node; spaces for one without entry.
fn name_in(met: &Met) -> [u8; 32]
    ensures { result ≡ unwrap_or met.now.entry (replicate 32 32) }
{
    match met.entry {
        Some(name) => name,
        None => [b' '; 32],
    }
}

// Looks at the next child that waits. It says whether there was one.
fn step<B: Blocks>(
    alloc: Global,
    blocks: &mut B,
    page: &mut Page,
    span: Span,
    progress: &mut Progress,
) -> Result<bool, Halt>
    requires ready { IsReady (B.is_sound blocks.old) (B.state blocks.old).held page.old }
    requires end { span.end < 2 ^ 44 }
    requires going { IsGoing span.wide span.end progress.old }
    ensures ready { IsReady (B.is_sound blocks.new) (B.state blocks.new).held page.new }
    ensures goes_on { OnOk result (Told (B.state blocks.old).held (λ image. IsReach image span
        → IsSurvey image (waiting_in image progress.old.families.items) progress.old
        → IsSurvey image (waiting_in image progress.new.families.items) progress.new)) }
    ensures going { OnOk result (IsGoing span.wide span.end progress.new) }
    ensures nearer { IfOk result (λ more. more ≡ true
        → ahead span.end progress.new < ahead span.end progress.old) }
    ensures last { IfOk result (λ more. more ≡ false → progress.new.families.items ≡ []) }
    ensures no_fault { IfErr result IsNoFault }
    ensures reads { OnlyReads (B.state blocks.old) (B.state blocks.new) }
    ensures cause { IfErr result (MayLackMemory (B.state blocks.old).faults
        (B.state blocks.new).faults) }
{
    let family = match take_next(&mut progress.families) {
        Ok(Some(family)) => family,
        Ok(None) => return Ok(false),
        Err(halt) => return Err(halt),
    };
    progress.names.truncate(family.depth as usize);
    let child = child_of(blocks, page, family)?;
    let name = name_in(&child);
    match turn(alloc, blocks, page, span, progress, &child, &name) {
        Ok(()) => Ok(true),
        Err(halt) => Err(halt),
    }
}

/// Looks at all nodes of a file: those that are kept, and those that are left out. The root is kept, or ends the survey.
pub fn survey<B: Blocks>(
    alloc: Global,
    blocks: &mut B,
    page: &mut Page,
    start: &Start,
) -> Result<Progress, Halt>
    requires ready { IsReady (B.is_sound blocks.old) (B.state blocks.old).held page.old }
    requires end { start.now.span.end < 2 ^ 44 }
    ensures ready { IsReady (B.is_sound blocks.new) (B.state blocks.new).held page.new }
    ensures found { IfOk result (λ p. Told (B.state blocks.old).held
        (λ image. IsStart image start.now → IsSurvey image [] p)) }
    ensures stops { IfErr result (λ h. Told (B.state blocks.old).held
        (λ image. IsStart image start.now → EndsSurvey image h)) }
    ensures going { IfOk result (IsGoing start.now.span.wide start.now.span.end) }
    ensures reads { OnlyReads (B.state blocks.old) (B.state blocks.new) }
    ensures cause { IfErr result (MayLackMemory (B.state blocks.old).faults
        (B.state blocks.new).faults) }
{
    let mut progress = look_at_root(alloc, blocks, page, start)?;
    'walk: loop {
        match step(alloc, blocks, page, start.span, &mut progress) {
            Ok(true) => {}
            Ok(false) => break,
            Err(halt) => return Err(halt),
        }
    }
    Ok(progress)
}
