//! A packed copy of a file, in its version or in another one.

ghost use Rattle.std.specs.Prelude.{◌≡◌, ◌⊎◌, ℕ, ◌+◌, ◌^◌, ◌<◌, ◌≤◌, length, IfOk, IfErr, OnOk};
ghost use Rattle.adf_format.specs.Parts.{node_length};
ghost use Rattle.adf_format.specs.Tree.{Tree};
ghost use Rattle.adf_model.specs.Counts.{NoCountFell, OnlyReads};
ghost use Rattle.adf_repack.specs.Copies.{IsUnwritten};
ghost use Rattle.adf_repack.specs.Families.{AreParents};
ghost use Rattle.adf_repack.specs.Given.{IsGiven};
ghost use Rattle.cg_io.specs.Answers.{Told};
ghost use Rattle.adf_repack.specs.Measures.{HoldsNone};
ghost use Rattle.adf_repack.specs.Planning.{IsPlanned, copied_file};
ghost use Rattle.adf_repack.specs.Plans.{old_place, BreaksOne};
ghost use Rattle.adf_repack.specs.Repacks.{width_for, IsCopied, IsWritten, IsLicensed, IsRefused, LeavesDevice, IsRepacked, IsRepackRefusal};
ghost use Rattle.cg_io.specs.Pages.{IsReady};
ghost use Rattle.adf_repack.specs.Sources.{IsUnread, IsBroken};
ghost use Rattle.adf_repack.specs.Writers.{OnlyWrites, WritesBlocks, blocks_for, in_blocks};

use crate::files::write_file;
use crate::planning::{Planned, plan_copy};
use crate::writer::BlockWriter;
use adf_model::AdfError;
use cg_io::{Blocks, Device, Page};
use layout_lint::{NodePlace, NodePlaces, Verdict, lint};
use std::alloc::Global;

/// The version of a copy.
#[derive(Clone, Copy, Debug, PartialEq, Eq, Drop)]
pub enum Target {
    /// That of the file.
    Same,
    /// The wide version.
    Wide,
    /// The narrow version.
    Narrow,
}

/// A device with a packed file, and the last byte of it.
#[derive(Drop)]
pub struct Packed<E> {
    pub device: E,
    pub end: u64,
}

/// Writes the tree of a file into an empty device, as a file without a gap, in a version.
///
/// It is refused, in this order: with Layout where the file is not sound, with BadShape where the narrow version has no
/// digits for a dimension, with NotEmpty where the device holds bytes, and with Full where the copy is longer than 2^44
/// bytes; besides these with Memory, and with ReadFault or WriteFault where a call of a device failed. The file is only
/// read, and a device that holds bytes is left as it is.
pub fn repack<B: Blocks, E: Device>(
    alloc: Global,
    blocks: &mut B,
    device: E,
    target: Target,
) -> Result<Packed<E>, (AdfError, E)>
    requires { B.is_sound blocks.old }
    ensures layer { B.is_sound blocks.new }
    ensures reads { OnlyReads (B.state blocks.old) (B.state blocks.new) }
    ensures none { OnOk result (HoldsNone (E.state device).held) }
    ensures written { IfOk result (λ p. IsWritten (E.state device) (E.state p.device) p.end) }
    ensures packed { IfOk result (λ p. Told (B.state blocks.old).held
        (λ image. IsRepacked target image (E.state p.device).held p.end)) }
    ensures licensed { IfErr result (λ e. IsLicensed (B.state blocks.old) (B.state blocks.new)
        (E.state device) (E.state e.1) e.0) }
    ensures left { IfErr result (λ e. LeavesDevice (E.state device) (E.state e.1) e.0) }
    ensures refused { IfErr result (λ e. Told (B.state blocks.old).held
        (λ image. IsRepackRefusal target image (E.state device) (E.state e.1) e.0)) }
{
    match lint(alloc, blocks) {
        Ok(Verdict::Sound { nodes, wide, .. }) => {
            let to = width_of(target, wide);
            match write_nodes(alloc, blocks, wide, to, nodes.items(), device) {
                Ok(packed) => Ok(packed),
                Err(refused) => Err(refused),
            }
        }
        Ok(Verdict::Unsound { rule, place }) => Err((AdfError::Layout { rule, place }, device)),
        Err(error) => Err((error, device)),
    }
}

/// Writes some nodes of a file, which make a tree, into an empty device, as a file without a gap, in the version of the
/// file.
///
/// The nodes stand in tree order, each with the number of its entry in the table of its parent as its position. It is
/// refused as `repack` is, but for Layout.
pub fn write_packed<B: Blocks, E: Device>(
    alloc: Global,
    blocks: &mut B,
    nodes: &NodePlaces,
    wide: bool,
    device: E,
) -> Result<Packed<E>, (AdfError, E)>
    requires layer { B.is_sound blocks.old }
    requires near { (k : ℕ) → k < length nodes.now
        → old_place nodes.now k + node_length wide ≤ 2 ^ 44 }
    requires parents { AreParents nodes.now }
    ensures layer { B.is_sound blocks.new }
    ensures reads { OnlyReads (B.state blocks.old) (B.state blocks.new) }
    ensures none { OnOk result (HoldsNone (E.state device).held) }
    ensures written { IfOk result (λ p. IsWritten (E.state device) (E.state p.device) p.end) }
    ensures packed { IfOk result (λ p. Told (B.state blocks.old).held (λ image. (tree : Tree)
        → IsGiven image nodes.now tree → tree.wide ≡ wide
        → IsCopied wide tree (E.state p.device).held p.end)) }
    ensures licensed { IfErr result (λ e. IsLicensed (B.state blocks.old) (B.state blocks.new)
        (E.state device) (E.state e.1) e.0) }
    ensures left { IfErr result (λ e. LeavesDevice (E.state device) (E.state e.1) e.0) }
    ensures refused { IfErr result (λ e. Told (B.state blocks.old).held (λ image. (tree : Tree)
        → IsGiven image nodes.now tree → tree.wide ≡ wide → IsRefused wide tree e.0)) }
{
    match write_nodes(alloc, blocks, wide, wide, nodes.items(), device) {
        Ok(packed) => Ok(packed),
        Err(refused) => Err(refused),
    }
}

// The version of a copy of a file of a version.
fn width_of(target: Target, wide: bool) -> bool
    ensures { result ≡ width_for target wide }
{
    match target {
        Target::Same => wide,
        Target::Wide => true,
        Target::Narrow => false,
    }
}

// Writes some nodes of a file, in a version.
fn write_nodes<B: Blocks, E: Device>(
    alloc: Global,
    blocks: &mut B,
    wide: bool,
    to: bool,
    nodes: &[NodePlace],
    device: E,
) -> Result<Packed<E>, (AdfError, E)>
    requires layer { B.is_sound blocks.old }
    requires near { (k : ℕ) → k < length nodes.now
        → old_place nodes.now k + node_length wide ≤ 2 ^ 44 }
    requires parents { AreParents nodes.now }
    ensures layer { B.is_sound blocks.new }
    ensures reads { OnlyReads (B.state blocks.old) (B.state blocks.new) }
    ensures none { OnOk result (HoldsNone (E.state device).held) }
    ensures written { IfOk result (λ p. IsWritten (E.state device) (E.state p.device) p.end) }
    ensures packed { IfOk result (λ p. Told (B.state blocks.old).held (λ image. (tree : Tree)
        → IsGiven image nodes.now tree → tree.wide ≡ wide
        → IsCopied to tree (E.state p.device).held p.end)) }
    ensures licensed { IfErr result (λ e. IsLicensed (B.state blocks.old) (B.state blocks.new)
        (E.state device) (E.state e.1) e.0) }
    ensures left { IfErr result (λ e. LeavesDevice (E.state device) (E.state e.1) e.0) }
    ensures refused { IfErr result (λ e. Told (B.state blocks.old).held (λ image. (tree : Tree)
        → IsGiven image nodes.now tree → tree.wide ≡ wide → IsRefused to tree e.0)) }
{
    let mut page = Page::new();
    let mut device = device;
    let planned = match plan_copy(alloc, blocks, &mut page, wide, to, nodes, &mut device) {
        Ok(planned) => planned,
        Err(error) => return Err((error, device)),
    };
    match write_planned(blocks, &mut page, wide, to, nodes, &planned, device) {
        Ok(packed) => Ok(packed),
        Err(refused) => Err(refused),
    }
}

// Writes a copy that was planned.
fn write_planned<B: Blocks, E: Device>(
    blocks: &mut B,
    page: &mut Page,
    wide: bool,
    to: bool,
    nodes: &[NodePlace],
    planned: &Planned,
    device: E,
) -> Result<Packed<E>, (AdfError, E)>
    requires ready { IsReady (B.is_sound blocks.old) (B.state blocks.old).held page.old }
    requires near { (k : ℕ) → k < length nodes.now
        → old_place nodes.now k + node_length wide ≤ 2 ^ 44 }
    requires planned { IsPlanned (B.state blocks.old).held wide to nodes.now planned.now }
    requires none { HoldsNone (E.state device).held }
    ensures layer { B.is_sound blocks.new }
    ensures reads { OnlyReads (B.state blocks.old) (B.state blocks.new) }
    ensures end { IfOk result (λ p. p.end + 1 ≡ planned.now.length) }
    ensures wrote { IfOk result (λ p. WritesBlocks 0 (blocks_for planned.now.length)
        (E.state device) (E.state p.device)) }
    ensures effect { IfOk result (λ p. OnlyWrites (E.state device) (E.state p.device)) }
    ensures counts { IfOk result (λ p. NoCountFell (E.state device) (E.state p.device)) }
    ensures fell { IfErr result (λ e. NoCountFell (E.state device) (E.state e.1)) }
    ensures held { IfOk result (λ p. Told (B.state blocks.old).held
        (λ image. Told (E.state p.device).held
        (λ held. held ≡ in_blocks (copied_file image wide nodes.now planned.now)))) }
    ensures cause { IfErr result (λ e.
        IsUnread (B.state blocks.old).faults (B.state blocks.new).faults e.0
        ⊎ (IsUnwritten (E.state device) (E.state e.1) e.0
        ⊎ IsBroken (BreaksOne (B.state blocks.old).held wide nodes.now planned.now.plan) e.0)) }
{
    let mut writer = BlockWriter::new(device);
    match write_file(
        blocks,
        page,
        &mut writer,
        wide,
        nodes,
        &planned.plan,
        planned.format,
        planned.length,
    ) {
        Ok(()) => Ok(Packed {
            device: writer.into_device(),
            end: planned.length - 1,
        }),
        Err(error) => Err((error, writer.into_device())),
    }
}
