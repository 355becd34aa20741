//! A whole packed file.

ghost use Rattle.std.specs.Prelude.{◌≡◌, ◌+◌, ◌-◌, ◌^◌, ◌<◌, ◌≤◌, ◌++◌, ℕ, length, replicate};
ghost use Rattle.adf_format.specs.Parts.{node_length};
ghost use Rattle.adf_format.specs.Pointer.{Blank};
ghost use Rattle.adf_format.specs.Records.{header_text, free_table_text};
ghost use Rattle.packed_laws.specs.PackedForm.{packed_header_of};
ghost use Rattle.adf_repack.specs.Writers.{IsWriter, count_in};
ghost use Rattle.adf_repack.specs.Places.{length_of};
ghost use Rattle.cg_io.specs.Pages.{IsReady};
ghost use Rattle.adf_repack.specs.Copies.{Copies, Writes};
ghost use Rattle.adf_repack.specs.Plans.{IsPlan, old_place, copied_until, room_until, BreaksOne};

use crate::nodes::copy_nodes;
use crate::plan::Plan;
use crate::puts::put_head;
use crate::writer::BlockWriter;
use adf_format::Format;
use adf_model::AdfError;
use cg_io::{Blocks, Device, Page};
use layout_lint::NodePlace;

/// Appends a whole file of so many bytes: its header, its free table, and all nodes.
pub fn copy_file<B: Blocks, E: Device>(
    blocks: &mut B,
    page: &mut Page,
    writer: &mut BlockWriter<E>,
    wide: bool,
    nodes: &[NodePlace],
    plan: &Plan,
    format: Format,
    size: u64,
) -> Result<(), AdfError>
    requires ready { IsReady (B.is_sound blocks.old) (B.state blocks.old).held page.old }
    requires sound { IsWriter E.state writer.old }
    requires none { count_in writer.old ≡ 0 }
    requires plan { IsPlan nodes.now plan.now }
    requires near { (k : ℕ) → k < length nodes.now
        → old_place nodes.now k + node_length wide ≤ 2 ^ 44 }
    requires whole { size ≡ length_of plan.now.wide plan.now.shapes.items }
    ensures { Copies B.is_sound B.state E.state
        (BreaksOne (B.state blocks.old).held wide nodes.now plan.now)
        (266 + room_until plan.now (length nodes.now))
        (λ image. (header_text (packed_header_of plan.now.wide format (size - 1))
        ++ free_table_text (replicate 6 Blank))
        ++ copied_until image wide nodes.now plan.now (length nodes.now))
        blocks.old blocks.new page.new writer.old writer.new result }
{
    match put_head(writer, plan.wide, format, size - 1) {
        Ok(()) => {}
        Err(error) => return Err(error),
    }
    copy_nodes(blocks, page, writer, wide, nodes, plan)
}

/// Writes a whole file of so many bytes to an empty device, in whole blocks.
pub fn write_file<B: Blocks, E: Device>(
    blocks: &mut B,
    page: &mut Page,
    writer: &mut BlockWriter<E>,
    wide: bool,
    nodes: &[NodePlace],
    plan: &Plan,
    format: Format,
    size: u64,
) -> Result<(), AdfError>
    requires ready { IsReady (B.is_sound blocks.old) (B.state blocks.old).held page.old }
    requires sound { IsWriter E.state writer.old }
    requires none { count_in writer.old ≡ 0 }
    requires plan { IsPlan nodes.now plan.now }
    requires near { (k : ℕ) → k < length nodes.now
        → old_place nodes.now k + node_length wide ≤ 2 ^ 44 }
    requires whole { size ≡ length_of plan.now.wide plan.now.shapes.items }
    ensures { Writes B.is_sound B.state E.state
        (BreaksOne (B.state blocks.old).held wide nodes.now plan.now)
        (266 + room_until plan.now (length nodes.now))
        (λ image. (header_text (packed_header_of plan.now.wide format (size - 1))
        ++ free_table_text (replicate 6 Blank))
        ++ copied_until image wide nodes.now plan.now (length nodes.now))
        blocks.old blocks.new page.new writer.old writer.new result }
{
    match copy_file(blocks, page, writer, wide, nodes, plan, format, size) {
        Ok(()) => {}
        Err(error) => return Err(error),
    }
    match writer.finish() {
        Ok(()) => Ok(()),
        Err(_) => Err(AdfError::WriteFault),
    }
}
