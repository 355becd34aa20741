//! The table of a node's children, appended to the copy.

ghost use Rattle.std.specs.Prelude.{◌+◌, ◌*◌, ◌^◌, ◌<◌, ◌≤◌, length};
ghost use Rattle.adf_records.specs.View.{HasOffsets};
ghost use Rattle.layout_lint.specs.Nodes.{table_of};
ghost use Rattle.adf_repack.specs.Writers.{IsWriter, count_in};
ghost use Rattle.adf_repack.specs.Places.{table_room};
ghost use Rattle.cg_io.specs.Pages.{IsReady};
ghost use Rattle.adf_repack.specs.Families.{children_of};
ghost use Rattle.adf_repack.specs.Copies.{Copies, BreaksNames};
ghost use Rattle.adf_repack.specs.Plans.{IsPlan, shape_at, copied_table, copied_children};

use crate::copies::copy_entries;
use crate::plan::Plan;
use crate::puts::{put_table_end, put_table_head};
use crate::writer::BlockWriter;
use adf_model::AdfError;
use adf_records::NodeHeader;
use cg_io::{Blocks, Device, Page};
use layout_lint::NodePlace;

/// Appends the table of the children of a node, where it has children, as `copy_table` does.
pub fn copy_children<B: Blocks, E: Device>(
    blocks: &mut B,
    page: &mut Page,
    writer: &mut BlockWriter<E>,
    header: &NodeHeader,
    nodes: &[NodePlace],
    plan: &Plan,
    number: usize,
    place: u64,
) -> Result<(), AdfError>
    requires ready { IsReady (B.is_sound blocks.old) (B.state blocks.old).held page.old }
    requires sound { IsWriter E.state writer.old }
    requires offsets { HasOffsets header.now }
    requires plan { IsPlan nodes.now plan.now }
    requires number { number < length nodes.now }
    requires near { place + table_room (shape_at plan.now number).children ≤ 2 ^ 44 }
    requires within { count_in writer.old + table_room (shape_at plan.now number).children
        ≤ 2 ^ 44 }
    ensures { Copies B.is_sound B.state E.state
        (BreaksNames (table_of header.now) nodes.now (children_of nodes.now number))
        (table_room (shape_at plan.now number).children)
        (λ image. copied_children image (table_of header.now) nodes.now plan.now.headers.items
        (children_of nodes.now number) place)
        blocks.old blocks.new page.new writer.old writer.new result }
{
    if plan.shape(number).children == 0 {
        return Ok(());
    }
    copy_table(blocks, page, writer, header, nodes, plan, number, place)
}

/// Appends the table of the children of a node, whose header was read, at a place of the copy.
pub fn copy_table<B: Blocks, E: Device>(
    blocks: &mut B,
    page: &mut Page,
    writer: &mut BlockWriter<E>,
    header: &NodeHeader,
    nodes: &[NodePlace],
    plan: &Plan,
    number: usize,
    place: u64,
) -> Result<(), AdfError>
    requires ready { IsReady (B.is_sound blocks.old) (B.state blocks.old).held page.old }
    requires sound { IsWriter E.state writer.old }
    requires offsets { HasOffsets header.now }
    requires plan { IsPlan nodes.now plan.now }
    requires number { number < length nodes.now }
    requires near { place + 20 + 44 * length (children_of nodes.now number) ≤ 2 ^ 44 }
    requires within { count_in writer.old + 20 + 44 * length (children_of nodes.now number)
        ≤ 2 ^ 44 }
    ensures { Copies B.is_sound B.state E.state
        (BreaksNames (table_of header.now) nodes.now (children_of nodes.now number))
        (20 + 44 * length (children_of nodes.now number))
        (λ image. copied_table image (table_of header.now) nodes.now plan.now.headers.items
        (children_of nodes.now number) place)
        blocks.old blocks.new page.new writer.old writer.new result }
{
    let children = plan.shape(number).children;
    match put_table_head(writer, place, children) {
        Ok(()) => {}
        Err(error) => return Err(error),
    }
    let families = &plan.families;
    match copy_entries(
        blocks,
        page,
        writer,
        header,
        nodes,
        families,
        &plan.headers,
        number,
    ) {
        Ok(()) => {}
        Err(error) => return Err(error),
    }
    put_table_end(writer)
}
