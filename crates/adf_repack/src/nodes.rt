//! A node with its table and its data, appended as a packed file has them.

ghost use Rattle.std.specs.Prelude.{◌≡◌, ◌+◌, ◌^◌, ◌<◌, ◌≤◌, ℕ, length};
ghost use Rattle.adf_format.specs.Parts.{node_length};
ghost use Rattle.adf_records.specs.View.{record_of, HasOffsets};
ghost use Rattle.adf_repack.specs.Writers.{IsWriter, count_in};
ghost use Rattle.adf_repack.specs.Places.{room_of};
ghost use Rattle.cg_io.specs.Pages.{IsReady};
ghost use Rattle.adf_repack.specs.Copies.{Copies};
ghost use Rattle.adf_repack.specs.Plans.{IsPlan, shape_at, header_at, copied_node, BreaksParts, old_place, copied_at, copied_until, room_until, BreaksNode, BreaksOne};

use crate::data::copy_contents;
use crate::headers::{dimensions_fit, dimensions_within, packed_header};
use crate::places::table_room;
use crate::plan::Plan;
use crate::puts::put_header;
use crate::reads::read_header;
use crate::tables::copy_children;
use crate::writer::BlockWriter;
use adf_model::AdfError;
use adf_records::{NodeHeader, node_length};
use cg_io::{Blocks, Device, Page};
use layout_lint::NodePlace;

/// Appends a node whose header was read at a place: the header, the table of its children and its data.
pub fn copy_parts<B: Blocks, E: Device>(
    blocks: &mut B,
    page: &mut Page,
    writer: &mut BlockWriter<E>,
    header: &NodeHeader,
    place: u64,
    nodes: &[NodePlace],
    plan: &Plan,
    number: usize,
) -> Result<(), AdfError>
    requires ready { IsReady (B.is_sound blocks.old) (B.state blocks.old).held page.old }
    requires sound { IsWriter E.state writer.old }
    requires offsets { HasOffsets header.now }
    requires near { place + node_length header.now.wide ≤ 2 ^ 44 }
    requires plan { IsPlan nodes.now plan.now }
    requires number { number < length nodes.now }
    requires stands { count_in writer.old ≡ header_at plan.now number }
    ensures { Copies B.is_sound B.state E.state
        (BreaksParts (B.state blocks.old).held header.now.wide nodes.now plan.now number place
        (record_of header.now)) (room_of plan.now.wide (shape_at plan.now number))
        (λ image. copied_node image nodes.now plan.now number (record_of header.now))
        blocks.old blocks.new page.new writer.old writer.new result }
{
    let values = dimensions_within(header);
    if !dimensions_fit(&values, plan.wide) {
        return Err(AdfError::Layout { rule: 21, place });
    }
    let shape = plan.shape(number);
    let at = plan.header(number);
    let packed = packed_header(header, &values, plan.wide, at, shape);
    match put_header(writer, &packed) {
        Ok(()) => {}
        Err(error) => return Err(error),
    }
    let table = at + node_length(plan.wide) as u64;
    match copy_children(blocks, page, writer, header, nodes, plan, number, table) {
        Ok(()) => {}
        Err(error) => return Err(error),
    }
    let chunk = table + table_room(shape.children);
    copy_contents(blocks, page, writer, header, place, shape.size, chunk)
}

// Where the old header of a node stands.
pub(crate) fn old_place(nodes: &[NodePlace], number: usize) -> u64
    requires { number < length nodes.now }
    ensures { result ≡ old_place nodes.now number }
{
    nodes[number].place
}

/// Appends a node, which is read by its place in the file: the header, the table of its children and its data.
pub fn copy_node<B: Blocks, E: Device>(
    blocks: &mut B,
    page: &mut Page,
    writer: &mut BlockWriter<E>,
    wide: bool,
    nodes: &[NodePlace],
    plan: &Plan,
    number: usize,
) -> Result<(), AdfError>
    requires ready { IsReady (B.is_sound blocks.old) (B.state blocks.old).held page.old }
    requires sound { IsWriter E.state writer.old }
    requires plan { IsPlan nodes.now plan.now }
    requires number { number < length nodes.now }
    requires near { old_place nodes.now number + node_length wide ≤ 2 ^ 44 }
    requires stands { count_in writer.old ≡ header_at plan.now number }
    ensures { Copies B.is_sound B.state E.state
        (BreaksNode (B.state blocks.old).held wide nodes.now plan.now number)
        (room_of plan.now.wide (shape_at plan.now number))
        (λ image. copied_at image wide nodes.now plan.now number)
        blocks.old blocks.new page.new writer.old writer.new result }
{
    let place = old_place(nodes, number);
    let header = match read_header(blocks, page, wide, place) {
        Ok(header) => header,
        Err(error) => return Err(error),
    };
    copy_parts(blocks, page, writer, &header, place, nodes, plan, number)
}

/// Appends all nodes, in their order, behind the header of the file and its free table.
pub fn copy_nodes<B: Blocks, E: Device>(
    blocks: &mut B,
    page: &mut Page,
    writer: &mut BlockWriter<E>,
    wide: bool,
    nodes: &[NodePlace],
    plan: &Plan,
) -> Result<(), AdfError>
    requires ready { IsReady (B.is_sound blocks.old) (B.state blocks.old).held page.old }
    requires sound { IsWriter E.state writer.old }
    requires plan { IsPlan nodes.now plan.now }
    requires near { (k : ℕ) → k < length nodes.now
        → old_place nodes.now k + node_length wide ≤ 2 ^ 44 }
    requires begins { count_in writer.old ≡ 266 }
    ensures { Copies B.is_sound B.state E.state
        (BreaksOne (B.state blocks.old).held wide nodes.now plan.now)
        (room_until plan.now (length nodes.now))
        (λ image. copied_until image wide nodes.now plan.now (length nodes.now))
        blocks.old blocks.new page.new writer.old writer.new result }
{
    for number in 0..nodes.len() {
        match copy_node(blocks, page, writer, wide, nodes, plan, number) {
            Ok(()) => {}
            Err(error) => return Err(error),
        }
    }
    Ok(())
}
