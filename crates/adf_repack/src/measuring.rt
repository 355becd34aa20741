//! How many children and how many bytes of data the nodes have, before a copy is written.

ghost use Rattle.std.specs.Prelude.{◌≡◌, ℕ, ◌+◌, ◌^◌, ◌<◌, ◌≤◌, length, get_or, IfOk, IfErr, OnOk};
ghost use Rattle.adf_format.specs.Parts.{node_length};
ghost use Rattle.adf_model.specs.Counts.{OnlyReads};
ghost use Rattle.adf_records.specs.View.{record_of};
ghost use Rattle.adf_repack.specs.Families.{children_of};
ghost use Rattle.adf_repack.specs.Plans.{HasLong, old_place, record_at};
ghost use Rattle.cg_io.specs.Pages.{IsReady};
ghost use Rattle.cg_io.specs.Answers.{Told};
ghost use Rattle.adf_repack.specs.Measures.{size_in, IsUnmeasured, AllFit, AreMeasured, AreUnmeasured};

use crate::headers::{dimensions_fit, dimensions_within};
use crate::nodes::old_place;
use crate::places::NodeShape;
use crate::reads::{read_header, size_of_data};
use adf_format::fields::NODE_CHILDREN;
use adf_format::limits::MOST_CHILDREN;
use adf_model::AdfError;
use adf_records::NodeHeader;
use cg_io::{Blocks, Page};
use layout_lint::NodePlace;
use std::alloc::Global;

// How many bytes of data a node has: none without chunks.
fn data_size_of(header: &NodeHeader) -> Option<u64>
    ensures { result ≡ size_in (record_of header.now) }
{
    if header.chunks == 0 {
        None
    } else {
        Some(size_of_data(header))
    }
}

/// The shape of a node of so many children, whose header stands at a place, where a version has digits for its dimensions.
pub fn measure_node<B: Blocks>(
    blocks: &mut B,
    page: &mut Page,
    wide: bool,
    to: bool,
    place: u64,
    children: u64,
) -> Result<NodeShape, AdfError>
    requires ready { IsReady (B.is_sound blocks.old) (B.state blocks.old).held page.old }
    requires near { place + node_length wide ≤ 2 ^ 44 }
    ensures ready { IsReady (B.is_sound blocks.new) (B.state blocks.new).held page.new }
    ensures children { IfOk result (λ shape. shape.children ≡ children) }
    ensures few { IfOk result (λ shape. shape.children ≤ 2 ^ 20) }
    ensures size { IfOk result (λ shape. Told (B.state blocks.old).held
        (λ image. shape.size ≡ size_in (record_at image wide place))) }
    ensures fits { OnOk result (Told (B.state blocks.old).held
        (λ image. HasLong to (record_at image wide place) → ⊥)) }
    ensures reads { OnlyReads (B.state blocks.old) (B.state blocks.new) }
    ensures cause { IfErr result (IsUnmeasured (B.state blocks.old).held wide to place children
        (B.state blocks.old).faults (B.state blocks.new).faults) }
{
    let header = match read_header(blocks, page, wide, place) {
        Ok(header) => header,
        Err(error) => return Err(error),
    };
    if !dimensions_fit(&dimensions_within(&header), to) {
        return Err(AdfError::BadShape);
    }
    if children > u64::from(MOST_CHILDREN) {
        return Err(AdfError::Layout {
            rule: 22,
            place: place + NODE_CHILDREN.offset as u64,
        });
    }
    Ok(NodeShape {
        children,
        size: data_size_of(&header),
    })
}

/// The shapes of the nodes, where a version has digits for all their dimensions. The numbers of their children are given.
pub fn measure<B: Blocks>(
    alloc: Global,
    blocks: &mut B,
    page: &mut Page,
    wide: bool,
    to: bool,
    nodes: &[NodePlace],
    counts: &[u64],
) -> Result<Vec<NodeShape>, AdfError>
    requires ready { IsReady (B.is_sound blocks.old) (B.state blocks.old).held page.old }
    requires near { (k : ℕ) → k < length nodes.now
        → old_place nodes.now k + node_length wide ≤ 2 ^ 44 }
    requires count { length counts.now ≡ length nodes.now }
    requires counts { (k : ℕ) → k < length nodes.now
        → get_or counts.now k 0 ≡ length (children_of nodes.now k) }
    ensures ready { IsReady (B.is_sound blocks.new) (B.state blocks.new).held page.new }
    ensures shapes { IfOk result (λ shapes. AreMeasured (B.state blocks.old).held wide nodes.now
        (length nodes.now) shapes.items) }
    ensures fit { OnOk result (AllFit (B.state blocks.old).held wide to nodes.now
        (length nodes.now)) }
    ensures reads { OnlyReads (B.state blocks.old) (B.state blocks.new) }
    ensures cause { IfErr result (AreUnmeasured (B.state blocks.old).held wide to nodes.now
        (B.state blocks.old).faults (B.state blocks.new).faults) }
{
    let mut shapes = Vec::new(alloc);
    for number in 0..nodes.len() {
        let place = old_place(nodes, number);
        let shape = match measure_node(blocks, page, wide, to, place, counts[number]) {
            Ok(shape) => shape,
            Err(error) => return Err(error),
        };
        match shapes.push(shape) {
            Ok(()) => {}
            Err(_) => return Err(AdfError::Memory),
        }
    }
    Ok(shapes)
}
