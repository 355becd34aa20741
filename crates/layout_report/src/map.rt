//! The map of a file: its extents by place, each with the path of its node.

ghost use Rattle.std.specs.Prelude.{◌≡◌, ◌≤◌, ◌+◌, ◌*◌, ◌^◌, Bool, length, map, IfOk, IfErr};
ghost use Rattle.std.specs.List.{All};
ghost use Rattle.cg_io.specs.Answers.{OnlyReads, Told};
ghost use Rattle.cg_io.specs.Blocks.{ReadsFew};
ghost use Rattle.adf_format.specs.Tree.{Tree, IsTree, IsNumbered};
ghost use Rattle.adf_format.specs.Placement.{Placement};
ghost use Rattle.adf_format.specs.declared.types.Format.{Format};
ghost use Rattle.adf_format.specs.Verdict.{IsLaidOutAs, ListsNodes};
ghost use Rattle.layout_lint.specs.Owners.{IsThere};
ghost use Rattle.layout_lint.specs.Paths.{AreNames};
ghost use Rattle.layout_lint.specs.Shapes.{AreLinked};
ghost use Rattle.layout_lint.specs.Walks.{node_place};
ghost use Rattle.layout_report.specs.Lines.{extent_line};
ghost use Rattle.layout_report.specs.Reports.{IsLine, Listed, Mapped, Says};

use crate::Report;
use crate::lines::{end_line, extent_line, part_line};
use crate::lint::KEPT_BLOCKS;
use crate::output::{say, say_fault, say_refusal};
use adf_format::{Extent, Extents};
use adf_model::AdfError;
use block_cache::BlockCache;
use cg_io::{Blocks, Device, Sink};
use layout_lint::{NodeNames, NodePlaces, Owned, Surveyed, Verdict, lint, path_of, survey};
use session::print;
use std::alloc::Global;

// The line of an extent that is no part of a node.
fn lone_line(alloc: Global, extent: Extent) -> Result<Vec<u8>, AdfError>
    ensures line { IfOk result (λ line. line.items ≡ extent_line extent) }
    ensures want { IfErr result (λ e. e ≡ AdfError.Memory) }
{
    match extent_line(alloc, extent) {
        Ok(line) => Ok(line.into_bytes()),
        Err(_) => Err(AdfError::Memory),
    }
}

// The line of an extent.
fn line_of(
    alloc: Global,
    nodes: &NodePlaces,
    names: &NodeNames,
    part: &Owned,
) -> Result<Vec<u8>, AdfError>
    requires linked { AreLinked (map node_place nodes.now) }
    requires named { length names.now ≡ length nodes.now }
    requires there { IsThere (length nodes.now) part.now }
    ensures line { IfOk result (λ line. (tree : Tree) (p : Placement) → IsTree tree
        → IsNumbered tree → ListsNodes tree p (map node_place nodes.now) → AreNames tree names.now
        → IsLine tree part.now line.items) }
    ensures want { IfErr result (λ e. e ≡ AdfError.Memory) }
{
    let number = match part.owner {
        Some(number) => number,
        None => return lone_line(alloc, part.extent),
    };
    let path = match path_of(alloc, nodes, names, number) {
        Ok(path) => path,
        Err(error) => return Err(error),
    };
    match part_line(alloc, part.extent, path.items()) {
        Ok(line) => Ok(line),
        Err(_) => Err(AdfError::Memory),
    }
}

// The lines of all extents, then the last byte.
fn say_extents<O: Sink>(
    alloc: Global,
    nodes: &NodePlaces,
    names: &NodeNames,
    owned: &[Owned],
    end: u64,
    output: &mut O,
) -> Report
    requires linked { AreLinked (map node_place nodes.now) }
    requires named { length names.now ≡ length nodes.now }
    requires there { All (IsThere (length nodes.now)) owned.now }
    ensures says { Says (Listed nodes.now names.now owned.now end) (O.taken output.old)
        (O.taken output.new) (O.faults output.old) (O.faults output.new) result }
    ensures later { O.faults output.old ≤ O.faults output.new }
{
    for k in 0..owned.len() {
        let line = match line_of(alloc, nodes, names, &owned[k]) {
            Ok(line) => line,
            Err(_) => return Report::Memory,
        };
        match print(output, &line) {
            Ok(()) => {}
            Err(_) => return Report::SinkFault,
        }
    }
    match end_line(alloc, end) {
        Ok(line) => say(output, line.as_bytes(), Report::Done),
        Err(_) => Report::Memory,
    }
}

// The map of a sound file.
fn map_sound<B: Blocks, O: Sink>(
    alloc: Global,
    blocks: &mut B,
    nodes: &NodePlaces,
    gaps: &Extents,
    end: u64,
    output: &mut O,
) -> Report
    requires layer { B.is_sound blocks.old }
    requires linked { AreLinked (map node_place nodes.now) }
    requires sound { Told (B.state blocks.old).held (λ image. (format : Format) × (wide : Bool)
        × IsLaidOutAs image (map node_place nodes.now) gaps.now end format wide) }
    ensures layer { B.is_sound blocks.new }
    ensures says { Says (Mapped (B.state blocks.old) (B.state blocks.new)) (O.taken output.old)
        (O.taken output.new) (O.faults output.old) (O.faults output.new) result }
    ensures later { O.faults output.old ≤ O.faults output.new }
    ensures effect { ReadsFew (4 * 2 ^ 44 + 35) (B.state blocks.old) (B.state blocks.new) }
    ensures few { Told (B.state blocks.old).held
        (λ image. ReadsFew (4 * length image + 35) (B.state blocks.old) (B.state blocks.new)) }
{
    match survey(alloc, blocks, nodes, gaps) {
        Ok(found) => {
            let Surveyed { extents, names } = found;
            say_extents(alloc, nodes, &names, extents.items(), end, output)
        }
        Err(error) => say_refusal(alloc, error, output),
    }
}

// The map of the file on some blocks, or the rule that it breaks.
fn map_blocks<B: Blocks, O: Sink>(alloc: Global, blocks: &mut B, output: &mut O) -> Report
    requires { B.is_sound blocks.old }
    ensures layer { B.is_sound blocks.new }
    ensures says { Says (Mapped (B.state blocks.old) (B.state blocks.new)) (O.taken output.old)
        (O.taken output.new) (O.faults output.old) (O.faults output.new) result }
    ensures later { O.faults output.old ≤ O.faults output.new }
    ensures effect { ReadsFew (12 * 2 ^ 44 + 51) (B.state blocks.old) (B.state blocks.new) }
    ensures few { Told (B.state blocks.old).held
        (λ image. ReadsFew (12 * length image + 51) (B.state blocks.old) (B.state blocks.new)) }
{
    match lint(alloc, blocks) {
        Ok(
            Verdict::Sound {
                nodes,
                gaps,
                end,
                ..
            },
        ) => map_sound(alloc, blocks, &nodes, &gaps, end, output),
        Ok(Verdict::Unsound { rule, place }) => say_fault(alloc, rule, place, output),
        Err(error) => say_refusal(alloc, error, output),
    }
}

/// Says the extents of the file of a device, which is given back: a line for each extent by place, with
/// the path of its node if it is a part of one, and one for the last byte. A file that breaks a rule
/// gets the line of that rule. Nothing is written.
pub fn map_file<D: Device, O: Sink>(alloc: Global, device: D, output: &mut O) -> (D, Report)
    ensures says { Says (Mapped (D.state device) (D.state result.0)) (O.taken output.old)
        (O.taken output.new) (O.faults output.old) (O.faults output.new) result.1 }
    ensures later { O.faults output.old ≤ O.faults output.new }
    ensures effect { OnlyReads (D.state device) (D.state result.0) }
    ensures few { Told (D.state device).held (λ image.
        ReadsFew (12 * length image + 51) (D.state device) (D.state result.0)) }
{
    match BlockCache::new(alloc, device, KEPT_BLOCKS) {
        Ok(blocks) => {
            let mut blocks = blocks;
            let report = map_blocks(alloc, &mut blocks, output);
            (blocks.into_device(), report)
        }
        Err((_, device)) => (device, Report::Memory),
    }
}
