//! The sound part of a damaged file as a whole.

ghost use Rattle.std.specs.Prelude.{ℕ, ◌^◌, ◌+◌, ◌<◌, ◌≤◌, length, map, slice_get, Some, IfOk, IfErr};
ghost use Rattle.adf_format.specs.Parts.{node_length};
ghost use Rattle.adf_model.specs.Counts.{OnlyReads};
ghost use Rattle.cg_io.specs.Answers.{Told};
ghost use Rattle.layout_lint.specs.Halts.{MayLackMemory};
ghost use Rattle.layout_lint.specs.Shapes.{AreLinked, AreWithin};
ghost use Rattle.layout_lint.specs.Walks.{node_place};
ghost use Rattle.adf_salvage.specs.Parts.{IsPartOf, IsShaped, TellsNoPart, MayRefuse};
ghost use Rattle.adf_salvage.specs.Surveys.{EndsSurvey};

use crate::head::look_at_start;
use crate::list::LeftOut;
use crate::progress::Progress;
use crate::survey::survey;
use adf_format::Listing;
use adf_model::AdfError;
use cg_io::Blocks;
use layout_lint::NodePlaces;
use layout_lint::walking::{Halt, Page};
use std::alloc::Global;

/// The sound part of a damaged file: the nodes that are kept, in tree order, each with the number of its entry in the table
/// of its parent as its position, those that are left out, and whether the file is of the wide version.
#[derive(Drop)]
pub struct SoundPart {
    pub nodes: NodePlaces,
    pub left: LeftOut,
    pub wide: bool,
}

// The sound part, or what ends the work.
fn part_of<B: Blocks>(alloc: Global, blocks: &mut B) -> Result<SoundPart, Halt>
    requires { B.is_sound blocks.old }
    ensures layer { B.is_sound blocks.new }
    ensures part { IfOk result (λ part. Told (B.state blocks.old).held
        (λ image. IsPartOf image part)) }
    ensures shape { IfOk result IsShaped }
    ensures stops { IfErr result (λ h. Told (B.state blocks.old).held
        (λ image. EndsSurvey image h)) }
    ensures reads { OnlyReads (B.state blocks.old) (B.state blocks.new) }
    ensures cause { IfErr result (MayLackMemory (B.state blocks.old).faults
        (B.state blocks.new).faults) }
{
    let mut page = Page::new();
    let start = look_at_start(blocks, &mut page)?;
    let found = survey(alloc, blocks, &mut page, &start)?;
    let Progress {
        families: _,
        names: _,
        nodes,
        places: _,
        used: _,
        left,
    } = found;
    Ok(SoundPart {
        nodes: Listing::new(nodes),
        left: Listing::new(left),
        wide: start.span.wide,
    })
}

/// The sound part of a damaged file.
///
/// It is refused with Layout where one of rules 1 to 7 is broken, of which the first is named, or where the root is left
/// out, with the first rule that this breaks; besides with Memory, and with ReadFault where a read failed. Nothing is
/// written.
pub fn sound_part<B: Blocks>(alloc: Global, blocks: &mut B) -> Result<SoundPart, AdfError>
    requires { B.is_sound blocks.old }
    ensures layer { B.is_sound blocks.new }
    ensures part { IfOk result (λ part. Told (B.state blocks.old).held
        (λ image. IsPartOf image part)) }
    ensures shape { IfOk result IsShaped }
    ensures refused { IfErr result (λ e. Told (B.state blocks.old).held
        (λ image. TellsNoPart image e)) }
    ensures reads { OnlyReads (B.state blocks.old) (B.state blocks.new) }
    ensures cause { IfErr result (MayRefuse (B.state blocks.old).faults
        (B.state blocks.new).faults) }
{
    match part_of(alloc, blocks) {
        Ok(part) => Ok(part),
        Err(Halt::Broken(fault)) => Err(AdfError::Layout {
            rule: fault.rule,
            place: fault.place,
        }),
        Err(Halt::Memory) => Err(AdfError::Memory),
        Err(Halt::Read) => Err(AdfError::ReadFault),
    }
}
