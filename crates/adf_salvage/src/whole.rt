//! A packed copy of the sound part of a damaged file.

ghost use Rattle.std.specs.Prelude.{IfOk, IfErr, OnOk};
ghost use Rattle.std.specs.List.{All};
ghost use Rattle.adf_model.specs.Counts.{OnlyReads};
ghost use Rattle.cg_io.specs.Answers.{Told};
ghost use Rattle.adf_repack.specs.Measures.{HoldsNone};
ghost use Rattle.adf_repack.specs.Repacks.{IsWritten, IsLicensed, LeavesDevice};
ghost use Rattle.adf_salvage.specs.LeftOut.{HasRule};
ghost use Rattle.adf_salvage.specs.Salvages.{IsSalvaged, IsSalvageRefusal};

use crate::list::LeftOut;
use crate::part::sound_part;
use adf_model::AdfError;
use adf_repack::write_packed;
use cg_io::{Blocks, Device};
use salvage_given::sound_part_is_given;
use std::alloc::Global;

/// A device with the sound part of a file, the last byte of it, and what was left out.
#[derive(Drop)]
pub struct Salvaged<E> {
    pub device: E,
    pub end: u64,
    pub left: LeftOut,
}

/// Writes the sound part of a damaged file into an empty device, as a file without a gap, in the version of the file.
///
/// It is refused, in this order: with Layout where one of rules 1 to 7 is broken, of which the first is named, or where the
/// root is left out, with the first rule that this breaks; with NotEmpty where the device holds bytes, and with Full where
/// the copy is longer than 2^44 bytes; besides these with Memory, and with ReadFault or WriteFault where a call of a device
/// failed. The file is only read, and a device that holds bytes is left as it is.
pub fn salvage<B: Blocks, E: Device>(
    alloc: Global,
    blocks: &mut B,
    device: E,
) -> Result<Salvaged<E>, (AdfError, E)>
    requires { B.is_sound blocks.old }
    ensures layer { B.is_sound blocks.new }
    ensures reads { OnlyReads (B.state blocks.old) (B.state blocks.new) }
    ensures none { OnOk result (HoldsNone (E.state device).held) }
    ensures written { IfOk result (λ s. IsWritten (E.state device) (E.state s.device) s.end) }
    ensures salvaged { IfOk result (λ s. Told (B.state blocks.old).held
        (λ image. IsSalvaged image (E.state s.device).held s.end s.left)) }
    ensures rules { IfOk result (λ s. All HasRule s.left) }
    ensures licensed { IfErr result (λ e. IsLicensed (B.state blocks.old) (B.state blocks.new)
        (E.state device) (E.state e.1) e.0) }
    ensures left { IfErr result (λ e. LeavesDevice (E.state device) (E.state e.1) e.0) }
    ensures refused { IfErr result (λ e. Told (B.state blocks.old).held
        (λ image. IsSalvageRefusal image (E.state device) (E.state e.1) e.0)) }
{
    let part = match sound_part(alloc, blocks) {
        Ok(part) => part,
        Err(error) => return Err((error, device)),
    };
    sound_part_is_given();
    match write_packed(alloc, blocks, &part.nodes, part.wide, device) {
        Ok(packed) => Ok(Salvaged {
            device: packed.device,
            end: packed.end,
            left: part.left,
        }),
        Err(refused) => Err(refused),
    }
}
