// Bytes of a space.
ghost use Rattle.std.specs.Prelude.{◌≡◌, ◌^◌, ◌+◌, ◌≤◌, length, IfErr, OnOk};
ghost use Rattle.cg_io.specs.Device.{GivesAt};
ghost use Rattle.cg_io.specs.Blocks.{Both, Wrote, KeepsOutside, blocks_of};
ghost use Rattle.cg_io.specs.Answers.{OnlyReads, IsRefusal};
ghost use Rattle.cg_io.specs.Waits.{how_many, IsTouched, WaitsOnly};

use adf_model::AdfError;
use cg_io::{Space, write_bytes};

/// Reads the bytes from a place on.
#[tactic(auto, using(cg_io::proofs::ReadLaws::few_only))]
pub(crate) fn load<S: Space>(space: &mut S, place: u64, into: &mut [u8]) -> Result<(), AdfError>
    requires sound { S.is_sound space.old }
    requires within { place + length into.old ≤ 2 ^ 44 }
    ensures sound { S.is_sound space.new }
    ensures told { OnOk result (GivesAt (S.image space.old) place into.new) }
    ensures image { S.image space.new ≡ S.image space.old }
    ensures waits { S.waiting space.new ≡ S.waiting space.old }
    ensures effect { OnlyReads (S.state space.old) (S.state space.new) }
    ensures cause { IfErr result (IsRefusal ⊥ (S.state space.old).faults
        (S.state space.new).faults) }
{
    match space.read(place, into) {
        Ok(()) => Ok(()),
        Err(_) => Err(AdfError::ReadFault),
    }
}

/// Writes over the bytes from a place on.
#[tactic(auto, using(cg_io::proofs::ReadLaws::few_only))]
pub(crate) fn store<S: Space>(space: &mut S, place: u64, from: &[u8]) -> Result<(), AdfError>
    requires sound { S.is_sound space.old }
    requires within { place + length from.now ≤ 2 ^ 44 }
    ensures sound { S.is_sound space.new }
    ensures written { OnOk result (Both (Wrote place from.now) (S.image space.old)
        (S.image space.new)) }
    ensures bytes { Both (KeepsOutside place (length from.now)) (S.image space.old)
        (S.image space.new) }
    ensures waits { how_many (S.waiting space.new)
        ≤ how_many (S.waiting space.old) + blocks_of place (length from.now) }
    ensures only { WaitsOnly (IsTouched place (length from.now)) (S.waiting space.old)
        (S.waiting space.new) }
    ensures effect { OnlyReads (S.state space.old) (S.state space.new) }
    ensures cause { IfErr result (IsRefusal ⊥ (S.state space.old).faults
        (S.state space.new).faults) }
{
    match write_bytes(space, place, from) {
        Ok(()) => Ok(()),
        Err(error) => Err(error),
    }
}
