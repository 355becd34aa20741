// Arrays read and bytes written at a place.
ghost use Rattle.std.specs.Prelude.{◌≡◌, ◌^◌, ◌+◌, ◌≤◌, length, IfOk, OnOk};
ghost use Rattle.cg_io.specs.Device.{GivesAt};
ghost use Rattle.cg_io.specs.Blocks.{ReadsFew, blocks_of, Both, Wrote, KeepsOutside};
ghost use Rattle.cg_io.specs.Waits.{IsTouched, WaitsOnly};
ghost use Rattle.cg_io.specs.Answers.{AnswersRead, AnswersWrite, HasRisen, IsRefusal};

use crate::{ReadBytes, ReadFault, Space, SpaceFault};
use adf_model::AdfError;

/// As many bytes from a place on as the caller wants, zeros past the end.
pub fn read_bytes<R: ReadBytes, const N: usize>(
    bytes: &mut R,
    place: u64,
) -> Result<[u8; N], ReadFault>
    requires sound { R.is_sound bytes.old }
    requires within { place + N ≤ 2 ^ 44 }
    ensures told { IfOk result (GivesAt (R.image bytes.old) place) }
    ensures long { IfOk result (λ read. length read ≡ N) }
    ensures reads { AnswersRead R.is_sound R.image R.state R.waiting
        (ReadsFew (blocks_of place N)) HasRisen bytes.old bytes.new result }
{
    let mut read = [0u8; N];
    match bytes.read(place, &mut read) {
        Ok(()) => Ok(read),
        Err(fault) => Err(fault),
    }
}

/// Writes over the bytes from a place on. After a refusal those of the range are any.
#[tactic(auto, using(crate::proofs::BothLaws::wrote_outside))]
pub fn write_bytes<S: Space>(space: &mut S, place: u64, from: &[u8]) -> Result<(), AdfError>
    requires sound { S.is_sound space.old }
    requires within { place + length from.now ≤ 2 ^ 44 }
    ensures written { OnOk result (Both (Wrote place from.now) (S.image space.old)
        (S.image space.new)) }
    ensures bytes { Both (KeepsOutside place (length from.now)) (S.image space.old)
        (S.image space.new) }
    ensures writes { AnswersWrite S.is_sound S.state S.waiting (blocks_of place (length from.now))
        (ReadsFew (blocks_of place (length from.now))) (IsRefusal ⊥) space.old space.new result }
    ensures only { WaitsOnly (IsTouched place (length from.now)) (S.waiting space.old)
        (S.waiting space.new) }
{
    match space.write(place, from) {
        Ok(()) => Ok(()),
        Err(SpaceFault::Memory) => Err(AdfError::Memory),
        Err(SpaceFault::Read) => Err(AdfError::ReadFault),
    }
}
