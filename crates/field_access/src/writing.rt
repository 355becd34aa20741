// Fields that are written. After a refusal the bytes of the field are any.
ghost use Rattle.std.specs.Prelude.{◌^◌, ◌+◌, ◌≤◌, ◌<◌, [], ◌∷◌, length, OnOk};
ghost use Rattle.adf_format.specs.Changes.{Writes};
ghost use Rattle.adf_format.specs.Hex.{hex_text};
ghost use Rattle.adf_format.specs.Pointer.{pointer_text};
ghost use Rattle.cg_io.specs.Blocks.{ReadsFew, blocks_of, Both};
ghost use Rattle.cg_io.specs.Answers.{AnswersWrite, IsRefusal};
ghost use Rattle.disk_ptr.specs.View.{view, HasOffset};
ghost use Rattle.field_access.specs.Fields.{ChangesOnly, WaitsWithin, range};

use adf_model::AdfError;
use cg_io::{Space, write_bytes};
use disk_ptr::{DiskPtr, encode, write_long_hex};

/// Writes a text at a place.
#[tactic(auto, using(crate::proofs::WriteLaws::all_written, crate::proofs::WriteLaws::all_changed, crate::proofs::WaitLaws::waits_range))]
pub fn write_field<S: Space>(space: &mut S, place: u64, text: &[u8]) -> Result<(), AdfError>
    requires sound { S.is_sound space.old }
    requires within { place + length text.now ≤ 2 ^ 44 }
    ensures written { OnOk result (Both (Writes place text.now) (S.image space.old)
        (S.image space.new)) }
    ensures bytes { Both (ChangesOnly (range place (length text.now) ∷ [])) (S.image space.old)
        (S.image space.new) }
    ensures only { WaitsWithin (range place (length text.now) ∷ []) (S.waiting space.old)
        (S.waiting space.new) }
    ensures writes { AnswersWrite S.is_sound S.state S.waiting (blocks_of place (length text.now))
        (ReadsFew (blocks_of place (length text.now))) (IsRefusal ⊥) space.old space.new result }
{
    write_bytes(space, place, text)
}

/// Writes a pointer at a place.
pub fn write_pointer<S: Space>(space: &mut S, place: u64, p: DiskPtr) -> Result<(), AdfError>
    requires sound { S.is_sound space.old }
    requires within { place + 12 ≤ 2 ^ 44 }
    requires offset { HasOffset p }
    ensures written { OnOk result (Both (Writes place (pointer_text (view p))) (S.image space.old)
        (S.image space.new)) }
    ensures bytes { Both (ChangesOnly (range place 12 ∷ [])) (S.image space.old)
        (S.image space.new) }
    ensures only { WaitsWithin (range place 12 ∷ []) (S.waiting space.old)
        (S.waiting space.new) }
    ensures writes { AnswersWrite S.is_sound S.state S.waiting (blocks_of place 12)
        (ReadsFew (blocks_of place 12)) (IsRefusal ⊥) space.old space.new result }
{
    write_field(space, place, &encode(p))
}

/// Writes a number at a place, in so many hexadecimal digits.
pub fn write_number<S: Space, const N: usize>(
    space: &mut S,
    place: u64,
    value: u64,
) -> Result<(), AdfError>
    requires sound { S.is_sound space.old }
    requires some { 1 ≤ N }
    requires few { N ≤ 16 }
    requires fits { value < 16 ^ N }
    requires within { place + N ≤ 2 ^ 44 }
    ensures written { OnOk result (Both (Writes place (hex_text N value)) (S.image space.old)
        (S.image space.new)) }
    ensures bytes { Both (ChangesOnly (range place N ∷ [])) (S.image space.old)
        (S.image space.new) }
    ensures only { WaitsWithin (range place N ∷ []) (S.waiting space.old)
        (S.waiting space.new) }
    ensures writes { AnswersWrite S.is_sound S.state S.waiting (blocks_of place N)
        (ReadsFew (blocks_of place N)) (IsRefusal ⊥) space.old space.new result }
{
    let mut text = [0u8; N];
    write_long_hex(value, &mut text);
    write_field(space, place, &text)
}
