// Fields that are read. What is said of them holds where the bytes are told and have the field.
ghost use Rattle.std.specs.Prelude.{◌≡◌, ◌^◌, ◌+◌, ◌≤◌, ◌<◌, length, IfOk, IfSome, option_map};
ghost use Rattle.adf_format.specs.Fields.{field, holds};
ghost use Rattle.adf_format.specs.Hex.{hex_value};
ghost use Rattle.adf_format.specs.Pointer.{pointer};
ghost use Rattle.cg_io.specs.Blocks.{ReadsFew, blocks_of};
ghost use Rattle.cg_io.specs.Answers.{AnswersRead, HasRisen};
ghost use Rattle.disk_ptr.specs.View.{view, HasOffset};
ghost use Rattle.field_access.specs.Fields.{WhereTold};

use cg_io::{ReadBytes, ReadFault, read_bytes};
use disk_ptr::{DiskPtr, decode, fields, read_long_hex};

/// A field of as many bytes as the caller wants.
#[tactic(auto, using(crate::proofs::FieldLaws::field_given))]
pub fn read_field<R: ReadBytes, const N: usize>(
    bytes: &mut R,
    place: u64,
) -> Result<[u8; N], ReadFault>
    requires sound { R.is_sound bytes.old }
    requires within { place + N ≤ 2 ^ 44 }
    ensures told { IfOk result (λ text. WhereTold (R.image bytes.old) place N (λ says. text
        ≡ says)) }
    ensures long { IfOk result (λ text. length text ≡ N) }
    ensures reads { AnswersRead R.is_sound R.image R.state R.waiting
        (ReadsFew (blocks_of place N)) HasRisen bytes.old bytes.new result }
{
    match read_bytes::<R, N>(bytes, place) {
        Ok(text) => Ok(text),
        Err(fault) => Err(fault),
    }
}

/// Whether a tag stands at a place.
pub fn has_tag<R: ReadBytes>(bytes: &mut R, place: u64, tag: &[u8; 4]) -> Result<bool, ReadFault>
    requires sound { R.is_sound bytes.old }
    requires within { place + 4 ≤ 2 ^ 44 }
    ensures told { IfOk result (λ stands. WhereTold (R.image bytes.old) place 4 (λ says. stands
        ≡ holds says 0 tag.now)) }
    ensures reads { AnswersRead R.is_sound R.image R.state R.waiting
        (ReadsFew (blocks_of place 4)) HasRisen bytes.old bytes.new result }
{
    match read_bytes::<R, 4>(bytes, place) {
        Ok(text) => Ok(fields::holds(&text, 0, tag)),
        Err(fault) => Err(fault),
    }
}

/// The pointer at a place: none where its twelve bytes are no pointer.
pub fn read_pointer<R: ReadBytes>(bytes: &mut R, place: u64) -> Result<Option<DiskPtr>, ReadFault>
    requires sound { R.is_sound bytes.old }
    requires within { place + 12 ≤ 2 ^ 44 }
    ensures told { IfOk result (λ read. WhereTold (R.image bytes.old) place 12
        (λ says. option_map view read ≡ pointer says)) }
    ensures offset { IfOk result (λ read. IfSome read HasOffset) }
    ensures reads { AnswersRead R.is_sound R.image R.state R.waiting
        (ReadsFew (blocks_of place 12)) HasRisen bytes.old bytes.new result }
{
    match read_bytes::<R, 12>(bytes, place) {
        Ok(text) => Ok(decode(&text)),
        Err(fault) => Err(fault),
    }
}

/// The number in so many hexadecimal digits at a place: none where they are no such digits.
pub fn read_number<R: ReadBytes, const N: usize>(
    bytes: &mut R,
    place: u64,
) -> Result<Option<u64>, ReadFault>
    requires sound { R.is_sound bytes.old }
    requires some { 1 ≤ N }
    requires few { N ≤ 16 }
    requires within { place + N ≤ 2 ^ 44 }
    ensures told { IfOk result (λ read. WhereTold (R.image bytes.old) place N (λ says. read
        ≡ hex_value says)) }
    ensures small { IfOk result (λ read. IfSome read (λ n. n < 16 ^ N)) }
    ensures reads { AnswersRead R.is_sound R.image R.state R.waiting
        (ReadsFew (blocks_of place N)) HasRisen bytes.old bytes.new result }
{
    match read_bytes::<R, N>(bytes, place) {
        Ok(text) => Ok(read_long_hex(&text)),
        Err(fault) => Err(fault),
    }
}
