//! Bytes that are read block by block, of which the last is kept: short ranges of one block read it once.

ghost use Rattle.std.specs.Prelude.{◌≡◌, ◌^◌, ◌+◌, ◌*◌, ◌≤◌, ◌<◌, length, IfErr, OnOk};
ghost use Rattle.cg_io.specs.Device.{Gives, GivesAt};
ghost use Rattle.cg_io.specs.Answers.{OnlyReads, IsRefusal};
ghost use Rattle.cg_io.specs.Pages.{IsPage};

use crate::spaces::load;
use adf_model::AdfError;
use cg_io::{Page, Space, overwrite};

// Turns to a block, by at most one read of the space.
#[tactic(auto, using(crate::proofs::PageLaws::page_gives))]
fn turn_to<S: Space>(space: &mut S, page: &mut Page, n: u32) -> Result<(), AdfError>
    requires sound { S.is_sound space.old }
    requires within { n * 4096 + 4096 ≤ 2 ^ 44 }
    requires page { IsPage (S.image space.old) page.old }
    ensures sound { S.is_sound space.new }
    ensures told { OnOk result (Gives (S.image space.old) n page.new.bytes) }
    ensures long { length page.new.bytes ≡ 4096 }
    ensures page { IsPage (S.image space.old) page.new }
    ensures image { S.image space.new ≡ S.image space.old }
    ensures waits { S.waiting space.new ≡ S.waiting space.old }
    ensures effect { OnlyReads (S.state space.old) (S.state space.new) }
    ensures cause { IfErr result (IsRefusal ⊥ (S.state space.old).faults
        (S.state space.new).faults) }
{
    if let Some(number) = page.number
        && number == n
    {
        return Ok(());
    }
    // A failed read leaves any bytes.
    page.number = None;
    match load(space, u64::from(n) * 4096, &mut page.bytes) {
        Ok(()) => {
            page.number = Some(n);
            Ok(())
        }
        Err(error) => Err(error),
    }
}

/// How many bytes are read at once, of so many from a place on: as many whole blocks as there are, or those up to the end of
/// the block.
pub(crate) fn piece_length(place: u64, most: usize) -> usize
    requires some { 0 < most }
    ensures some { 0 < result }
    ensures few { result ≤ most }
{
    let start = (place % 4096) as usize;
    if start == 0 && most >= 4096 {
        most - most % 4096
    } else {
        (4096 - start).min(most)
    }
}

/// Reads the bytes from a place on: those of a part of one block from the page.
pub(crate) fn load_piece<S: Space>(
    space: &mut S,
    page: &mut Page,
    place: u64,
    into: &mut [u8],
) -> Result<(), AdfError>
    requires sound { S.is_sound space.old }
    requires some { 0 < length into.old }
    requires within { place + length into.old ≤ 2 ^ 44 }
    requires page { IsPage (S.image space.old) page.old }
    ensures sound { S.is_sound space.new }
    ensures told { OnOk result (GivesAt (S.image space.old) place into.new) }
    ensures page { IsPage (S.image space.old) page.new }
    ensures image { S.image space.new ≡ S.image space.old }
    ensures waits { S.waiting space.new ≡ S.waiting space.old }
    ensures effect { OnlyReads (S.state space.old) (S.state space.new) }
    ensures cause { IfErr result (IsRefusal ⊥ (S.state space.old).faults
        (S.state space.new).faults) }
{
    let start = (place % 4096) as usize;
    if into.len() >= 4096 || start + into.len() > 4096 {
        return load(space, place, into);
    }
    match turn_to(space, page, (place / 4096) as u32) {
        Ok(()) => {}
        Err(error) => return Err(error),
    }
    overwrite(into, 0, &page.bytes[start..start + into.len()]);
    Ok(())
}
