// Blocks as bytes by their places.
ghost use Rattle.std.specs.Prelude.{◌≡◌, ◌^◌, ◌+◌, ◌≤◌, ℕ, List, Option, [], length, None, IfOk, IfErr, IfSome, OnOk};
ghost use Rattle.cg_io.specs.Device.{Gives, GivesAt};
ghost use Rattle.cg_io.specs.Blocks.{ReadsFew, blocks_of};
ghost use Rattle.cg_io.specs.Answers.{AnswersRead, HasRisen};
ghost use Rattle.cg_io.specs.Pages.{ArePages, IsPage, IsReady, blocks_under, held_under, state_under};

use crate::bytes::overwrite;
use crate::{Blocks, ReadBytes, ReadFault};

/// The block that was read last.
#[derive(Drop)]
pub struct Page {
    /// Its number, if one was read.
    pub number: Option<u32>,
    /// Its bytes.
    pub bytes: [u8; 4096],
}

impl Page {
    /// No block is read yet.
    pub fn new() -> Page
        ensures none { result.number ≡ None }
        ensures fresh { (held : Option (List ℕ)) → IsPage held result }
    {
        Page {
            number: None,
            bytes: [0; 4096],
        }
    }
}

/// Blocks as bytes by their places, with the block that was read last.
#[derive(Drop)]
pub struct Pages<B: Blocks> {
    blocks: B,
    page: Page,
}

impl<B: Blocks> Pages<B> {
    /// The bytes of these blocks. None is read yet.
    pub fn new(blocks: B) -> Pages<B>
        ensures blocks { blocks_under result ≡ blocks }
        ensures sound { B.is_sound blocks → ArePages B.is_sound B.state result }
    {
        Pages {
            blocks,
            page: Page::new(),
        }
    }

    /// The blocks below.
    pub fn into_blocks(self) -> B
        ensures { result ≡ blocks_under self }
    {
        let Pages { blocks, page: _ } = self;
        blocks
    }

    /// How many bytes the device holds, at most 2^44, by at most one read of it.
    pub fn length(&mut self) -> Result<u64, ReadFault>
        requires { ArePages B.is_sound B.state self.old }
        ensures bound { IfOk result (λ n. n ≤ 2 ^ 44) }
        ensures told { IfOk result (λ n. IfSome (held_under B.state self.old) (λ bytes. n
            ≡ length bytes)) }
        ensures reads { AnswersRead (ArePages B.is_sound B.state) (held_under B.state)
            (state_under B.state) (λ _. []) (ReadsFew 1) HasRisen self.old self.new result }
    {
        match self.blocks.length() {
            Ok(n) => Ok(n),
            Err(_) => Err(ReadFault),
        }
    }
}

/// Turns to a block, by at most one read: none where the page has it.
pub fn turn_to<B: Blocks>(blocks: &mut B, page: &mut Page, n: u32) -> Result<(), ReadFault>
    requires { IsReady (B.is_sound blocks.old) (B.state blocks.old).held page.old }
    ensures ready { IsReady (B.is_sound blocks.new) (B.state blocks.new).held page.new }
    ensures told { OnOk result (Gives (B.state blocks.old).held n page.new.bytes) }
    ensures long { length page.new.bytes ≡ 4096 }
    ensures effect { ReadsFew 1 (B.state blocks.old) (B.state blocks.new) }
    ensures cause { IfErr result (HasRisen (B.state blocks.old).faults
        (B.state blocks.new).faults) }
{
    if let Some(number) = page.number
        && number == n
    {
        return Ok(());
    }
    // A failed read leaves any bytes.
    page.number = None;
    match blocks.read_block(n, &mut page.bytes) {
        Ok(()) => {
            page.number = Some(n);
            Ok(())
        }
        Err(_) => Err(ReadFault),
    }
}

/// Reads the bytes from a place on, zeros past the end: each block that they touch at most once, and not the one that the
/// page has.
pub fn read_at<B: Blocks>(
    blocks: &mut B,
    page: &mut Page,
    place: u64,
    into: &mut [u8],
) -> Result<(), ReadFault>
    requires ready { IsReady (B.is_sound blocks.old) (B.state blocks.old).held page.old }
    requires within { place + length into.old ≤ 2 ^ 44 }
    ensures ready { IsReady (B.is_sound blocks.new) (B.state blocks.new).held page.new }
    ensures told { OnOk result (GivesAt (B.state blocks.old).held place into.new) }
    ensures effect { ReadsFew (blocks_of place (length into.old)) (B.state blocks.old)
        (B.state blocks.new) }
    ensures cause { IfErr result (HasRisen (B.state blocks.old).faults
        (B.state blocks.new).faults) }
{
    let mut done = 0;
    while done < into.len() {
        let at = place + done as u64;
        let start = (at % 4096) as usize;
        let count = (4096 - start).min(into.len() - done);
        match turn_to(blocks, page, (at / 4096) as u32) {
            Ok(()) => {}
            Err(fault) => return Err(fault),
        }
        overwrite(into, done, &page.bytes[start..start + count]);
        done += count;
    }
    Ok(())
}

impl<B: Blocks> ReadBytes for Pages<B> {
    ghost image = { λ p. held_under B.state p };

    ghost state = { λ p. state_under B.state p };

    ghost is_sound = { λ p. ArePages B.is_sound B.state p };

    ghost waiting = { λ _. [] };

    fn read(&mut self, place: u64, into: &mut [u8]) -> Result<(), ReadFault> {
        read_at(&mut self.blocks, &mut self.page, place, into)
    }
}
