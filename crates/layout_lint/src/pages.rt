//! Bytes at a place, read block by block, of which the last is kept: a failed read as the linter tells it.

ghost use Rattle.std.specs.Prelude.{◌≡◌, ◌^◌, ◌+◌, ◌≤◌, length, IfOk, IfErr, OnOk};
ghost use Rattle.cg_io.specs.Device.{Gives, GivesAt};
ghost use Rattle.cg_io.specs.Blocks.{ReadsFew, blocks_of};
ghost use Rattle.cg_io.specs.Answers.{Told};
ghost use Rattle.cg_io.specs.Pages.{IsReady};
ghost use Rattle.layout_lint.specs.Halts.{HasCount, IsNoFault};
ghost use Rattle.adf_format.specs.Fields.{field};

use crate::verdict::Halt;
use cg_io::{Blocks, Page};

/// Turns to a block, by at most one read.
pub fn turn_to<B: Blocks>(blocks: &mut B, page: &mut Page, n: u32) -> Result<(), Halt>
    requires { IsReady (B.is_sound blocks.old) (B.state blocks.old).held page.old }
    ensures ready { IsReady (B.is_sound blocks.new) (B.state blocks.new).held page.new }
    ensures told { OnOk result (Gives (B.state blocks.old).held n page.new.bytes) }
    ensures long { length page.new.bytes ≡ 4096 }
    ensures effect { ReadsFew 1 (B.state blocks.old) (B.state blocks.new) }
    ensures cause { IfErr result (HasCount (B.state blocks.old).faults
        (B.state blocks.new).faults) }
    ensures no_fault { IfErr result IsNoFault }
{
    match cg_io::turn_to(blocks, page, n) {
        Ok(()) => Ok(()),
        Err(_) => Err(Halt::Read),
    }
}

/// Reads the bytes from a place on, zeros past the end.
pub fn read_at<B: Blocks>(
    blocks: &mut B,
    page: &mut Page,
    place: u64,
    into: &mut [u8],
) -> Result<(), Halt>
    requires ready { IsReady (B.is_sound blocks.old) (B.state blocks.old).held page.old }
    requires within { place + length into.old ≤ 2 ^ 44 }
    ensures ready { IsReady (B.is_sound blocks.new) (B.state blocks.new).held page.new }
    ensures told { OnOk result (GivesAt (B.state blocks.old).held place into.new) }
    ensures effect { ReadsFew (blocks_of place (length into.old)) (B.state blocks.old)
        (B.state blocks.new) }
    ensures cause { IfErr result (HasCount (B.state blocks.old).faults
        (B.state blocks.new).faults) }
    ensures no_fault { IfErr result IsNoFault }
{
    match cg_io::read_at(blocks, page, place, into) {
        Ok(()) => Ok(()),
        Err(_) => Err(Halt::Read),
    }
}

/// The bytes of a field, as many as the caller wants.
pub fn field_at<B: Blocks, const N: usize>(
    blocks: &mut B,
    page: &mut Page,
    place: u64,
) -> Result<[u8; N], Halt>
    requires ready { IsReady (B.is_sound blocks.old) (B.state blocks.old).held page.old }
    requires within { place + N ≤ 2 ^ 44 }
    ensures ready { IsReady (B.is_sound blocks.new) (B.state blocks.new).held page.new }
    ensures told { IfOk result (λ bytes. Told (B.state blocks.old).held (λ image. place + N
        ≤ length image → bytes ≡ field image place N)) }
    ensures effect { ReadsFew (blocks_of place N) (B.state blocks.old) (B.state blocks.new) }
    ensures cause { IfErr result (HasCount (B.state blocks.old).faults
        (B.state blocks.new).faults) }
    ensures no_fault { IfErr result IsNoFault }
{
    let mut bytes = [0u8; N];
    match read_at(blocks, page, place, &mut bytes) {
        Ok(()) => Ok(bytes),
        Err(halt) => Err(halt),
    }
}
