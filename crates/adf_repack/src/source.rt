//! Bytes of the file that is copied, read block by block, of which the last is kept: a failed read as a copy tells it.

ghost use Rattle.std.specs.Prelude.{◌≡◌, ◌^◌, ◌+◌, ◌≤◌, length, IfOk, IfErr, OnOk};
ghost use Rattle.adf_model.specs.Counts.{OnlyReads};
ghost use Rattle.cg_io.specs.Device.{Gives, GivesAt};
ghost use Rattle.cg_io.specs.Pages.{IsReady};
ghost use Rattle.adf_repack.specs.Sources.{IsUnread};

use adf_model::AdfError;
use cg_io::{Blocks, Page};

// Turns to a block, by at most one read.
pub(crate) fn turn_to<B: Blocks>(blocks: &mut B, page: &mut Page, n: u32) -> Result<(), AdfError>
    requires { IsReady (B.is_sound blocks.old) (B.state blocks.old).held page.old }
    ensures ready { IsReady (B.is_sound blocks.new) (B.state blocks.new).held page.new }
    ensures told { OnOk result (Gives (B.state blocks.old).held n page.new.bytes) }
    ensures long { length page.new.bytes ≡ 4096 }
    ensures reads { OnlyReads (B.state blocks.old) (B.state blocks.new) }
    ensures cause { IfErr result (IsUnread (B.state blocks.old).faults
        (B.state blocks.new).faults) }
{
    match cg_io::turn_to(blocks, page, n) {
        Ok(()) => Ok(()),
        Err(_) => Err(AdfError::ReadFault),
    }
}

/// Reads the bytes from a place on, zeros past the end.
pub fn read_at<B: Blocks>(
    blocks: &mut B,
    page: &mut Page,
    place: u64,
    into: &mut [u8],
) -> Result<(), AdfError>
    requires ready { IsReady (B.is_sound blocks.old) (B.state blocks.old).held page.old }
    requires within { place + length into.old ≤ 2 ^ 44 }
    ensures ready { IsReady (B.is_sound blocks.new) (B.state blocks.new).held page.new }
    ensures told { OnOk result (GivesAt (B.state blocks.old).held place into.new) }
    ensures reads { OnlyReads (B.state blocks.old) (B.state blocks.new) }
    ensures cause { IfErr result (IsUnread (B.state blocks.old).faults
        (B.state blocks.new).faults) }
{
    match cg_io::read_at(blocks, page, place, into) {
        Ok(()) => Ok(()),
        Err(_) => Err(AdfError::ReadFault),
    }
}

/// As many bytes from a place on as the caller wants, zeros past the end.
pub fn bytes_at<B: Blocks, const N: usize>(
    blocks: &mut B,
    page: &mut Page,
    place: u64,
) -> Result<[u8; N], AdfError>
    requires ready { IsReady (B.is_sound blocks.old) (B.state blocks.old).held page.old }
    requires within { place + N ≤ 2 ^ 44 }
    ensures ready { IsReady (B.is_sound blocks.new) (B.state blocks.new).held page.new }
    ensures told { IfOk result (GivesAt (B.state blocks.old).held place) }
    ensures long { IfOk result (λ read. length read ≡ N) }
    ensures reads { OnlyReads (B.state blocks.old) (B.state blocks.new) }
    ensures cause { IfErr result (IsUnread (B.state blocks.old).faults
        (B.state blocks.new).faults) }
{
    let mut read = [0u8; N];
    match read_at(blocks, page, place, &mut read) {
        Ok(()) => Ok(read),
        Err(error) => Err(error),
    }
}
