//! Bytes that lie in no extent.

ghost use Rattle.std.specs.Prelude.{◌≡◌, ◌≢◌, ◌^◌, ◌+◌, ◌-◌, ◌%◌, ◌≤◌, ◌<◌, ℕ, length, get_or, IfErr, OnOk, MatchOption};
ghost use Rattle.cg_io.specs.Blocks.{ReadsFew, blocks_of};
ghost use Rattle.layout_laws.specs.TilePass.{AreBlank};
ghost use Rattle.layout_lint.specs.Fillers.{IsHole};
ghost use Rattle.layout_lint.specs.Halts.{HasCount};
ghost use Rattle.cg_io.specs.Answers.{Told};
ghost use Rattle.cg_io.specs.Pages.{IsReady};

use crate::pages::turn_to;
use crate::verdict::{Halt, halt_at};
use cg_io::{Blocks, Page};

// The first byte of a piece that is no blank byte.
fn other_byte(piece: &[u8]) -> Option<usize>
    ensures { MatchOption result ((k : ℕ) → k < length piece.now → get_or piece.now k 0 ≡ 122)
        (λ k. (k < length piece.now) × (get_or piece.now k 0 ≢ 122)
        × ((j : ℕ) → j < k → get_or piece.now j 0 ≡ 122)) }
{
    for k in 0..piece.len() {
        if piece[k] != b'z' {
            return Some(k);
        }
    }
    None
}

// Looks at bytes of one block.
fn look_at_piece<B: Blocks>(
    blocks: &mut B,
    page: &mut Page,
    at: u64,
    count: u64,
) -> Result<(), Halt>
    requires ready { IsReady (B.is_sound blocks.old) (B.state blocks.old).held page.old }
    requires some { 1 ≤ count }
    requires within { at % 4096 + count ≤ 4096 }
    requires end { at + count ≤ 2 ^ 44 }
    ensures ready { IsReady (B.is_sound blocks.new) (B.state blocks.new).held page.new }
    ensures blank { OnOk result (Told (B.state blocks.old).held (λ image. at + count ≤ length image
        → AreBlank image at (at + count))) }
    ensures hole { IfErr result (λ h. Told (B.state blocks.old).held (λ image. at + count
        ≤ length image → IsHole image at (at + count) h)) }
    ensures effect { ReadsFew 1 (B.state blocks.old) (B.state blocks.new) }
    ensures cause { IfErr result (HasCount (B.state blocks.old).faults
        (B.state blocks.new).faults) }
{
    let start = (at % 4096) as usize;
    turn_to(blocks, page, (at / 4096) as u32)?;
    match other_byte(&page.bytes[start..start + count as usize]) {
        Some(k) => halt_at(30, at + k as u64),
        None => Ok(()),
    }
}

/// Looks at the bytes from a place to the byte before another: rule 30.
pub fn look_at_filler<B: Blocks>(
    blocks: &mut B,
    page: &mut Page,
    from: u64,
    to: u64,
) -> Result<(), Halt>
    requires ready { IsReady (B.is_sound blocks.old) (B.state blocks.old).held page.old }
    requires order { from ≤ to }
    requires end { to ≤ 2 ^ 44 }
    ensures ready { IsReady (B.is_sound blocks.new) (B.state blocks.new).held page.new }
    ensures blank { OnOk result (Told (B.state blocks.old).held (λ image. to ≤ length image
        → AreBlank image from to)) }
    ensures hole { IfErr result (λ h. Told (B.state blocks.old).held (λ image. to ≤ length image
        → IsHole image from to h)) }
    ensures effect { ReadsFew (blocks_of from (to - from)) (B.state blocks.old)
        (B.state blocks.new) }
    ensures cause { IfErr result (HasCount (B.state blocks.old).faults
        (B.state blocks.new).faults) }
{
    let mut at = from;
    while at < to {
        let count = (4096 - at % 4096).min(to - at);
        look_at_piece(blocks, page, at, count)?;
        at += count;
    }
    Ok(())
}
