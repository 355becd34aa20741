//! Whether the conditions of the calls hold, as tests ask before they make them.
ghost use Rattle.std.specs.Prelude.{◌≡◌, ◌≤◌, ◌^◌, ◌+◌, IsTrue};
ghost use Rattle.std.specs.List.{AllByRecursion};
ghost use Rattle.adf_format.specs.declared.types.Extent.{Extent};
ghost use Rattle.adf_format.specs.Tiles.{end_of};
ghost use Rattle.adf_format.specs.LaysOut.{IsGap, AreSeparate, StandsBefore, AreGapsInOrder};

use adf_chunks::{Extent, ExtentKind};

// Whether a gap is a filler, or a free chunk that is long enough, and lies behind the free table and up to the end.
fn is_gap(gap: Extent, end: u64) -> bool
    requires { end ≤ 2 ^ 44 }
    ensures { IsTrue result → IsGap gap × (266 ≤ gap.place) × (end_of gap ≤ end + 1) }
{
    if gap.place < 266 || gap.place > end {
        return false;
    }
    if gap.length == 0 || gap.length > end + 1 - gap.place {
        return false;
    }
    match gap.kind {
        ExtentKind::FreeChunk => gap.length >= 32,
        ExtentKind::Filler => true,
        _ => false,
    }
}

// Whether a gap ends before another begins, and two fillers do not touch.
fn are_separate(gap: Extent, next: Extent) -> bool
    requires { end_of gap ≤ 2 ^ 45 }
    ensures { IsTrue result → AreSeparate gap next }
{
    match gap.kind {
        ExtentKind::Filler => gap.place + gap.length < next.place,
        _ => gap.place + gap.length <= next.place,
    }
}

fn stands_before(gap: Extent, rest: &[Extent]) -> bool
    requires { end_of gap ≤ 2 ^ 45 }
    ensures { IsTrue result → StandsBefore gap rest.now }
{
    match rest {
        [] => true,
        [next, ..] => are_separate(gap, *next),
    }
}

/// Whether gaps stand by place within a file of this last byte.
pub fn are_gaps(gaps: &[Extent], end: u64) -> bool
    requires { end ≤ 2 ^ 44 }
    ensures order { IsTrue result → AreGapsInOrder gaps.now }
    ensures within { IsTrue result
        → AllByRecursion (λ (g : Extent). (266 ≤ g.place) × (end_of g ≤ end + 1)) gaps.now }
{
    match gaps {
        [] => true,
        [gap, rest @ ..] => {
            if !is_gap(*gap, end) {
                return false;
            }
            if !stands_before(*gap, rest) {
                return false;
            }
            are_gaps(rest, end)
        }
    }
}
