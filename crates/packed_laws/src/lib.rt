//! The packed form of a tree: where its parts stand in a file without a gap, and the bytes of that file.

#![tactic(auto)]

ghost use Rattle.packed_laws.specs.Laws.{IsLong, HasNoGap, PackedIsLaidOut};

/// The bytes of a packed file lay out its tree at the packed places, which leave no gap, and are as many as the length of the
/// packed file.
pub fn packed_is_laid_out()
    ensures laid_out { PackedIsLaidOut }
    ensures no_gap { HasNoGap }
    ensures long { IsLong }
{}
