//! Laws of what a failed write leaves of a file. No function here does anything: its contract is the
//! law.

ghost use Rattle.std.specs.Prelude.{◌≡◌, ◌≢◌, ◌+◌, ◌*◌, ◌/◌, ◌<◌, ◌≤◌, max, ℕ, List, length, slice_get, slice_index_or, Err};
ghost use Rattle.std.specs.List.{Contains};
ghost use Rattle.adf_format.specs.declared.types.Extent.{Extent};
ghost use Rattle.adf_format.specs.Tree.{Tree};
ghost use Rattle.adf_format.specs.Tiles.{end_of};
ghost use Rattle.adf_format.specs.Placement.{Placement, live_extents};
ghost use Rattle.adf_format.specs.LaysOut.{LaysOut};
ghost use Rattle.adf_model.specs.declared.error.AdfError.{AdfError};
ghost use Rattle.adf_model.specs.declared.tree.Edit.{Edit};
ghost use Rattle.adf_model.specs.Slots.{Files, Devices};
ghost use Rattle.adf_model.specs.Torn.{Torn, TornGroup};
ghost use Rattle.adf_model.specs.Untouched.{StaysBeside, group_touched};
ghost use Rattle.adf_model.specs.Steps.{OfGroup, LeavesBesideBlock, AllLaidOut, IsEdit};

/// A failed commit makes a file no longer than it was, or than the block of the end that was wanted:
/// a file of whole blocks that holds its end stays as long.
pub fn torn_files_stay_small()
    ensures length { (before now : List ℕ) (tree : Tree) (torn : Torn before now tree) →
        (length before ≤ length now)
        × (length now ≤ max (length before) ((torn.placement.heap.end / 4096 + 1) * 4096)) }
    ensures same { (before now : List ℕ) (tree : Tree) (torn : Torn before now tree) (blocks : ℕ)
        → length before ≡ blocks * 4096 → torn.placement.heap.end < length before →
        length now ≡ length before }
{}

/// After a write that failed, each byte behind the end of what was to be written is as before, and
/// zero where the file grew; and each byte of a block that was reached is as wanted, but for the one
/// block whose write failed.
pub fn torn_files_keep_the_tail()
    ensures behind { (before now : List ℕ) (tree : Tree) (torn : Torn before now tree) (b : ℕ)
        → torn.placement.heap.end < b → b / 4096 ≢ torn.number →
        slice_index_or now b 0 ≡ slice_index_or before b 0 }
    ensures tail { (before now : List ℕ) (tree : Tree) (torn : Torn before now tree) (b : ℕ)
        → torn.placement.heap.end < b → b < length before → b / 4096 ≢ torn.number →
        slice_get now b ≡ slice_get before b }
    ensures written { (before now : List ℕ) (tree : Tree) (torn : Torn before now tree) (b : ℕ)
        → b < length torn.wanted → b < length now → b / 4096 < torn.number →
        slice_get now b ≡ slice_get torn.wanted b }
{}

/// Of each part that no edit of a failed group touches, each byte outside the one torn block is as
/// before; and a block that lies in such a part is not the torn one.
pub fn failed_groups_leave_the_rest()
    ensures beside { (limit : ℕ) (tree : Tree) (p : Placement) (done : List (Edit × Tree))
        (after : Tree) (old new : List ℕ) (torn : TornGroup limit tree p done after old new)
        → LaysOut old tree p →
        StaysBeside torn.file.number (group_touched limit tree p done) tree.wide p old new }
    ensures elsewhere { (limit : ℕ) (tree : Tree) (p : Placement) (done : List (Edit × Tree))
        (after : Tree) (old new : List ℕ) (torn : TornGroup limit tree p done after old new)
        (e : Extent) →
        Contains (live_extents tree.wide p) e → (Contains (group_touched limit tree p done) e → ⊥)
        → e.place ≤ torn.file.number * 4096 → torn.file.number * 4096 + 4096 ≤ end_of e → ⊥ }
    ensures group { (files after : Files) (before now : Devices) (edits : List Edit) (at : ℕ)
        → AllLaidOut files before →
        IsEdit files before edits (Err (record { at = at; error = AdfError.WriteFault })) now after
        → OfGroup files edits (LeavesBesideBlock before now) }
{}
