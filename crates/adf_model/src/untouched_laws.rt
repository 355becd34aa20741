//! Laws of the parts of a file that a group of edits does not touch. No function here does anything:
//! its contract is the law.

ghost use Rattle.std.specs.Prelude.{◌≡◌, ◌≢◌, ◌<◌, ◌≤◌, ◌+◌, ◌*◌, ◌/◌, max, [], ℕ, Bool, List, length, slice_get, slice_index_or, Some, Ok};
ghost use Rattle.std.specs.List.{Contains};
ghost use Rattle.adf_format.specs.declared.types.Extent.{Extent};
ghost use Rattle.adf_format.specs.Fields.{field};
ghost use Rattle.adf_format.specs.Tree.{Tree};
ghost use Rattle.adf_format.specs.Tiles.{end_of};
ghost use Rattle.adf_format.specs.Parts.{dimension_digits};
ghost use Rattle.adf_format.specs.Placement.{Placement, NodeParts, parts_of, live_extents};
ghost use Rattle.adf_model.specs.declared.tree.Edit.{Edit};
ghost use Rattle.adf_model.specs.declared.tree.NodeId.{NodeId};
ghost use Rattle.adf_model.specs.Slots.{Open, Files, Devices, device_at, open_at};
ghost use Rattle.adf_model.specs.Calls.{Group, edit_group};
ghost use Rattle.adf_model.specs.Steps.{LeavesUntouched, IsUntouchedGroup};
ghost use Rattle.adf_model.specs.Untouched.{header_extent, touched_extents, group_touched, StaysBut, StaysBeside, Stays, KeepsHead, KeepsDims, KeepsPastRank, KeepsUnused, group_shaped};

/// The dates, the version and the free bytes of the head are kept, and the bytes behind the end
/// pointer.
pub fn heads_stay()
    ensures front { (old new : List ℕ) → KeepsHead old new → field new 0 146 ≡ field old 0 146 }
    ensures created { (old new : List ℕ) → KeepsHead old new → field new 36 28 ≡ field old 36 28 }
    ensures behind { (old new : List ℕ) → KeepsHead old new → field new 158 28 ≡ field old 158 28 }
{}

/// A part that is not touched is live with the same bytes after one edit, and after two; and where
/// nothing is touched, each live part is.
pub fn parts_stay()
    ensures all { (wide : Bool) (p q : Placement) (old new : List ℕ) (e : Extent)
        → StaysBut [] wide p q old new → Contains (live_extents wide p) e →
        Contains (live_extents wide q) e
        × (field new e.place e.length ≡ field old e.place e.length) }
    ensures header { (tree : Tree) (p q : Placement) (edit : Edit) (old new : List ℕ) (serial : ℕ)
        → Stays tree p edit q old new →
        Contains (live_extents tree.wide p) (header_extent tree.wide p serial)
        → (Contains (touched_extents tree p edit) (header_extent tree.wide p serial) → ⊥) →
        field new (header_extent tree.wide p serial).place (header_extent tree.wide p serial).length
        ≡ field old (header_extent tree.wide p serial).place
        (header_extent tree.wide p serial).length }
    ensures two { (first second : List Extent) (wide : Bool) (p q r : Placement)
        (old between new : List ℕ) (e : Extent) → StaysBut first wide p q old between
        → StaysBut second wide q r between new →
        Contains (live_extents wide p) e → (Contains first e → ⊥) → (Contains second e → ⊥)
        → Contains (live_extents wide r) e
        × (field new e.place e.length ≡ field old e.place e.length) }
    ensures beside { (torn : ℕ) (touched : List Extent) (wide : Bool) (p : Placement)
        (old new : List ℕ) (e : Extent) → StaysBeside torn touched wide p old new
        → Contains (live_extents wide p) e → (Contains touched e → ⊥) →
        ((b : ℕ) → e.place ≤ b → b < end_of e → b / 4096 ≢ torn)
        → field new e.place e.length ≡ field old e.place e.length }
    ensures dims { (wide : Bool) (p q : Placement) (old new : List ℕ) (serial : ℕ)
        (from to : NodeParts) → KeepsDims (group_shaped []) wide p q old new
        → parts_of p serial ≡ Some from → parts_of q serial ≡ Some to →
        field new (to.header + 130) (12 * dimension_digits wide)
        ≡ field old (from.header + 130) (12 * dimension_digits wide) }
{}

/// A group that was done keeps the date of creation, each part that none of its edits touches, the
/// dimensions and the entries that are in use over none of them, and the bytes behind the end; and it
/// makes the file grow at most to the end of the block of its end.
pub fn groups_leave_the_rest()
    ensures parts { (files : Files) (before now : Devices) (edits : List Edit)
        (created : List NodeId) (group : Group) (number : ℕ) (opened : Open) (old new : List ℕ)
        (e : Extent) →
        IsUntouchedGroup files before edits (Ok created) now → edit_group files edits ≡ Ok group
        → group.file ≡ Some number → open_at files number ≡ Some opened →
        (device_at before number).held ≡ Some old → (device_at now number).held ≡ Some new →
        Contains (live_extents opened.tree.wide (device_at before number).placement) e →
        (Contains (group_touched opened.limit opened.tree
        (device_at before number).placement group.done) e → ⊥) →
        Contains (live_extents opened.tree.wide (device_at now number).placement) e
        × (field new e.place e.length ≡ field old e.place e.length) }
    ensures date { (files : Files) (before now : Devices) (edits : List Edit)
        (created : List NodeId) (group : Group) (number : ℕ) (opened : Open) (old new : List ℕ) →
        IsUntouchedGroup files before edits (Ok created) now → edit_group files edits ≡ Ok group
        → group.file ≡ Some number → open_at files number ≡ Some opened →
        (device_at before number).held ≡ Some old → (device_at now number).held ≡ Some new
        → field new 36 28 ≡ field old 36 28 }
    ensures dims { (before now : Devices) (number : ℕ) (opened : Open) (group : Group)
        (old new : List ℕ) (serial : ℕ) (from to : NodeParts)
        → LeavesUntouched before now number opened group →
        (device_at before number).held ≡ Some old → (device_at now number).held ≡ Some new
        → (Contains (group_shaped group.done) serial → ⊥) →
        parts_of (device_at before number).placement serial ≡ Some from
        → parts_of (device_at now number).placement serial ≡ Some to →
        field new (to.header + 130) (12 * dimension_digits opened.tree.wide)
        ≡ field old (from.header + 130) (12 * dimension_digits opened.tree.wide) }
    ensures tail { (before now : Devices) (number : ℕ) (opened : Open) (group : Group)
        (old new : List ℕ) (b : ℕ) → LeavesUntouched before now number opened group →
        (device_at before number).held ≡ Some old → (device_at now number).held ≡ Some new
        → (device_at now number).placement.heap.end < b
        → slice_index_or new b 0 ≡ slice_index_or old b 0 }
    ensures grown { (before now : Devices) (number : ℕ) (opened : Open) (group : Group)
        (old new : List ℕ) → LeavesUntouched before now number opened group →
        (device_at before number).held ≡ Some old → (device_at now number).held ≡ Some new
        → length new ≤ max (length old) (((device_at now number).placement.heap.end / 4096 + 1)
        * 4096) }
    ensures past_rank { (before now : Devices) (number : ℕ) (opened : Open) (group : Group)
        (old new : List ℕ) → LeavesUntouched before now number opened group →
        (device_at before number).held ≡ Some old → (device_at now number).held ≡ Some new →
        KeepsPastRank opened.tree group.done (device_at before number).placement
        (device_at now number).placement old new }
    ensures unused { (before now : Devices) (number : ℕ) (opened : Open) (group : Group)
        (old new : List ℕ) → LeavesUntouched before now number opened group →
        (device_at before number).held ≡ Some old → (device_at now number).held ≡ Some new →
        KeepsUnused opened.tree group.done (device_at before number).placement
        (device_at now number).placement old new }
{}
