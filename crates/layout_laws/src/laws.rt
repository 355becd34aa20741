//! Laws of layouts. Each is the contract of a function that does nothing: who calls it has the law.

ghost use Rattle.std.specs.Prelude.{◌≡◌, ◌⊎◌, ◌↔◌, ℕ, List, length, Some, slice_get};
ghost use Rattle.adf_format.specs.Tree.{Tree};
ghost use Rattle.adf_format.specs.Placement.{Placement};
ghost use Rattle.adf_format.specs.LaysOut.{LaysOut, IsSound};
ghost use Rattle.adf_format.specs.Checks.{Fault};
ghost use Rattle.adf_format.specs.FirstFault.{Visit, FreeVisit, HasNoFault, FirstFault, end_in, is_wide};
ghost use Rattle.adf_format.specs.SoundPart.{tree_of, format_in};
ghost use Rattle.adf_format.specs.Verdict.{NodePlace, IsLaidOutAs};
ghost use Rattle.adf_format.specs.declared.types.Extent.{Extent};
ghost use Rattle.layout_laws.specs.FoundLayout.{FillGaps, ListsVisits, NamesVisit, IsSameLayout, placement_of};

/// An image that lays out a tree breaks no rule, so no image is sound and has a first fault.
pub fn layouts_break_no_rule()
    ensures no_fault { (image : List ℕ) (tree : Tree) (p : Placement) → LaysOut image tree p
        → (nodes : List Visit) × (frees : List FreeVisit) × HasNoFault image nodes frees }
    ensures never_both { (image : List ℕ) (fault : Fault) → FirstFault image fault → IsSound image
        → ⊥ }
{}

/// An image that breaks no rule lays out the tree of its visits at the parts that they name, with any gaps in
/// order that fill what they leave and have the free chunks of the lists.
pub fn walks_lay_out()
    ensures { (image : List ℕ) (nodes : List Visit) (frees : List FreeVisit) (gaps : List Extent)
        → HasNoFault image nodes frees → FillGaps image nodes frees gaps
        → LaysOut image (tree_of image nodes) (placement_of image nodes gaps) }
{}

/// With such gaps, and the places of its visits, the verdict on an image that breaks no rule is that it is laid out so.
pub fn verdicts()
    ensures { (image : List ℕ) (nodes : List Visit) (frees : List FreeVisit) (gaps : List Extent)
        (places : List NodePlace) → HasNoFault image nodes frees → FillGaps image nodes frees gaps
        → ListsVisits nodes places
        → IsLaidOutAs image places gaps (end_in image) (format_in image) (is_wide image) }
{}

/// An image that breaks no rule leaves gaps that fill what its parts leave.
pub fn gaps_exist()
    ensures { (image : List ℕ) (nodes : List Visit) (frees : List FreeVisit)
        → HasNoFault image nodes frees → (gaps : List Extent) × FillGaps image nodes frees gaps }
{}

/// Every image is sound or has a first fault, and it is sound exactly where it has none.
pub fn sound_or_faulty()
    ensures either { (image : List ℕ) → IsSound image ⊎ ((fault : Fault) × FirstFault image fault) }
    ensures sound { (image : List ℕ) → IsSound image
        ↔ ((nodes : List Visit) × (frees : List FreeVisit) × HasNoFault image nodes frees) }
{}

/// Two layouts of an image are one: the trees are the same up to their numbering, in tree order the nodes have
/// the same parts, and the gaps and the end are the same.
pub fn one_layout()
    ensures { (image : List ℕ) (t u : Tree) (p q : Placement) → LaysOut image t p
        → LaysOut image u q → IsSameLayout t p u q }
{}

/// Places that name their visits one by one list the visits of an image that breaks no rule.
pub fn visits_are_listed()
    ensures { (image : List ℕ) (visits : List Visit) (frees : List FreeVisit)
        (places : List NodePlace) → HasNoFault image visits frees → length places ≡ length visits
        → ((k : ℕ) (v : Visit) (n : NodePlace) → slice_get visits k ≡ Some v
        → slice_get places k ≡ Some n → NamesVisit visits v n) → ListsVisits visits places }
{}
