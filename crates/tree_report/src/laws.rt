//! Laws of the lines of a tree, as contracts of functions that do nothing.

ghost use Rattle.std.specs.Prelude.{◌≡◌, ℕ, true, false, map, Ok};
ghost use Rattle.adf_format.specs.Tree.{Tree, tree_order};
ghost use Rattle.adf_model.specs.Causes.{OpensStanding, HasOpenCause};
ghost use Rattle.adf_model.specs.Slots.{Files, Devices, slot_at, is_open, is_broken};
ghost use Rattle.adf_model.specs.Steps.{Stored};
ghost use Rattle.tree_report.specs.Places.{Place, tree_places};

/// The nodes that lines tell of are those of the tree, in tree order.
pub fn lines_follow_tree_order()
    ensures { (tree : Tree) → map (λ (place : Place). place.serial) (tree_places tree)
        ≡ tree_order tree }
{}

/// A file that was opened for reading is open and not broken, so its lines may be printed.
pub fn opened_files_may_be_read()
    ensures { (files after : Files) (before now : Devices) (number : ℕ)
        → OpensStanding (Stored false) number (Ok tt) files after
        → HasOpenCause files number (Stored false) before now (Ok tt)
        → (is_open (slot_at after number) ≡ true) × (is_broken (slot_at after number) ≡ false) }
{}
