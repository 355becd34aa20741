//! Laws of trees. Each is the contract of a function that does nothing: who calls it has the law.

ghost use Rattle.std.specs.Prelude.{◌≡◌, ℕ, List, ◌==◌, ◌++◌, if◌then◌else◌, count_by, take, drop, replicate, codes, false};
ghost use Rattle.adf_format.specs.Fresh.{fresh_text};
ghost use Rattle.adf_format.specs.LaysOut.{IsSound, LaysOut};
ghost use Rattle.adf_format.specs.Placement.{Placement};
ghost use Rattle.adf_format.specs.Tree.{Tree, IsTree, is_live, tree_order, numbered, IsNumbered, IsSameTree};
ghost use Rattle.adf_model.specs.Placing.{numbered_placement};

/// Tree order has each live serial of a tree exactly once, and no other number.
pub fn tree_order_lists_once()
    ensures { (tree : Tree) → IsTree tree → (serial : ℕ)
        → count_by (λ s. s == serial) (tree_order tree) ≡ (if is_live tree serial then 1 else 0) }
{}

/// The numbering of tree order keeps a tree a tree, makes the same tree up to its numbering, and changes
/// nothing the second time.
pub fn numbering()
    ensures keeps { (tree : Tree) → IsTree tree → IsTree (numbered tree) }
    ensures settles { (tree : Tree) → IsTree tree → IsNumbered (numbered tree) }
    ensures same { (tree : Tree) → IsTree tree → IsSameTree (numbered tree) tree }
{}

/// A file that holds a tree holds its numbered tree too, each node's parts where they stood.
pub fn numbering_keeps_layouts()
    ensures { (image : List ℕ) (tree : Tree) (p : Placement) → LaysOut image tree p
        → LaysOut image (numbered tree) (numbered_placement tree p) }
{}

/// The fresh file with its end moved behind 246 bytes that nothing names is not sound.
pub fn stray_bytes_are_refused()
    ensures { IsSound (take 146 (fresh_text false) ++ codes "0000000002F5"
        ++ drop 158 (fresh_text false) ++ replicate 246 65) → ⊥ }
{}
