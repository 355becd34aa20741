//! Laws of the trees that a walk over an image finds. No function here does anything: its contract is
//! the law.

ghost use Rattle.std.specs.Prelude.{ℕ, List};
ghost use Rattle.adf_format.specs.Tree.{IsTree, IsNumbered};
ghost use Rattle.adf_format.specs.FirstFault.{Visit, FreeVisit, HasNoFault};
ghost use Rattle.adf_format.specs.SoundPart.{tree_of};

/// The nodes that are found in an image that breaks no rule make a tree, numbered in tree order.
pub fn walks_find_trees()
    ensures { (image : List ℕ) (nodes : List Visit) (frees : List FreeVisit)
        → HasNoFault image nodes frees → IsTree (tree_of image nodes)
        × IsNumbered (tree_of image nodes) }
{}
