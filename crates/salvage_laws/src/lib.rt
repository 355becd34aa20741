//! Laws of the sound part of a damaged file. Each is the contract of a function that does nothing: who calls it has the law.

#![tactic(auto)]

ghost use Rattle.std.specs.Prelude.{◌≡◌, ℕ, ◌+◌, ◌<◌, List, [], ◌∷◌, ◌++◌, length, reverse, slice_get, Some, None};
ghost use Rattle.adf_format.specs.Checks.{Fault, first_broken};
ghost use Rattle.adf_format.specs.FirstFault.{Visit, children_in, table_in};
ghost use Rattle.adf_format.specs.SoundPart.{IsSoundPart, names_to, entry_names, tree_of};
ghost use Rattle.adf_format.specs.Tree.{IsTree};
ghost use Rattle.layout_laws.specs.NodePass.{Waiting, AreMet, waiting_children};
ghost use Rattle.salvage_laws.specs.Surveys.{IsSurveying, NodeSurvey, rows_of, waiting_root, visits_of};

/// A stack of nodes, the next one last, leads through the survey of a damaged file: the root waits at first, a node that
/// breaks no rule is kept and its children wait in its place, and one that breaks a rule is left out. Where none waits, the
/// nodes that were kept and those that were left out are what the survey finds.
pub fn over_damaged_nodes()
    ensures start { (image : List ℕ) → IsSurveying image (waiting_root image ∷ []) [] [] [] }
    ensures keeps { (image : List ℕ) (stack : List Waiting) (m : Waiting) (kept out : List Waiting)
        (left : List (Visit × Fault)) → IsSurveying image (stack ++ m ∷ []) kept out left
        → first_broken (rows_of image kept m) ≡ None
        → IsSurveying image (stack ++ reverse (waiting_children image (table_in image m.place)
        (length kept) (m.depth + 1) (children_in image m.place))) (kept ++ m ∷ []) out left }
    ensures omits { (image : List ℕ) (stack : List Waiting) (m : Waiting) (kept out : List Waiting)
        (left : List (Visit × Fault)) (fault : Fault)
        → IsSurveying image (stack ++ m ∷ []) kept out left
        → first_broken (rows_of image kept m) ≡ Some fault
        → (v : Visit) × IsSurveying image stack kept (out ++ m ∷ []) (left ++ (v, fault) ∷ []) }
    ensures ended { (image : List ℕ) (kept out : List Waiting) (left : List (Visit × Fault))
        → IsSurveying image [] kept out left
        → (seen : List Visit) × NodeSurvey image (seen, left) × AreMet seen kept seen
        × AreMet seen out (visits_of left) }
{}

/// The nodes that are kept of a damaged file stand in tree order; so the names on the way to a child of one are those on the
/// way to that node, and that of its own entry. None leads to the root.
pub fn names_lead()
    ensures child { (image : List ℕ) (kept : List Visit) (left : List (Visit × Fault)) (k i : ℕ)
        (parent child : Visit) → NodeSurvey image (kept, left) → slice_get kept k ≡ Some parent
        → child.path ≡ parent.path ++ i ∷ []
        → names_to kept child ≡ names_to kept parent ++ entry_names child.entry }
    ensures root { (kept : List Visit) (v : Visit) → v.path ≡ [] → v.entry ≡ None
        → names_to kept v ≡ [] }
{}

/// The nodes that are kept of a damaged file, unless the root is left out, make a tree.
pub fn kept_nodes_make_a_tree()
    ensures { (image : List ℕ) (kept : List Visit) (left : List (Visit × Fault))
        → IsSoundPart image kept left → 0 < length kept → IsTree (tree_of image kept) }
{}
