//! Laws of what an edit makes of a tree. No function here does anything: its contract is the law.

ghost use Rattle.std.specs.Prelude.{◌≡◌, ◌≢◌, suc, ◌∷◌, ◌++◌, [], true, Ok, Some, List, ℕ};
ghost use Rattle.adf_format.specs.Tree.{Tree, IsTree, node_at, is_live, children_at, lineage, depth_of, next_serial};
ghost use Rattle.adf_model.specs.declared.tree.Edit.{Edit};
ghost use Rattle.adf_model.specs.declared.tree.NodeId.{NodeId};
ghost use Rattle.adf_model.specs.Edits.{IsReached, apply, new_node};

/// A created child has the next serial, is the last child of its parent and stands one step below it. All
/// other nodes are as before, and so is who stands above whom.
pub fn created_child_in_its_tree()
    ensures serial { (tree after : Tree) (at : NodeId) (name label : List ℕ) → IsTree tree
        → IsReached tree (Edit.Create at name label)
        → apply tree (Edit.Create at name label) ≡ Ok after →
        next_serial after ≡ suc (next_serial tree) }
    ensures node { (tree after : Tree) (at : NodeId) (name label : List ℕ) → IsTree tree
        → IsReached tree (Edit.Create at name label)
        → apply tree (Edit.Create at name label) ≡ Ok after →
        node_at after (next_serial tree) ≡ Some (new_node name label) }
    ensures last { (tree after : Tree) (at : NodeId) (name label : List ℕ) → IsTree tree
        → IsReached tree (Edit.Create at name label)
        → apply tree (Edit.Create at name label) ≡ Ok after →
        children_at after at.serial ≡ children_at tree at.serial ++ next_serial tree ∷ [] }
    ensures others { (tree after : Tree) (at : NodeId) (name label : List ℕ) → IsTree tree
        → IsReached tree (Edit.Create at name label)
        → apply tree (Edit.Create at name label) ≡ Ok after →
        (k : ℕ) → k ≢ at.serial → k ≢ next_serial tree → node_at after k ≡ node_at tree k }
    ensures above { (tree after : Tree) (at : NodeId) (name label : List ℕ) → IsTree tree
        → IsReached tree (Edit.Create at name label)
        → apply tree (Edit.Create at name label) ≡ Ok after →
        (k : ℕ) → is_live tree k ≡ true → lineage after k ≡ lineage tree k }
    ensures parent { (tree after : Tree) (at : NodeId) (name label : List ℕ) → IsTree tree
        → IsReached tree (Edit.Create at name label)
        → apply tree (Edit.Create at name label) ≡ Ok after →
        lineage after (next_serial tree) ≡ next_serial tree ∷ lineage tree at.serial }
    ensures depth { (tree after : Tree) (at : NodeId) (name label : List ℕ) → IsTree tree
        → IsReached tree (Edit.Create at name label)
        → apply tree (Edit.Create at name label) ≡ Ok after →
        depth_of after (next_serial tree) ≡ suc (depth_of tree at.serial) }
{}
