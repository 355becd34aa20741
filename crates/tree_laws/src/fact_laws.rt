//! What edits leave of the tree, as a table of the nodes needs it: who is live, who stands above whom, and which serial is
//! drawn next. Deletions and moves have laws of their own.

ghost use Rattle.tree_laws.specs.TreeFacts.{ChangedInItsTree, JoinedInItsTree, SerialsAreDrawn};

/// A name, a label, a shape or data change one node in its place, and all stand where they stood.
pub fn changed_in_their_tree()
    ensures { ChangedInItsTree }
{}

/// A node that is created, with data or without, has the next serial, is the last child of its parent and stands one step
/// below it; all others stand where they stood.
pub fn joined_in_their_tree()
    ensures { JoinedInItsTree }
{}

/// An edit draws the next serial for each node that it makes, and no other.
pub fn serials_are_drawn()
    ensures { SerialsAreDrawn }
{}
