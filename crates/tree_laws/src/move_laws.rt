//! Moves: what they leave of the tree, the switch of their writes, and their plans.

ghost use Rattle.tree_laws.specs.Moving.{MovesLast, MovesOver, MovesLastLonger, MovesOverLonger, ByLast, ByOver, ByLastLonger, ByOverLonger, LeavesMoved, HasRoom, PlansMove, DeepestDecides, MovedInItsTree};

/// A node that is moved leaves its parent's list and joins another's as its last, and all below it goes with
/// it: what stays of the tree, and what changes.
pub fn moved_in_its_tree()
    ensures { MovedInItsTree }
{}

/// A node is moved by one switch of the writes: its entry leaves one table, which is closed up, and joins
/// another as the last, or goes to the end of its own; a table that was full has been replaced by a longer one.
pub fn nodes_move()
    ensures over { MovesOver }
    ensures last { MovesLast }
    ensures over_longer { MovesOverLonger }
    ensures last_longer { MovesLastLonger }
    ensures over_leaves { ByOver LeavesMoved }
    ensures last_leaves { ByLast LeavesMoved }
    ensures over_longer_leaves { ByOverLonger LeavesMoved }
    ensures last_longer_leaves { ByLastLonger LeavesMoved }
{}

/// The plan of a move, and the tables that it finds: a node with a child has one, and where entries and
/// children differ in number an entry is unused. The deepest node of a subtree decides whether that fits.
pub fn moves_are_planned()
    ensures fits { DeepestDecides }
    ensures room { HasRoom }
    ensures plan { PlansMove }
{}
