//! Deletions: what they leave of the tree, their switch, and the gifts that end them.

ghost use Rattle.tree_laws.specs.Entries.{NodesAreErased};
ghost use Rattle.tree_laws.specs.SerialOrder.{GivenBySerial, SortedWalkIsSubtree};
ghost use Rattle.tree_laws.specs.Deletions.{DeletedInItsTree, WalksListSubtrees, DeletedAbove};
ghost use Rattle.tree_laws.specs.Gifts.{TakenInAnyOrder, GiftsEnd, DeletedAreTaken, DeletionEnds};

/// A node and all below it are taken out where the entries behind its own move up and the count falls:
/// the file holds the tree without them, and their parts are taken.
pub fn nodes_leave()
    ensures { NodesAreErased }
{}

/// A deletion leaves the serials, the lineages, names, parents and depths of all nodes that are not below the node, and of
/// these all but the parent whole; a walk down from a node meets its subtree, each node once.
pub fn deletions_in_their_tree()
    ensures tree { DeletedInItsTree }
    ensures above { DeletedAbove }
    ensures walks { WalksListSubtrees }
{}

/// Ranges that were taken are none's once they are given; those of a deletion in the order of the heap's rule, which puts
/// the tree where the file then holds it.
pub fn gifts_end()
    ensures order { TakenInAnyOrder }
    ensures gifts { GiftsEnd }
    ensures taken { DeletedAreTaken }
    ensures ends { DeletionEnds }
{}

/// What a deletion gives are the parts of the nodes of the subtree, by serial; a sorted walk down from a node is its
/// subtree.
pub fn gifts_go_by_serial()
    ensures given { GivenBySerial }
    ensures sorted { SortedWalkIsSubtree }
{}
