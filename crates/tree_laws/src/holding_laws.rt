//! What a file holds in the midst of an edit, over each of its steps: a tree, and ranges that are taken and that no node uses.

ghost use Rattle.tree_laws.specs.Steps.{LayoutsHold, HeldLayouts, NodesChange, HeapMoves, HeapTakes, HeapGives, TakenIsFree};

/// A layout is a file in which nothing is taken.
pub fn layouts_take_nothing()
    ensures from { LayoutsHold }
    ensures to { HeldLayouts }
{}

/// Where some nodes change, and their new bytes stand, the file holds the tree with these.
pub fn nodes_change()
    ensures { NodesChange }
{}

/// Where the heap takes a range or is given one, the file holds its tree as before.
pub fn heap_moves()
    ensures { HeapMoves }
{}

/// A range that the heap takes is taken, and one that it is given is none's.
pub fn heap_calls()
    ensures takes { HeapTakes }
    ensures gives { HeapGives }
{}

/// What is written into ranges that are taken changes nothing of what the file holds.
pub fn taken_is_free()
    ensures { TakenIsFree }
{}
