//! Labels, names, new nodes and links: from what is written to the tree that the file then holds, and the plans of edits.

ghost use Rattle.tree_laws.specs.Entries.{NameWritten, LabelWritten, LabelIsSet, NameIsSet, EntryJoins, TableJoins};
ghost use Rattle.tree_laws.specs.Plans.{PlansCreate, PlansOthers, ParentsByLineage};
ghost use Rattle.tree_laws.specs.Tables.{TableIsReplaced};
ghost use Rattle.tree_laws.specs.EditsPlaced.{LinkEnds, LinkEndsFull};
ghost use Rattle.tree_laws.specs.NodeJoin.{NodeJoins, NodeJoinsTable, LinkIsHeld};

/// Where a text of a node's header is written, the header says it, and all else as before.
pub fn node_texts_written()
    ensures name { NameWritten }
    ensures label { LabelWritten }
{}

/// A label that is written in a node's header is the node's in the tree that the file then holds.
pub fn labels_are_set()
    ensures { LabelIsSet }
{}

/// A name that is written in a node's header and in its entry of the parent's table is the node's in the
/// tree that the file then holds.
pub fn names_change()
    ensures { NameIsSet }
{}

/// A node whose header stands in a range that was taken joins the children of another, in an unused
/// entry of its table.
pub fn entries_join()
    ensures { EntryJoins }
{}

/// A node and a longer table, both in ranges that were taken, join a parent: the old table is taken
/// from then on.
pub fn tables_join()
    ensures { TableJoins }
{}

/// A node that stands whole in ranges that were taken joins the children of another, in an unused entry of its table, or
/// with a longer table.
pub fn nodes_join()
    ensures entry { NodeJoins }
    ensures table { NodeJoinsTable }
{}

/// Where its header and its one chunk stand, a link is held.
pub fn links_are_held()
    ensures { LinkIsHeld }
{}

/// A link whose header and chunk stand in ranges that were taken joins its parent: the file holds the tree where the rule
/// of the heap puts it.
pub fn links_end()
    ensures entry { LinkEnds }
    ensures full { LinkEndsFull }
{}

/// The placement of an edit is its plan, and the gifts of that; a table that is replaced by a longer one of the
/// same entries is taken; who stands above a node is the second of its lineage.
pub fn plans_and_parents()
    ensures plans { PlansOthers }
    ensures creates { PlansCreate }
    ensures table { TableIsReplaced }
    ensures parents { ParentsByLineage }
{}
