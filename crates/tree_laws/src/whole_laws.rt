//! Edits from their tests to what they leave: each step of an edit on its way, and what follows at its end from the ranges that were written.

ghost use Rattle.tree_laws.specs.MidEdit.{MidBegins, MidGives, MidGoesOn, MidSwitches, MidTakes, MidWrites};
ghost use Rattle.tree_laws.specs.Spared.{MidEnds, RestIsLeft};
ghost use Rattle.tree_laws.specs.WholeData.{PutAllIsWhole, PutPartIsWhole, SetDimsIsWhole};
ghost use Rattle.tree_laws.specs.WholeGroups.{WholeGroupBegins, WholeGroupGoesOn};
ghost use Rattle.tree_laws.specs.WholeEdits.{CreateIsWhole, CreateIsWholeFull, DeleteIsWhole, LabelIsWhole, LinkIsWhole, LinkIsWholeFull, MoveIsWhole, MoveIsWholeFull, MoveLastIsWhole, MoveLastIsWholeFull, RenameIsWhole};

/// The steps of an edit on its way: from a layout on, takes of the heap, writes into what was taken, nodes that change, and
/// gifts. All that is written lies in the heap's fields, in the gaps that the edit found, behind the end and in its own ranges.
pub fn edits_on_their_way()
    ensures begins { MidBegins }
    ensures goes_on { MidGoesOn }
    ensures takes { MidTakes }
    ensures writes { MidWrites }
    ensures switches { MidSwitches }
    ensures gives { MidGives }
{}

/// What is written in ranges that spare what an edit leaves, in gaps and behind the end leaves all parts that are not
/// touched, the head, dimensions and unused entries, and the bytes behind the end: so an edit is done where nothing is taken.
pub fn edits_end()
    ensures rest { RestIsLeft }
    ensures done { MidEnds }
{}

/// Labels and names, whole: what is written makes the edit, and leaves the rest.
pub fn texts_are_whole()
    ensures label { LabelIsWhole }
    ensures name { RenameIsWhole }
{}

/// A node that is created, whole: with an unused entry of its parent's table, or with a longer table.
pub fn creations_are_whole()
    ensures entry { CreateIsWhole }
    ensures full { CreateIsWholeFull }
{}

/// A node that is deleted with all below it, whole: from the entries that move up to the last gift.
pub fn deletions_are_whole()
    ensures { DeleteIsWhole }
{}

/// A node that is moved, whole: to another parent, or to the end of its own list; where the table of its new parent has an
/// unused entry, or with a longer table.
pub fn moves_are_whole()
    ensures over { MoveIsWhole }
    ensures last { MoveLastIsWhole }
    ensures over_full { MoveIsWholeFull }
    ensures last_full { MoveLastIsWholeFull }
{}

/// A link, whole: with an unused entry of its parent's table, or with a longer table.
pub fn links_are_whole()
    ensures entry { LinkIsWhole }
    ensures full { LinkIsWholeFull }
{}

/// A shape that is set, and data that are put, whole: in new chunks, in the old ones, in one more, or in none.
pub fn data_are_whole()
    ensures shape { SetDimsIsWhole }
    ensures all { PutAllIsWhole }
    ensures part { PutPartIsWhole }
{}

/// A loop over the edits of a group, turn by turn: what they leave together.
pub fn groups_are_whole()
    ensures begins { WholeGroupBegins }
    ensures turn { WholeGroupGoesOn }
{}
