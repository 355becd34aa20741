//! What each step of an edit leaves as it was: parts with their bytes, the head, dimensions, and the bytes behind the end.

ghost use Rattle.tree_laws.specs.Steps.{StepsLeave, MoreLeaves};
ghost use Rattle.tree_laws.specs.Moving.{LongerLeaves};
ghost use Rattle.tree_laws.specs.LeavingSteps.{LeavesBySparing, TakeLeaves, TakenLeaves, GiftsLeave, DataLeaves, DeletionLeaves, JoinLeaves, TableJoinLeaves};
ghost use Rattle.tree_laws.specs.Parting.{SameParts, NewParts, TableParts, ErasedParts, PartsGoOn, MorePart};
ghost use Rattle.tree_laws.specs.Tails.{TailStays, TailsGoOn, WrittenTail, TakenTail, GivenTail, EndsRise, OneMoreTail};

/// Steps one after another leave what each of them leaves, and more may be excepted.
pub fn steps_leave_parts()
    ensures steps { StepsLeave }
    ensures more { MoreLeaves }
{}

/// A step whose ranges spare all but some parts leaves all but these: a take, a write into what was taken and gifts leave
/// all, and a change of data all but the node's header and data.
pub fn sparing_steps_leave()
    ensures by { LeavesBySparing }
    ensures take { TakeLeaves }
    ensures taken { TakenLeaves }
    ensures gifts { GiftsLeave }
    ensures data_edits { DataLeaves }
{}

/// A change of a node's list leaves all but its header and its table: a node that joins, and a longer table; a deletion
/// leaves all but these and the parts of the nodes that are gone.
pub fn list_steps_leave()
    ensures deletion { DeletionLeaves }
    ensures join { JoinLeaves }
    ensures table { TableJoinLeaves }
    ensures longer { LongerLeaves }
{}

/// A new node, another table and nodes that are gone keep all other parts.
pub fn parts_are_kept()
    ensures same { SameParts }
    ensures new { NewParts }
    ensures table { TableParts }
    ensures gone { ErasedParts }
    ensures steps { PartsGoOn }
    ensures more { MorePart }
{}

/// The bytes behind the end of a file stay over the steps of an edit, and over edits one after another.
pub fn tails_stay()
    ensures same { TailStays }
    ensures steps { TailsGoOn }
    ensures written { WrittenTail }
    ensures taken { TakenTail }
    ensures given { GivenTail }
    ensures ends { EndsRise }
    ensures more { OneMoreTail }
{}
