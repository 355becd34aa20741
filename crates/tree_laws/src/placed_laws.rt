//! Edits that are placed by the heap's rule: what they do to the heap, and that all goes on tiling the file.

ghost use Rattle.tree_laws.specs.Pays.{EditPays};
ghost use Rattle.tree_laws.specs.Placed.{EditTakesThenGives, EditStaysPlaced, GroupStaysPlaced};

/// All takes of an edit come before its gives: what nodes have is afterwards what they had, with what was taken and without
/// what was given.
pub fn edits_take_then_give()
    ensures { EditTakesThenGives }
{}

/// After an edit the parts and the gaps tile the file, the gaps stand in order, no pair of gaps that touch is added, and
/// the end has not fallen; and so after each edit of a group.
pub fn edits_stay_placed()
    ensures edit { EditStaysPlaced }
    ensures group { GroupStaysPlaced }
{}

/// The takes, the gifts and the texts of an edit let at most as many blocks wait to be written as the edit costs, where a
/// take lets nine wait and a gift twelve.
pub fn edits_pay()
    ensures { EditPays }
{}
