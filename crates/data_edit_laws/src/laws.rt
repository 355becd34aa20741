//! Laws of the edits of data. Each is the contract of a function that does nothing: who calls it has the law.

ghost use Rattle.data_edit_laws.specs.Settled.{SetDimsSettles, PutAllSettles, PutPartSettles};

/// A shape that is set, and data that are put, whole: from all that was written, in whatever order, and from what became of
/// the room of the data.
pub fn data_settle()
    ensures shape { SetDimsSettles }
    ensures all { PutAllSettles }
    ensures part { PutPartSettles }
{}
