//! Laws of what a write beside the heap leaves. Each is the contract of a function that does nothing: who calls it has the law.
ghost use Rattle.file_heap.specs.Beside.{ListsStay, EndStays, FillersStay};

/// A write beside the lists of free chunks, beside the end pointer or beside the fillers leaves these.
#[tactic(auto, using(crate::proofs::Beside::all_lists_stay, crate::proofs::Beside::ends_stay, crate::proofs::Beside::all_fillers_stay))]
pub fn beside()
    ensures lists { ListsStay }
    ensures end { EndStays }
    ensures fillers { FillersStay }
{}
