//! Laws of how files stand after openings and groups of edits, and of the causes of refusals. No
//! function here does anything: its contract is the law.

ghost use Rattle.std.specs.Prelude.{◌≡◌, ◌≢◌, ◌⊎◌, IsTrue, [], ℕ, Bool, List, length, false, slice_get, Option, Some, None, Result, Ok, Err};
ghost use Rattle.adf_format.specs.Tree.{Tree};
ghost use Rattle.adf_format.specs.Placement.{Placement};
ghost use Rattle.adf_format.specs.HeapRule.{LimitReached, place_edit};
ghost use Rattle.adf_model.specs.declared.error.AdfError.{AdfError};
ghost use Rattle.adf_model.specs.declared.error.EditError.{EditError};
ghost use Rattle.adf_model.specs.declared.tree.Edit.{Edit};
ghost use Rattle.adf_model.specs.declared.tree.NodeId.{NodeId};
ghost use Rattle.adf_model.specs.Tests.{first_refusal};
ghost use Rattle.adf_model.specs.Calls.{edit_group};
ghost use Rattle.adf_model.specs.Edits.{apply, file_tests_at_entry, file_step, named_nodes};
ghost use Rattle.adf_model.specs.Placing.{placed_as};
ghost use Rattle.adf_model.specs.Slots.{Standing, Files, Devices, device_at, standings, slot_at, is_gone, names_there, number_of, entry_files};
ghost use Rattle.adf_model.specs.Counts.{Rose};
ghost use Rattle.adf_model.specs.Steps.{WriteFailed, Opening, close_tests, open_tests, IsEdit, IsFileRefusal, IsLineError, Call, Opened, Closed, Discarded, Step, Misread};
ghost use Rattle.adf_model.specs.Causes.{OpensStanding, HasOpenCause, standing_by, OpenedAnyway, MovesStanding, ClosedAnyway, DiscardedAnyway, GroupLeaves, Anyway, may_refuse_edit};
ghost use Rattle.adf_model.specs.NamedRules.{NamesRules};

/// A done opening changes how its own file stands alone, a refused one changes none; and what may be
/// answered over devices that tell is so in any case.
pub fn openings_stand()
    ensures refused { (opening : Opening) (number one : ℕ) (error : AdfError) (before after : Files)
        → OpensStanding opening number (Err error) before after →
        slice_get (standings after) one ≡ slice_get (standings before) one }
    ensures others { (opening : Opening) (number one : ℕ) (result : Result Unit AdfError)
        (before after : Files) → OpensStanding opening number result before after → one ≢ number →
        slice_get (standings after) one ≡ slice_get (standings before) one }
    ensures done { (opening : Opening) (number : ℕ) (before after : Files)
        → OpensStanding opening number (Ok tt) before after
        → is_gone (slot_at before number) ≡ false →
        slice_get (standings after) number ≡ Some (standing_by opening) }
    ensures told { (files after : Files) (before now : Devices) (number limit : ℕ)
        (opening : Opening) (result : Result Unit AdfError) →
        Step files before (Opened number opening limit result) now after
        → OpenedAnyway files before number opening result now after }
{}

/// Also over devices that tell nothing an opening answers a failed read or write only where a count of
/// the file's own device rose, so not since the device is of another length than before; and no error
/// that an opening cannot have.
pub fn openings_have_causes()
    ensures silent { (files : Files) (number : ℕ) (opening : Opening) (before now : Devices)
        (result : Result Unit AdfError)
        → (Rose (device_at before number).faults (device_at now number).faults → ⊥) →
        HasOpenCause files number opening before now result
        → (result ≢ Err AdfError.ReadFault) × (result ≢ Err AdfError.WriteFault) }
    ensures no_room { (files : Files) (number : ℕ) (opening : Opening) (before now : Devices)
        (asked end : ℕ)
        → HasOpenCause files number opening before now (Err (AdfError.Full asked end)) → ⊥ }
    ensures no_node { (files : Files) (number : ℕ) (opening : Opening) (before now : Devices)
        → HasOpenCause files number opening before now (Err AdfError.NoSuchNode) → ⊥ }
    ensures no_other_file { (files : Files) (number : ℕ) (opening : Opening) (before now : Devices)
        → HasOpenCause files number opening before now (Err AdfError.OtherFile) → ⊥ }
{}

/// What a closing and a discarding over devices that tell may answer and leave, they may in any case;
/// and neither lacks memory.
pub fn closings_stand()
    ensures closed { (files after : Files) (before now : Devices) (number : ℕ)
        (result : Result Unit AdfError) → Step files before (Closed number result) now after
        → ClosedAnyway files before number result now after }
    ensures discarded { (files after : Files) (before now : Devices) (number : ℕ)
        (result : Result Unit AdfError) → Step files before (Discarded number result) now after
        → DiscardedAnyway files before number result now after }
    ensures close_has_memory { (files after : Files) (number : ℕ)
        → MovesStanding (close_tests files number) Standing.Closed number
        (Err AdfError.Memory) files after → ⊥ }
    ensures discard_has_memory { (files after : Files) (number : ℕ)
        → MovesStanding (open_tests files number) Standing.Absent number
        (Err AdfError.Memory) files after → ⊥ }
{}

/// After a failed write the one file stands failed whose device rose in writes, and no other changes;
/// where no write failed, none changes. What may be answered over devices that tell leaves the files so.
pub fn groups_stand()
    ensures failed { (at : ℕ) (files after : Files) (before now : Devices) (edits : List Edit)
        → GroupLeaves {A = List NodeId} (Err (record { at = at; error = AdfError.WriteFault }))
        files before edits now after →
        (number : ℕ) × Rose (device_at before number).writes (device_at now number).writes
        × (slice_get (standings after) number ≡ Some Standing.Failed)
        × ((one : ℕ) → one ≢ number → slice_get (standings after) one
        ≡ slice_get (standings files) one) }
    ensures others { (result : Result (List NodeId) EditError) (files after : Files)
        (before now : Devices) (edits : List Edit) →
        ((number : ℕ) → WriteFailed (device_at before number) (device_at now number) → ⊥)
        → GroupLeaves result files before edits now after → standings after ≡ standings files }
    ensures told { (files after : Files) (before now : Devices) (edits : List Edit)
        (result : Result (List NodeId) EditError) → IsEdit files before edits result now after
        → GroupLeaves result files before edits now after }
    ensures names { (files after : Files) (before now : Devices) (edits : List Edit)
        (result : Result (List NodeId) EditError) → IsEdit files before edits result now after
        → names_there after ≡ names_there files }
{}

/// One file refuses an edit first by its entry; and one that its tree does not refuse only for want
/// of memory, for a failed read, or where the heap rule refuses its take.
pub fn one_file_refuses()
    ensures entry { (broken writable : Bool) (limit : ℕ) (tree : Tree) (p : Placement) (edit : Edit)
        (first error : AdfError) →
        first_refusal (file_tests_at_entry broken tree (named_nodes edit)) ≡ Some first
        → IsFileRefusal broken writable limit tree p edit error
        → (error ≡ AdfError.Memory) ⊎ (error ≡ first) }
    ensures passed { (writable : Bool) (limit : ℕ) (tree after : Tree) (p : Placement) (edit : Edit)
        (error : AdfError) →
        file_step writable tree edit ≡ Ok after
        → IsFileRefusal false writable limit tree p edit error →
        (error ≡ AdfError.Memory) ⊎ ((error ≡ AdfError.ReadFault)
        ⊎ ((full : LimitReached) × (error ≡ AdfError.Full full.asked full.end)
        × (place_edit limit tree after (placed_as edit) p ≡ Err full))) }
{}

/// A line that is no call is refused for one of three reasons, and changes nothing.
pub fn lines_change_nothing()
    ensures errors { (error : AdfError) → IsLineError error
        → (error ≡ AdfError.Memory) ⊎ ((error ≡ AdfError.Syntax) ⊎ (error ≡ AdfError.LineTooLong)) }
    ensures misread { (files after : Files) (before now : Devices) (error : AdfError)
        → Step files before (Misread error) now after → (now ≡ before) × (after ≡ files) }
{}

/// The names that stand on a shelf are found under their numbers, and no others.
pub fn shelves_by_name()
    ensures none { (name : List ℕ) → (entry_files [] ≡ [])
        × (number_of (entry_files []) name ≡ None) }
    ensures count { (names : List (Option (List ℕ))) → length (entry_files names) ≡ length names }
    ensures found { (names : List (Option (List ℕ))) (name : List ℕ) (number : ℕ)
        → number_of (entry_files names) name ≡ Some number
        → slice_get names number ≡ Some (Some name) }
    ensures all { (names : List (Option (List ℕ))) (name : List ℕ) (number : ℕ)
        → slice_get names number ≡ Some (Some name) → number_of (entry_files names) name ≢ None }
{}

/// A refusal that names a rule of the layout names one that there is, whether devices tell or not.
pub fn refusals_name_rules()
    ensures { (files after : Files) (before now : Devices) (call : Call)
        → Anyway files before call now after → NamesRules call }
{}

/// An edit is refused with an error that its kind may have, alone and in a group.
pub fn edits_have_causes()
    ensures alone { (tree : Tree) (edit : Edit) (error : AdfError) → apply tree edit ≡ Err error
        → IsTrue (may_refuse_edit edit error) }
    ensures grouped { (files : Files) (edits : List Edit) (refusal : EditError) (edit : Edit)
        → edit_group files edits ≡ Err refusal → slice_get edits refusal.at ≡ Some edit →
        IsTrue (may_refuse_edit edit refusal.error) }
{}
