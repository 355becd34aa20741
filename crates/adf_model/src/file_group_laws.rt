//! Laws of a group of edits on one open file by itself. No function here does anything: its contract is
//! the law.

ghost use Rattle.std.specs.Prelude.{◌≡◌, ◌⊎◌, ℕ, false, List, [], ◌∷◌, Result, Ok, Err};
ghost use Rattle.adf_model.specs.declared.error.AdfError.{AdfError};
ghost use Rattle.adf_model.specs.declared.error.EditError.{EditError};
ghost use Rattle.adf_model.specs.declared.tree.Edit.{Edit};
ghost use Rattle.adf_model.specs.declared.tree.NodeId.{NodeId};
ghost use Rattle.adf_model.specs.Slots.{Slot, Standing, Device, Open};
ghost use Rattle.adf_model.specs.Slots.Slot.{Live};
ghost use Rattle.adf_model.specs.Steps.{OnlyRead, WriteFailed};
ghost use Rattle.adf_model.specs.Counts.{Rose};
ghost use Rattle.adf_model.specs.FileGroup.{is_of_many_files, IsFileGroup, FileGroupAnyway};

/// A group without edits is answered at once, on a broken file too; and a broken file refuses the first
/// edit of any other.
pub fn few_edits_and_broken_files()
    ensures empty { (slot after : Slot) (before now : Device)
        (result : Result (List NodeId) EditError) → IsFileGroup slot before [] result now after →
        (result ≡ Ok []) × (after ≡ slot) × OnlyRead before now }
    ensures broken { (after : Slot) (before now : Device) (edit : Edit) (edits : List Edit)
        (result : Result (List NodeId) EditError)
        → IsFileGroup Slot.Broken before (edit ∷ edits) result now after →
        (result ≡ Err (record { at = 0; error = AdfError.Broken }))
        ⊎ (result ≡ Err (record { at = 0; error = AdfError.Memory })) }
{}

/// A file is left as it was by each refusal but that of a failed write, after which it is broken; and it
/// is answered of faults under its own counts.
pub fn file_groups_have_causes()
    ensures stays { (opened : Open) (after : Slot) (before now : Device) (edits : List Edit)
        (at : ℕ) (error : AdfError)
        → IsFileGroup (Live opened) before edits (Err (record { at = at; error = error })) now after
        →
        (error ≡ AdfError.WriteFault) ⊎ ((after ≡ Live opened) × OnlyRead before now) }
    ensures breaks { (opened : Open) (after : Slot) (before now : Device) (edits : List Edit)
        (at : ℕ) → IsFileGroup (Live opened) before edits
        (Err (record { at = at; error = AdfError.WriteFault })) now after →
        (after ≡ Slot.Broken) × WriteFailed before now }
    ensures reads { (opened : Open) (after : Slot) (before now : Device) (edits : List Edit)
        (at : ℕ) → IsFileGroup (Live opened) before edits
        (Err (record { at = at; error = AdfError.ReadFault })) now after →
        Rose before.faults now.faults }
    ensures silent { (standing after : Standing) (before now : Device) (edits : List Edit) (at : ℕ)
        → FileGroupAnyway standing before edits
        (Err (record { at = at; error = AdfError.ReadFault })) now after →
        Rose before.faults now.faults }
    ensures own { (standing after : Standing) (before now : Device) (edits : List Edit) (at : ℕ)
        (error : AdfError)
        → FileGroupAnyway standing before edits (Err (record { at = at; error = error })) now after
        →
        is_of_many_files error ≡ false }
{}
