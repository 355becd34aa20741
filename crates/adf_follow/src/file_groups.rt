//! A group of edits on one open file by itself, among many files. No function here does anything: its
//! contract is the law.

ghost use Rattle.std.specs.Prelude.{◌≡◌, ℕ, true, List, [], Some, Result, IfErr};
ghost use Rattle.std.specs.List.{AllByRecursion};
ghost use Rattle.adf_format.specs.Tree.{IsTree};
ghost use Rattle.adf_model.specs.declared.error.EditError.{EditError};
ghost use Rattle.adf_model.specs.declared.tree.Edit.{Edit};
ghost use Rattle.adf_model.specs.declared.tree.NodeId.{NodeId};
ghost use Rattle.adf_model.specs.Slots.{Slot, Files, Devices, slot_at, is_open, standing_of, device_at, with_slot};
ghost use Rattle.adf_model.specs.Slots.Slot.{Live};
ghost use Rattle.adf_model.specs.Steps.{OthersOnlyRead, OthersStayPlaced, IsLaidOutAt, Changed, Step};
ghost use Rattle.adf_model.specs.Runs.{EditsTold};
ghost use Rattle.adf_model.specs.OneFile.{StandsIn};
ghost use Rattle.adf_model.specs.Causes.{ChangedAnyway};
ghost use Rattle.adf_model.specs.FileGroup.{IsFileGroup, FileGroupAnyway};
ghost use Rattle.adf_follow.specs.Groups.{IsOfKind};

/// What one open file may answer to a group of edits of its own nodes that meets no link, and then leave
/// of itself and its device, is a step of the model over many files, where the other devices are not
/// written and their parts stay.
pub fn file_groups_are_steps()
    ensures { (files : Files) (before now : Devices) (edits : List Edit)
        (result : Result (List NodeId) EditError) (slot : Slot)
        (told : EditsTold files before edits) → IsTree told.opened.tree → IsLaidOutAt
        (Live told.opened) (device_at before told.number) → OthersOnlyRead (Some told.number) before
        now → OthersStayPlaced (Some told.number) before now → IsFileGroup (Live told.opened)
        (device_at before told.number) edits result (device_at now told.number) slot → Step files
        before (Changed edits result) now (with_slot files told.number slot) }
{}

/// And whether its device tells or not: what the file may answer and leave in any case, the files may,
/// where it is open, where a group without edits leaves its parts, and where a refusal names a rule of
/// the layout and is of the kind of its edit.
pub fn file_groups_hold_anyway()
    ensures { (files : Files) (before now : Devices) (number : ℕ) (edits : List Edit)
        (result : Result (List NodeId) EditError) (slot : Slot) → is_open (slot_at files number)
        ≡ true → AllByRecursion (StandsIn number) edits → OthersOnlyRead (Some number) before now
        → OthersStayPlaced (Some number) before now → (edits ≡ [] → (device_at now number).placement
        ≡ (device_at before number).placement) → FileGroupAnyway
        (standing_of (slot_at files number)) (device_at before number) edits result
        (device_at now number) (standing_of slot) → IfErr result (IsOfKind edits) → ChangedAnyway
        files before edits result now (with_slot files number slot) }
{}
