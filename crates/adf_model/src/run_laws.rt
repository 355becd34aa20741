//! Laws of the states of a run. No function here does anything: its contract is the law.

ghost use Rattle.std.specs.Prelude.{◌≡◌, ◌⊎◌, ℕ, Bool, List, [], ◌∷◌, ◌++◌, IsSome, Some, Ok, Err, Result};
ghost use Rattle.adf_format.specs.Fresh.{fresh_block, fresh_end, fresh_placement};
ghost use Rattle.adf_model.specs.declared.error.AdfError.{AdfError};
ghost use Rattle.adf_model.specs.declared.tree.Edit.{Edit};
ghost use Rattle.adf_model.specs.Slots.{Open, Files, Devices, slot_at, device_at, open_at, recorded_end, IsToldAt, IsTold};
ghost use Rattle.adf_model.specs.Steps.{AllLaidOut, Call, Opened, Closed, Changed, Fresh, Step};
ghost use Rattle.adf_model.specs.Runs.{Run};

/// In each state of a run the devices tell that told at first, but for those of discarded files; all
/// trees are laid out; and the recorded end of an open file is the end of its parts.
pub fn states_are_laid_out()
    ensures told { (files after : Files) (before now : Devices) (calls : List Call)
        → Run files before calls now after → (number : ℕ) →
        IsToldAt (slot_at files number) (device_at before number)
        → IsToldAt (slot_at after number) (device_at now number) }
    ensures all_told { (files after : Files) (before now : Devices) (calls : List Call)
        → Run files before calls now after → IsTold files before → IsTold after now }
    ensures laid_out { (files after : Files) (before now : Devices) (calls : List Call)
        → Run files before calls now after → AllLaidOut files before → AllLaidOut after now }
    ensures ends { (files after : Files) (before now : Devices) (calls : List Call)
        → Run files before calls now after → AllLaidOut files before →
        (number : ℕ) (opened : Open) → open_at after number ≡ Some opened
        → IsSome (device_at now number).held → recorded_end (device_at now number)
        ≡ (device_at now number).placement.heap.end }
    ensures each { (files after : Files) (before now : Devices) (calls more : List Call)
        → Run files before (calls ++ more) now after →
        (middle : Files) × (between : Devices) × Run files before calls between middle
        × Run middle between more now after }
{}

/// A device that tells holds the first block of a fresh file once one was opened on it; the parts
/// stand where they stand in every fresh file, and so no other end is recorded.
pub fn fresh_files_are_known()
    ensures held { (files after : Files) (before now : Devices) (number limit : ℕ) (wide : Bool)
        → Step files before (Opened number (Fresh wide) limit (Ok tt)) now after →
        IsSome (device_at before number).held → (device_at now number).held
        ≡ Some (fresh_block wide) }
    ensures placed { (files after : Files) (before now : Devices) (number limit : ℕ) (wide : Bool)
        → Step files before (Opened number (Fresh wide) limit (Ok tt)) now after →
        (device_at now number).placement ≡ fresh_placement wide }
    ensures end { (files after : Files) (before now : Devices) (number limit : ℕ) (wide : Bool)
        (calls : List Call)
        → Run files before (Opened number (Fresh wide) limit (Ok tt) ∷ calls) now after →
        AllLaidOut files before → IsSome (device_at before number).held →
        (middle : Files) × (between : Devices)
        × (recorded_end (device_at between number) ≡ fresh_end wide)
        × Run middle between calls now after }
{}

/// A file that was opened as a fresh one, broken by a failed write and closed is not opened as a fresh
/// one again over its bytes.
pub fn no_fresh_file_over_bytes()
    ensures { (files after : Files) (before now : Devices) (number limit more at : ℕ)
        (wide other : Bool) (edits : List Edit) (result : Result Unit AdfError)
        → IsTold files before →
        Run files before (Opened number (Fresh wide) limit (Ok tt)
        ∷ Changed edits (Err (record { at = at; error = AdfError.WriteFault }))
        ∷ Closed number (Ok tt) ∷ Opened number (Fresh other) more result ∷ []) now after →
        (result ≡ Err AdfError.Memory) ⊎ ((result ≡ Err AdfError.ReadFault)
        ⊎ (result ≡ Err AdfError.NotEmpty)) }
{}
