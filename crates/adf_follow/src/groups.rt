//! Laws of groups that are under way. No function here does anything: its contract is the law.

ghost use Rattle.std.specs.Prelude.{◌≡◌, ◌≢◌, ◌⊎◌, ℕ, ◌+◌, List, [], ◌++◌, length, slice_get, Option, Some, None, IsSome, Ok, Err};
ghost use Rattle.adf_format.specs.Tree.{Tree};
ghost use Rattle.adf_model.specs.declared.tree.Edit.{Edit};
ghost use Rattle.adf_model.specs.declared.tree.NodeId.{NodeId};
ghost use Rattle.adf_model.specs.OneFile.{StandsIn};
ghost use Rattle.adf_model.specs.Tests.{first_refusal};
ghost use Rattle.adf_model.specs.Edits.{named_nodes, created_by};
ghost use Rattle.adf_model.specs.Slots.{Open, Slot, Files, Devices, AreTrees, open_at, with_slot, device_at};
ghost use Rattle.adf_model.specs.declared.error.AdfError.{AdfError};
ghost use Rattle.adf_model.specs.Steps.{MayEdit, OthersOnlyRead, OthersStayPlaced, WriteFailed, SomeOpenFault, AllLaidOut, Changed, Step};
ghost use Rattle.adf_model.specs.Slots.Slot.{Live};
ghost use Rattle.adf_model.specs.Calls.{tests_at_entry, resolve};
ghost use Rattle.adf_follow.specs.Groups.{FileWork, at_rest, OnlyWaits, IsStep, IsUnderWay, IsCommitted, IsTornCommit, IsToldBy, IsEditRefusal};

/// A group that is under way goes on: where the entry is passed, the links of the trees in work lead to
/// nodes of the group's file, and that file does the step. What is open are trees, or no link is met.
pub fn groups_go_on()
    ensures { (files now after : Files) (before : Devices) (edits : List Edit) (i n : ℕ)
        (number : Option ℕ) (created : List NodeId) (was work : ℕ → FileWork) (edit reached : Edit)
        (opened : Open) (tree : Tree) → IsUnderWay files before edits i number created was now
        → AreTrees now ⊎ (reached ≡ edit) → slice_get edits i ≡ Some edit → first_refusal
        (tests_at_entry now (named_nodes edit)) ≡ None → resolve now edit ≡ Ok reached → open_at now
        n ≡ Some opened → (number ≡ None) ⊎ (number ≡ Some n) → StandsIn n reached → IsStep opened
        reached tree (was n) (work n) → after ≡ with_slot now n
        (Live (record opened { tree = tree })) → IsUnderWay files before edits (i + 1) (Some n)
        (created ++ created_by opened.tree reached) work after }
{}

/// A group begins where nothing waits.
pub fn groups_begin()
    ensures { (files : Files) (before : Devices) (edits : List Edit) (work : ℕ → FileWork)
        → ((n : ℕ) → work n ≡ at_rest (device_at before n)) → IsUnderWay files before edits 0 None
        [] work files }
{}

/// A group whose edits are all done and committed is a step of the model.
pub fn groups_end()
    ensures { (files now : Files) (before mid later : Devices) (edits : List Edit) (n : ℕ)
        (created : List NodeId) (work : ℕ → FileWork) → IsUnderWay files before edits (length edits)
        (Some n) created work now → IsSome (open_at now n) → OnlyWaits files before mid now
        → MayEdit files edits n → OthersOnlyRead (Some n) mid later → OthersStayPlaced (Some n) mid
        later → (IsSome (device_at mid n).held → IsSome (device_at later n).held) → ((was : Open)
        → open_at files n ≡ Some was → IsCommitted was (work n) (device_at mid n)
        (device_at later n)) → Step files before (Changed edits (Ok created)) later now }
{}

/// And so is one whose commit failed.
pub fn groups_break()
    ensures { (files now : Files) (before mid later : Devices) (edits : List Edit) (n : ℕ)
        (created : List NodeId) (work : ℕ → FileWork) → IsUnderWay files before edits (length edits)
        (Some n) created work now → IsSome (open_at now n) → OnlyWaits files before mid now
        → MayEdit files edits n → OthersOnlyRead (Some n) mid later → OthersStayPlaced (Some n) mid
        later → WriteFailed (device_at mid n) (device_at later n) → ((was opened : Open) → open_at
        files n ≡ Some was → open_at now n ≡ Some opened → IsTornCommit was opened.tree (work n)
        (device_at mid n) (device_at later n)) → Step files before (Changed edits
        (Err (record { at = length edits; error = AdfError.WriteFault }))) later
        (with_slot files n Slot.Broken) }
{}

/// And one that is refused at an edit, after which nothing of it is left.
pub fn groups_stop()
    ensures { (files now : Files) (before mid : Devices) (edits : List Edit) (i : ℕ) (edit : Edit)
        (number : Option ℕ) (created : List NodeId) (work : ℕ → FileWork) (error : AdfError)
        → IsUnderWay files before edits i number created work now
        → ((n : ℕ) → number ≡ Some n → IsSome (open_at now n)) → OnlyWaits files before mid now
        → IsToldBy now mid edit → AllLaidOut files before → slice_get edits i ≡ Some edit
        → IsEditRefusal now work number edit error → error ≢ AdfError.WriteFault
        → (error ≡ AdfError.ReadFault → SomeOpenFault files before mid) → Step files before
        (Changed edits (Err (record { at = i; error = error }))) mid files }
{}
