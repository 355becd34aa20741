//! Laws of calls that only ask. No function here does anything: its contract is the law.

ghost use Rattle.std.specs.Prelude.{ℕ, IsTrue, List, Result, Err};
ghost use Rattle.adf_model.specs.declared.error.AdfError.{AdfError};
ghost use Rattle.adf_model.specs.declared.error.EditError.{EditError};
ghost use Rattle.adf_model.specs.declared.tree.Edit.{Edit};
ghost use Rattle.adf_model.specs.declared.tree.NodeId.{NodeId};
ghost use Rattle.adf_model.specs.declared.tree.Query.{Query};
ghost use Rattle.adf_model.specs.declared.tree.Reply.{Reply};
ghost use Rattle.adf_model.specs.Slots.{Files, Devices};
ghost use Rattle.adf_model.specs.Answers.{may_refuse};
ghost use Rattle.adf_model.specs.Steps.{is_query_error, HasReadCause, HasQueryCause, Changed};
ghost use Rattle.adf_model.specs.Causes.{OnlyAsks};
ghost use Rattle.adf_model.specs.Runs.{KeepsLayouts, Makes};

/// Calls that only ask keep what is told and laid out, and many of them leave what one may leave; and
/// a group of edits behind them may do what it may do without them.
pub fn asks_leave_all()
    ensures layouts { (files after : Files) (before now : Devices) → OnlyAsks files before now after
        → KeepsLayouts files before now after }
    ensures none { (files : Files) (devices : Devices) → OnlyAsks files devices devices files }
    ensures more { (files middle after : Files) (before between now : Devices)
        → OnlyAsks files before between middle → OnlyAsks middle between now after
        → OnlyAsks files before now after }
    ensures edits { (files after : Files) (before between now : Devices) (edits : List Edit)
        (result : Result (List NodeId) EditError) → OnlyAsks files before between files →
        Makes files between (Changed edits result) now after
        → Makes files before (Changed edits result) now after }
{}

/// A query is refused under its cause, and never with an error that no query has.
pub fn queries_have_causes()
    ensures read { (files : Files) (query : Query) (before now : Devices)
        (result : Result Reply AdfError) → HasQueryCause files query before now result
        → HasReadCause before now result }
    ensures errors { (query : Query) (error : AdfError) → IsTrue (may_refuse query error)
        → IsTrue (is_query_error error) }
    ensures no_room { (files : Files) (query : Query) (before now : Devices) (asked end : ℕ)
        → HasQueryCause {A = Reply} files query before now (Err (AdfError.Full asked end)) → ⊥ }
    ensures no_other_file { (files : Files) (query : Query) (before now : Devices)
        → HasQueryCause {A = Reply} files query before now (Err AdfError.OtherFile) → ⊥ }
    ensures no_write { (files : Files) (query : Query) (before now : Devices)
        → HasQueryCause {A = Reply} files query before now (Err AdfError.WriteFault) → ⊥ }
{}
