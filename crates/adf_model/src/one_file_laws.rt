//! One file and many files agree. No function here does anything: its contract is the law.

ghost use Rattle.std.specs.Prelude.{◌≡◌, ◌≢◌, ◌⊎◌, ℕ, List, Some, None, Ok, Err};
ghost use Rattle.std.specs.List.{AllByRecursion};
ghost use Rattle.adf_model.specs.declared.error.AdfError.{AdfError};
ghost use Rattle.adf_model.specs.declared.tree.Edit.{Edit};
ghost use Rattle.adf_model.specs.declared.tree.Query.{Query};
ghost use Rattle.adf_model.specs.Answers.{asked_node, file_answer, answer};
ghost use Rattle.adf_model.specs.Tests.{first_refusal, and_then};
ghost use Rattle.adf_model.specs.Edits.{named_nodes, file_step, file_group};
ghost use Rattle.adf_model.specs.Slots.{Open, Files, AreTrees, open_at};
ghost use Rattle.adf_model.specs.Calls.{Group, tests_at_entry, resolve, group_after, group_step, edit_group};
ghost use Rattle.adf_model.specs.OneFile.{StandsIn, outcome_of_group, outcome_of_work};

/// Where no link is met, edits of nodes of one open file give among many files what they give on
/// that file's tree: the same refusal at the same edit, or the same tree and the same nodes made;
/// and all other files stay. So does an edit that is reached through links, on the nodes reached.
pub fn one_file_as_many()
    ensures step { (group : Group) (number : ℕ) (opened : Open) (edit : Edit)
        → open_at group.files number ≡ Some opened
        → (group.file ≡ None) ⊎ (group.file ≡ Some number) → StandsIn number edit →
        file_step opened.writable opened.tree edit ≢ Err AdfError.LinkMissing →
        group_step group edit ≡ and_then (file_step opened.writable opened.tree edit)
        (λ tree. Ok (group_after group number opened edit tree)) }
    ensures reached { (group : Group) (number : ℕ) (opened : Open) (edit reached : Edit)
        → AreTrees group.files → first_refusal (tests_at_entry group.files (named_nodes edit))
        ≡ None → resolve group.files edit ≡ Ok reached →
        open_at group.files number ≡ Some opened → (group.file ≡ None) ⊎ (group.file ≡ Some number)
        → StandsIn number reached →
        group_step group edit ≡ and_then (file_step opened.writable opened.tree reached)
        (λ tree. Ok (group_after group number opened reached tree)) }
    ensures group { (files : Files) (number : ℕ) (opened : Open) (edits : List Edit)
        → open_at files number ≡ Some opened → AllByRecursion (StandsIn number) edits →
        ((at : ℕ) → file_group opened.writable opened.tree edits
        ≢ Err (record { at = at; error = AdfError.LinkMissing })) →
        outcome_of_group (edit_group files edits)
        ≡ outcome_of_work files number opened (file_group opened.writable opened.tree edits) }
{}

/// So it is for a query about a node of one open file that meets no link: it is answered among many files
/// as it is answered on that file's tree.
pub fn one_query_as_many()
    ensures { (files : Files) (number : ℕ) (opened : Open) (query : Query)
        → open_at files number ≡ Some opened → (asked_node query).file ≡ number →
        file_answer opened.tree query ≢ Err AdfError.LinkMissing
        → answer files query ≡ file_answer opened.tree query }
{}
