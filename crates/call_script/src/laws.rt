//! Laws of call lines. No function here does anything: its contract is the law.

ghost use Rattle.std.specs.Prelude.{◌≡◌, ◌<◌, ◌++◌, [], ◌∷◌, ℕ, List, All, codes, decimal, map};
ghost use Rattle.adf_model.specs.declared.tree.Edit.TheVariants.{Create};
ghost use Rattle.adf_model.specs.declared.tree.NodeId.{NodeId};
ghost use Rattle.adf_model.specs.declared.tree.Query.TheVariants.{ChildrenOf};
ghost use Rattle.adf_model.specs.Spelling.{spelled};
ghost use Rattle.call_script.specs.declared.calls.Call.{Call};
ghost use Rattle.call_script.specs.declared.calls.OpenMode.TheVariants.{New};
ghost use Rattle.call_script.specs.declared.words.CallWord.{CallWord};
ghost use Rattle.call_script.specs.Fields.{Values};
ghost use Rattle.call_script.specs.Lines.{IsLine, call_word, call_fields, call_of, group_word};
ghost use Rattle.call_script.specs.Plain.{AreValues, all_plain, WordedEdit, worded, plain_edits};
ghost use Rattle.call_script.specs.Tokens.{line_of, node_text, IsFileNumber, IsLimit, IsId};

use crate::calls::Call;

/// A line makes at most one call.
pub fn one_call_a_line()
    ensures { (line : List ℕ) (one other : Call) → IsLine line one → IsLine line other
        → one ≡ other }
{}

/// The plain spelling of each call is a line that makes it.
pub fn calls_have_lines()
    ensures call { (word : CallWord) (values : Values (call_fields word))
        → AreValues (call_fields word) values
        → IsLine (line_of (call_word word ∷ all_plain (call_fields word) values))
        (call_of word values) }
    ensures group { (edit : WordedEdit) (edits : List WordedEdit)
        → IsLine (line_of (group_word ∷ plain_edits edit edits))
        (Call.Edit (worded edit ∷ map worded edits)) }
    ensures open { (number limit : ℕ) → IsFileNumber number → IsLimit limit →
        IsLine (codes "open " ++ (decimal number ++ (codes " new " ++ decimal limit)))
        (Call.Open number New limit) }
    ensures close { (number : ℕ) → IsFileNumber number
        → IsLine (codes "close " ++ decimal number) (Call.Close number) }
    ensures children { (node : NodeId) → IsId node
        → IsLine (codes "children " ++ node_text node) (Call.Ask (ChildrenOf node)) }
    ensures create { (parent : NodeId) (name label : List ℕ) → IsId parent → All (λ b. b < 256) name
        → All (λ b. b < 256) label →
        IsLine (codes "edit create " ++ (node_text parent
        ++ (codes " " ++ (spelled name ++ (codes " " ++ spelled label)))))
        (Call.Edit (Create parent name label ∷ [])) }
{}
