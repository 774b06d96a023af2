//! What holds of the definitions: each function does nothing, and its clause is the law.

ghost use Rattle.std.specs.Prelude.{◌≡◌, ℕ, List, None, Some};
ghost use Rattle.text_lines.specs.Lines.{lines_of};
ghost use Rattle.script_text.specs.FirstFault.{IsFirstFault};
ghost use Rattle.script_text.specs.Meaning.{Means};
ghost use Rattle.script_text.specs.ScriptForm.{Fault, Plan, fault_of};

/// A text means a script exactly where it has no bad line.
pub fn a_text_without_fault_means_a_script()
    ensures meant { (text : List ℕ) (plan : Plan) → Means text plan → fault_of text ≡ None }
    ensures faultless { (text : List ℕ) → fault_of text ≡ None → (plan : Plan) × Means text plan }
{}

/// A text means one script at most.
pub fn a_text_means_one_script()
    ensures { (text : List ℕ) (plan other : Plan) → Means text plan → Means text other → plan ≡ other }
{}

/// The fault of a text is that of a line behind lines which are good, or the want of a shape line.
pub fn a_fault_is_of_the_first_bad_line()
    ensures { (text : List ℕ) (fault : Fault) → fault_of text ≡ Some fault → IsFirstFault (lines_of text) fault }
{}
