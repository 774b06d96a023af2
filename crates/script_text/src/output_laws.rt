//! What holds of the definitions of outputs: each function does nothing, and its clause is the law.

ghost use Rattle.std.specs.Prelude.{◌≡◌, ℕ, Err, List, Ok};
ghost use Rattle.script_text.specs.OutputFault.{IsFirstKind};
ghost use Rattle.script_text.specs.OutputForm.{line_form, of_form};
ghost use Rattle.script_text.specs.OutputMeaning.{MeansOutput};
ghost use Rattle.script_text.specs.OutputRead.{output_of};
ghost use Rattle.script_text.specs.OutputShape.{AreInRange, IsOutput};
ghost use Rattle.script_text.specs.OutputText.{text_of};
ghost use Rattle.script_text.specs.declared.faults.BadKind.{BadKind};
ghost use Rattle.script_text.specs.declared.out_names.LineName.{LineName};
ghost use Rattle.script_text.specs.declared.out_lines.OutLine.{OutLine};

/// The text of an output is read back as its lines.
pub fn printed_outputs_are_read()
    ensures { (lines : List OutLine) → IsOutput lines → AreInRange lines → output_of (text_of lines) ≡ Ok lines }
{}

/// A text is read as an output exactly where it means this output: each line stands for its parts, and
/// the lines have the shape.
pub fn texts_are_read_by_their_meaning()
    ensures read { (text : List ℕ) (lines : List OutLine) → MeansOutput text lines → output_of text ≡ Ok lines }
    ensures meant { (text : List ℕ) (lines : List OutLine) → output_of text ≡ Ok lines → MeansOutput text lines }
{}

/// The kind that a line is answered with is that of one of its faults, and none of them is tested
/// before it.
pub fn a_line_has_the_first_of_its_kinds()
    ensures { (name : LineName) (words : List (List ℕ)) (fault : BadKind) →
        of_form (line_form name words) words ≡ Err fault → IsFirstKind (line_form name words).places words fault }
{}
