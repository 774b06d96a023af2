//! What holds of the definitions: each function does nothing, and its clause is the law.

ghost use Rattle.std.specs.Prelude.{◌≡◌, ◌↔◌, ℕ, List, length};
ghost use Rattle.map_model.specs.Linear.{IsLinear};
ghost use Rattle.script_text.specs.OutputShape.{IsOutput};
ghost use Rattle.script_text.specs.declared.out_lines.OutLine.{OutLine};
ghost use Rattle.trace_audit.specs.Fits.{Fits};
ghost use Rattle.trace_audit.specs.Outputs.{EndsWithList};
ghost use Rattle.trace_audit.specs.Told.{history_of, trace_of};
ghost use Rattle.trace_audit.specs.Verdicts.{IsVerdict};
ghost use Rattle.trace_audit.specs.declared.verdicts.Verdict.{Verdict};
ghost use Rattle.trace_audit.specs.declared.verdicts.Verdict.TheVariants.{Linear};

/// The verdict is linear exactly where the trace fits and the list is a linearization of it, in which
/// an entry is marked as open exactly where its call has not returned.
pub fn linear_exactly_at_linearizations()
    ensures { (lines : List OutLine) (count : ℕ) →
        IsVerdict lines (Linear count) ↔ (Fits lines × IsLinear (trace_of lines) (history_of lines) × (count ≡ length (history_of lines))) }
{}

/// No lines have two verdicts.
pub fn lines_have_one_verdict()
    ensures { (lines : List OutLine) (one other : Verdict) → IsVerdict lines one → IsVerdict lines other → one ≡ other }
{}

/// In an output, the list of the last history is the entries between the last `history` line, which
/// tells how many they are, and `end`.
pub fn outputs_end_with_their_list()
    ensures { (lines : List OutLine) → IsOutput lines → EndsWithList lines (history_of lines) }
{}
