//! The output of a script, read back.

ghost use Rattle.std.specs.Prelude.{◌≡◌, ℕ, ◌≤◌, length, true, false, IfErr, IfOk, Ok};
ghost use Rattle.script_text.specs.OutputRead.{IsBad, after_entry, after_other, entries_due, is_closed, output_of, stage_after};
ghost use Rattle.script_text.specs.OutputShape.{IsOutput};

use crate::faults::{BadKind, ScriptFault};
use crate::out_lines::OutLine;
use crate::out_reading::read_line;
use crate::script_reading::MOST_BYTES;
use std::alloc::Global;
use text_lines::next_line;

/// Which line may come next.
#[derive(Clone, Copy, Debug, PartialEq, Eq)]
pub(crate) enum Stage {
    /// No entry is due, and the line before is not the last of a history.
    Between,
    /// So many entries are due, at least one.
    Entries(u32),
    /// The line before is the last of a history.
    Listed,
    /// The line before is the `end` that closes the text.
    Ended,
    /// The line before is an `end` that does not come right after a history.
    Misplaced,
}

/// Reads an output text. A bad line is the first one, with the first kind of what is wrong with it;
/// where only the `end` right after a history is missing, it is the one behind the last.
pub fn parse_output(alloc: Global, text: &[u8]) -> Result<Vec<OutLine>, ScriptFault>
    requires { length text.now ≤ MOST_BYTES }
    ensures lines { IfOk result (λ lines. output_of text.now ≡ Ok lines.items) }
    ensures shape { IfOk result (λ lines. IsOutput lines.items) }
    ensures few { IfOk result (λ lines. length lines.items ≤ length text.now) }
    ensures bad { IfErr result (λ fault. IsBad fault (output_of text.now)) }
{
    let mut lines = Vec::new(alloc);
    let mut stage = Stage::Between;
    let mut number = 1;
    let mut rest = text;
    while let Some((line, behind)) = next_line(rest) {
        let out = read_line(alloc, number, line)?;
        let Some(next) = stage_after(stage, &out) else {
            let kind = BadKind::Block;
            return Err(ScriptFault::BadLine { number, kind });
        };
        lines.push(out)?;
        stage = next;
        number += 1;
        rest = behind;
    }
    if !is_closed(stage) {
        let kind = BadKind::Block;
        return Err(ScriptFault::BadLine { number, kind });
    }
    Ok(lines)
}

fn is_closed(stage: Stage) -> bool
    ensures { result ≡ is_closed stage }
{
    matches!(stage, Stage::Ended)
}

fn stage_after(stage: Stage, out: &OutLine) -> Option<Stage>
    ensures { result ≡ stage_after stage out.now }
{
    match stage {
        Stage::Between => after_other(Stage::Misplaced, out),
        Stage::Entries(count) => after_entry(count, out),
        Stage::Listed => after_other(Stage::Ended, out),
        Stage::Ended | Stage::Misplaced => None,
    }
}

fn after_other(at_end: Stage, out: &OutLine) -> Option<Stage>
    ensures { result ≡ after_other at_end out.now }
{
    match out {
        OutLine::History(entries) => Some(entries_due(*entries)),
        OutLine::Entry { .. } => None,
        OutLine::End => Some(at_end),
        _ => Some(Stage::Between),
    }
}

fn after_entry(count: u32, out: &OutLine) -> Option<Stage>
    ensures { result ≡ after_entry count out.now }
{
    match out {
        OutLine::Entry { .. } => Some(entries_due(count.saturating_sub(1))),
        _ => None,
    }
}

fn entries_due(count: u32) -> Stage
    ensures { result ≡ entries_due count }
{
    if count == 0 {
        Stage::Listed
    } else {
        Stage::Entries(count)
    }
}
