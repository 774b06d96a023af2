//! The verdict on the lines of an output.

ghost use Rattle.std.specs.Prelude.{◌≡◌, ◌↔◌, ℕ, ◌+◌, ◌<◌, ◌^◌, length, List, IfOk, MatchOption};
ghost use Rattle.map_model.specs.Linear.{IsLinear};
ghost use Rattle.map_model.specs.declared.entries.Entry.{Entry};
ghost use Rattle.trace_audit.specs.Fits.{Fits};
ghost use Rattle.trace_audit.specs.Judged.{AreNames};
ghost use Rattle.trace_audit.specs.Told.{history_of, trace_of};
ghost use Rattle.trace_audit.specs.Verdicts.{EndsUnlisted, IsFirstMissing, IsVerdict, IsWhole};

use crate::judging::{Judged, judge};
use crate::listing::last_history;
use crate::reading::{Reading, read_calls};
use crate::tables::{Names, is_named};
use crate::verdicts::Verdict;
use script_text::OutLine;
use std::alloc::{AllocError, Global};

/// Whether the last history of an output is one legal history of the calls that the output tells: a
/// linearization of its trace in the sense of Herlihy and Wing, "Linearizability: a correctness
/// condition for concurrent objects" (1990), in which the calls that have not returned are marked. It
/// takes time n log n in the number of lines.
pub fn audit(alloc: Global, lines: &[OutLine]) -> Result<Verdict, AllocError>
    requires { length lines.now + 1 < 2 ^ 32 }
    ensures verdict { IfOk result (IsVerdict lines.now) }
    ensures linear { IfOk result (λ verdict. (count : ℕ) →
        (verdict ≡ Verdict.Linear count) ↔ (Fits lines.now × IsLinear (trace_of lines.now) (history_of lines.now) × (count ≡ length (history_of lines.now)))) }
{
    verdict_on(alloc, lines)
}

fn verdict_on(alloc: Global, lines: &[OutLine]) -> Result<Verdict, AllocError>
    requires { length lines.now + 1 < 2 ^ 32 }
    ensures { IfOk result (IsVerdict lines.now) }
{
    let calls = match read_calls(alloc, lines)? {
        Reading::Calls(calls) => calls,
        Reading::Unfit(line) => return Ok(Verdict::Trace { line }),
    };
    let list = last_history(alloc, lines)?;
    match judge(alloc, &calls, &list)? {
        Judged::Faulty {
            at,
            fault,
            client,
            number,
        } => Ok(Verdict::Entry {
            at,
            fault,
            client,
            number,
        }),
        Judged::Sound(names) => match first_missing(&names, lines) {
            Some((client, number)) => Ok(Verdict::Missing { client, number }),
            None => Ok(Verdict::Linear(list.len() as u32)),
        },
    }
}

// The call of the first `ended` line that is none of the names.
fn first_missing(names: &Names, lines: &[OutLine]) -> Option<(u32, u32)>
    ensures { (entries : List Entry) → AreNames entries (length entries) names.now →
        MatchOption result (IsWhole lines.now entries) (λ call. IsFirstMissing lines.now entries call.0 call.1) }
{
    for line in lines {
        if let Some((client, number)) = unnamed(names, line) {
            return Some((client, number));
        }
    }
    None
}

// The call that the line ends, where it is none of the names.
fn unnamed(names: &Names, line: &OutLine) -> Option<(u32, u32)>
    ensures { (entries : List Entry) → AreNames entries (length entries) names.now →
        MatchOption result ((client number : ℕ) → ¬ EndsUnlisted line.now entries client number) (λ call. EndsUnlisted line.now entries call.0 call.1) }
{
    match line {
        OutLine::Ended { client, number, .. } => {
            if is_named(names, *client, *number) {
                return None;
            }
            Some((*client, *number))
        }
        _ => None,
    }
}
