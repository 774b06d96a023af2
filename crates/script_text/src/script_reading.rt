ghost use Rattle.std.specs.Prelude.{◌≡◌, ◌+◌, ◌≤◌, ◌<◌, ◌^◌, IfOk, [], length};
ghost use Rattle.text_lines.specs.Lines.{lines_of};
ghost use Rattle.script_text.specs.ScriptForm.{lines_after, reading_of};
ghost use Rattle.script_text.specs.ScriptRead.{Gives, IsOpened, IsParsed, plan_of};
ghost use Rattle.script_text.specs.declared.faults.ScriptFault.TheVariants.{BadLine};
ghost use Rattle.script_text.specs.Sound.{IsSound};

use crate::faults::{BadKind, ScriptFault};
use crate::line_faults::LineFault;
use crate::line_reading::line_of;
use crate::scripts::{Line, Script, Shape};
use crate::shape_reading::shape_line;
use std::alloc::Global;
use text_lines::{has_bad_byte, is_skipped, next_line};

/// The most bytes of a script.
pub const MOST_BYTES: usize = 4_194_304;

/// Reads a script. A text of no script is answered by the first of its lines that is bad, counted
/// from 1 with those that are skipped, and the first kind of its faults in the order of `BadKind`.
pub fn parse(alloc: Global, text: &[u8]) -> Result<Script, ScriptFault>
    requires { length text.now ≤ MOST_BYTES }
    ensures parsed { IsParsed result text.now }
    ensures sound { IfOk result (λ script. IsSound text.now (plan_of script)) }
{
    read(alloc, text)
}

fn read(alloc: Global, text: &[u8]) -> Result<Script, ScriptFault>
    requires { length text.now ≤ MOST_BYTES }
    ensures { Gives plan_of result (reading_of text.now) }
{
    let (shape, number, rest) = opening(text)?;
    let lines = lines_after(alloc, number, rest)?;
    Ok(Script { shape, lines })
}

// Reads a text up to its shape line, and answers the shape, the number of the line after it, and
// the text from there on.
#[tactic(auto, unfolding(crate::specs::ScriptForm::reading_of))]
fn opening(text: &[u8]) -> Result<(Shape, u32, &[u8]), ScriptFault>
    requires { length text.now ≤ MOST_BYTES }
    ensures { IsOpened text.now result }
{
    let mut first = 1;
    let mut rest = text;
    while let Some((line, after)) = next_line(rest) {
        if has_bad_byte(line) {
            return bad_line(first, BadKind::Byte);
        }
        if !is_skipped(line) {
            return match shape_line(line) {
                Ok(shape) => Ok((shape, first + 1, after)),
                Err(kind) => bad_line(first, kind),
            };
        }
        first += 1;
        rest = after;
    }
    bad_line(first, BadKind::NoShape)
}

// Reads the lines of a text, whose first line has this number.
fn lines_after(alloc: Global, first: u32, text: &[u8]) -> Result<Vec<Line>, ScriptFault>
    requires { first + length text.now < 2 ^ 32 }
    ensures { Gives (λ lines. lines.items) result (lines_after [] first (lines_of text.now)) }
{
    let mut lines = Vec::new(alloc);
    let mut number = first;
    let mut rest = text;
    while let Some((spelled, after)) = next_line(rest) {
        if has_bad_byte(spelled) {
            return bad_line(number, BadKind::Byte);
        }
        if !is_skipped(spelled) {
            match line_of(alloc, spelled) {
                Ok(line) => lines.push(line)?,
                Err(LineFault::Bad(kind)) => return bad_line(number, kind),
                Err(LineFault::NoMemory) => return Err(ScriptFault::NoMemory),
            }
        }
        number += 1;
        rest = after;
    }
    Ok(lines)
}

fn bad_line<T>(number: u32, kind: BadKind) -> Result<T, ScriptFault>
    ensures { result ≡ Err (BadLine number kind) }
{
    Err(ScriptFault::BadLine { number, kind })
}
