//! From the lines to the calls of their trace.

ghost use Rattle.std.specs.Prelude.{◌≡◌, ◌+◌, ◌<◌, ◌^◌, length, IfOk};
ghost use Rattle.trace_audit.specs.Reading.{IsReading};

use crate::calls::Calls;
use script_text::OutLine;
use std::alloc::{AllocError, Global};

/// What the lines tell.
#[derive(Drop)]
pub enum Reading<'a> {
    Calls(Calls<'a>),
    /// The first line that does not fit, counted from 1.
    Unfit(u32),
}

pub fn read_calls<'a>(alloc: Global, lines: &'a [OutLine]) -> Result<Reading<'a>, AllocError>
    requires { length lines.now + 1 < 2 ^ 32 }
    ensures { IfOk result (IsReading lines.now) }
{
    let mut calls = Calls::new(alloc);
    for (i, line) in lines.iter().enumerate() {
        if !calls.take(line)? {
            return Ok(Reading::Unfit(i as u32 + 1));
        }
    }
    Ok(Reading::Calls(calls))
}
