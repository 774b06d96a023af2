ghost use Rattle.std.specs.Prelude.{◌≡◌, ℕ, ◌≤◌};
ghost use Rattle.outside.specs.Faults.{IsSteady};
ghost use Rattle.script_text.specs.OutputText.{line_text, text_of};
ghost use Rattle.script_run.specs.declared.writing.Unwritten.TheVariants.{NoMemory};
ghost use Rattle.script_run.specs.Written.{Writes};

use arrayvec::ArrayVec;
use outside::{Sink, Took};
use script_text::{OutLine, line_bytes, put_short_line};
use std::alloc::{AllocError, Global};

/// Why a text was not written to its end.
#[derive(Clone, Copy, Debug, PartialEq, Eq)]
pub enum Unwritten {
    /// A write failed.
    Fault,
    /// Memory was wanting, here or in the sink.
    NoMemory,
}

impl From<AllocError> for Unwritten {
    ghost from_gives = { λ _ unwritten. unwritten ≡ NoMemory };

    fn from(_error: AllocError) -> Unwritten {
        Unwritten::NoMemory
    }
}

/// Writes the line and its line feed. No write is handed bytes of two lines.
pub fn write_line<K: Sink>(alloc: Global, line: &OutLine, sink: &mut K) -> Result<(), Unwritten>
    ensures written { Writes K.held K.faults sink.old sink.new result (line_text line.now) }
    ensures later { K.faults sink.old ≤ K.faults sink.new }
    ensures steady { IsSteady K.cannot_fail K.faults sink.old sink.new }
{
    let mut short = ArrayVec::new();
    if put_short_line(&mut short, line) {
        return write_all(short.as_slice(), sink);
    }
    let text = line_bytes(alloc, line)?;
    write_all(&text, sink)
}

/// Writes the lines one after the other.
pub fn write_lines<K: Sink>(alloc: Global, lines: &[OutLine], sink: &mut K) -> Result<(), Unwritten>
    ensures written { Writes K.held K.faults sink.old sink.new result (text_of lines.now) }
    ensures later { K.faults sink.old ≤ K.faults sink.new }
    ensures steady { IsSteady K.cannot_fail K.faults sink.old sink.new }
{
    for line in lines {
        if let Err(why) = write_line(alloc, line, sink) {
            return Err(why);
        }
    }
    Ok(())
}

/// Writes all of the bytes, unless a write fails or takes nothing.
pub fn write_all<K: Sink>(bytes: &[u8], sink: &mut K) -> Result<(), Unwritten>
    ensures written { Writes K.held K.faults sink.old sink.new result bytes.now }
    ensures later { K.faults sink.old ≤ K.faults sink.new }
    ensures steady { IsSteady K.cannot_fail K.faults sink.old sink.new }
{
    let mut at = 0;
    while at < bytes.len() {
        match sink.write(&bytes[at..]) {
            Took::Took(0) => return Err(Unwritten::Fault),
            Took::Took(count) => at += count,
            Took::Failed => return Err(Unwritten::Fault),
            Took::NoMemory => return Err(Unwritten::NoMemory),
        }
    }
    Ok(())
}
