// Lines that are written from the parts that they name, or with numbers that a line of the output
// may not have room for.

ghost use Rattle.std.specs.Prelude.{◌≡◌, ◌≤◌, [], ◌∷◌, ◌++◌, OnOk, codes};
ghost use Rattle.std.specs.Fmt.{decimal};
ghost use Rattle.outside.specs.Faults.{IsSteady};
ghost use Rattle.script_meaning.specs.Shown.{shown_refusal};
ghost use Rattle.script_run.specs.Written.{Writes};
ghost use Rattle.script_text.specs.OutputText.{line_text};
ghost use Rattle.script_text.specs.Shown.{actor_text};
ghost use Rattle.script_text.specs.declared.out_lines.OutLine.TheVariants as line;
ghost use Rattle.script_text.specs.declared.out_lines.RefusalText.TheVariants as refusal;

use crate::writing::{Unwritten, write_all};
use itoa::Buffer;
use outside::Sink;
use script_text::{OutLine, RefusalText, line_text};
use std::alloc::{AllocError, Global};
use world_core::Refused;

/// Writes why an event is refused.
pub(crate) fn write_refusal<K: Sink>(
    alloc: Global,
    reason: Refused,
    sink: &mut K,
) -> Result<(), Unwritten>
    ensures written { Writes K.held K.faults sink.old sink.new result
        (line_text (line.Refused (shown_refusal reason))) }
    ensures later { K.faults sink.old ≤ K.faults sink.new }
    ensures steady { IsSteady K.cannot_fail K.faults sink.old sink.new }
{
    let mut text = Vec::new(alloc);
    push_refusal(&mut text, reason)?;
    write_all(&text, sink)
}

/// Writes how many verbs were taken, where the line did not come to its end by them.
pub(crate) fn write_took<K: Sink>(
    alloc: Global,
    actor: Option<u32>,
    verbs: u64,
    sink: &mut K,
) -> Result<(), Unwritten>
    ensures written { Writes K.held K.faults sink.old sink.new result (line_text (line.Took actor verbs)) }
    ensures later { K.faults sink.old ≤ K.faults sink.new }
    ensures steady { IsSteady K.cannot_fail K.faults sink.old sink.new }
{
    let mut text = Vec::new(alloc);
    push_took(&mut text, actor, verbs)?;
    write_all(&text, sink)
}

/// Writes how many entries a history has.
pub(crate) fn write_history_count<K: Sink>(
    alloc: Global,
    entries: usize,
    sink: &mut K,
) -> Result<(), Unwritten>
    ensures written { Writes K.held K.faults sink.old sink.new result (line_text (line.History entries)) }
    ensures later { K.faults sink.old ≤ K.faults sink.new }
    ensures steady { IsSteady K.cannot_fail K.faults sink.old sink.new }
{
    let mut text = Vec::new(alloc);
    push_counted(&mut text, b"history", entries as u64)?;
    write_all(&text, sink)
}

/// Writes how many words a dump has.
pub(crate) fn write_dumped<K: Sink>(
    alloc: Global,
    words: u64,
    sink: &mut K,
) -> Result<(), Unwritten>
    ensures written { Writes K.held K.faults sink.old sink.new result (line_text (line.Dumped words)) }
    ensures later { K.faults sink.old ≤ K.faults sink.new }
    ensures steady { IsSteady K.cannot_fail K.faults sink.old sink.new }
{
    let mut text = Vec::new(alloc);
    push_counted(&mut text, b"dumped", words)?;
    write_all(&text, sink)
}

fn push_refusal(into: &mut Vec<u8>, reason: Refused) -> Result<(), AllocError>
    ensures { OnOk result (into.new.items ≡ into.old.items ++ line_text (line.Refused (shown_refusal reason))) }
{
    match reason {
        Refused::Clients(count) => push_counted(into, b"refused clients", u64::from(count)),
        Refused::Unknown(client) => push_counted(into, b"refused unknown", u64::from(client)),
        Refused::Stopped(client) => push_counted(into, b"refused stopped", u64::from(client)),
        Refused::Busy(client) => push_counted(into, b"refused busy", u64::from(client)),
        Refused::Key(bytes) => push_counted(into, b"refused key", bytes as u64),
        Refused::Value(bytes) => push_counted(into, b"refused value", bytes as u64),
        Refused::Spent(client) => push_counted(into, b"refused spent", u64::from(client)),
        Refused::Idle(client) => push_counted(into, b"refused idle", u64::from(client)),
        Refused::Live(node) => push_counted(into, b"refused live", u64::from(node)),
        Refused::Running(client) => push_counted(into, b"refused running", u64::from(client)),
        Refused::Recovered(client) => push_counted(into, b"refused recovered", u64::from(client)),
        Refused::Node(node) => push_counted(into, b"refused node", u64::from(node)),
        Refused::Gone(node) => push_counted(into, b"refused gone", u64::from(node)),
        Refused::LastLive(region) => push_counted(into, b"refused lastlive", u64::from(region)),
        Refused::Masked(node) => push_counted(into, b"refused masked", u64::from(node)),
        Refused::Sealed(epoch) => push_sealed(into, epoch),
        Refused::NoTask => into.extend_from_slice(b"refused task\n"),
        Refused::NoMemory => into.extend_from_slice(b"refused\n"),
    }
}

fn push_sealed(into: &mut Vec<u8>, epoch: u64) -> Result<(), AllocError>
    ensures { OnOk result (into.new.items ≡ into.old.items ++ line_text (line.Refused (refusal.Sealed epoch))) }
{
    let line = OutLine::Refused(RefusalText::Sealed(epoch));
    line_text(*into.allocator(), &line, into)
}

fn push_took(into: &mut Vec<u8>, actor: Option<u32>, verbs: u64) -> Result<(), AllocError>
    ensures { OnOk result (into.new.items ≡ into.old.items ++ line_text (line.Took actor verbs)) }
{
    into.extend_from_slice(b"took ")?;
    push_actor(into, actor)?;
    push_counted(into, b"", verbs)
}

fn push_actor(into: &mut Vec<u8>, actor: Option<u32>) -> Result<(), AllocError>
    ensures { OnOk result (into.new.items ≡ into.old.items ++ actor_text actor) }
{
    match actor {
        None => into.push(b'm')?,
        Some(client) => push_number(into, u64::from(client))?,
    }
    Ok(())
}

// Appends a line of these words and a number.
fn push_counted(into: &mut Vec<u8>, words: &[u8], number: u64) -> Result<(), AllocError>
    ensures { OnOk result (into.new.items ≡ into.old.items ++ (words.now ++ (codes " " ++ decimal number ++ codes "\n"))) }
{
    into.extend_from_slice(words)?;
    into.push(b' ')?;
    push_number(into, number)?;
    into.push(b'\n')?;
    Ok(())
}

fn push_number(into: &mut Vec<u8>, number: u64) -> Result<(), AllocError>
    ensures { OnOk result (into.new.items ≡ into.old.items ++ decimal number) }
{
    let mut buffer = Buffer::new();
    into.extend_from_slice(buffer.format(number).as_bytes())
}
