// The summary, line by line.

ghost use Rattle.std.specs.Prelude.{◌≡◌, ◌≤◌, ◌++◌, IfOk, OnOk, if◌then◌else◌};
ghost use Rattle.std.specs.List.{flat_map};
ghost use Rattle.outside.specs.Faults.{IsSteady};
ghost use Rattle.script_run.specs.Written.{Writes};
ghost use Rattle.script_text.specs.OutputText.{line_text};
ghost use Rattle.script_text.specs.declared.out_lines.OutLine.TheVariants as line;
ghost use Rattle.sim_meaning.specs.Summary.{counted, head_words, is_open, open_in, summary_text, words_text};
ghost use Rattle.std.specs.Fmt.{decimal};
ghost use Rattle.verb_history.specs.Moments.{moment_of};

use crate::counted_world::CountedWorld;
use crate::keys::count_keys;
use itoa::Buffer;
use outside::Sink;
use script_run::{Unwritten, write_all};
use script_text::{OutLine, line_text};
use sim_meaning::Numbers;
use std::alloc::{AllocError, Global};
use verb_history::Moment;
use world_core::{Division, World};

/// Writes the summary of a simulation that came to this world. No write is handed bytes of two lines.
pub(crate) fn write_summary<K: Sink>(
    alloc: Global,
    numbers: &Numbers,
    counted: &CountedWorld,
    sink: &mut K,
) -> Result<(), Unwritten>
    ensures written { Writes K.held K.faults sink.old sink.new result
        (summary_text numbers.now counted.now.world counted.now.verbs) }
    ensures later { K.faults sink.old ≤ K.faults sink.new }
    ensures steady { IsSteady K.cannot_fail K.faults sink.old sink.new }
{
    match summary_texts(alloc, numbers, counted) {
        Ok(texts) => write_texts(&texts, sink),
        Err(_) => Err(Unwritten::NoMemory),
    }
}

// The text of each line.
fn summary_texts(
    alloc: Global,
    numbers: &Numbers,
    counted: &CountedWorld,
) -> Result<[Vec<u8>; 8], AllocError>
    ensures { IfOk result (λ texts. flat_map (λ text. text.items) texts
        ≡ summary_text numbers.now counted.now.world counted.now.verbs) }
{
    let world = counted.world();
    let division = world.division();
    let keys = count_keys(alloc, world)?;
    let head = head(alloc, numbers)?;
    let returned = count_line(alloc, b"returned", &[counted.returned()])?;
    let open = count_line(alloc, b"open", &[open_in(world) as u64])?;
    let verbs = count_line(alloc, b"verbs", &[counted.verbs()])?;
    let blocks = blocks_line(alloc, &division)?;
    let objects = objects_line(alloc, &division)?;
    let keys = count_line(alloc, b"keys", &[keys as u64])?;
    let end = out_line(alloc, &OutLine::End)?;
    Ok([head, returned, open, verbs, blocks, objects, keys, end])
}

fn blocks_line(alloc: Global, division: &Division) -> Result<Vec<u8>, AllocError>
    ensures { IfOk result (λ text. text.items
        ≡ line_text (line.Blocks division.now.unused division.now.owned division.now.awaiting division.now.released)) }
{
    let line = OutLine::Blocks {
        unused: division.unused,
        owned: division.owned,
        awaiting: division.awaiting,
        released: division.released,
    };
    out_line(alloc, &line)
}

fn objects_line(alloc: Global, division: &Division) -> Result<Vec<u8>, AllocError>
    ensures { IfOk result (λ text. text.items
        ≡ line_text (line.Objects division.now.stock division.now.present division.now.held)) }
{
    let line = OutLine::Objects {
        stock: division.stock,
        present: division.present,
        held: division.held,
    };
    out_line(alloc, &line)
}

fn head(alloc: Global, numbers: &Numbers) -> Result<Vec<u8>, AllocError>
    ensures { IfOk result (λ text. text.items ≡ words_text (head_words numbers.now)) }
{
    let counts = [
        numbers.seed,
        u64::from(numbers.clients),
        u64::from(numbers.calls),
        u64::from(numbers.stops),
        u64::from(numbers.losses),
    ];
    count_line(alloc, b"sim", &counts)
}

// How many calls were invoked and have not returned.
fn open_in(world: &World) -> usize
    ensures { result ≡ open_in world.now }
{
    let moments = world.moments();
    let mut open = 0;
    for moment in moments {
        open += open_at(world, moment);
    }
    open
}

// One where the moment is the invocation of such a call, and else none.
fn open_at(world: &World, moment: &Moment) -> usize
    ensures count { result ≡ (if is_open world.now (moment_of moment.now) then 1 else 0) }
    ensures few { result ≤ 1 }
{
    match moment {
        Moment::Invoked { client, number, .. } => {
            if world.has_returned(*client, *number) {
                0
            } else {
                1
            }
        }
        Moment::Returned { .. } => 0,
        Moment::Stopped { .. } => 0,
    }
}

// Writes texts one after the other.
fn write_texts<K: Sink>(texts: &[Vec<u8>], sink: &mut K) -> Result<(), Unwritten>
    ensures written { Writes K.held K.faults sink.old sink.new result (flat_map (λ text. text.items) texts.now) }
    ensures later { K.faults sink.old ≤ K.faults sink.new }
    ensures steady { IsSteady K.cannot_fail K.faults sink.old sink.new }
{
    for text in texts {
        if let Err(why) = write_all(text, sink) {
            return Err(why);
        }
    }
    Ok(())
}

fn out_line(alloc: Global, line: &OutLine) -> Result<Vec<u8>, AllocError>
    ensures { IfOk result (λ text. text.items ≡ line_text line.now) }
{
    let mut text = Vec::new(alloc);
    line_text(alloc, line, &mut text)?;
    Ok(text)
}

// A line of a name and numbers.
fn count_line(alloc: Global, name: &[u8], numbers: &[u64]) -> Result<Vec<u8>, AllocError>
    ensures { IfOk result (λ text. text.items ≡ words_text (counted name.now numbers.now)) }
{
    let mut text = Vec::from_slice(alloc, name)?;
    for number in numbers {
        text.push(b' ')?;
        push_number(&mut text, *number)?;
    }
    text.push(b'\n')?;
    Ok(text)
}

fn push_number(into: &mut Vec<u8>, number: u64) -> Result<(), AllocError>
    ensures { OnOk result (into.new.items ≡ into.old.items ++ decimal number) }
{
    let mut buffer = Buffer::new();
    into.extend_from_slice(buffer.format(number).as_bytes())
}
