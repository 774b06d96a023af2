// What is printed of the world: its words, the sizes of its parts, and its history.

ghost use Rattle.std.specs.Prelude.{◌≡◌, ◌<◌, ◌≤◌, ◌==◌, ◌++◌, IfOk, drop, false, length, map, slice_index};
ghost use Rattle.machine_world.specs.Ledger.{entry_of};
ghost use Rattle.outside.specs.Faults.{IsSteady};
ghost use Rattle.script_meaning.specs.Shown.{division_lines, dump_lines, entry_line, history_lines, shown_call, shown_reply, words_from};
ghost use Rattle.script_run.specs.Dumps.{words_at};
ghost use Rattle.script_run.specs.Written.{Writes};
ghost use Rattle.script_text.specs.OutputText.{line_text, text_of};
ghost use Rattle.script_text.specs.declared.out_lines.OutLine.TheVariants as out;
ghost use Rattle.verb_history.specs.Points.{entered_of};
ghost use Rattle.verb_words.specs.Words.{words_on};

use crate::line_writing::{write_dumped, write_history_count};
use crate::shown::{lend_call, lend_reply, shown_call, shown_reply};
use crate::writing::{Unwritten, write_all, write_line, write_lines};
use arrayvec::ArrayVec;
use map_model::Entry;
use outside::Sink;
use region_view::Shape;
use script_text::{OutLine, put_short_entry};
use std::alloc::Global;
use verb_history::Placed;
use verb_words::{Nodes, Place};
use world_core::World;

/// How many words the control node has.
pub(crate) const CONTROL_WORDS: u32 = 1040;

/// Writes the number of blocks and of objects in each state.
pub(crate) fn write_division<K: Sink>(
    alloc: Global,
    world: &World,
    sink: &mut K,
) -> Result<(), Unwritten>
    ensures written { Writes K.held K.faults sink.old sink.new result (text_of (division_lines world.now)) }
    ensures later { K.faults sink.old ≤ K.faults sink.new }
    ensures steady { IsSteady K.cannot_fail K.faults sink.old sink.new }
{
    let division = world.division();
    let blocks = OutLine::Blocks {
        unused: division.unused,
        owned: division.owned,
        awaiting: division.awaiting,
        released: division.released,
    };
    let objects = OutLine::Objects {
        stock: division.stock,
        present: division.present,
        held: division.held,
    };
    write_lines(alloc, &[blocks, objects], sink)
}

/// Writes the history, entry by entry.
pub(crate) fn write_history<K: Sink>(
    alloc: Global,
    world: &World,
    sink: &mut K,
) -> Result<(), Unwritten>
    ensures written { Writes K.held K.faults sink.old sink.new result (text_of (history_lines world.now)) }
    ensures later { K.faults sink.old ≤ K.faults sink.new }
    ensures steady { IsSteady K.cannot_fail K.faults sink.old sink.new }
{
    let order = world.in_order()?;
    write_in_order(alloc, world, order.as_slice(), sink)
}

fn write_in_order<K: Sink>(
    alloc: Global,
    world: &World,
    order: &[&Placed],
    sink: &mut K,
) -> Result<(), Unwritten>
    ensures written { Writes K.held K.faults sink.old sink.new result
        (line_text (out.History (length order.now))
        ++ text_of (map (λ one. entry_line (entry_of world.now (entered_of one.now))) order.now)) }
    ensures later { K.faults sink.old ≤ K.faults sink.new }
    ensures steady { IsSteady K.cannot_fail K.faults sink.old sink.new }
{
    match write_history_count(alloc, order.len(), sink) {
        Ok(()) => write_entries(alloc, world, order, sink),
        Err(why) => Err(why),
    }
}

fn write_entries<K: Sink>(
    alloc: Global,
    world: &World,
    order: &[&Placed],
    sink: &mut K,
) -> Result<(), Unwritten>
    ensures written { Writes K.held K.faults sink.old sink.new result
        (text_of (map (λ one. entry_line (entry_of world.now (entered_of one.now))) order.now)) }
    ensures later { K.faults sink.old ≤ K.faults sink.new }
    ensures steady { IsSteady K.cannot_fail K.faults sink.old sink.new }
{
    for one in order {
        match write_entry(alloc, world, one, sink) {
            Ok(()) => {}
            Err(why) => return Err(why),
        }
    }
    Ok(())
}

// Writes an entry, with the mark that it has now. Most have a short key and a short value, and their
// line is made of these in place.
fn write_entry<K: Sink>(
    alloc: Global,
    world: &World,
    placed: &Placed,
    sink: &mut K,
) -> Result<(), Unwritten>
    ensures written { Writes K.held K.faults sink.old sink.new result
        (line_text (entry_line (entry_of world.now (entered_of placed.now)))) }
    ensures later { K.faults sink.old ≤ K.faults sink.new }
    ensures steady { IsSteady K.cannot_fail K.faults sink.old sink.new }
{
    let entry = &placed.entry;
    let unreturned = !world.has_returned(entry.client, entry.number);
    let mut short = ArrayVec::new();
    if put_short_entry(
        &mut short,
        entry.client,
        entry.number,
        lend_call(&entry.call),
        lend_reply(&entry.reply),
        unreturned,
    ) {
        return write_all(short.as_slice(), sink);
    }
    write_long_entry(alloc, entry, unreturned, sink)
}

#[inline(never)]
fn write_long_entry<K: Sink>(
    alloc: Global,
    entry: &Entry,
    unreturned: bool,
    sink: &mut K,
) -> Result<(), Unwritten>
    ensures written { Writes K.held K.faults sink.old sink.new result
        (line_text (out.Entry entry.now.client entry.now.number
        (shown_call entry.now.call) (shown_reply entry.now.reply) unreturned)) }
    ensures later { K.faults sink.old ≤ K.faults sink.new }
    ensures steady { IsSteady K.cannot_fail K.faults sink.old sink.new }
{
    let call = shown_call(alloc, &entry.call)?;
    let reply = shown_reply(alloc, &entry.reply)?;
    let line = OutLine::Entry {
        client: entry.client,
        number: entry.number,
        call,
        reply,
        unreturned,
    };
    write_line(alloc, &line, sink)
}

/// Writes each word that is not 0, node by node, and how many there are.
pub(crate) fn write_dump<K: Sink>(
    alloc: Global,
    world: &World,
    sink: &mut K,
) -> Result<(), Unwritten>
    ensures written { Writes K.held K.faults sink.old sink.new result (text_of (dump_lines world.now)) }
    ensures later { K.faults sink.old ≤ K.faults sink.new }
    ensures steady { IsSteady K.cannot_fail K.faults sink.old sink.new }
{
    let shape = world.shape();
    let nodes = world.nodes();
    let mut dumped = 0;
    for node in 0..shape.nodes + 1 {
        match write_node(alloc, nodes, node, words_at(&shape, node), sink) {
            Ok(words) => dumped += u64::from(words),
            Err(why) => return Err(why),
        }
    }
    write_dumped(alloc, dumped, sink)
}

// How many words a node has.
fn words_at(shape: &Shape, node: u32) -> u32
    ensures { result ≡ words_at shape.now node }
{
    if node == 0 {
        return CONTROL_WORDS;
    }
    48 * shape.groups + shape.regions * (128 + 512 * shape.blocks)
}

// Writes each word of a node that is not 0, and answers how many these are.
fn write_node<K: Sink>(
    alloc: Global,
    nodes: &Nodes,
    node: u32,
    words: u32,
    sink: &mut K,
) -> Result<u32, Unwritten>
    requires node { node < length nodes.now }
    requires words { words ≡ length (words_on nodes.now node) }
    ensures written { Writes K.held K.faults sink.old sink.new result
        (text_of (words_from node 0 (words_on nodes.now node))) }
    ensures count { IfOk result (λ count. count ≡ length (words_from node 0 (words_on nodes.now node))) }
    ensures later { K.faults sink.old ≤ K.faults sink.new }
    ensures steady { IsSteady K.cannot_fail K.faults sink.old sink.new }
{
    let mut count = 0;
    let mut at = stored_from(nodes, node, 0, words);
    while at < words {
        let word = nodes.word(Place { node, at });
        match write_line(alloc, &OutLine::Word { node, at, word }, sink) {
            Ok(()) => count += 1,
            Err(why) => return Err(why),
        }
        at = stored_from(nodes, node, at + 1, words);
    }
    Ok(count)
}

// The next word that is not 0, from this one on; where there is none, the end. Most words are 0.
fn stored_from(nodes: &Nodes, node: u32, from: u32, words: u32) -> u32
    requires node { node < length nodes.now }
    requires words { words ≡ length (words_on nodes.now node) }
    requires from { from ≤ words }
    ensures least { from ≤ result }
    ensures most { result ≤ words }
    ensures stored { result < words → (slice_index (words_on nodes.now node) result == 0) ≡ false }
    ensures rest { words_from node from (drop from (words_on nodes.now node))
        ≡ words_from node result (drop result (words_on nodes.now node)) }
{
    nodes.stored_from(node, from as usize) as u32
}
