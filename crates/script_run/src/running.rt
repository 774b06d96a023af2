// Whole scripts.

ghost use Rattle.std.specs.Prelude.{◌≡◌, ◌≤◌, [], ◌∷◌, ◌++◌, false, length};
ghost use Rattle.outside.specs.Faults.{IsSteady};
ghost use Rattle.region_view.specs.Sizes.{all_words};
ghost use Rattle.script_meaning.specs.Lines.{shows_after};
ghost use Rattle.script_meaning.specs.Scripts.{rendered, runs, sizes_of};
ghost use Rattle.script_meaning.specs.Shown.{history_lines};
ghost use Rattle.script_run.specs.Written.{Prints, Writes};
ghost use Rattle.script_text.specs.OutputText.{text_of};
ghost use Rattle.script_text.specs.declared.out_lines.OutLine.TheVariants as out;
ghost use Rattle.script_text.specs.ShapeForm.{IsWithin};

use crate::lines::run_line;
use crate::printing::write_history;
use crate::writing::{Unwritten, write_line};
use outside::Sink;
use script_text::{Line, OutLine, Script, Shape};
use std::alloc::Global;
use world_core::World;

/// The most words that a script may ask for, 16 MiB.
pub const MOST_WORDS: u64 = 2_097_152;

/// How the running of a script ended.
#[derive(Clone, Copy, Debug, PartialEq, Eq)]
pub enum Ran {
    /// All of its text was written.
    Whole,
    /// A write failed.
    WriteFault,
    /// Memory was wanting, here or in the sink.
    NoMemory,
}

/// Runs a script and prints it: its lines one after the other, each in the world that the one before
/// it left, and at last the history. What a line prints is written as it happens.
pub fn run<K: Sink>(alloc: Global, script: &Script, sink: &mut K) -> Ran
    requires shape { IsWithin script.now.shape }
    requires words { all_words (sizes_of script.now.shape) ≤ MOST_WORDS }
    requires lines { length script.now.lines.items ≤ 4194304 }
    ensures written { Prints K.held K.faults sink.old sink.new result (rendered script.now) }
    ensures later { K.faults sink.old ≤ K.faults sink.new }
    ensures steady { IsSteady K.cannot_fail K.faults sink.old sink.new }
{
    match run_script(alloc, script, sink) {
        Ok(()) => Ran::Whole,
        Err(Unwritten::Fault) => Ran::WriteFault,
        Err(Unwritten::NoMemory) => Ran::NoMemory,
    }
}

fn run_script<K: Sink>(alloc: Global, script: &Script, sink: &mut K) -> Result<(), Unwritten>
    requires shape { IsWithin script.now.shape }
    requires words { all_words (sizes_of script.now.shape) ≤ MOST_WORDS }
    requires lines { length script.now.lines.items ≤ 4194304 }
    ensures written { Writes K.held K.faults sink.old sink.new result (rendered script.now) }
    ensures later { K.faults sink.old ≤ K.faults sink.new }
    ensures steady { IsSteady K.cannot_fail K.faults sink.old sink.new }
{
    let mut world = World::new(alloc, pool_of(&script.shape))?;
    run_lines(alloc, &script.lines, &mut world, sink)
}

// The pool of a script.
fn pool_of(shape: &Shape) -> region_view::Shape
    requires { IsWithin shape.now }
    ensures { result ≡ sizes_of shape.now }
{
    region_view::Shape {
        nodes: shape.nodes,
        replicas: shape.replicas,
        regions: shape.regions,
        blocks: shape.blocks,
        groups: shape.groups,
        clients: shape.clients,
        calls: shape.calls,
    }
}

fn run_lines<K: Sink>(
    alloc: Global,
    lines: &[Line],
    world: &mut World,
    sink: &mut K,
) -> Result<(), Unwritten>
    requires few { length lines.now ≤ 4194304 }
    requires begins { world.old.events ≡ 0 }
    ensures written { Writes K.held K.faults sink.old sink.new result (text_of (runs lines.now false world.old).lines) }
    ensures later { K.faults sink.old ≤ K.faults sink.new }
    ensures steady { IsSteady K.cannot_fail K.faults sink.old sink.new }
{
    let mut shows = false;
    for line in lines {
        match run_line(alloc, shows, line, world, sink) {
            Ok(()) => shows = shows_after(shows, line),
            Err(why) => return Err(why),
        }
    }
    write_ending(alloc, world, sink)
}

// Whether verbs are shown after a line.
fn shows_after(shows: bool, line: &Line) -> bool
    ensures { result ≡ shows_after shows line.now }
{
    match line {
        Line::Verbs(on) => *on,
        _ => shows,
    }
}

// The history, and the end.
fn write_ending<K: Sink>(alloc: Global, world: &World, sink: &mut K) -> Result<(), Unwritten>
    ensures written { Writes K.held K.faults sink.old sink.new result
        (text_of (history_lines world.now ++ out.End ∷ [])) }
    ensures later { K.faults sink.old ≤ K.faults sink.new }
    ensures steady { IsSteady K.cannot_fail K.faults sink.old sink.new }
{
    match write_history(alloc, world, sink) {
        Ok(()) => write_line(alloc, &OutLine::End, sink),
        Err(why) => Err(why),
    }
}
