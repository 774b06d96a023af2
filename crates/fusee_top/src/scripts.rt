ghost use Rattle.std.specs.Prelude.{◌≡◌, ◌≤◌, IfOk, length};
ghost use Rattle.outside.specs.Faults.{IsSteady};
ghost use Rattle.script_meaning.specs.Scripts.{rendered};
ghost use Rattle.script_text.specs.ScriptForm.{reading_of};
ghost use Rattle.script_text.specs.ScriptRead.{plan_of};
ghost use Rattle.script_text.specs.ShapeForm.{IsWithin};
ghost use Rattle.script_run.specs.declared.running.TheConstants as run;
ghost use Rattle.fusee_top.specs.Course.{Concludes, sink_course};
ghost use Rattle.fusee_top.specs.Endings.{ending_status, ending_text, script_ending, sized_ending};
ghost use Rattle.fusee_top.specs.Parsed.{IsScript};
ghost use Rattle.fusee_top.specs.Sizes.{shape_words};

use crate::notices::{DONE, NO_MEMORY, Notice, WRITE_FAULT, write_notice};
use outside::Sink;
use region_view::words;
use script_run::{MOST_WORDS, Ran, run};
use script_text::{Script, ScriptFault, Shape, parse};
use std::alloc::Global;

/// Carries out `script`: runs the script that a text is, or tells why it is not run.
pub fn run_script<K: Sink>(alloc: Global, text: &[u8], sink: &mut K) -> u8
    requires { length text.now ≤ 4194304 }
    ensures ends { Concludes (sink_course K.held K.faults sink.old sink.new)
        (ending_text (script_ending text.now))
        (ending_status (script_ending text.now)) result }
    ensures steady { IsSteady K.cannot_fail K.faults sink.old sink.new }
{
    match read_script(alloc, text) {
        Ok(script) => run_sized(alloc, &script, sink),
        Err(ScriptFault::BadLine { number, kind }) => {
            write_notice(alloc, Notice::BadLine { number, kind }, sink)
        }
        Err(ScriptFault::NoMemory) => NO_MEMORY,
    }
}

// Reads a script, which has no more lines than bytes.
fn read_script(alloc: Global, text: &[u8]) -> Result<Script, ScriptFault>
    requires { length text.now ≤ 4194304 }
    ensures read { IsScript result (reading_of text.now) }
    ensures within { IfOk result (λ script. IsWithin script.shape) }
    ensures few { IfOk result (λ script. length script.lines.items ≤ length text.now) }
{
    parse(alloc, text)
}

// Runs a script whose shape may ask for too many words.
fn run_sized<K: Sink>(alloc: Global, script: &Script, sink: &mut K) -> u8
    requires within { IsWithin script.now.shape }
    requires few { length script.now.lines.items ≤ 4194304 }
    ensures ends { Concludes (sink_course K.held K.faults sink.old sink.new)
        (ending_text (sized_ending (plan_of script.now)))
        (ending_status (sized_ending (plan_of script.now))) result }
    ensures steady { IsSteady K.cannot_fail K.faults sink.old sink.new }
{
    let count = words_of(&script.shape);
    if count > MOST_WORDS {
        return write_notice(alloc, Notice::TooLarge(count), sink);
    }
    print_script(alloc, script, sink)
}

// How many words a shape asks for.
fn words_of(shape: &Shape) -> u64
    requires { IsWithin shape.now }
    ensures { result ≡ shape_words shape.now }
{
    words(&region_view::Shape {
        nodes: shape.nodes,
        replicas: shape.replicas,
        regions: shape.regions,
        blocks: shape.blocks,
        groups: shape.groups,
        clients: shape.clients,
        calls: shape.calls,
    })
}

// Runs a script that asks for no more words than there may be.
fn print_script<K: Sink>(alloc: Global, script: &Script, sink: &mut K) -> u8
    requires within { IsWithin script.now.shape }
    requires words { shape_words script.now.shape ≤ run.MOST_WORDS }
    requires few { length script.now.lines.items ≤ 4194304 }
    ensures ends { Concludes (sink_course K.held K.faults sink.old sink.new) (rendered script.now) 0 result }
    ensures steady { IsSteady K.cannot_fail K.faults sink.old sink.new }
{
    match run(alloc, script, sink) {
        Ran::Whole => DONE,
        Ran::WriteFault => WRITE_FAULT,
        Ran::NoMemory => NO_MEMORY,
    }
}
