ghost use Rattle.std.specs.Prelude.{◌≡◌, ◌≤◌, OnOk, length};
ghost use Rattle.lease_core.specs.Run.{answer_of, run_after};
ghost use Rattle.outside.specs.Faults.{IsSteady};
ghost use Rattle.lease_core.specs.Text as lease;
ghost use Rattle.fusee_top.specs.Course.{Concludes, sink_course};
ghost use Rattle.fusee_top.specs.Endings.{ending_status, ending_text, kind_of_lease, leases_ending};
ghost use Rattle.script_run.specs.Written.{Writes};

use crate::notices::{DONE, NO_MEMORY, Notice, ended, write_notice};
use lease_core::{
    LeaseAnswer, LeaseFault, LeaseKind, LeaseLine, LeaseRun, Terms, parse_leases, push_answer,
};
use outside::Sink;
use script_run::{Unwritten, write_all};
use script_text::BadKind;
use std::alloc::Global;

/// Carries out `leases`: answers each line of a text, or tells its first bad line.
pub fn run_leases<K: Sink>(alloc: Global, terms: Terms, text: &[u8], sink: &mut K) -> u8
    requires { length text.now ≤ 4194304 }
    ensures ends { Concludes (sink_course K.held K.faults sink.old sink.new)
        (ending_text (leases_ending terms text.now))
        (ending_status (leases_ending terms text.now)) result }
    ensures steady { IsSteady K.cannot_fail K.faults sink.old sink.new }
{
    match parse_leases(alloc, text) {
        Ok(lines) => ended(write_answers(alloc, terms, &lines, sink), DONE),
        Err(LeaseFault::BadLine { number, kind }) => {
            let kind = kind_of(kind);
            write_notice(alloc, Notice::BadLine { number, kind }, sink)
        }
        Err(LeaseFault::NoMemory) => NO_MEMORY,
    }
}

// Writes the answer to each line once it is known, and then `end`.
fn write_answers<K: Sink>(
    alloc: Global,
    terms: Terms,
    lines: &[LeaseLine],
    sink: &mut K,
) -> Result<(), Unwritten>
    ensures written { Writes K.held K.faults sink.old sink.new result
        (lease.run_text terms lines.now) }
    ensures later { K.faults sink.old ≤ K.faults sink.new }
    ensures steady { IsSteady K.cannot_fail K.faults sink.old sink.new }
{
    let mut run = LeaseRun::new(alloc, terms)?;
    for line in lines {
        if let Err(why) = answer_line(alloc, &mut run, line, sink) {
            return Err(why);
        }
    }
    write_answer(alloc, &LeaseAnswer::End, sink)
}

// Writes the answer to the next line of a run.
fn answer_line<K: Sink>(
    alloc: Global,
    run: &mut LeaseRun,
    line: &LeaseLine,
    sink: &mut K,
) -> Result<(), Unwritten>
    ensures after { OnOk result (run.new ≡ run_after run.old line.now) }
    ensures written { Writes K.held K.faults sink.old sink.new result
        (lease.answer_text (answer_of run.old line.now)) }
    ensures later { K.faults sink.old ≤ K.faults sink.new }
    ensures steady { IsSteady K.cannot_fail K.faults sink.old sink.new }
{
    let answer = run.step(line)?;
    write_answer(alloc, &answer, sink)
}

// Writes one answer. No write is handed bytes of two lines.
fn write_answer<K: Sink>(alloc: Global, answer: &LeaseAnswer, sink: &mut K) -> Result<(), Unwritten>
    ensures written { Writes K.held K.faults sink.old sink.new result (lease.answer_text answer.now) }
    ensures later { K.faults sink.old ≤ K.faults sink.new }
    ensures steady { IsSteady K.cannot_fail K.faults sink.old sink.new }
{
    let mut text = Vec::new(alloc);
    push_answer(&mut text, answer)?;
    write_all(&text, sink)
}

fn kind_of(kind: LeaseKind) -> BadKind
    ensures { result ≡ kind_of_lease kind }
{
    match kind {
        LeaseKind::Byte => BadKind::Byte,
        LeaseKind::Word => BadKind::Word,
        LeaseKind::Count => BadKind::Count,
        LeaseKind::Number => BadKind::Number,
    }
}
