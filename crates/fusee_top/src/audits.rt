ghost use Rattle.std.specs.Prelude.{◌≡◌, ◌⊎◌, ◌+◌, ◌<◌, ◌≤◌, ◌^◌, ◌++◌, OnOk, IfErr, IfOk, Ok, length};
ghost use Rattle.outside.specs.Faults.{IsSteady};
ghost use Rattle.script_text.specs.OutputRead.{IsBad, output_of};
ghost use Rattle.trace_audit.specs.Verdicts.{IsVerdict};
ghost use Rattle.trace_audit.specs.declared.verdicts.Verdict.{Verdict};
ghost use Rattle.fusee_top.specs.Course.{Ends, Starves, sink_course};
ghost use Rattle.fusee_top.specs.Endings.{Ending, IsOutputEnding, ending_status, ending_text};
ghost use Rattle.fusee_top.specs.Verdict.{call_name, fault_name, verdict_text};

use crate::notices::{DONE, NO_MEMORY, Notice, ended, push_number, write_notice};
use outside::Sink;
use script_run::write_all;
use script_text::{OutLine, ScriptFault, parse_output};
use std::alloc::{AllocError, Global};
use trace_audit::{Fault, Verdict, audit};

/// Carries out `audit`: tells the verdict on the output that a text is, or its first bad line.
pub fn audit_text<K: Sink>(alloc: Global, text: &[u8], sink: &mut K) -> u8
    requires { length text.now ≤ 4194304 }
    ensures ends { Starves (sink_course K.held K.faults sink.old sink.new) result
        ⊎ ((ending : Ending) × IsOutputEnding (output_of text.now) ending
        × Ends (sink_course K.held K.faults sink.old sink.new)
        (ending_text ending) (ending_status ending) result) }
    ensures steady { IsSteady K.cannot_fail K.faults sink.old sink.new }
{
    match read_output(alloc, text) {
        Ok(lines) => tell_verdict(alloc, &lines, sink),
        Err(ScriptFault::BadLine { number, kind }) => {
            write_notice(alloc, Notice::BadLine { number, kind }, sink)
        }
        Err(ScriptFault::NoMemory) => NO_MEMORY,
    }
}

// Reads an output, which has no more lines than bytes.
fn read_output(alloc: Global, text: &[u8]) -> Result<Vec<OutLine>, ScriptFault>
    requires { length text.now ≤ 4194304 }
    ensures lines { IfOk result (λ lines. output_of text.now ≡ Ok lines.items) }
    ensures few { IfOk result (λ lines. length lines.items ≤ length text.now) }
    ensures bad { IfErr result (λ fault. IsBad fault (output_of text.now)) }
{
    parse_output(alloc, text)
}

fn tell_verdict<K: Sink>(alloc: Global, lines: &[OutLine], sink: &mut K) -> u8
    requires { length lines.now + 1 < 2 ^ 32 }
    ensures ends { Starves (sink_course K.held K.faults sink.old sink.new) result
        ⊎ ((verdict : Verdict) × IsVerdict lines.now verdict
        × Ends (sink_course K.held K.faults sink.old sink.new)
        (verdict_text verdict) 0 result) }
    ensures steady { IsSteady K.cannot_fail K.faults sink.old sink.new }
{
    let Ok(verdict) = audit(alloc, lines) else {
        return NO_MEMORY;
    };
    let mut text = Vec::new(alloc);
    if push_verdict(&mut text, verdict).is_err() {
        return NO_MEMORY;
    }
    ended(write_all(&text, sink), DONE)
}

fn push_verdict(into: &mut Vec<u8>, verdict: Verdict) -> Result<(), AllocError>
    ensures { OnOk result (into.new.items ≡ into.old.items ++ verdict_text verdict) }
{
    match verdict {
        Verdict::Linear(count) => {
            into.extend_from_slice(b"linear ")?;
            push_number(into, u64::from(count))?;
        }
        Verdict::Trace { line } => {
            into.extend_from_slice(b"trace ")?;
            push_number(into, u64::from(line))?;
        }
        Verdict::Entry {
            at,
            fault,
            client,
            number,
        } => {
            into.extend_from_slice(b"no ")?;
            push_number(into, u64::from(at))?;
            into.push(b' ')?;
            push_fault(into, fault)?;
            into.push(b' ')?;
            push_call(into, client, number)?;
        }
        Verdict::Missing { client, number } => {
            into.extend_from_slice(b"missing ")?;
            push_call(into, client, number)?;
        }
    }
    into.push(b'\n')?;
    Ok(())
}

fn push_fault(into: &mut Vec<u8>, fault: Fault) -> Result<(), AllocError>
    ensures { OnOk result (into.new.items ≡ into.old.items ++ fault_name fault) }
{
    match fault {
        Fault::Unknown => into.extend_from_slice(b"Unknown"),
        Fault::Double => into.extend_from_slice(b"Double"),
        Fault::Differs => into.extend_from_slice(b"Differs"),
        Fault::Order => into.extend_from_slice(b"Order"),
        Fault::Reply => into.extend_from_slice(b"Reply"),
    }
}

// Appends a call's client and its number.
fn push_call(into: &mut Vec<u8>, client: u32, number: u32) -> Result<(), AllocError>
    ensures { OnOk result (into.new.items ≡ into.old.items ++ call_name client number) }
{
    push_number(into, u64::from(client))?;
    into.push(b' ')?;
    push_number(into, u64::from(number))
}
