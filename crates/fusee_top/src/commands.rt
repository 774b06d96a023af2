ghost use Rattle.std.specs.Prelude.{◌≡◌, ◌⊎◌, ◌≤◌, Some, length, map, true};
ghost use Rattle.std.specs.String.{string_bytes};
ghost use Rattle.outside.specs.Faults.{IsSteady};
ghost use Rattle.fusee_top.specs.Course.{Ends, Starves, sink_course};
ghost use Rattle.fusee_top.specs.Endings.{Comes, Ending, ending_status, ending_text};
ghost use Rattle.fusee_top.specs.Words.{IsNamed, are_numbers, command_of, leases_of, lone, numbers_in, reads, sim_of, sim_under, terms_in};
ghost use Rattle.fusee_top.specs.declared.commands.Command.{Command};

use crate::audits::audit_text;
use crate::leases::run_leases;
use crate::options::{Misread, option_values};
use crate::scripts::run_script;
use lease_core::{Terms, terms_of};
use outside::Sink;
use sim_meaning::Numbers;
use std::alloc::Global;

/// What the words of a call name.
#[derive(Clone, Copy, Debug)]
pub enum Command {
    /// `script`: run a script.
    Script,
    /// `audit`: tell whether the last history of an output is a history of one map.
    Audit,
    /// `leases --length L --error E`: answer lease lines, under these terms.
    Leases(Terms),
    /// `sim --seed S --clients C --calls M --stops P --losses Q`: simulate this many clients, calls,
    /// stops and losses, and tell what came of it.
    Sim(Numbers),
}

/// The command that the words name, if they have the form of one.
pub fn command_of(alloc: Global, words: &[String]) -> Result<Command, Misread>
    ensures { IsNamed result (command_of (map string_bytes words.now)) }
{
    let Some((name, words)) = words.split_first() else {
        return Err(Misread::Form);
    };
    match name.as_str() {
        "script" => lone(Command::Script, words),
        "audit" => lone(Command::Audit, words),
        "leases" => leases_of(alloc, words),
        "sim" => sim_of(alloc, words),
        _ => Err(Misread::Form),
    }
}

// The command, where no word follows its name.
fn lone(command: Command, words: &[String]) -> Result<Command, Misread>
    ensures { IsNamed result (lone command (map string_bytes words.now)) }
{
    if words.is_empty() {
        Ok(command)
    } else {
        Err(Misread::Form)
    }
}

// Leases under the terms that the words behind the name give.
fn leases_of(alloc: Global, words: &[String]) -> Result<Command, Misread>
    ensures { IsNamed result (leases_of (map string_bytes words.now)) }
{
    let names = ["length", "error"];
    let values = option_values(alloc, &names, words)?;
    let [length, error] = values.as_slice() else {
        return Err(Misread::Form);
    };
    let Some(terms) = terms_in(*length, *error) else {
        return Err(Misread::Form);
    };
    Ok(Command::Leases(terms))
}

fn terms_in(length: u64, error: u64) -> Option<Terms>
    ensures { result ≡ terms_in length error }
{
    terms_of(length, error)
}

// A simulation of the numbers that the words behind the name give.
fn sim_of(alloc: Global, words: &[String]) -> Result<Command, Misread>
    ensures { IsNamed result (sim_of (map string_bytes words.now)) }
{
    let names = ["seed", "clients", "calls", "stops", "losses"];
    match option_values(alloc, &names, words) {
        Ok(values) => sim_under(&values),
        Err(why) => Err(why),
    }
}

// A simulation of the values of its options, in the order of their names.
fn sim_under(values: &[u64]) -> Result<Command, Misread>
    ensures { IsNamed result (sim_under (Some values.now)) }
{
    let [seed, clients, calls, stops, losses] = values else {
        return Err(Misread::Form);
    };
    match numbers_in(*seed, *clients, *calls, *stops, *losses) {
        Some(numbers) => Ok(Command::Sim(numbers)),
        None => Err(Misread::Form),
    }
}

// The numbers of a simulation, if there may be such a one.
fn numbers_in(seed: u64, clients: u64, calls: u64, stops: u64, losses: u64) -> Option<Numbers>
    ensures { result ≡ numbers_in seed clients calls stops losses }
{
    if !are_numbers(clients, calls, stops, losses) {
        return None;
    }
    Some(Numbers {
        seed,
        clients: clients as u32,
        calls: calls as u32,
        stops: stops as u32,
        losses: losses as u32,
    })
}

fn are_numbers(clients: u64, calls: u64, stops: u64, losses: u64) -> bool
    ensures { result ≡ are_numbers clients calls stops losses }
{
    0 < clients
        && clients <= 64
        && 0 < calls
        && calls <= 10_000
        && clients * calls <= 100_000
        && stops < clients
        && losses <= 2
}

/// Carries out a command that reads, over all that was read.
pub fn carry_out<K: Sink>(alloc: Global, command: Command, text: &[u8], sink: &mut K) -> u8
    requires reads { reads command ≡ true }
    requires size { length text.now ≤ 4194304 }
    ensures ends { Starves (sink_course K.held K.faults sink.old sink.new) result
        ⊎ ((ending : Ending) × Comes command text.now ending
        × Ends (sink_course K.held K.faults sink.old sink.new)
        (ending_text ending) (ending_status ending) result) }
    ensures steady { IsSteady K.cannot_fail K.faults sink.old sink.new }
{
    match command {
        Command::Script => run_script(alloc, text, sink),
        Command::Audit => audit_text(alloc, text, sink),
        Command::Leases(terms) => run_leases(alloc, terms, text, sink),
        Command::Sim(_) => unreachable!(),
    }
}
