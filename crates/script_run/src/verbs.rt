// The verbs of a line.

ghost use Rattle.std.specs.Prelude.{◌≡◌, ◌+◌, ◌<◌, ◌≤◌, ◌^◌, ◌++◌, ◌∷◌, IfErr, IfOk, None, OnOk, false, is_some, map, true};
ghost use Rattle.machine_world.specs.Events.{comes_to, happens, seen_by};
ghost use Rattle.machine_world.specs.Refusals.{refusal};
ghost use Rattle.machine_world.specs.declared.events.Event.TheVariants as event;
ghost use Rattle.machine_world.specs.declared.outcomes.Actor.TheVariants.{Client};
ghost use Rattle.outside.specs.Faults.{IsSteady};
ghost use Rattle.script_meaning.specs.Lines.{taker_of, takes, takes_up_to, told_line, verb_lines};
ghost use Rattle.script_meaning.specs.Shown.{shown_verb};
ghost use Rattle.script_run.specs.Turns.{LastsFor, event_of, or_nothing, told_by, told_of_step, verb_told};
ghost use Rattle.script_run.specs.Written.{Writes};
ghost use Rattle.verb_history.specs.Moments.{moment_of};
ghost use Rattle.script_text.specs.OutputText.{line_text, text_of};

use crate::line_writing::{write_refusal, write_took};
use crate::shown::{shown_verb, subject_of, told_by, told_of_step};
use crate::writing::{Unwritten, write_all, write_line};
use arrayvec::ArrayVec;
use kv_ops::Step;
use outside::Sink;
use script_text::{OutLine, put_verb_line};
use std::alloc::Global;
use verb_history::Moment;
use world_core::{Actor, Event, Happened, Seen, Taken, World};

/// Who takes the verbs of a line.
#[derive(Clone, Copy, Debug, PartialEq, Eq)]
pub(crate) enum Taker {
    /// The client of this number.
    Client(u32),
    /// The client, whose verb is carried out on a lost node.
    Late(u32),
    Master,
}

impl Taker {
    fn event(self) -> Event
        ensures { result ≡ event_of self }
    {
        match self {
            Taker::Client(client) => Event::Step { client },
            Taker::Late(client) => Event::Late { client },
            Taker::Master => Event::Work,
        }
    }

    fn actor(self) -> Option<u32>
        ensures { result ≡ taker_of (event_of self) }
    {
        match self {
            Taker::Client(client) => Some(client),
            Taker::Late(client) => Some(client),
            Taker::Master => None,
        }
    }
}

/// Takes verbs until the line comes to its end by one, and at most so many; or writes why the first
/// is refused.
pub(crate) fn take_up_to<K: Sink>(
    alloc: Global,
    most: u64,
    shows: bool,
    taker: Taker,
    world: &mut World,
    sink: &mut K,
) -> Result<(), Unwritten>
    requires room { world.old.events + most ≤ 2 ^ 63 }
    requires lasts { LastsFor taker most }
    ensures written { Writes K.held K.faults sink.old sink.new result
        (text_of (takes_up_to most shows (event_of taker) world.old).lines) }
    ensures world { OnOk result (world.new ≡ (takes_up_to most shows (event_of taker) world.old).world) }
    ensures few { OnOk result (world.new.events ≤ world.old.events + most) }
    ensures later { K.faults sink.old ≤ K.faults sink.new }
    ensures steady { IsSteady K.cannot_fail K.faults sink.old sink.new }
{
    match world.refusal(&taker.event()) {
        Some(reason) => write_refusal(alloc, reason, sink),
        None => take(alloc, most, shows, taker, world, sink),
    }
}

// Takes verbs where the first is not refused. None of the later ones is, since the line would have come
// to its end.
fn take<K: Sink>(
    alloc: Global,
    most: u64,
    shows: bool,
    taker: Taker,
    world: &mut World,
    sink: &mut K,
) -> Result<(), Unwritten>
    requires room { world.old.events + most ≤ 2 ^ 63 }
    requires lasts { LastsFor taker most }
    requires lawful { refusal world.old (event_of taker) ≡ None }
    ensures written { Writes K.held K.faults sink.old sink.new result
        (text_of (takes shows (event_of taker) 0 most world.old).lines) }
    ensures world { OnOk result (world.new ≡ (takes shows (event_of taker) 0 most world.old).world) }
    ensures few { OnOk result (world.new.events ≤ world.old.events + most) }
    ensures later { K.faults sink.old ≤ K.faults sink.new }
    ensures steady { IsSteady K.cannot_fail K.faults sink.old sink.new }
{
    for taken in 0..most {
        match take_one(alloc, shows, taker, world, sink) {
            Ok(true) => return Ok(()),
            Ok(false) => {}
            Err(why) => return Err(why),
        }
    }
    write_took(alloc, taker.actor(), most, sink)
}

// Takes one verb, and writes it where verbs are shown. Where the line comes to its end by it, what came
// of it is written, and the answer is true.
#[inline(always)]
fn take_one<K: Sink>(
    alloc: Global,
    shows: bool,
    taker: Taker,
    world: &mut World,
    sink: &mut K,
) -> Result<bool, Unwritten>
    requires room { world.old.events < 2 ^ 63 }
    requires lawful { refusal world.old (event_of taker) ≡ None }
    ensures written { Writes K.held K.faults sink.old sink.new result
        (text_of (verb_told shows world.old (event_of taker))) }
    ensures ends { IfOk result (λ ends. ends ≡ is_some (told_line world.old (comes_to world.old (event_of taker)))) }
    ensures world { OnOk result (world.new ≡ happens world.old (event_of taker)) }
    ensures later { K.faults sink.old ≤ K.faults sink.new }
    ensures steady { IsSteady K.cannot_fail K.faults sink.old sink.new }
{
    match taker {
        Taker::Client(client) if shows => take_shown(alloc, client, world, sink),
        Taker::Client(client) => take_unshown(alloc, client, world, sink),
        _ => take_event(alloc, shows, taker, world, sink),
    }
}

// Takes a client's verb and writes it.
fn take_shown<K: Sink>(
    alloc: Global,
    client: u32,
    world: &mut World,
    sink: &mut K,
) -> Result<bool, Unwritten>
    requires room { world.old.events < 2 ^ 63 }
    requires lawful { refusal world.old (event.Step client) ≡ None }
    ensures written { Writes K.held K.faults sink.old sink.new result
        (text_of (verb_told true world.old (event.Step client))) }
    ensures ends { IfOk result (λ ends. ends
        ≡ is_some (told_line world.old (comes_to world.old (event.Step client)))) }
    ensures world { OnOk result (world.new ≡ happens world.old (event.Step client)) }
    ensures later { K.faults sink.old ≤ K.faults sink.new }
    ensures steady { IsSteady K.cannot_fail K.faults sink.old sink.new }
{
    match world.take(client, false) {
        Ok(taken) => write_taken(alloc, client, taken, world.moments(), sink),
        Err(_) => Err(Unwritten::NoMemory),
    }
}

// Writes a client's verb and what it has told, and answers whether that is anything.
fn write_taken<K: Sink>(
    alloc: Global,
    client: u32,
    taken: Taken,
    moments: &[Moment],
    sink: &mut K,
) -> Result<bool, Unwritten>
    ensures written { Writes K.held K.faults sink.old sink.new result
        (text_of (shown_verb (seen_by (Client client) taken.verb taken.answer)
        ∷ or_nothing (told_of_step client taken.step (map moment_of moments.now)))) }
    ensures told { IfOk result (λ is_told. is_told
        ≡ is_some (told_of_step client taken.step (map moment_of moments.now))) }
    ensures later { K.faults sink.old ≤ K.faults sink.new }
    ensures steady { IsSteady K.cannot_fail K.faults sink.old sink.new }
{
    let seen = Seen {
        actor: Actor::Client(client),
        verb: taken.verb,
        answer: taken.answer,
    };
    match write_seen(seen, sink) {
        Ok(()) => write_step(alloc, client, taken.step, moments, sink),
        Err(why) => Err(why),
    }
}

// Writes a verb with its answer. Its line is made in place.
fn write_seen<K: Sink>(seen: Seen, sink: &mut K) -> Result<(), Unwritten>
    ensures written { Writes K.held K.faults sink.old sink.new result (line_text (shown_verb seen)) }
    ensures later { K.faults sink.old ≤ K.faults sink.new }
    ensures steady { IsSteady K.cannot_fail K.faults sink.old sink.new }
{
    let mut line = ArrayVec::new();
    put_verb_line(&mut line, &shown_verb(seen));
    write_all(line.as_slice(), sink)
}

// Takes a client's verb that is not to be written.
#[inline(always)]
fn take_unshown<K: Sink>(
    alloc: Global,
    client: u32,
    world: &mut World,
    sink: &mut K,
) -> Result<bool, Unwritten>
    requires room { world.old.events < 2 ^ 63 }
    requires lawful { refusal world.old (event.Step client) ≡ None }
    ensures written { Writes K.held K.faults sink.old sink.new result
        (text_of (verb_told false world.old (event.Step client))) }
    ensures ends { IfOk result (λ ends. ends
        ≡ is_some (told_line world.old (comes_to world.old (event.Step client)))) }
    ensures world { OnOk result (world.new ≡ happens world.old (event.Step client)) }
    ensures later { K.faults sink.old ≤ K.faults sink.new }
    ensures steady { IsSteady K.cannot_fail K.faults sink.old sink.new }
{
    match world.step(client) {
        Ok(Step::Going) => Ok(false),
        Ok(step) => write_told_step(alloc, client, step, world.moments(), sink),
        Err(_) => Err(Unwritten::NoMemory),
    }
}

// Writes what a client's verb has told, and answers whether that is anything.
#[inline(always)]
fn write_step<K: Sink>(
    alloc: Global,
    client: u32,
    step: Step,
    moments: &[Moment],
    sink: &mut K,
) -> Result<bool, Unwritten>
    ensures written { Writes K.held K.faults sink.old sink.new result
        (text_of (or_nothing (told_of_step client step (map moment_of moments.now)))) }
    ensures told { IfOk result (λ is_told. is_told ≡ is_some (told_of_step client step (map moment_of moments.now))) }
    ensures later { K.faults sink.old ≤ K.faults sink.new }
    ensures steady { IsSteady K.cannot_fail K.faults sink.old sink.new }
{
    if let Step::Going = step {
        return Ok(false);
    }
    write_told_step(alloc, client, step, moments, sink)
}

// Apart from the path of a verb: few tell something, and a line takes much room.
#[inline(never)]
fn write_told_step<K: Sink>(
    alloc: Global,
    client: u32,
    step: Step,
    moments: &[Moment],
    sink: &mut K,
) -> Result<bool, Unwritten>
    ensures written { Writes K.held K.faults sink.old sink.new result
        (text_of (or_nothing (told_of_step client step (map moment_of moments.now)))) }
    ensures told { IfOk result (λ is_told. is_told ≡ is_some (told_of_step client step (map moment_of moments.now))) }
    ensures later { K.faults sink.old ≤ K.faults sink.new }
    ensures steady { IsSteady K.cannot_fail K.faults sink.old sink.new }
{
    let told = told_of_step(alloc, client, step, moments)?;
    write_told(alloc, told, sink)
}

// Takes a verb as an event of the world.
fn take_event<K: Sink>(
    alloc: Global,
    shows: bool,
    taker: Taker,
    world: &mut World,
    sink: &mut K,
) -> Result<bool, Unwritten>
    requires room { world.old.events < 2 ^ 63 }
    requires lawful { refusal world.old (event_of taker) ≡ None }
    ensures written { Writes K.held K.faults sink.old sink.new result
        (text_of (verb_told shows world.old (event_of taker))) }
    ensures ends { IfOk result (λ ends. ends ≡ is_some (told_line world.old (comes_to world.old (event_of taker)))) }
    ensures world { OnOk result (world.new ≡ happens world.old (event_of taker)) }
    ensures later { K.faults sink.old ≤ K.faults sink.new }
    ensures steady { IsSteady K.cannot_fail K.faults sink.old sink.new }
{
    let subject = subject_of(world.task());
    match advance(taker.event(), world) {
        Ok(happened) => write_turn(alloc, shows, subject, happened, world.moments(), sink),
        Err(why) => Err(why),
    }
}

/// Carries out an event that is not refused.
pub(crate) fn advance(event: Event, world: &mut World) -> Result<Happened, Unwritten>
    requires room { world.old.events < 2 ^ 63 }
    requires lawful { refusal world.old event ≡ None }
    ensures happened { IfOk result (λ happened. happened ≡ comes_to world.old event) }
    ensures world { OnOk result (world.new ≡ happens world.old event) }
    ensures memory { IfErr result (λ why. why ≡ Unwritten.NoMemory) }
{
    match world.carry_out(event) {
        Ok(happened) => Ok(happened),
        Err(_) => Err(Unwritten::NoMemory),
    }
}

// Writes what has happened: the verb, where verbs are shown, and what came of it, if it is told. The
// answer is whether it is.
fn write_turn<K: Sink>(
    alloc: Global,
    shows: bool,
    subject: u32,
    happened: Happened,
    moments: &[Moment],
    sink: &mut K,
) -> Result<bool, Unwritten>
    ensures written { Writes K.held K.faults sink.old sink.new result
        (text_of (verb_lines shows happened ++ or_nothing (told_by subject happened (map moment_of moments.now)))) }
    ensures told { IfOk result (λ is_told. is_told ≡ is_some (told_by subject happened (map moment_of moments.now))) }
    ensures later { K.faults sink.old ≤ K.faults sink.new }
    ensures steady { IsSteady K.cannot_fail K.faults sink.old sink.new }
{
    match write_verb(shows, happened, sink) {
        Ok(()) => write_told_by(alloc, subject, happened, moments, sink),
        Err(why) => Err(why),
    }
}

fn write_told_by<K: Sink>(
    alloc: Global,
    subject: u32,
    happened: Happened,
    moments: &[Moment],
    sink: &mut K,
) -> Result<bool, Unwritten>
    ensures written { Writes K.held K.faults sink.old sink.new result
        (text_of (or_nothing (told_by subject happened (map moment_of moments.now)))) }
    ensures told { IfOk result (λ is_told. is_told ≡ is_some (told_by subject happened (map moment_of moments.now))) }
    ensures later { K.faults sink.old ≤ K.faults sink.new }
    ensures steady { IsSteady K.cannot_fail K.faults sink.old sink.new }
{
    let told = told_by(alloc, subject, happened, moments)?;
    write_told(alloc, told, sink)
}

fn write_verb<K: Sink>(shows: bool, happened: Happened, sink: &mut K) -> Result<(), Unwritten>
    ensures written { Writes K.held K.faults sink.old sink.new result (text_of (verb_lines shows happened)) }
    ensures later { K.faults sink.old ≤ K.faults sink.new }
    ensures steady { IsSteady K.cannot_fail K.faults sink.old sink.new }
{
    if !shows {
        return Ok(());
    }
    match happened {
        Happened::Stepped { seen, .. } => write_seen(seen, sink),
        Happened::Recovering { seen, .. } => write_seen(seen, sink),
        Happened::Settling { seen, .. } => write_seen(seen, sink),
        Happened::Joining { seen, .. } => write_seen(seen, sink),
        Happened::Registered(_) => Ok(()),
        Happened::Invoked(_) => Ok(()),
        Happened::Stopped => Ok(()),
        Happened::Lost => Ok(()),
        Happened::Filled => Ok(()),
        Happened::Chosen => Ok(()),
    }
}

// Writes what is told, and answers whether something is.
fn write_told<K: Sink>(
    alloc: Global,
    told: Option<OutLine>,
    sink: &mut K,
) -> Result<bool, Unwritten>
    ensures written { Writes K.held K.faults sink.old sink.new result (text_of (or_nothing told)) }
    ensures told { IfOk result (λ is_told. is_told ≡ is_some told) }
    ensures later { K.faults sink.old ≤ K.faults sink.new }
    ensures steady { IsSteady K.cannot_fail K.faults sink.old sink.new }
{
    match told {
        Some(line) => {
            write_line(alloc, &line, sink)?;
            Ok(true)
        }
        None => Ok(false),
    }
}
