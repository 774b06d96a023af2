// The lines of a script, each carried out and printed.

ghost use Rattle.std.specs.Prelude.{◌≡◌, ◌+◌, ◌<◌, ◌≤◌, ◌^◌, IfOk, None, OnOk, length};
ghost use Rattle.machine_world.specs.Events.{happens};
ghost use Rattle.machine_world.specs.Refusals.{refusal};
ghost use Rattle.machine_world.specs.declared.events.Event.TheVariants as events;
ghost use Rattle.map_model.specs.declared.calls.Call.TheVariants as made;
ghost use Rattle.outside.specs.Faults.{IsSteady};
ghost use Rattle.script_meaning.specs.Lines.{calls, followed_by, is_settling, makes, meaning, most_verbs, once, only_calls, settles, takes_up_to, works_on};
ghost use Rattle.script_run.specs.Turns.{number_in};
ghost use Rattle.script_run.specs.Written.{Writes};
ghost use Rattle.script_text.specs.OutputText.{line_text, text_of};
ghost use Rattle.script_text.specs.declared.out_lines.OutLine.TheVariants as out;
ghost use Rattle.trace_audit.specs.Told.{call_of};

use crate::line_writing::write_refusal;
use crate::printing::{write_division, write_dump, write_history};
use crate::shown::{call_of, copy_call, copy_text};
use crate::verbs::{Taker, advance, take_up_to};
use crate::writing::{Unwritten, write_line};
use outside::Sink;
use script_text::{CallText, Line, OutLine, Text};
use std::alloc::{AllocError, Global};
use world_core::{Event, Happened, Task, World};

/// A line that goes on takes so many verbs at most.
pub(crate) const MOST_VERBS: u64 = 4_294_967_296;

/// Carries out a line, and writes what it prints.
pub(crate) fn run_line<K: Sink>(
    alloc: Global,
    shows: bool,
    line: &Line,
    world: &mut World,
    sink: &mut K,
) -> Result<(), Unwritten>
    requires { world.old.events + (2 ^ 32 + 1) ≤ 2 ^ 63 }
    ensures written { Writes K.held K.faults sink.old sink.new result
        (text_of (meaning shows world.old line.now).lines) }
    ensures world { OnOk result (world.new ≡ (meaning shows world.old line.now).world) }
    ensures few { OnOk result (world.new.events ≤ world.old.events + (2 ^ 32 + 1)) }
    ensures later { K.faults sink.old ≤ K.faults sink.new }
    ensures steady { IsSteady K.cannot_fail K.faults sink.old sink.new }
{
    match line {
        Line::Register => register(alloc, world, sink),
        Line::Put { client, key, value } => {
            make_put(alloc, shows, *client, key, value, world, sink)
        }
        Line::Get { client, key } => make_get(alloc, shows, *client, key, world, sink),
        Line::Delete { client, key } => make_delete(alloc, shows, *client, key, world, sink),
        Line::Call { client, call } => only_named_call(alloc, *client, call, world, sink),
        Line::Step { client, count } => {
            let taker = Taker::Client(*client);
            take_up_to(alloc, u64::from(*count), shows, taker, world, sink)
        }
        Line::Go(client) => {
            let taker = Taker::Client(*client);
            take_up_to(alloc, MOST_VERBS, shows, taker, world, sink)
        }
        Line::Late(client) => take_up_to(alloc, 1, shows, Taker::Late(*client), world, sink),
        Line::Stop(client) => {
            let event = Event::Stop { client: *client };
            happen(alloc, event, &OutLine::Stopped(*client), world, sink)
        }
        Line::Lose(node) => {
            let event = Event::Lose { node: *node };
            happen(alloc, event, &OutLine::Lost(*node), world, sink)
        }
        Line::Fill { node, word } => {
            let event = Event::Fill {
                node: *node,
                word: *word,
            };
            happen(alloc, event, &OutLine::Filled(*node), world, sink)
        }
        Line::Settle => settle(alloc, shows, world, sink),
        Line::Recover(client) => work_on(alloc, shows, Task::Recover(*client), world, sink),
        Line::Join(node) => work_on(alloc, shows, Task::Join(*node), world, sink),
        Line::TaskSettle => {
            let event = Event::Choose(Task::Settle);
            happen(alloc, event, &OutLine::TaskSettle, world, sink)
        }
        Line::TaskRecover(client) => {
            let event = Event::Choose(Task::Recover(*client));
            happen(alloc, event, &OutLine::TaskRecover(*client), world, sink)
        }
        Line::TaskJoin(node) => {
            let event = Event::Choose(Task::Join(*node));
            happen(alloc, event, &OutLine::TaskJoin(*node), world, sink)
        }
        Line::Work(count) => {
            take_up_to(alloc, u64::from(*count), shows, Taker::Master, world, sink)
        }
        Line::Verbs(_) => Ok(()),
        Line::Dump => write_dump(alloc, world, sink),
        Line::Count => write_division(alloc, world, sink),
        Line::History => write_history(alloc, world, sink),
    }
}

// An event, and the line for it.
fn happen<K: Sink>(
    alloc: Global,
    event: Event,
    line: &OutLine,
    world: &mut World,
    sink: &mut K,
) -> Result<(), Unwritten>
    requires { world.old.events < 2 ^ 63 }
    ensures written { Writes K.held K.faults sink.old sink.new result
        (text_of (once world.old event line.now).lines) }
    ensures world { OnOk result (world.new ≡ (once world.old event line.now).world) }
    ensures few { OnOk result (world.new.events ≤ world.old.events + 1) }
    ensures later { K.faults sink.old ≤ K.faults sink.new }
    ensures steady { IsSteady K.cannot_fail K.faults sink.old sink.new }
{
    match world.refusal(&event) {
        Some(reason) => write_refusal(alloc, reason, sink),
        None => happen_lawfully(alloc, event, line, world, sink),
    }
}

fn happen_lawfully<K: Sink>(
    alloc: Global,
    event: Event,
    line: &OutLine,
    world: &mut World,
    sink: &mut K,
) -> Result<(), Unwritten>
    requires room { world.old.events < 2 ^ 63 }
    requires lawful { refusal world.old event ≡ None }
    ensures written { Writes K.held K.faults sink.old sink.new result (line_text line.now) }
    ensures world { OnOk result (world.new ≡ happens world.old event) }
    ensures few { OnOk result (world.new.events ≤ world.old.events + 1) }
    ensures later { K.faults sink.old ≤ K.faults sink.new }
    ensures steady { IsSteady K.cannot_fail K.faults sink.old sink.new }
{
    match advance(event, world) {
        Ok(_) => write_line(alloc, line, sink),
        Err(why) => Err(why),
    }
}

fn register<K: Sink>(alloc: Global, world: &mut World, sink: &mut K) -> Result<(), Unwritten>
    requires { world.old.events < 2 ^ 63 }
    ensures written { Writes K.held K.faults sink.old sink.new result
        (text_of (once world.old events.Register (out.Client (length world.old.clients))).lines) }
    ensures world { OnOk result (world.new
        ≡ (once world.old events.Register (out.Client (length world.old.clients))).world) }
    ensures few { OnOk result (world.new.events ≤ world.old.events + 1) }
    ensures later { K.faults sink.old ≤ K.faults sink.new }
    ensures steady { IsSteady K.cannot_fail K.faults sink.old sink.new }
{
    match world.refusal(&Event::Register) {
        Some(reason) => write_refusal(alloc, reason, sink),
        None => register_lawfully(alloc, world, sink),
    }
}

fn register_lawfully<K: Sink>(
    alloc: Global,
    world: &mut World,
    sink: &mut K,
) -> Result<(), Unwritten>
    requires room { world.old.events < 2 ^ 63 }
    requires lawful { refusal world.old events.Register ≡ None }
    ensures written { Writes K.held K.faults sink.old sink.new result
        (line_text (out.Client (length world.old.clients))) }
    ensures world { OnOk result (world.new ≡ happens world.old events.Register) }
    ensures few { OnOk result (world.new.events ≤ world.old.events + 1) }
    ensures later { K.faults sink.old ≤ K.faults sink.new }
    ensures steady { IsSteady K.cannot_fail K.faults sink.old sink.new }
{
    match advance(Event::Register, world) {
        Ok(happened) => write_line(alloc, &OutLine::Client(number_in(happened)), sink),
        Err(why) => Err(why),
    }
}

// The number of a new client or of a new call.
fn number_in(happened: Happened) -> u32
    ensures { result ≡ number_in happened }
{
    match happened {
        Happened::Registered(number) => number,
        Happened::Invoked(number) => number,
        Happened::Stepped { .. } => 0,
        Happened::Stopped => 0,
        Happened::Lost => 0,
        Happened::Filled => 0,
        Happened::Chosen => 0,
        Happened::Recovering { .. } => 0,
        Happened::Settling { .. } => 0,
        Happened::Joining { .. } => 0,
    }
}

// A call that a line names, and that takes no verb.
fn only_named_call<K: Sink>(
    alloc: Global,
    client: u32,
    call: &CallText,
    world: &mut World,
    sink: &mut K,
) -> Result<(), Unwritten>
    requires { world.old.events < 2 ^ 63 }
    ensures written { Writes K.held K.faults sink.old sink.new result
        (text_of (only_calls world.old client (call_of call.now)).lines) }
    ensures world { OnOk result (world.new ≡ (only_calls world.old client (call_of call.now)).world) }
    ensures few { OnOk result (world.new.events ≤ world.old.events + 1) }
    ensures later { K.faults sink.old ≤ K.faults sink.new }
    ensures steady { IsSteady K.cannot_fail K.faults sink.old sink.new }
{
    let call = copy_call(alloc, call)?;
    only_call(alloc, client, call, world, sink)
}

// A call that takes no verb.
fn only_call<K: Sink>(
    alloc: Global,
    client: u32,
    call: CallText,
    world: &mut World,
    sink: &mut K,
) -> Result<(), Unwritten>
    requires { world.old.events < 2 ^ 63 }
    ensures written { Writes K.held K.faults sink.old sink.new result
        (text_of (only_calls world.old client (call_of call)).lines) }
    ensures world { OnOk result (world.new ≡ (only_calls world.old client (call_of call)).world) }
    ensures few { OnOk result (world.new.events ≤ world.old.events + 1) }
    ensures later { K.faults sink.old ≤ K.faults sink.new }
    ensures steady { IsSteady K.cannot_fail K.faults sink.old sink.new }
{
    let event = match invocation(alloc, client, &call) {
        Ok(event) => event,
        Err(_) => return Err(Unwritten::NoMemory),
    };
    match world.refusal(&event) {
        Some(reason) => write_refusal(alloc, reason, sink),
        None => invoke(alloc, event, client, call, world, sink),
    }
}

// A put and its verbs.
fn make_put<K: Sink>(
    alloc: Global,
    shows: bool,
    client: u32,
    key: &Text,
    value: &Text,
    world: &mut World,
    sink: &mut K,
) -> Result<(), Unwritten>
    requires { world.old.events + (2 ^ 32 + 1) ≤ 2 ^ 63 }
    ensures written { Writes K.held K.faults sink.old sink.new result
        (text_of (makes shows world.old client (made.Put key.now value.now)).lines) }
    ensures world { OnOk result (world.new ≡ (makes shows world.old client (made.Put key.now value.now)).world) }
    ensures few { OnOk result (world.new.events ≤ world.old.events + (2 ^ 32 + 1)) }
    ensures later { K.faults sink.old ≤ K.faults sink.new }
    ensures steady { IsSteady K.cannot_fail K.faults sink.old sink.new }
{
    let key = copy_text(alloc, key)?;
    let value = copy_text(alloc, value)?;
    make(
        alloc,
        shows,
        client,
        CallText::Put { key, value },
        world,
        sink,
    )
}

// A get and its verbs.
fn make_get<K: Sink>(
    alloc: Global,
    shows: bool,
    client: u32,
    key: &Text,
    world: &mut World,
    sink: &mut K,
) -> Result<(), Unwritten>
    requires { world.old.events + (2 ^ 32 + 1) ≤ 2 ^ 63 }
    ensures written { Writes K.held K.faults sink.old sink.new result
        (text_of (makes shows world.old client (made.Get key.now)).lines) }
    ensures world { OnOk result (world.new ≡ (makes shows world.old client (made.Get key.now)).world) }
    ensures few { OnOk result (world.new.events ≤ world.old.events + (2 ^ 32 + 1)) }
    ensures later { K.faults sink.old ≤ K.faults sink.new }
    ensures steady { IsSteady K.cannot_fail K.faults sink.old sink.new }
{
    let key = copy_text(alloc, key)?;
    make(alloc, shows, client, CallText::Get { key }, world, sink)
}

// A delete and its verbs.
fn make_delete<K: Sink>(
    alloc: Global,
    shows: bool,
    client: u32,
    key: &Text,
    world: &mut World,
    sink: &mut K,
) -> Result<(), Unwritten>
    requires { world.old.events + (2 ^ 32 + 1) ≤ 2 ^ 63 }
    ensures written { Writes K.held K.faults sink.old sink.new result
        (text_of (makes shows world.old client (made.Delete key.now)).lines) }
    ensures world { OnOk result (world.new ≡ (makes shows world.old client (made.Delete key.now)).world) }
    ensures few { OnOk result (world.new.events ≤ world.old.events + (2 ^ 32 + 1)) }
    ensures later { K.faults sink.old ≤ K.faults sink.new }
    ensures steady { IsSteady K.cannot_fail K.faults sink.old sink.new }
{
    let key = copy_text(alloc, key)?;
    make(alloc, shows, client, CallText::Delete { key }, world, sink)
}

// A call and its verbs.
fn make<K: Sink>(
    alloc: Global,
    shows: bool,
    client: u32,
    call: CallText,
    world: &mut World,
    sink: &mut K,
) -> Result<(), Unwritten>
    requires { world.old.events + (2 ^ 32 + 1) ≤ 2 ^ 63 }
    ensures written { Writes K.held K.faults sink.old sink.new result
        (text_of (makes shows world.old client (call_of call)).lines) }
    ensures world { OnOk result (world.new ≡ (makes shows world.old client (call_of call)).world) }
    ensures few { OnOk result (world.new.events ≤ world.old.events + (2 ^ 32 + 1)) }
    ensures later { K.faults sink.old ≤ K.faults sink.new }
    ensures steady { IsSteady K.cannot_fail K.faults sink.old sink.new }
{
    let event = match invocation(alloc, client, &call) {
        Ok(event) => event,
        Err(_) => return Err(Unwritten::NoMemory),
    };
    match world.refusal(&event) {
        Some(reason) => write_refusal(alloc, reason, sink),
        None => make_lawfully(alloc, shows, event, client, call, world, sink),
    }
}

fn invocation(alloc: Global, client: u32, call: &CallText) -> Result<Event, AllocError>
    ensures { IfOk result (λ made. made ≡ events.Invoke client (call_of call.now)) }
{
    let call = call_of(alloc, call)?;
    Ok(Event::Invoke { client, call })
}

fn make_lawfully<K: Sink>(
    alloc: Global,
    shows: bool,
    event: Event,
    client: u32,
    call: CallText,
    world: &mut World,
    sink: &mut K,
) -> Result<(), Unwritten>
    requires room { world.old.events + (2 ^ 32 + 1) ≤ 2 ^ 63 }
    requires event { event ≡ events.Invoke client (call_of call) }
    requires lawful { refusal world.old event ≡ None }
    ensures written { Writes K.held K.faults sink.old sink.new result
        (text_of (followed_by (calls world.old client (call_of call)) (takes_up_to most_verbs shows (events.Step client))).lines) }
    ensures world { OnOk result (world.new
        ≡ (followed_by (calls world.old client (call_of call)) (takes_up_to most_verbs shows (events.Step client))).world) }
    ensures few { OnOk result (world.new.events ≤ world.old.events + (2 ^ 32 + 1)) }
    ensures later { K.faults sink.old ≤ K.faults sink.new }
    ensures steady { IsSteady K.cannot_fail K.faults sink.old sink.new }
{
    match invoke(alloc, event, client, call, world, sink) {
        Ok(()) => take_up_to(alloc, MOST_VERBS, shows, Taker::Client(client), world, sink),
        Err(why) => Err(why),
    }
}

// Carries out this invocation of a call.
fn invoke<K: Sink>(
    alloc: Global,
    event: Event,
    client: u32,
    call: CallText,
    world: &mut World,
    sink: &mut K,
) -> Result<(), Unwritten>
    requires room { world.old.events < 2 ^ 63 }
    requires event { event ≡ events.Invoke client (call_of call) }
    requires lawful { refusal world.old event ≡ None }
    ensures written { Writes K.held K.faults sink.old sink.new result
        (text_of (calls world.old client (call_of call)).lines) }
    ensures world { OnOk result (world.new ≡ happens world.old (events.Invoke client (call_of call))) }
    ensures few { OnOk result (world.new.events ≤ world.old.events + 1) }
    ensures later { K.faults sink.old ≤ K.faults sink.new }
    ensures steady { IsSteady K.cannot_fail K.faults sink.old sink.new }
{
    match advance(event, world) {
        Ok(happened) => {
            let number = number_in(happened);
            let line = OutLine::Called {
                client,
                number,
                call,
            };
            write_line(alloc, &line, sink)
        }
        Err(why) => Err(why),
    }
}

// The settling goes on where one is under way that awaits just the clients that are stopped, and else
// begins.
fn settle<K: Sink>(
    alloc: Global,
    shows: bool,
    world: &mut World,
    sink: &mut K,
) -> Result<(), Unwritten>
    requires { world.old.events + (2 ^ 32 + 1) ≤ 2 ^ 63 }
    ensures written { Writes K.held K.faults sink.old sink.new result (text_of (settles shows world.old).lines) }
    ensures world { OnOk result (world.new ≡ (settles shows world.old).world) }
    ensures few { OnOk result (world.new.events ≤ world.old.events + (2 ^ 32 + 1)) }
    ensures later { K.faults sink.old ≤ K.faults sink.new }
    ensures steady { IsSteady K.cannot_fail K.faults sink.old sink.new }
{
    if is_settling(world) {
        take_up_to(alloc, MOST_VERBS, shows, Taker::Master, world, sink)
    } else {
        work_on(alloc, shows, Task::Settle, world, sink)
    }
}

fn is_settling(world: &World) -> bool
    ensures { result ≡ is_settling world.now world.now.master.task }
{
    match world.settling() {
        Some(stopped) => stopped == world.stopped(),
        None => false,
    }
}

// A task and its verbs.
fn work_on<K: Sink>(
    alloc: Global,
    shows: bool,
    task: Task,
    world: &mut World,
    sink: &mut K,
) -> Result<(), Unwritten>
    requires { world.old.events + (2 ^ 32 + 1) ≤ 2 ^ 63 }
    ensures written { Writes K.held K.faults sink.old sink.new result
        (text_of (works_on shows world.old task).lines) }
    ensures world { OnOk result (world.new ≡ (works_on shows world.old task).world) }
    ensures few { OnOk result (world.new.events ≤ world.old.events + (2 ^ 32 + 1)) }
    ensures later { K.faults sink.old ≤ K.faults sink.new }
    ensures steady { IsSteady K.cannot_fail K.faults sink.old sink.new }
{
    match world.refusal(&Event::Choose(task)) {
        Some(reason) => write_refusal(alloc, reason, sink),
        None => work_on_lawfully(alloc, shows, task, world, sink),
    }
}

fn work_on_lawfully<K: Sink>(
    alloc: Global,
    shows: bool,
    task: Task,
    world: &mut World,
    sink: &mut K,
) -> Result<(), Unwritten>
    requires room { world.old.events + (2 ^ 32 + 1) ≤ 2 ^ 63 }
    requires lawful { refusal world.old (events.Choose task) ≡ None }
    ensures written { Writes K.held K.faults sink.old sink.new result
        (text_of (takes_up_to most_verbs shows events.Work (happens world.old (events.Choose task))).lines) }
    ensures world { OnOk result (world.new
        ≡ (takes_up_to most_verbs shows events.Work (happens world.old (events.Choose task))).world) }
    ensures few { OnOk result (world.new.events ≤ world.old.events + (2 ^ 32 + 1)) }
    ensures later { K.faults sink.old ≤ K.faults sink.new }
    ensures steady { IsSteady K.cannot_fail K.faults sink.old sink.new }
{
    match advance(Event::Choose(task), world) {
        Ok(_) => take_up_to(alloc, MOST_VERBS, shows, Taker::Master, world, sink),
        Err(why) => Err(why),
    }
}
