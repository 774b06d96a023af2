//! A client's verb, as it comes or late.

ghost use Rattle.std.specs.Prelude.{◌≡◌, ◌+◌, ◌++◌, ◌<◌, ◌^◌, [], None, IfOk, OnErr, OnOk, false, length, map, slice_set, true};
ghost use Rattle.kv_ops.specs.Ahead.{is_ending, is_searching};
ghost use Rattle.machine.specs.Client.{after, next, told};
ghost use Rattle.machine_world.specs.Events.{acts, answer_of, moments_of, seen_by, step_of, verb_event};
ghost use Rattle.machine_world.specs.Ledger.{final_of};
ghost use Rattle.machine_world.specs.Refusals.{refusal};
ghost use Rattle.machine_world.specs.World.{client_at};
ghost use Rattle.machine_world.specs.declared.events.Event.TheVariants as event;
ghost use Rattle.machine_world.specs.declared.outcomes.Actor.TheVariants as taker;
ghost use Rattle.machine_world.specs.declared.outcomes.Happened.TheVariants as happened;
ghost use Rattle.verb_history.specs.Moments.{moment_of};
ghost use Rattle.world_core.specs.Steps.{CanStep, IsReady, answer_for, client_in, ledger_for, nodes_for};

use crate::dues::{
    decision_of, has_own_in_stock, make_room, may_take, note_decision, note_read, note_return,
    returning_of, word_to_replace,
};
use crate::worlds::World;
use kv_ops::Step;
use machine_world::outcomes::{Actor, Happened, Seen};
use region_view::Shape;
use std::alloc::AllocError;
use verb_history::Moment;
use verb_words::{Answer, Nodes, Verb};
use world_ledger::Ledger;

/// A verb that was taken, its answer, and what came of it.
#[derive(Clone, Copy, Debug)]
pub struct Taken {
    pub verb: Verb,
    pub answer: Answer,
    pub step: Step,
}

impl World {
    /// A client takes its next verb. Late, it is carried out on a lost node too.
    pub(crate) fn act(&mut self, client: u32, late: bool) -> Result<Happened, AllocError>
        requires events { self.old.events < 2 ^ 63 }
        requires allowed { refusal self.old (verb_event late client) ≡ None }
        ensures happened { IfOk result (λ happened. happened ≡ step_of late self.old client) }
        ensures world { OnOk result (self.new ≡ acts late self.old client) }
        ensures same { OnErr result (self.new ≡ self.old) }
    {
        let taken = self.take(client, late)?;
        Ok(Happened::Stepped {
            seen: Seen {
                actor: Actor::Client(client),
                verb: taken.verb,
                answer: taken.answer,
            },
            step: taken.step,
        })
    }

    /// A client that may take its next verb takes it, as by `advance`, and what came of it is told
    /// alone: neither the verb nor its answer. Where memory is wanting nothing changes.
    #[inline(always)]
    pub fn step(&mut self, client: u32) -> Result<Step, AllocError>
        requires events { self.old.events < 2 ^ 63 }
        requires allowed { refusal self.old (event.Step client) ≡ None }
        ensures told { IfOk result (λ step. step ≡ told (client_at self.old client) (answer_of false self.old client)) }
        ensures world { OnOk result (self.new ≡ acts false self.old client) }
        ensures same { OnErr result (self.new ≡ self.old) }
    {
        let taken = self.take(client, false)?;
        Ok(taken.step)
    }

    /// The same with the verb and its answer. Late, the verb is carried out on a lost node too.
    #[inline(always)]
    pub fn take(&mut self, client: u32, late: bool) -> Result<Taken, AllocError>
        requires events { self.old.events < 2 ^ 63 }
        requires allowed { refusal self.old (verb_event late client) ≡ None }
        ensures taken { IfOk result (λ taken. happened.Stepped
            (seen_by (taker.Client client) taken.verb taken.answer) taken.step ≡ step_of late self.old client) }
        ensures world { OnOk result (self.new ≡ acts late self.old client) }
        ensures same { OnErr result (self.new ≡ self.old) }
    {
        let taken = take_verb(
            &self.shape,
            &mut self.nodes,
            &mut self.clients,
            &mut self.ledger,
            &mut self.trace,
            self.events,
            client as usize - 1,
            late,
        )?;
        self.events += 1;
        Ok(taken)
    }
}

// A verb of the client at a place of the list. Most verbs are those of a search; most others neither
// decide a slot nor end a call, and need no memory.
#[inline(always)]
fn take_verb(
    shape: &Shape,
    nodes: &mut Nodes,
    clients: &mut Vec<kv_ops::Actor>,
    ledger: &mut Ledger,
    trace: &mut Vec<Moment>,
    event: u64,
    at: usize,
    late: bool,
) -> Result<Taken, AllocError>
    requires within { at < length clients.old.items }
    requires ready { IsReady shape.now nodes.old ledger.old.ledger }
    requires client { CanStep shape.now nodes.old (client_in shape.now clients.old.items at) }
    ensures verb { IfOk result (λ taken. taken.verb ≡ next (client_in shape.now clients.old.items at)) }
    ensures answer { IfOk result (λ taken. taken.answer
        ≡ answer_for late nodes.old (client_in shape.now clients.old.items at)) }
    ensures step { IfOk result (λ taken. taken.step
        ≡ told (client_in shape.now clients.old.items at)
        (answer_for late nodes.old (client_in shape.now clients.old.items at))) }
    ensures nodes { OnOk result (nodes.new
        ≡ nodes_for late nodes.old (client_in shape.now clients.old.items at)) }
    ensures clients { OnOk result (clients.new.items
        ≡ slice_set clients.old.items at (after (client_in shape.now clients.old.items at)
        (answer_for late nodes.old (client_in shape.now clients.old.items at)))) }
    ensures ledger { OnOk result (ledger.new.ledger
        ≡ ledger_for shape.now nodes.old nodes.new event (client_in shape.now clients.old.items at)
        (answer_for late nodes.old (client_in shape.now clients.old.items at)) ledger.old.ledger) }
    ensures trace { OnOk result (map moment_of trace.new.items
        ≡ map moment_of trace.old.items ++ moments_of (client_in shape.now clients.old.items at)
        (told (client_in shape.now clients.old.items at)
        (answer_for late nodes.old (client_in shape.now clients.old.items at)))) }
    ensures same_nodes { OnErr result (nodes.new ≡ nodes.old) }
    ensures same_clients { OnErr result (clients.new.items ≡ clients.old.items) }
    ensures same_ledger { OnErr result (ledger.new.ledger ≡ ledger.old.ledger) }
    ensures same_trace { OnErr result (trace.new.items ≡ trace.old.items) }
{
    if clients[at].is_searching() {
        return Ok(take_search_verb(shape, nodes, &mut clients[at], ledger, event, late));
    }
    if may_be_noted(&clients[at]) {
        return take_noted_verb(shape, nodes, clients, ledger, trace, event, at, late);
    }
    Ok(take_plain_verb(shape, nodes, &mut clients[at], ledger, event, late))
}

// Whether the client's next verb may decide a slot or end the call.
#[inline(always)]
fn may_be_noted(actor: &kv_ops::Actor) -> bool
    ensures ends { result ≡ false → is_ending actor.now.stage ≡ false }
    ensures decides { result ≡ false → final_of actor.now.stage ≡ None }
{
    if actor.is_ending() {
        return true;
    }
    actor.final_swap().is_some()
}

// A verb of a search: it changes nothing of the memory.
#[inline(always)]
fn take_search_verb(
    shape: &Shape,
    nodes: &mut Nodes,
    actor: &mut kv_ops::Actor,
    ledger: &mut Ledger,
    event: u64,
    late: bool,
) -> Taken
    requires ready { IsReady shape.now nodes.old ledger.old.ledger }
    requires client { CanStep shape.now nodes.old actor.old }
    requires searches { is_searching actor.old.stage ≡ true }
    ensures verb { result.verb ≡ next actor.old }
    ensures answer { result.answer ≡ answer_for late nodes.old actor.old }
    ensures step { result.step ≡ told actor.old (answer_for late nodes.old actor.old) }
    ensures nodes { nodes.new ≡ nodes_for late nodes.old actor.old }
    ensures actor { actor.new ≡ after actor.old (answer_for late nodes.old actor.old) }
    ensures ledger { ledger.new.ledger ≡ ledger_for shape.now nodes.old nodes.new event actor.old
        (answer_for late nodes.old actor.old) ledger.old.ledger }
    ensures silent { moments_of actor.old (told actor.old (answer_for late nodes.old actor.old)) ≡ [] }
{
    let verb = Verb::Read(actor.place_to_read());
    let answer = nodes.apply(verb, !late);
    note_read(ledger, actor, answer, event);
    let step = actor.after_search(answer);
    Taken { verb, answer, step }
}

// A verb that neither decides a slot nor ends the call.
#[inline(always)]
fn take_plain_verb(
    shape: &Shape,
    nodes: &mut Nodes,
    actor: &mut kv_ops::Actor,
    ledger: &mut Ledger,
    event: u64,
    late: bool,
) -> Taken
    requires ready { IsReady shape.now nodes.old ledger.old.ledger }
    requires client { CanStep shape.now nodes.old actor.old }
    requires ends { is_ending actor.old.stage ≡ false }
    requires decides { final_of actor.old.stage ≡ None }
    ensures verb { result.verb ≡ next actor.old }
    ensures answer { result.answer ≡ answer_for late nodes.old actor.old }
    ensures step { result.step ≡ told actor.old (answer_for late nodes.old actor.old) }
    ensures nodes { nodes.new ≡ nodes_for late nodes.old actor.old }
    ensures actor { actor.new ≡ after actor.old (answer_for late nodes.old actor.old) }
    ensures ledger { ledger.new.ledger ≡ ledger_for shape.now nodes.old nodes.new event actor.old
        (answer_for late nodes.old actor.old) ledger.old.ledger }
    ensures silent { moments_of actor.old (told actor.old (answer_for late nodes.old actor.old)) ≡ [] }
{
    let verb = actor.next();
    let may_take = may_take(shape, actor, verb.place());
    let was_in_stock = has_own_in_stock(nodes, shape, actor, may_take);
    let answer = nodes.apply(verb, !late);
    note_read(ledger, actor, answer, event);
    let is_in_stock = has_own_in_stock(nodes, shape, actor, may_take);
    ledger.note_taking(
        shape,
        actor.client(),
        actor.object(),
        was_in_stock,
        is_in_stock,
    );
    let step = actor.after(answer);
    Taken { verb, answer, step }
}

// A verb that may decide a slot or end the call: room for what it may bring is made before it is taken.
#[inline(never)]
fn take_noted_verb(
    shape: &Shape,
    nodes: &mut Nodes,
    clients: &mut Vec<kv_ops::Actor>,
    ledger: &mut Ledger,
    trace: &mut Vec<Moment>,
    event: u64,
    at: usize,
    late: bool,
) -> Result<Taken, AllocError>
    requires within { at < length clients.old.items }
    requires ready { IsReady shape.now nodes.old ledger.old.ledger }
    requires client { CanStep shape.now nodes.old (client_in shape.now clients.old.items at) }
    ensures verb { IfOk result (λ taken. taken.verb ≡ next (client_in shape.now clients.old.items at)) }
    ensures answer { IfOk result (λ taken. taken.answer
        ≡ answer_for late nodes.old (client_in shape.now clients.old.items at)) }
    ensures step { IfOk result (λ taken. taken.step
        ≡ told (client_in shape.now clients.old.items at)
        (answer_for late nodes.old (client_in shape.now clients.old.items at))) }
    ensures nodes { OnOk result (nodes.new
        ≡ nodes_for late nodes.old (client_in shape.now clients.old.items at)) }
    ensures clients { OnOk result (clients.new.items
        ≡ slice_set clients.old.items at (after (client_in shape.now clients.old.items at)
        (answer_for late nodes.old (client_in shape.now clients.old.items at)))) }
    ensures ledger { OnOk result (ledger.new.ledger
        ≡ ledger_for shape.now nodes.old nodes.new event (client_in shape.now clients.old.items at)
        (answer_for late nodes.old (client_in shape.now clients.old.items at)) ledger.old.ledger) }
    ensures trace { OnOk result (map moment_of trace.new.items
        ≡ map moment_of trace.old.items ++ moments_of (client_in shape.now clients.old.items at)
        (told (client_in shape.now clients.old.items at)
        (answer_for late nodes.old (client_in shape.now clients.old.items at)))) }
    ensures same_nodes { OnErr result (nodes.new ≡ nodes.old) }
    ensures same_clients { OnErr result (clients.new.items ≡ clients.old.items) }
    ensures same_ledger { OnErr result (ledger.new.ledger ≡ ledger.old.ledger) }
    ensures same_trace { OnErr result (trace.new.items ≡ trace.old.items) }
{
    let alloc = *trace.allocator();
    let actor = &clients[at];
    let decision = decision_of(alloc, actor, actor.final_swap())?;
    let returning = returning_of(alloc, actor)?;
    make_room(ledger, trace, &decision)?;
    let before = word_to_replace(nodes, shape, &decision);
    let verb = actor.next();
    let may_take = may_take(shape, actor, verb.place());
    let was_in_stock = has_own_in_stock(nodes, shape, actor, may_take);
    let answer = nodes.apply(verb, !late);
    note_read(ledger, actor, answer, event);
    note_decision(ledger, nodes, shape, before, decision, event);
    let is_in_stock = has_own_in_stock(nodes, shape, actor, may_take);
    ledger.note_taking(
        shape,
        actor.client(),
        actor.object(),
        was_in_stock,
        is_in_stock,
    );
    let step = clients[at].after(answer);
    note_return(ledger, trace, returning, step, event);
    Ok(Taken { verb, answer, step })
}
