//! The master's verbs.

ghost use Rattle.std.specs.Prelude.{◌≡◌, ◌<◌, ◌≤◌, ◌^◌, None, IfOk, OnErr, OnOk, if◌then◌else◌, true};
ghost use Rattle.machine.specs.Recovery as recoveries;
ghost use Rattle.machine.specs.Settling as settlings;
ghost use Rattle.machine_world.specs.Events.{also_if, final_of_recovery, is_recovered, opens, seen_by, settles_call, work_of, works};
ghost use Rattle.machine_world.specs.Ledger.{caller_of, with_final, with_opening};
ghost use Rattle.machine_world.specs.World.{NoTask};
ghost use Rattle.machine_world.specs.Refusals.{refusal};
ghost use Rattle.machine_world.specs.declared.events.Event.TheVariants as event;
ghost use Rattle.machine_world.specs.declared.outcomes.Actor.TheVariants as taker;
ghost use Rattle.verb_words.specs.Applied.{answer_to, words_after};
ghost use Rattle.verb_words.specs.Verb.{place_of};
ghost use Rattle.verb_words.specs.Words.{HasPlace};
ghost use Rattle.world_core.specs.Openings.{CanOpen, opening_world};
ghost use Rattle.world_core.specs.Steps.{IsReady};
ghost use Rattle.world_core.specs.Works.{joins_on, recovers_on};
ghost use Rattle.world_core.specs.Working.{task_of};

use crate::dues::{decision_of, make_room, note_decision, word_to_replace};
use crate::openings::open_view;
use crate::worlds::{Working, World};
use client_recovery::Recovery;
use kv_ops::Actor;
use machine::joining::Joined;
use machine::recovery::Recovering;
use machine::settling::Settled;
use machine_world::outcomes::{Actor as Taker, Happened, Seen};
use node_recovery::Settling;
use region_view::Shape;
use std::alloc::AllocError;
use verb_history::Moment;
use verb_words::{Answer, Nodes, Verb};
use world_ledger::{Clients, Ledger};

/// A verb of a settling, its answer, and what the settling told.
#[derive(Clone, Copy, Debug)]
struct Settles {
    verb: Verb,
    answer: Answer,
    told: Settled,
}

/// A verb of a recovery, its answer, whether that settles the client's call, and what the recovery
/// told.
#[derive(Clone, Copy, Debug)]
struct Recovers {
    verb: Verb,
    answer: Answer,
    settles: bool,
    told: Recovering,
}

impl World {
    /// The master takes its task's next verb.
    pub(crate) fn work(&mut self) -> Result<Happened, AllocError>
        requires events { self.old.events < 2 ^ 63 }
        requires allowed { refusal self.old event.Work ≡ None }
        ensures happened { IfOk result (λ happened. happened ≡ work_of self.old self.old.master.task) }
        ensures world { OnOk result (self.new ≡ works self.old) }
        ensures same { OnErr result (self.new ≡ self.old) }
    {
        let shape = self.shape;
        match &mut self.task {
            Working::Rest => Ok(Happened::Chosen),
            Working::Settle(settling) => {
                let taken = settle(
                    &shape,
                    &mut self.nodes,
                    &mut self.ledger,
                    &self.trace,
                    self.clients.as_slice(),
                    &self.settled,
                    settling,
                    self.events,
                )?;
                end_task(&mut self.task, opens(taken.told));
                self.events += 1;
                Ok(Happened::Settling {
                    seen: seen(taken.verb, taken.answer),
                    step: taken.told,
                })
            }
            Working::Recover(recovery) => {
                let client = recovery.client();
                let taken = recover(
                    &shape,
                    &mut self.nodes,
                    &mut self.ledger,
                    &mut self.trace,
                    &self.clients[client as usize - 1],
                    recovery,
                    self.events,
                )?;
                add_if(&mut self.won, recovery.won(), client);
                add_if(&mut self.settled, taken.settles, client);
                add_if(&mut self.recovered, is_recovered(taken.told), client);
                end_task(&mut self.task, !recovers_on(taken.told));
                self.events += 1;
                Ok(Happened::Recovering {
                    seen: seen(taken.verb, taken.answer),
                    step: taken.told,
                })
            }
            Working::Join(join) => {
                let verb = join.next();
                let answer = self.nodes.apply(verb, true);
                let told = join.after(answer);
                end_task(&mut self.task, !joins_on(told));
                self.events += 1;
                Ok(Happened::Joining {
                    seen: seen(verb, answer),
                    step: told,
                })
            }
        }
    }
}

fn seen(verb: Verb, answer: Answer) -> Seen
    ensures { result ≡ seen_by taker.Master verb answer }
{
    Seen {
        actor: Taker::Master,
        verb,
        answer,
    }
}

// After the end of a task there is none.
fn end_task(task: &mut Working, is_over: bool)
    ensures { task_of task.new ≡ (if is_over then NoTask else task_of task.old) }
{
    if is_over {
        *task = Working::Rest;
    }
}

fn opens(told: Settled) -> bool
    ensures { result ≡ opens told }
{
    match told {
        Settled::Opened(_) => true,
        Settled::Going => false,
        Settled::NotYet { .. } => false,
    }
}

fn recovers_on(told: Recovering) -> bool
    ensures { result ≡ recovers_on told }
{
    match told {
        Recovering::Going => true,
        Recovering::Recovered => false,
        Recovering::NotYet(_) => false,
    }
}

fn joins_on(told: Joined) -> bool
    ensures { result ≡ joins_on told }
{
    match told {
        Joined::Going => true,
        Joined::Joined => false,
        Joined::NotYet(_) => false,
    }
}

fn is_recovered(told: Recovering) -> bool
    ensures { result ≡ is_recovered told }
{
    match told {
        Recovering::Recovered => true,
        Recovering::Going => false,
        Recovering::NotYet(_) => false,
    }
}

fn add_if(clients: &mut Clients, test: bool, client: u32)
    requires least { 1 ≤ client }
    requires most { client ≤ 64 }
    ensures { clients.new ≡ also_if test client clients.old }
{
    if test {
        clients.add(client);
    }
}

// A settling takes its next verb. The one that opens the next view is noted.
fn settle(
    shape: &Shape,
    nodes: &mut Nodes,
    ledger: &mut Ledger,
    trace: &Vec<Moment>,
    clients: &[Actor],
    settled: &Clients,
    settling: &mut Settling,
    event: u64,
) -> Result<Settles, AllocError>
    requires before { CanOpen shape.now nodes.old clients.now ledger.old.ledger }
    requires place { HasPlace nodes.old (place_of (settlings.next settling.old)) }
    ensures verb { IfOk result (λ taken. taken.verb ≡ settlings.next settling.old) }
    ensures answer { IfOk result (λ taken. taken.answer ≡ answer_to nodes.old (settlings.next settling.old) true) }
    ensures told { IfOk result (λ taken. taken.told
        ≡ (settlings.turn settling.old (answer_to nodes.old (settlings.next settling.old) true)).told) }
    ensures settling { OnOk result (settling.new
        ≡ (settlings.turn settling.old (answer_to nodes.old (settlings.next settling.old) true)).state) }
    ensures nodes { OnOk result (nodes.new ≡ words_after nodes.old (settlings.next settling.old) true) }
    ensures ledger { IfOk result (λ taken. ledger.new.ledger
        ≡ (if opens taken.told
        then with_opening (opening_world shape.now nodes.old clients.now settled.now event) nodes.new ledger.old.ledger
        else ledger.old.ledger)) }
    ensures same_settling { OnErr result (settling.new ≡ settling.old) }
    ensures same_nodes { OnErr result (nodes.new ≡ nodes.old) }
    ensures same_ledger { OnErr result (ledger.new.ledger ≡ ledger.old.ledger) }
{
    let alloc = *trace.allocator();
    let verb = settling.next();
    let answer = if settling.is_opening() {
        open_view(alloc, shape, nodes, ledger, clients, settled, event, verb)?
    } else {
        nodes.apply(verb, true)
    };
    let told = settling.after(answer);
    Ok(Settles { verb, answer, told })
}

// The recovery of a client takes its next verb. A word that it makes deciding is that of the client's
// last call.
fn recover(
    shape: &Shape,
    nodes: &mut Nodes,
    ledger: &mut Ledger,
    trace: &mut Vec<Moment>,
    actor: &Actor,
    recovery: &mut Recovery,
    event: u64,
) -> Result<Recovers, AllocError>
    requires ready { IsReady shape.now nodes.old ledger.old.ledger }
    requires shape { recovery.old.shape ≡ shape.now }
    requires place { HasPlace nodes.old (place_of (recoveries.next recovery.old)) }
    ensures verb { IfOk result (λ taken. taken.verb ≡ recoveries.next recovery.old) }
    ensures answer { IfOk result (λ taken. taken.answer ≡ answer_to nodes.old (recoveries.next recovery.old) true) }
    ensures settles { IfOk result (λ taken. taken.settles
        ≡ settles_call recovery.old.stage (answer_to nodes.old (recoveries.next recovery.old) true)) }
    ensures told { IfOk result (λ taken. taken.told
        ≡ (recoveries.turn recovery.old (answer_to nodes.old (recoveries.next recovery.old) true)).told) }
    ensures recovery { OnOk result (recovery.new
        ≡ (recoveries.turn recovery.old (answer_to nodes.old (recoveries.next recovery.old) true)).state) }
    ensures nodes { OnOk result (nodes.new ≡ words_after nodes.old (recoveries.next recovery.old) true) }
    ensures ledger { OnOk result (ledger.new.ledger
        ≡ with_final shape.now nodes.old nodes.new event (caller_of actor.now) (final_of_recovery recovery.old.stage) ledger.old.ledger) }
    ensures trace { trace.new.items ≡ trace.old.items }
    ensures same_recovery { OnErr result (recovery.new ≡ recovery.old) }
    ensures same_nodes { OnErr result (nodes.new ≡ nodes.old) }
    ensures same_ledger { OnErr result (ledger.new.ledger ≡ ledger.old.ledger) }
{
    let alloc = *trace.allocator();
    let decision = decision_of(alloc, actor, recovery.final_swap())?;
    make_room(ledger, trace, &decision)?;
    let before = word_to_replace(nodes, shape, &decision);
    let verb = recovery.next();
    let answer = nodes.apply(verb, true);
    note_decision(ledger, nodes, shape, before, decision, event);
    let settles = recovery.settles(answer);
    let told = recovery.after(answer);
    Ok(Recovers {
        verb,
        answer,
        settles,
        told,
    })
}
