//! The opening of a view: what its verb makes of the words and of the past.

ghost use Rattle.std.specs.Prelude.{◌≡◌, ◌*◌, ◌≤◌, [], true, IfOk, OnErr, OnOk, length, map, slice_index};
ghost use Rattle.std.specs.List.{range_with_len};
ghost use Rattle.machine_world.specs.Ledger.{caller_in, with_opening};
ghost use Rattle.machine_world.specs.Readings.{deciding_word};
ghost use Rattle.machine_world.specs.Standing.{node_sizes};
ghost use Rattle.verb_words.specs.Applied.{answer_to, words_after};
ghost use Rattle.world_core.specs.Openings.{AreBelow, AreInPlace, AreRising, CanOpen, HasOwnObject, HasRoomFor, WritesEpoch, caller_among, changes_of, has_stock, is_open, opening_world, with_changes, with_takings};

use crate::calls::caller_of;
use key_test::{Object, object_in};
use kv_ops::Actor;
use object_form::link_of;
use region_view::Shape;
use std::alloc::{AllocError, Global};
use std::marker::Model;
use verb_words::{Answer, Nodes, Place, Verb};
use world_ledger::{
    Caller, Clients, Ledger, deciding_word, epoch_in_force, is_in_stock, link_word_in_force,
};

/// A slot of which another word decides than before.
#[derive(Drop)]
struct Change {
    slot: u32,
    /// The word that decided before.
    replaced: u64,
    /// The call whose word decides now, if there is one.
    caller: Option<Caller>,
}

impl Model for Change {
    ghost use Rattle.world_core.specs.Openings.{Change};

    ghost Value = { Change };

    ghost view = { λ c. record { slot = c.slot; replaced = c.replaced; caller = c.caller } };
}

/// Carries out the verb that opens the next view by writing the epoch word. Under the mask of that
/// view another word may decide a slot, and objects may be out of stock: the ledger has it all. Where
/// memory is wanting nothing has changed.
pub(crate) fn open_view(
    alloc: Global,
    shape: &Shape,
    nodes: &mut Nodes,
    ledger: &mut Ledger,
    clients: &[Actor],
    settled: &Clients,
    event: u64,
    verb: Verb,
) -> Result<Answer, AllocError>
    requires before { CanOpen shape.now nodes.old clients.now ledger.old.ledger }
    requires writes { WritesEpoch verb }
    ensures answer { IfOk result (λ answer. answer ≡ answer_to nodes.old verb true) }
    ensures words { OnOk result (nodes.new ≡ words_after nodes.old verb true) }
    ensures ledger { OnOk result (ledger.new.ledger
        ≡ with_opening (opening_world shape.now nodes.old clients.now settled.now event) nodes.new ledger.old.ledger) }
    ensures same_words { OnErr result (nodes.new ≡ nodes.old) }
    ensures same_ledger { OnErr result (ledger.new.ledger ≡ ledger.old.ledger) }
{
    let words = deciding_words(alloc, shape, nodes)?;
    let stock = stock_of(alloc, shape, nodes, clients, settled)?;
    let sealed = epoch_in_force(nodes);
    let answer = nodes.apply(verb, true);
    match changes_with_room(alloc, shape, nodes, ledger, clients, settled, &words) {
        Ok(changes) => {
            decide_all(shape, ledger, event, changes);
            note_takings(shape, nodes, ledger, clients, settled, &stock);
            Ok(answer)
        }
        Err(error) => {
            let epoch = Place { node: 0, at: 0 };
            nodes.apply(Verb::Write(epoch, sealed), true);
            Err(error)
        }
    }
}

// The deciding word of each slot.
fn deciding_words(alloc: Global, shape: &Shape, nodes: &Nodes) -> Result<Vec<u64>, AllocError>
    requires { map length nodes.now ≡ node_sizes shape.now }
    ensures { IfOk result (λ words. words.items
        ≡ map (deciding_word shape.now nodes.now) (range_with_len 0 (24 * shape.now.groups))) }
{
    let slots = 24 * shape.groups;
    let mut words = Vec::with_capacity(alloc, slots as usize)?;
    for slot in 0..slots {
        words.push(deciding_word(nodes, shape, slot))?;
    }
    Ok(words)
}

// The slots whose deciding word is no longer the one of these words, for each of which the ledger then
// has room.
fn changes_with_room(
    alloc: Global,
    shape: &Shape,
    nodes: &Nodes,
    ledger: &mut Ledger,
    clients: &[Actor],
    settled: &Clients,
    words: &[u64],
) -> Result<Vec<Change>, AllocError>
    requires whole { map length nodes.now ≡ node_sizes shape.now }
    requires in_place { AreInPlace shape.now clients.now }
    requires slots { length ledger.old.ledger.decided ≡ 24 * shape.now.groups }
    requires words { length words.now ≡ 24 * shape.now.groups }
    ensures changes { IfOk result (λ changes. changes.items
        ≡ changes_of (slice_index words.now) (deciding_word shape.now nodes.now)
        (caller_in (opening_world shape.now [] clients.now settled.now 0) nodes.now)
        (range_with_len 0 (24 * shape.now.groups))) }
    ensures room { IfOk result (λ changes. HasRoomFor ledger.new changes.items) }
    ensures same { ledger.new.ledger ≡ ledger.old.ledger }
{
    let changes = changes_since(alloc, shape, nodes, clients, settled, words)?;
    make_room(ledger, &changes)?;
    Ok(changes)
}

fn changes_since(
    alloc: Global,
    shape: &Shape,
    nodes: &Nodes,
    clients: &[Actor],
    settled: &Clients,
    words: &[u64],
) -> Result<Vec<Change>, AllocError>
    requires whole { map length nodes.now ≡ node_sizes shape.now }
    requires in_place { AreInPlace shape.now clients.now }
    requires words { length words.now ≡ 24 * shape.now.groups }
    ensures { IfOk result (λ changes. changes.items
        ≡ changes_of (slice_index words.now) (deciding_word shape.now nodes.now)
        (caller_in (opening_world shape.now [] clients.now settled.now 0) nodes.now)
        (range_with_len 0 (24 * shape.now.groups))) }
{
    let mut changes = Vec::new(alloc);
    for slot in 0..24 * shape.groups {
        let word = deciding_word(nodes, shape, slot);
        let replaced = words[slot as usize];
        if replaced != word {
            let caller = caller_in(alloc, shape, nodes, clients, settled, word)?;
            changes.push(Change {
                slot,
                replaced,
                caller,
            })?;
        }
    }
    Ok(changes)
}

// The call of the client that the link of the word's object names, if it is open and has the word.
fn caller_in(
    alloc: Global,
    shape: &Shape,
    nodes: &Nodes,
    clients: &[Actor],
    settled: &Clients,
    word: u64,
) -> Result<Option<Caller>, AllocError>
    requires whole { map length nodes.now ≡ node_sizes shape.now }
    requires in_place { AreInPlace shape.now clients.now }
    ensures { IfOk result (λ caller. caller
        ≡ caller_in (opening_world shape.now [] clients.now settled.now 0) nodes.now word) }
{
    let Some(object) = object_in(shape, word) else {
        return Ok(None);
    };
    match link_of(link_word_in_force(nodes, shape, object)) {
        Some(link) => caller_among(alloc, clients, settled, word, link.client),
        None => Ok(None),
    }
}

// The call of the client of a number, if there is one, it is open and has the word.
fn caller_among(
    alloc: Global,
    clients: &[Actor],
    settled: &Clients,
    word: u64,
    number: u32,
) -> Result<Option<Caller>, AllocError>
    requires { 1 ≤ number }
    ensures { IfOk result (λ caller. caller ≡ caller_among clients.now settled.now word number) }
{
    let place = number as usize - 1;
    if place >= clients.len() {
        return Ok(None);
    }
    let actor = &clients[place];
    if is_open(actor, settled) && actor.is_fresh(word) {
        Ok(Some(caller_of(alloc, actor)?))
    } else {
        Ok(None)
    }
}

fn is_open(actor: &Actor, settled: &Clients) -> bool
    ensures { result ≡ is_open settled.now actor.now }
{
    !actor.is_idle() && !settled.has(actor.client())
}

// Makes room for an entry and a decision of each of the changes.
fn make_room(ledger: &mut Ledger, changes: &[Change]) -> Result<(), AllocError>
    requires { AreBelow (length ledger.old.ledger.decided) changes.now }
    ensures room { OnOk result (HasRoomFor ledger.new changes.now) }
    ensures same { ledger.new.ledger ≡ ledger.old.ledger }
{
    ledger.reserve_entries(changes.len())?;
    for change in changes {
        ledger.reserve_decision(change.slot)?;
    }
    Ok(())
}

fn decide_all(shape: &Shape, ledger: &mut Ledger, event: u64, changes: Vec<Change>)
    requires room { HasRoomFor ledger.old changes.items }
    requires rising { AreRising 0 changes.items }
    ensures { ledger.new.ledger ≡ with_changes shape.now event changes.items ledger.old.ledger }
{
    for change in changes {
        ledger.decide(shape, change.slot, event, change.replaced, change.caller);
    }
}

// For each client whether its call is open and has an object that is in stock.
fn stock_of(
    alloc: Global,
    shape: &Shape,
    nodes: &Nodes,
    clients: &[Actor],
    settled: &Clients,
) -> Result<Vec<bool>, AllocError>
    requires whole { map length nodes.now ≡ node_sizes shape.now }
    requires in_place { AreInPlace shape.now clients.now }
    ensures { IfOk result (λ stock. stock.items
        ≡ map (has_stock shape.now nodes.now settled.now) clients.now) }
{
    let mut stock = Vec::with_capacity(alloc, clients.len())?;
    for actor in clients {
        stock.push(has_stock(shape, nodes, settled, actor))?;
    }
    Ok(stock)
}

fn has_stock(shape: &Shape, nodes: &Nodes, settled: &Clients, actor: &Actor) -> bool
    requires whole { map length nodes.now ≡ node_sizes shape.now }
    requires object { HasOwnObject shape.now actor.now }
    ensures { result ≡ has_stock shape.now nodes.now settled.now actor.now }
{
    if !is_open(actor, settled) {
        return false;
    }
    let pointer = actor.object();
    if pointer == 0 {
        return false;
    }
    let class = actor.class();
    is_in_stock(nodes, shape, Object { pointer, class })
}

// Each client holds its object, where that was in stock and is no longer.
fn note_takings(
    shape: &Shape,
    nodes: &Nodes,
    ledger: &mut Ledger,
    clients: &[Actor],
    settled: &Clients,
    stock: &[bool],
)
    requires whole { map length nodes.now ≡ node_sizes shape.now }
    requires in_place { AreInPlace shape.now clients.now }
    requires stock { length stock.now ≡ length clients.now }
    ensures { ledger.new.ledger
        ≡ with_takings shape.now (has_stock shape.now nodes.now settled.now) clients.now stock.now ledger.old.ledger }
{
    for (place, actor) in clients.iter().enumerate() {
        let was = stock[place];
        let is = has_stock(shape, nodes, settled, actor);
        ledger.note_taking(shape, actor.client(), actor.object(), was, is);
    }
}

#[cfg(test)]
mod tests {
    use super::*;
    use region_view::{first_words, shape_of};
    use std::test::Fail;

    // The index lies on nodes 1 and 2, and the mask of the next view has nodes 2 and 3.
    #[test]
    fn a_view_is_opened(rt: HostRuntime) -> Result<(), Fail> {
        let Ok(shape) = shape_of(3, 2, 2, 1, 1, 1, 10) else {
            return Err("no shape".into());
        };
        prove!(shape.nodes <= 8);
        let alloc = rt.alloc();
        let mut nodes = Nodes::of_words(first_words(alloc, &shape)?);
        let mut ledger = Ledger::new(alloc, &shape)?;
        let settled = Clients::new();
        let verb = Verb::Write(Place { node: 0, at: 0 }, 0b110);
        let answer = open_view(
            alloc,
            &shape,
            &mut nodes,
            &mut ledger,
            &[],
            &settled,
            1,
            verb,
        )?;
        assert_eq!(rt; answer, Answer::Done);
        assert_eq!(rt; ledger.in_order()?.len(), 0);
        Ok(())
    }

    // The word names no object, so it is no call's.
    #[test]
    fn a_changed_slot_is_found(rt: HostRuntime) -> Result<(), Fail> {
        let Ok(shape) = shape_of(3, 2, 2, 1, 1, 1, 10) else {
            return Err("no shape".into());
        };
        prove!(shape.nodes <= 8);
        let alloc = rt.alloc();
        let mut nodes = Nodes::of_words(first_words(alloc, &shape)?);
        let words = deciding_words(alloc, &shape, &nodes)?;
        nodes.apply(Verb::Write(Place { node: 1, at: 5 }, 77), true);
        let changes = changes_since(alloc, &shape, &nodes, &[], &Clients::new(), &words)?;
        assert_eq!(rt; changes.len(), 1);
        assert_eq!(rt; changes[0].slot, 5);
        assert_eq!(rt; changes[0].replaced, 0);
        assert!(rt; changes[0].caller.is_none());
        Ok(())
    }
}
