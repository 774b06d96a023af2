ghost use Rattle.std.specs.Prelude.{◌≡◌, ◌≢◌, ◌+◌, ℕ, ◌<◌, ◌≤◌, [], IfOk, OnOk, length, map, replicate, slice_index_or, slice_set, vec_items};
ghost use Rattle.std.specs.Option.{option_map_or};
ghost use Rattle.machine.specs.ObjectNames.{object_in};
ghost use Rattle.machine_world.specs.Ledger.{decided_at, in_order, winner_rank, with_decision};
ghost use Rattle.machine_world.specs.Readings.{unit_index};
ghost use Rattle.machine_world.specs.World.{first_ledger};
ghost use Rattle.verb_history.specs.Points.{entered_of};
ghost use Rattle.world_ledger.specs.Kept.{HasDecisionRoom, HasEntryRoom, has_rank_if, decision_room, with_client, with_read_at, with_taking_of};

use crate::decisions::{Decided, decision, push_decision, reserve_decision};
use crate::entries::Caller;
use arrayvec::ArrayVec;
use key_test::object_in;
use map_model::Reply;
use object_form::unit_of;
use region_view::Shape;
use std::alloc::{AllocError, Global};
use std::marker::Model;
use verb_history::{Placed, Point, Points};

/// What is kept of the past.
///
/// Room for entries and for decisions is made before; what is then kept takes no memory.
#[derive(Debug, Drop)]
pub struct Ledger {
    /// The calls in the history.
    pub(crate) points: Points,
    /// When the words of each slot became deciding, in order.
    pub(crate) decided: Vec<Vec<Decided>>,
    /// For each unit of the data regions, who took or last replaced the object that begins there.
    holders: Vec<u32>,
    /// For each client, and for nobody at place 0, the event at which it last read a slot.
    pub(crate) reads: ArrayVec<u64, 65>,
}

impl Model for Ledger {
    ghost use Rattle.std.specs.Prelude.{map, vec_capacity, vec_items};
    ghost use Rattle.verb_history.specs.Points.{entered_of};
    ghost use Rattle.world_ledger.specs.Kept.{Kept};

    ghost Value = { Kept };

    ghost view = { λ l. record {
      ledger = record {
        entries = map entered_of l.points.placed;
        decided = map vec_items l.decided.items;
        holders = l.holders.items;
        reads = l.reads.items;
      };
      rooms = record { entries = l.points.room; decided = map vec_capacity l.decided.items };
    } };
}

impl Ledger {
    /// Nothing yet: nobody has read a slot, and client 1 is named for each unit.
    pub fn new(alloc: Global, shape: &Shape) -> Result<Ledger, AllocError>
        ensures { IfOk result (λ kept. kept.ledger ≡ first_ledger shape.now) }
    {
        let mut reads = ArrayVec::new();
        reads.push(0);
        Ok(Ledger {
            points: Points::new(alloc),
            decided: no_decisions(alloc, 24 * shape.groups as usize)?,
            holders: vec![in alloc; 1; (shape.regions * (64 * shape.blocks)) as usize]?,
            reads,
        })
    }

    /// The calls in the history, lent, in the order of their points. Their marks of a return mean
    /// nothing.
    pub fn in_order(&self) -> Result<Vec<&Placed>, AllocError>
        ensures { IfOk result (λ order. map (λ one. entered_of one.now) order.items ≡ in_order self.now.ledger.entries) }
    {
        self.points.order()
    }

    /// Who last took or replaced the object of a pointer; client 1 where there was none.
    pub fn holder_of(&self, shape: &Shape, pointer: u32) -> u32
        ensures { result ≡ slice_index_or self.now.ledger.holders (unit_index shape.now pointer) 1 }
    {
        let unit = unit_index(shape, pointer);
        if unit < self.holders.len() {
            self.holders[unit]
        } else {
            1
        }
    }

    /// Makes room for so many entries more.
    pub fn reserve_entries(&mut self, count: usize) -> Result<(), AllocError>
        ensures ledger { self.new.ledger ≡ self.old.ledger }
        ensures room { OnOk result (HasEntryRoom self.new count) }
        ensures decided { self.new.rooms.decided ≡ self.old.rooms.decided }
    {
        self.points.reserve(count)
    }

    /// Makes room for one decision more of a slot.
    pub fn reserve_decision(&mut self, slot: u32) -> Result<(), AllocError>
        requires { slot < length self.old.ledger.decided }
        ensures ledger { self.new.ledger ≡ self.old.ledger }
        ensures room { OnOk result (HasDecisionRoom self.new slot) }
        ensures entries { self.new.rooms.entries ≡ self.old.rooms.entries }
        ensures more { (other : ℕ) → decision_room self.old other ≤ decision_room self.new other }
    {
        reserve_decision(&mut self.decided, slot)
    }

    /// Whether the winner at a slot and a version, if there is one, has a rank left for one more
    /// call that it has beaten.
    pub fn has_rank(&self, beaten: Option<(u32, u64)>) -> bool
        ensures { result ≡ has_rank_if self.now.ledger beaten }
    {
        let Some((slot, version)) = beaten else {
            return true;
        };
        match decision(&self.decided, slot, version) {
            Some(winner) => winner.beaten < u32::MAX,
            None => true,
        }
    }

    /// One client more, which has read no slot.
    pub fn register(&mut self)
        requires { length self.old.ledger.reads < 65 }
        ensures ledger { self.new.ledger ≡ with_client self.old.ledger }
        ensures rooms { self.new.rooms ≡ self.old.rooms }
    {
        self.reads.push(0);
    }

    /// A client has read a slot in a search, at this event.
    pub fn note_read(&mut self, client: u32, event: u64)
        ensures ledger { self.new.ledger ≡ with_read_at client event self.old.ledger }
        ensures rooms { self.new.rooms ≡ self.old.rooms }
    {
        if (client as usize) < self.reads.len() {
            self.reads[client as usize] = event;
        }
    }

    /// A client's verb was carried out whose call has chosen the object of this pointer, or 0. The
    /// client holds it where its bit was set before, and is not set now.
    pub fn note_taking(&mut self, shape: &Shape, client: u32, pointer: u32, was: bool, is: bool)
        ensures ledger { self.new.ledger ≡ with_taking_of shape.now client pointer was is self.old.ledger }
        ensures rooms { self.new.rooms ≡ self.old.rooms }
    {
        if pointer != 0 && was && !is {
            hold(&mut self.holders, shape, pointer, client);
        }
    }

    /// A word of the slot has become deciding, at this event, in place of another: that of the
    /// caller's call, if there is one. The call is in the history from now on, and its client holds
    /// the object that the replaced word names.
    pub fn decide(
        &mut self,
        shape: &Shape,
        slot: u32,
        event: u64,
        replaced: u64,
        caller: Option<Caller>,
    )
        requires decision { HasDecisionRoom self.old slot }
        requires entry { HasEntryRoom self.old 1 }
        ensures ledger { self.new.ledger ≡ with_decision shape.now event slot replaced caller self.old.ledger }
        ensures rooms { self.new.rooms ≡ self.old.rooms }
        ensures entries { length self.new.ledger.entries ≤ length self.old.ledger.entries + 1 }
        ensures others { (other : ℕ) → other ≢ slot
            → decided_at self.new.ledger other ≡ decided_at self.old.ledger other }
    {
        push_decision(&mut self.decided, slot, event);
        if let Some(caller) = caller {
            hold_replaced(&mut self.holders, shape, replaced, caller.client);
            self.points
                .enter_reserved(caller.replied(Reply::Done), winner_point(event, slot));
        }
    }
}

// So many slots, no word of which has become deciding.
fn no_decisions(alloc: Global, slots: usize) -> Result<Vec<Vec<Decided>>, AllocError>
    ensures { IfOk result (λ decided. map vec_items decided.items ≡ replicate slots []) }
{
    let mut decided = Vec::with_capacity(alloc, slots)?;
    for _ in 0..slots {
        decided.push(Vec::new(alloc))?;
    }
    Ok(decided)
}

// The place of a pointer's unit among those of all data regions.
fn unit_index(shape: &Shape, pointer: u32) -> usize
    ensures { result ≡ unit_index shape.now pointer }
{
    prove!(shape.blocks <= 64);
    let region = (pointer >> 20).saturating_sub(1);
    let unit = unit_of(pointer).saturating_sub(16);
    (region * (64 * shape.blocks) + unit) as usize
}

fn hold(holders: &mut Vec<u32>, shape: &Shape, pointer: u32, client: u32)
    ensures { holders.new.items ≡ slice_set holders.old.items (unit_index shape.now pointer) client }
{
    let unit = unit_index(shape, pointer);
    if unit < holders.len() {
        holders[unit] = client;
    }
}

fn hold_replaced(holders: &mut Vec<u32>, shape: &Shape, word: u64, client: u32)
    ensures { holders.new.items ≡ option_map_or
        (λ object. slice_set holders.old.items (unit_index shape.now object.pointer) client)
        (object_in shape.now word) holders.old.items }
{
    if let Some(object) = object_in(shape, word) {
        hold(holders, shape, object.pointer, client);
    }
}

// Where a call stands whose word has become deciding: behind all that it has beaten.
fn winner_point(event: u64, slot: u32) -> Point
    ensures { result ≡ record { event = event; slot = slot; rank = winner_rank } }
{
    Point {
        event,
        slot,
        rank: u32::MAX,
    }
}
