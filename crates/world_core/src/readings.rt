//! What is read of the world: its words, its past, and where blocks and objects are.

ghost use Rattle.std.specs.Prelude.{◌≡◌, ◌+◌, ◌<◌, ◌≤◌, IfOk, length, map};
ghost use Rattle.machine.specs.Client.{is_idle};
ghost use Rattle.machine_world.specs.Events.{client_bits};
ghost use Rattle.machine_world.specs.Ledger.{entry_of, history_of, in_order};
ghost use Rattle.machine_world.specs.Readings.{block_state, division_of, has_returned, object_state};
ghost use Rattle.machine_world.specs.Standing.{node_sizes};
ghost use Rattle.machine_world.specs.World.{client_at, is_among};
ghost use Rattle.verb_history.specs.Moments.{moment_of};
ghost use Rattle.verb_history.specs.Points.{entered_of};
ghost use Rattle.world_core.specs.Told.{awaited_by, task_in};
ghost use Rattle.world_ledger.specs.Seen.{IsUnit};

use crate::worlds::{Working, World};
use machine_world::events::Task;
use machine_world::parts::{BlockState, Division, ObjectState};
use map_model::Entry;
use region_view::Shape;
use std::alloc::AllocError;
use verb_history::{Moment, Placed};
use verb_words::Nodes;
use world_ledger::{block_state, division, object_state};

impl World {
    /// The words of all nodes, each of which has all of its words.
    pub fn nodes(&self) -> &Nodes
        ensures nodes { result.now ≡ self.now.nodes }
        ensures sizes { map length self.now.nodes ≡ node_sizes self.now.shape }
    {
        &self.nodes
    }

    /// The sizes of the pool.
    pub fn shape(&self) -> Shape
        ensures { result ≡ self.now.shape }
    {
        self.shape
    }

    /// What is seen of the clients from outside, in order.
    pub fn moments(&self) -> &[Moment]
        ensures { map moment_of result.now ≡ self.now.trace }
    {
        self.trace.as_slice()
    }

    /// How many clients are registered.
    pub fn registered(&self) -> usize
        ensures { result + 1 ≡ length self.now.clients }
    {
        self.clients.len()
    }

    /// The clients that are stopped: bit c - 1 for client c.
    pub fn stopped(&self) -> u64
        ensures { result ≡ client_bits self.now.stopped }
    {
        self.stopped.bits()
    }

    /// What the master works on.
    pub fn task(&self) -> Option<Task>
        ensures { result ≡ task_in self.now.master.task }
    {
        match &self.task {
            Working::Rest => None,
            Working::Settle(_) => Some(Task::Settle),
            Working::Recover(recovery) => Some(Task::Recover(recovery.client())),
            Working::Join(join) => Some(Task::Join(join.node())),
        }
    }

    /// The clients that were stopped when the settling that is under way was chosen, if one is: bit
    /// c - 1 for client c.
    pub fn settling(&self) -> Option<u64>
        ensures { result ≡ awaited_by self.now.master.task }
    {
        match &self.task {
            Working::Settle(settling) => Some(settling.stopped()),
            Working::Rest => None,
            Working::Recover(_) => None,
            Working::Join(_) => None,
        }
    }

    /// The calls of the history in their order, each with its point. Whether a call has returned is not
    /// marked there: `has_returned` tells it.
    pub fn in_order(&self) -> Result<Vec<&Placed>, AllocError>
        ensures { IfOk result (λ order. map (λ one. entered_of one.now) order.items ≡ in_order self.now.ledger.entries) }
    {
        self.ledger.in_order()
    }

    /// Whether the client is stopped and recovered.
    pub fn is_recovered(&self, client: u32) -> bool
        ensures { result ≡ is_among client self.now.master.recovered }
    {
        self.recovered.has(client)
    }

    /// Whether no call of the client is open.
    pub fn is_idle(&self, client: u32) -> bool
        ensures { result ≡ is_idle (client_at self.now client) }
    {
        let _clients = &self.clients;
        if !self.is_registered(client) {
            return true;
        }
        self.client(client).is_idle()
    }

    /// Whether the client's call of this number has returned.
    pub fn has_returned(&self, client: u32, number: u32) -> bool
        ensures { result ≡ has_returned self.now client number }
    {
        let _clients = &self.clients;
        if !self.is_registered(client) {
            return number == 0;
        }
        let actor = self.client(client);
        if number < actor.number() {
            return true;
        }
        number == actor.number() && actor.is_idle()
    }

    /// The history: the calls that have taken effect, in the order of their points. It takes time
    /// n log n in their number.
    pub fn history(&self) -> Result<Vec<Entry>, AllocError>
        ensures { IfOk result (λ list. list.items ≡ history_of self.now) }
    {
        let order = self.in_order()?;
        self.marked(order.as_slice())
    }

    // The entries of these calls, each marked as returned where it has.
    fn marked(&self, order: &[&Placed]) -> Result<Vec<Entry>, AllocError>
        ensures { IfOk result (λ list. list.items ≡ map (λ one. entry_of self.now (entered_of one.now)) order.now) }
    {
        let mut list = Vec::with_capacity(*self.trace.allocator(), order.len())?;
        for one in order {
            list.push(self.entry(one)?)?;
        }
        Ok(list)
    }

    fn entry(&self, one: &Placed) -> Result<Entry, AllocError>
        ensures { IfOk result (λ entry. entry ≡ entry_of self.now (entered_of one.now)) }
    {
        let mut entry = one.entry.copy()?;
        entry.returned = self.has_returned(entry.client, entry.number);
        Ok(entry)
    }

    /// Whose a block of a data region is.
    pub fn block_state(&self, region: u32, block: u32) -> BlockState
        requires least { 1 ≤ region }
        requires most { region ≤ self.now.shape.regions }
        requires block { block < self.now.shape.blocks }
        ensures { result ≡ block_state self.now region block }
    {
        block_state(
            &self.nodes,
            &self.shape,
            &self.stopped,
            &self.recovered,
            region,
            block,
        )
    }

    /// Where the object of a pointer to a unit of a block is, of the class for which the block is
    /// granted.
    pub fn object_state(&self, pointer: u32) -> ObjectState
        requires { IsUnit self.now.shape pointer }
        ensures { result ≡ object_state self.now pointer }
    {
        object_state(&self.nodes, &self.shape, &self.ledger, pointer)
    }

    /// How many blocks, and how many objects of granted blocks, are in each state.
    pub fn division(&self) -> Division
        ensures { result ≡ division_of self.now }
    {
        division(&self.nodes, &self.shape, &self.stopped, &self.recovered)
    }
}
