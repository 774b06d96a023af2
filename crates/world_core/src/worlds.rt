ghost use Rattle.std.specs.Prelude.{◌≡◌, ◌≤◌, IfOk, true};
ghost use Rattle.machine_world.specs.World.{client_at, first_world, is_registered, is_stopped};
ghost use Rattle.region_view.specs.Sizes.{all_words};

use crate::first_nodes::first_nodes;
use client_recovery::Recovery;
use kv_ops::Actor;
use node_join::Join;
use node_recovery::Settling;
use region_view::Shape;
use std::alloc::{AllocError, Global};
use std::marker::Model;
use verb_history::Moment;
use verb_words::Nodes;
use world_ledger::{Clients, Ledger};

/// What the master works on.
#[derive(Drop)]
pub(crate) enum Working {
    Rest,
    Settle(Settling),
    Recover(Recovery),
    Join(Join),
}

/// The world: its words, its clients, its master, and what is kept of the past. It is always one that
/// some list of events leads to from its opening.
#[derive(Drop)]
pub struct World {
    pub(crate) shape: Shape,
    pub(crate) nodes: Nodes,
    /// Client c at place c - 1.
    pub(crate) clients: Vec<Actor>,
    pub(crate) task: Working,
    /// The clients of whom a recovery has won the last call.
    pub(crate) won: Clients,
    /// The clients whose last call is settled.
    pub(crate) settled: Clients,
    pub(crate) recovered: Clients,
    pub(crate) stopped: Clients,
    pub(crate) trace: Vec<Moment>,
    pub(crate) ledger: Ledger,
    pub(crate) events: u64,
}

impl Model for World {
    ghost use Rattle.machine_world.specs.World.{World};
    ghost use Rattle.world_core.specs.Fields.{world_of};
    ghost use Rattle.world_core.specs.Reached.{IsRun};

    ghost Value = { World };

    ghost view = { λ w. world_of w };

    ghost invariant = { λ w. IsRun (world_of w) };
}

impl World {
    /// The world as it opens. The shape has at most 2,097,152 words, 16 MiB.
    pub fn new(alloc: Global, shape: Shape) -> Result<World, AllocError>
        requires { all_words shape ≤ 2097152 }
        ensures { IfOk result (λ world. world ≡ first_world shape) }
    {
        Ok(World {
            shape,
            nodes: first_nodes(alloc, &shape)?,
            clients: Vec::with_capacity(alloc, shape.clients as usize)?,
            task: Working::Rest,
            won: Clients::new(),
            settled: Clients::new(),
            recovered: Clients::new(),
            stopped: Clients::new(),
            trace: Vec::new(alloc),
            ledger: Ledger::new(alloc, &shape)?,
            events: 0,
        })
    }

    pub(crate) fn is_registered(&self, client: u32) -> bool
        ensures { result ≡ is_registered self.now client }
    {
        0 < client && (client as usize) < self.clients.len() + 1
    }

    /// Whether the client is stopped.
    pub fn is_stopped(&self, client: u32) -> bool
        ensures { result ≡ is_stopped self.now client }
    {
        self.stopped.has(client)
    }

    pub(crate) fn client(&self, client: u32) -> &Actor
        requires { is_registered self.now client ≡ true }
        ensures { result.now ≡ client_at self.now client }
    {
        &self.clients[client as usize - 1]
    }
}
