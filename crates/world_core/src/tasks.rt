//! The master's tasks: which one it works on, and their verbs.

ghost use Rattle.std.specs.Prelude.{◌≡◌, ◌+◌, ◌<◌, ◌^◌, None, IfOk, OnErr, OnOk};
ghost use Rattle.machine_world.specs.Events.{chooses, work_of, works};
ghost use Rattle.machine_world.specs.Refusals.{refusal};
ghost use Rattle.machine_world.specs.declared.events.Event.TheVariants as event;

use crate::worlds::{Working, World};
use client_recovery::Recovery;
use machine_world::events::Task;
use machine_world::outcomes::{Actor, Happened, Seen};
use node_join::Join;
use node_recovery::Settling;
use std::alloc::AllocError;

impl World {
    /// The master begins a task, and drops the one that was there.
    pub(crate) fn choose(&mut self, task: Task)
        requires events { self.old.events < 2 ^ 63 }
        requires allowed { refusal self.old (event.Choose task) ≡ None }
        ensures { self.new ≡ chooses self.old task }
    {
        self.task = match task {
            Task::Settle => Working::Settle(Settling::new(self.shape, self.stopped.bits())),
            Task::Recover(client) => Working::Recover(Recovery::new(client, self.shape)),
            Task::Join(node) => Working::Join(Join::new(self.shape, node)),
        };
        self.events += 1;
    }
}
