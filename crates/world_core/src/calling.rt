//! Clients that are registered, make calls and stop.

ghost use Rattle.std.specs.Prelude.{◌≡◌, ◌+◌, ◌<◌, ◌^◌, None, IfOk, OnErr, OnOk, length, true};
ghost use Rattle.machine.specs.Client.{invoked, is_idle, refusal as refusal_of_call};
ghost use Rattle.machine_world.specs.Calls.{key_of, operation_of, value_of};
ghost use Rattle.machine_world.specs.Events.{invokes, registers, stops};
ghost use Rattle.machine_world.specs.Refusals.{refusal};
ghost use Rattle.machine_world.specs.World.{client_at};
ghost use Rattle.machine_world.specs.declared.events.Event.TheVariants as event;
ghost use Rattle.machine_world.specs.declared.outcomes.Happened.TheVariants as happened;

use crate::worlds::World;
use kv_ops::Actor;
use machine_world::outcomes::Happened;
use map_model::Call;
use std::alloc::AllocError;
use verb_history::Moment;

impl World {
    /// The next client is registered.
    pub(crate) fn register(&mut self) -> Result<Happened, AllocError>
        requires events { self.old.events < 2 ^ 63 }
        requires allowed { refusal self.old event.Register ≡ None }
        ensures happened { IfOk result (λ now. now ≡ happened.Registered (length self.old.clients)) }
        ensures world { OnOk result (self.new ≡ registers self.old) }
        ensures same { OnErr result (self.new ≡ self.old) }
    {
        let alloc = *self.trace.allocator();
        let client = self.clients.len() as u32 + 1;
        self.clients.reserve(1)?;
        let actor = Actor::new(alloc, client, self.shape)?;
        self.clients.push_reserved(actor);
        self.ledger.register();
        self.events += 1;
        Ok(Happened::Registered(client))
    }

    /// A client makes a call.
    pub(crate) fn invoke(&mut self, client: u32, call: Call) -> Result<Happened, AllocError>
        requires events { self.old.events < 2 ^ 63 }
        requires allowed { refusal self.old (event.Invoke client call) ≡ None }
        ensures happened { IfOk result (λ now. now ≡ happened.Invoked ((client_at self.old client).number + 1)) }
        ensures world { OnOk result (self.new ≡ invokes self.old client call) }
        ensures same { OnErr result (self.new ≡ self.old) }
    {
        self.trace.reserve(1)?;
        let actor = &mut self.clients[client as usize - 1];
        invoke(actor, &call);
        let number = actor.number();
        self.trace.push_reserved(Moment::Invoked {
            client,
            number,
            call,
        });
        self.events += 1;
        Ok(Happened::Invoked(number))
    }

    /// A client takes no further step.
    pub(crate) fn stop(&mut self, client: u32) -> Result<Happened, AllocError>
        requires events { self.old.events < 2 ^ 63 }
        requires allowed { refusal self.old (event.Stop client) ≡ None }
        ensures happened { IfOk result (λ now. now ≡ happened.Stopped) }
        ensures world { OnOk result (self.new ≡ stops self.old client) }
        ensures same { OnErr result (self.new ≡ self.old) }
    {
        self.trace.reserve(1)?;
        self.stopped.add(client);
        self.trace.push_reserved(Moment::Stopped { client });
        self.events += 1;
        Ok(Happened::Stopped)
    }
}

// A client makes a call that it may make.
fn invoke(actor: &mut Actor, call: &Call)
    requires idle { is_idle actor.old ≡ true }
    requires allowed { refusal_of_call actor.old (length (key_of call.now)) (length (value_of call.now)) ≡ None }
    ensures { actor.new ≡ invoked actor.old (operation_of call.now) (key_of call.now) (value_of call.now) }
{
    let _made = match call {
        Call::Get { key } => actor.get(key.as_slice()),
        Call::Put { key, value } => actor.put(key.as_slice(), value.as_slice()),
        Call::Delete { key } => actor.delete(key.as_slice()),
    };
}
