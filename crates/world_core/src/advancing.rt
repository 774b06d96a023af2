//! The events of the world.

ghost use Rattle.std.specs.Prelude.{◌≡◌, ◌⊎◌, ◌<◌, ◌^◌, Err, None, Ok, Some, IfOk, OnErr, OnOk};
ghost use Rattle.machine_world.specs.Events.{comes_to, happens, occurs};
ghost use Rattle.machine_world.specs.Refusals.{refusal};
ghost use Rattle.machine_world.specs.declared.outcomes.Refused.{Refused};
ghost use Rattle.machine_world.specs.declared.outcomes.Refused.TheVariants as refused;

use crate::worlds::World;
use machine_world::events::Event;
use machine_world::outcomes::{Happened, Refused};
use std::alloc::AllocError;

impl World {
    /// One event. A refused one changes nothing, nor does one for which memory is wanting.
    pub fn advance(&mut self, event: Event) -> Result<Happened, Refused>
        requires { self.old.events < 2 ^ 63 }
        ensures refused { (reason : Refused) → refusal self.old event ≡ Some reason → result ≡ Err reason }
        ensures happened { refusal self.old event ≡ None
            → (result ≡ Ok (comes_to self.old event)) ⊎ (result ≡ Err refused.NoMemory) }
        ensures ok { OnOk result (self.new ≡ happens self.old event) }
        ensures err { OnErr result (self.new ≡ self.old) }
    {
        if let Some(reason) = self.refusal(&event) {
            return Err(reason);
        }
        match self.carry_out(event) {
            Ok(happened) => Ok(happened),
            Err(_) => Err(Refused::NoMemory),
        }
    }

    /// An event that is not refused, for a caller that knows. Where memory is wanting nothing changes.
    pub fn carry_out(&mut self, event: Event) -> Result<Happened, AllocError>
        requires events { self.old.events < 2 ^ 63 }
        requires allowed { refusal self.old event ≡ None }
        ensures happened { IfOk result (λ happened. happened ≡ comes_to self.old event) }
        ensures world { OnOk result (self.new ≡ occurs self.old event) }
        ensures same { OnErr result (self.new ≡ self.old) }
    {
        match event {
            Event::Register => self.register(),
            Event::Invoke { client, call } => self.invoke(client, call),
            Event::Step { client } => self.act(client, false),
            Event::Late { client } => self.act(client, true),
            Event::Stop { client } => self.stop(client),
            Event::Lose { node } => {
                self.lose(node);
                Ok(Happened::Lost)
            }
            Event::Fill { node, word } => {
                self.fill(node, word);
                Ok(Happened::Filled)
            }
            Event::Choose(task) => {
                self.choose(task);
                Ok(Happened::Chosen)
            }
            Event::Work => self.work(),
        }
    }
}
