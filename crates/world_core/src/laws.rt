//! What holds of the events of the world: each function does nothing, and its clause is the law.

ghost use Rattle.std.specs.Prelude.{◌≡◌, ℕ, Bool, List, None};
ghost use Rattle.machine_world.specs.Events.{happens, verb_event};
ghost use Rattle.machine_world.specs.Refusals.{refusal};
ghost use Rattle.machine_world.specs.Runs.{run};
ghost use Rattle.machine_world.specs.declared.events.Event.{Event};
ghost use Rattle.machine_world.specs.declared.events.Event.TheVariants as event;
ghost use Rattle.region_view.specs.Sizes.{IsWithinLimits, Sizes};
ghost use Rattle.world_core.specs.Apart.{MasterStandsApart, StandsApart};

/// After every run each verb that is not refused, of a client, as it comes or late, and of the master,
/// stands apart from all but its own word and its own actor. What the actor makes of it depends on the
/// actor as it was and on the answer alone.
pub fn apart()
    ensures client { (sizes : Sizes) (events : List Event) (late : Bool) (client : ℕ)
        → IsWithinLimits sizes
        → refusal (run sizes events) (verb_event late client) ≡ None
        → StandsApart late client (run sizes events) (happens (run sizes events) (verb_event late client)) }
    ensures master { (sizes : Sizes) (events : List Event)
        → IsWithinLimits sizes
        → refusal (run sizes events) event.Work ≡ None
        → MasterStandsApart (run sizes events) (happens (run sizes events) event.Work) }
{}
