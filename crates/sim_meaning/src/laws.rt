//! What holds of the definitions: each function does nothing, and its clause is the law.

ghost use Rattle.std.specs.Prelude.{◌≡◌, ◌≢◌, ◌+◌, ◌++◌, ◌*◌, ◌<◌, ◌≤◌, ◌^◌, ℕ, AllPairs, Contains, List, Some, false, length, not};
ghost use Rattle.std.specs.List.{list_any};
ghost use Rattle.machine_world.specs.Runs.{run, run_from};
ghost use Rattle.machine_world.specs.World.{World};
ghost use Rattle.machine_world.specs.declared.events.Event.{Event};
ghost use Rattle.map_model.specs.Map.{empty_map, map_after};
ghost use Rattle.map_model.specs.declared.entries.Entry.{Entry};
ghost use Rattle.rand_pcg.specs.Pcg.{pcg32};
ghost use Rattle.region_view.specs.Sizes.{IsWithinLimits};
ghost use Rattle.script_meaning.specs.Lines.{meaning};
ghost use Rattle.script_text.specs.declared.scripts.Line.TheVariants as line;
ghost use Rattle.sim_meaning.specs.Counts.{events_of_turn, most_events};
ghost use Rattle.sim_meaning.specs.Driver.{Driver, settles, simulated, sizes_of, turn};
ghost use Rattle.sim_meaning.specs.declared.numbers.Numbers.{Numbers};
ghost use Rattle.sim_meaning.specs.Examples.{a_stop_and_two_losses, a_stop_and_two_losses_text, a_stopped_put, a_stopped_put_text, one_delete, one_delete_text, three_small_nodes};
ghost use Rattle.sim_meaning.specs.Summary.{keys_in, rendered, rendered_on, verbs_in};
ghost use Rattle.sim_meaning.specs.Told.{tells_opening};

/// A simulation is a run of the machine: its world is the one after its events.
pub fn a_simulation_is_a_run()
    ensures { (numbers : Numbers)
        → (simulated numbers).driver.world ≡ run (sizes_of numbers) (simulated numbers).events }
{}

/// The pool of a simulation of 1 to 64 clients is within the limits of pools.
pub fn a_simulation_has_a_pool()
    ensures { (numbers : Numbers) → 1 ≤ numbers.clients → numbers.clients ≤ 64 → IsWithinLimits (sizes_of numbers) }
{}

/// A turn, and so a simulation, is so many events at most, and the world counts no more; with 64
/// clients and 100,000 calls in all these are fewer than 2^63.
pub fn a_simulation_is_few_events()
    ensures turn { (numbers : Numbers) (driver : Driver)
        → length (turn numbers driver).events ≤ events_of_turn numbers }
    ensures counted { (numbers : Numbers) (driver : Driver)
        → (turn numbers driver).driver.world.events ≤ driver.world.events + events_of_turn numbers }
    ensures whole { (numbers : Numbers) → length (simulated numbers).events ≤ most_events numbers }
    ensures few { (numbers : Numbers) → numbers.clients ≤ 64 → numbers.clients * numbers.calls ≤ 100000
        → most_events numbers < 2 ^ 63 }
{}

/// A turn draws one word.
pub fn a_turn_draws_one_word()
    ensures { (numbers : Numbers) (driver : Driver)
        → (turn numbers driver).driver.generator ≡ (pcg32 driver.generator).1 }
{}

/// No more nodes are lost than are to be.
pub fn no_node_too_many_is_lost()
    ensures { (numbers : Numbers) (driver : Driver) → driver.losses ≤ numbers.losses
        → (turn numbers driver).driver.losses ≤ numbers.losses }
{}

/// A settling stays under way until its line would tell that it has opened a view.
pub fn a_settling_is_over_once_it_has_opened()
    ensures { (driver : Driver)
        → (settles driver).driver.settling ≡ not (list_any tells_opening (meaning false driver.world line.Settle).lines) }
{}

/// The verbs of events and then of others are those of both.
pub fn verbs_add_up()
    ensures { (world : World) (events more : List Event)
        → verbs_in world (events ++ more) ≡ verbs_in world events + verbs_in (run_from world events) more }
{}

/// The keys that are counted: each key with a value is among them, and they are all different.
pub fn each_key_is_counted_once()
    ensures all { (entries : List Entry) (key value : List ℕ)
        → map_after empty_map entries key ≡ Some value → Contains (keys_in entries) key }
    ensures once { (entries : List Entry) → AllPairs (λ one other. one ≢ other) (keys_in entries) }
{}

/// What a simulation of one call prints, computed.
pub fn one_delete_prints_this()
    ensures { rendered one_delete ≡ one_delete_text }
{}

/// What is printed of a simulation in which a client stops within a put and is recovered, computed.
pub fn a_stopped_put_prints_this()
    ensures { rendered a_stopped_put ≡ a_stopped_put_text }
{}

/// What is printed of one on a small pool, of which two nodes are lost besides, computed.
pub fn a_stop_and_two_losses_print_this()
    ensures { rendered_on three_small_nodes a_stop_and_two_losses ≡ a_stop_and_two_losses_text }
{}
