//! What holds of the definitions: each function does nothing, and its clause is the law.

ghost use Rattle.std.specs.Prelude.{◌≡◌, ◌≢◌, ◌+◌, ◌<◌, ◌≤◌, ◌==◌, ℕ, Bool, true, false, if◌then◌else◌, List, [], ◌∷◌, ◌++◌, length, map, None, Some};
ghost use Rattle.machine.specs.Client.{after, told};
ghost use Rattle.machine_world.specs.Claims.{HasMet, IsHistoryLinear, RoundIsWon, firsts_of, is_right};
ghost use Rattle.machine_world.specs.Events.{answer_of, answered, chooses, fills, happens, invokes, loses, moments_of, acts, registers, stops, verb_event, verb_of, verb_of_task, works};
ghost use Rattle.machine_world.specs.Examples.{crossed_after, crossed_before, crossed_object, crossed_puts, crossed_words, crossed_puts_history, lost_primary, lost_primary_history, three_nodes, first_put, first_put_division, first_put_history, first_put_trace, one_of_each, stopped_put, stopped_put_division, stopped_put_history, two_clients};
ghost use Rattle.machine_world.specs.Ledger.{history_of};
ghost use Rattle.machine_world.specs.Readings.{division_of, is_unfinished};
ghost use Rattle.machine_world.specs.Refusals.{refusal};
ghost use Rattle.machine_world.specs.Runs.{run, verbs_at, verbs_taken};
ghost use Rattle.machine_world.specs.Standing.{StandsWell};
ghost use Rattle.machine_world.specs.World.{World, client_at, first_world};
ghost use Rattle.machine_world.specs.declared.events.Event.{Event};
ghost use Rattle.machine_world.specs.declared.events.Event.TheVariants as event;
ghost use Rattle.machine_world.specs.declared.events.Task.{Task};
ghost use Rattle.machine_world.specs.declared.outcomes.Refused.{Refused};
ghost use Rattle.map_model.specs.declared.calls.Call.{Call};
ghost use Rattle.region_view.specs.Sizes.{IsWithinLimits, Sizes};
ghost use Rattle.verb_words.specs.Verb as verbs;
ghost use Rattle.verb_words.specs.Verb.{place_of};
ghost use Rattle.verb_words.specs.Words.{HasPlace, is_lost, with_word, word_at};
ghost use Rattle.verb_words.specs.declared.verbs.Answer.TheVariants as answer;
ghost use Rattle.verb_words.specs.declared.verbs.Place.{Place};
ghost use Rattle.verb_words.specs.declared.verbs.Verb.{Verb};

/// An event that is refused leaves the world as it was.
pub fn refused_events_change_nothing()
    ensures { (world : World) (event : Event) (reason : Refused)
        → refusal world event ≡ Some reason → happens world event ≡ world }
{}

/// Each kind of event that is not refused makes of the world just this.
pub fn events_make_the_world()
    ensures register { (world : World) → refusal world event.Register ≡ None
        → happens world event.Register ≡ registers world }
    ensures invoke { (world : World) (client : ℕ) (call : Call)
        → refusal world (event.Invoke client call) ≡ None
        → happens world (event.Invoke client call) ≡ invokes world client call }
    ensures verb { (late : Bool) (world : World) (client : ℕ)
        → refusal world (verb_event late client) ≡ None
        → happens world (verb_event late client) ≡ acts late world client }
    ensures stop { (world : World) (client : ℕ) → refusal world (event.Stop client) ≡ None
        → happens world (event.Stop client) ≡ stops world client }
    ensures lose { (world : World) (node : ℕ) → refusal world (event.Lose node) ≡ None
        → happens world (event.Lose node) ≡ loses world node }
    ensures fill { (world : World) (node word : ℕ) → refusal world (event.Fill node word) ≡ None
        → happens world (event.Fill node word) ≡ fills world node word }
    ensures choose { (world : World) (task : Task) → refusal world (event.Choose task) ≡ None
        → happens world (event.Choose task) ≡ chooses world task }
    ensures work { (world : World) → refusal world event.Work ≡ None
        → happens world event.Work ≡ works world }
{}

/// A client's verb, as it comes or late, changes no word but its own, no client but its own, the
/// trace by that client's moments alone, and not who is stopped; what it makes of the client, and
/// these moments, depend on the client as it was and on the answer.
pub fn a_clients_verb_stands_apart()
    ensures words { (late : Bool) (world : World) (client : ℕ) (place : Place)
        → place ≢ place_of (verb_of world client)
        → word_at (acts late world client).nodes place ≡ word_at world.nodes place }
    ensures others { (late : Bool) (world : World) (client other : ℕ) → other ≢ client
        → client_at (acts late world client) other ≡ client_at world other }
    ensures own { (late : Bool) (world : World) (client : ℕ) → client < length world.clients
        → client_at (acts late world client) client
        ≡ after (client_at world client) (answer_of late world client) }
    ensures trace { (late : Bool) (world : World) (client : ℕ)
        → (acts late world client).trace ≡ world.trace
        ++ moments_of (client_at world client) (told (client_at world client) (answer_of late world client)) }
    ensures stopped { (late : Bool) (world : World) (client : ℕ)
        → (acts late world client).stopped ≡ world.stopped }
{}

/// A client's verb that a live node takes, or that a lost node's words take late, is answered by the
/// word that it finds; one that a lost node refuses changes no word; each of them is one verb of that
/// client.
pub fn verbs_are_answered_by_their_words()
    ensures answered { (world : World) (client : ℕ) → refusal world (event.Step client) ≡ None
        → happens world (verb_event (is_lost world.nodes (place_of (verb_of world client)).node) client)
        ≡ answered world client
        (verbs.answer_of (verb_of world client) (word_at world.nodes (place_of (verb_of world client))))
        (with_word world.nodes (place_of (verb_of world client))
        (verbs.word_after (verb_of world client) (word_at world.nodes (place_of (verb_of world client))))) }
    ensures refused { (world : World) (client : ℕ) → refusal world (event.Step client) ≡ None
        → is_lost world.nodes (place_of (verb_of world client)).node ≡ true
        → happens world (event.Step client) ≡ answered world client answer.Lost world.nodes }
    ensures counted { (late : Bool) (world : World) (client other : ℕ)
        → refusal world (verb_event late client) ≡ None
        → verbs_at world other (verb_event late client) ≡ (if client == other then 1 else 0) }
{}

/// A client's verb leaves the epoch word and the status words as they are, so no node is lost by it.
pub fn clients_leave_the_masters_words()
    ensures words { (late : Bool) (world : World) (client at : ℕ) → StandsWell world
        → 1 ≤ client → client < length world.clients → at < 16
        → word_at (acts late world client).nodes (record { node = 0; at = at })
        ≡ word_at world.nodes (record { node = 0; at = at }) }
    ensures lost { (late : Bool) (world : World) (client node : ℕ) → StandsWell world
        → 1 ≤ client → client < length world.clients → node < 16
        → is_lost (acts late world client).nodes node ≡ is_lost world.nodes node }
{}

/// A verb of the master changes no word but its own, no client, not the trace, and not who is stopped.
pub fn the_masters_verb_stands_apart()
    ensures words { (world : World) (verb : Verb) (place : Place)
        → verb_of_task world.master.task ≡ Some verb → place ≢ place_of verb
        → word_at (works world).nodes place ≡ word_at world.nodes place }
    ensures clients { (world : World) → (works world).clients ≡ world.clients }
    ensures trace { (world : World) → (works world).trace ≡ world.trace }
    ensures stopped { (world : World) → (works world).stopped ≡ world.stopped }
{}

/// No event changes how many words a node has.
pub fn nodes_keep_their_sizes()
    ensures { (world : World) (event : Event)
        → map length (happens world event).nodes ≡ map length world.nodes }
{}

/// A run of one event more, and the verbs that a client has taken in it.
pub fn runs_go_on()
    ensures none { (sizes : Sizes) → run sizes [] ≡ first_world sizes }
    ensures more { (sizes : Sizes) (events : List Event) (event : Event)
        → run sizes (events ++ event ∷ []) ≡ happens (run sizes events) event }
    ensures verbs { (sizes : Sizes) (client : ℕ) (events : List Event) (event : Event)
        → verbs_taken sizes client (events ++ event ∷ [])
        ≡ verbs_taken sizes client events + verbs_at (run sizes events) client event }
{}

/// After every run the nodes have all of their words, and each client and the master's task stand
/// well, whatever words they were answered.
pub fn the_world_stands_well()
    ensures { (sizes : Sizes) (events : List Event)
        → IsWithinLimits sizes → StandsWell (run sizes events) }
{}

/// Each verb of a client and of the master, in every run, goes to a word that the nodes have.
pub fn verbs_find_their_words()
    ensures clients { (world : World) (client : ℕ) → StandsWell world
        → 1 ≤ client → client < length world.clients
        → HasPlace world.nodes (place_of (verb_of world client)) }
    ensures master { (world : World) (verb : Verb) → StandsWell world
        → verb_of_task world.master.task ≡ Some verb
        → HasPlace world.nodes (place_of verb) }
{}

/// The first put of the only client of a small pool: its run returns, its history is this one call and a
/// linearization of its trace, and one block is owned, of whose 64 objects one is present.
pub fn the_first_put_as_a_run()
    ensures trace { (run one_of_each first_put).trace ≡ first_put_trace }
    ensures history { history_of (run one_of_each first_put) ≡ first_put_history }
    ensures linear { IsHistoryLinear (run one_of_each first_put) }
    ensures division { division_of (run one_of_each first_put) ≡ first_put_division }
{}

/// A put whose client stops before its last swap, and the recovery of that client: another client's put
/// at the same key waits for it and is beaten by it.
pub fn a_stopped_put_as_a_run()
    ensures history { history_of (run two_clients stopped_put) ≡ stopped_put_history }
    ensures division { division_of (run two_clients stopped_put) ≡ stopped_put_division }
{}

/// Two puts whose swaps fall between one another.
pub fn crossed_puts_as_a_run()
    ensures { history_of (run two_clients crossed_puts) ≡ crossed_puts_history }
{}

/// A put whose primary is lost.
pub fn a_lost_primary_as_a_run()
    ensures { history_of (run three_nodes lost_primary) ≡ lost_primary_history }
{}

/// In the crossed puts each put has put its word on one backup first; the least word wins. Before the
/// round ends the call of client 2 has met the object of client 1; at the end no call is unfinished,
/// and client 1 remembers rightly where its key is.
pub fn what_is_said_of_the_crossed_puts()
    ensures firsts { firsts_of two_clients 0 crossed_before ≡ map Some crossed_words }
    ensures won { RoundIsWon (run two_clients crossed_before) (run two_clients crossed_after) 0
        (firsts_of two_clients 0 crossed_before) }
    ensures met { HasMet two_clients crossed_after 2 crossed_object }
    ensures unfinished { map (is_unfinished (run two_clients crossed_after)) (0 ∷ 1 ∷ 2 ∷ []) ≡ false ∷ true ∷ true ∷ [] }
    ensures rests { map (is_unfinished (run two_clients crossed_puts)) (0 ∷ 1 ∷ 2 ∷ []) ≡ false ∷ false ∷ false ∷ [] }
    ensures right { map (is_right (run two_clients crossed_puts)) (client_at (run two_clients crossed_puts) 1).remembered ≡ true ∷ [] }
{}
