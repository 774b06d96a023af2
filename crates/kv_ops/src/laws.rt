//! What holds of the definitions: each function does nothing, and its clauses are the laws.

ghost use Rattle.std.specs.Prelude.{◌≡◌, ◌≢◌, ◌+◌, ◌-◌, ◌*◌, ◌<◌, ◌≤◌, ◌++◌, ◌∷◌, [], ◌⊎◌, ℕ, List, false, length};
ghost use Rattle.kv_ops.specs.Causes.{Enters, Results};
ghost use Rattle.kv_ops.specs.Passed.{SearchesOn, WasPassed, after_all, place_of_call};
ghost use Rattle.kv_ops.specs.Stepping.{is_ended};
ghost use Rattle.machine.specs.Choosing as choosing;
ghost use Rattle.machine.specs.Client.{after, begin_place, invoked, is_idle, next, refusal, told};
ghost use Rattle.machine.specs.Places.{IsInPool, SparesMaster};
ghost use Rattle.machine.specs.declared.client_call.Outcome.TheVariants.{Full};
ghost use Rattle.machine.specs.Stage.{Choose, Client, Operation, ReadEpoch, Start};
ghost use Rattle.machine.specs.Standing.{IsClient};
ghost use Rattle.region_view.specs.Sizes.{Sizes};
ghost use Rattle.slot_order.specs.Slots.{order_of};
ghost use Rattle.verb_words.specs.Verb.{place_of};
ghost use Rattle.verb_words.specs.declared.verbs.Answer.{Answer};
ghost use Rattle.verb_words.specs.declared.verbs.Answer.TheVariants.{Done};
ghost use Rattle.verb_words.specs.declared.verbs.Verb.TheVariants.{Write};

/// A verb of a call leaves the client between calls exactly where it tells that the call ended.
pub fn a_call_is_over_where_it_ended()
    ensures { (client : Client) (answer : Answer) → is_idle client ≡ false
        → is_idle (after client answer) ≡ is_ended (told client answer) }
{}

/// A call's first verb is its begin word, and only once that is written does the call go on. No
/// verb leads back there.
pub fn a_call_begins_with_its_begin_word()
    ensures first { (client : Client) (operation : Operation) (key value : List ℕ)
        → next (invoked client operation key value)
        ≡ Write (begin_place client) (2 * (client.number + 1) - 1) }
    ensures goes_on { (client : Client) (answer : Answer) → client.stage ≡ Start
        → ((after client answer).stage ≡ Start)
        ⊎ ((answer ≡ Done) × ((after client answer).stage ≡ ReadEpoch)) }
    ensures once { (client : Client) (answer : Answer)
        → (after client answer).stage ≡ Start → client.stage ≡ Start }
{}

/// A verb leaves the number of the call, the client and the sizes of its pool.
pub fn a_verb_keeps_the_call()
    ensures number { (client : Client) (answer : Answer)
        → (after client answer).number ≡ client.number }
    ensures client { (client : Client) (answer : Answer)
        → (after client answer).client ≡ client.client }
    ensures shape { (client : Client) (answer : Answer)
        → (after client answer).shape ≡ client.shape }
{}

/// Whether a call is refused depends on its lengths, on the number of the last call and on the
/// sizes of the pool alone.
pub fn a_refusal_depends_on_lengths_and_number()
    ensures { (one other : Client) (key_len value_len : ℕ)
        → one.number ≡ other.number → one.shape ≡ other.shape
        → refusal one key_len value_len ≡ refusal other key_len value_len }
{}

/// Each verb of a client goes to a place of its pool, and leaves the epoch word and the status words.
pub fn a_verb_stays_within_the_clients_words()
    ensures inside { (sizes : Sizes) (number : ℕ) (client : Client)
        → IsClient sizes number client → IsInPool sizes (place_of (next client)) }
    ensures spares { (sizes : Sizes) (number : ℕ) (client : Client)
        → IsClient sizes number client → SparesMaster (next client) }
{}

/// A call comes to the stage of a lost node only where that node refused its verb, it pauses only at
/// an epoch word that it has read and that opens no mask, and it is paused only once that word is
/// written.
pub fn a_call_stops_for_a_cause()
    ensures { (sizes : Sizes) (number : ℕ) (client : Client) (answer : Answer)
        → IsClient sizes number client → Enters client answer (after client answer).stage }
{}

/// A call comes to return that the key's slots are full only where its answer passes over the slot
/// at the last place of the key's order, and that no object is left only where its choosing tells
/// so. The choosing takes each answer that the call gets at that stage.
pub fn a_call_returns_for_a_cause()
    ensures results { (sizes : Sizes) (number : ℕ) (client : Client) (answer : Answer)
        → IsClient sizes number client → Results client answer (after client answer).outcome }
    ensures choosing { (client : Client) (answer : Answer) → client.stage ≡ Choose
        → (after client answer).stock ≡ (choosing.turn client.stock answer).state }
{}

/// Where a call comes to return that the key's slots are full, each slot of the key's order, from the
/// place of the start on, was passed over by an answer of this call: by the word that was read of it,
/// or by the key of the object that came into it. The start is the call at any place of its last
/// search, up to the end of which it has a place in that search after each answer.
pub fn full_passes_every_slot()
    ensures { (sizes : Sizes) (number : ℕ) (start : Client) (answers : List Answer) (answer : Answer)
        → IsClient sizes number start → SearchesOn start answers
        → (after_all start answers).outcome ≢ Full
        → (after (after_all start answers) answer).outcome ≡ Full
        → (place : ℕ) → place_of_call start ≤ place
        → place < length (order_of start.key sizes.groups)
        → WasPassed start (answers ++ answer ∷ []) place }
{}
