//! What holds of the definitions: each function does nothing, and its clause is the law.

ghost use Rattle.std.specs.Prelude.{◌≡◌, ℕ, Bool, List, false};
ghost use Rattle.machine.specs.Client.{own_object};
ghost use Rattle.machine.specs.ObjectNames.{Object};
ghost use Rattle.machine.specs.declared.client_call.Outcome.{Outcome};
ghost use Rattle.machine.specs.Stage.{Client};
ghost use Rattle.machine_world.specs.Ledger.{with_outcome, with_taking};
ghost use Rattle.machine_world.specs.Readings.{is_in_stock};
ghost use Rattle.machine_world.specs.World.{Ledger};
ghost use Rattle.region_view.specs.Sizes.{Sizes};
ghost use Rattle.verb_words.specs.Applied.{words_after};
ghost use Rattle.verb_words.specs.Verb.{place_of};
ghost use Rattle.verb_words.specs.declared.verbs.Verb.{Verb};
ghost use Rattle.world_ledger.specs.Kept.{with_taking_of};
ghost use Rattle.world_ledger.specs.Returns.{returned_of, with_returned};
ghost use Rattle.world_ledger.specs.Seen.{may_bear_on_stock};

/// What is told of a client's call that returns comes into the history as the world enters it.
pub fn returns_are_those_of_the_world()
    ensures { (client : Client) (result : Outcome) (event : ℕ) (ledger : Ledger)
        → with_returned (returned_of client result) result event ledger
        ≡ with_outcome client result event ledger }
{}

/// What is told of a client's object, before and after, is noted as the world notes it.
pub fn takings_are_those_of_the_world()
    ensures { (sizes : Sizes) (before now : List (List ℕ)) (client : Client) (was is : Bool)
        (ledger : Ledger)
        → was ≡ is_in_stock sizes before (own_object client)
        → is ≡ is_in_stock sizes now (own_object client)
        → with_taking_of sizes client.client client.object was is ledger
        ≡ with_taking sizes before now client ledger }
{}

/// Whether an object is in stock is told after a verb as before it, where the verb goes to no word
/// that may bear on it.
pub fn other_words_tell_nothing_of_stock()
    ensures { (sizes : Sizes) (nodes : List (List ℕ)) (verb : Verb) (refuse : Bool) (object : Object)
        → may_bear_on_stock sizes object.pointer (place_of verb) ≡ false
        → is_in_stock sizes (words_after nodes verb refuse) object ≡ is_in_stock sizes nodes object }
{}
