//! What holds of the definitions: each function does nothing, and its clause is the law.

ghost use Rattle.std.specs.Prelude.{◌≡◌, ◌≤◌, ℕ, List, length};
ghost use Rattle.machine.specs.Client.{after, invoked, next};
ghost use Rattle.machine.specs.Examples.{first_answers, first_put, first_verbs, verbs_of};
ghost use Rattle.machine.specs.Places.{IsInPool, SparesMaster};
ghost use Rattle.machine.specs.Stage.{Client, Operation, first_client};
ghost use Rattle.machine.specs.Standing.{IsClient};
ghost use Rattle.object_form.specs.Class.{IsKeyLength};
ghost use Rattle.object_form.specs.declared.classes.TheConstants.{LONGEST};
ghost use Rattle.region_view.specs.Sizes.{IsWithinLimits, Sizes};
ghost use Rattle.verb_words.specs.Verb.{place_of};
ghost use Rattle.verb_words.specs.declared.verbs.Answer.{Answer};

/// A client stands well at its beginning, when it makes a call whose key and value have lengths
/// that are taken, and after every answer to its verb, whatever word is answered.
pub fn clients_stand_well()
    ensures begins { (sizes : Sizes) (number : ℕ) → IsWithinLimits sizes
        → 1 ≤ number → number ≤ sizes.clients → IsClient sizes number (first_client number sizes) }
    ensures calls { (sizes : Sizes) (number : ℕ) (client : Client) (operation : Operation)
        (key value : List ℕ) → IsClient sizes number client
        → IsKeyLength (length key) → length value ≤ LONGEST
        → IsClient sizes number (invoked client operation key value) }
    ensures goes_on { (sizes : Sizes) (number : ℕ) (client : Client) (answer : Answer)
        → IsClient sizes number client → IsClient sizes number (after client answer) }
{}

/// Each verb of a client that stands well goes to a place of its pool.
pub fn verbs_go_to_places_of_the_pool()
    ensures { (sizes : Sizes) (number : ℕ) (client : Client)
        → IsClient sizes number client → IsInPool sizes (place_of (next client)) }
{}

/// A verb of a client that stands well leaves the epoch word and the status words as they are.
pub fn clients_spare_the_masters_words()
    ensures { (sizes : Sizes) (number : ℕ) (client : Client)
        → IsClient sizes number client → SparesMaster (next client) }
{}

/// The first put of a small pool takes 18 verbs, and these are they.
pub fn a_first_put_takes_18_verbs()
    ensures { verbs_of first_put first_answers ≡ first_verbs }
{}
