//! What holds of the definitions of the master's tasks: each function does nothing, and its clauses
//! are the law.

ghost use Rattle.std.specs.Prelude.{◌≡◌, ◌≢◌, ◌+◌, ◌*◌, ◌≤◌, ℕ, List, length};
ghost use Rattle.std.specs.List.{Contains};
ghost use Rattle.machine.specs.Copying.{read_place_of, written_places_of};
ghost use Rattle.machine.specs.Joining as joinings;
ghost use Rattle.machine.specs.Joining.{IsJoining, Joining, joining_of};
ghost use Rattle.machine.specs.Places.{IsInPool};
ghost use Rattle.machine.specs.Recovery as recoveries;
ghost use Rattle.machine.specs.RecoveryExample.{end_of, of_first_client, recovery_answers, recovery_verbs, verbs_of};
ghost use Rattle.machine.specs.RecoveryStage.{IsRecovery, Recovery, recovery_of};
ghost use Rattle.machine.specs.Resolution as resolutions;
ghost use Rattle.machine.specs.Resolution.{IsToldByWalk, IsWalk, Resolution};
ghost use Rattle.machine.specs.Settling as settlings;
ghost use Rattle.machine.specs.Settling.{IsSettling, Settling, settling_of};
ghost use Rattle.machine.specs.declared.recovery.Recovering.{Recovering};
ghost use Rattle.region_view.specs.Placed.{Viewed};
ghost use Rattle.region_view.specs.Sizes.{Sizes};
ghost use Rattle.region_view.specs.Places.{word_places_of};
ghost use Rattle.region_view.specs.Sizes.{IsWithinLimits, Sizes};
ghost use Rattle.verb_words.specs.Verb.{place_of};
ghost use Rattle.verb_words.specs.declared.verbs.Answer.{Answer};

/// A recovery stands well at its beginning and after every answer to its verb, whatever word is
/// answered, and its verb goes to a place of its pool.
pub fn recoveries_stand_well()
    ensures begins { (client : ℕ) (sizes : Sizes) → IsWithinLimits sizes
        → 1 ≤ client → client ≤ sizes.clients → IsRecovery sizes client (recovery_of client sizes) }
    ensures goes_on { (sizes : Sizes) (client : ℕ) (recovery : Recovery) (answer : Answer)
        → IsRecovery sizes client recovery
        → IsRecovery sizes client (recoveries.turn recovery answer).state }
    ensures inside { (sizes : Sizes) (client : ℕ) (recovery : Recovery)
        → IsRecovery sizes client recovery
        → IsInPool sizes (place_of (recoveries.next recovery)) }
{}

/// So does a settling.
pub fn settlings_stand_well()
    ensures begins { (sizes : Sizes) (stopped : ℕ)
        → IsWithinLimits sizes → IsSettling sizes (settling_of sizes stopped) }
    ensures goes_on { (sizes : Sizes) (settling : Settling) (answer : Answer)
        → IsSettling sizes settling → IsSettling sizes (settlings.turn settling answer).state }
    ensures inside { (sizes : Sizes) (settling : Settling)
        → IsSettling sizes settling → IsInPool sizes (place_of (settlings.next settling)) }
{}

/// So does a joining.
pub fn joinings_stand_well()
    ensures begins { (sizes : Sizes) (node : ℕ) → IsWithinLimits sizes
        → 1 ≤ node → node ≤ sizes.nodes → IsJoining sizes (joining_of sizes node) }
    ensures goes_on { (sizes : Sizes) (joining : Joining) (answer : Answer)
        → IsJoining sizes joining → IsJoining sizes (joinings.turn joining answer).state }
    ensures inside { (sizes : Sizes) (joining : Joining)
        → IsJoining sizes joining → IsInPool sizes (place_of (joinings.next joining)) }
{}

/// A walk back along the versions of a slot reads versions and what objects replaced alone, and
/// never tells that the slot is as it was expected or has another key.
pub fn a_walk_back_tells_won_or_beaten()
    ensures goes_on { (resolution : Resolution) (answer : Answer) → IsWalk resolution.phase
        → IsWalk (resolutions.turn resolution answer).state.phase }
    ensures tells { (resolution : Resolution) (answer : Answer) → IsWalk resolution.phase
        → IsToldByWalk (resolutions.turn resolution answer).told }
{}

/// A word that is copied goes to its place on each other replica of the new mask, and a slot's word
/// to its shadow on each replica; these are ten places at most.
pub fn a_word_is_copied_to_every_other_place()
    ensures others { (source fresh : Viewed) (region offset : ℕ) (place : ℕ × ℕ)
        → Contains (word_places_of fresh region offset) place
        → place.0 ≢ (read_place_of source region offset).0
        → Contains (written_places_of source fresh region offset) place }
    ensures shadows { (source fresh : Viewed) (slot : ℕ) (place : ℕ × ℕ)
        → Contains (word_places_of fresh 0 (24 * fresh.shape.groups + slot)) place
        → Contains (written_places_of source fresh 0 slot) place }
    ensures few { (source fresh : Viewed) (region offset : ℕ) → IsWithinLimits fresh.shape
        → length (written_places_of source fresh region offset) ≤ 10 }
{}

/// A recovery completes the first put of a small pool, of which the swap of the slot alone was
/// missing, by these 21 verbs.
pub fn a_recovery_completes_a_put()
    ensures verbs { verbs_of of_first_client recovery_answers ≡ recovery_verbs }
    ensures end { end_of of_first_client recovery_answers ≡ Recovering.Recovered }
{}
