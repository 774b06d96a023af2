//! What holds of every list of events: each function does nothing, and its clauses are the laws.

ghost use Rattle.std.specs.Prelude.{◌≡◌, ℕ, ◌<◌, List, [], ◌∷◌, ◌++◌};
ghost use Rattle.slot_rounds.specs.Write.{Changed, Unchanged, Won};
ghost use Rattle.slot_rounds.specs.Run.{Event, Step, opening, run, told};
ghost use Rattle.slot_rounds.specs.Allowed.{IsAllowed};
ghost use Rattle.slot_rounds.specs.Since.{IsAllowedSince};
ghost use Rattle.slot_rounds.specs.Claims.{HoldsAlong};
ghost use Rattle.slot_rounds.specs.Example.{contended};

/// The deciding word of a slot changes by the final swap of the one write whose word wins the round,
/// or where that word is installed on new replicas.
///
/// The final swap never fails, every backup has its word then, and nobody else is told of having
/// won. A write whose round has ended keeps too few words of its own to win.
pub fn rounds()
    ensures { (backups word : ℕ) (events : List Event) → 0 < backups →
        IsAllowed (opening backups word) events → HoldsAlong (opening backups word) events }
{}

/// The same, where all that is asked of the word of a write that begins is this: it has not been used
/// since the oldest write that is still under way began.
pub fn rounds_since()
    ensures { (backups word : ℕ) (events : List Event) → 0 < backups →
        IsAllowedSince (opening backups word) [] events → HoldsAlong (opening backups word) events }
{}

/// Two writers may each reach another backup first. Then the one with the least word wins, and the
/// other one waits until it has.
#[tactic(auto, unfolding(crate::specs::Write::judged))]
pub fn two_writers_at_once()
    ensures allowed { IsAllowed (opening 2 0) contended }
    ensures allowed_since { IsAllowedSince (opening 2 0) [] contended }
    ensures waits { told (run (opening 2 0) contended) (Step 2) ≡ Unchanged }
    ensures won { told (run (opening 2 0) contended) (Step 1) ≡ Won }
    ensures changed { told (run (opening 2 0) (contended ++ Step 1 ∷ [])) (Step 2) ≡ Changed 5 }
{}
