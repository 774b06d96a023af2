//! What holds of every run: each function does nothing, and its clauses are the laws.

ghost use Rattle.std.specs.Prelude.{◌≡◌, ℕ, ◌*◌, ◌<◌, ◌≤◌, List, [], ◌∷◌, ◌++◌};
ghost use Rattle.machine.specs.declared.slot_write.Wrote.TheVariants.{Changed, Unchanged, Won};
ghost use Rattle.machine.specs.EpochRead.{IsView};
ghost use Rattle.machine.specs.Places.{backup_count};
ghost use Rattle.region_view.specs.Placed.{Viewed};
ghost use Rattle.slot_runs.specs.Run.{Event, Step, opening, run, told};
ghost use Rattle.slot_runs.specs.Allowed.{IsAllowed, IsSettled};
ghost use Rattle.slot_runs.specs.Claims.{HoldsAlong};
ghost use Rattle.slot_runs.specs.Example.{at_rest, contended, empty_slot, on_three_nodes};

/// The deciding word of a slot changes by the final swap of the one write whose word wins the round.
///
/// The final swap never fails, every backup has its word then, and nobody else is told of having
/// won. A write that began in a round that has ended keeps too few words of its own to win.
pub fn rounds()
    ensures backups { (view : Viewed) (slot : ℕ) → IsView view
        → (1 ≤ backup_count view slot) × (backup_count view slot ≤ 4) }
    ensures holds { (view : Viewed) (slot : ℕ) (nodes : List (List ℕ)) (events : List Event)
        → IsView view → slot < 24 * view.shape.groups → IsSettled view slot nodes
        → IsAllowed (opening view slot nodes) [] events
        → HoldsAlong (opening view slot nodes) events }
{}

/// Two writers may each reach another backup first. Then the one with the least word wins, and the
/// other one waits until it has.
#[tactic(auto, unfolding(machine::specs::SlotWrite::judged))]
pub fn two_writers_at_once()
    ensures view { IsView on_three_nodes }
    ensures settled { IsSettled on_three_nodes 0 empty_slot }
    ensures allowed { IsAllowed at_rest [] contended }
    ensures waits { told (run at_rest contended) (Step 2) ≡ Unchanged 0 }
    ensures won { told (run at_rest contended) (Step 1) ≡ Won }
    ensures changed { told (run at_rest (contended ++ Step 1 ∷ [])) (Step 2) ≡ Changed 5 }
{}
