//! What holds of every list of events: each function does nothing, and its clauses are the laws.

ghost use Rattle.std.specs.Prelude.{◌≡◌, ◌++◌, ℕ, ◌<◌, List};
ghost use Rattle.block_claims.specs.Allowed.{IsAllowed};
ghost use Rattle.block_claims.specs.Claims.{Gained, Out};
ghost use Rattle.block_claims.specs.Example.{claimed, claimed_anew};
ghost use Rattle.block_claims.specs.Holds.{HoldsAlong};
ghost use Rattle.block_claims.specs.Run.{Event, opening, run};

/// A client that has gained a block owns it on every replica until its release, and no other client
/// has gained it.
pub fn blocks_have_one_owner()
    ensures { (replicas : ℕ) (events : List Event) → 0 < replicas →
        IsAllowed (opening replicas) events → HoldsAlong (opening replicas) events }
{}

/// Of two clients that read a block as unused one gains it, and the other once it is released.
pub fn two_clients_claim_a_block()
    ensures first { (run (opening 2) claimed).stages 1 ≡ Gained 0 }
    ensures second { (run (opening 2) claimed).stages 2 ≡ Out }
    ensures anew { (run (opening 2) (claimed ++ claimed_anew)).stages 2 ≡ Gained 0 }
{}
