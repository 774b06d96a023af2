//! What holds of every list of events: each function does nothing, and its clauses are the laws.

ghost use Rattle.std.specs.Prelude.{◌≡◌, ◌≢◌, ℕ, Bool, true, false, List, [], ◌∷◌, ◌++◌};
ghost use Rattle.reuse_grace.specs.Stock.{Event, Take, Waiting, is_inside, opening, run};
ghost use Rattle.reuse_grace.specs.Allowed.{IsAllowed};
ghost use Rattle.reuse_grace.specs.Claims.{HoldsAlong};
ghost use Rattle.reuse_grace.specs.Example.{ended, given_back};

/// An owner takes an object only where it is in stock and no call of another client that still runs
/// has met it.
pub fn grace()
    ensures { (owner clients : ℕ) (stock : ℕ → Bool) (events : List Event) →
        IsAllowed (opening owner clients stock) events → HoldsAlong (opening owner clients stock) events }
{}

/// An object that was out of stock while another client was inside a call is not taken before that
/// client's begin word has changed.
pub fn taken_after_calls_have_ended()
    ensures { (owner clients : ℕ) (stock : ℕ → Bool) (before between : List Event) (client object : ℕ) →
        IsAllowed (opening owner clients stock) (before ++ (between ++ Take object ∷ [])) →
        client ≢ owner →
        is_inside (run (opening owner clients stock) before) client ≡ true →
        (run (opening owner clients stock) before).stock object ≡ false →
        (run (run (opening owner clients stock) before) between).begins client
        ≢ (run (opening owner clients stock) before).begins client }
{}

/// An object waits for a call that has met it, and is taken again once the call has ended.
pub fn an_object_waits_for_a_call()
    ensures allowed { IsAllowed (opening 1 2 (λ object. true)) (given_back ++ ended) }
    ensures waits { (run (opening 1 2 (λ object. true)) given_back).marks 7 ≡ Waiting }
{}
