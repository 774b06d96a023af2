//! What holds of every list of events: each function does nothing, and its clauses are the laws.

ghost use Rattle.std.specs.Prelude.{◌≡◌, ◌++◌, ℕ, ◌<◌, List};
ghost use Rattle.object_bits.specs.Allowed.{IsAllowed};
ghost use Rattle.object_bits.specs.Claims.{HoldsAlong};
ghost use Rattle.object_bits.specs.Example.{gives_up, goes_on, lost};
ghost use Rattle.object_bits.specs.Run.{Event, Free, Taken, opening, run};

/// No add sets a bit that is set or clears one that is clear, whatever was broken off, copied and
/// installed in between; while nobody changes the bit it is the same on every replica; and one
/// client takes the object, which is given back before it is taken again.
pub fn bits_are_changed_the_right_way()
    ensures { (replicas : ℕ) (events : List Event) → 0 < replicas →
        IsAllowed (opening replicas) events → HoldsAlong (opening replicas) events }
{}

/// Where the taking of an object is broken off and the cleared bit is installed, the object is taken
/// once the client goes on, and in stock again once its taking is given up.
pub fn a_taking_is_broken_off()
    ensures allowed { IsAllowed (opening 3) (lost ++ goes_on) }
    ensures taken { (run (opening 3) (lost ++ goes_on)).standing ≡ Taken 1 }
    ensures undone { IsAllowed (opening 3) (lost ++ gives_up) }
    ensures free { (run (opening 3) (lost ++ gives_up)).standing ≡ Free }
{}
