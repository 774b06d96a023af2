//! What holds of the definitions: the function does nothing, and its clause is the law.

ghost use Rattle.std.specs.Prelude.{◌≡◌, ℕ};
ghost use Rattle.rand_core.specs.Steps.{first_words, steps_u32, stream_of};
ghost use Rattle.rand_core.specs.Stream.{next_u32};
ghost use Rattle.rand_pcg.specs.Pcg.{pcg32};
ghost use Rattle.sim_plan.specs.Made.{seeded};

/// The words of plans and of turns are those that `next_u32` of a seeded generator answers.
pub fn words_are_those_of_next_u32()
    ensures { (count seed : ℕ) →
        first_words pcg32 count (seeded seed) ≡ first_words next_u32 count (stream_of (steps_u32 pcg32) (seeded seed)) }
{}
