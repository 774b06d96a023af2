ghost use Rattle.std.specs.Prelude.{◌≡◌};
ghost use Rattle.rand_pcg.specs.Pcg.{pcg32};
ghost use Rattle.sim_plan.specs.Made.{seeded};

use rand_core::SeedableRng;
use rand_core::utils::NextWord;
use rand_pcg::Lcg64Xsh32;
use std::marker::Model;

/// Words drawn one after the other from a generator that was seeded with a number. A contract sees
/// the state of the generator, which tells all the words that are left.
#[derive(Drop)]
pub struct Turns {
    generator: Lcg64Xsh32,
}

impl Model for Turns {
    ghost use Rattle.rand_pcg.specs.Lcg.{Lcg};

    ghost Value = { Lcg };

    ghost view = { λ turns. turns.generator };
}

/// The words of a number, from the first one on.
pub fn turns_of(seed: u64) -> Turns
    ensures { result ≡ seeded seed }
{
    Turns {
        generator: Lcg64Xsh32::seed_from_u64(seed),
    }
}

impl Turns {
    /// The next word.
    pub fn draw(&mut self) -> u32
        ensures { (result, self.new) ≡ pcg32 self.old }
    {
        self.generator.next_word()
    }
}
