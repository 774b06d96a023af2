ghost use Rattle.std.specs.Prelude.{◌≡◌, true};
ghost use Rattle.outside.specs.Faults.{IsSteady};
ghost use Rattle.fusee_top.specs.Course.{Concludes, sink_course};
ghost use Rattle.fusee_top.specs.Words.{are_numbers};
ghost use Rattle.sim_meaning.specs.Summary.{rendered};

use crate::notices::{DONE, NO_MEMORY, WRITE_FAULT};
use outside::Sink;
use script_run::Ran;
use sim_meaning::Numbers;
use sim_run::simulate;
use std::alloc::Global;

/// Carries out `sim`: simulates what the numbers say, and writes the summary.
pub fn run_simulation<K: Sink>(alloc: Global, numbers: &Numbers, sink: &mut K) -> u8
    requires { are_numbers numbers.now.clients numbers.now.calls numbers.now.stops numbers.now.losses ≡ true }
    ensures ends { Concludes (sink_course K.held K.faults sink.old sink.new) (rendered numbers.now) 0 result }
    ensures steady { IsSteady K.cannot_fail K.faults sink.old sink.new }
{
    match simulate(alloc, numbers, sink) {
        Ran::Whole => DONE,
        Ran::WriteFault => WRITE_FAULT,
        Ran::NoMemory => NO_MEMORY,
    }
}
