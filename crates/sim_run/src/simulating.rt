ghost use Rattle.std.specs.Prelude.{◌≡◌, ◌*◌, ◌≤◌, IfOk};
ghost use Rattle.outside.specs.Faults.{IsSteady};
ghost use Rattle.script_run.specs.Written.{Prints, Writes};
ghost use Rattle.sim_meaning.specs.Driver.{sizes_of};
ghost use Rattle.sim_meaning.specs.Summary.{rendered, summary_text};
ghost use Rattle.sim_run.specs.Course.{IsSmall};
ghost use Rattle.sim_run.specs.Pool.{run_sizes};

use crate::driving::simulated_on;
use crate::simulators::Simulator;
use crate::summary::write_summary;
use crate::works::Work;
use outside::Sink;
use region_view::Shape;
use script_run::{Ran, Unwritten};
use sim_meaning::Numbers;
use std::alloc::{AllocError, Global};

/// Carries out a simulation, and then writes its summary. There are 1 to 64 clients, and they make at
/// most 100,000 calls in all.
pub fn simulate<K: Sink>(alloc: Global, numbers: &Numbers, sink: &mut K) -> Ran
    requires some { 1 ≤ numbers.now.clients }
    requires few { numbers.now.clients ≤ 64 }
    requires calls { numbers.now.clients * numbers.now.calls ≤ 100000 }
    ensures written { Prints K.held K.faults sink.old sink.new result (rendered numbers.now) }
    ensures later { K.faults sink.old ≤ K.faults sink.new }
    ensures steady { IsSteady K.cannot_fail K.faults sink.old sink.new }
{
    match write_simulated(alloc, numbers, sink) {
        Ok(()) => Ran::Whole,
        Err(Unwritten::Fault) => Ran::WriteFault,
        Err(Unwritten::NoMemory) => Ran::NoMemory,
    }
}

fn write_simulated<K: Sink>(alloc: Global, numbers: &Numbers, sink: &mut K) -> Result<(), Unwritten>
    requires { IsSmall numbers.now }
    ensures written { Writes K.held K.faults sink.old sink.new result (rendered numbers.now) }
    ensures later { K.faults sink.old ≤ K.faults sink.new }
    ensures steady { IsSteady K.cannot_fail K.faults sink.old sink.new }
{
    match simulated(alloc, numbers) {
        Ok(simulator) => write_summary(alloc, numbers, &simulator.counted, sink),
        Err(_) => Err(Unwritten::NoMemory),
    }
}

// The simulator at the end of the simulation.
fn simulated(alloc: Global, numbers: &Numbers) -> Result<Simulator, AllocError>
    requires { IsSmall numbers.now }
    ensures { IfOk result (λ simulator. summary_text numbers.now simulator.counted.world simulator.counted.verbs ≡ rendered numbers.now) }
{
    let work = Work::new(alloc, numbers)?;
    let simulator = simulated_on(alloc, pool_of(numbers), &work)?;
    Ok(simulator)
}

/// The pool of the simulations of 64 clients: three nodes with three replicas of four data regions of
/// 16 blocks each, 16 bucket groups, and 16,777,215 calls of a client.
pub fn run_shape() -> Shape
    ensures { result ≡ run_sizes }
{
    Shape {
        nodes: 3,
        replicas: 3,
        regions: 4,
        blocks: 16,
        groups: 16,
        clients: 64,
        calls: 16_777_215,
    }
}

// The pool of a simulation has its clients.
fn pool_of(numbers: &Numbers) -> Shape
    requires { IsSmall numbers.now }
    ensures { result ≡ sizes_of numbers.now }
{
    let mut shape = run_shape();
    shape.clients = numbers.clients;
    shape
}
