// The turns of a simulation.

ghost use Rattle.std.specs.Prelude.{◌≡◌, ◌+◌, ◌*◌, ◌<◌, ◌≤◌, ◌^◌, IfOk, OnOk, true};
ghost use Rattle.region_view.specs.Sizes.{all_words};
ghost use Rattle.sim_meaning.specs.Counts.{events_of_turn, most_events};
ghost use Rattle.sim_meaning.specs.Driver.{acts, calls_before_loss, client_of, clients_of, has_returned_all, invokes, is_loss_due, is_over, is_passed_over, is_through, is_to_stop, loses, loses_if_due, manages, most_turns, recovers, recovers_each, registers, settles, simulated_on, steps, steps_and_stops, turn, turns, verbs_of};
ghost use Rattle.sim_run.specs.Course.{IsPlanned, IsSmall, course_of, first_course, goes};

use crate::counted_world::CountedWorld;
use crate::simulators::Simulator;
use crate::takers::Taker;
use crate::works::Work;
use region_view::Shape;
use sim_meaning::Numbers;
use sim_plan::turns_of;
use std::alloc::{AllocError, Global};
use world_core::{Event, Task};

/// The simulator at the end of a simulation on a pool of this shape.
pub(crate) fn simulated_on(
    alloc: Global,
    shape: Shape,
    work: &Work,
) -> Result<Simulator, AllocError>
    requires planned { IsPlanned work.now }
    requires words { all_words shape ≤ 2097152 }
    ensures { IfOk result (λ simulator. course_of simulator
        ≡ goes (first_course shape work.now.numbers) (simulated_on shape work.now.numbers)) }
{
    let mut simulator = Simulator {
        counted: CountedWorld::new(alloc, shape)?,
        turns: turns_of(work.numbers.seed),
        losses: 0,
        settling: false,
    };
    register_all(&work.numbers, &mut simulator)?;
    take_turns(work, &mut simulator)?;
    Ok(simulator)
}

// Registers as many clients as there are to be.
fn register_all(numbers: &Numbers, simulator: &mut Simulator) -> Result<(), AllocError>
    requires small { IsSmall numbers.now }
    requires begins { simulator.old.counted.world.events ≡ 0 }
    ensures { OnOk result (course_of simulator.new
        ≡ goes (course_of simulator.old) (registers numbers.now.clients (course_of simulator.old).driver)) }
{
    for registered in 0..numbers.clients {
        simulator.counted.register()?;
    }
    Ok(())
}

// Takes turns until the simulation is over, and at most so many.
fn take_turns(work: &Work, simulator: &mut Simulator) -> Result<(), AllocError>
    requires planned { IsPlanned work.now }
    requires room { simulator.old.counted.world.events ≤ work.now.numbers.clients }
    ensures { OnOk result (course_of simulator.new
        ≡ goes (course_of simulator.old) (turns work.now.numbers (most_turns work.now.numbers) (course_of simulator.old).driver)) }
{
    for taken in 0..most_turns(&work.numbers) {
        if is_over(&work.numbers, simulator) {
            return Ok(());
        }
        take_turn(work, simulator)?;
    }
    Ok(())
}

fn most_turns(numbers: &Numbers) -> u64
    requires { IsSmall numbers.now }
    ensures { result ≡ most_turns numbers.now }
{
    64 * all_calls(numbers) + 1000
}

// How many calls all clients make.
fn all_calls(numbers: &Numbers) -> u64
    requires { IsSmall numbers.now }
    ensures all { result ≡ numbers.now.clients * numbers.now.calls }
    ensures few { result ≤ 100000 }
{
    numbers.clients as u64 * numbers.calls as u64
}

// Whether all clients are through and no settling is under way.
fn is_over(numbers: &Numbers, simulator: &Simulator) -> bool
    requires { IsSmall numbers.now }
    ensures { result ≡ is_over numbers.now (course_of simulator.now).driver }
{
    if simulator.settling {
        return false;
    }
    for client in 1..numbers.clients + 1 {
        if !is_through(numbers, &simulator.counted, client) {
            return false;
        }
    }
    true
}

fn is_through(numbers: &Numbers, counted: &CountedWorld, client: u32) -> bool
    ensures { result ≡ is_through numbers.now counted.now.world client }
{
    if counted.is_stopped(client) {
        counted.is_recovered(client)
    } else {
        has_returned_all(numbers, counted, client)
    }
}

fn has_returned_all(numbers: &Numbers, counted: &CountedWorld, client: u32) -> bool
    ensures { result ≡ has_returned_all numbers.now counted.now.world client }
{
    counted.is_idle(client) && counted.number(client) == numbers.calls
}

// The turn of the next word.
fn take_turn(work: &Work, simulator: &mut Simulator) -> Result<(), AllocError>
    requires planned { IsPlanned work.now }
    requires room { simulator.old.counted.world.events + events_of_turn work.now.numbers ≤ 2 ^ 63 }
    ensures { OnOk result (course_of simulator.new
        ≡ goes (course_of simulator.old) (turn work.now.numbers (course_of simulator.old).driver)) }
{
    let word = simulator.turns.draw();
    let client = client_of(&work.numbers, word);
    act(work, word, client, simulator)?;
    lose_if_due(&work.numbers, simulator)?;
    manage(&work.numbers, simulator)
}

fn client_of(numbers: &Numbers, word: u32) -> u32
    requires { IsSmall numbers.now }
    ensures named { result ≡ client_of numbers.now word }
    ensures least { 1 ≤ result }
    ensures most { result ≤ numbers.now.clients }
{
    1 + word % numbers.clients
}

// The turn of a client.
fn act(work: &Work, word: u32, client: u32, simulator: &mut Simulator) -> Result<(), AllocError>
    requires planned { IsPlanned work.now }
    requires least { 1 ≤ client }
    requires most { client ≤ work.now.numbers.clients }
    requires room { simulator.old.counted.world.events + 67 ≤ 2 ^ 63 }
    ensures { OnOk result (course_of simulator.new
        ≡ goes (course_of simulator.old) (acts work.now.numbers word client (course_of simulator.old).driver)) }
{
    if is_passed_over(&work.numbers, &simulator.counted, client) {
        return Ok(());
    }
    invoke(work, client, simulator)?;
    step(&work.numbers, word, client, simulator)
}

fn is_passed_over(numbers: &Numbers, counted: &CountedWorld, client: u32) -> bool
    ensures { result ≡ is_passed_over numbers.now counted.now.world client }
{
    counted.is_stopped(client) || has_returned_all(numbers, counted, client)
}

// An idle client invokes its next call.
fn invoke(work: &Work, client: u32, simulator: &mut Simulator) -> Result<(), AllocError>
    requires planned { IsPlanned work.now }
    requires least { 1 ≤ client }
    requires most { client ≤ work.now.numbers.clients }
    requires room { simulator.old.counted.world.events < 2 ^ 63 }
    ensures { OnOk result (course_of simulator.new
        ≡ goes (course_of simulator.old) (invokes work.now.numbers client (course_of simulator.old).driver)) }
{
    if !simulator.counted.is_idle(client) {
        return Ok(());
    }
    let number = simulator.counted.number(client);
    match work.call(client, number) {
        Some(call) => simulator.counted.invoke(client, call.copy()?),
        None => Ok(()),
    }
}

// A client in a call takes its verbs, and stops where it is to stop.
fn step(
    numbers: &Numbers,
    word: u32,
    client: u32,
    simulator: &mut Simulator,
) -> Result<(), AllocError>
    requires { simulator.old.counted.world.events + 66 ≤ 2 ^ 63 }
    ensures { OnOk result (course_of simulator.new
        ≡ goes (course_of simulator.old) (steps numbers.now word client (course_of simulator.old).driver)) }
{
    if simulator.counted.is_idle(client) {
        return Ok(());
    }
    if is_to_stop(numbers, &simulator.counted, client) {
        return step_and_stop(client, verbs_of(word, 64), simulator);
    }
    simulator
        .counted
        .take_up_to(verbs_of(word, 8), Taker::Client(client))
}

fn is_to_stop(numbers: &Numbers, counted: &CountedWorld, client: u32) -> bool
    ensures { result ≡ is_to_stop numbers.now counted.now.world client }
{
    client <= numbers.stops && counted.number(client) == numbers.calls / 2 + 1
}

fn step_and_stop(client: u32, verbs: u64, simulator: &mut Simulator) -> Result<(), AllocError>
    requires few { verbs ≤ 64 }
    requires room { simulator.old.counted.world.events + 66 ≤ 2 ^ 63 }
    ensures { OnOk result (course_of simulator.new
        ≡ goes (course_of simulator.old) (steps_and_stops client verbs (course_of simulator.old).driver)) }
{
    simulator.counted.take_up_to(verbs, Taker::Client(client))?;
    simulator.counted.stop(client)
}

// How many verbs a word gives.
fn verbs_of(word: u32, most: u32) -> u64
    requires least { 1 ≤ most }
    requires most { most ≤ 64 }
    ensures verbs { result ≡ verbs_of word most }
    ensures few { result ≤ most }
{
    1 + u64::from((word >> 16) % most)
}

// The next node is lost, where it is time.
fn lose_if_due(numbers: &Numbers, simulator: &mut Simulator) -> Result<(), AllocError>
    requires small { IsSmall numbers.now }
    requires room { simulator.old.counted.world.events < 2 ^ 63 }
    ensures { OnOk result (course_of simulator.new
        ≡ goes (course_of simulator.old) (loses_if_due numbers.now (course_of simulator.old).driver)) }
{
    if !is_loss_due(numbers, simulator) {
        return Ok(());
    }
    simulator.losses += 1;
    simulator.settling = true;
    let node = simulator.losses;
    simulator.counted.happen(Event::Lose { node })
}

fn is_loss_due(numbers: &Numbers, simulator: &Simulator) -> bool
    requires { IsSmall numbers.now }
    ensures due { result ≡ is_loss_due numbers.now (course_of simulator.now).driver }
    ensures left { result ≡ true → simulator.now.losses + 1 < 2 ^ 32 }
{
    simulator.losses < numbers.losses
        && !simulator.settling
        && calls_before_loss(numbers, simulator.losses) <= simulator.counted.returned()
}

// How many calls have to have returned before the next node is lost.
fn calls_before_loss(numbers: &Numbers, losses: u32) -> u64
    requires { IsSmall numbers.now }
    ensures { result ≡ calls_before_loss numbers.now losses }
{
    (losses as u64 + 1) * all_calls(numbers) / (numbers.losses as u64 + 1)
}

// The master settles, or else recovers.
fn manage(numbers: &Numbers, simulator: &mut Simulator) -> Result<(), AllocError>
    requires small { IsSmall numbers.now }
    requires room { simulator.old.counted.world.events + (1 + numbers.now.clients) * (2 ^ 32 + 1) ≤ 2 ^ 63 }
    ensures { OnOk result (course_of simulator.new
        ≡ goes (course_of simulator.old) (manages numbers.now (course_of simulator.old).driver)) }
{
    if simulator.settling {
        settle(simulator)
    } else {
        recover_each(numbers, simulator)
    }
}

// The settling begins or goes on.
fn settle(simulator: &mut Simulator) -> Result<(), AllocError>
    requires { simulator.old.counted.world.events + (2 ^ 32 + 1) ≤ 2 ^ 63 }
    ensures { OnOk result (course_of simulator.new
        ≡ goes (course_of simulator.old) (settles (course_of simulator.old).driver)) }
{
    simulator.counted.settle()?;
    simulator.settling = simulator.counted.has_task();
    Ok(())
}

// Recovers each client that awaits it.
fn recover_each(numbers: &Numbers, simulator: &mut Simulator) -> Result<(), AllocError>
    requires small { IsSmall numbers.now }
    requires room { simulator.old.counted.world.events + numbers.now.clients * (2 ^ 32 + 1) ≤ 2 ^ 63 }
    ensures { OnOk result (course_of simulator.new
        ≡ goes (course_of simulator.old) (recovers_each (clients_of numbers.now) (course_of simulator.old).driver)) }
{
    if !simulator.counted.awaits() {
        return Ok(());
    }
    for client in 1..numbers.clients + 1 {
        recover(client, simulator)?;
    }
    simulator.counted.look_for_stopped();
    Ok(())
}

fn recover(client: u32, simulator: &mut Simulator) -> Result<(), AllocError>
    requires { simulator.old.counted.world.events + (2 ^ 32 + 1) ≤ 2 ^ 63 }
    ensures { OnOk result (course_of simulator.new
        ≡ goes (course_of simulator.old) (recovers client (course_of simulator.old).driver)) }
{
    if !simulator.counted.awaits_recovery(client) {
        return Ok(());
    }
    simulator.counted.work_on(Task::Recover(client))
}
