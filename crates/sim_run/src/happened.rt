// What the answer to an event says.

ghost use Rattle.std.specs.Prelude.{◌≡◌, ◌≤◌, if◌then◌else◌};
ghost use Rattle.kv_ops.specs.Stepping.{is_ended};
ghost use Rattle.sim_run.specs.Told.{is_return_of, is_told_of, number_in, tells_of_joining, tells_of_recovery, tells_of_settling, tells_of_step};

use machine::client_call::Step;
use machine::joining::Joined;
use machine::recovery::Recovering;
use machine::settling::Settled;
use world_core::Happened;

/// The number of a new call.
pub(crate) fn number_in(happened: Happened) -> u32
    ensures { result ≡ number_in happened }
{
    match happened {
        Happened::Invoked(number) => number,
        Happened::Registered(_) => 0,
        Happened::Stepped { .. } => 0,
        Happened::Stopped => 0,
        Happened::Lost => 0,
        Happened::Filled => 0,
        Happened::Chosen => 0,
        Happened::Recovering { .. } => 0,
        Happened::Settling { .. } => 0,
        Happened::Joining { .. } => 0,
    }
}

/// How many calls have returned by a verb.
pub(crate) fn returns_in(happened: Happened) -> u64
    ensures count { result ≡ (if is_return_of happened then 1 else 0) }
    ensures few { result ≤ 1 }
{
    match happened {
        Happened::Stepped { step, .. } => returns_by(step),
        Happened::Invoked(_) => 0,
        Happened::Registered(_) => 0,
        Happened::Stopped => 0,
        Happened::Lost => 0,
        Happened::Filled => 0,
        Happened::Chosen => 0,
        Happened::Recovering { .. } => 0,
        Happened::Settling { .. } => 0,
        Happened::Joining { .. } => 0,
    }
}

/// Whether something is told of a verb.
pub(crate) fn is_told_of(happened: Happened) -> bool
    ensures { result ≡ is_told_of happened }
{
    match happened {
        Happened::Stepped { step, .. } => tells_of_step(step),
        Happened::Recovering { step, .. } => tells_of_recovery(step),
        Happened::Settling { step, .. } => tells_of_settling(step),
        Happened::Joining { step, .. } => tells_of_joining(step),
        Happened::Invoked(_) => false,
        Happened::Registered(_) => false,
        Happened::Stopped => false,
        Happened::Lost => false,
        Happened::Filled => false,
        Happened::Chosen => false,
    }
}

/// The same of a client's verb.
pub(crate) fn returns_by(step: Step) -> u64
    ensures count { result ≡ (if is_ended step then 1 else 0) }
    ensures few { result ≤ 1 }
{
    match step {
        Step::Ended(_) => 1,
        Step::Going => 0,
        Step::NotYet(_) => 0,
    }
}

/// Whether something is told of a client's verb.
pub(crate) fn tells_of_step(step: Step) -> bool
    ensures { result ≡ tells_of_step step }
{
    match step {
        Step::Going => false,
        Step::Ended(_) => true,
        Step::NotYet(_) => true,
    }
}

fn tells_of_recovery(step: Recovering) -> bool
    ensures { result ≡ tells_of_recovery step }
{
    match step {
        Recovering::Going => false,
        Recovering::Recovered => true,
        Recovering::NotYet(_) => true,
    }
}

fn tells_of_settling(step: Settled) -> bool
    ensures { result ≡ tells_of_settling step }
{
    match step {
        Settled::Going => false,
        Settled::Opened(_) => true,
        Settled::NotYet { .. } => true,
    }
}

fn tells_of_joining(step: Joined) -> bool
    ensures { result ≡ tells_of_joining step }
{
    match step {
        Joined::Going => false,
        Joined::Joined => true,
        Joined::NotYet(_) => true,
    }
}
