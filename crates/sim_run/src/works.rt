ghost use Rattle.std.specs.Prelude.{◌≡◌, ◌≤◌, IfOk, option_map, slice_get};
ghost use Rattle.sim_plan.specs.Made.{plan};
ghost use Rattle.sim_run.specs.Course.{IsPlanned, IsSmall};

use map_model::Call;
use sim_meaning::Numbers;
use sim_plan::plan;
use std::alloc::{AllocError, Global};

/// What is to be simulated: the numbers, and the calls of each client, client c at place c - 1.
#[derive(Drop)]
pub(crate) struct Work {
    pub(crate) numbers: Numbers,
    pub(crate) plans: Vec<Vec<Call>>,
}

impl Work {
    pub(crate) fn new(alloc: Global, numbers: &Numbers) -> Result<Work, AllocError>
        requires { IsSmall numbers.now }
        ensures numbers { IfOk result (λ work. work.numbers ≡ numbers.now) }
        ensures planned { IfOk result (λ work. IsPlanned work) }
    {
        let mut plans = Vec::with_capacity(alloc, numbers.clients as usize)?;
        for client in 1..numbers.clients + 1 {
            plans.push(plan(alloc, numbers.seed, client, numbers.calls)?)?;
        }
        Ok(Work {
            numbers: *numbers,
            plans,
        })
    }

    /// The client's call after so many.
    pub(crate) fn call(&self, client: u32, made: u32) -> Option<&Call>
        requires planned { IsPlanned self.now }
        requires least { 1 ≤ client }
        requires most { client ≤ self.now.numbers.clients }
        ensures { option_map (λ call. call.now) result ≡ slice_get (plan self.now.numbers.seed client self.now.numbers.calls) made }
    {
        self.plan_of(client).get(made as usize)
    }

    fn plan_of(&self, client: u32) -> &[Call]
        requires planned { IsPlanned self.now }
        requires least { 1 ≤ client }
        requires most { client ≤ self.now.numbers.clients }
        ensures { result.now ≡ plan self.now.numbers.seed client self.now.numbers.calls }
    {
        self.plans[client as usize - 1].as_slice()
    }
}
