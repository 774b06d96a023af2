//! A client of the store: get, put and delete, verb by verb, as one actor.
#![tactic(auto)]

mod actor;
mod callers;
mod calls;
mod epochs;
mod invocations;
pub mod laws;
mod outcomes;
mod readings;
mod remembered;
mod stages;
mod turns;

pub use actor::Actor;
pub use calls::Operation;
pub use machine::client_call::{Before, Outcome, Step};

#[cfg(test)]
mod tests;
