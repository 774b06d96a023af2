//! The top call: reads a script and runs it, reads an output and audits it, reads lease lines and
//! answers them, or simulates clients from a number.
#![tactic(auto)]

mod audits;
mod commands;
mod leases;
mod notices;
mod options;
mod reading;
#[cfg(test)]
mod script_rows;
#[cfg(test)]
mod script_tests;
mod scripts;
#[cfg(test)]
mod sim_tests;
mod simulations;
#[cfg(test)]
mod tests;
mod top_call;

pub use sim_run::run_shape;
pub use top_call::offline;
