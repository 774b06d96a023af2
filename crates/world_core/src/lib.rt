//! The world of the machine as a program: its memory, its clients and its master, the events that
//! happen to them, and what is kept of the past.
#![tactic(auto)]

mod advancing;
mod calling;
mod calls;
mod dues;
mod first_nodes;
pub mod laws;
mod openings;
mod outside;
mod readings;
mod refusals;
mod steps;
mod tasks;
mod works;
mod worlds;

pub use machine_world::events::{Event, Task};
pub use machine_world::outcomes::{Actor, Happened, Refused, Seen};
pub use machine_world::parts::{BlockState, Division, ObjectState};
pub use steps::Taken;
pub use worlds::World;

#[cfg(test)]
mod tests;
