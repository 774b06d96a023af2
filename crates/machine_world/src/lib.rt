//! The world of the machine: its memory, its clients and its master, the events that happen to them,
//! and what is said of the runs of events. All of it is definitions, with small enums for what events
//! there are and what they come to.
#![tactic(auto)]

pub mod events;
pub mod laws;
pub mod outcomes;
pub mod parts;
