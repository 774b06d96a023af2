// The two ends of a program, as traits whose contracts say which bytes pass and how faults are
// counted: a source of bytes and a sink for them, each over memory and over std.
#![tactic(auto)]

mod memory_ends;
mod sinks;
mod sources;
mod std_ends;
#[cfg(test)]
mod tests;

pub use memory_ends::{MemorySink, MemorySource};
pub use sinks::{Sink, Took};
pub use sources::{Got, Source};
pub use std_ends::{StdSink, StdSource, TRIES_AGAIN};
