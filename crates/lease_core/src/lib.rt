//! When a client may be called stopped: leases, by which a master knows that a client whose messages
//! no longer come takes no further step that counts.
//!
//! A client asks for a lease at a moment of its own clock. The master grants it at a moment of its
//! clock, and calls the client fenced only once the lease is over by that clock. The client acts only
//! while its lease lasts by its own clock, and takes it for shorter than the master does, by twice
//! the bound on how far the two clocks are apart.
#![tactic(auto)]

mod answering;
mod granting;
mod holding;
pub mod laws;
mod lease_lines;
mod lease_terms;
mod members;
mod reading;
mod running;
#[cfg(test)]
mod tests;

pub use answering::{LeaseAnswer, LeaseRefusal, push_answer};
pub use granting::{Book, CLIENTS, Fence, Grant};
pub use holding::Holder;
pub use lease_lines::LeaseLine;
pub use lease_terms::{LONGEST, Terms, terms_of};
pub use reading::{LeaseFault, LeaseKind, parse_leases};
pub use running::LeaseRun;
