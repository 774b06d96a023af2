//! The actors of the store as a machine: what each client does next, verb by verb, as definitions
//! that the programs are bound to, and the small enums that their steps tell.
#![tactic(auto)]

pub mod bit_change;
pub mod choosing;
pub mod client_call;
pub mod joining;
pub mod key_search;
pub mod key_test;
pub mod laws;
pub mod link_walk;
pub mod master_laws;
pub mod object_write;
pub mod recovery;
pub mod resolution;
pub mod settling;
pub mod slot_write;
pub mod value_read;
