//! Grace over the rows of the machine: no object is used again while a call may still read it.
//!
//! This crate has no code: it has the law on every run of the clients of a pool. The law comes from the
//! small machine of `reuse_grace`, which each run is shown to be one of, for each object and each
//! client that may take it.
#![tactic(auto)]

pub mod laws;
