//! The objects of a pool and the clients that take them and give them back, over the rows of
//! choosings and of changes of bits.
//!
//! This crate has no code: it has the clients, their steps and what holds of them as definitions,
//! and laws on what the steps lead to.
#![tactic(auto)]

pub mod laws;
