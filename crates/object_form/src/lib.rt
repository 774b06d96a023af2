//! The words of objects: their meta words, their links and their contents.
//!
//! A word has 8 bytes, and a unit has 8 words. An object of class k has 2^k units.
#![tactic(auto)]

mod classes;
mod contents;
pub mod laws;
mod links;
mod metas;
mod pointers;

pub use classes::{CLASSES, LONGEST, Length, OBJECT_WORDS, class_for, units};
pub use contents::{padded, spelled};
pub use links::{Link, link_of, link_word};
pub use metas::{Kind, Meta, meta_of, meta_word};
pub use pointers::{block_at, object_at, pointer_of, region_of, unit_of};

#[cfg(test)]
mod tests;
