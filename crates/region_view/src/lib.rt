//! Where the words lie: the sizes of a pool, and the positions of its words on the nodes.
#![tactic(auto)]

mod control;
mod epochs;
pub mod laws;
mod opening;
mod shapes;
#[cfg(test)]
mod tests;
mod views;

pub use control::{begin_at, head_at, pause_at};
pub use epochs::{Epoch, epoch_of, epoch_word};
pub use opening::first_words;
pub use shapes::{BadShape, Field, Shape, shape_of, words};
pub use views::{
    View, bare_region, placed_node, primary, replicas, slot_places, view_of, word_place,
    word_places,
};
