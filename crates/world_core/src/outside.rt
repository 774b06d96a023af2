//! What the outside does to the nodes: one is lost, or is exchanged for one with other words.

ghost use Rattle.std.specs.Prelude.{◌≡◌, ◌+◌, ◌<◌, ◌^◌, None, length, replicate, slice_set};
ghost use Rattle.machine_world.specs.Events.{fills, loses};
ghost use Rattle.machine_world.specs.Refusals.{refusal};
ghost use Rattle.machine_world.specs.declared.events.Event.TheVariants as event;
ghost use Rattle.region_view.specs.Sizes.{node_words};
ghost use Rattle.verb_words.specs.Words.{words_on};

use crate::worlds::World;
use machine_world::outcomes::Happened;
use region_view::Shape;
use verb_words::{Nodes, Place, Verb};

impl World {
    /// A node is lost.
    pub(crate) fn lose(&mut self, node: u32)
        requires events { self.old.events < 2 ^ 63 }
        requires allowed { refusal self.old (event.Lose node) ≡ None }
        ensures { self.new ≡ loses self.old node }
    {
        let place = Place { node: 0, at: node };
        self.nodes.apply(Verb::Write(place, 1), false);
        self.events += 1;
    }

    /// A lost node is exchanged for one whose words are all this one.
    pub(crate) fn fill(&mut self, node: u32, word: u64)
        requires events { self.old.events < 2 ^ 63 }
        requires allowed { refusal self.old (event.Fill node word) ≡ None }
        ensures { self.new ≡ fills self.old node word }
    {
        let count = node_words(&self.shape);
        fill_words(&mut self.nodes, node, count, word);
        self.events += 1;
    }
}

// How many words a memory node has.
fn node_words(shape: &Shape) -> u32
    ensures { result ≡ node_words shape.now }
{
    48 * shape.groups + shape.regions * (128 + 512 * shape.blocks)
}

// Every word of a node, of which there are so many, becomes this one.
fn fill_words(nodes: &mut Nodes, node: u32, count: u32, word: u64)
    requires node { node < length nodes.old }
    requires count { count ≡ length (words_on nodes.old node) }
    ensures { nodes.new ≡ slice_set nodes.old node (replicate (length (words_on nodes.old node)) word) }
{
    for at in 0..count {
        nodes.apply(Verb::Write(Place { node, at }, word), false);
    }
}
