ghost use Rattle.std.specs.Prelude.{◌≡◌, ◌^◌, ◌+◌, ◌*◌, ◌<◌, ◌≤◌, map, length, slice_index_or};
ghost use Rattle.machine.specs.Places.{control};
ghost use Rattle.machine_world.specs.Readings.{deciding_word, epoch_in_force, is_sealed, mask_in_force, primary_of, word_in_force};
ghost use Rattle.machine_world.specs.Standing.{node_sizes};
ghost use Rattle.region_view.specs.Control.{EpochWord, Status};
ghost use Rattle.region_view.specs.Layout.{NodeWord, offset_of, region_of_word};
ghost use Rattle.region_view.specs.Placed.{in_mask, placed_node, region_start, replicas_of};
ghost use Rattle.verb_words.specs.Words.{HasPlace, is_lost};

use region_view::{Shape, placed_node};
use verb_words::{Nodes, Place};

/// The epoch word, whatever it says.
pub fn epoch_in_force(nodes: &Nodes) -> u64
    requires { HasPlace nodes.now (control EpochWord) }
    ensures { result ≡ epoch_in_force nodes.now }
{
    nodes.word(Place { node: 0, at: 0 })
}

/// The nodes in the epoch word's mask, bit i - 1 for node i, also while the epoch is sealed.
pub fn mask_in_force(nodes: &Nodes) -> u8
    requires { HasPlace nodes.now (control EpochWord) }
    ensures { result ≡ mask_in_force nodes.now }
{
    (epoch_in_force(nodes) % 256) as u8
}

/// Whether the epoch is sealed.
pub fn is_sealed(nodes: &Nodes) -> bool
    requires { HasPlace nodes.now (control EpochWord) }
    ensures { result ≡ is_sealed nodes.now }
{
    epoch_in_force(nodes) / 256 % 2 == 1
}

/// Whether a node is lost. The control node never is.
pub fn is_lost(nodes: &Nodes, node: u32) -> bool
    requires { HasPlace nodes.now (control (Status node)) }
    ensures { result ≡ is_lost nodes.now node }
{
    node != 0 && nodes.word(Place { node: 0, at: node }) != 0
}

/// The node that a region's words are read on: the first that it is placed on and that is in the
/// mask, or, where the mask leaves the region bare, the first that it is placed on.
pub fn primary_of(nodes: &Nodes, shape: &Shape, region: u32) -> u32
    requires whole { map length nodes.now ≡ node_sizes shape.now }
    requires region { region ≤ shape.now.regions }
    ensures primary { result ≡ primary_of shape.now nodes.now region }
    ensures least { 1 ≤ result }
    ensures most { result ≤ shape.now.nodes }
{
    first_in_mask(shape, mask_in_force(nodes), region)
}

fn first_in_mask(shape: &Shape, mask: u8, region: u32) -> u32
    requires { region ≤ shape.now.regions }
    ensures first { result ≡ slice_index_or (replicas_of (record { shape = shape.now; mask = mask }) region) 0 (placed_node shape.now region 0) }
    ensures least { 1 ≤ result }
    ensures most { result ≤ shape.now.nodes }
{
    let shape = *shape;
    for i in 0..shape.replicas {
        let node = placed_node(&shape, region, i);
        if in_mask(mask, node) {
            return node;
        }
    }
    placed_node(&shape, region, 0)
}

pub(crate) fn in_mask(mask: u8, node: u32) -> bool
    requires least { 1 ≤ node }
    requires most { node ≤ 8 }
    ensures { result ≡ in_mask mask node }
{
    (mask >> (node - 1)) % 2 == 1
}

/// The slot's word on the primary of the index.
pub fn deciding_word(nodes: &Nodes, shape: &Shape, slot: u32) -> u64
    requires whole { map length nodes.now ≡ node_sizes shape.now }
    requires slot { slot < 24 * shape.now.groups }
    ensures { result ≡ deciding_word shape.now nodes.now slot }
{
    let primary = primary_of(nodes, shape, 0);
    word_of_slot(nodes, shape, primary, slot)
}

/// The same, where the primary of the index is known.
pub(crate) fn word_of_slot(nodes: &Nodes, shape: &Shape, primary: u32, slot: u32) -> u64
    requires whole { map length nodes.now ≡ node_sizes shape.now }
    requires primary { primary ≡ primary_of shape.now nodes.now 0 }
    requires least { 1 ≤ primary }
    requires most { primary ≤ shape.now.nodes }
    requires slot { slot < 24 * shape.now.groups }
    ensures { result ≡ deciding_word shape.now nodes.now slot }
{
    nodes.word(Place {
        node: primary,
        at: slot,
    })
}

/// The word at an offset of a data region, on the region's primary.
pub(crate) fn word_of_region(nodes: &Nodes, shape: &Shape, region: u32, offset: u32) -> u64
    requires whole { map length nodes.now ≡ node_sizes shape.now }
    requires least { 1 ≤ region }
    requires most { region ≤ shape.now.regions }
    requires offset { offset < 128 + 512 * shape.now.blocks }
    ensures { (word : NodeWord) → region_of_word word ≡ region → offset_of shape.now word ≡ offset
        → result ≡ word_in_force shape.now nodes.now word }
{
    prove!(shape.blocks <= 64);
    let at = region_start(shape, region) + offset;
    let node = primary_of(nodes, shape, region);
    nodes.word(Place { node, at })
}

pub(crate) fn region_start(shape: &Shape, region: u32) -> u32
    requires least { 1 ≤ region }
    requires most { region ≤ shape.now.regions }
    ensures start { result ≡ region_start shape.now region }
    ensures small { result < 2 ^ 22 }
{
    48 * shape.groups + (region - 1) * (128 + 512 * shape.blocks)
}
