ghost use Rattle.std.specs.Prelude.{◌≡◌, ◌≤◌, map, length};
ghost use Rattle.machine_world.specs.Refusals.{keeps_none, region_lost, stays_live};
ghost use Rattle.machine_world.specs.Standing.{node_sizes};
ghost use Rattle.world_ledger.specs.Seen.{words_seen};

use crate::readings::{in_mask, is_lost, mask_in_force};
use region_view::{Shape, placed_node};
use verb_words::Nodes;

/// The least region that would be left without a live replica in the mask, were this node lost.
pub fn region_lost(nodes: &Nodes, shape: &Shape, lost: u32) -> Option<u32>
    requires { map length nodes.now ≡ node_sizes shape.now }
    ensures { result ≡ region_lost (words_seen shape.now nodes.now) lost }
{
    for region in 0..shape.regions + 1 {
        if keeps_none(nodes, shape, lost, region) {
            return Some(region);
        }
    }
    None
}

// Whether no replica of the region stays live, were this node lost.
fn keeps_none(nodes: &Nodes, shape: &Shape, lost: u32, region: u32) -> bool
    requires whole { map length nodes.now ≡ node_sizes shape.now }
    requires region { region ≤ shape.now.regions }
    ensures { result ≡ keeps_none (words_seen shape.now nodes.now) lost region }
{
    for i in 0..shape.replicas {
        if stays_live(nodes, shape, lost, placed_node(shape, region, i)) {
            return false;
        }
    }
    true
}

fn stays_live(nodes: &Nodes, shape: &Shape, lost: u32, node: u32) -> bool
    requires whole { map length nodes.now ≡ node_sizes shape.now }
    requires least { 1 ≤ node }
    requires most { node ≤ shape.now.nodes }
    ensures { result ≡ stays_live (words_seen shape.now nodes.now) lost node }
{
    prove!(shape.nodes <= 8);
    if !in_mask(mask_in_force(nodes), node) {
        return false;
    }
    if is_lost(nodes, node) {
        return false;
    }
    node != lost
}
