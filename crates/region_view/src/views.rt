ghost use Rattle.std.specs.Prelude.{◌≡◌, ◌+◌, ◌*◌, ◌%◌, ◌<◌, ◌≤◌, ◌^◌, ℕ, true, false, IfNone, IfSome, IsTrue, MatchBool, length, slice_index_or};
ghost use Rattle.region_view.specs.Placed.{HasReplica, IsBare, LeavesNoneBare, Viewed, in_mask, placed_node, region_size, region_start, replicas_of};
ghost use Rattle.region_view.specs.Places.{slot_places_of, word_places_of};

use crate::shapes::Shape;
use arrayvec::ArrayVec;
use std::marker::Model;

/// A shape and the nodes that are in the view, of which each region has a replica.
#[derive(Clone, Copy, Debug)]
pub struct View {
    /// The sizes of the pool.
    pub shape: Shape,
    /// The nodes in the view: bit i - 1 for node i.
    pub mask: u8,
}

impl Model for View {
    ghost Value = { Viewed };

    ghost view = { λ v. record { shape = v.shape; mask = v.mask } };

    ghost invariant = { λ v. LeavesNoneBare v.shape v.mask };

    ghost inverse = { λ v. record { shape = v.shape; mask = v.mask } };
}

/// The view of a shape under a mask; `None` exactly where some region has no replica in the mask.
pub fn view_of(shape: Shape, mask: u8) -> Option<View>
    ensures view { IfSome result (λ view. (view ≡ record { shape = shape; mask = mask })
        × LeavesNoneBare shape mask) }
    ensures none { IfNone result ((region : ℕ) × (region ≤ shape.regions)
        × IsBare shape mask region) }
{
    match bare_region(&shape, mask) {
        Some(_) => None,
        None => Some(View { shape, mask }),
    }
}

/// The least region without a replica in the mask; `None` exactly where each region has one.
pub fn bare_region(shape: &Shape, mask: u8) -> Option<u32>
    ensures none { IfNone result (LeavesNoneBare shape.now mask) }
    ensures within { IfSome result (λ bare. bare ≤ shape.now.regions) }
    ensures bare { IfSome result (λ bare. IsBare shape.now mask bare) }
    ensures least { IfSome result (λ bare. (region : ℕ) → region < bare
        → HasReplica shape.now mask region) }
{
    for region in 0..shape.regions + 1 {
        if !has_replica(shape, mask, region) {
            return Some(region);
        }
    }
    None
}

fn has_replica(shape: &Shape, mask: u8, region: u32) -> bool
    requires { region ≤ shape.now.regions }
    ensures { MatchBool result (HasReplica shape.now mask region) (IsBare shape.now mask region) }
{
    for i in 0..shape.replicas {
        if in_mask(mask, placed_node(shape, region, i)) {
            return true;
        }
    }
    false
}

fn in_mask(mask: u8, node: u32) -> bool
    requires least { 1 ≤ node }
    requires most { node ≤ 8 }
    ensures { result ≡ in_mask mask node }
{
    (mask >> (node - 1)) % 2 == 1
}

/// The i-th node, counted from 0, that a region is placed on, whatever the mask.
pub fn placed_node(shape: &Shape, region: u32, i: u32) -> u32
    requires region { region ≤ 63 }
    requires i { i ≤ 5 }
    ensures node { result ≡ placed_node shape.now region i }
    ensures least { 1 ≤ result }
    ensures most { result ≤ shape.now.nodes }
    ensures few { result ≤ 8 }
{
    remainder(region + i, shape.nodes) + 1
}

// The node of a region that comes i after its first one, in the circle of all nodes.
fn node_after(shape: &Shape, first: u32, i: u32) -> u32
    requires first { first < shape.now.nodes }
    requires i { i < shape.now.replicas }
    ensures node { (region : ℕ) → first ≡ region % shape.now.nodes
        → result ≡ placed_node shape.now region i }
    ensures least { 1 ≤ result }
    ensures few { result ≤ 8 }
{
    let Shape {
        nodes,
        replicas,
        ..
    } = *shape;
    prove!(i < replicas);
    let next = first + i;
    if next < nodes {
        next + 1
    } else {
        next - nodes + 1
    }
}

// Each number of nodes has an arm of its own, since a division by a constant is a multiplication.
fn remainder(number: u32, nodes: u32) -> u32
    requires { 1 ≤ nodes }
    ensures { result ≡ number % nodes }
{
    match nodes {
        1 => 0,
        2 => number % 2,
        3 => number % 3,
        4 => number % 4,
        5 => number % 5,
        6 => number % 6,
        7 => number % 7,
        8 => number % 8,
        _ => number % nodes,
    }
}

/// The primary of a region: the first of its nodes that is in the view's mask.
pub fn primary(view: &View, region: u32) -> u32
    requires { region ≤ view.now.shape.regions }
    ensures { result ≡ slice_index_or (replicas_of view.now region) 0 0 }
{
    let View { shape, mask } = *view;
    let first = remainder(region, shape.nodes);
    for i in 0..shape.replicas {
        let node = node_after(&shape, first, i);
        if in_mask(mask, node) {
            return node;
        }
    }
    0
}

/// Node and position of a region's word on the region's primary.
pub fn word_place(view: &View, region: u32, offset: u32) -> (u32, u32)
    requires region { region ≤ view.now.shape.regions }
    requires offset { offset < region_size view.now.shape region }
    ensures node { result.0 ≡ slice_index_or (replicas_of view.now region) 0 0 }
    ensures at { result.1 ≡ region_start view.now.shape region + offset }
{
    let at = region_start(&view.shape, region) + offset;
    (primary(view, region), at)
}

/// The nodes of a region that are in the view's mask, the primary first.
pub fn replicas(view: &View, region: u32) -> ArrayVec<u32, 5>
    requires { region ≤ view.now.shape.regions }
    ensures nodes { result.items ≡ replicas_of view.now region }
    ensures few { length result.items ≤ 5 }
{
    let View { shape, mask } = *view;
    let first = remainder(region, shape.nodes);
    let mut nodes = ArrayVec::new();
    for i in 0..shape.replicas {
        let node = node_after(&shape, first, i);
        if in_mask(mask, node) {
            nodes.push(node);
        }
    }
    nodes
}

/// Node and position of a region's word on each replica, the primary's first.
pub fn word_places(view: &View, region: u32, offset: u32) -> ArrayVec<(u32, u32), 5>
    requires region { region ≤ view.now.shape.regions }
    requires offset { offset < region_size view.now.shape region }
    ensures { result.items ≡ word_places_of view.now region offset }
{
    let View { shape, mask } = *view;
    let at = region_start(&shape, region) + offset;
    let first = remainder(region, shape.nodes);
    let mut places = ArrayVec::new();
    for i in 0..shape.replicas {
        let node = node_after(&shape, first, i);
        if in_mask(mask, node) {
            places.push((node, at));
        }
    }
    places
}

/// A slot's place on the primary, and then its places on the backups. Where one replica alone is in
/// the mask, the shadow on that node is the one backup.
pub fn slot_places(view: &View, slot: u32) -> ArrayVec<(u32, u32), 5>
    requires { slot < 24 * view.now.shape.groups }
    ensures { result.items ≡ slot_places_of view.now slot }
{
    let nodes = replicas(view, 0);
    let mut places = ArrayVec::new();
    for node in nodes.as_slice() {
        places.push((*node, slot));
    }
    if let [node] = nodes.as_slice() {
        places.push((*node, 24 * view.shape.groups + slot));
    }
    places
}

fn region_start(shape: &Shape, region: u32) -> u32
    requires { region ≤ shape.now.regions }
    ensures start { result ≡ region_start shape.now region }
    ensures small { result + region_size shape.now region < 2 ^ 22 }
{
    let slots = 48 * shape.groups;
    if region == 0 {
        return 0;
    }
    slots + (region - 1) * (128 + 512 * shape.blocks)
}
