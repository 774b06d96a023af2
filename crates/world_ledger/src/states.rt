ghost use Rattle.std.specs.Prelude.{◌≡◌, ◌<◌, ◌≤◌, [], IfSome, map, length};
ghost use Rattle.machine_world.specs.Readings.{block_in_force, block_state, class_of, object_state, state_of_object};
ghost use Rattle.machine_world.specs.Standing.{node_sizes};
ghost use Rattle.machine_world.specs.World.{first_ledger};
ghost use Rattle.object_form.specs.declared.classes.TheConstants.{CLASSES};
ghost use Rattle.world_ledger.specs.Seen.{IsUnit, words_seen, world_seen};

use crate::clients::Clients;
use crate::ledgers::Ledger;
use crate::objects::{block_in_force, has_bit_in_force, slot_of_present};
use block_alloc::BlockWord;
use key_test::Object;
use machine_world::parts::{BlockState, ObjectState};
use object_form::{block_at, region_of};
use region_view::Shape;
use verb_words::Nodes;

/// Whose a block is, by its word on its primary: one that a stopped client owns waits for that
/// client's recovery.
pub fn block_state(
    nodes: &Nodes,
    shape: &Shape,
    stopped: &Clients,
    recovered: &Clients,
    region: u32,
    block: u32,
) -> BlockState
    requires whole { map length nodes.now ≡ node_sizes shape.now }
    requires least { 1 ≤ region }
    requires most { region ≤ shape.now.regions }
    requires block { block < shape.now.blocks }
    ensures { result ≡ block_state
        (world_seen shape.now nodes.now stopped.now recovered.now (first_ledger shape.now))
        region block }
{
    match block_in_force(nodes, shape, region, block) {
        None => BlockState::Unused,
        Some(BlockWord::Unused) => BlockState::Unused,
        Some(BlockWord::Released { .. }) => BlockState::Released,
        Some(BlockWord::Owned { client, .. }) => {
            if stopped.has(client) && !recovered.has(client) {
                BlockState::Awaiting(client)
            } else {
                BlockState::Owned(client)
            }
        }
    }
}

// Where an object is: in stock where its bit is set on its primary, else in the slot that names it,
// else with the client that last took or replaced it.
fn state_of_object(nodes: &Nodes, shape: &Shape, ledger: &Ledger, object: Object) -> ObjectState
    requires whole { map length nodes.now ≡ node_sizes shape.now }
    requires unit { IsUnit shape.now object.pointer }
    requires class { object.class < CLASSES }
    ensures { result ≡ state_of_object
        (world_seen shape.now nodes.now [] [] ledger.now.ledger) object }
{
    if has_bit_in_force(nodes, shape, object.pointer, object.class) {
        return ObjectState::Stock;
    }
    match slot_of_present(nodes, shape, object.pointer) {
        Some(slot) => ObjectState::Present(slot),
        None => ObjectState::Held(ledger.holder_of(shape, object.pointer)),
    }
}

/// Where the object of a pointer is, of the class of its block; of class 0 where the block is not
/// granted.
pub fn object_state(nodes: &Nodes, shape: &Shape, ledger: &Ledger, pointer: u32) -> ObjectState
    requires whole { map length nodes.now ≡ node_sizes shape.now }
    requires unit { IsUnit shape.now pointer }
    ensures { result ≡ object_state
        (world_seen shape.now nodes.now [] [] ledger.now.ledger) pointer }
{
    let class = class_in_force(nodes, shape, region_of(pointer), block_at(pointer)).unwrap_or(0);
    state_of_object(nodes, shape, ledger, Object { pointer, class })
}

/// The class for which a block is granted, if it is.
pub(crate) fn class_in_force(nodes: &Nodes, shape: &Shape, region: u32, block: u32) -> Option<u8>
    requires whole { map length nodes.now ≡ node_sizes shape.now }
    requires least { 1 ≤ region }
    requires most { region ≤ shape.now.regions }
    requires block { block < shape.now.blocks }
    ensures value { result ≡ class_of (block_in_force (words_seen shape.now nodes.now) region block) }
    ensures class { IfSome result (λ class. class < CLASSES) }
{
    match block_in_force(nodes, shape, region, block) {
        None => None,
        Some(BlockWord::Unused) => None,
        Some(BlockWord::Owned { class, .. }) => Some(class),
        Some(BlockWord::Released { class }) => Some(class),
    }
}
