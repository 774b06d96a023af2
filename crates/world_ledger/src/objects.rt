ghost use Rattle.std.specs.Prelude.{◌≡◌, ◌<◌, ◌≤◌, IfSome, map, length};
ghost use Rattle.block_alloc.specs.BlockWord.{IsBlock, block_in};
ghost use Rattle.machine.specs.ObjectNames.{IsObject, bitmap_of};
ghost use Rattle.machine.specs.Places.{object_word};
ghost use Rattle.machine_world.specs.Readings.{is_in_stock, names, slot_of_present, word_in_force};
ghost use Rattle.machine_world.specs.Standing.{node_sizes};
ghost use Rattle.object_form.specs.declared.classes.TheConstants.{CLASSES};
ghost use Rattle.region_view.specs.Layout.{BlockWord as block_word_at, position_of};
ghost use Rattle.world_ledger.specs.Seen.{IsUnit, may_bear_on_stock};

use crate::readings::{deciding_word, region_start, word_of_region};
use block_alloc::{BlockWord, block_of};
use key_test::{Object, object_in};
use object_form::{block_at, object_at, region_of, unit_of};
use region_view::Shape;
use verb_words::{Nodes, Place};

/// What a block's word says on its primary; `None` where it says nothing.
pub fn block_in_force(nodes: &Nodes, shape: &Shape, region: u32, block: u32) -> Option<BlockWord>
    requires whole { map length nodes.now ≡ node_sizes shape.now }
    requires least { 1 ≤ region }
    requires most { region ≤ shape.now.regions }
    requires block { block < shape.now.blocks }
    ensures value { result ≡ block_in (word_in_force shape.now nodes.now (block_word_at region block)) }
    ensures block { IfSome result IsBlock }
{
    block_of(word_of_region(nodes, shape, region, block))
}

/// Whether the object's bit is set on the primary of its region.
pub fn is_in_stock(nodes: &Nodes, shape: &Shape, object: Object) -> bool
    requires whole { map length nodes.now ≡ node_sizes shape.now }
    requires object { IsObject shape.now object }
    ensures { result ≡ is_in_stock shape.now nodes.now object }
{
    has_bit_in_force(nodes, shape, object.pointer, object.class)
}

/// The same of a pointer to a unit and a class.
pub(crate) fn has_bit_in_force(nodes: &Nodes, shape: &Shape, pointer: u32, class: u8) -> bool
    requires whole { map length nodes.now ≡ node_sizes shape.now }
    requires unit { IsUnit shape.now pointer }
    requires class { class < CLASSES }
    ensures { result ≡ is_in_stock shape.now nodes.now (record { pointer = pointer; class = class }) }
{
    let region = region_of(pointer);
    let block = block_at(pointer);
    let bits = word_of_region(nodes, shape, region, 64 + block);
    (bits >> object_at(pointer, class)) % 2 == 1
}

/// Whether a change of the word at this place may change whether the object of this pointer is in
/// stock: the word stands where the bitmap of the object's block does, or where the epoch word does.
/// A change of any other word never does.
pub fn may_bear_on_stock(shape: &Shape, pointer: u32, place: Place) -> bool
    requires unit { IsUnit shape.now pointer }
    ensures { result ≡ may_bear_on_stock shape.now pointer place }
{
    place.at == 0 || place.at == bitmap_at(shape, pointer)
}

// Where the bitmap of the pointer's block stands on each of its nodes.
fn bitmap_at(shape: &Shape, pointer: u32) -> u32
    requires unit { IsUnit shape.now pointer }
    ensures { result ≡ position_of shape.now (bitmap_of pointer) }
{
    region_start(shape, region_of(pointer)) + 64 + block_at(pointer)
}

/// The link word of the object that a pointer names, on the primary of its region.
pub fn link_word_in_force(nodes: &Nodes, shape: &Shape, object: Object) -> u64
    requires whole { map length nodes.now ≡ node_sizes shape.now }
    requires object { IsObject shape.now object }
    ensures { result ≡ word_in_force shape.now nodes.now (object_word object.pointer 0) }
{
    word_of_region(
        nodes,
        shape,
        region_of(object.pointer),
        8 * unit_of(object.pointer),
    )
}

/// The least slot whose deciding word names the object of a pointer.
#[tactic(auto, unfolding(machine_world::specs::Readings::slot_of_present))]
pub fn slot_of_present(nodes: &Nodes, shape: &Shape, pointer: u32) -> Option<u32>
    requires { map length nodes.now ≡ node_sizes shape.now }
    ensures { result ≡ slot_of_present shape.now nodes.now pointer }
{
    for slot in 0..24 * shape.groups {
        if names(shape, pointer, deciding_word(nodes, shape, slot)) {
            return Some(slot);
        }
    }
    None
}

// Whether a slot's word names the object of a pointer.
fn names(shape: &Shape, pointer: u32, word: u64) -> bool
    ensures { result ≡ names shape.now pointer word }
{
    match object_in(shape, word) {
        Some(object) => object.pointer == pointer,
        None => false,
    }
}
