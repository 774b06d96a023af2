ghost use Rattle.std.specs.Prelude.{◌≡◌, ◌+◌, ◌*◌, ◌/◌, ◌^◌, ◌<◌, ◌≤◌, [], map, length};
ghost use Rattle.machine_world.specs.Readings.{blocks_of, division_of, granted_objects, objects_in, objects_of_class};
ghost use Rattle.machine_world.specs.Standing.{node_sizes};
ghost use Rattle.machine_world.specs.World.{Ledger, first_ledger};
ghost use Rattle.object_form.specs.Class.{units_of};
ghost use Rattle.object_form.specs.declared.classes.TheConstants.{CLASSES};
ghost use Rattle.pointer_fields.specs.Pointer.{region_of, unit_of};
ghost use Rattle.world_ledger.specs.Divisions.{IsAtMost, no_division, object_at, with_block, with_blocks, with_object, with_objects};
ghost use Rattle.world_ledger.specs.NamedUnits.{AreNamed};
ghost use Rattle.world_ledger.specs.Seen.{IsUnit, words_seen, world_seen};

use crate::clients::Clients;
use crate::named_units::{MOST_BLOCKS, add_named_units, has_unit};
use crate::readings::word_of_region;
use crate::states::{block_state, class_in_force};
use key_test::Object;
use machine_world::parts::{BlockState, Division};
use object_form::{pointer_of, units};
use region_view::Shape;
use verb_words::Nodes;

/// How many blocks, and how many objects of granted blocks, are in each state.
#[tactic(auto, unfolding(machine_world::specs::Readings::division_of))]
pub fn division(nodes: &Nodes, shape: &Shape, stopped: &Clients, recovered: &Clients) -> Division
    requires { map length nodes.now ≡ node_sizes shape.now }
    ensures { (ledger : Ledger) → result ≡ division_of
        (world_seen shape.now nodes.now stopped.now recovered.now ledger) }
{
    let mut division = blocks_counted(nodes, shape, stopped, recovered);
    count_all_objects(&mut division, nodes, shape);
    division
}

fn blocks_counted(nodes: &Nodes, shape: &Shape, stopped: &Clients, recovered: &Clients) -> Division
    requires { map length nodes.now ≡ node_sizes shape.now }
    ensures counted { result ≡ with_blocks
        (world_seen shape.now nodes.now stopped.now recovered.now (first_ledger shape.now))
        (blocks_of shape.now) no_division }
    ensures few { IsAtMost 4032 result }
{
    let mut division = none_counted();
    for position in 0..shape.regions * shape.blocks {
        let region = 1 + position / shape.blocks;
        let block = position % shape.blocks;
        let state = block_state(nodes, shape, stopped, recovered, region, block);
        count_block(&mut division, state);
    }
    division
}

fn none_counted() -> Division
    ensures { result ≡ no_division }
{
    Division {
        unused: 0,
        owned: 0,
        awaiting: 0,
        released: 0,
        stock: 0,
        present: 0,
        held: 0,
    }
}

fn count_block(division: &mut Division, state: BlockState)
    requires { IsAtMost (2 ^ 20) division.old }
    ensures { division.new ≡ with_block state division.old }
{
    match state {
        BlockState::Unused => division.unused += 1,
        BlockState::Owned(_) => division.owned += 1,
        BlockState::Awaiting(_) => division.awaiting += 1,
        BlockState::Released => division.released += 1,
    }
}

fn count_object(division: &mut Division, is_in_stock: bool, is_named: bool)
    requires { IsAtMost (2 ^ 20) division.old }
    ensures { division.new ≡ with_object is_in_stock is_named division.old }
{
    if is_in_stock {
        division.stock += 1;
    } else if is_named {
        division.present += 1;
    } else {
        division.held += 1;
    }
}

fn count_all_objects(division: &mut Division, nodes: &Nodes, shape: &Shape)
    requires whole { map length nodes.now ≡ node_sizes shape.now }
    requires few { IsAtMost 4032 division.old }
    ensures { division.new ≡ with_objects shape.now nodes.now
        (granted_objects (words_seen shape.now nodes.now)) division.old }
{
    let mut named = [0; MOST_BLOCKS];
    add_named_units(&mut named, nodes, shape);
    for position in 0..shape.regions * shape.blocks {
        let region = 1 + position / shape.blocks;
        let block = position % shape.blocks;
        count_objects(division, nodes, shape, &named, region, block);
    }
}

// Counts the objects of a block, if it is granted.
fn count_objects(
    division: &mut Division,
    nodes: &Nodes,
    shape: &Shape,
    named: &[u64; MOST_BLOCKS],
    region: u32,
    block: u32,
)
    requires whole { map length nodes.now ≡ node_sizes shape.now }
    requires named { AreNamed shape.now nodes.now named.now }
    requires least { 1 ≤ region }
    requires most { region ≤ shape.now.regions }
    requires block { block < shape.now.blocks }
    requires few { IsAtMost (2 ^ 19) division.old }
    ensures { division.new ≡ with_objects shape.now nodes.now
        (objects_in (words_seen shape.now nodes.now) (region, block)) division.old }
{
    if let Some(class) = class_in_force(nodes, shape, region, block) {
        count_objects_of(division, nodes, shape, named, region, block, class);
    }
}

fn count_objects_of(
    division: &mut Division,
    nodes: &Nodes,
    shape: &Shape,
    named: &[u64; MOST_BLOCKS],
    region: u32,
    block: u32,
    class: u8,
)
    requires whole { map length nodes.now ≡ node_sizes shape.now }
    requires named { AreNamed shape.now nodes.now named.now }
    requires least { 1 ≤ region }
    requires most { region ≤ shape.now.regions }
    requires block { block < shape.now.blocks }
    requires class { class < CLASSES }
    requires few { IsAtMost (2 ^ 19) division.old }
    ensures { division.new ≡ with_objects shape.now nodes.now
        (objects_of_class region block class) division.old }
{
    prove!(shape.blocks <= 64);
    let bits = word_of_region(nodes, shape, region, 64 + block);
    let count = 64 / units(class);
    for j in 0..count {
        if bits >> j == u64::MAX >> j {
            // All others are in stock, as they are once those in use were taken first.
            division.stock += count - j;
            return;
        }
        let object = object_at(shape, region, block, class, j);
        let is_in_stock = (bits >> j) % 2 == 1;
        let is_named = !is_in_stock && has_unit(named, shape, object.pointer);
        count_object(division, is_in_stock, is_named);
    }
}

// Object j of a block.
fn object_at(shape: &Shape, region: u32, block: u32, class: u8, j: u32) -> Object
    requires least { 1 ≤ region }
    requires most { region ≤ shape.now.regions }
    requires block { block < shape.now.blocks }
    requires class { class < CLASSES }
    requires j { j < 64 / units_of class }
    ensures object { result ≡ object_at region block class j }
    ensures unit { IsUnit shape.now result.pointer }
    ensures lies { unit_of result.pointer ≡ 16 + 64 * block + j * units_of class }
    ensures region { region_of result.pointer ≡ region }
{
    prove!(shape.blocks <= 64);
    prove!(shape.regions <= 63);
    let first = 16 + 64 * block;
    Object {
        pointer: pointer_of(region, first + j * units(class)),
        class,
    }
}
