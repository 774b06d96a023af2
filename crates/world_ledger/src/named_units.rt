//! The units of a pool's blocks that slots name. They are looked up once for all objects: else the slots
//! are searched for each object that is not in stock.

ghost use Rattle.std.specs.Prelude.{◌≡◌, ℕ, ◌*◌, ◌<◌, ◌≤◌, ◌||◌, ◌==◌, map, length, false};
ghost use Rattle.machine_world.specs.Standing.{node_sizes};
ghost use Rattle.world_ledger.specs.NamedUnits.{AreNamed, has_unit, unit_place};
ghost use Rattle.world_ledger.specs.Seen.{IsUnit};

use crate::readings::{primary_of, word_of_slot};
use key_test::object_in;
use object_form::{region_of, unit_of};
use region_view::Shape;
use verb_words::Nodes;

/// The most blocks that a pool has: 64 in each of 63 regions.
pub(crate) const MOST_BLOCKS: usize = 4032;

/// Sets for each block a bit for each of its units where the deciding word of a slot names an object.
/// The bits are handed in, as 32 KB are much to hand back.
pub(crate) fn add_named_units(units: &mut [u64; MOST_BLOCKS], nodes: &Nodes, shape: &Shape)
    requires whole { map length nodes.now ≡ node_sizes shape.now }
    requires none { (pointer : ℕ) → has_unit units.old pointer ≡ false }
    ensures { AreNamed shape.now nodes.now units.new }
{
    let primary = primary_of(nodes, shape, 0);
    for slot in 0..24 * shape.groups {
        if let Some(object) = object_in(shape, word_of_slot(nodes, shape, primary, slot)) {
            add_unit(units, shape, object.pointer);
        }
    }
}

fn add_unit(units: &mut [u64; MOST_BLOCKS], shape: &Shape, pointer: u32)
    requires { IsUnit shape.now pointer }
    ensures { (other : ℕ) → IsUnit shape.now other
        → has_unit units.new other ≡ (has_unit units.old other || (pointer == other)) }
{
    let place = unit_place(shape, pointer);
    units[place / 64] |= 1 << (place % 64);
}

/// Whether the unit of a pointer is one of these.
pub(crate) fn has_unit(units: &[u64; MOST_BLOCKS], shape: &Shape, pointer: u32) -> bool
    requires { IsUnit shape.now pointer }
    ensures { result ≡ has_unit units.now pointer }
{
    let place = unit_place(shape, pointer);
    (units[place / 64] >> (place % 64)) % 2 == 1
}

fn unit_place(shape: &Shape, pointer: u32) -> usize
    requires { IsUnit shape.now pointer }
    ensures place { result ≡ unit_place pointer }
    ensures inside { result < 64 * 4032 }
    ensures few { shape.now.blocks ≤ 64 }
{
    prove!(shape.blocks <= 64);
    prove!(shape.regions <= 63);
    ((region_of(pointer) - 1) * 4096 + (unit_of(pointer) - 16)) as usize
}
