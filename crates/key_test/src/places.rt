ghost use Rattle.std.specs.Prelude.{◌≡◌, ◌+◌, ◌^◌, ◌<◌, ℕ};
ghost use Rattle.machine.specs.Places.{object_word, primary_place, slot_primary};
ghost use Rattle.region_view.specs.Layout.{HasWord};

use object_form::{region_of, unit_of};
use region_view::{View, primary, word_place};
use verb_words::Place;

/// The place of an object's first word on the primary of its region. The object's other words stand
/// behind it, one after the other.
pub fn object_place(view: &View, pointer: u32) -> Place
    requires pointer { pointer < 2 ^ 28 }
    requires word { HasWord view.now.shape (object_word pointer 0) }
    ensures words { (i : ℕ) → primary_place view.now (object_word pointer i)
        ≡ record { node = result.node; at = result.at + i } }
    ensures below { result.at < 2 ^ 21 }
{
    // The sizes are read, so that they are known to be within their limits.
    prove!(view.shape.groups <= 256);
    let (node, at) = word_place(view, region_of(pointer), 8 * unit_of(pointer));
    Place { node, at }
}

/// The node that slots are read on: the primary of the index. A slot's position there is its number.
pub fn index_primary(view: &View) -> u32
    ensures { (slot : ℕ) → slot_primary view.now slot ≡ record { node = result; at = slot } }
{
    // The sizes are read, so that they are known to be within their limits.
    prove!(view.shape.groups <= 256);
    primary(view, 0)
}
