ghost use Rattle.std.specs.Prelude.{◌≡◌, ◌<◌, IfSome};
ghost use Rattle.machine.specs.ObjectNames.{IsObject, candidate_in, class_of_units, names_object, object_in};
ghost use Rattle.object_form.specs.declared.classes.TheConstants.{CLASSES};

use object_form::{region_of, unit_of, units};
use race_slot::unpack;
use region_view::Shape;
use slot_order::finger;
use std::marker::Model;

/// An object of the pool.
#[derive(Clone, Copy, Debug)]
pub struct Object {
    /// Where it begins.
    pub pointer: u32,
    /// Its class: it has 2^class units.
    pub class: u8,
}

impl Model for Object {
    ghost use Rattle.machine.specs.ObjectNames.{Object};

    ghost Value = { Object };

    ghost view = { λ o. record { pointer = o.pointer; class = o.class } };

    ghost inverse = { λ v. record { pointer = v.pointer; class = v.class } };
}

/// The object that a slot word names; `None` exactly where it names none of the pool.
#[tactic(auto, unfolding(machine::specs::ObjectNames::object_in))]
pub fn object_in(shape: &Shape, word: u64) -> Option<Object>
    ensures value { result ≡ object_in shape.now word }
    ensures object { IfSome result (λ object. IsObject shape.now object) }
{
    let slot = unpack(word)?;
    let class = class_of_units(slot.units)?;
    if names_object(shape, class, slot.pointer) {
        Some(Object {
            pointer: slot.pointer,
            class,
        })
    } else {
        None
    }
}

/// The object that a slot word names, where the word has the fingerprint of the key too.
pub fn candidate_in(shape: &Shape, key: &[u8], word: u64) -> Option<Object>
    ensures value { result ≡ candidate_in shape.now key.now word }
    ensures object { IfSome result (λ object. IsObject shape.now object) }
{
    if (word >> 56) as u8 == finger(key) {
        object_in(shape, word)
    } else {
        None
    }
}

// The class whose objects have so many units.
fn class_of_units(count: u8) -> Option<u8>
    ensures { result ≡ class_of_units count }
{
    match count {
        1 => Some(0),
        2 => Some(1),
        4 => Some(2),
        8 => Some(3),
        16 => Some(4),
        32 => Some(5),
        _ => None,
    }
}

/// Whether the pointer names an object of the class.
#[tactic(auto, unfolding(machine::specs::ObjectNames::names_object))]
pub fn names_object(shape: &Shape, class: u8, pointer: u32) -> bool
    requires { class < CLASSES }
    ensures { result ≡ names_object shape.now class pointer }
{
    if pointer >= 1 << 28 {
        return false;
    }
    let region = region_of(pointer);
    let unit = unit_of(pointer);
    if region < 1 || region > shape.regions {
        return false;
    }
    if unit < 16 || unit >= 16 + 64 * shape.blocks {
        return false;
    }
    (unit - 16) % units(class) == 0
}
