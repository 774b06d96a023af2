ghost use Rattle.std.specs.Prelude.{◌≡◌, ◌^◌, ◌<◌, ◌≤◌};
ghost use Rattle.pointer_fields.specs.Pointer.{pointer_of, region_of, unit_of};
ghost use Rattle.object_form.specs.Block.{block_of_unit, object_of_unit};
ghost use Rattle.object_form.specs.declared.classes.TheConstants.{CLASSES};

use crate::classes::units;

/// The pointer to a unit of a region: the region in bits 20 to 27, the unit in bits 0 to 19.
pub fn pointer_of(region: u32, unit: u32) -> u32
    requires region { region < 2 ^ 8 }
    requires unit { unit < 2 ^ 20 }
    ensures { result ≡ pointer_of region unit }
{
    (region << 20) + unit
}

/// The region of a pointer, in its bits 20 to 27.
pub fn region_of(pointer: u32) -> u32
    requires { pointer < 2 ^ 28 }
    ensures { result ≡ region_of pointer }
{
    pointer >> 20
}

/// The unit of a pointer, in its bits 0 to 19.
pub fn unit_of(pointer: u32) -> u32
    ensures { result ≡ unit_of pointer }
{
    pointer % (1 << 20)
}

/// The block that the pointer's unit lies in: block b has the units 16 + 64 b to 79 + 64 b.
pub fn block_at(pointer: u32) -> u32
    requires { 16 ≤ unit_of pointer }
    ensures { result ≡ block_of_unit (unit_of pointer) }
{
    (unit_of(pointer) - 16) / 64
}

/// The number of the object that the pointer's unit lies in, in a block of this class: object j of
/// block b has the 2^class units from unit 16 + 64 b + j 2^class.
pub fn object_at(pointer: u32, class: u8) -> u32
    requires unit { 16 ≤ unit_of pointer }
    requires class { class < CLASSES }
    ensures { result ≡ object_of_unit (unit_of pointer) class }
{
    (unit_of(pointer) - 16) % 64 / units(class)
}
