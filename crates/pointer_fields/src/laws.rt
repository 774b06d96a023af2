//! What holds of the definitions: each function does nothing, and its clause is the law.

ghost use Rattle.std.specs.Prelude.{◌≡◌, ℕ, ◌<◌, ◌^◌};
ghost use Rattle.pointer_fields.specs.Pointer.{pointer_of, region_of, unit_of};

/// A pointer has the region and the unit that it was made of, and is below 2^28.
pub fn pointers_keep_their_fields()
    ensures region { (region unit : ℕ) → unit < 2 ^ 20 → region_of (pointer_of region unit) ≡ region }
    ensures unit { (region unit : ℕ) → unit < 2 ^ 20 → unit_of (pointer_of region unit) ≡ unit }
    ensures size { (region unit : ℕ) → region < 2 ^ 8 → unit < 2 ^ 20 → pointer_of region unit < 2 ^ 28 }
{}

/// Each number is the pointer of its region and its unit.
pub fn numbers_are_pointers()
    ensures pointer { (pointer : ℕ) → pointer_of (region_of pointer) (unit_of pointer) ≡ pointer }
    ensures region { (pointer : ℕ) → pointer < 2 ^ 28 → region_of pointer < 2 ^ 8 }
    ensures unit { (pointer : ℕ) → unit_of pointer < 2 ^ 20 }
{}
