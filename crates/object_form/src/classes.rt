ghost use Rattle.std.specs.Prelude.{◌≡◌, ℕ, ◌<◌, ◌≤◌, ◌↔◌, IsOk, IfOk, IfErr};
ghost use Rattle.object_form.specs.Class.{class_in, words_of, units_of, room_of, IsKeyLength, IsRefused};

/// How many classes of objects there are. An object of class k has 2^k units, of 8 words each.
pub const CLASSES: u8 = 6;

/// The longest value, in bytes.
pub const LONGEST: usize = 1952;

/// The words of an object of the largest class, which holds the longest key and the longest value.
pub const OBJECT_WORDS: usize = 256;

/// A length that no object has, in bytes.
#[derive(Clone, Copy, Debug, PartialEq, Eq)]
pub enum Length {
    /// The key's length, which is to be 1 to 64.
    KeyLength(usize),
    /// The value's length, which is to be at most `LONGEST`.
    ValueLength(usize),
}

/// The least class whose objects hold a key and a value of these lengths in bytes, beside four
/// words of their own.
///
/// A key length that is not 1 to 64 is refused, and then a value longer than `LONGEST`.
pub fn class_for(key_len: usize, value_len: usize) -> Result<u8, Length>
    ensures lengths { IsOk result ↔ (IsKeyLength key_len × (value_len ≤ LONGEST)) }
    ensures refused { IfErr result (IsRefused key_len value_len) }

    // The class is one of the six, and its objects have room for the words.
    ensures class { IfOk result (λ class. class < CLASSES) }
    ensures holds { IfOk result (λ class. words_of key_len value_len ≤ room_of class) }

    ensures value { IfOk result (λ class. class ≡ class_in key_len value_len) }

    // No smaller class has room for them.
    ensures least { IfOk result (λ class. (smaller : ℕ) → smaller < class
        → room_of smaller < words_of key_len value_len) }
{
    if !(1..=64).contains(&key_len) {
        return Err(Length::KeyLength(key_len));
    }
    if LONGEST < value_len {
        return Err(Length::ValueLength(value_len));
    }
    let words = 4 + key_len.div_ceil(8) + value_len.div_ceil(8);
    let mut class = 0;
    while 8 * (units(class) as usize) < words {
        class += 1;
    }
    Ok(class)
}

/// How many units an object of this class has.
pub fn units(class: u8) -> u32
    requires { class < CLASSES }
    ensures { result ≡ units_of class }
{
    1 << class
}
