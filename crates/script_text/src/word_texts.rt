//! Words and bytes as hexadecimal digits.

ghost use Rattle.std.specs.Prelude.{◌≡◌, ◌<◌, false, length};
ghost use Rattle.std.specs.Fmt.{digit_glyph};
ghost use Rattle.std.specs.List.{flat_map};
ghost use Rattle.script_text.specs.Shown.{hex_text, word_text};

use arrayvec::ArrayVec;

/// The 16 digits of a word.
#[tactic(auto, unfolding(crate::specs::Shown::word_text))]
pub(crate) fn word_digits(word: u64) -> ArrayVec<u8, 16>
    ensures text { result.items ≡ word_text word }
    ensures long { length result.items ≡ 16 }
{
    eight_bytes_hex(&word.to_be_bytes())
}

// The digits of eight bytes.
fn eight_bytes_hex(bytes: &[u8; 8]) -> ArrayVec<u8, 16>
    ensures text { result.items ≡ flat_map hex_text bytes.now }
    ensures long { length result.items ≡ 16 }
{
    let mut digits = ArrayVec::new();
    for byte in bytes {
        digits.push(hex_digit(*byte / 16));
        digits.push(hex_digit(*byte % 16));
    }
    digits
}

/// A digit, 0 to 9 and a to f.
pub(crate) fn hex_digit(value: u8) -> u8
    requires { value < 16 }
    ensures { result ≡ digit_glyph false value }
{
    if value < 10 {
        b'0' + value
    } else {
        b'a' + (value - 10)
    }
}
