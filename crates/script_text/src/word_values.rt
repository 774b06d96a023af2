//! What single words of a text mean.

ghost use Rattle.std.specs.Prelude.{◌≡◌, ◌<◌, IfOk, Some, length, true};
ghost use Rattle.std.specs.Char.{digit_value};
ghost use Rattle.std.specs.Str.Parse.{digits_value};
ghost use Rattle.script_text.specs.WordValue.{are_hex_digits, bytes_of, hex_bytes, is_hex_digit, paired, word_of};

use crate::byte_text::Text;
use std::alloc::{AllocError, Global};

// How many digits write a word of 64 bits.
const WORD_DIGITS: usize = 16;

/// The bytes that a word means: those that an even count of digits 0 to 9 and a to f writes behind
/// `x:`, else its own.
pub(crate) fn bytes_of(alloc: Global, word: &[u8]) -> Result<Option<Text>, AllocError>
    ensures { IfOk result (λ bytes. bytes ≡ bytes_of word.now) }
{
    match word.strip_prefix(b"x:") {
        Some(digits) => hex_bytes(alloc, digits),
        None => Ok(Some(Text::of_slice(alloc, word)?)),
    }
}

/// The number that 16 digits 0 to 9 and a to f write.
pub(crate) fn word_of(word: &[u8]) -> Option<u64>
    ensures { result ≡ word_of word.now }
{
    if word.len() != WORD_DIGITS {
        return None;
    }
    if !are_hex_digits(word) {
        return None;
    }
    Some(value_of(word))
}

fn hex_bytes(alloc: Global, digits: &[u8]) -> Result<Option<Text>, AllocError>
    ensures { IfOk result (λ bytes. bytes ≡ hex_bytes digits.now) }
{
    if digits.len() % 2 != 0 {
        return Ok(None);
    }
    if !are_hex_digits(digits) {
        return Ok(None);
    }
    Ok(Some(Text::of_vec(paired(alloc, digits)?)))
}

fn paired(alloc: Global, digits: &[u8]) -> Result<Vec<u8>, AllocError>
    requires { are_hex_digits digits.now ≡ true }
    ensures { IfOk result (λ bytes. bytes.items ≡ paired digits.now) }
{
    let mut bytes = Vec::with_capacity(alloc, digits.len() / 2)?;
    let mut rest = digits;
    while rest.len() >= 2 {
        bytes.push(digit_of(rest[0]) * 16 + digit_of(rest[1]))?;
        rest = &rest[2..];
    }
    Ok(bytes)
}

fn value_of(digits: &[u8]) -> u64
    requires digits { are_hex_digits digits.now ≡ true }
    requires count { length digits.now ≡ 16 }
    ensures { result ≡ digits_value 16 digits.now }
{
    let mut value = 0;
    for digit in digits {
        value = value * 16 + u64::from(digit_of(*digit));
    }
    value
}

fn digit_of(byte: u8) -> u8
    requires { is_hex_digit byte ≡ true }
    ensures value { result ≡ digit_value byte }
    ensures small { result < 16 }
{
    if byte <= b'9' {
        byte - b'0'
    } else {
        byte - b'a' + 10
    }
}

fn are_hex_digits(bytes: &[u8]) -> bool
    ensures { result ≡ are_hex_digits bytes.now }
{
    bytes.iter().all(|byte| is_hex_digit(*byte))
}

fn is_hex_digit(byte: u8) -> bool
    ensures { result ≡ is_hex_digit byte }
{
    matches!(byte, b'0'..=b'9' | b'a'..=b'f')
}
