ghost use Rattle.std.specs.Prelude.{◌≡◌, ◌≤◌, length, true};
ghost use Rattle.std.specs.Str.Parse.{digits_value};
ghost use Rattle.text_lines.specs.Number.{are_digits, number_of};

// The most digits of a number.
const MOST_DIGITS: usize = 10;

/// The number that a word writes: 1 to 10 digits, at most 4,294,967,295.
pub fn number_of(word: &[u8]) -> Option<u32>
    ensures { result ≡ number_of word.now }
{
    if word.is_empty() {
        return None;
    }
    if MOST_DIGITS < word.len() {
        return None;
    }
    if !are_digits(word) {
        return None;
    }
    u32::try_from(value_of(word)).ok()
}

fn value_of(digits: &[u8]) -> u64
    requires digits { are_digits digits.now ≡ true }
    requires few { length digits.now ≤ 10 }
    ensures { result ≡ digits_value 10 digits.now }
{
    let mut value = 0;
    for digit in digits {
        value = value * 10 + u64::from(digit - b'0');
    }
    value
}

fn are_digits(word: &[u8]) -> bool
    ensures { result ≡ are_digits word.now }
{
    word.iter().all(|byte| byte.is_ascii_digit())
}
