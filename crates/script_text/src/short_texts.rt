//! Words of a line that is made in place: each is appended with a blank before it, and no memory is
//! asked for.

ghost use Rattle.std.specs.Prelude.{◌≡◌, ◌+◌, ◌≤◌, ◌++◌, [], ◌∷◌, length};
ghost use Rattle.std.specs.Fmt.{decimal};
ghost use Rattle.script_text.specs.OutputText.{spaced};
ghost use Rattle.script_text.specs.Shown.{word_text};

use crate::word_texts::word_digits;
use arrayvec::ArrayVec;
use itoa::Buffer;

/// Room in bytes for the line of a verb or of a word, and of a call with a short key and a short value.
pub const SHORT_LINE: usize = 128;

pub(crate) fn put_number(into: &mut ArrayVec<u8, SHORT_LINE>, number: u32)
    requires { length into.old.items + 11 ≤ 128 }
    ensures text { into.new.items ≡ into.old.items ++ spaced (decimal number ∷ []) }
    ensures few { length into.new.items ≤ length into.old.items + 11 }
{
    into.push(b' ');
    if number < 10 {
        // Most numbers of clients and of nodes have one digit.
        into.push(b'0' + number as u8);
        return;
    }
    let mut buffer = Buffer::new();
    put_text(into, buffer.format(number).as_bytes());
}

pub(crate) fn put_word(into: &mut ArrayVec<u8, SHORT_LINE>, word: u64)
    requires { length into.old.items + 17 ≤ 128 }
    ensures text { into.new.items ≡ into.old.items ++ spaced (word_text word ∷ []) }
    ensures long { length into.new.items ≡ length into.old.items + 17 }
{
    into.push(b' ');
    put_text(into, word_digits(word).as_slice());
}

/// Appends a text as it is, with no blank.
pub(crate) fn put_text(into: &mut ArrayVec<u8, SHORT_LINE>, text: &[u8])
    requires { length into.old.items + length text.now ≤ 128 }
    ensures text { into.new.items ≡ into.old.items ++ text.now }
    ensures long { length into.new.items ≡ length into.old.items + length text.now }
{
    let put = into.try_extend_from_slice(text);
    prove!(put.is_ok());
}
