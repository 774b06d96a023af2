ghost use Rattle.std.specs.Prelude.{◌≡◌, ℕ, ◌+◌, ◌*◌, ◌<◌, ◌≤◌, ◌↔◌, ◌++◌, IsTrue, length, slice_index};
ghost use Rattle.arrayvec.specs.ArrayVec.{array_vec_len};
ghost use Rattle.object_form.specs.declared.classes.TheConstants.{OBJECT_WORDS};
ghost use Rattle.object_form.specs.Class.{words_for};
ghost use Rattle.object_form.specs.Content.{word_from, padded_words, IsSpelled};

use crate::classes::OBJECT_WORDS;
use arrayvec::ArrayVec;

/// Appends the bytes, eight in each word, the first byte lowest, with zeros at the end.
pub fn padded(bytes: &[u8], into: &mut ArrayVec<u64, OBJECT_WORDS>)
    requires { array_vec_len into.old + words_for (length bytes.now) ≤ OBJECT_WORDS }
    ensures { into.new.items ≡ into.old.items ++ padded_words bytes.now }
{
    for index in 0..bytes.len().div_ceil(8) {
        into.push(padded_word(&bytes[8 * index..]));
    }
}

/// Whether the first `len` bytes of the words are `bytes`, where each word has eight bytes, the
/// lowest first.
pub fn spelled(words: &[u64], len: usize, bytes: &[u8]) -> bool
    requires { len ≤ 8 * length words.now }
    ensures { IsTrue result ↔ IsSpelled words.now len bytes.now }
{
    if bytes.len() != len {
        return false;
    }
    for index in 0..len {
        if words[index / 8].to_le_bytes()[index % 8] != bytes[index] {
            return false;
        }
    }
    true
}

fn padded_word(bytes: &[u8]) -> u64
    ensures { result ≡ word_from bytes.now 0 }
{
    u64::from_le_bytes(padded_bytes(bytes))
}

fn padded_bytes(bytes: &[u8]) -> [u8; 8]
    ensures { (i : ℕ) → i < 8 → slice_index result i ≡ slice_index bytes.now i }
{
    let mut eight = [0; 8];
    let count = bytes.len().min(8);
    eight[..count].copy_from_slice(&bytes[..count]);
    eight
}
