ghost use Rattle.std.specs.Prelude.{◌≡◌, ◌<◌, ◌≤◌, ℕ, length, slice_index};
ghost use Rattle.object_form.specs.Class.{words_for};
ghost use Rattle.object_form.specs.Content.{word_from};

use arrayvec::ArrayVec;

/// The key's bytes in a buffer that has room for the longest key.
#[inline(always)]
pub fn key_bytes(key: &[u8]) -> ArrayVec<u8, 64>
    requires { length key.now ≤ 64 }
    ensures { result.items ≡ key.now }
{
    let mut bytes = ArrayVec::new();
    for byte in key {
        bytes.push(*byte);
    }
    bytes
}

/// Word `index` of the key: eight bytes, the first lowest, with zeros at the end.
#[inline(always)]
pub(crate) fn key_word(key: &[u8], index: usize) -> u64
    requires { index < words_for (length key.now) }
    ensures { result ≡ word_from key.now index }
{
    u64::from_le_bytes(eight_bytes(&key[8 * index..]))
}

#[inline(always)]
fn eight_bytes(bytes: &[u8]) -> [u8; 8]
    ensures { (i : ℕ) → i < 8 → slice_index result i ≡ slice_index bytes.now i }
{
    let mut eight = [0; 8];
    let count = bytes.len().min(8);
    eight[..count].copy_from_slice(&bytes[..count]);
    eight
}
