ghost use Rattle.std.specs.Prelude.{◌≡◌, ◌≢◌, IfSome, IfNone};
ghost use Rattle.object_form.specs.declared.metas.Meta.{Meta};
ghost use Rattle.object_form.specs.Meta.{code_of, is_meta, longest_of, meta_in, word_of_meta, IsMeta};

use crate::classes::LONGEST;

/// What an object says of its key.
#[derive(Clone, Copy, Debug, PartialEq, Eq)]
pub enum Kind {
    /// The key has a value.
    Value,
    /// The key is deleted, and there is no value.
    Tombstone,
}

/// The kind of an object, and the lengths of its parts.
#[derive(Clone, Copy, Debug, PartialEq, Eq)]
pub struct Meta {
    pub kind: Kind,
    /// The length of the key in bytes, 1 to 64.
    pub key_len: u32,
    /// The length of the value in bytes: at most `LONGEST`, and 0 for a tombstone.
    pub value_len: u32,
}

/// The word that says what an object is: its kind in bits 32 to 39, 1 for a value and 2 for a
/// tombstone, the length of its key in bits 16 to 31, and that of its value in bits 0 to 15. The
/// other bits are 0.
pub fn meta_word(meta: Meta) -> u64
    ensures { result ≡ word_of_meta meta }
{
    (kind_code(meta.kind) << 32) + (u64::from(meta.key_len) << 16) + u64::from(meta.value_len)
}

/// What a meta word says of its object, where it is one.
#[tactic(auto, unfolding(crate::specs::Meta::meta_in))]
pub fn meta_of(word: u64) -> Option<Meta>
    ensures found { IfSome result (λ meta. IsMeta meta × (word_of_meta meta ≡ word)) }
    ensures none { IfNone result ((meta : Meta) → IsMeta meta → word_of_meta meta ≢ word) }
    ensures value { result ≡ meta_in word }
{
    let kind = match word >> 32 {
        1 => Kind::Value,
        2 => Kind::Tombstone,
        _ => return None,
    };
    let meta = Meta {
        kind,
        key_len: ((word >> 16) % (1 << 16)) as u32,
        value_len: (word % (1 << 16)) as u32,
    };
    if is_meta(meta) { Some(meta) } else { None }
}

fn is_meta(meta: Meta) -> bool
    ensures { result ≡ is_meta meta }
{
    if !(1..=64).contains(&meta.key_len) {
        return false;
    }
    meta.value_len <= longest_value(meta.kind)
}

fn kind_code(kind: Kind) -> u64
    ensures { result ≡ code_of kind }
{
    match kind {
        Kind::Value => 1,
        Kind::Tombstone => 2,
    }
}

fn longest_value(kind: Kind) -> u32
    ensures { result ≡ longest_of kind }
{
    match kind {
        Kind::Value => LONGEST as u32,
        Kind::Tombstone => 0,
    }
}
