use object_form::Kind;

/// What a step of a search for a key tells.
#[derive(Clone, Copy, Debug, PartialEq, Eq)]
pub enum Found {
    Going,
    /// The slot is empty, and no slot before it in the key's order has the key.
    Empty {
        slot: u32,
    },
    /// The slot has this word, which names an object of the key, of this kind and with a value of
    /// so many bytes.
    At {
        slot: u32,
        word: u64,
        kind: Kind,
        value_len: u32,
    },
    /// No slot of the key's order has the key, and none is empty.
    Nowhere,
    /// The verb's node is lost; its number.
    Refused(u32),
}
