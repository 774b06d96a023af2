use object_form::Kind;

/// What a step of a test of an object's key tells.
#[derive(Clone, Copy, Debug, PartialEq, Eq)]
pub enum Tested {
    Going,
    /// The object has the key; its kind, and its value's length in bytes.
    Same { kind: Kind, value_len: u32 },
    /// The object has another key.
    Other,
    /// The verb's node is lost; its number.
    Refused(u32),
}
