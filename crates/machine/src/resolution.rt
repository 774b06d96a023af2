/// What a step of finding out how a slot write went tells.
#[derive(Clone, Copy, Debug, PartialEq, Eq)]
pub enum Resolved {
    Going,
    /// The slot has the expected word.
    Still,
    /// The fresh word was the slot's at its version.
    Won,
    /// Another word of the key was.
    Beaten,
    /// The slot has another key.
    OtherKey,
    /// The verb's node is lost; its number.
    Refused(u32),
}
