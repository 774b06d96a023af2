/// What a step of writing words of an object tells.
#[derive(Clone, Copy, Debug, PartialEq, Eq)]
pub enum Written {
    Going,
    /// All words stand on every replica.
    Whole,
    /// The verb's node is lost; its number.
    Refused(u32),
}
