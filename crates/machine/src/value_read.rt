/// What a step of reading a value tells.
#[derive(Clone, Copy, Debug, PartialEq, Eq)]
pub enum Fetched {
    Going,
    /// All words of the value were read.
    Whole,
    /// The verb's node is lost; its number.
    Refused(u32),
}
