/// What a step of a bit change tells.
#[derive(Clone, Copy, Debug, PartialEq, Eq)]
pub enum Changed {
    Going,
    /// The bit is as it was wanted on every replica.
    Whole,
    /// The verb's node is lost; its number.
    Refused(u32),
}
