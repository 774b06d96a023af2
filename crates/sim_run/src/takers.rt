/// Who takes the verbs of a line.
#[derive(Clone, Copy, Debug, PartialEq, Eq)]
pub(crate) enum Taker {
    /// The client of this number.
    Client(u32),
    Master,
}
