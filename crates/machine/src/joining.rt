use verb_words::Why;

/// What a step of a node's joining tells.
#[derive(Clone, Copy, Debug, PartialEq, Eq)]
pub enum Joined {
    Going,
    /// The node's status word says that it is live.
    Joined,
    /// The epoch is sealed, and the joining is to be made anew.
    NotYet(Why),
}
