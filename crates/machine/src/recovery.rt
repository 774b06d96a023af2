use verb_words::Why;

/// What a step of a recovery of a stopped client tells.
#[derive(Clone, Copy, Debug, PartialEq, Eq)]
pub enum Recovering {
    Going,
    /// The client's last call is settled, and its blocks are released.
    Recovered,
    /// The recovery ended before it was done, and is to be made anew.
    NotYet(Why),
}
