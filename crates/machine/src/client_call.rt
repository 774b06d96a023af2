use verb_words::Why;

/// Why a call is refused before it is made.
#[derive(Clone, Copy, Debug, PartialEq, Eq)]
pub enum Before {
    /// The key's length in bytes, which is not 1 to 64.
    KeyLength(usize),
    /// The value's length in bytes, which is over the longest.
    ValueLength(usize),
    /// The client has made all of its calls.
    Spent,
}

/// What a step of a call tells.
#[derive(Clone, Copy, Debug, PartialEq, Eq)]
pub enum Step {
    Going,
    /// The call returned.
    Ended(Outcome),
    /// The call is not done yet, and may go on.
    NotYet(Why),
}

/// How a call returned.
#[derive(Clone, Copy, Debug, PartialEq, Eq)]
pub enum Outcome {
    Done,
    /// A get found a value.
    Value,
    Absent,
    Full,
    /// No object of the class is left: the first client that is awaited and its begin word, or
    /// zeros where none is awaited.
    NoSpace { class: u8, client: u32, begin: u64 },
}
