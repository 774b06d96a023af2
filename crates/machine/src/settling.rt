/// What a step of a settling tells.
#[derive(Clone, Copy, Debug, PartialEq, Eq)]
pub enum Settled {
    Going,
    /// The next view is open; its epoch word.
    Opened(u64),
    /// A client is inside a call and has not paused yet; its begin word. The settling may go on.
    NotYet { client: u32, begin: u64 },
}
