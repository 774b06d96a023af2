/// Whose a block is.
#[derive(Clone, Copy, Debug, PartialEq, Eq)]
pub enum BlockState {
    /// It was never granted.
    Unused,
    /// The client owns it.
    Owned(u32),
    /// The client that owns it is stopped, and its recovery is still to release it.
    Awaiting(u32),
    /// It was released, and may be granted again for its class.
    Released,
}

/// Where an object of a granted block is.
#[derive(Clone, Copy, Debug, PartialEq, Eq)]
pub enum ObjectState {
    /// It is in stock.
    Stock,
    /// The slot names it.
    Present(u32),
    /// It is held by the client's call.
    Held(u32),
}

/// How many blocks and objects are in each state.
#[derive(Clone, Copy, Debug, PartialEq, Eq)]
pub struct Division {
    pub unused: u32,
    pub owned: u32,
    pub awaiting: u32,
    pub released: u32,
    pub stock: u32,
    pub present: u32,
    pub held: u32,
}
