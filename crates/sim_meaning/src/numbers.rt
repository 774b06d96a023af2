/// What a simulation is of. Each run of the same numbers is the same.
#[derive(Clone, Copy, Debug, PartialEq, Eq)]
pub struct Numbers {
    /// The number that all words come from.
    pub seed: u64,
    /// How many clients there are.
    pub clients: u32,
    /// How many calls each client makes.
    pub calls: u32,
    /// How many of the clients stop: the first ones, each in the middle of its calls.
    pub stops: u32,
    /// How many nodes are lost.
    pub losses: u32,
}
