use crate::counted_world::CountedWorld;
use sim_plan::Turns;

/// What the driver of a simulation goes by.
#[derive(Drop)]
pub(crate) struct Simulator {
    pub(crate) counted: CountedWorld,
    pub(crate) turns: Turns,
    /// How many nodes were lost.
    pub(crate) losses: u32,
    /// Whether a settling is under way.
    pub(crate) settling: bool,
}
