use map_model::Call;

/// A task of the master.
#[derive(Clone, Copy, Debug, PartialEq, Eq)]
pub enum Task {
    /// To seal the view, copy what the lost nodes held, and open the next view.
    Settle,
    /// To recover a stopped client; its number.
    Recover(u32),
    /// To admit a lost node again; its number.
    Join(u32),
}

/// What may happen to the world.
#[derive(Debug, Drop)]
pub enum Event {
    /// The next client is registered.
    Register,
    /// A client makes a call.
    Invoke { client: u32, call: Call },
    /// A client takes its next verb.
    Step { client: u32 },
    /// A client's next verb, which was on its way when its node was lost, is carried out there.
    Late { client: u32 },
    /// A client takes no further step.
    Stop { client: u32 },
    /// A node is lost.
    Lose { node: u32 },
    /// A lost node outside the view is exchanged for one whose words are all this one.
    Fill { node: u32, word: u64 },
    /// The master begins a task, and drops the one that was there.
    Choose(Task),
    /// The master takes its task's next verb.
    Work,
}
