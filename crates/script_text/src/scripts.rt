use crate::byte_text::Text;

/// The sizes that a script asks for, each within its limits.
#[derive(Clone, Copy, Debug, PartialEq, Eq)]
pub struct Shape {
    /// Memory nodes, 1 to 8.
    pub nodes: u32,
    /// Replicas of a region, 1 to 5, and at most the nodes.
    pub replicas: u32,
    /// Data regions, 1 to 63.
    pub regions: u32,
    /// Blocks of a data region, 1 to 64.
    pub blocks: u32,
    /// Bucket groups, 1 to 256.
    pub groups: u32,
    /// Clients, 1 to 64.
    pub clients: u32,
    /// Calls of a client, 1 to 16,777,215.
    pub calls: u32,
}

/// A script: its shape line, and the lines after it that are not skipped.
#[derive(Debug, Drop)]
pub struct Script {
    pub shape: Shape,
    pub lines: Vec<Line>,
}

/// A call as a line names it.
#[derive(Debug, Drop)]
pub enum CallText {
    Put { key: Text, value: Text },
    Get { key: Text },
    Delete { key: Text },
}

/// A line of a script. The fields are the words of the line that change, in order.
#[derive(Debug, Drop)]
pub enum Line {
    /// `register`: the next client.
    Register,
    /// `put c key value`: the call, until it ends or answers not yet.
    Put { client: u32, key: Text, value: Text },
    /// `get c key`
    Get { client: u32, key: Text },
    /// `delete c key`
    Delete { client: u32, key: Text },
    /// `call c ..`: the call is invoked, and takes no verb.
    Call { client: u32, call: CallText },
    /// `step c n`: up to n verbs of the client, n at least 1.
    Step { client: u32, count: u32 },
    /// `go c`: verbs until the call ends or answers not yet.
    Go(u32),
    /// `late c`: one verb, carried out on a lost node.
    Late(u32),
    /// `stop c`: the client takes no further step.
    Stop(u32),
    /// `lose i`: the node is lost.
    Lose(u32),
    /// `settle`: the settling, until its end or not yet.
    Settle,
    /// `recover c`: the recovery of a client, until its end or not yet.
    Recover(u32),
    /// `task settle`: the settling is chosen, and takes no verb.
    TaskSettle,
    /// `task recover c`
    TaskRecover(u32),
    /// `work n`: up to n verbs of the master, n at least 1.
    Work(u32),
    /// `verbs on` (true) and `verbs off`: whether each verb is printed.
    Verbs(bool),
    /// `dump`: the words of the memory.
    Dump,
    /// `count`: the sizes of the parts of blocks and objects.
    Count,
    /// `history`: the history so far.
    History,
    /// `fill i W`: every word of the node becomes this word.
    Fill { node: u32, word: u64 },
    /// `join i`: the joining of a node, until its end or not yet.
    Join(u32),
    /// `task join i`
    TaskJoin(u32),
}
