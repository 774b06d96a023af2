ghost use Rattle.std.specs.Prelude.{◌≡◌, IfOk};

use crate::byte_list::Bytes;
use std::alloc::AllocError;

/// What a client asks of the map.
#[derive(Debug, Drop)]
pub enum Call {
    Get { key: Bytes },
    Put { key: Bytes, value: Bytes },
    Delete { key: Bytes },
}

/// What the map answers.
#[derive(Debug, Drop)]
pub enum Reply {
    /// A put or a delete took effect.
    Done,
    /// What a get found.
    Value(Bytes),
    /// A get found nothing.
    Absent,
    /// A put found no room, and changed nothing.
    Full,
    /// A put or a delete found no memory of the class, and changed nothing. Where it has to wait for
    /// a client, it names that client and its begin word, and else zeros.
    NoSpace { class: u8, client: u32, begin: u64 },
}

impl Call {
    /// An equal value with memory of its own.
    pub fn copy(&self) -> Result<Self, AllocError>
        ensures { IfOk result (λ copy. copy ≡ self.now) }
    {
        match self {
            Call::Get { key } => Ok(Call::Get { key: key.copy()? }),
            Call::Put { key, value } => Ok(Call::Put {
                key: key.copy()?,
                value: value.copy()?,
            }),
            Call::Delete { key } => Ok(Call::Delete { key: key.copy()? }),
        }
    }
}

impl Reply {
    /// An equal value with memory of its own.
    pub fn copy(&self) -> Result<Self, AllocError>
        ensures { IfOk result (λ copy. copy ≡ self.now) }
    {
        match self {
            Reply::Done => Ok(Reply::Done),
            Reply::Value(value) => Ok(Reply::Value(value.copy()?)),
            Reply::Absent => Ok(Reply::Absent),
            Reply::Full => Ok(Reply::Full),
            Reply::NoSpace {
                class,
                client,
                begin,
            } => Ok(Reply::NoSpace {
                class: *class,
                client: *client,
                begin: *begin,
            }),
        }
    }
}
