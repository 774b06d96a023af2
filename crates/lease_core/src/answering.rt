ghost use Rattle.std.specs.Prelude.{◌≡◌, ◌++◌, OnOk, OnErr};
ghost use Rattle.std.specs.Fmt.{decimal};
ghost use Rattle.lease_core.specs.Text.{answer_text, refusal_text, words_text};

use std::alloc::AllocError;

/// Why a line is refused, in the order in which it is tested. A refused line changes nothing.
#[derive(Clone, Copy, Debug, PartialEq, Eq)]
pub enum LeaseRefusal {
    /// No client has this number.
    Unknown(u32),
    /// The clocks differ by more than they may, or one of them ran back.
    Clocks,
    /// The client has not asked so often.
    Ask(u32),
    /// That ask of the client was never granted.
    Grant(u32),
    /// The client is fenced.
    Fenced(u32),
}

/// The answer to a line, or the last of a run.
#[derive(Clone, Copy, Debug, PartialEq, Eq)]
pub enum LeaseAnswer {
    /// `asked c k`: this is the client's k-th ask.
    Asked { client: u32, ask: u64 },
    /// `granted c k x`: the client's leases last until x by the master's clock.
    Granted { client: u32, ask: u32, expiry: u64 },
    /// `taken c k u`: the client may act until u by its own clock.
    Taken { client: u32, ask: u32, until: u64 },
    /// `lawful c`: the client may act at that moment.
    Lawful(u32),
    /// `unlawful c`: it may not.
    Unlawful(u32),
    /// `fenced c`: from now on the client is called stopped.
    Fenced(u32),
    /// `early c x`: a lease of the client lasts until x by the master's clock.
    Early { client: u32, expiry: u64 },
    /// `refused` and why.
    Refused(LeaseRefusal),
    /// `end`: the last answer of a run.
    End,
}

/// Appends the answer's text and a line feed.
pub fn push_answer(into: &mut Vec<u8>, answer: &LeaseAnswer) -> Result<(), AllocError>
    ensures { OnOk result (into.new.items ≡ into.old.items ++ answer_text answer.now) }
{
    match *answer {
        LeaseAnswer::Asked { client, ask } => {
            push_word(into, b"asked ", u64::from(client))?;
            push_word(into, b" ", ask)?;
        }
        LeaseAnswer::Granted {
            client,
            ask,
            expiry,
        } => {
            push_word(into, b"granted ", u64::from(client))?;
            push_word(into, b" ", u64::from(ask))?;
            push_word(into, b" ", expiry)?;
        }
        LeaseAnswer::Taken { client, ask, until } => {
            push_word(into, b"taken ", u64::from(client))?;
            push_word(into, b" ", u64::from(ask))?;
            push_word(into, b" ", until)?;
        }
        LeaseAnswer::Lawful(client) => push_word(into, b"lawful ", u64::from(client))?,
        LeaseAnswer::Unlawful(client) => push_word(into, b"unlawful ", u64::from(client))?,
        LeaseAnswer::Fenced(client) => push_word(into, b"fenced ", u64::from(client))?,
        LeaseAnswer::Early { client, expiry } => {
            push_word(into, b"early ", u64::from(client))?;
            push_word(into, b" ", expiry)?;
        }
        LeaseAnswer::Refused(refusal) => push_refusal(into, refusal)?,
        LeaseAnswer::End => into.extend_from_slice(b"end")?,
    }
    into.push(b'\n')?;
    Ok(())
}

fn push_refusal(into: &mut Vec<u8>, refusal: LeaseRefusal) -> Result<(), AllocError>
    ensures { OnOk result (into.new.items ≡ into.old.items ++ refusal_text refusal) }
{
    match refusal {
        LeaseRefusal::Unknown(client) => push_word(into, b"refused unknown ", u64::from(client)),
        LeaseRefusal::Clocks => into.extend_from_slice(b"refused clocks"),
        LeaseRefusal::Ask(ask) => push_word(into, b"refused ask ", u64::from(ask)),
        LeaseRefusal::Grant(ask) => push_word(into, b"refused grant ", u64::from(ask)),
        LeaseRefusal::Fenced(client) => push_word(into, b"refused fenced ", u64::from(client)),
    }
}

// Appends what stands before a number, and the number in decimal.
fn push_word(into: &mut Vec<u8>, before: &[u8], number: u64) -> Result<(), AllocError>
    ensures { OnOk result (into.new.items ≡ into.old.items ++ (before.now ++ decimal number)) }
{
    into.extend_from_slice(before)?;
    let digits = number.to_string(*into.allocator())?;
    into.extend_from_slice(digits.as_bytes())
}
