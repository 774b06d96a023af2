ghost use Rattle.std.specs.Prelude.{◌≡◌};
ghost use Rattle.script_text.specs.OutputForm.{line_name};

/// What a line of the output is, by its first word.
#[derive(Clone, Copy, Debug, PartialEq, Eq)]
pub(crate) enum LineName {
    Client,
    Called,
    Ended,
    NotYet,
    Took,
    Stopped,
    Lost,
    Task,
    Recovered,
    Opened,
    Waiting,
    Verb,
    Word,
    Dumped,
    Blocks,
    Objects,
    History,
    Entry,
    Refused,
    End,
    Filled,
    Joined,
}

/// The name that a first word is, if it is one.
pub(crate) fn line_name(word: &[u8]) -> Option<LineName>
    ensures { result ≡ line_name word.now }
{
    if word == b"client".as_slice() {
        return Some(LineName::Client);
    }
    if word == b"called".as_slice() {
        return Some(LineName::Called);
    }
    if word == b"ended".as_slice() {
        return Some(LineName::Ended);
    }
    if word == b"notyet".as_slice() {
        return Some(LineName::NotYet);
    }
    if word == b"took".as_slice() {
        return Some(LineName::Took);
    }
    if word == b"stopped".as_slice() {
        return Some(LineName::Stopped);
    }
    if word == b"lost".as_slice() {
        return Some(LineName::Lost);
    }
    if word == b"task".as_slice() {
        return Some(LineName::Task);
    }
    if word == b"recovered".as_slice() {
        return Some(LineName::Recovered);
    }
    if word == b"opened".as_slice() {
        return Some(LineName::Opened);
    }
    if word == b"waiting".as_slice() {
        return Some(LineName::Waiting);
    }
    if word == b"v".as_slice() {
        return Some(LineName::Verb);
    }
    if word == b"w".as_slice() {
        return Some(LineName::Word);
    }
    if word == b"dumped".as_slice() {
        return Some(LineName::Dumped);
    }
    if word == b"blocks".as_slice() {
        return Some(LineName::Blocks);
    }
    if word == b"objects".as_slice() {
        return Some(LineName::Objects);
    }
    if word == b"history".as_slice() {
        return Some(LineName::History);
    }
    if word == b"h".as_slice() {
        return Some(LineName::Entry);
    }
    if word == b"refused".as_slice() {
        return Some(LineName::Refused);
    }
    if word == b"end".as_slice() {
        return Some(LineName::End);
    }
    if word == b"filled".as_slice() {
        return Some(LineName::Filled);
    }
    if word == b"joined".as_slice() {
        return Some(LineName::Joined);
    }
    None
}
