ghost use Rattle.std.specs.Prelude.{◌≡◌, ◌<◌, ◌≤◌, length};
ghost use Rattle.snapshot_rules.specs.Winner.{is_majority, least, majority_of, times, winner};
ghost use Rattle.snapshot_rules.specs.Verdict.{is_constant, verdict_of};

/// What a client finds out about its own word from the list of a round.
#[derive(Clone, Copy, Debug, PartialEq, Eq)]
pub enum Verdict {
    /// Every word of the list is its own: it wins.
    All,
    /// Its own word stands more than half as often as the list is long: it wins.
    Most,
    /// No word does so, and the least word is its own: it wins where the slot still holds the old
    /// word.
    CheckLeast,
    /// Another word wins.
    Lose,
}

/// What the list of a round says of the word `mine`.
pub fn judge(list: &[u64], mine: u64) -> Verdict
    requires some { 0 < length list.now }
    requires few { length list.now ≤ 4 }
    ensures { result ≡ verdict_of list.now mine }
{
    if is_constant(list, mine) {
        return Verdict::All;
    }
    if is_majority(list, mine) {
        return Verdict::Most;
    }
    if majority(list).is_none() && least(list) == mine {
        return Verdict::CheckLeast;
    }
    Verdict::Lose
}

/// The word that wins the round of this list.
pub fn settle(list: &[u64]) -> u64
    requires { 0 < length list.now }
    ensures { result ≡ winner list.now }
{
    majority(list).unwrap_or(least(list))
}

// Whether every word of the list is this one.
fn is_constant(list: &[u64], mine: u64) -> bool
    ensures { result ≡ is_constant mine list.now }
{
    list.iter().all(|word| *word == mine)
}

// The word that stands more than half as often as the list is long.
fn majority(list: &[u64]) -> Option<u64>
    ensures { result ≡ majority_of list.now }
{
    list.iter().copied().find(|word| is_majority(list, *word))
}

fn is_majority(list: &[u64], word: u64) -> bool
    ensures { result ≡ is_majority word list.now }
{
    let count = times(list, word);
    list.len() - count < count
}

fn times(list: &[u64], word: u64) -> usize
    ensures count { result ≡ times word list.now }
    ensures within { result ≤ length list.now }
{
    list.iter().filter(|other| **other == word).count()
}

fn least(list: &[u64]) -> u64
    requires { 0 < length list.now }
    ensures { result ≡ least list.now }
{
    let mut least = list[0];
    for word in list {
        least = least.min(*word);
    }
    least
}
