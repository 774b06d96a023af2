ghost use Rattle.std.specs.Prelude.{◌≡◌, ◌≢◌, ◌^◌, ◌<◌, IfNone, IfSome};
ghost use Rattle.region_view.specs.Epoch.{IsEpoch, epoch_in, word_of_epoch};
ghost use Rattle.region_view.specs.declared.epochs.Epoch.{Epoch};

/// What the epoch word says.
#[derive(Clone, Copy, Debug, PartialEq, Eq)]
pub struct Epoch {
    /// The number of the view, below 2^48.
    pub view: u64,
    /// Whether the view is closing: no client may begin a verb under it.
    pub sealed: bool,
    /// The nodes of the view: bit i - 1 for node i.
    pub mask: u8,
}

/// The epoch word: the view in bits 16 to 63, whether it is sealed in bit 8, the mask in bits 0 to 7.
pub fn epoch_word(epoch: Epoch) -> u64
    requires { epoch.view < 2 ^ 48 }
    ensures { result ≡ word_of_epoch epoch }
{
    epoch.view * 65536 + u64::from(epoch.sealed) * 256 + u64::from(epoch.mask)
}

/// What the word says; `None` exactly where a bit of 9 to 15 is set, so that no epoch has the word.
#[tactic(auto, unfolding(crate::specs::Epoch::epoch_in))]
pub fn epoch_of(word: u64) -> Option<Epoch>
    ensures found { IfSome result (λ epoch. IsEpoch epoch × (word_of_epoch epoch ≡ word)) }
    ensures none { IfNone result ((epoch : Epoch) → IsEpoch epoch → word_of_epoch epoch ≢ word) }
    ensures value { result ≡ epoch_in word }
{
    let middle = word / 256 % 256;
    if middle > 1 {
        return None;
    }
    Some(Epoch {
        view: word / 65536,
        sealed: middle == 1,
        mask: (word % 256) as u8,
    })
}
