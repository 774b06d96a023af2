ghost use Rattle.std.specs.Prelude.{◌≡◌, ◌↔◌, ◌<◌, [], All, IsNone, slice_get};
ghost use Rattle.reuse_epoch.specs.Awaited.{IsAwaited, IsClient, client_of, noted, still_awaited};

use arrayvec::ArrayVec;
use std::marker::Model;

/// Clients have the numbers 1 to this one.
pub const MOST_CLIENTS: usize = 64;

/// The clients that some freed objects wait for, each with the odd begin word at which it was seen,
/// from the lowest number to the highest. The objects are ripe once there is none.
#[derive(Drop)]
pub struct Grace {
    awaited: ArrayVec<(u32, u64), MOST_CLIENTS>,
}

impl Model for Grace {
    ghost use Rattle.std.specs.Prelude.{ℕ, List};
    ghost use Rattle.reuse_epoch.specs.Awaited.{IsAwaited};

    ghost Value = { List (ℕ × ℕ) };

    ghost view = { λ grace. grace.awaited.items };

    ghost invariant = { λ grace. IsAwaited grace.awaited.items };
}

impl Grace {
    /// Waits for nobody yet.
    pub fn new() -> Grace
        ensures { result ≡ [] }
    {
        Grace {
            awaited: ArrayVec::new(),
        }
    }

    /// Waits for a client, where its begin word is odd.
    pub fn note(&mut self, client: u32, begin: u64)
        requires client { IsClient client }
        requires last { All (λ one. client_of one < client) self.old }
        ensures list { self.new ≡ noted self.old client begin }
        ensures awaited { IsAwaited self.new }
    {
        if begin % 2 == 1 {
            self.awaited.push((client, begin));
        }
    }

    /// Waits no longer for a client, where its begin word is another one now.
    pub fn seen(&mut self, client: u32, begin: u64)
        ensures list { self.new ≡ still_awaited self.old client begin }
        ensures awaited { IsAwaited self.new }
    {
        self.awaited.retain(|one| one.0 != client || one.1 == begin);
    }

    /// The client of the lowest number that is waited for, and its begin word.
    pub fn first(&self) -> Option<(u32, u64)>
        ensures first { result ≡ slice_get self.now 0 }
        ensures ripe { IsNone result ↔ (self.now ≡ []) }
        ensures awaited { IsAwaited self.now }
    {
        self.awaited.first().copied()
    }

    /// Waits for nobody.
    pub fn clear(&mut self)
        ensures { self.new ≡ [] }
    {
        self.awaited.clear();
    }
}
