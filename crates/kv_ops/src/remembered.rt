ghost use Rattle.std.specs.Prelude.{◌≡◌, ◌≤◌, ◌<◌, ◌∷◌, [], IfNone, IfSome, length, remove};
ghost use Rattle.kv_ops.specs.Places.{HasFirstAt, HasNone};
ghost use Rattle.machine.specs.Remembered.{place_for, with_place};
ghost use Rattle.slot_order.specs.Fnv as specs;

use arrayvec::ArrayVec;
use key_test::key_bytes;
use slot_order::fnv1a;
use std::marker::Model;

/// How many places a client remembers at most.
const MOST_PLACES: usize = 16;

/// The places at which a client found keys, each in its key's order of slots, the newest first.
#[derive(Drop)]
pub(crate) struct Remembered {
    /// Each key with its place, where it was first put: a pair is large, so none is moved.
    pairs: ArrayVec<(ArrayVec<u8, 64>, usize), MOST_PLACES>,
    /// The hash of each pair's key: nearly every other key has another one.
    hashes: ArrayVec<u64, MOST_PLACES>,
    /// Where the pairs are, from the newest to the oldest.
    order: ArrayVec<usize, MOST_PLACES>,
}

impl Model for Remembered {
    ghost use Rattle.std.specs.Prelude.{List};
    ghost use Rattle.kv_ops.specs.Places.{IsHeld, pairs_in};
    ghost use Rattle.machine.specs.Remembered.{Pair};

    ghost Value = { List Pair };

    ghost view = { λ r. pairs_in r.pairs.items r.order.items };

    ghost invariant = { λ r. IsHeld r.pairs.items r.hashes.items r.order.items };
}

impl Remembered {
    /// Nothing yet.
    pub(crate) fn new() -> Remembered
        ensures { result ≡ [] }
    {
        Remembered {
            pairs: ArrayVec::new(),
            hashes: ArrayVec::new(),
            order: ArrayVec::new(),
        }
    }

    /// The place at which a search for the key begins: the one remembered, else the first.
    pub(crate) fn place_for(&self, key: &[u8]) -> usize
        ensures { result ≡ place_for self.now key.now }
    {
        match self.rank_of(key, fnv1a(key)) {
            Some(rank) => self.pairs[self.order[rank]].1,
            None => 0,
        }
    }

    // The rank of the key's pair, counted from the newest.
    fn rank_of(&self, key: &[u8], hash: u64) -> Option<usize>
        requires { hash ≡ specs.fnv1a key.now }
        ensures some { IfSome result (λ rank. HasFirstAt self.now rank key.now) }
        ensures none { IfNone result (HasNone self.now key.now) }
    {
        for i in 0..self.order.len() {
            let at = self.order[i];
            if self.hashes[at] == hash && self.pairs[at].0.as_slice() == key {
                return Some(i);
            }
        }
        None
    }

    /// Remembers a place for the key, in place of an older one; the oldest pair goes where there are
    /// too many.
    pub(crate) fn remember(&mut self, key: &[u8], place: usize)
        requires { length key.now ≤ 64 }
        ensures { self.new ≡ with_place self.old key.now place }
    {
        let hash = fnv1a(key);
        match self.rank_of(key, hash) {
            Some(rank) => self.renew(rank, key, hash, place),
            None if self.pairs.len() < MOST_PLACES => self.add(key, hash, place),
            None => self.renew(MOST_PLACES - 1, key, hash, place),
        }
    }

    // A pair of a key that none is of becomes the newest.
    fn add(&mut self, key: &[u8], hash: u64, place: usize)
        requires few { length key.now ≤ 64 }
        requires hash { hash ≡ specs.fnv1a key.now }
        requires room { length self.old < 16 }
        requires none { HasNone self.old key.now }
        ensures { self.new ≡ (key.now, place) ∷ self.old }
    {
        let at = self.pairs.len();
        self.pairs.push((key_bytes(key), place));
        self.hashes.push(hash);
        self.order.insert(0, at);
    }

    // The pair of this rank makes way for one of the key, which becomes the newest.
    fn renew(&mut self, rank: usize, key: &[u8], hash: u64, place: usize)
        requires few { length key.now ≤ 64 }
        requires hash { hash ≡ specs.fnv1a key.now }
        requires rank { rank < length self.old }
        requires others { HasNone (remove self.old rank) key.now }
        ensures { self.new ≡ (key.now, place) ∷ remove self.old rank }
    {
        let at = self.order.remove(rank);
        self.pairs[at] = (key_bytes(key), place);
        self.hashes[at] = hash;
        self.order.insert(0, at);
    }
}
