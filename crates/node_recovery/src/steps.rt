ghost use Rattle.std.specs.Prelude.{◌≡◌, ℕ, ◌/◌, ◌%◌, ◌^◌, ◌<◌, ◌≤◌, IfSome, true};
ghost use Rattle.machine.specs.Copying.{copied_words, read_place_of, written_places_of};
ghost use Rattle.machine.specs.EpochRead.{leaves_none_bare};
ghost use Rattle.machine.specs.Settling.{IsClient, IsCopying, ReadBegin, ReadStatus, ReadWord, after_client, copies_to, goes_to, next_word, on_begin, on_epoch, on_pause, on_status, with_seal, with_status, writes_from};
ghost use Rattle.node_recovery.specs.Settlings.{AsksNode, CopiesWord, at_word, word_after};
ghost use Rattle.region_view.specs.Placed.{in_mask};

use crate::program::{Phase, Settling};
use machine::settling::Settled;
use node_join::{Targets, copy_of, leaves_none_bare, open_mask, sources};
use region_view::{Shape, View};

// Sealing, and waiting for the clients that are inside a call.
impl Settling {
    // An open epoch is sealed; one that is sealed was so by an earlier settling.
    pub(crate) fn on_epoch(&mut self, found: u64) -> Settled
        ensures state { self.new ≡ (on_epoch self.old found).state }
        ensures told { result ≡ (on_epoch self.old found).told }
    {
        match open_mask(&self.shape, found) {
            Some(_) => {
                self.sealed = with_seal(found);
                self.phase = Phase::Seal;
                Settled::Going
            }
            None => {
                self.sealed = found;
                self.ask_client(1)
            }
        }
    }

    // Goes on with the begin word of the client.
    pub(crate) fn ask_client(&mut self, client: u32) -> Settled
        requires { IsClient self.old.shape client }
        ensures state { self.new ≡ (goes_to self.old (ReadBegin client)).state }
        ensures told { result ≡ (goes_to self.old (ReadBegin client)).told }
    {
        self.phase = Phase::ReadBegin(client);
        Settled::Going
    }

    pub(crate) fn on_begin(&mut self, client: u32, found: u64) -> Settled
        requires { IsClient self.old.shape client }
        ensures state { self.new ≡ (on_begin self.old client found).state }
        ensures told { result ≡ (on_begin self.old client found).told }
    {
        if found % 2 == 0 || in_mask(self.stopped, client) {
            return self.after_client(client);
        }
        self.phase = Phase::ReadPause {
            client,
            begin: found,
        };
        Settled::Going
    }

    // A client that has not paused is asked again, once the settling goes on.
    pub(crate) fn on_pause(&mut self, client: u32, begin: u64, found: u64) -> Settled
        requires { IsClient self.old.shape client }
        ensures state { self.new ≡ (on_pause self.old client begin found).state }
        ensures told { result ≡ (on_pause self.old client begin found).told }
    {
        if found == self.sealed {
            return self.after_client(client);
        }
        self.phase = Phase::ReadBegin(client);
        Settled::NotYet { client, begin }
    }

    // The clients after this one are asked, and after the last the nodes.
    fn after_client(&mut self, client: u32) -> Settled
        requires { IsClient self.old.shape client }
        ensures state { self.new ≡ (after_client self.old client).state }
        ensures told { result ≡ (after_client self.old client).told }
    {
        if client < self.shape.clients {
            self.ask_client(client + 1)
        } else {
            self.ask_node(1, 0)
        }
    }
}

// The nodes that are live, and the copying to them.
impl Settling {
    // Goes on with the status word of the node, where these before it are live.
    pub(crate) fn ask_node(&mut self, node: u32, live: u8) -> Settled
        requires { AsksNode self.old.shape node live }
        ensures state { self.new ≡ (goes_to self.old (ReadStatus node live)).state }
        ensures told { result ≡ (goes_to self.old (ReadStatus node live)).told }
    {
        self.phase = Phase::ReadStatus { node, live };
        Settled::Going
    }

    pub(crate) fn on_status(&mut self, node: u32, live: u8, found: u64) -> Settled
        requires { AsksNode self.old.shape node live }
        ensures state { self.new ≡ (on_status self.old node live found).state }
        ensures told { result ≡ (on_status self.old node live found).told }
    {
        let live = with_status(&self.shape, live, node, found);
        if node < self.shape.nodes {
            self.ask_node(node + 1, live)
        } else {
            self.copy_to(live)
        }
    }

    // The copying to the live nodes begins. Where a region has no source, nothing is copied, and the
    // mask stays.
    fn copy_to(&mut self, live: u8) -> Settled
        ensures state { self.new ≡ (copies_to self.old live).state }
        ensures told { result ≡ (copies_to self.old live).told }
    {
        let old_mask = (self.sealed % 256) as u8;
        let sources = sources(&self.shape, old_mask, live);
        if !leaves_none_bare(&self.shape, sources) {
            self.mask = old_mask;
            self.phase = Phase::Open;
            return Settled::Going;
        }
        self.targets = targets_at(self.shape, sources, live, 0, 0);
        self.sources = sources;
        self.mask = live;
        self.region = 0;
        self.offset = 0;
        self.phase = Phase::ReadWord;
        Settled::Going
    }

    // Goes on with the word at this offset of the region.
    fn read_word(&mut self, region: u32, offset: u32) -> Settled
        requires { IsCopying (at_word self.old region offset) }
        ensures state { self.new ≡ (goes_to (at_word self.old region offset) ReadWord).state }
        ensures told { result ≡ (goes_to (at_word self.old region offset) ReadWord).told }
    {
        self.targets = targets_at(self.shape, self.sources, self.mask, region, offset);
        self.region = region;
        self.offset = offset;
        self.phase = Phase::ReadWord;
        Settled::Going
    }

    // The word goes to its places from this one on.
    pub(crate) fn write_from(&mut self, word: u64, target: usize) -> Settled
        requires { CopiesWord self.old.phase }
        ensures state { self.new ≡ (writes_from self.old word target).state }
        ensures told { result ≡ (writes_from self.old word target).told }
    {
        if target < self.targets.to.len() {
            self.phase = Phase::WriteWord { word, target };
            Settled::Going
        } else {
            self.next_word()
        }
    }

    // The next word of the region, or the first of the next region; after the last the view is
    // opened.
    fn next_word(&mut self) -> Settled
        requires { IsCopying self.old }
        ensures state { self.new ≡ (next_word self.old).state }
        ensures told { result ≡ (next_word self.old).told }
    {
        match word_after(&self.shape, self.region, self.offset) {
            Some((region, offset)) => self.read_word(region, offset),
            None => {
                self.phase = Phase::Open;
                Settled::Going
            }
        }
    }
}

// An open epoch word with the sealed bit.
fn with_seal(word: u64) -> u64
    requires { word / 2 ^ 8 % 2 ^ 8 ≡ 0 }
    ensures { result ≡ with_seal word }
{
    word + 256
}

// Whether the bit of a client is set.
fn in_mask(mask: u64, client: u32) -> bool
    requires least { 1 ≤ client }
    requires most { client ≤ 64 }
    ensures { result ≡ in_mask mask client }
{
    (mask >> (client - 1)) % 2 == 1
}

// The live nodes, once the node's status word was read.
fn with_status(shape: &Shape, live: u8, node: u32, found: u64) -> u8
    requires { AsksNode shape.now node live }
    ensures value { result ≡ with_status live node found }
    ensures below { result < 2 ^ node }
{
    // The sizes are read, so that they are known to be within their limits.
    prove!(node <= shape.nodes);
    if found == 0 {
        live + (1 << (node - 1))
    } else {
        live
    }
}

// Where a word is read on the sources and written under the mask.
fn targets_at(shape: Shape, sources: u8, mask: u8, region: u32, offset: u32) -> Targets
    requires covers { leaves_none_bare shape sources ≡ true }
    requires within { (node : ℕ) → in_mask sources node ≡ true → in_mask mask node ≡ true }
    requires region { region ≤ shape.regions }
    requires offset { offset < copied_words shape region }
    ensures from { result.from
        ≡ read_place_of (record { shape = shape; mask = sources }) region offset }
    ensures to { result.to.items ≡ written_places_of (record { shape = shape; mask = sources })
        (record { shape = shape; mask = mask }) region offset }
{
    let source = View {
        shape,
        mask: sources,
    };
    let fresh = View { shape, mask };
    copy_of(&source, &fresh, region, offset)
}

// The word that is copied after this one: its region and its offset there.
fn word_after(shape: &Shape, region: u32, offset: u32) -> Option<(u32, u32)>
    requires region { region ≤ shape.now.regions }
    requires offset { offset < copied_words shape.now region }
    ensures value { result ≡ word_after shape.now region offset }
    ensures region { IfSome result (λ word. word.0 ≤ shape.now.regions) }
    ensures offset { IfSome result (λ word. word.1 < copied_words shape.now word.0) }
{
    // The sizes are read, so that they are known to be within their limits.
    prove!(shape.groups <= 256 && shape.blocks <= 64);
    let next = offset + 1;
    if next < copied_words(shape, region) {
        Some((region, next))
    } else if region < shape.regions {
        Some((region + 1, 0))
    } else {
        None
    }
}

// How many words of a region are copied.
fn copied_words(shape: &Shape, region: u32) -> u32
    ensures { result ≡ copied_words shape.now region }
{
    if region == 0 {
        24 * shape.groups
    } else {
        128 + 512 * shape.blocks
    }
}
