ghost use Rattle.std.specs.Prelude.{◌≡◌, slice_index_or, true};
ghost use Rattle.machine_world.specs.Ledger.{at_event};
ghost use Rattle.world_ledger.specs.Kept.{HasEntryRoom, has_rank, has_rank_if};
ghost use Rattle.world_ledger.specs.Returns.{with_done_of, with_entry_of, with_loss_of, with_returned, with_search_of};

use crate::decisions::{count_beaten, decision};
use crate::entries::Returned;
use crate::ledgers::Ledger;
use machine::client_call::Outcome;
use verb_history::Point;

impl Ledger {
    /// A call returns so, at this event. It comes into the history where it is not there yet: at
    /// its client's last read of a slot where it ended in its first search, directly before the
    /// winner where it was beaten, and else where it returns.
    pub fn enter_return(&mut self, returned: Returned, outcome: Outcome, event: u64)
        requires entry { HasEntryRoom self.old 1 }
        requires rank { has_rank_if self.old.ledger returned.beaten ≡ true }
        ensures ledger { self.new.ledger ≡ with_returned returned outcome event self.old.ledger }
        ensures rooms { self.new.rooms ≡ self.old.rooms }
    {
        match outcome {
            Outcome::Done => self.enter_done(returned, event),
            Outcome::Value => self.enter_search(returned),
            Outcome::Absent => self.enter_search(returned),
            Outcome::Full => self.enter(returned, at_event(event)),
            Outcome::NoSpace { .. } => self.enter(returned, at_event(event)),
        }
    }

    fn enter_done(&mut self, returned: Returned, event: u64)
        requires entry { HasEntryRoom self.old 1 }
        requires rank { has_rank_if self.old.ledger returned.beaten ≡ true }
        ensures ledger { self.new.ledger ≡ with_done_of returned event self.old.ledger }
        ensures rooms { self.new.rooms ≡ self.old.rooms }
    {
        if returned.object == 0 {
            return self.enter_search(returned);
        }
        match returned.beaten {
            Some((slot, version)) => self.enter_loss(returned, event, slot, version),
            None => {}
        }
    }

    fn enter_search(&mut self, returned: Returned)
        requires { HasEntryRoom self.old 1 }
        ensures ledger { self.new.ledger ≡ with_search_of returned self.old.ledger }
        ensures rooms { self.new.rooms ≡ self.old.rooms }
    {
        let at = at_event(self.last_read(returned.caller.client));
        self.enter(returned, at);
    }

    fn enter_loss(&mut self, returned: Returned, event: u64, slot: u32, version: u64)
        requires entry { HasEntryRoom self.old 1 }
        requires rank { has_rank self.old.ledger (slot, version) ≡ true }
        ensures ledger { self.new.ledger ≡ with_loss_of returned event (slot, version) self.old.ledger }
        ensures rooms { self.new.rooms ≡ self.old.rooms }
    {
        match decision(&self.decided, slot, version) {
            Some(winner) => {
                let at = Point {
                    event: winner.event,
                    slot,
                    rank: winner.beaten,
                };
                count_beaten(&mut self.decided, slot, version, winner);
                self.enter(returned, at);
            }
            None => self.enter(returned, at_event(event)),
        }
    }

    fn enter(&mut self, returned: Returned, at: Point)
        requires { HasEntryRoom self.old 1 }
        ensures ledger { self.new.ledger ≡ with_entry_of returned at self.old.ledger }
        ensures rooms { self.new.rooms ≡ self.old.rooms }
    {
        let Returned { caller, reply, .. } = returned;
        self.points.enter_reserved(caller.replied(reply), at);
    }

    // The event of a client's last read of a slot.
    fn last_read(&self, client: u32) -> u64
        ensures { result ≡ slice_index_or self.now.ledger.reads client 0 }
    {
        if (client as usize) < self.reads.len() {
            self.reads[client as usize]
        } else {
            0
        }
    }
}

fn at_event(event: u64) -> Point
    ensures { result ≡ at_event event }
{
    Point {
        event,
        slot: 0,
        rank: 0,
    }
}
