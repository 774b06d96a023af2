//! What is read of a client from outside: its present or last call, and what its next verb may bring.

ghost use Rattle.std.specs.Prelude.{◌≡◌, ◌<◌, ◌*◌, ◌==◌, IfSome, None, Some};
ghost use Rattle.std.specs.Option.{option_map_or};
ghost use Rattle.kv_ops.specs.Ahead.{is_ending, is_searching};
ghost use Rattle.kv_ops.specs.Stages.{operation_as};
ghost use Rattle.machine.specs.Client.{fresh_of};
ghost use Rattle.machine_world.specs.Ledger.{final_of, reads_slot};

use crate::actor::Actor;
use crate::calls::Operation;
use crate::stages::Stage;
use machine::client_call::Outcome;
use slot_order::finger;

impl Actor {
    /// What the last call does.
    pub fn operation(&self) -> Operation
        ensures { operation_as result ≡ self.now.operation }
    {
        self.caller.operation
    }

    /// The key of the last call.
    pub fn key(&self) -> &[u8]
        ensures { result.now ≡ self.now.key }
    {
        self.caller.key.as_slice()
    }

    /// The value that the last call puts; none where it is no put.
    pub fn written(&self) -> &[u8]
        ensures { result.now ≡ self.now.value }
    {
        self.caller.value.as_slice()
    }

    /// The pointer of the object that the last call has chosen; 0 before it has one.
    pub fn object(&self) -> u32
        ensures { result ≡ self.now.object }
    {
        self.caller.object
    }

    /// The class of the last call's object.
    pub fn class(&self) -> u8
        ensures { result ≡ self.now.class }
    {
        self.caller.class
    }

    /// How the call is to return, once it goes on to return.
    pub fn outcome(&self) -> Outcome
        ensures { result ≡ self.now.outcome }
    {
        self.caller.outcome
    }

    /// Whether the verb that is due may end the call.
    #[inline(always)]
    pub fn is_ending(&self) -> bool
        ensures { result ≡ is_ending self.now.stage }
    {
        match &self.caller.stage {
            Stage::End => true,
            _ => false,
        }
    }

    /// Whether the verb that is due is one of the search for a key.
    #[inline(always)]
    pub fn is_searching(&self) -> bool
        ensures { result ≡ is_searching self.now.stage }
    {
        match &self.caller.stage {
            Stage::Seek(_) => true,
            Stage::Find(_) => true,
            _ => false,
        }
    }

    /// Whether the verb that is due reads a slot in a search.
    #[inline(always)]
    pub fn reads_slot(&self) -> bool
        ensures { result ≡ reads_slot self.now.stage }
    {
        match &self.caller.stage {
            Stage::Seek(search) => search.is_at_slot(),
            Stage::Find(search) => search.is_at_slot(),
            _ => false,
        }
    }

    /// The slot and the word that the verb that is due puts on the slot's primary, where a slot write
    /// has come so far.
    #[inline(always)]
    pub fn final_swap(&self) -> Option<(u32, u64)>
        ensures swap { result ≡ option_map_or (λ write. Some (write.slot, write.fresh))
            (final_of self.now.stage) None }
        ensures slot { IfSome result (λ swap. swap.0 < 24 * self.now.shape.groups) }
    {
        match &self.caller.stage {
            Stage::WriteSlot {
                write,
                awaits: false,
            } if write.is_final() => Some((write.slot(), write.fresh())),
            _ => None,
        }
    }

    /// Whether the slot word is the one that names the last call's object for its key.
    pub fn is_fresh(&self, word: u64) -> bool
        ensures { result ≡ (fresh_of self.now == word) }
    {
        let class = self.caller.class;
        let object = self.caller.object;
        if class >= 16 {
            // So many units are more than a word has bits for.
            return false;
        }
        let finger = u128::from(finger(self.caller.key.as_slice()));
        let units = 1u128 << class;
        let named = (finger << 56) + (units << 48) + u128::from(object);
        named == u128::from(word)
    }
}
