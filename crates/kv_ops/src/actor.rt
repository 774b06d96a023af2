ghost use Rattle.std.specs.Prelude.{◌≡◌, ◌↔◌, ◌⊎◌, ℕ, ◌≤◌, Err, IfOk, OnOk, OnErr, [], length, true};
ghost use Rattle.kv_ops.specs.Ahead.{is_searching};
ghost use Rattle.kv_ops.specs.Causes.{IsRefused, Returns, StaysLost, StaysSealed, StaysUnchanged};
ghost use Rattle.kv_ops.specs.Invocations.{IsReason, IsRefusal};
ghost use Rattle.machine.specs.Client.{invoked, is_idle, next, turn};
ghost use Rattle.machine.specs.Places.{IsInPool};
ghost use Rattle.machine.specs.Stage.{Delete, Get, Put, first_client};
ghost use Rattle.machine.specs.declared.client_call.Before.{Before};
ghost use Rattle.machine.specs.declared.client_call.Outcome.{Outcome};
ghost use Rattle.machine.specs.declared.client_call.Step.TheVariants.{Ended, NotYet};
ghost use Rattle.verb_words.specs.Verb.{place_of};
ghost use Rattle.verb_words.specs.declared.verbs.Verb.TheVariants.{Read};
ghost use Rattle.verb_words.specs.declared.verbs.Why.TheVariants.{Lost, Sealed, Unchanged};

use crate::callers::Caller;
use crate::calls::Operation;
use crate::remembered::Remembered;
use crate::stages::Stage;
use arrayvec::ArrayVec;
use machine::client_call::{Before, Outcome, Step};
use object_alloc::Stock;
use region_view::Shape;
use std::alloc::{AllocError, Global};
use std::marker::Model;
use verb_words::{Answer, Place, Verb};

/// A client of the store with its present or last call, which is a get, a put or a delete.
///
/// A call is made, and then goes on by the verbs that `next` gives, each answered by `after`, until
/// that tells that the call ended.
#[derive(Drop)]
pub struct Actor {
    pub(crate) caller: Caller,
}

impl Model for Actor {
    ghost use Rattle.machine.specs.Stage.{Client};
    ghost use Rattle.kv_ops.specs.Callers.{client_of};
    ghost use Rattle.kv_ops.specs.Standings.{IsHeld};

    ghost Value = { Client };

    ghost view = { λ a. client_of a.caller };

    ghost invariant = { λ a. IsHeld (client_of a.caller) };
}

impl Actor {
    /// A client of this number, 1 to the clients of the shape, before its first call. It takes all
    /// of its memory here.
    pub fn new(alloc: Global, client: u32, shape: Shape) -> Result<Actor, AllocError>
        requires least { 1 ≤ client }
        requires most { client ≤ shape.clients }
        ensures { IfOk result (λ actor. actor ≡ first_client client shape) }
    {
        Ok(Actor {
            caller: Caller {
                shape,
                client,
                number: 0,
                stage: Stage::Idle,
                reading: None,
                body: None,
                operation: Operation::Get,
                key: ArrayVec::new(),
                value: ArrayVec::new(),
                mask: 0,
                class: 0,
                object: 0,
                reserve: 0,
                place: 0,
                expect: 0,
                version: 0,
                beaten: None,
                outcome: Outcome::Done,
                fetched: ArrayVec::new(),
                stock: Stock::new(alloc, client, shape)?,
                remembered: Remembered::new(),
            },
        })
    }

    /// Makes a call that gets the key's value.
    pub fn get(&mut self, key: &[u8]) -> Result<(), Before>
        requires idle { is_idle self.old ≡ true }
        ensures call { OnOk result (self.new ≡ invoked self.old Get key.now []) }
        ensures same { OnErr result (self.new ≡ self.old) }
        ensures refusal { IsRefusal self.old (length key.now) 0 result }
        ensures reason { (before : Before) → (result ≡ Err before)
            ↔ IsReason self.old (length key.now) 0 before }
    {
        self.caller.invoke(Operation::Get, key, &[])
    }

    /// Makes a call that puts the value for the key.
    pub fn put(&mut self, key: &[u8], value: &[u8]) -> Result<(), Before>
        requires idle { is_idle self.old ≡ true }
        ensures call { OnOk result (self.new ≡ invoked self.old Put key.now value.now) }
        ensures same { OnErr result (self.new ≡ self.old) }
        ensures refusal { IsRefusal self.old (length key.now) (length value.now) result }
        ensures reason { (before : Before) → (result ≡ Err before)
            ↔ IsReason self.old (length key.now) (length value.now) before }
    {
        self.caller.invoke(Operation::Put, key, value)
    }

    /// Makes a call that deletes the key's value.
    pub fn delete(&mut self, key: &[u8]) -> Result<(), Before>
        requires idle { is_idle self.old ≡ true }
        ensures call { OnOk result (self.new ≡ invoked self.old Delete key.now []) }
        ensures same { OnErr result (self.new ≡ self.old) }
        ensures refusal { IsRefusal self.old (length key.now) 0 result }
        ensures reason { (before : Before) → (result ≡ Err before)
            ↔ IsReason self.old (length key.now) 0 before }
    {
        self.caller.invoke(Operation::Delete, key, &[])
    }

    /// The verb that is due.
    #[inline(always)]
    pub fn next(&self) -> Verb
        ensures verb { result ≡ next self.now }
        ensures inside { IsInPool self.now.shape (place_of result) }
    {
        self.caller.next()
    }

    /// Takes the answer to the verb that was due, and tells what has come of the call.
    #[inline(always)]
    pub fn after(&mut self, answer: Answer) -> Step
        ensures state { self.new ≡ (turn self.old answer).state }
        ensures told { result ≡ (turn self.old answer).told }

        // Why it tells what it tells.
        ensures ended { (outcome : Outcome) → (result ≡ Ended outcome) ↔ Returns self.old answer outcome }
        ensures sealed { (word : ℕ) → (result ≡ NotYet (Sealed word)) ↔ StaysSealed self.old answer word }
        ensures lost { (node : ℕ) → (result ≡ NotYet (Lost node))
            ↔ (IsRefused self.old answer node ⊎ StaysLost self.old answer node) }
        ensures unchanged { (slot word : ℕ) → (result ≡ NotYet (Unchanged slot word))
            ↔ StaysUnchanged self.old answer slot word }
    {
        self.caller.after(answer)
    }

    /// The place of the word that a search reads next.
    #[inline(always)]
    pub fn place_to_read(&self) -> Place
        requires { is_searching self.now.stage ≡ true }
        ensures { Read result ≡ next self.now }
    {
        self.caller.place_to_read()
    }

    /// Takes the answer to a verb of a search, as `after` does.
    #[inline(always)]
    pub fn after_search(&mut self, answer: Answer) -> Step
        requires { is_searching self.old.stage ≡ true }
        ensures state { self.new ≡ (turn self.old answer).state }
        ensures told { result ≡ (turn self.old answer).told }
        ensures ended { (outcome : Outcome) → (result ≡ Ended outcome) ↔ Returns self.old answer outcome }
    {
        self.caller.after_search(answer)
    }

    /// Whether no call is open.
    pub fn is_idle(&self) -> bool
        ensures { result ≡ is_idle self.now }
    {
        self.caller.is_idle()
    }

    /// The number of the last call; 0 before the first.
    pub fn number(&self) -> u32
        ensures { result ≡ self.now.number }
    {
        self.caller.number
    }

    /// The slot and the version at which the last call was beaten; `None` where it was not.
    pub fn beaten(&self) -> Option<(u32, u64)>
        ensures { result ≡ self.now.beaten }
    {
        self.caller.beaten
    }

    /// The bytes that a get fetched, once it ended with a value.
    pub fn value(&self) -> &[u8]
        ensures { result.now ≡ self.now.fetched }
    {
        self.caller.fetched.as_slice()
    }

    /// The client's number.
    pub fn client(&self) -> u32
        ensures { result ≡ self.now.client }
    {
        self.caller.client
    }

    /// The sizes of its pool.
    pub fn shape(&self) -> Shape
        ensures { result ≡ self.now.shape }
    {
        self.caller.shape
    }
}
