ghost use Rattle.std.specs.Prelude.{◌≡◌, ◌≢◌, ℕ, ◌≤◌, ◌<◌, ◌-◌, ◌^◌, ◌⊎◌, List, [], MatchBool, length, drop, vec_len, Some};
ghost use Rattle.outside.specs.Faults.{IsSteady, Rose};
ghost use Rattle.outside.specs.Memory.{SinkCannotFail, SourceCannotFail, Store, Supply, after_read, after_write, answer_of, is_failing};
ghost use Rattle.outside.specs.Sink.{IsFault, IsWithinPiece, Takes};
ghost use Rattle.outside.specs.Source.{IsWithinRoom, Reads};

use super::{Got, Sink, Source, Took};
use std::alloc::Global;
use std::marker::Model;

/// A source over bytes in memory, of which chosen reads fail.
#[derive(Drop)]
pub struct MemorySource {
    bytes: Vec<u8>,
    at: usize,
    piece: usize,
    fails: Vec<u64>,
    calls: u64,
    faults: u64,
}

impl Model for MemorySource {
    ghost Value = { Supply };

    ghost view = { λ s. record {
      left = drop s.at s.bytes.items;
      piece = s.piece;
      fails = s.fails.items;
      calls = s.calls;
      faults = s.faults;
    } };

    ghost invariant = { λ s. (0 < s.piece) × (s.at ≤ vec_len s.bytes) };
}

impl MemorySource {
    /// A source of these bytes that gives at most `piece` of them in one read. Its n-th read,
    /// counted from 0, fails exactly where n is in `fails`.
    pub fn new(bytes: Vec<u8>, piece: usize, fails: Vec<u64>) -> MemorySource
        requires { 1 ≤ piece }
        ensures { result ≡ record {
          left = bytes.items;
          piece = piece;
          fails = fails.items;
          calls = 0;
          faults = 0;
        } }
    {
        MemorySource {
            bytes,
            at: 0,
            piece,
            fails,
            calls: 0,
            faults: 0,
        }
    }
}

impl Source for MemorySource {
    ghost left = { λ s. Some s.left };

    ghost faults = { λ s. s.faults };

    ghost cannot_fail = { SourceCannotFail };

    ghost not_spent = { λ s steady. steady.1 };

    fn read(&mut self, into: &mut [u8]) -> Got
        ensures count { IsWithinRoom result (length into.old) }
        ensures bytes { Reads (Some self.old.left) (Some self.new.left) result into.new }
        ensures later { self.old.faults ≤ self.new.faults }
        ensures cause { result ≡ Got.Failed → Rose self.old.faults self.new.faults }
        ensures steady { IsSteady SourceCannotFail (λ s. s.faults) self.old self.new }
        ensures answer { result ≡ answer_of self.old (length into.old) }
        ensures after { self.new ≡ after_read self.old (length into.old) }
    {
        let fails = is_among(&self.fails, self.calls);
        self.calls = self.calls.saturating_add(1);
        if fails {
            self.faults = self.faults.saturating_add(1);
            return Got::Failed;
        }
        let left = self.bytes.len() - self.at;
        if left == 0 && !into.is_empty() {
            return Got::End;
        }
        let count = self.piece.min(into.len()).min(left);
        into[..count].copy_from_slice(&self.bytes[self.at..self.at + count]);
        self.at += count;
        Got::Got(count)
    }
}

/// A sink in memory, of which chosen writes fail.
#[derive(Drop)]
pub struct MemorySink {
    bytes: Vec<u8>,
    fails: Vec<u64>,
    calls: u64,
    faults: u64,
}

impl Model for MemorySink {
    ghost Value = { Store };

    ghost view = { λ s. record {
      held = s.bytes.items;
      fails = s.fails.items;
      calls = s.calls;
      faults = s.faults;
    } };
}

impl MemorySink {
    /// An empty sink. Its n-th write, counted from 0, fails exactly where n is in `fails`.
    pub fn new(alloc: Global, fails: Vec<u64>) -> MemorySink
        ensures { result ≡ record { held = []; fails = fails.items; calls = 0; faults = 0 } }
    {
        MemorySink {
            bytes: Vec::new(alloc),
            fails,
            calls: 0,
            faults: 0,
        }
    }

    /// What it holds.
    pub fn bytes(&self) -> &[u8]
        ensures { result.now ≡ self.now.held }
    {
        self.bytes.as_slice()
    }
}

impl Sink for MemorySink {
    ghost held = { λ s. Some s.held };

    ghost faults = { λ s. s.faults };

    ghost cannot_fail = { SinkCannotFail };

    ghost not_spent = { λ s steady. steady.1 };

    fn write(&mut self, bytes: &[u8]) -> Took
        ensures count { IsWithinPiece result (length bytes.now) }
        ensures bytes { Takes (Some self.old.held) (Some self.new.held) result bytes.now }
        ensures later { self.old.faults ≤ self.new.faults }
        ensures cause { IsFault result (length bytes.now) → Rose self.old.faults self.new.faults }
        ensures steady { IsSteady SinkCannotFail (λ s. s.faults) self.old self.new }
        ensures answer { MatchBool (is_failing self.old.fails self.old.calls)
            (result ≡ Took.Failed)
            ((result ≡ Took.Took (length bytes.now)) ⊎ (result ≡ Took.NoMemory)) }
        ensures after { result ≢ Took.NoMemory → self.new ≡ after_write self.old bytes.now }
    {
        let fails = is_among(&self.fails, self.calls);
        self.calls = self.calls.saturating_add(1);
        if fails {
            self.faults = self.faults.saturating_add(1);
            return Took::Failed;
        }
        if self.bytes.extend_from_slice(bytes).is_err() {
            return Took::NoMemory;
        }
        Took::Took(bytes.len())
    }
}

fn is_among(numbers: &[u64], number: u64) -> bool
    ensures { result ≡ is_failing numbers.now number }
{
    numbers.iter().any(|n| *n == number)
}
