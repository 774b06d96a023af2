ghost use Rattle.std.specs.Prelude.{◌≡◌, ◌≢◌, ℕ, ◌≤◌, length};
ghost use Rattle.outside.specs.Faults.{IsSteady, Rose};
ghost use Rattle.outside.specs.Sink.{IsFault, IsWithinPiece, Takes};
ghost use Rattle.outside.specs.Source.{IsWithinRoom, Reads};
ghost use Rattle.outside.specs.Std.{Counted, faults_after_read, faults_after_write};

use super::{Got, Sink, Source, Took};
use std::io::{ErrorKind, Read, Write};
use std::marker::Model;

/// How many times a read that was interrupted is tried again.
pub const TRIES_AGAIN: u32 = 16;

/// A source that passes on what a reader of std tells.
#[derive(Drop)]
pub struct StdSource<R> {
    reader: R,
    faults: u64,
}

impl<R> Model for StdSource<R> {
    ghost Value = { Counted R };

    ghost view = { λ s. record { end = s.reader; faults = s.faults } };
}

impl<R: Read> StdSource<R> {
    /// A source over this reader, with no fault so far.
    pub fn new(reader: R) -> StdSource<R>
        ensures { result ≡ record { end = reader; faults = 0 } }
    {
        StdSource { reader, faults: 0 }
    }
}

impl<R: Read> Source for StdSource<R> {
    ghost left = { λ s. R.remaining s.end };

    ghost faults = { λ s. s.faults };

    // What a reader of std will do is not known.
    ghost cannot_fail = { λ s. ⊥ };

    ghost not_spent = { λ s never. absurd never };

    fn read(&mut self, into: &mut [u8]) -> Got
        ensures count { IsWithinRoom result (length into.old) }
        ensures bytes { Reads (R.remaining self.old.end) (R.remaining self.new.end)
            result into.new }
        ensures later { self.old.faults ≤ self.new.faults }
        ensures cause { result ≡ Got.Failed → Rose self.old.faults self.new.faults }
        ensures steady { IsSteady (λ s. ⊥) (λ s. s.faults) self.old self.new }
        ensures counted { self.new.faults ≡ faults_after_read self.old.faults result }
    {
        for _ in 0..TRIES_AGAIN + 1 {
            match self.reader.read(into) {
                Ok(count) => {
                    if count == 0 && !into.is_empty() {
                        return Got::End;
                    }
                    return Got::Got(count);
                }
                Err(error) => {
                    if error.kind() != ErrorKind::Interrupted {
                        break;
                    }
                }
            }
        }
        self.faults = self.faults.saturating_add(1);
        Got::Failed
    }
}

/// A sink that passes on what a writer of std tells.
#[derive(Drop)]
pub struct StdSink<W> {
    writer: W,
    faults: u64,
}

impl<W> Model for StdSink<W> {
    ghost Value = { Counted W };

    ghost view = { λ s. record { end = s.writer; faults = s.faults } };
}

impl<W: Write> StdSink<W> {
    /// A sink over this writer, with no fault so far.
    pub fn new(writer: W) -> StdSink<W>
        ensures { result ≡ record { end = writer; faults = 0 } }
    {
        StdSink { writer, faults: 0 }
    }
}

impl<W: Write> Sink for StdSink<W> {
    ghost held = { λ s. W.contents s.end };

    ghost faults = { λ s. s.faults };

    // What a writer of std will do is not known.
    ghost cannot_fail = { λ s. ⊥ };

    ghost not_spent = { λ s never. absurd never };

    fn write(&mut self, bytes: &[u8]) -> Took
        ensures count { IsWithinPiece result (length bytes.now) }
        ensures bytes { Takes (W.contents self.old.end) (W.contents self.new.end) result bytes.now }
        ensures later { self.old.faults ≤ self.new.faults }
        ensures cause { IsFault result (length bytes.now) → Rose self.old.faults self.new.faults }
        ensures steady { IsSteady (λ s. ⊥) (λ s. s.faults) self.old self.new }
        ensures counted { self.new.faults
            ≡ faults_after_write self.old.faults result (length bytes.now) }
        ensures memory { result ≢ Took.NoMemory }
    {
        let result = self.writer.write(bytes);
        match result {
            Ok(count) => {
                if count == 0 && !bytes.is_empty() {
                    self.faults = self.faults.saturating_add(1);
                }
                Took::Took(count)
            }
            Err(_) => {
                self.faults = self.faults.saturating_add(1);
                Took::Failed
            }
        }
    }
}
