//! The calls of a trace, read from its lines.

ghost use Rattle.std.specs.Prelude.{◌≡◌, ℕ, ◌+◌, ◌<◌, ◌≤◌, ◌^◌, List, [], ◌∷◌, ◌++◌, IfOk, OnOk, MatchBool, MatchOption, length};
ghost use Rattle.map_model.specs.Trace.{Moment, Invoked, Returned, Stopped};
ghost use Rattle.trace_audit.specs.Fits.{FitsAfter, HasReturned, IsCalled, IsStopped, MayCall, MayReturn};
ghost use Rattle.trace_audit.specs.Told.{call_of, moments_of, reply_of};
ghost use Rattle.trace_audit.specs.Traced.{IsRow, IsTold};

use crate::tables::{Row, Table, enter, look_up};
use script_text::{CallText, OutLine, ReplyText};
use std::alloc::{AllocError, Global};
use std::collections::{BTreeMap, BTreeSet};

/// The calls of the lines that were taken, all of which fit.
#[derive(Drop)]
pub struct Calls<'a> {
    pub table: Table<'a>,
    pub stopped: BTreeSet<u32>,
    /// The length of the trace.
    pub moments: u32,
}

impl<'a> Calls<'a> {
    pub fn new(alloc: Global) -> Calls<'a>
        ensures { IsTold [] result }
    {
        Calls {
            table: BTreeMap::new(alloc),
            stopped: BTreeSet::new(alloc),
            moments: 0,
        }
    }

    /// The row of a call.
    pub fn row(&self, client: u32, number: u32) -> Option<Row<'a>>
        ensures { (trace : List Moment) → IsTold trace self.now → MatchOption result (¬ IsCalled trace client number) (IsRow trace client number) }
    {
        look_up(&self.table, client, number)
    }

    fn is_stopped(&self, client: u32) -> bool
        ensures { (trace : List Moment) → IsTold trace self.now → MatchBool result (IsStopped trace client) (¬ IsStopped trace client) }
    {
        self.stopped.contains(&client)
    }

    fn is_called(&self, client: u32, number: u32) -> bool
        ensures { (trace : List Moment) → IsTold trace self.now → MatchBool result (IsCalled trace client number) (¬ IsCalled trace client number) }
    {
        match self.row(client, number) {
            Some(_) => true,
            None => false,
        }
    }

    fn has_returned(&self, client: u32, number: u32) -> bool
        ensures { (trace : List Moment) → IsTold trace self.now → MatchBool result (HasReturned trace client number) (¬ HasReturned trace client number) }
    {
        match self.row(client, number) {
            Some(row) => match row.returned {
                Some(_) => true,
                None => false,
            },
            None => false,
        }
    }

    // Whether the client may make its call of this number now.
    fn may_call(&self, client: u32, number: u32) -> bool
        ensures { (trace : List Moment) → IsTold trace self.now → MatchBool result (MayCall trace client number) (¬ MayCall trace client number) }
    {
        if self.is_stopped(client) {
            return false;
        }
        if number == 0 {
            return false;
        }
        if self.is_called(client, number) {
            return false;
        }
        if number == 1 {
            return true;
        }
        self.has_returned(client, number - 1)
    }

    // The row of the call, where it may return now.
    fn open_row(&self, client: u32, number: u32) -> Option<Row<'a>>
        ensures { (trace : List Moment) → IsTold trace self.now → MatchOption result (¬ MayReturn trace client number) (λ row. MayReturn trace client number × IsRow trace client number row) }
    {
        if self.is_stopped(client) {
            return None;
        }
        match self.row(client, number) {
            Some(row) => {
                if row.returned.is_some() {
                    return None;
                }
                Some(row)
            }
            None => None,
        }
    }

    fn called(&mut self, client: u32, number: u32, call: &'a CallText) -> Result<bool, AllocError>
        requires { self.old.moments + 1 < 2 ^ 32 }
        ensures told { IfOk result (λ fits. (trace : List Moment) → IsTold trace self.old →
            MatchBool fits (MayCall trace client number × IsTold (trace ++ Invoked client number (call_of call.now) ∷ []) self.new) (¬ MayCall trace client number)) }
        ensures moments { OnOk result (self.new.moments ≤ self.old.moments + 1) }
    {
        if !self.may_call(client, number) {
            return Ok(false);
        }
        let row = Row {
            call,
            invoked: self.moments,
            returned: None,
        };
        enter(&mut self.table, client, number, row)?;
        self.moments += 1;
        Ok(true)
    }

    fn ended(&mut self, client: u32, number: u32, reply: &'a ReplyText) -> Result<bool, AllocError>
        requires { self.old.moments + 1 < 2 ^ 32 }
        ensures told { IfOk result (λ fits. (trace : List Moment) → IsTold trace self.old →
            MatchBool fits (MayReturn trace client number × IsTold (trace ++ Returned client number (reply_of reply.now) ∷ []) self.new) (¬ MayReturn trace client number)) }
        ensures moments { OnOk result (self.new.moments ≤ self.old.moments + 1) }
    {
        let Some(row) = self.open_row(client, number) else {
            return Ok(false);
        };
        let row = Row {
            call: row.call,
            invoked: row.invoked,
            returned: Some((self.moments, reply)),
        };
        enter(&mut self.table, client, number, row)?;
        self.moments += 1;
        Ok(true)
    }

    fn stop(&mut self, client: u32) -> Result<(), AllocError>
        requires { self.old.moments + 1 < 2 ^ 32 }
        ensures told { OnOk result ((trace : List Moment) → IsTold trace self.old → IsTold (trace ++ Stopped client ∷ []) self.new) }
        ensures moments { OnOk result (self.new.moments ≤ self.old.moments + 1) }
    {
        self.stopped.insert(client)?;
        self.moments += 1;
        Ok(())
    }

    /// Takes the next line, where it fits.
    pub fn take(&mut self, line: &'a OutLine) -> Result<bool, AllocError>
        requires { self.old.moments + 1 < 2 ^ 32 }
        ensures told { IfOk result (λ fits. (trace : List Moment) → IsTold trace self.old →
            MatchBool fits (FitsAfter trace line.now × IsTold (trace ++ moments_of line.now) self.new) (¬ FitsAfter trace line.now)) }
        ensures moments { OnOk result (self.new.moments ≤ self.old.moments + 1) }
    {
        match line {
            OutLine::Called {
                client,
                number,
                call,
            } => self.called(*client, *number, call),
            OutLine::Ended {
                client,
                number,
                reply,
            } => self.ended(*client, *number, reply),
            OutLine::Stopped(client) => {
                self.stop(*client)?;
                Ok(true)
            }
            _ => Ok(true),
        }
    }
}
