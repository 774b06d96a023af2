//! Tables by client and call number.

ghost use Rattle.std.specs.Prelude.{◌≡◌, ℕ, ◌==◌, ◌&&◌, ◌||◌, Some, OnOk, if◌then◌else◌};
ghost use Rattle.trace_audit.specs.Tables.{call_row, is_listed};

use script_text::{CallText, ReplyText};
use std::alloc::AllocError;
use std::collections::{BTreeMap, BTreeSet};

/// What the lines tell of one call. Times are places in the trace.
#[derive(Clone, Copy)]
pub struct Row<'a> {
    pub call: &'a CallText,
    pub invoked: u32,
    /// When the call returned, and with which reply.
    pub returned: Option<(u32, &'a ReplyText)>,
}

/// The calls of a trace by client and number.
pub type Table<'a> = BTreeMap<(u32, u32), Row<'a>>;

/// Some calls, named by client and number.
pub type Names = BTreeSet<(u32, u32)>;

pub fn look_up<'a>(table: &Table<'a>, client: u32, number: u32) -> Option<Row<'a>>
    ensures { result ≡ call_row table.now client number }
{
    table.get(&(client, number)).copied()
}

pub fn enter<'a>(
    table: &mut Table<'a>,
    client: u32,
    number: u32,
    row: Row<'a>,
) -> Result<(), AllocError>
    ensures { OnOk result ((c n : ℕ) → call_row table.new c n ≡ (if (c == client) && (n == number) then Some row.entry else call_row table.old c n)) }
{
    table.insert((client, number), row)?;
    Ok(())
}

pub fn is_named(names: &Names, client: u32, number: u32) -> bool
    ensures { result ≡ is_listed names.now client number }
{
    names.contains(&(client, number))
}

pub fn add_name(names: &mut Names, client: u32, number: u32) -> Result<(), AllocError>
    ensures { OnOk result ((c n : ℕ) → is_listed names.new c n ≡ (((c == client) && (n == number)) || is_listed names.old c n)) }
{
    names.insert((client, number))?;
    Ok(())
}
