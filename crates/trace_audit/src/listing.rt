//! The list of the last history.

ghost use Rattle.std.specs.Prelude.{◌≡◌, ◌+◌, ◌≤◌, length, map, IfOk, OnOk, vec_len};
ghost use Rattle.trace_audit.specs.Listing.{entry_of};
ghost use Rattle.trace_audit.specs.Told.{history_of, list_after};

use script_text::{CallText, OutLine, ReplyText};
use std::alloc::{AllocError, Global};

/// An entry of the list, as its `h` line names it.
#[derive(Clone, Copy)]
pub struct Listed<'a> {
    pub client: u32,
    pub number: u32,
    pub call: &'a CallText,
    pub reply: &'a ReplyText,
    pub returned: bool,
}

/// The entries after the last `history` line.
pub fn last_history<'a>(alloc: Global, lines: &'a [OutLine]) -> Result<Vec<Listed<'a>>, AllocError>
    ensures entries { IfOk result (λ list. map entry_of list.items ≡ history_of lines.now) }
    ensures length { IfOk result (λ list. vec_len list ≤ length lines.now) }
{
    let mut list = Vec::new(alloc);
    for line in lines {
        note(&mut list, line)?;
    }
    Ok(list)
}

// The list after one more line.
fn note<'a>(list: &mut Vec<Listed<'a>>, line: &'a OutLine) -> Result<(), AllocError>
    ensures entries { OnOk result (map entry_of list.new.items ≡ list_after (map entry_of list.old.items) line.now) }
    ensures length { OnOk result (vec_len list.new ≤ vec_len list.old + 1) }
{
    match line {
        OutLine::History(_) => {
            list.clear();
            Ok(())
        }
        OutLine::Entry {
            client,
            number,
            call,
            reply,
            unreturned,
        } => {
            let entry = Listed {
                client: *client,
                number: *number,
                call,
                reply,
                returned: !*unreturned,
            };
            list.push(entry)?;
            Ok(())
        }
        _ => Ok(()),
    }
}
