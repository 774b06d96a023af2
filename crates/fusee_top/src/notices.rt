ghost use Rattle.std.specs.Prelude.{◌≡◌, ◌++◌, OnOk};
ghost use Rattle.std.specs.Fmt.{decimal};
ghost use Rattle.outside.specs.Faults.{IsSteady};
ghost use Rattle.fusee_top.specs.Course.{Concludes, sink_course};
ghost use Rattle.fusee_top.specs.Notices.{ended, kind_name, notice_status, notice_text};

use outside::Sink;
use script_run::{Unwritten, write_all};
use script_text::BadKind;
use std::alloc::{AllocError, Global};

/// All lines were written, and the input was read to its end.
pub const DONE: u8 = 0;
/// The words are no command.
pub const USAGE: u8 = 2;
/// A line of the input is bad.
pub const BAD_LINE: u8 = 3;
/// A read failed.
pub const READ_FAULT: u8 = 4;
/// A write failed.
pub const WRITE_FAULT: u8 = 5;
/// Memory was wanting.
pub const NO_MEMORY: u8 = 6;
/// The input or its shape is too large.
pub const TOO_LARGE: u8 = 7;

/// What is written in place of a run: one line.
#[derive(Clone, Copy, Debug, PartialEq, Eq)]
pub enum Notice {
    Usage,
    ReadFault,
    /// So many bytes were given, or so many words would be needed.
    TooLarge(u64),
    /// The first bad line, and what is wrong with it.
    BadLine { number: u32, kind: BadKind },
}

/// Writes the notice, and answers its status.
pub fn write_notice<K: Sink>(alloc: Global, notice: Notice, sink: &mut K) -> u8
    ensures ends { Concludes (sink_course K.held K.faults sink.old sink.new)
        (notice_text notice) (notice_status notice) result }
    ensures steady { IsSteady K.cannot_fail K.faults sink.old sink.new }
{
    let mut text = Vec::new(alloc);
    if push_notice(&mut text, notice).is_err() {
        return NO_MEMORY;
    }
    ended(write_all(&text, sink), status_of(notice))
}

fn push_notice(into: &mut Vec<u8>, notice: Notice) -> Result<(), AllocError>
    ensures { OnOk result (into.new.items ≡ into.old.items ++ notice_text notice) }
{
    match notice {
        Notice::Usage => into.extend_from_slice(b"usage")?,
        Notice::ReadFault => into.extend_from_slice(b"read fault")?,
        Notice::TooLarge(count) => {
            into.extend_from_slice(b"too large ")?;
            push_number(into, count)?;
        }
        Notice::BadLine { number, kind } => {
            into.extend_from_slice(b"bad line ")?;
            push_number(into, u64::from(number))?;
            into.push(b' ')?;
            push_kind(into, kind)?;
        }
    }
    into.push(b'\n')?;
    Ok(())
}

fn push_kind(into: &mut Vec<u8>, kind: BadKind) -> Result<(), AllocError>
    ensures { OnOk result (into.new.items ≡ into.old.items ++ kind_name kind) }
{
    match kind {
        BadKind::Byte => into.extend_from_slice(b"Byte"),
        BadKind::NoShape => into.extend_from_slice(b"NoShape"),
        BadKind::Word => into.extend_from_slice(b"Word"),
        BadKind::Count => into.extend_from_slice(b"Count"),
        BadKind::Number => into.extend_from_slice(b"Number"),
        BadKind::Hex => into.extend_from_slice(b"Hex"),
        BadKind::Shape => into.extend_from_slice(b"Shape"),
        BadKind::Block => into.extend_from_slice(b"Block"),
    }
}

/// Appends a number in decimal.
pub fn push_number(into: &mut Vec<u8>, number: u64) -> Result<(), AllocError>
    ensures { OnOk result (into.new.items ≡ into.old.items ++ decimal number) }
{
    let digits = number.to_string(*into.allocator())?;
    into.extend_from_slice(digits.as_bytes())
}

fn status_of(notice: Notice) -> u8
    ensures { result ≡ notice_status notice }
{
    match notice {
        Notice::Usage => USAGE,
        Notice::ReadFault => READ_FAULT,
        Notice::TooLarge(_) => TOO_LARGE,
        Notice::BadLine { .. } => BAD_LINE,
    }
}

/// The status of what was to be written, unless the writing stopped.
pub fn ended(written: Result<(), Unwritten>, status: u8) -> u8
    ensures { result ≡ ended written status }
{
    match written {
        Ok(()) => status,
        Err(Unwritten::Fault) => WRITE_FAULT,
        Err(Unwritten::NoMemory) => NO_MEMORY,
    }
}
