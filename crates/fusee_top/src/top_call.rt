ghost use Rattle.std.specs.Prelude.{◌≡◌, ℕ, ◌⊎◌, ◌≤◌, List, Some, None, false, map};
ghost use Rattle.std.specs.String.{string_bytes};
ghost use Rattle.outside.specs.Faults.{IsSteady, Rose};
ghost use Rattle.fusee_top.specs.Course.{EndsIn, ReadFailed, WriteFailed, Wrote, sink_course, source_course};
ghost use Rattle.fusee_top.specs.Offline.{Answers, HasBadLine, HasReadFault, HasUsage, IsAccepted, IsStatus, IsTooLarge, LeavesFront, RanAudit, RanLeases, RanScript, input_status};
ghost use Rattle.fusee_top.specs.Words.{command_of, is_reading};
ghost use Rattle.fusee_top.specs.declared.commands.Command.{Command};
ghost use Rattle.fusee_top.specs.declared.commands.Command.TheVariants as command;
ghost use Rattle.lease_core.specs.Terms.{Agreed};
ghost use Rattle.sim_meaning.specs.Summary.{rendered};
ghost use Rattle.sim_meaning.specs.declared.numbers.Numbers.{Numbers};

use crate::commands::{Command, carry_out, command_of};
use crate::notices::{NO_MEMORY, Notice, write_notice};
use crate::options::Misread;
use crate::reading::{Input, LIMIT, read_all};
use crate::simulations::run_simulation;
use outside::{Sink, Source};
use std::alloc::Global;

/// Carries out the command that the words name, over a source and a sink, and answers the status.
///
/// `script` reads a script to its end, runs it, and writes what it prints. `audit` reads such an
/// output to its end, and tells whether its last history is a history of one map. `leases`, with the
/// options `--length` and `--error`, reads lease lines to their end, and answers each. `sim`, with
/// the options `--seed`, `--clients`, `--calls`, `--stops` and `--losses`, reads nothing, and writes
/// the summary of the simulation that these numbers are. Any other word, `run`, `export`, `import`
/// and `ring` among them, is no command here. A status whose text
/// could not be written gives way to 5 where a write failed, and to 6 where memory was wanting; of
/// that text the sink then holds a front.
pub fn offline<S: Source, K: Sink>(
    alloc: Global,
    words: &[String],
    source: &mut S,
    sink: &mut K,
) -> u8
    // 0: the source was read to its end, and the sink grew by the text of the command.
    ensures script { result ≡ 0 → command_of (map string_bytes words.now) ≡ Some command.Script
        → RanScript (source_course S.left S.faults source.old source.new)
        (sink_course K.held K.faults sink.old sink.new) }
    ensures audit { result ≡ 0 → command_of (map string_bytes words.now) ≡ Some command.Audit
        → RanAudit (source_course S.left S.faults source.old source.new)
        (sink_course K.held K.faults sink.old sink.new) }
    ensures leases { result ≡ 0 → (terms : Agreed)
        → command_of (map string_bytes words.now) ≡ Some (command.Leases terms)
        → RanLeases terms (source_course S.left S.faults source.old source.new)
        (sink_course K.held K.faults sink.old sink.new) }
    ensures sim { result ≡ 0 → (numbers : Numbers)
        → command_of (map string_bytes words.now) ≡ Some (command.Sim numbers)
        → Wrote (sink_course K.held K.faults sink.old sink.new) (rendered numbers) }
    // Words that name no command that reads leave the source as it is.
    ensures unread { is_reading (command_of (map string_bytes words.now)) ≡ false
        → source.new ≡ source.old }
    // 2: exactly where the words are no command.
    ensures usage { result ≡ 2 → HasUsage (command_of (map string_bytes words.now))
        (sink_course K.held K.faults sink.old sink.new) }
    ensures only_usage { command_of (map string_bytes words.now) ≡ None → EndsIn 2 result }
    // 3: exactly where the input, read to its end and within size, has a bad line; the text names
    // the first.
    ensures bad_line { result ≡ 3 → HasBadLine (command_of (map string_bytes words.now))
        (source_course S.left S.faults source.old source.new)
        (sink_course K.held K.faults sink.old sink.new) }
    // 4: only where a read failed.
    ensures read_fault { result ≡ 4 → HasReadFault
        (source_course S.left S.faults source.old source.new)
        (sink_course K.held K.faults sink.old sink.new) }
    // 5: only where a write failed.
    ensures write_fault { result ≡ 5 → WriteFailed (sink_course K.held K.faults sink.old sink.new) }
    // 5 and 6: what the sink holds more than before is a front of the text of what was met.
    ensures front { (result ≡ 5) ⊎ (result ≡ 6) → LeavesFront (command_of (map string_bytes words.now))
        (source_course S.left S.faults source.old source.new)
        (sink_course K.held K.faults sink.old sink.new) }
    // 7: exactly where more bytes were given than an input may have, and no read failed before, or
    // the script asks for more words than there may be.
    ensures too_large { result ≡ 7 → IsTooLarge (command_of (map string_bytes words.now))
        (source_course S.left S.faults source.old source.new)
        (sink_course K.held K.faults sink.old sink.new) }
    // Where no read failed, the input alone decides among 0, 3 and 7.
    ensures decided { (command : Command) (input : List ℕ)
        → command_of (map string_bytes words.now) ≡ Some command
        → S.left source.old ≡ Some input → ¬ Rose (S.faults source.old) (S.faults source.new)
        → EndsIn (input_status command input) result }
    // An input that is accepted is carried out, where no end fails and memory is there.
    ensures complete { (command : Command) (input : List ℕ)
        → command_of (map string_bytes words.now) ≡ Some command
        → S.left source.old ≡ Some input → IsAccepted command input
        → ¬ Rose (S.faults source.old) (S.faults source.new)
        → ¬ Rose (K.faults sink.old) (K.faults sink.new)
        → (result ≡ 0) ⊎ (result ≡ 6) }
    ensures numbers { IsStatus result }
    // What the sink holds, whatever the status is.
    ensures answer { Answers (command_of (map string_bytes words.now))
        (source_course S.left S.faults source.old source.new)
        (sink_course K.held K.faults sink.old sink.new) result }
    // Over ends that can't fail no count rises.
    ensures sure_source { S.cannot_fail source.old
        → ¬ Rose (S.faults source.old) (S.faults source.new) }
    ensures sure_sink { K.cannot_fail sink.old
        → ¬ Rose (K.faults sink.old) (K.faults sink.new) }
{
    conduct(alloc, words, source, sink)
}

fn conduct<S: Source, K: Sink>(alloc: Global, words: &[String], source: &mut S, sink: &mut K) -> u8
    ensures answer { Answers (command_of (map string_bytes words.now))
        (source_course S.left S.faults source.old source.new)
        (sink_course K.held K.faults sink.old sink.new) result }
    ensures unread { is_reading (command_of (map string_bytes words.now)) ≡ false
        → source.new ≡ source.old }
    ensures steady_source { IsSteady S.cannot_fail S.faults source.old source.new }
    ensures steady_sink { IsSteady K.cannot_fail K.faults sink.old sink.new }
{
    let command = match command_of(alloc, words) {
        Ok(command) => command,
        Err(Misread::Form) => return write_notice(alloc, Notice::Usage, sink),
        Err(Misread::NoMemory) => return NO_MEMORY,
    };
    if let Command::Sim(numbers) = command {
        return run_simulation(alloc, &numbers, sink);
    }
    match read_all(alloc, source) {
        Input::Whole(text) => carry_out(alloc, command, text.as_slice(), sink),
        Input::TooLarge => write_notice(alloc, Notice::TooLarge(LIMIT as u64 + 1), sink),
        Input::Failed => write_notice(alloc, Notice::ReadFault, sink),
        Input::NoMemory => NO_MEMORY,
    }
}
