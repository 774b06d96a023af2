//! The program: `fusee_run script` reads a script from standard input, and writes its trace and its
//! history to standard output. `fusee_run audit` reads such an output, and `fusee_run leases` lease
//! lines; `fusee_run sim` makes a run from numbers, and writes its summary.
#![tactic(auto)]

use fusee_top::offline;
use outside::{StdSink, StdSource};
use std::env;
use std::io::{BufWriter, ErrorKind, Write};
use std::process::ExitCode;

// The status of a write fault.
const WRITE_FAULT: u8 = 5;

// The status of want of memory.
const NO_MEMORY: u8 = 6;

// How many bytes are written at once.
const BUFFER: usize = 65_536;

fn main(rt: HostRuntime) -> ExitCode {
    let mut words = Vec::new(rt.alloc());
    match env::args(&rt) {
        // The first word is the program's name.
        Ok(args) => {
            for word in args.skip(1) {
                if words.push(word).is_err() {
                    return ExitCode::from(NO_MEMORY);
                }
            }
        }
        Err(error) => {
            if error.kind() == ErrorKind::OutOfMemory {
                return ExitCode::from(NO_MEMORY);
            }
            // A word that is no text is no command: no words are left, and that is told.
        }
    }
    let mut source = StdSource::new(rt.stdin());
    let Ok(mut writer) = BufWriter::with_capacity(rt.alloc(), BUFFER, rt.stdout()) else {
        return ExitCode::from(NO_MEMORY);
    };
    let mut sink = StdSink::new(&mut writer);
    let status = offline(rt.alloc(), &words, &mut source, &mut sink);
    // What is left in the buffer is written now, and a failure of that is one of a write.
    match writer.flush() {
        Ok(()) => ExitCode::from(status),
        Err(_) => ExitCode::from(WRITE_FAULT),
    }
}
