//! Scripts in which something fails in the middle of a write.

ghost use Rattle.std.specs.Prelude.{◌≡◌, ◌≤◌, IfOk, string_bytes};
ghost use Rattle.sim_plan.specs.FaultScript.{clients_of, fault_script, faults_of, late_verb, loss, loss_while_copying, opening, stop, stop_and_loss, text_of, two_stops};

use std::alloc::{AllocError, Global};

/// A script in which something fails, of one of six kinds. Each begins with a put that is whole and
/// ends with a count. In between a client, or the master in kind 4, takes `first` verbs of a put or of
/// a task before the fault comes; in kind 3 a second writer takes `second` verbs.
///
/// - 0: the writer stops.
/// - 1: a node is lost.
/// - 2: the writer stops and a node is lost.
/// - 3: two writers of one key stop.
/// - 4: a second node is lost while words of the first are copied.
/// - 5: a node is lost, and the writer's next verb still reaches it.
pub fn fault_script(
    alloc: Global,
    kind: u32,
    first: u32,
    second: u32,
) -> Result<Vec<u8>, AllocError>
    requires { kind ≤ 5 }
    ensures { IfOk result (λ script. script.items ≡ fault_script kind first second) }
{
    let opening = opening(kind);
    let faults = faults(alloc, kind, first, second)?;
    let script = format!(in alloc; "{opening}{faults}count\n")?;
    Ok(script.into_bytes())
}

// The lines up to the first put.
fn opening(kind: u32) -> &'static str
    ensures { result.now ≡ text_of (opening (clients_of kind)) }
{
    if kind == 3 { OF_THREE } else { OF_TWO }
}

// How a script of two clients begins.
const OF_TWO: &str = "shape 3 3 1 2 1 2 10\nregister\nregister\nput 1 a 0\n";

// How a script of three clients begins.
const OF_THREE: &str = "shape 3 3 1 2 1 3 10\nregister\nregister\nregister\nput 1 a 0\n";

// The lines between the opening and the count.
fn faults(alloc: Global, kind: u32, first: u32, second: u32) -> Result<String, AllocError>
    requires { kind ≤ 5 }
    ensures { IfOk result (λ text. string_bytes text ≡ text_of (faults_of kind first second)) }
{
    match kind {
        0 => stop(alloc, first),
        1 => loss(alloc, first),
        2 => stop_and_loss(alloc, first),
        3 => two_stops(alloc, first, second),
        4 => loss_while_copying(alloc, first),
        5 => late_verb(alloc, first),
        _ => unreachable!(),
    }
}

// The lines of each kind, with the counts of verbs in their places.

fn stop(alloc: Global, verbs: u32) -> Result<String, AllocError>
    ensures { IfOk result (λ text. string_bytes text ≡ text_of (stop verbs)) }
{
    format!(in alloc;
        "call 1 put a 1\nstep 1 {verbs}\nstop 1\nput 2 a 2\nrecover 1\ngo 2\nget 2 a\n"
    )
}

fn loss(alloc: Global, verbs: u32) -> Result<String, AllocError>
    ensures { IfOk result (λ text. string_bytes text ≡ text_of (loss verbs)) }
{
    format!(in alloc;
        "call 1 put a 1\nstep 1 {verbs}\nlose 1\ngo 1\nsettle\ngo 1\nsettle\ngo 1\nget 2 a\n"
    )
}

fn stop_and_loss(alloc: Global, verbs: u32) -> Result<String, AllocError>
    ensures { IfOk result (λ text. string_bytes text ≡ text_of (stop_and_loss verbs)) }
{
    format!(in alloc;
        "call 1 put a 1\nstep 1 {verbs}\nstop 1\nlose 1\ncall 2 put a 2\n\
         go 2\nsettle\ngo 2\nsettle\ngo 2\nrecover 1\nget 2 a\n"
    )
}

fn two_stops(alloc: Global, verbs: u32, other_verbs: u32) -> Result<String, AllocError>
    ensures { IfOk result (λ text. string_bytes text ≡ text_of (two_stops verbs other_verbs)) }
{
    format!(in alloc;
        "call 1 put a 1\nstep 1 {verbs}\ncall 2 put a 2\nstep 2 {other_verbs}\nstop 1\nstop 2\n\
         recover 2\nrecover 1\nrecover 2\nrecover 1\nget 3 a\n"
    )
}

fn loss_while_copying(alloc: Global, verbs: u32) -> Result<String, AllocError>
    ensures { IfOk result (λ text. string_bytes text ≡ text_of (loss_while_copying verbs)) }
{
    format!(in alloc; "put 1 a 1\nlose 1\ntask settle\nwork {verbs}\nlose 2\nsettle\nget 1 a\n")
}

fn late_verb(alloc: Global, verbs: u32) -> Result<String, AllocError>
    ensures { IfOk result (λ text. string_bytes text ≡ text_of (late_verb verbs)) }
{
    format!(in alloc;
        "call 1 put a 1\nstep 1 {verbs}\nlose 1\nlate 1\ngo 1\nsettle\ngo 1\nsettle\ngo 1\nget 2 a\n"
    )
}
