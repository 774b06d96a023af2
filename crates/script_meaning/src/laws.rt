//! What holds of the definitions: each function does nothing, and its clause is the law.

ghost use Rattle.std.specs.Prelude.{◌≡◌, ◌+◌, ◌≤◌, Bool, length};
ghost use Rattle.machine_world.specs.Runs.{run, run_from};
ghost use Rattle.machine_world.specs.World.{World};
ghost use Rattle.script_meaning.specs.Examples.{first_output, first_script, smallest, stopped_output, stopped_script, three_nodes};
ghost use Rattle.script_meaning.specs.Lines.{meaning, verbs_at_most};
ghost use Rattle.script_meaning.specs.Scripts.{run_of, run_on, sizes_of};
ghost use Rattle.script_text.specs.declared.scripts.Line.{Line};
ghost use Rattle.script_text.specs.declared.scripts.Script.{Script};

/// A line is a list of events: the world after it is the one after these.
pub fn a_line_is_its_events()
    ensures { (shows : Bool) (world : World) (line : Line)
        → (meaning shows world line).world ≡ run_from world (meaning shows world line).events }
{}

/// So a script is a run of the machine.
pub fn a_script_is_a_run()
    ensures { (script : Script)
        → (run_of script).world ≡ run (sizes_of script.shape) (run_of script).events }
{}

/// A line is at most one event beside its verbs: as many as it says, or 2^32.
pub fn a_line_is_few_events()
    ensures { (shows : Bool) (world : World) (line : Line)
        → length (meaning shows world line).events ≤ verbs_at_most line + 1 }
{}

/// What the first script prints, computed: a put by its 18 verbs, and a get of what was put.
pub fn a_first_script_prints_this()
    ensures { (run_on smallest first_script).lines ≡ first_output }
{}

/// What is printed where a client stops before its last swap: the client that waits for it is told so,
/// and goes on after the recovery.
pub fn a_script_with_a_stop_prints_this()
    ensures { (run_on (three_nodes 2) stopped_script).lines ≡ stopped_output }
{}
