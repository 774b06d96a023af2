//! What holds of every run of a pool's clients: each function does nothing, and its clause is the law.

ghost use Rattle.machine.specs.EpochRead.{IsView};
ghost use Rattle.object_division.specs.Claims.{HasGrace};
ghost use Rattle.object_division.specs.Run.{opening};
ghost use Rattle.region_view.specs.Placed.{Viewed};

/// An object that was taken while another client was inside a call is not taken anew before that
/// client's begin word has changed, whatever the clients do and however their steps are interleaved.
pub fn objects_are_taken_anew_after_grace()
    ensures { (view : Viewed) → IsView view → HasGrace (opening view) }
{}
