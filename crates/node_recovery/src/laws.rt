//! What holds of a settling over all its answers: the function does nothing, and its clause is the law.

ghost use Rattle.std.specs.Prelude.{◌≡◌, ℕ, List};
ghost use Rattle.machine.specs.Settling.{ReadPause, settling_of};
ghost use Rattle.node_recovery.specs.Asked.{WasAnswered, after_all};
ghost use Rattle.region_view.specs.Sizes.{Sizes};
ghost use Rattle.verb_words.specs.declared.verbs.Answer.{Answer};

/// Where a settling reads the pause word of a client, the begin word that it keeps was the answer when
/// it asked for that client's. So a not yet names a begin word that was read in this settling.
pub fn a_client_that_is_waited_for_was_asked()
    ensures { (sizes : Sizes) (stopped : ℕ) (answers : List Answer) (client begin : ℕ)
        → (after_all (settling_of sizes stopped) answers).phase ≡ ReadPause client begin
        → WasAnswered (settling_of sizes stopped) answers client begin }
{}
