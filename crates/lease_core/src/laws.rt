//! What holds of the definitions: each function does nothing, and its clauses are the laws.

ghost use Rattle.std.specs.Prelude.{◌≡◌, ◌≢◌, ℕ, ◌<◌, ◌≤◌, ◌↔◌, IsTrue, List, [], Ok, Err, Some, slice_get};
ghost use Rattle.std.specs.Int.{abs_diff};
ghost use Rattle.lease_core.specs.Claims.{IsAnswered, GoOn, IsTooEarly, WasGranted, is_accepted};
ghost use Rattle.lease_core.specs.Grammar.{events_from};
ghost use Rattle.lease_core.specs.LineTable.{AreLines, first_fault};
ghost use Rattle.lease_core.specs.Line.{client_clock, master_clock};
ghost use Rattle.lease_core.specs.Past.{answers_after};
ghost use Rattle.lease_core.specs.Run.{answers};
ghost use Rattle.lease_core.specs.Terms.{Agreed, AreTerms};
ghost use Rattle.lease_core.specs.declared.answering.LeaseAnswer.{LeaseAnswer};
ghost use Rattle.lease_core.specs.declared.answering.LeaseAnswer.TheVariants as told;
ghost use Rattle.lease_core.specs.declared.lease_lines.LeaseLine.{LeaseLine};
ghost use Rattle.lease_core.specs.declared.lease_lines.LeaseLine.TheVariants as event;
ghost use Rattle.lease_core.specs.declared.reading.LeaseKind.{LeaseKind};

/// The answers are those that the lines before each line and their answers tell: the clocks of the
/// last accepted lines, a client's asks in order and which of them were granted, when the last of its
/// granted leases is over, until when the leases that reached it last, and whether it was fenced.
pub fn answers_are_told_by_the_lines_before()
    ensures { (terms : Agreed) (lines : List LeaseLine) → AreTerms terms
        → answers terms lines ≡ answers_after terms [] lines }
{}

/// No verb of a client is lawful once the client is fenced.
pub fn no_lawful_verb_after_fencing()
    ensures { (terms : Agreed) (lines : List LeaseLine) (client fenced verb : ℕ) → AreTerms terms
        → slice_get (answers terms lines) fenced ≡ Some (told.Fenced client)
        → fenced < verb → slice_get (answers terms lines) verb ≢ Some (told.Lawful client) }
{}

/// Whoever begins to recover a client once it is fenced begins after the client's last lawful verb:
/// after it in the order of the events, and after it by the client's clock too, if the two clocks
/// differ then by no more than they may and the master's has not run back since.
pub fn recovery_begins_after_the_last_lawful_verb()
    ensures { (terms : Agreed) (lines : List LeaseLine) (client i j p m : ℕ) (fence verb : LeaseLine) → AreTerms terms
        → IsAnswered terms lines i fence (told.Fenced client) → IsAnswered terms lines j verb (told.Lawful client)
        → master_clock fence ≤ m → abs_diff p m ≤ terms.error
        → (j < i) × (client_clock verb < p) }
{}

/// A client is not fenced yet exactly where the master's clock is below an expiry that was granted to
/// it.
pub fn early_is_below_a_granted_expiry()
    ensures early { (terms : Agreed) (lines : List LeaseLine) (at client p m expiry : ℕ)
        → IsAnswered terms lines at (event.Fence client p m) (told.Early client expiry)
        → IsTooEarly terms lines at client m expiry }
    ensures granted { (terms : Agreed) (lines : List LeaseLine) (at client p m expiry : ℕ) (answer : LeaseAnswer)
        → IsAnswered terms lines at (event.Fence client p m) answer → IsTrue (is_accepted answer)
        → WasGranted terms lines at client expiry → m < expiry
        → (last : ℕ) × (answer ≡ told.Early client last) }
{}

/// The clocks of accepted lines differ by no more than they may, and never run back.
pub fn accepted_clocks_go_on()
    ensures { (terms : Agreed) (lines : List LeaseLine) (i j : ℕ) (first second : LeaseLine) (a b : LeaseAnswer)
        → IsAnswered terms lines i first a → IsAnswered terms lines j second b → i < j
        → IsTrue (is_accepted a) → IsTrue (is_accepted b) → GoOn terms first second }
{}

/// A text is read exactly where its lines are those of the table, and tell these events.
pub fn a_text_is_read_by_the_table()
    ensures { (lines : List (List ℕ)) (events : List LeaseLine)
        → (events_from 1 lines ≡ Ok events) ↔ AreLines lines events }
{}

/// A text is refused exactly where a line is bad, by its first bad line and what is first wrong with
/// it.
pub fn a_text_is_refused_by_its_first_fault()
    ensures { (lines : List (List ℕ)) (number : ℕ) (kind : LeaseKind)
        → (events_from 1 lines ≡ Err (number, kind)) ↔ (first_fault 1 lines ≡ Some (number, kind)) }
{}
