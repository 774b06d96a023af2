//! What holds of choosings and of the clients that choose, as they are defined: each function does
//! nothing, and its clauses are the law.

ghost use Rattle.std.specs.Prelude.{◌≡◌, ◌<◌, ◌*◌, ◌++◌, ◌∷◌, ◌⊎◌, [], ℕ, List};
ghost use Rattle.machine.specs.Choosing.{IsChoosing, turn};
ghost use Rattle.machine.specs.EpochRead.{IsView};
ghost use Rattle.machine.specs.Stock.{Stock};
ghost use Rattle.machine.specs.declared.choosing.Took.TheVariants.{NoSpace};
ghost use Rattle.object_alloc.specs.Passed.{IsOwnAt, WasPassed, after_all};
ghost use Rattle.object_division.specs.Allowed.{IsAllowed};
ghost use Rattle.object_division.specs.Claims.{HasGrace, HoldsAlong};
ghost use Rattle.object_division.specs.Run.{Event, opening};
ghost use Rattle.region_view.specs.Placed.{Viewed};
ghost use Rattle.verb_words.specs.declared.verbs.Answer.{Answer};

/// Where a choosing tells that no object is left, each block of the pool is the client's own, or a
/// word that was read in this choosing passed it over. The start is any stock that stands at the
/// first block: the one with which the choosing began, or the one after the reserve's head was
/// written, at which it begins anew.
pub fn no_space_passes_every_block()
    ensures { (view : Viewed) (client class : ℕ) (start : Stock) (answers : List Answer)
        (answer : Answer) → IsChoosing view client class start → start.position ≡ 0
        → (of awaited begin : ℕ)
        → (turn (after_all start answers) answer).told ≡ NoSpace of awaited begin
        → (number : ℕ) → number < view.shape.regions * view.shape.blocks
        → IsOwnAt (turn (after_all start answers) answer).state number
        ⊎ WasPassed start (answers ++ answer ∷ []) number }
{}

/// Any number of clients choose objects, take them, name them and give them back, verb by verb in any
/// order, over the opening words, with a fixed mask under which each region has a replica, and with no
/// node lost. A client does this only inside its calls, and ends no call in the middle of a change of a
/// bit. It takes what its last choosing of a class gave, once, and then makes the next reserve its
/// reserve, before anything else. Between calls it may retire for good; its blocks are released then, on
/// the backups first and on the primary last.
///
/// After each step each block that a client has gained, and whose release has not begun, is owned by it
/// on every replica; so each block has one owner. Each object of a granted block is in stock, or was
/// taken by one client and has not been given back. A client's reserve, in a block whose release has not
/// begun, is in stock on every replica, except while it is what the client's choosing gave; and no other
/// client takes it. No add sets a set bit or clears a clear one, on any replica.
///
/// And an object that was taken while a client was inside a call is not taken anew before that client's
/// begin word has changed, except by that client itself.
pub fn divided()
    ensures holds { (view : Viewed) (events : List Event) → IsView view
        → IsAllowed (opening view) events → HoldsAlong (opening view) events }
    ensures grace { (view : Viewed) → IsView view → HasGrace (opening view) }
{}
