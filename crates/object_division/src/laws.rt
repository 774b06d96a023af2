//! What the steps of clients lead to: each function does nothing, and its clauses are the laws.

ghost use Rattle.std.specs.Int.{bit_at};
ghost use Rattle.std.specs.List.{Contains};
ghost use Rattle.std.specs.Prelude.{◌≡◌, ◌≢◌, ◌+◌, ◌-◌, ◌%◌, ◌^◌, ◌<◌, ◌≤◌, ◌++◌, ◌∷◌, ◌⊎◌, [], ℕ, Bool, List, length, true, false, not, Some};
ghost use Rattle.machine.specs.BitChange as bits;
ghost use Rattle.machine.specs.BitChange.{BitChange, IsBitChange, Look, amount, bit_change_of, bit_number, bitmap_place, has_bit};
ghost use Rattle.machine.specs.Choosing.{IsAt, begins, block_at, next, region_at, taken, turn};
ghost use Rattle.machine.specs.EpochRead.{IsView};
ghost use Rattle.machine.specs.ObjectNames.{IsObject, Object, bitmap_of, block_of, number_of};
ghost use Rattle.machine.specs.Places.{IsInPool, replica_count, written_place};
ghost use Rattle.machine.specs.Stock.{OwnBlock, Rest, Spread, Stock};
ghost use Rattle.object_division.specs.Allowed.{IsAllowed, stock_of};
ghost use Rattle.object_division.specs.Claims.{HoldsAlong, IsGained, IsGranted, IsOpen, IsOwnedBy, IsReserve, IsSetEverywhere, Takes};
ghost use Rattle.object_division.specs.Client.{Active, Cleared, Given, NotClearing, Returning, Taken, Under, Untaken};
ghost use Rattle.object_division.specs.Example.{first_object, gains, gives_back, retires, takes, two_nodes};
ghost use Rattle.object_division.specs.Marks.{ComesFrom, IsClaiming, IsGoodGift, IsMarked, IsNew, IsRipe, IsSeen, blocks_of};
ghost use Rattle.object_division.specs.Run.{Begin, ClearNext, End, Event, ReturnNext, State, begin_word, happens, is_in_stock, is_inside, object_of, opening, run};
ghost use Rattle.object_bits.specs.Claims.{AreAll};
ghost use Rattle.object_bits.specs.Bits as object_bits;
ghost use Rattle.object_bits.specs.Bits.{Change, bits_after, change_after};
ghost use Rattle.object_division.specs.Seen.{HasCome, HasComeStraight, IsApart, IsChangeOf, IsStraight, IsUnderWay, StandsRight, bits_of, seen, seen_turn};
ghost use Rattle.object_division.specs.Stocked.{IsStocked};
ghost use Rattle.pointer_fields.specs.Pointer.{region_of};
ghost use Rattle.region_view.specs.Placed.{Viewed};
ghost use Rattle.verb_words.specs.declared.verbs.Answer.TheVariants.{Word};
ghost use Rattle.verb_words.specs.declared.verbs.Place.{Place};
ghost use Rattle.verb_words.specs.Applied.{answer_to, words_after};
ghost use Rattle.verb_words.specs.Verb.{answer_of, place_of};
ghost use Rattle.verb_words.specs.Words.{HasPlace, word_at};

/// The first choosing of a client gains a block and gives the first object of it.
pub fn a_first_choosing_gains_a_block()
    ensures allowed { IsAllowed (opening two_nodes) gains }
    ensures reserve { (stock_of ((run (opening two_nodes) gains).clients 1) 0).reserve
        ≡ Some first_object.pointer }
{}

/// The object is taken once its bit is cleared on the primary, and the one after it is the reserve.
pub fn a_cleared_object_is_taken()
    ensures allowed { IsAllowed (run (opening two_nodes) gains) takes }
    ensures taken { (run (opening two_nodes) (gains ++ takes)).uses first_object ≡ Taken 1 }
    ensures cleared { is_in_stock (run (opening two_nodes) (gains ++ takes)) first_object ≡ false }
    ensures reserve { (stock_of ((run (opening two_nodes) (gains ++ takes)).clients 1) 0).reserve
        ≡ Some 0x100011 }
{}

/// It is in stock again once its bit is set.
pub fn a_returned_object_is_in_stock()
    ensures untaken { (run (opening two_nodes) (gains ++ (takes ++ gives_back))).uses first_object
        ≡ Untaken }
    ensures set { is_in_stock (run (opening two_nodes) (gains ++ (takes ++ gives_back))) first_object
        ≡ true }
{}

/// Each block that a client has gained, and whose release has not begun, is owned by that client on
/// every replica, whatever the clients do and however their steps are interleaved. So no block is
/// gained by two clients.
pub fn gained_blocks_are_owned()
    ensures owned { (view : Viewed) (events : List Event) → IsView view
        → IsAllowed (opening view) events → (client class : ℕ) (own : OwnBlock)
        → IsGained (run (opening view) events) client class own
        → IsOwnedBy (run (opening view) events) client class own.region own.block }
    ensures once { (view : Viewed) (events : List Event) → IsView view
        → IsAllowed (opening view) events → (client other class of_other : ℕ) (own of_own : OwnBlock)
        → IsGained (run (opening view) events) client class own
        → IsGained (run (opening view) events) other of_other of_own
        → own.region ≡ of_own.region → own.block ≡ of_own.block → client ≡ other }
{}

/// A granted block keeps its class, whoever owns or claims it; a block that is unused, or granted for a
/// class, was so before; each object that was taken and not given back is of the class of its block; and
/// an object of a granted block has another bit than every other object whose block is unused, or
/// granted for the class of that object.
pub fn granted_blocks_keep_their_class()
    ensures kept { (view : Viewed) (events later : List Event) → IsView view
        → IsAllowed (opening view) (events ++ later) → (object : Object) → IsObject view.shape object
        → IsGranted (run (opening view) events) object
        → IsGranted (run (run (opening view) events) later) object }
    ensures before { (view : Viewed) (events later : List Event) → IsView view
        → IsAllowed (opening view) (events ++ later) → (object : Object) → IsObject view.shape object
        → IsOpen (run (run (opening view) events) later) object
        → IsOpen (run (opening view) events) object }
    ensures taken { (view : Viewed) (events : List Event) → IsView view
        → IsAllowed (opening view) events → (object : Object)
        → (run (opening view) events).uses object ≢ Untaken
        → IsGranted (run (opening view) events) object }
    ensures bits { (state : State) (one other : Object) → IsObject state.view.shape one
        → IsObject state.view.shape other → one ≢ other → IsOpen state one → IsGranted state other → IsApart one other }
{}

/// A block that a client claims, and has not gained yet, is none of those that it has gained.
pub fn clients_claim_new_blocks()
    ensures { (view : Viewed) (events : List Event) → IsView view
        → IsAllowed (opening view) events → (client : ℕ)
        → IsClaiming ((run (opening view) events).clients client).stock.phase
        → IsNew ((run (opening view) events).clients client).stock }
{}

/// After a turn of a choosing a client writes a block as one that was unused to backups only if it did
/// before, or if the turn was its claim, and found the block unused.
pub fn unused_blocks_are_found_unused()
    ensures { (stock : Stock) (found backup : ℕ) → IsAt stock.phase stock
        → (turn stock (answer_of (next stock) found)).state.phase ≡ Spread true backup
        → ComesFrom stock stock.phase found (turn stock (answer_of (next stock) found)).state }
{}

/// While an active client writes a block to backups that its claim has found unused, no object of the
/// block is taken.
pub fn blocks_found_unused_hold_nothing_taken()
    ensures { (view : Viewed) (events : List Event) → IsView view
        → IsAllowed (opening view) events → (client backup : ℕ)
        → ((run (opening view) events).clients client).service ≡ Active
        → ((run (opening view) events).clients client).stock.phase ≡ Spread true backup
        → (object : Object)
        → region_of object.pointer ≡ region_at ((run (opening view) events).clients client).stock
        → block_of object.pointer ≡ block_at ((run (opening view) events).clients client).stock
        → (run (opening view) events).uses object ≡ Untaken }
{}

/// An add that finds the bit as it is not wanted changes this bit, and no other.
pub fn a_right_add_changes_one_bit()
    ensures { (word j : ℕ) (set : Bool) → word < 2 ^ 64 → j < 64 → has_bit word j ≡ not set
        → (has_bit ((word + amount set j) % 2 ^ 64) j ≡ set)
        × ((i : ℕ) → i ≢ j → has_bit ((word + amount set j) % 2 ^ 64) i ≡ has_bit word i) }
{}

/// Who takes an object owns its block on every replica, and no other client has the object in
/// reserve, in a block whose release has not begun.
pub fn clients_take_objects_of_their_own()
    ensures owned { (view : Viewed) (events : List Event) (event : Event) → IsView view
        → IsAllowed (opening view) (events ++ event ∷ []) → (client : ℕ) (object : Object)
        → Takes (run (opening view) events) event client object
        → IsOwnedBy (run (opening view) events) client object.class
        (region_of object.pointer) (block_of object.pointer) }
    ensures unreserved { (view : Viewed) (events : List Event) (event : Event) → IsView view
        → IsAllowed (opening view) (events ++ event ∷ []) → (client other : ℕ) (object : Object)
        → Takes (run (opening view) events) event client object → other ≢ client
        → IsReserve (run (opening view) events) other object.class object.pointer → ⊥ }
{}

/// The reserve of a class is ripe, in a block that was gained for the class. What a choosing gives are
/// the reserve and another object of the class that is ripe, and they stay so until the bit of the
/// first is cleared.
pub fn choosings_give_ripe_objects()
    ensures reserve { (view : Viewed) (events : List Event) → IsView view
        → IsAllowed (opening view) events → (client class pointer : ℕ)
        → (stock_of ((run (opening view) events).clients client) class).reserve ≡ Some pointer
        → IsRipe (stock_of ((run (opening view) events).clients client) class).own class pointer }
    ensures given { (view : Viewed) (events : List Event) → IsView view
        → IsAllowed (opening view) events → (client class : ℕ) (given : Given)
        → ((run (opening view) events).clients client).given class ≡ Some given
        → IsGoodGift (stock_of ((run (opening view) events).clients client) class) class given }
    ensures clearing { (view : Viewed) (events : List Event) → IsView view
        → IsAllowed (opening view) events → (client class : ℕ) (given : Given) (change : BitChange)
        → ((run (opening view) events).clients client).clearing ≡ Under class given change
        → IsGoodGift (stock_of ((run (opening view) events).clients client) class) class given }
{}

/// After a turn of a choosing an object is ripe or waits only if it did before, or if the turn has
/// found its bit set in a bitmap, or has gained its block, which was unused. Neither a new choosing
/// nor a new reserve marks an object.
pub fn marks_come_from_what_was_seen()
    ensures turn { (stock : Stock) (found : ℕ) → IsAt stock.phase stock
        → (class region block j : ℕ)
        → IsMarked (blocks_of (turn stock (answer_of (next stock) found)).state class) region block j
        → IsMarked (blocks_of stock class) region block j
        ⊎ IsSeen stock.phase stock found class region block j }
    ensures begins { (stock : Stock) (mask of : ℕ) → (class region block j : ℕ)
        → IsMarked (blocks_of (begins stock mask of).state class) region block j
        → IsMarked (blocks_of stock class) region block j }
    ensures taken { (stock : Stock) (of reserve : ℕ) → (class region block j : ℕ)
        → IsMarked (blocks_of (taken stock of reserve) class) region block j
        → IsMarked (blocks_of stock class) region block j }
{}

/// What the next turn of an active client's choosing may mark, as its bit or its block was seen, is in
/// stock, in a block that is granted for its class; or nobody has taken it.
pub fn what_is_seen_is_in_stock_or_untaken()
    ensures { (view : Viewed) (events : List Event) → IsView view
        → IsAllowed (opening view) events → (client : ℕ) (object : Object)
        → ((run (opening view) events).clients client).service ≡ Active
        → ((run (opening view) events).clients client).stock.phase ≢ Rest
        → IsObject (run (opening view) events).view.shape object
        → IsSeen ((run (opening view) events).clients client).stock.phase
        ((run (opening view) events).clients client).stock
        (word_at (run (opening view) events).words
        (place_of (next ((run (opening view) events).clients client).stock))) object.class
        (region_of object.pointer) (block_of object.pointer) (number_of object.pointer object.class)
        → ((is_in_stock (run (opening view) events) object ≡ true)
        × IsGranted (run (opening view) events) object)
        ⊎ ((run (opening view) events).uses object ≡ Untaken) }
{}

/// No object of a block that a client has gained is both ripe and waiting, and no block is there
/// twice. And an object that was cleared is neither ripe nor waits once the next reserve is the
/// reserve.
pub fn ripe_objects_do_not_wait()
    ensures apart { (view : Viewed) (events : List Event) → IsView view
        → IsAllowed (opening view) events → (client class : ℕ) (own : OwnBlock)
        → Contains (blocks_of ((run (opening view) events).clients client).stock class) own
        → (j : ℕ) → bit_at own.ripe j ≡ 1 → bit_at own.waiting j ≡ 1 → ⊥ }
    ensures once { (view : Viewed) (events : List Event) → IsView view
        → IsAllowed (opening view) events → (client class : ℕ) (own other : OwnBlock)
        → Contains (blocks_of ((run (opening view) events).clients client).stock class) own
        → Contains (blocks_of ((run (opening view) events).clients client).stock class) other
        → own.region ≡ other.region → own.block ≡ other.block → own ≡ other }
    ensures cleared { (view : Viewed) (events : List Event) → IsView view
        → IsAllowed (opening view) events → (client class : ℕ) (given : Given)
        → ((run (opening view) events).clients client).clearing ≡ Cleared class given
        → IsMarked
        (blocks_of (taken ((run (opening view) events).clients client).stock class given.next) class)
        (region_of given.object) (block_of given.object) (number_of given.object class) → ⊥ }
{}

/// At first each object of the pool has its bit set on each replica. Each bitmap is a word of 64 bits
/// then, and after any steps. And no step but the next verb of a change of a bit changes the bit of any
/// object.
pub fn bits_change_only_by_changes()
    ensures first { (view : Viewed) → IsView view → (object : Object) → IsObject view.shape object
        → IsSetEverywhere (opening view) object }
    ensures words { (view : Viewed) (events : List Event) → IsView view
        → IsAllowed (opening view) events → (object : Object) → IsObject view.shape object
        → (replica : ℕ) → replica < replica_count view (bitmap_of object.pointer)
        → word_at (run (opening view) events).words
        (written_place view (bitmap_of object.pointer) replica) < 2 ^ 64 }
    ensures stay { (view : Viewed) (events : List Event) (event : Event) → IsView view
        → IsAllowed (opening view) (events ++ event ∷ [])
        → ((client : ℕ) → event ≢ ClearNext client)
        → ((client : ℕ) (object : Object) → event ≢ ReturnNext client object)
        → (object : Object) → IsObject view.shape object
        → bits_of view (happens (run (opening view) events) event).words object
        ≡ bits_of view (run (opening view) events).words object }
{}

/// The begin word of a client changes only by the steps by which this client begins and ends calls.
pub fn begin_words_change_only_by_calls()
    ensures { (view : Viewed) (events : List Event) (event : Event) → IsView view
        → IsAllowed (opening view) (events ++ event ∷ []) → (client : ℕ) → 1 ≤ client
        → client ≤ view.shape.clients → event ≢ Begin client → event ≢ End client
        → begin_word (happens (run (opening view) events) event) client
        ≡ begin_word (run (opening view) events) client }
{}

/// Who clears the bit of an object, or sets it, takes steps and is inside a call.
pub fn bits_are_changed_inside_calls()
    ensures clears { (view : Viewed) (events : List Event) → IsView view
        → IsAllowed (opening view) events → (client : ℕ)
        → ((run (opening view) events).clients client).clearing ≢ NotClearing
        → ((run (opening view) events).clients client).service ≡ Active
        × (is_inside (run (opening view) events) client ≡ true) }
    ensures sets { (view : Viewed) (events : List Event) → IsView view
        → IsAllowed (opening view) events → (client taker : ℕ) (object : Object) (change : BitChange)
        → (run (opening view) events).uses object ≡ Returning taker client change
        → ((run (opening view) events).clients client).service ≡ Active
        × (is_inside (run (opening view) events) client ≡ true) }
{}

/// Each verb of a change of a bit is a step of the machine of a single object's bit, if it finds the
/// bit as that machine promises; and it changes the bit of no other object.
pub fn changes_of_bits_are_steps()
    ensures turn { (change : BitChange) (found : ℕ) → (change.phase ≡ Look → change.look ≡ true)
        → seen_turn (bits.turn change (Word found)) ≡ change_after (seen change).phase
        (replica_count change.view (bitmap_of change.object.pointer)) (seen change)
        (has_bit found (bit_number change)) }
    ensures own { (view : Viewed) (words : List (List ℕ)) (change : BitChange)
        → StandsRight view words change
        → bits_of view (words_after words (bits.next change) false) change.object
        ≡ bits_after (seen change).phase (bits_of view words change.object) change.replica }
    ensures others { (view : Viewed) (words : List (List ℕ)) (change : BitChange) (other : Object)
        → StandsRight view words change → IsObject view.shape other → IsApart other change.object
        → bits_of view (words_after words (bits.next change) false) other ≡ bits_of view words other }
{}

/// A change of a bit that is under way finds the bit as its verb needs it; after the verb it is under
/// way still, or every replica has the bit as it is wanted. One that nothing has broken off has changed
/// no replica after its own, looking or not, and so it stays.
pub fn changes_under_way_go_on()
    ensures right { (view : Viewed) (words : List (List ℕ)) (change : BitChange)
        → IsBitChange view change
        → ((place : Place) → IsInPool view.shape place → HasPlace words place)
        → word_at words (bitmap_place change) < 2 ^ 64
        → IsUnderWay (bits_of view words change.object) (seen change) → StandsRight view words change }
    ensures goes { (view : Viewed) (words : List (List ℕ)) (change : BitChange)
        → IsBitChange view change
        → ((place : Place) → IsInPool view.shape place → HasPlace words place)
        → word_at words (bitmap_place change) < 2 ^ 64 → (change.phase ≡ Look → change.look ≡ true)
        → IsUnderWay (bits_of view words change.object) (seen change)
        → HasCome change.set
        (bits_of view (words_after words (bits.next change) false) change.object)
        (seen_turn (bits.turn change (answer_to words (bits.next change) false))) }
    ensures is { (bits : List Bool) (change : Change) → IsStraight bits change → IsUnderWay bits change }
    ensures begun { (view : Viewed) (words : List (List ℕ)) (object : Object) (set look : Bool)
        → IsView view → IsObject view.shape object → AreAll (not set) (bits_of view words object)
        → IsStraight (bits_of view words object) (seen (bit_change_of view object set look)) }
    ensures primary { (bits : List Bool) (change : Change) → IsStraight bits change
        → object_bits.bit_at bits (length bits - 1) ≡ not change.wanted }
    ensures straight { (view : Viewed) (words : List (List ℕ)) (change : BitChange)
        → IsBitChange view change
        → ((place : Place) → IsInPool view.shape place → HasPlace words place)
        → word_at words (bitmap_place change) < 2 ^ 64 → (change.phase ≡ Look → change.look ≡ true)
        → IsStraight (bits_of view words change.object) (seen change)
        → HasComeStraight change.set
        (bits_of view (words_after words (bits.next change) false) change.object)
        (seen_turn (bits.turn change (answer_to words (bits.next change) false))) }
{}

/// Each change of a bit that is under way is the one that was begun for its object: a clearing clears
/// the bit of the object that the choosing gave, and looks at none; a setting sets the bit of the object
/// that was named.
pub fn changes_are_of_their_objects()
    ensures clears { (view : Viewed) (events : List Event) (client class : ℕ) (given : Given)
        (change : BitChange)
        → ((run (opening view) events).clients client).clearing ≡ Under class given change
        → IsChangeOf change (object_of class given) false × (change.look ≡ false) }
    ensures sets { (view : Viewed) (events : List Event) (object : Object) (taker namer : ℕ)
        (change : BitChange)
        → (run (opening view) events).uses object ≡ Returning taker namer change
        → IsChangeOf change object true }
{}

/// Nobody clears the bit of an object that another active client clears, or that is ripe or waits in a
/// block of another active client.
pub fn objects_are_cleared_by_one_client()
    ensures clears { (view : Viewed) (events : List Event) → IsView view
        → IsAllowed (opening view) events → (client other class of_other : ℕ) (given of_given : Given)
        (change of_change : BitChange)
        → ((run (opening view) events).clients client).clearing ≡ Under class given change
        → ((run (opening view) events).clients other).clearing ≡ Under of_other of_given of_change
        → object_of class given ≡ object_of of_other of_given → client ≡ other }
    ensures marked { (view : Viewed) (events : List Event) → IsView view
        → IsAllowed (opening view) events → (client other class of_other : ℕ) (given : Given)
        (change : BitChange) (j : ℕ)
        → ((run (opening view) events).clients client).clearing ≡ Under class given change
        → ((run (opening view) events).clients other).service ≡ Active
        → IsMarked (blocks_of ((run (opening view) events).clients other).stock of_other)
        (region_of given.object) (block_of given.object) j → client ≡ other }
{}

/// Whatever the clients do, and however their steps are interleaved: after each step every object of
/// a granted block is in stock, or is out of stock and taken by one client, and a reserve is in stock
/// on every replica but while it is what a choosing gave; what a step takes was in stock and in nobody
/// else's reserve; and no add sets a set bit or clears a clear one.
pub fn objects_are_divided()
    ensures { (view : Viewed) (events : List Event) → IsView view
        → IsAllowed (opening view) events → HoldsAlong (opening view) events }
{}

/// Nobody has taken what is found in stock, or what an active client holds ready, but for the object
/// that this client has just cleared.
pub fn what_is_held_ready_is_untaken()
    ensures { (view : Viewed) (events : List Event) → IsView view
        → IsAllowed (opening view) events → IsStocked (run (opening view) events) }
{}
