//! What holds of the definitions: each function does nothing, and its clause is the law.

ghost use Rattle.std.specs.Prelude.{◌≡◌, ℕ, true, List, IsTrue};
ghost use Rattle.map_model.specs.Map.{Map, is_legal, may_reply, reply_of};
ghost use Rattle.map_model.specs.Examples.{open_put, put_then_get, stale_read};
ghost use Rattle.map_model.specs.Linear.{IsLinear, IsSequence, moments_of};
ghost use Rattle.map_model.specs.declared.calls.Call.{Call};
ghost use Rattle.map_model.specs.declared.entries.Entry.{Entry};

/// A map with room for all may give the reply of a map that never wants room.
pub fn a_map_may_give_its_reply()
    ensures { (map : Map) (call : Call) → may_reply map call (reply_of map call) ≡ true }
{}

/// The calls that one client makes, each after the reply to the one before it, are linear where
/// their replies are those of a map.
pub fn a_run_of_one_client_is_linear()
    ensures { (client : ℕ) (entries : List Entry) →
        IsSequence client 0 entries → IsTrue (is_legal entries) → IsLinear (moments_of entries) entries }
{}

/// A get that finds nothing, though it was made after a put of its key had returned, is not linear.
pub fn a_stale_read_is_not_linear()
    ensures { (key value : List ℕ) (entries : List Entry) → ¬ IsLinear (stale_read key value) entries }
{}

/// A put that never returns, since its client stops, may have taken effect: a get that finds its
/// value is linear.
pub fn an_open_put_may_be_seen()
    ensures { (key value : List ℕ) → IsLinear (open_put key value) (put_then_get key value) }
{}
