//! What holds of the definitions: each function does nothing, and its clause is the law.

ghost use Rattle.std.specs.Prelude.{◌≡◌, List, map};
ghost use Rattle.machine_world.specs.Ledger.{entry_of, history_of};
ghost use Rattle.machine_world.specs.Ledger as ledger;
ghost use Rattle.machine_world.specs.World.{World};
ghost use Rattle.verb_history.specs.Points.{entered_of, in_order};
ghost use Rattle.verb_history.specs.declared.points.Placed.{Placed};

/// The calls stand in the order in which the world's ledger has them.
pub fn the_order_is_that_of_the_ledger()
    ensures { (placed : List Placed) → map entered_of (in_order placed) ≡ ledger.in_order (map entered_of placed) }
{}

/// Where the calls are those of the ledger of a world, their list with the marks of the world is its
/// history.
pub fn the_list_is_the_history()
    ensures { (world : World) (placed : List Placed) → map entered_of placed ≡ world.ledger.entries
        → map (λ one. entry_of world (entered_of one)) (in_order placed) ≡ history_of world }
{}
