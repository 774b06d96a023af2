ghost use Rattle.std.specs.Prelude.{◌≡◌, ℕ, ◌≤◌, [], ◌∷◌, ◌++◌, map, reverse, IfOk, OnErr, OnOk};
ghost use Rattle.std.specs.List.{AllZip};
ghost use Rattle.machine_world.specs.Ledger.{in_order as in_order_of_points};
ghost use Rattle.verb_history.specs.Points.{HasRoom, IsMarked, entered_of, in_order};

use map_model::Entry;
use std::alloc::{AllocError, Global};
use std::marker::Model;

/// Where a call stands in the history: by event, then slot, then rank.
#[derive(Clone, Copy, Debug, PartialEq, Eq, PartialOrd, Ord)]
pub struct Point {
    /// The event at which the call takes effect.
    pub event: u64,
    /// Among the calls of one event, the slot.
    pub slot: u32,
    /// Among the calls of one event and slot, the rank.
    pub rank: u32,
}

impl Model for Point {
    ghost use Rattle.machine_world.specs.World.{Point};

    ghost Value = { Point };

    ghost view = { λ p. record { event = p.event; slot = p.slot; rank = p.rank } };

    ghost inverse = { λ v. record { event = v.event; slot = v.slot; rank = v.rank } };
}

/// A call of the history, and where it stands.
#[derive(Debug, Drop)]
pub struct Placed {
    pub entry: Entry,
    pub at: Point,
}

/// The calls of a history with their points, in the order in which they were entered.
///
/// Several may stand at one point. Of these, the one that was entered last comes first in the history.
#[derive(Debug, Drop)]
pub struct Points {
    placed: Vec<Placed>,
}

impl Model for Points {
    ghost use Rattle.std.specs.Prelude.{vec_capacity};
    ghost use Rattle.verb_history.specs.Points.{Kept};

    ghost Value = { Kept };

    ghost view = { λ p. record { placed = p.placed.items; room = vec_capacity p.placed } };
}

impl Points {
    /// No calls.
    pub fn new(alloc: Global) -> Points
        ensures { result.placed ≡ [] }
    {
        Points {
            placed: Vec::new(alloc),
        }
    }

    /// Makes room for so many calls more.
    pub fn reserve(&mut self, count: usize) -> Result<(), AllocError>
        ensures placed { self.new.placed ≡ self.old.placed }
        ensures room { OnOk result (HasRoom self.new count) }
        ensures more { self.old.room ≤ self.new.room }
    {
        self.placed.reserve(count)
    }

    /// Enters a call. An error changes nothing.
    pub fn enter(&mut self, entry: Entry, at: Point) -> Result<(), AllocError>
        ensures ok { OnOk result (self.new.placed ≡ self.old.placed ++ record { entry = entry; at = at } ∷ []) }
        ensures err { OnErr result (self.new.placed ≡ self.old.placed) }
    {
        self.placed.push(Placed { entry, at })?;
        Ok(())
    }

    /// Enters a call for which there is room. It takes no memory.
    pub fn enter_reserved(&mut self, entry: Entry, at: Point)
        requires { HasRoom self.old 1 }
        ensures placed { self.new.placed ≡ self.old.placed ++ record { entry = entry; at = at } ∷ [] }
        ensures room { self.new.room ≡ self.old.room }
    {
        self.placed.push_reserved(Placed { entry, at });
    }

    /// The calls, lent, in the order of their points: by event, then by slot, then by rank. It takes
    /// time n log n in their number.
    pub fn order(&self) -> Result<Vec<&Placed>, AllocError>
        ensures { IfOk result (λ order. map (λ one. one.now) order.items ≡ in_order self.now.placed) }
    {
        let alloc = *self.placed.allocator();
        sorted(alloc, self.placed.as_slice())
    }

    /// The entries of the calls in the order of their points.
    pub fn list(&self) -> Result<Vec<Entry>, AllocError>
        ensures { IfOk result (λ list. list.items ≡ map (λ placed. placed.entry) (in_order self.now.placed)) }
    {
        let alloc = *self.placed.allocator();
        let order = self.order()?;
        copies(alloc, order.as_slice())
    }

    /// The entries of the calls in the order of their points, each marked as returned where `returned`
    /// says so of its client and its number, in place of the mark with which it was entered.
    pub fn history<F: Fn(u32, u32) -> bool>(&self, returned: F) -> Result<Vec<Entry>, AllocError>
        requires { F.IsAlwaysCallable returned }
        ensures { IfOk result (λ list. AllZip
            (λ entered entry. IsMarked (F.post returned) entered entry)
            (in_order_of_points (map entered_of self.now.placed)) list.items) }
    {
        let alloc = *self.placed.allocator();
        let order = self.order()?;
        marked(alloc, order.as_slice(), returned)
    }
}

// The calls in the order of their points. The sort keeps calls at one point as they are handed to it.
fn sorted<'a>(alloc: Global, placed: &'a [Placed]) -> Result<Vec<&'a Placed>, AllocError>
    ensures { IfOk result (λ order. map (λ one. one.now) order.items ≡ in_order placed.now) }
{
    let mut order = latest_first(alloc, placed)?;
    order.sort_by_key(|one| one.at)?;
    Ok(order)
}

fn latest_first<'a>(alloc: Global, placed: &'a [Placed]) -> Result<Vec<&'a Placed>, AllocError>
    ensures { IfOk result (λ order. map (λ one. one.now) order.items ≡ reverse placed.now) }
{
    placed.iter().rev().collect(alloc)
}

fn copies(alloc: Global, order: &[&Placed]) -> Result<Vec<Entry>, AllocError>
    ensures { IfOk result (λ list. list.items ≡ map (λ one. one.now.entry) order.now) }
{
    let mut list = Vec::with_capacity(alloc, order.len())?;
    for one in order {
        list.push(one.entry.copy()?)?;
    }
    Ok(list)
}

// The entries, marked by these answers.
fn marked<F: Fn(u32, u32) -> bool>(
    alloc: Global,
    order: &[&Placed],
    returned: F,
) -> Result<Vec<Entry>, AllocError>
    requires { F.IsAlwaysCallable returned }
    ensures { IfOk result (λ list. AllZip
        (λ one entry. IsMarked (F.post returned) (entered_of one.now) entry) order.now list.items) }
{
    let mut list = Vec::with_capacity(alloc, order.len())?;
    for one in order {
        let mut entry = one.entry.copy()?;
        entry.returned = returned(entry.client, entry.number);
        list.push(entry)?;
    }
    Ok(list)
}
