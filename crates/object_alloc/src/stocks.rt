ghost use Rattle.std.specs.Prelude.{◌≡◌, ◌↔◌, ◌⊎◌, ℕ, ◌<◌, ◌≤◌, IfOk, map, replicate, true};
ghost use Rattle.machine.specs.Choosing.{IsTaken, begins, next, taken, turn};
ghost use Rattle.machine.specs.ObjectNames.{names_object};
ghost use Rattle.machine.specs.Places.{IsInPool};
ghost use Rattle.machine.specs.Stock.{first_stock, no_stock};
ghost use Rattle.machine.specs.declared.choosing.Took.TheVariants.{Going, Have, NoSpace, Refused};
ghost use Rattle.object_alloc.specs.Causes.{HasObjects, IsSpent};
ghost use Rattle.object_alloc.specs.Classes.{class_of, room_of};
ghost use Rattle.object_form.specs.declared.classes.TheConstants.{CLASSES};
ghost use Rattle.verb_words.specs.Verb.{place_of};
ghost use Rattle.verb_words.specs.declared.verbs.Answer.TheVariants.{Lost};

use crate::blocks::ClassStock;
use crate::choosers::{Chooser, Phase};
use machine::choosing::Took;
use object_form::CLASSES;
use region_view::{Shape, View};
use std::alloc::{AllocError, Global};
use std::marker::Model;
use verb_words::{Answer, Verb};

/// The objects that a client has in stock, and its choosing of one.
///
/// A client owns blocks, and the objects in a block are of one class. Of each class that it uses it
/// holds one object in reserve, which its next call writes; a choosing finds the object after it.
#[derive(Drop)]
pub struct Stock {
    chooser: Chooser,
}

impl Model for Stock {
    ghost use Rattle.machine.specs.Stock.{Stock};
    ghost use Rattle.object_alloc.specs.Choosers.{stock_of};
    ghost use Rattle.object_alloc.specs.Held.{IsKept};

    ghost Value = { Stock };

    ghost view = { λ s. stock_of s.chooser };

    ghost invariant = { λ s. IsKept s.chooser };
}

impl Stock {
    /// A client's stock before its first choosing. It takes all of its memory here: room for every
    /// block of the shape.
    pub fn new(alloc: Global, client: u32, shape: Shape) -> Result<Stock, AllocError>
        requires least { 1 ≤ client }
        requires most { client ≤ shape.clients }
        ensures { IfOk result (λ stock. stock ≡ first_stock client shape) }
    {
        prove!(client <= shape.clients);
        let blocks = (shape.regions * shape.blocks) as usize;
        Ok(Stock {
            chooser: Chooser {
                client,
                shape,
                classes: classes(alloc, blocks)?,
                mask: 0,
                class: 0,
                scanned: false,
                position: 0,
                phase: Phase::Rest,
            },
        })
    }

    /// A new choosing of an object of a class, under a view of the same shape. It answers `Have`
    /// where the class has a reserve and a ripe object beside it, and else goes on.
    pub fn begin(&mut self, view: View, class: u8) -> Took
        requires shape { view.shape ≡ self.old.shape }
        requires class { class < CLASSES }
        ensures state { self.new ≡ (begins self.old view.mask class).state }
        ensures told { result ≡ (begins self.old view.mask class).told }
        ensures taken { IsTaken view.shape class result }
        ensures same { (self.new.shape ≡ self.old.shape) × (self.new.class ≡ class) }
        ensures have { (object next : ℕ) → (result ≡ Have object next)
            ↔ HasObjects (record self.old { class = class }) object next }
        ensures else_goes { (result ≡ Going)
            ⊎ ((object : ℕ) × (next : ℕ) × (result ≡ Have object next)) }
    {
        self.chooser.begins(view.mask, class)
    }

    /// The next reserve is the class's reserve, now that the bit of the object that was the reserve
    /// is cleared.
    pub fn taken(&mut self, class: u8, next: u32)
        requires class { class < CLASSES }
        requires named { names_object self.old.shape class next ≡ true }
        ensures { self.new ≡ taken self.old class next }
    {
        self.chooser.classes[class as usize].replace_reserve(class, next);
    }

    /// The verb that is due.
    pub fn next(&self) -> Verb
        ensures verb { result ≡ next self.now }
        ensures inside { IsInPool self.now.shape (place_of result) }
    {
        self.chooser.next()
    }

    /// Takes the answer to the verb that was due.
    pub fn after(&mut self, answer: Answer) -> Took
        ensures state { self.new ≡ (turn self.old answer).state }
        ensures told { result ≡ (turn self.old answer).told }
        ensures taken { IsTaken self.old.shape self.old.class result }
        ensures same { (self.new.shape ≡ self.old.shape) × (self.new.class ≡ self.old.class) }
        ensures have { (object next : ℕ) → result ≡ Have object next
            → HasObjects self.new object next }
        ensures no_space { (class client begin : ℕ) → result ≡ NoSpace class client begin
            → IsSpent self.new class client begin }
        ensures refused { (node : ℕ) → (result ≡ Refused node)
            ↔ ((answer ≡ Lost) × (node ≡ (place_of (next self.old)).node)) }
    {
        self.chooser.after(answer)
    }
}

// The stock of each class, with room for so many blocks.
fn classes(alloc: Global, blocks: usize) -> Result<Vec<ClassStock>, AllocError>
    ensures classes { IfOk result (λ classes. map class_of classes.items ≡ replicate CLASSES no_stock) }
    ensures rooms { IfOk result (λ classes. map room_of classes.items ≡ replicate CLASSES blocks) }
{
    let mut classes = Vec::with_capacity(alloc, CLASSES as usize)?;
    for _ in 0..CLASSES {
        classes.push(ClassStock::new(alloc, blocks)?)?;
    }
    Ok(classes)
}
