ghost use Rattle.std.specs.Prelude.{◌≡◌, ◌↔◌, ℕ, ◌<◌, ◌≤◌, IfSome, Option};
ghost use Rattle.embedded_log.specs.Causes.{EndsWith};
ghost use Rattle.embedded_log.specs.Walks.{pointer_in};
ghost use Rattle.machine.specs.LinkWalk.{IsPointer, follows, link_walk_of, newer_link, next, reaches, turn, turn_at};
ghost use Rattle.machine.specs.Places.{IsInPool, object_word, primary_place};
ghost use Rattle.machine.specs.declared.link_walk.Walked.TheVariants.{End, Refused};
ghost use Rattle.object_form.specs.declared.classes.TheConstants.{CLASSES};
ghost use Rattle.verb_words.specs.Verb.{place_of};
ghost use Rattle.verb_words.specs.declared.verbs.Answer.TheVariants.{Lost, Word};

use key_test::{names_object, object_place};
use machine::link_walk::Walked;
use object_form::{Link, link_of};
use region_view::{Shape, View, head_at};
use std::marker::Model;
use verb_words::{Answer, Place, Verb};

/// What a walk reads next.
#[derive(Clone, Copy, Debug)]
pub(crate) enum Phase {
    /// The head word of the class.
    AtHead,
    /// The link of the object that this pointer names.
    AtObject(u32),
}

/// A walk along a client's links of a class.
#[derive(Debug, Drop)]
pub struct Walk {
    view: View,
    client: u32,
    class: u8,
    /// The object with the newest link so far, and the number of the call that linked it.
    last: Option<(u32, u32)>,
    phase: Phase,
}

impl Model for Walk {
    ghost use Rattle.embedded_log.specs.Walks.{walk_of};
    ghost use Rattle.machine.specs.LinkWalk.{IsLinkWalk, LinkWalk};

    ghost Value = { LinkWalk };

    ghost view = { λ w. walk_of w.view w.client w.class w.last w.phase };

    ghost invariant = { λ w. IsLinkWalk w.view (walk_of w.view w.client w.class w.last w.phase) };
}

impl Walk {
    /// A walk along the links of this client's objects of the class.
    pub fn new(view: View, client: u32, class: u8) -> Walk
        requires least { 1 ≤ client }
        requires most { client ≤ view.shape.clients }
        requires class { class < CLASSES }
        ensures { result ≡ link_walk_of view client class }
    {
        // The sizes are read, so that they are known to be within their limits.
        prove!(client <= view.shape.clients);
        Walk {
            view,
            client,
            class,
            last: None,
            phase: Phase::AtHead,
        }
    }

    /// The verb that is due.
    pub fn next(&self) -> Verb
        ensures verb { result ≡ next self.now }
        ensures inside { IsInPool self.now.view.shape (place_of result) }
    {
        match self.phase {
            Phase::AtHead => Verb::Read(Place {
                node: 0,
                at: head_at(self.client, self.class),
            }),
            Phase::AtObject(pointer) => Verb::Read(link_place(&self.view, self.class, pointer)),
        }
    }

    /// Takes the answer to the verb that was due, and tells whether the walk is at its end.
    pub fn after(&mut self, answer: Answer) -> Walked
        ensures state { self.new ≡ (turn self.old answer).state }
        ensures told { result ≡ (turn self.old answer).told }
        ensures end { (last : Option (ℕ × ℕ)) (reserve : Option ℕ) → (result ≡ End last reserve)
            ↔ ((found : ℕ) × (answer ≡ Word found)
            × EndsWith self.old.phase self.old found last reserve) }
        ensures refused { (node : ℕ) → (result ≡ Refused node)
            ↔ ((answer ≡ Lost) × (node ≡ (place_of (next self.old)).node)) }
    {
        match answer {
            Answer::Word(found) => self.take(found),
            Answer::Done => Walked::Going,
            Answer::Lost => Walked::Refused(self.next().place().node),
        }
    }

    fn take(&mut self, found: u64) -> Walked
        ensures state { self.new ≡ (turn_at self.old.phase self.old found).state }
        ensures told { result ≡ (turn_at self.old.phase self.old found).told }
    {
        match self.phase {
            Phase::AtHead => self.reach(found),
            Phase::AtObject(pointer) => match self.newer_link(found) {
                Some(link) => self.follow(pointer, link),
                None => Walked::End {
                    last: self.last,
                    reserve: Some(pointer),
                },
            },
        }
    }

    // The link that a word says, where it is the client's and of a call after the one before.
    fn newer_link(&self, found: u64) -> Option<Link>
        ensures { result ≡ newer_link self.now found }
    {
        let link = link_of(found)?;
        let last_call = match self.last {
            Some((_, call)) => call,
            None => 0,
        };
        if link.client == self.client && last_call < link.call {
            Some(link)
        } else {
            None
        }
    }

    // The object is the client's last so far, and its link names the next one.
    fn follow(&mut self, pointer: u32, link: Link) -> Walked
        requires { IsPointer self.old.view.shape self.old.class pointer }
        ensures state { self.new ≡ (follows self.old pointer link).state }
        ensures told { result ≡ (follows self.old pointer link).told }
    {
        self.last = Some((pointer, link.call));
        self.reach(u64::from(link.next))
    }

    // Goes on with the link of the object that a word names.
    fn reach(&mut self, word: u64) -> Walked
        ensures state { self.new ≡ (reaches self.old word).state }
        ensures told { result ≡ (reaches self.old word).told }
    {
        let Some(pointer) = pointer_in(&self.view.shape, self.class, word) else {
            return Walked::End {
                last: self.last,
                reserve: None,
            };
        };
        self.phase = Phase::AtObject(pointer);
        Walked::Going
    }
}

// The pointer that a word says, where it names an object of the class.
#[tactic(auto, unfolding(machine::specs::ObjectNames::names_object))]
fn pointer_in(shape: &Shape, class: u8, word: u64) -> Option<u32>
    requires { class < CLASSES }
    ensures value { result ≡ pointer_in shape.now class word }
    ensures named { IfSome result (IsPointer shape.now class) }
{
    if word >= 1 << 28 {
        return None;
    }
    let pointer = word as u32;
    if names_object(shape, class, pointer) {
        Some(pointer)
    } else {
        None
    }
}

// The place of an object's link on the primary.
fn link_place(view: &View, class: u8, pointer: u32) -> Place
    requires { IsPointer view.now.shape class pointer }
    ensures { result ≡ primary_place view.now (object_word pointer 0) }
{
    object_place(view, pointer)
}
