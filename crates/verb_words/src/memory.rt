ghost use Rattle.std.specs.Prelude.{◌≡◌, ◌≢◌, ◌<◌, ◌≤◌, ℕ, List, false, map, length, slice_index_or};
ghost use Rattle.verb_words.specs.declared.verbs.Place.{Place};
ghost use Rattle.verb_words.specs.declared.memory.TheConstants.{MOST_NODES};
ghost use Rattle.verb_words.specs.Verb.{place_of};
ghost use Rattle.verb_words.specs.Words.{words_on, word_at, with_word, is_lost, HasPlace, IsNextStored};
ghost use Rattle.verb_words.specs.Lists.{words_of};
ghost use Rattle.verb_words.specs.Applied.{is_refused, answer_to, words_after};

use crate::pages::Pages;
use crate::verbs::{Answer, Place, Verb};
use std::marker::Model;

/// How many nodes there are at most, the control node among them.
pub const MOST_NODES: usize = 9;

/// The words of all nodes: a list for each node, the control node's first.
///
/// Word i of the control node is the status word of node i: 0 where node i is live, anything else
/// where it is lost. The control node is never lost.
#[derive(Debug, Drop)]
pub struct Nodes {
    lists: Lists,
    /// Which nodes are lost, as their status words tell: each verb asks.
    lost: [bool; MOST_NODES],
}

/// The lists of words, as they were handed in.
#[derive(Debug, Drop)]
enum Lists {
    Whole(Vec<Vec<u64>>),
    Paged(Vec<Pages>),
}

impl Model for Nodes {
    ghost Value = { List (List ℕ) };

    ghost view = { λ nodes. words_of nodes.lists };

    ghost invariant = { λ nodes. (MOST_NODES ≤ length (words_on (words_of nodes.lists) 0))
        × (length (words_of nodes.lists) ≤ MOST_NODES)
        × ((node : ℕ) → node < MOST_NODES → slice_index_or nodes.lost node false ≡ is_lost (words_of nodes.lists) node) };
}

impl Nodes {
    /// Nodes with these words: the control node's list, then one for each memory node.
    pub fn of_words(lists: Vec<Vec<u64>>) -> Nodes
        requires statuses { MOST_NODES ≤ length (words_on (map (λ list. list.items) lists.items) 0) }
        requires nodes { length lists.items ≤ MOST_NODES }
        ensures { result ≡ map (λ list. list.items) lists.items }
    {
        Nodes::of_lists(Lists::Whole(lists))
    }

    /// Nodes with these words, in pages.
    pub fn of_pages(lists: Vec<Pages>) -> Nodes
        requires statuses { MOST_NODES ≤ length (words_on lists.items 0) }
        requires nodes { length lists.items ≤ MOST_NODES }
        ensures { result ≡ lists.items }
    {
        Nodes::of_lists(Lists::Paged(lists))
    }

    fn of_lists(lists: Lists) -> Nodes
        requires statuses { MOST_NODES ≤ length (words_on (words_of lists) 0) }
        requires nodes { length (words_of lists) ≤ MOST_NODES }
        ensures { result ≡ words_of lists }
    {
        let mut lost = [false; MOST_NODES];
        for node in 1..MOST_NODES {
            lost[node] = lists.word(Place {
                node: 0,
                at: node as u32,
            }) != 0;
        }
        Nodes { lists, lost }
    }

    /// The word at a place.
    pub fn word(&self, place: Place) -> u64
        requires { HasPlace self.now place }
        ensures { result ≡ word_at self.now place }
    {
        self.lists.word(place)
    }

    /// The next position on a node, from this one on, whose word is not 0; or how many words the node
    /// has, where none is.
    pub fn stored_from(&self, node: u32, from: usize) -> usize
        requires node { node < length self.now }
        requires from { from ≤ length (words_on self.now node) }
        ensures { IsNextStored (words_on self.now node) from result }
    {
        self.lists.stored_from(node, from)
    }

    /// Does one verb, as one step, and answers it.
    ///
    /// With `refuse`, a verb to a lost node answers `Lost` and changes nothing. Without it the verb
    /// is done there too, as one that was on its way when the node was lost.
    #[inline(always)]
    pub fn apply(&mut self, verb: Verb, refuse: bool) -> Answer
        requires { HasPlace self.old (place_of verb) }
        ensures answer { result ≡ answer_to self.old verb refuse }
        ensures words { self.new ≡ words_after self.old verb refuse }

        // The nodes and their sizes stay, and so does each word at another place.
        ensures shape { map length self.new ≡ map length self.old }
        ensures others { (place : Place) → place ≢ place_of verb
            → word_at self.new place ≡ word_at self.old place }
    {
        let place = verb.place();
        if refuse && self.is_lost(place.node) {
            return Answer::Lost;
        }
        let found = self.word(place);
        let word = verb.word_after(found);
        if word != found {
            self.store(place, word);
        }
        verb.answer(found)
    }

    fn is_lost(&self, node: u32) -> bool
        requires { node < length self.now }
        ensures { result ≡ is_lost self.now node }
    {
        self.lost[node as usize]
    }

    fn store(&mut self, place: Place, word: u64)
        requires { HasPlace self.old place }
        ensures { self.new ≡ with_word self.old place word }
    {
        self.lists.store(place, word);
        let at = place.at as usize;
        if place.node == 0 && at != 0 && at < MOST_NODES {
            self.lost[at] = word != 0;
        }
    }
}

impl Lists {
    fn word(&self, place: Place) -> u64
        requires { HasPlace (words_of self.now) place }
        ensures { result ≡ word_at (words_of self.now) place }
    {
        match self {
            Lists::Whole(lists) => lists[place.node as usize][place.at as usize],
            Lists::Paged(lists) => lists[place.node as usize].word(place.at as usize),
        }
    }

    fn stored_from(&self, node: u32, from: usize) -> usize
        requires node { node < length (words_of self.now) }
        requires from { from ≤ length (words_on (words_of self.now) node) }
        ensures { IsNextStored (words_on (words_of self.now) node) from result }
    {
        match self {
            Lists::Whole(lists) => stored_in(&lists[node as usize], from),
            Lists::Paged(lists) => lists[node as usize].stored_from(from),
        }
    }

    fn store(&mut self, place: Place, word: u64)
        requires { HasPlace (words_of self.old) place }
        ensures { words_of self.new ≡ with_word (words_of self.old) place word }
    {
        match self {
            Lists::Whole(lists) => lists[place.node as usize][place.at as usize] = word,
            Lists::Paged(lists) => lists[place.node as usize].set(place.at as usize, word),
        }
    }
}

fn stored_in(words: &[u64], from: usize) -> usize
    requires { from ≤ length words.now }
    ensures { IsNextStored words.now from result }
{
    for at in from..words.len() {
        if words[at] != 0 {
            return at;
        }
    }
    words.len()
}
