ghost use Rattle.std.specs.Prelude.{◌≡◌, ◌≢◌, ◌<◌, ◌≤◌, ◌*◌, ℕ, List, IfOk, length, replicate, slice_index, slice_set, vec_capacity};
ghost use Rattle.verb_words.specs.Pages.{ArePages, words_in};
ghost use Rattle.verb_words.specs.Words.{IsNextStored};

use std::alloc::{AllocError, Global};
use std::marker::Model;

/// How many words a page has.
const PAGE: usize = 512;

/// The words of one node, in pages of 512 words: a page takes room once a word of it is not 0.
///
/// All room that the pages may ever need is reserved as they are made, so that no word that is set
/// asks for memory; but memory that nobody has written to is not there yet.
#[derive(Debug, Drop)]
pub struct Pages {
    /// How many words there are.
    count: u32,
    /// For each page, at which page of the store its words are. Those of the first are all 0, and
    /// stay so.
    table: Vec<u32>,
    store: Vec<u64>,
}

impl Model for Pages {
    ghost Value = { List ℕ };

    ghost view = { λ pages. words_in pages.table.items pages.store.items pages.count };

    ghost invariant = { λ pages. (pages.count ≤ 512 * length pages.table.items)
        × ArePages pages.table.items pages.store.items (vec_capacity pages.store) };
}

impl Pages {
    /// So many words, all 0.
    pub fn zeros(alloc: Global, count: u32) -> Result<Pages, AllocError>
        ensures { IfOk result (λ pages. pages ≡ replicate count 0) }
    {
        let pages = count as usize / PAGE + 1;
        let mut table = Vec::with_capacity(alloc, pages)?;
        table.resize(pages, 0)?;
        let mut store = Vec::with_capacity(alloc, PAGE * (pages + 1))?;
        store.resize(PAGE, 0)?;
        Ok(Pages {
            count,
            table,
            store,
        })
    }

    /// The word at a position.
    pub(crate) fn word(&self, at: usize) -> u64
        requires { at < length self.now }
        ensures { result ≡ slice_index self.now at }
    {
        self.store[self.table[at / PAGE] as usize * PAGE + at % PAGE]
    }

    /// The next position, from this one on, whose word is not 0; or how many words there are, where
    /// none is.
    pub(crate) fn stored_from(&self, from: usize) -> usize
        requires { from ≤ length self.now }
        ensures { IsNextStored self.now from result }
    {
        let count = self.count as usize;
        let mut at = from;
        while at < count {
            if self.table[at / PAGE] == 0 {
                at = (at / PAGE + 1) * PAGE;
            } else if self.word(at) != 0 {
                return at;
            } else {
                at += 1;
            }
        }
        count
    }

    /// Puts a word at a position.
    pub fn set(&mut self, at: usize, word: u64)
        requires { at < length self.old }
        ensures { self.new ≡ slice_set self.old at word }
    {
        let page = at / PAGE;
        own_page(&mut self.table, &mut self.store, page);
        let place = self.table[page] as usize * PAGE + at % PAGE;
        self.store[place] = word;
    }
}

// Gives a page a place of its own in the store, where it has none.
fn own_page(table: &mut Vec<u32>, store: &mut Vec<u64>, page: usize)
    requires pages { ArePages table.old.items store.old.items (vec_capacity store.old) }
    requires within { page < length table.old.items }
    ensures pages { ArePages table.new.items store.new.items (vec_capacity store.new) }
    ensures own { slice_index table.new.items page ≢ 0 }
    ensures table { length table.new.items ≡ length table.old.items }
    ensures words { (count : ℕ) → count ≤ 512 * length table.old.items
        → words_in table.new.items store.new.items count ≡ words_in table.old.items store.old.items count }
{
    if table[page] == 0 {
        add_page(table, store, page);
    }
}

// Gives a page that has none a place of its own in the store. Never inlined: few writes need it, and
// each verb has the code of a write.
#[inline(never)]
fn add_page(table: &mut Vec<u32>, store: &mut Vec<u64>, page: usize)
    requires pages { ArePages table.old.items store.old.items (vec_capacity store.old) }
    requires within { page < length table.old.items }
    requires none { slice_index table.old.items page ≡ 0 }
    ensures pages { ArePages table.new.items store.new.items (vec_capacity store.new) }
    ensures own { slice_index table.new.items page ≢ 0 }
    ensures table { length table.new.items ≡ length table.old.items }
    ensures words { (count : ℕ) → count ≤ 512 * length table.old.items
        → words_in table.new.items store.new.items count ≡ words_in table.old.items store.old.items count }
{
    let room = store.len();
    table[page] = (room / PAGE) as u32;
    store.resize(room + PAGE, 0).unwrap();
}
