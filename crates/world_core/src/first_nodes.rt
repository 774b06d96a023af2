//! The words that a pool opens with: whole where they are few, and else in pages, of which those of
//! zeros alone take no memory yet.

ghost use Rattle.std.specs.Prelude.{◌≡◌, ◌+◌, ◌-◌, ◌^◌, ◌≤◌, ℕ, List, ◌++◌, IfOk, length, replicate};
ghost use Rattle.region_view.specs.Opening.{first_control, first_node, first_words_of};

use region_view::{Shape, first_words, words};
use std::alloc::{AllocError, Global};
use verb_words::{Nodes, Pages};

/// Up to how many words a pool opens whole: 512 KiB are written sooner than a long script has looked
/// up its pages.
const FEW_WORDS: u64 = 65_536;

/// The nodes of a pool of this shape as it opens.
pub(crate) fn first_nodes(alloc: Global, shape: &Shape) -> Result<Nodes, AllocError>
    ensures { IfOk result (λ nodes. nodes ≡ first_words_of shape.now) }
{
    if words(shape) > FEW_WORDS {
        return nodes_in_pages(alloc, shape);
    }
    prove!(shape.nodes <= 8);
    Ok(Nodes::of_words(first_words(alloc, shape)?))
}

fn nodes_in_pages(alloc: Global, shape: &Shape) -> Result<Nodes, AllocError>
    ensures { IfOk result (λ nodes. nodes ≡ first_words_of shape.now) }
{
    let mut lists = Vec::with_capacity(alloc, 1 + shape.nodes as usize)?;
    lists.push(control_pages(alloc, shape)?)?;
    for _ in 0..shape.nodes {
        lists.push(node_pages(alloc, shape)?)?;
    }
    Ok(Nodes::of_pages(lists))
}

fn control_pages(alloc: Global, shape: &Shape) -> Result<Pages, AllocError>
    ensures { IfOk result (λ words. words ≡ first_control shape.now) }
{
    let mut words = Pages::zeros(alloc, 1040)?;
    words.set(0, 65_536 + ((1 << shape.nodes) - 1));
    Ok(words)
}

fn node_pages(alloc: Global, shape: &Shape) -> Result<Pages, AllocError>
    ensures { IfOk result (λ words. words ≡ first_node shape.now) }
{
    let slots = 48 * shape.groups;
    let size = 128 + 512 * shape.blocks;
    let mut words = Pages::zeros(alloc, slots + shape.regions * size)?;
    for region in 0..shape.regions {
        put_bitmaps(&mut words, slots + region * size + 64, shape.blocks);
    }
    Ok(words)
}

// Puts the bitmap of a block that has all objects in stock, for so many blocks, where zeros stand.
fn put_bitmaps(words: &mut Pages, at: u32, blocks: u32)
    requires { at + blocks ≤ length words.old }
    ensures { (front : List ℕ) (rest : ℕ) → words.old ≡ front ++ replicate rest 0 → length front ≡ at → blocks ≤ rest
        → words.new ≡ front ++ replicate blocks (2 ^ 64 - 1) ++ replicate (rest - blocks) 0 }
{
    for block in 0..blocks {
        words.set(at as usize + block as usize, u64::MAX);
    }
}
