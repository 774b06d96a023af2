ghost use Rattle.std.specs.Prelude.{◌≡◌, ◌≤◌, IfOk, map};
ghost use Rattle.region_view.specs.Opening.{first_control, first_node, first_region, first_words_of};
ghost use Rattle.region_view.specs.Sizes.{all_words};

use crate::shapes::Shape;
use std::alloc::{AllocError, Global};

/// The words that a pool of this shape opens with: a list for each node, the control node's first.
/// The shape has at most 2,097,152 words, 16 MiB.
pub fn first_words(alloc: Global, shape: &Shape) -> Result<Vec<Vec<u64>>, AllocError>
    requires { all_words shape.now ≤ 2097152 }
    ensures { IfOk result (λ lists. map (λ list. list.items) lists.items
        ≡ first_words_of shape.now) }
{
    let region = region_words(alloc, shape)?;
    let mut lists = Vec::with_capacity(alloc, 1 + shape.nodes as usize)?;
    lists.push(control_words(alloc, shape)?)?;
    for _ in 0..shape.nodes {
        lists.push(node_words(alloc, shape, &region)?)?;
    }
    Ok(lists)
}

fn control_words(alloc: Global, shape: &Shape) -> Result<Vec<u64>, AllocError>
    ensures { IfOk result (λ words. words.items ≡ first_control shape.now) }
{
    let mut words = Vec::with_capacity(alloc, 1040)?;
    words.push(65_536 + ((1 << shape.nodes) - 1))?;
    words.resize(1040, 0)?;
    Ok(words)
}

// The words of a memory node whose regions each open with these. The list never grows: a growing one
// is copied over and over.
fn node_words(alloc: Global, shape: &Shape, region: &[u64]) -> Result<Vec<u64>, AllocError>
    requires { region.now ≡ first_region shape.now }
    ensures { IfOk result (λ words. words.items ≡ first_node shape.now) }
{
    let slots = 48 * shape.groups as usize;
    let regions = shape.regions as usize * (128 + 512 * shape.blocks as usize);
    let mut words = Vec::with_capacity(alloc, slots + regions)?;
    words.resize(slots, 0)?;
    for _ in 0..shape.regions {
        words.extend_from_slice(region)?;
    }
    Ok(words)
}

fn region_words(alloc: Global, shape: &Shape) -> Result<Vec<u64>, AllocError>
    ensures { IfOk result (λ words. words.items ≡ first_region shape.now) }
{
    let blocks = shape.blocks as usize;
    let mut words = Vec::with_capacity(alloc, 128 + 512 * blocks)?;
    words.resize(64, 0)?;
    words.resize(64 + blocks, u64::MAX)?;
    words.resize(128 + 512 * blocks, 0)?;
    Ok(words)
}
