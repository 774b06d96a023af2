ghost use Rattle.std.specs.Prelude.{◌≡◌, ◌+◌, ◌<◌, ◌≤◌, length, map};
ghost use Rattle.machine.specs.Places.{homes_of, pair_of, place_at, primary_place, replica_count, written_place};
ghost use Rattle.object_alloc.specs.Parts.{word_of, written_replica};

use arrayvec::ArrayVec;
use region_view::{View, word_places};
use verb_words::Place;

/// A word of a block.
#[derive(Clone, Copy, Debug)]
pub(crate) enum Part {
    /// Who owns the block.
    Owner,
    /// Which of its objects are in stock.
    Bitmap,
}

/// Where a block's word stands on each replica, the primary's place first.
#[tactic(auto, using(crate::proofs::PlaceLemmas::owner_pairs, crate::proofs::PlaceLemmas::bitmap_pairs))]
pub(crate) fn block_places(
    view: &View,
    part: Part,
    region: u32,
    block: u32,
) -> ArrayVec<(u32, u32), 5>
    requires least { 1 ≤ region }
    requires most { region ≤ view.now.shape.regions }
    requires block { block < view.now.shape.blocks }
    ensures places { result.items
        ≡ map (pair_of view.now.shape) (homes_of view.now (word_of part region block)) }
    ensures count { length result.items ≡ replica_count view.now (word_of part region block) }
{
    prove!(block < view.shape.blocks);
    match part {
        Part::Owner => word_places(view, region, block),
        Part::Bitmap => word_places(view, region, 64 + block),
    }
}

/// How many replicas a block's word has.
pub(crate) fn replica_count(view: &View, part: Part, region: u32, block: u32) -> usize
    requires least { 1 ≤ region }
    requires most { region ≤ view.now.shape.regions }
    requires block { block < view.now.shape.blocks }
    ensures count { result ≡ replica_count view.now (word_of part region block) }
    ensures few { result ≤ 5 }
{
    block_places(view, part, region, block).len()
}

/// Where a block's word stands on the primary. Some replica is left in the view.
pub(crate) fn primary_place(view: &View, part: Part, region: u32, block: u32) -> Place
    requires least { 1 ≤ region }
    requires most { region ≤ view.now.shape.regions }
    requires block { block < view.now.shape.blocks }
    requires some { 0 < replica_count view.now (word_of part region block) }
    ensures { result ≡ primary_place view.now (word_of part region block) }
{
    let places = block_places(view, part, region, block);
    let (node, at) = places[0];
    Place { node, at }
}

/// The i-th place at which a block's word is written that goes to each replica: the backups come
/// first, the primary last.
pub(crate) fn written_place(view: &View, part: Part, region: u32, block: u32, i: usize) -> Place
    requires least { 1 ≤ region }
    requires most { region ≤ view.now.shape.regions }
    requires block { block < view.now.shape.blocks }
    requires i { i < replica_count view.now (word_of part region block) }
    ensures { result ≡ written_place view.now (word_of part region block) i }
{
    let places = block_places(view, part, region, block);
    let (node, at) = places[written_replica(i, places.len())];
    Place { node, at }
}

/// The replica that is written at the i-th place of so many.
pub(crate) fn written_replica(i: usize, count: usize) -> usize
    requires { i < count }
    ensures replica { result ≡ written_replica i count }
    ensures within { result < count }
{
    if i + 1 < count { i + 1 } else { 0 }
}
