ghost use Rattle.std.specs.Prelude.{◌≡◌, ◌<◌, ◌≤◌, length};
ghost use Rattle.machine.specs.Copying.{copied_words, other_places, read_place_of, shadow_places, sources_of, written_places_of};
ghost use Rattle.region_view.specs.Placed.{region_size};

use arrayvec::ArrayVec;
use region_view::{Shape, View, word_places};

/// Where a word is read that is copied, and where it is written, each as node and position.
#[derive(Debug, Drop)]
pub struct Targets {
    /// The word's place on the first replica of its region among the sources.
    pub from: (u32, u32),
    /// Its places on the other replicas of the new view, and then those of a slot's shadows.
    pub to: ArrayVec<(u32, u32), 10>,
}

/// The nodes that words are copied from: those of the old mask that are live.
pub fn sources(_shape: &Shape, old: u8, live: u8) -> u8
    ensures { result ≡ sources_of old live }
{
    old & live
}

/// Where the word at this offset of the region is read in a view of the sources, and where it is
/// written in the fresh view. The word is a slot, where the region is that of the index.
pub fn copy_of(source: &View, fresh: &View, region: u32, offset: u32) -> Targets
    requires shape { source.now.shape ≡ fresh.now.shape }
    requires region { region ≤ fresh.now.shape.regions }
    requires offset { offset < copied_words fresh.now.shape region }
    ensures from { result.from ≡ read_place_of source.now region offset }
    ensures to { result.to.items ≡ written_places_of source.now fresh.now region offset }
{
    // The sizes are read, so that they are known to be within their limits.
    prove!(source.shape.groups <= 256 && fresh.shape.groups <= 256);
    let from = word_places(source, region, offset)[0];
    let mut to = others(fresh, from.0, region, offset);
    let shadows = shadows(fresh, region, offset);
    for place in shadows.as_slice() {
        to.push(*place);
    }
    Targets { from, to }
}

// The word's places on the replicas but this one.
fn others(fresh: &View, read: u32, region: u32, offset: u32) -> ArrayVec<(u32, u32), 10>
    requires region { region ≤ fresh.now.shape.regions }
    requires offset { offset < region_size fresh.now.shape region }
    ensures places { result.items ≡ other_places fresh.now read region offset }
    ensures few { length result.items ≤ 5 }
{
    let places = word_places(fresh, region, offset);
    let mut others = ArrayVec::new();
    for place in places.as_slice() {
        if place.0 != read {
            others.push(*place);
        }
    }
    others
}

// The places of a slot's shadow on all replicas; other words have none.
fn shadows(fresh: &View, region: u32, offset: u32) -> ArrayVec<(u32, u32), 5>
    requires { offset < copied_words fresh.now.shape region }
    ensures places { result.items ≡ shadow_places fresh.now region offset }
    ensures few { length result.items ≤ 5 }
{
    // The sizes are read, so that they are known to be within their limits.
    prove!(fresh.shape.groups <= 256);
    if region == 0 {
        word_places(fresh, 0, 24 * fresh.shape.groups + offset)
    } else {
        ArrayVec::new()
    }
}
