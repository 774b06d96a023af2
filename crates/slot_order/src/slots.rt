ghost use Rattle.std.specs.Prelude.{◌≡◌, ◌≢◌, ◌+◌, ◌*◌, ◌/◌, ◌^◌, ◌<◌, ◌≤◌, ◌++◌, All, AllPairs, take};
ghost use Rattle.arrayvec.specs.ArrayVec.{array_vec_len};
ghost use Rattle.slot_order.specs.Slots as specs;
ghost use Rattle.slot_order.specs.Slots.{first_bucket, second_bucket, order_of};

use crate::fnv::{fnv1a, hash_after};
use arrayvec::ArrayVec;

/// How many bucket groups an index has at most.
pub const MOST_GROUPS: u32 = 256;

/// A key's slots in an index of 1 to 256 bucket groups, in the order in which a call reads them:
/// 16, 24 or 32 different slots, each below 24 times the groups. It takes no memory.
///
/// They are those of the main bucket and the overflow bucket of the key's first hash, the FNV-1a 64
/// of its bytes, then those of its second hash, the FNV-1a 64 of its bytes followed by the byte ff:
/// each bucket by rising slot, with a slot that has already come left out. The buckets are those of
/// RACE hashing (USENIX ATC 2021): main bucket m is side m % 2 of group m / 2.
pub fn order(key: &[u8], groups: u32) -> ArrayVec<u32, 32>
    requires some { 0 < groups }
    requires most { groups ≤ MOST_GROUPS }
    ensures slots { result.items ≡ order_of key.now groups }

    // No slot comes twice, and each is a slot of the index. The first eight are a main bucket.
    ensures different { AllPairs (λ one other. one ≢ other) result.items }
    ensures below { All (λ slot. slot < 24 * groups) result.items }
    ensures first { take 8 result.items ≡ specs.main_slots (first_bucket key.now groups) }

    // How many there are says what the two hashes choose.
    ensures one_bucket { first_bucket key.now groups ≡ second_bucket key.now groups
        → array_vec_len result ≡ 16 }
    ensures one_group { first_bucket key.now groups ≢ second_bucket key.now groups
        → first_bucket key.now groups / 2 ≡ second_bucket key.now groups / 2
        → array_vec_len result ≡ 24 }
    ensures two_groups { first_bucket key.now groups / 2 ≢ second_bucket key.now groups / 2
        → array_vec_len result ≡ 32 }
{
    let hash = fnv1a(key);
    let first = main_bucket(hash, groups);
    let second = main_bucket(hash_after(hash, 0xff), groups);
    slots_of_buckets(first, second)
}

/// The main bucket that a hash chooses.
fn main_bucket(hash: u64, groups: u32) -> u32
    requires some { 0 < groups }
    requires most { groups ≤ MOST_GROUPS }
    ensures bucket { result ≡ specs.main_bucket groups hash }
    ensures below { result < 2 * groups }
{
    (hash >> 32) as u32 % (2 * groups)
}

/// The slots of one main bucket and its overflow bucket, then those of another that are new.
fn slots_of_buckets(first: u32, second: u32) -> ArrayVec<u32, 32>
    requires first { first < 2 * MOST_GROUPS }
    requires second { second < 2 * MOST_GROUPS }
    ensures { result.items ≡ specs.then_new (specs.bucket_slots first) (specs.bucket_slots second) }
{
    let mut slots = ArrayVec::new();
    push_eight(&mut slots, main_start(first));
    push_eight(&mut slots, overflow_start(first));
    if first == second {
        return slots;
    }
    push_eight(&mut slots, main_start(second));
    if first / 2 == second / 2 {
        return slots;
    }
    push_eight(&mut slots, overflow_start(second));
    slots
}

/// The first slot of a main bucket.
fn main_start(bucket: u32) -> u32
    requires { bucket < 2 * MOST_GROUPS }
    ensures start { result ≡ specs.main_start bucket }
    ensures below { result < 24 * MOST_GROUPS }
{
    24 * (bucket / 2) + 16 * (bucket % 2)
}

/// The first slot of the overflow bucket that a main bucket shares.
fn overflow_start(bucket: u32) -> u32
    requires { bucket < 2 * MOST_GROUPS }
    ensures start { result ≡ specs.overflow_start bucket }
    ensures below { result < 24 * MOST_GROUPS }
{
    24 * (bucket / 2) + 8
}

/// Appends a slot and the seven after it.
fn push_eight(slots: &mut ArrayVec<u32, 32>, start: u32)
    requires room { array_vec_len slots.old + 8 ≤ 32 }
    requires below { start < 24 * MOST_GROUPS }
    ensures items { slots.new.items ≡ slots.old.items ++ specs.eight_from start }
    ensures len { array_vec_len slots.new ≡ array_vec_len slots.old + 8 }
{
    for past in 0..8 {
        slots.push(start + past);
    }
}
