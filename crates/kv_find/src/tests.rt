ghost use Rattle.std.specs.Prelude.{◌≡◌, ◌<◌, IfOk, length, map, replicate};
ghost use Rattle.object_form.specs.Class.{words_for};

use super::*;
use Found::{At, Empty, Going, Nowhere, Refused};
use object_form::Kind::Value;
use region_view::{shape_of, view_of};
use slot_order::order;
use std::alloc::{AllocError, Global};
use std::process::Abort;
use std::test::Fail;
use verb_words::Nodes;

// The words of slots that name the first two objects of a pool for the key `a`, and one that names
// the first for another fingerprint.
const FIRST: u64 = 0xaf01_0000_0010_0010;

const SECOND: u64 = 0xaf01_0000_0010_0011;

const FOREIGN: u64 = 0xae01_0000_0010_0010;

const FOUND: Found = At {
    slot: 1,
    word: FIRST,
    kind: Value,
    value_len: 17,
};

// Searches for the key `a`, which the first object has and the second has not: the place that is
// searched from, the words of slots 0, 1 and 23, whether the node is lost, what is told at last, and
// after how many verbs.
const SEARCHES: &[(usize, [u64; 3], bool, Found, u32)] = &[
    (1, [0, FIRST, 0], false, FOUND, 3),
    (0, [SECOND, FIRST, 0], false, FOUND, 6),
    (0, [FOREIGN, FIRST, 0], false, FOUND, 4),
    (0, [0xaf, FIRST, 0], false, FOUND, 4),
    (0, [0, FIRST, 0], false, Empty { slot: 0 }, 1),
    (23, [0, FIRST, SECOND], false, Nowhere, 3),
    (0, [FIRST, 0, 0], true, Refused(1), 1),
];

// The control node and one memory node, of 688 words each. The first object has the key `a` and a
// value of 17 bytes, the second the key `b`.
fn two_nodes(alloc: Global, is_lost: bool, slots: &[u64; 3]) -> Result<Nodes, AllocError>
    ensures { IfOk result (λ nodes. map length nodes ≡ replicate 2 688) }
{
    let mut control = vec![in alloc; 0; 688]?;
    let mut memory = vec![in alloc; 0; 688]?;
    control[1] = u64::from(is_lost);
    [memory[0], memory[1], memory[23]] = *slots;
    [memory[177], memory[180]] = [0x1_0001_0011, 0x61];
    [memory[181], memory[182], memory[183]] = [0x6565_746e_6576_6573, 0x7265_7474_656c_206e, 0x73];
    [memory[185], memory[188]] = [0x1_0001_0011, 0x62];
    Ok(Nodes::of_words(vec![in alloc; control, memory]?))
}

// Takes verbs until the search tells something else than that it goes on.
#[tactic(auto, using(key_test::proofs::TestLemmas::square_has_place))]
fn run(rt: &impl Abort, nodes: &mut Nodes, find: &mut Find) -> (Found, u32)
    requires { map length nodes.old ≡ replicate 2 688 }
{
    for verbs in 1..10 {
        let verb = find.next();
        let place = verb.place();
        assert!(rt; place.node < 2 && place.at < 688);
        let told = find.after(nodes.apply(verb, true));
        if told != Going {
            return (told, verbs);
        }
    }
    (Going, 10)
}

#[test]
fn searches_over_a_small_pool(rt: HostRuntime) -> Result<(), Fail> {
    let Ok(shape) = shape_of(1, 1, 1, 1, 1, 1, 1) else {
        return Err("no shape".into());
    };
    for (from, slots, is_lost, told, verbs) in SEARCHES {
        let Some(view) = view_of(shape, 1) else {
            return Err("no view".into());
        };
        assert!(rt; view.shape.groups == 1);
        assert!(rt; *from < order(b"a", view.shape.groups).len());
        let mut nodes = two_nodes(rt.alloc(), *is_lost, slots)?;
        let mut find = Find::new(view, b"a", *from);
        assert_eq!(rt; run(&rt, &mut nodes, &mut find), (*told, *verbs));
        if *told == FOUND {
            assert_eq!(rt; find.place(), 1);
            assert_eq!(rt; find.pass(), Going);
            assert_eq!(rt; find.place(), 2);
        }
    }
    Ok(())
}

// Takes verbs until the reading tells something else than that it goes on.
#[tactic(auto, using(key_test::proofs::TestLemmas::square_has_place))]
fn read(rt: &impl Abort, nodes: &mut Nodes, reading: &mut ReadValue) -> (Fetched, u32)
    requires nodes { map length nodes.old ≡ replicate 2 688 }
    requires reading { length reading.old.words < words_for reading.old.value_len }
{
    for verbs in 1..10 {
        let verb = reading.next();
        let place = verb.place();
        assert!(rt; place.node < 2 && place.at < 688);
        let told = reading.after(nodes.apply(verb, true));
        if told != Fetched::Going {
            return (told, verbs);
        }
    }
    (Fetched::Going, 10)
}

#[test]
#[tactic(auto, using(crate::proofs::TestLemmas::first_has_room))]
fn a_value_of_three_words(rt: HostRuntime) -> Result<(), Fail> {
    let Ok(shape) = shape_of(1, 1, 1, 1, 1, 1, 1) else {
        return Err("no shape".into());
    };
    let Some(view) = view_of(shape, 1) else {
        return Err("no view".into());
    };
    assert!(rt; view.shape.regions == 1 && view.shape.blocks == 1);
    let mut nodes = two_nodes(rt.alloc(), false, &[0; 3])?;
    let mut reading = value(view, FIRST, 1, 17);
    assert_eq!(rt; read(&rt, &mut nodes, &mut reading), (Fetched::Whole, 3));
    assert_eq!(rt; reading.bytes(), b"seventeen letters".as_slice());
    reading.begin(view, FIRST, 1, 17);
    assert_eq!(rt; reading.bytes(), b"".as_slice());
    Ok(())
}
