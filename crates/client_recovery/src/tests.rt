ghost use Rattle.std.specs.Prelude.{◌≡◌, ◌<◌, ◌≤◌, IfOk, length, map, replicate};

use super::*;
use region_view::{Shape, shape_of};
use std::alloc::{AllocError, Global};
use std::process::Abort;
use std::test::Fail;
use verb_words::{Answer, Nodes, Place, Verb, Why};

const FULL: u64 = u64::MAX;

const OWNED: u64 = 0x0100_0000_0000_0100;

const RELEASED: u64 = 0x0200_0000_0000_0000;

// The slot words of the first and of the second object, for the key `a`.
const FIRST: u64 = 0xaf01_0000_0010_0010;

const SECOND: u64 = 0xaf01_0000_0010_0011;

// What two puts of `a` by client 1 leave, word by word: node, position and word, and then what its
// recovery makes of the slot after that, and whether it has won. The index has its primary on node 1,
// and the objects have theirs on node 2.
const PUTS: &[(u32, u32, u64, u64, bool)] = &[
    (0, 16, 1, 0, false),
    (2, 48, OWNED, 0, false),
    (1, 48, OWNED, 0, false),
    (0, 18, 0x10_0010, 0, false),
    (1, 112, FULL - 1, 0, false),
    (2, 112, FULL - 1, 0, false),
    (1, 177, 0x1_0001_0001, 0, false),
    (2, 177, 0x1_0001_0001, 0, false),
    (1, 180, 0x61, 0, false),
    (2, 180, 0x61, 0, false),
    (1, 181, 0x31, 0, false),
    (2, 181, 0x31, 0, false),
    (1, 176, 0x10_0000_1010_0011, 0, false),
    (2, 176, 0x10_0000_1010_0011, 0, false),
    (1, 178, 1, 0, false),
    (2, 178, 1, FIRST, true),
    (2, 0, FIRST, FIRST, true),
    (1, 0, FIRST, FIRST, true),
    (0, 16, 2, FIRST, false),
    (0, 16, 3, FIRST, false),
    (1, 112, FULL - 3, FIRST, false),
    (2, 112, FULL - 3, FIRST, false),
    (1, 185, 0x1_0001_0001, FIRST, false),
    (2, 185, 0x1_0001_0001, FIRST, false),
    (1, 188, 0x61, FIRST, false),
    (2, 188, 0x61, FIRST, false),
    (1, 189, 0x32, FIRST, false),
    (2, 189, 0x32, FIRST, false),
    (1, 184, 0x10_0000_2010_0012, FIRST, false),
    (2, 184, 0x10_0000_2010_0012, FIRST, false),
    (1, 187, FIRST, FIRST, false),
    (2, 187, FIRST, FIRST, false),
    (1, 186, 2, FIRST, false),
    (2, 186, 2, SECOND, true),
    (2, 0, SECOND, SECOND, true),
    (1, 0, SECOND, SECOND, true),
    (1, 112, FULL - 2, SECOND, true),
    (2, 112, FULL - 2, SECOND, true),
    (0, 16, 4, SECOND, false),
];

// The control node and two memory nodes, of 1,040 words each, at the opening.
fn three_nodes(alloc: Global) -> Result<Nodes, AllocError>
    ensures { IfOk result (λ nodes. map length nodes ≡ replicate 3 1040) }
{
    let mut control = vec![in alloc; 0; 1040]?;
    let mut first = vec![in alloc; 0; 1040]?;
    let mut second = vec![in alloc; 0; 1040]?;
    control[0] = 0x1_0003;
    first[112] = FULL;
    second[112] = FULL;
    Ok(Nodes::of_words(vec![in alloc; control, first, second]?))
}

#[tactic(auto, using(crate::proofs::TestLemmas::square_has_place))]
fn apply(rt: &impl Abort, nodes: &mut Nodes, verb: Verb) -> Answer
    requires { map length nodes.old ≡ replicate 3 1040 }
    ensures { map length nodes.new ≡ replicate 3 1040 }
{
    let place = verb.place();
    assert!(rt; place.node < 3 && place.at < 1040);
    nodes.apply(verb, true)
}

fn store(rt: &impl Abort, nodes: &mut Nodes, node: u32, at: u32, word: u64)
    requires { map length nodes.old ≡ replicate 3 1040 }
    ensures { map length nodes.new ≡ replicate 3 1040 }
{
    apply(rt, nodes, Verb::Write(Place { node, at }, word));
}

#[tactic(auto, using(crate::proofs::TestLemmas::square_has_place))]
fn word(nodes: &Nodes, node: u32, at: u32) -> u64
    requires words { map length nodes.now ≡ replicate 3 1040 }
    requires node { node < 3 }
    requires at { at < 1040 }
{
    nodes.word(Place { node, at })
}

// The word of the one block, its bitmap and slot 0, on a node.
fn standing(nodes: &Nodes, node: u32) -> (u64, u64, u64)
    requires words { map length nodes.now ≡ replicate 3 1040 }
    requires node { node < 3 }
{
    (
        word(nodes, node, 48),
        word(nodes, node, 112),
        word(nodes, node, 0),
    )
}

// Applies the words that the first steps of the puts leave.
fn put(rt: &impl Abort, nodes: &mut Nodes, steps: usize)
    requires nodes { map length nodes.old ≡ replicate 3 1040 }
    ensures { map length nodes.new ≡ replicate 3 1040 }
{
    for (index, (node, at, word, _, _)) in PUTS.iter().enumerate() {
        if index < steps {
            store(rt, nodes, *node, *at, *word);
        }
    }
}

// Takes verbs of the recovery of client 1 until its end.
fn recover(rt: &impl Abort, nodes: &mut Nodes, shape: Shape) -> (Recovering, bool)
    requires nodes { map length nodes.old ≡ replicate 3 1040 }
    requires client { 1 ≤ shape.clients }
    ensures { map length nodes.new ≡ replicate 3 1040 }
{
    let mut recovery = Recovery::new(1, shape);
    for _ in 0..60 {
        let verb = recovery.next();
        let told = recovery.after(apply(rt, nodes, verb));
        if told != Recovering::Going {
            return (told, recovery.won());
        }
    }
    (Recovering::Going, recovery.won())
}

// The words of a bitmap in which the object that the slot names is out of stock.
fn bits_beside(slot: u64) -> u64 {
    match slot {
        FIRST => FULL - 1,
        SECOND => FULL - 2,
        _ => FULL,
    }
}

#[test]
fn recoveries_at_every_step_of_two_puts(rt: HostRuntime) -> Result<(), Fail> {
    let Ok(shape) = shape_of(2, 2, 1, 1, 1, 1, 10) else {
        return Err("no shape".into());
    };
    assert!(rt; 1 <= shape.clients);
    for (index, (_, _, _, slot, won)) in PUTS.iter().enumerate() {
        let mut nodes = three_nodes(rt.alloc())?;
        put(&rt, &mut nodes, index + 1);
        assert_eq!(rt;
            recover(&rt, &mut nodes, shape),
            (Recovering::Recovered, *won)
        );
        assert_eq!(rt; word(&nodes, 0, 16), if index < 19 { 2 } else { 4 });
        let block = if index == 0 { 0 } else { RELEASED };
        let expected = (block, bits_beside(*slot), *slot);
        assert_eq!(rt; standing(&nodes, 1), expected);
        assert_eq!(rt; standing(&nodes, 2), expected);
    }
    Ok(())
}

// What keeps a recovery of the second put before its slot is written, as node, position and word; what
// is told; and the word by which a further recovery is done.
const KEPT: &[(u32, u32, u64, Why, u32, u32, u64)] = &[
    (0, 0, 0x1_0103, Why::Sealed(0x1_0103), 0, 0, 0x1_0003),
    (0, 1, 1, Why::Lost(1), 0, 1, 0),
    (0, 2, 1, Why::Lost(2), 0, 2, 0),
    (
        2,
        0,
        0xaf01_0000_0010_0000,
        Why::Unchanged {
            slot: 0,
            word: FIRST,
        },
        2,
        0,
        FIRST,
    ),
];

#[test]
fn recoveries_after_each_not_yet(rt: HostRuntime) -> Result<(), Fail> {
    let Ok(shape) = shape_of(2, 2, 1, 1, 1, 1, 10) else {
        return Err("no shape".into());
    };
    assert!(rt; 1 <= shape.clients);
    for (node, at, word, why, other_node, other_at, other_word) in KEPT {
        let mut nodes = three_nodes(rt.alloc())?;
        put(&rt, &mut nodes, 34);
        store(&rt, &mut nodes, *node, *at, *word);
        assert_eq!(rt;
            recover(&rt, &mut nodes, shape),
            (Recovering::NotYet(*why), false)
        );
        store(&rt, &mut nodes, *other_node, *other_at, *other_word);
        assert_eq!(rt;
            recover(&rt, &mut nodes, shape),
            (Recovering::Recovered, true)
        );
        assert_eq!(rt;
            standing(&nodes, 1),
            (RELEASED, bits_beside(SECOND), SECOND)
        );
    }
    Ok(())
}

// The slot word of the fourth object, which another client puts in place of the second or of the first.
const OTHER: u64 = 0xaf01_0000_0010_0013;

// Recoveries after another client's put: how many steps were taken of the two puts before, the other
// object's version and the word that it has replaced; whether the second put has won, its object's
// version afterwards, and the bitmap.
const OTHERS: &[(usize, u64, u64, bool, u64, u64)] = &[
    (36, 3, SECOND, true, 2, FULL - 2),
    (34, 2, FIRST, false, 0, FULL - 1),
    (32, 2, FIRST, false, 0, FULL - 1),
];

#[test]
fn recoveries_after_another_put(rt: HostRuntime) -> Result<(), Fail> {
    let Ok(shape) = shape_of(2, 2, 1, 1, 1, 1, 10) else {
        return Err("no shape".into());
    };
    assert!(rt; 1 <= shape.clients);
    for (steps, version, replaced, won, left, bits) in OTHERS {
        let mut nodes = three_nodes(rt.alloc())?;
        put(&rt, &mut nodes, *steps);
        store(&rt, &mut nodes, 2, 201, 0x1_0001_0001);
        store(&rt, &mut nodes, 2, 202, *version);
        store(&rt, &mut nodes, 2, 203, *replaced);
        store(&rt, &mut nodes, 2, 204, 0x61);
        store(&rt, &mut nodes, 2, 0, OTHER);
        store(&rt, &mut nodes, 1, 0, OTHER);
        assert_eq!(rt;
            recover(&rt, &mut nodes, shape),
            (Recovering::Recovered, *won)
        );
        assert_eq!(rt; standing(&nodes, 1), (RELEASED, *bits, OTHER));
        assert_eq!(rt; standing(&nodes, 2), (RELEASED, *bits, OTHER));
        assert_eq!(rt;
            (word(&nodes, 1, 186), word(&nodes, 2, 186)),
            (*left, *left)
        );
    }
    Ok(())
}
