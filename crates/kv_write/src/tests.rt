ghost use Rattle.std.specs.Prelude.{◌≡◌, ◌<◌, IfOk, length, map, replicate};

use super::*;
use object_form::{Kind, Link};
use region_view::{shape_of, view_of};
use std::alloc::{AllocError, Global};
use std::process::Abort;
use std::test::Fail;
use verb_words::{Answer, Nodes, Place, Verb};

// The control node and two memory nodes, of 688 words each, of which one is lost; 0 for none.
fn three_nodes(alloc: Global, lost: usize) -> Result<Nodes, AllocError>
    requires { lost < 3 }
    ensures { IfOk result (λ nodes. map length nodes ≡ replicate 3 688) }
{
    let mut control = vec![in alloc; 0; 688]?;
    let first = vec![in alloc; 0; 688]?;
    let second = vec![in alloc; 0; 688]?;
    if lost > 0 {
        control[lost] = 1;
    }
    Ok(Nodes::of_words(vec![in alloc; control, first, second]?))
}

#[tactic(auto, using(crate::proofs::TestLemmas::square_has_place))]
fn word(nodes: &Nodes, node: u32, at: u32) -> u64
    requires words { map length nodes.now ≡ replicate 3 688 }
    requires node { node < 3 }
    requires at { at < 688 }
{
    nodes.word(Place { node, at })
}

#[tactic(auto, using(crate::proofs::TestLemmas::square_has_place))]
fn answer(rt: &impl Abort, nodes: &mut Nodes, verb: Verb) -> Answer
    requires { map length nodes.old ≡ replicate 3 688 }
    ensures { map length nodes.new ≡ replicate 3 688 }
{
    let place = verb.place();
    assert!(rt; place.node < 3 && place.at < 688);
    nodes.apply(verb, true)
}

// Takes verbs until the writing tells something else than that it goes on.
fn run_object(rt: &impl Abort, nodes: &mut Nodes, write: &mut ObjectWrite) -> (Written, u32)
    requires { map length nodes.old ≡ replicate 3 688 }
    ensures { map length nodes.new ≡ replicate 3 688 }
{
    for verbs in 1..20 {
        let told = write.after(answer(rt, nodes, write.next()));
        if told != Written::Going {
            return (told, verbs);
        }
    }
    (Written::Going, 20)
}

fn run_log(rt: &impl Abort, nodes: &mut Nodes, write: &mut LogWrite) -> (Written, u32)
    requires { map length nodes.old ≡ replicate 3 688 }
    ensures { map length nodes.new ≡ replicate 3 688 }
{
    for verbs in 1..20 {
        let told = write.after(answer(rt, nodes, write.next()));
        if told != Written::Going {
            return (told, verbs);
        }
    }
    (Written::Going, 20)
}

fn run_resolve(rt: &impl Abort, nodes: &mut Nodes, resolve: &mut Resolve) -> (Resolved, u32)
    requires { map length nodes.old ≡ replicate 3 688 }
{
    for verbs in 1..20 {
        let told = resolve.after(answer(rt, nodes, resolve.next()));
        if told != Resolved::Going {
            return (told, verbs);
        }
    }
    (Resolved::Going, 20)
}

// Writings of the first object of region 1, whose primary is node 2 and whose backup is node 1: the
// mask, the node that is lost, what is told of the body at last and after how many verbs, and of the
// log. Then the object's words on node 1 and on node 2.
const WHOLE: [u64; 7] = [
    0x0010_0000_2000_0000,
    0x1_0009_0003,
    6,
    5,
    0x6867_6665_6463_6261,
    0x69,
    0x7a_7978,
];

const WRITINGS: &[(u8, usize, Written, u32, Written, u32, [u64; 7], [u64; 7])] = &[
    (0b11, 0, Written::Whole, 14, Written::Whole, 4, WHOLE, WHOLE),
    (0b01, 0, Written::Whole, 7, Written::Whole, 2, WHOLE, [0; 7]),
    (
        0b11,
        1,
        Written::Refused(1),
        1,
        Written::Refused(1),
        1,
        [0; 7],
        [0; 7],
    ),
    (
        0b11,
        2,
        Written::Refused(2),
        2,
        Written::Refused(2),
        2,
        [0, 0x1_0009_0003, 0, 5, 0, 0, 0],
        [0; 7],
    ),
];

#[test]
#[tactic(auto, using(crate::proofs::TestLemmas::first_takes, crate::proofs::TestLemmas::first_object))]
fn writings_on_two_replicas(rt: HostRuntime) -> Result<(), Fail> {
    let Ok(shape) = shape_of(2, 2, 1, 1, 1, 1, 9) else {
        return Err("no shape".into());
    };
    for (mask, lost, body_told, body_verbs, log_told, log_verbs, first, second) in WRITINGS {
        let Some(view) = view_of(shape, *mask) else {
            return Err("no view".into());
        };
        assert!(rt; view.shape.regions == 1 && view.shape.blocks == 1 && *lost < 3);
        let mut nodes = three_nodes(rt.alloc(), *lost)?;
        let link = Link {
            client: 1,
            call: 2,
            next: 0,
        };
        let mut written = body(view, 0x10_0010, link, Kind::Value, b"abcdefghi", b"xyz");
        assert_eq!(rt;
            run_object(&rt, &mut nodes, &mut written),
            (*body_told, *body_verbs)
        );
        let mut logged = log(view, 0x10_0010, 5, 6);
        assert_eq!(rt;
            run_log(&rt, &mut nodes, &mut logged),
            (*log_told, *log_verbs)
        );
        for index in 0..7 {
            assert_eq!(rt; word(&nodes, 1, 176 + index as u32), first[index]);
            assert_eq!(rt; word(&nodes, 2, 176 + index as u32), second[index]);
        }
        let mut erased = erase(view, 0x10_0010);
        assert_eq!(rt; run_log(&rt, &mut nodes, &mut erased).0, *log_told);
        assert_eq!(rt; word(&nodes, 1, 178), 0);
        assert_eq!(rt; word(&nodes, 2, 178), 0);
        written.begin(view, 0x10_0010, link, Kind::Value, b"abcdefghi", b"xyz");
        assert_eq!(rt;
            run_object(&rt, &mut nodes, &mut written),
            (*body_told, *body_verbs)
        );
    }
    Ok(())
}

// Writes of slot 7 for the key `k`, to the object 9 and its version 2: the expected word, whether node 2
// is lost, the slot's word, words 1 to 4 of the first object and words 2 and 3 of the second, what is
// told at last, and after how many verbs.
const FIRST: u64 = 0xaf01_0000_0010_0010;

const SECOND: u64 = 0xaf01_0000_0010_0011;

const FRESH: u64 = 0xaf01_0000_0010_0019;

const WRITES: &[(u64, bool, u64, [u64; 4], [u64; 2], Resolved, u32)] = &[
    (5, false, 5, [0; 4], [0; 2], Resolved::Still, 1),
    (5, false, FRESH, [0; 4], [0; 2], Resolved::Won, 1),
    (5, false, 0, [0; 4], [0; 2], Resolved::Beaten, 1),
    (5, true, 0, [0; 4], [0; 2], Resolved::Refused(2), 1),
    (
        5,
        false,
        FIRST,
        [0, 2, FRESH, 0],
        [0; 2],
        Resolved::Beaten,
        2,
    ),
    (5, false, FIRST, [0, 3, FRESH, 0], [0; 2], Resolved::Won, 3),
    (
        5,
        false,
        FIRST,
        [0, 4, SECOND, 0],
        [3, FRESH],
        Resolved::Won,
        5,
    ),
    (
        5,
        false,
        FIRST,
        [0, 4, SECOND, 0],
        [4, FRESH],
        Resolved::Beaten,
        4,
    ),
    (5, false, FIRST, [0, 3, 5, 0], [0; 2], Resolved::Beaten, 3),
    (0, false, 0, [0; 4], [0; 2], Resolved::Still, 1),
    (
        0,
        false,
        FIRST + (1 << 56),
        [0; 4],
        [0; 2],
        Resolved::OtherKey,
        1,
    ),
    (
        0,
        false,
        FIRST,
        [0x1_0001_0000, 3, FRESH, 0x6c],
        [0; 2],
        Resolved::OtherKey,
        3,
    ),
    (
        0,
        false,
        FIRST,
        [0x1_0001_0000, 3, FRESH, 0x6b],
        [0; 2],
        Resolved::Won,
        5,
    ),
];

#[test]
#[tactic(auto, using(crate::proofs::TestLemmas::square_has_place))]
fn resolutions_of_one_slot(rt: HostRuntime) -> Result<(), Fail> {
    let Ok(shape) = shape_of(2, 2, 1, 1, 1, 1, 9) else {
        return Err("no shape".into());
    };
    for (expect, is_lost, slot, first, second, told, verbs) in WRITES {
        let Some(view) = view_of(shape, 0b10) else {
            return Err("no view".into());
        };
        assert!(rt; 7 < 24 * view.shape.groups);
        let mut nodes = three_nodes(rt.alloc(), if *is_lost { 2 } else { 0 })?;
        store(&mut nodes, 7, *slot);
        for (index, word) in first.iter().enumerate() {
            store(&mut nodes, 177 + index as u32, *word);
        }
        store(&mut nodes, 186, second[0]);
        store(&mut nodes, 187, second[1]);
        let mut resolve = resolving(view, 7, *expect, FRESH, 2, b"k");
        assert_eq!(rt; run_resolve(&rt, &mut nodes, &mut resolve), (*told, *verbs));
    }
    Ok(())
}

// Puts a word on node 2.
#[tactic(auto, using(crate::proofs::TestLemmas::square_has_place))]
fn store(nodes: &mut Nodes, at: u32, word: u64)
    requires words { map length nodes.old ≡ replicate 3 688 }
    requires at { at < 688 }
    ensures { map length nodes.new ≡ replicate 3 688 }
{
    nodes.apply(Verb::Write(Place { node: 2, at }, word), false);
}
