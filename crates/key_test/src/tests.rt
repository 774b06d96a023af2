ghost use Rattle.std.specs.Prelude.{◌≡◌, IfOk, length, map, replicate};

use super::*;
use Tested::{Going, Other, Refused, Same};
use object_form::Kind::{Tombstone, Value};
use region_view::{shape_of, view_of};
use std::alloc::{AllocError, Global};
use std::process::Abort;
use std::test::Fail;
use verb_words::Nodes;

const FRONT: u64 = 0x6867_6665_6463_6261;

// Tests of the key `abcdefghi`: words 1, 4 and 5 of the object, which are its meta word and its
// key's words, whether its node is lost, what is told at last, and after how many verbs.
const OBJECTS: &[([u64; 3], bool, Tested, u32)] = &[
    (
        [0x1_0009_0010, FRONT, 0x69],
        false,
        Same {
            kind: Value,
            value_len: 16,
        },
        3,
    ),
    (
        [0x2_0009_0000, FRONT, 0x69],
        false,
        Same {
            kind: Tombstone,
            value_len: 0,
        },
        3,
    ),
    ([0x1_0009_0011, FRONT, 0x69], false, Other, 1),
    ([0x1_0008_0001, FRONT, 0x69], false, Other, 1),
    ([0x1_0009_0001, FRONT + 1, 0x69], false, Other, 2),
    ([0x1_0009_0001, FRONT, 0x6a], false, Other, 3),
    ([0, FRONT, 0x69], false, Other, 1),
    ([0x1_0009_0001, FRONT, 0x69], true, Refused(1), 1),
];

// The control node and one memory node, of 688 words each.
fn two_nodes(alloc: Global, is_lost: bool, words: &[u64; 3]) -> Result<Nodes, AllocError>
    ensures { IfOk result (λ nodes. map length nodes ≡ replicate 2 688) }
{
    let mut control = vec![in alloc; 0; 688]?;
    let mut memory = vec![in alloc; 0; 688]?;
    control[1] = u64::from(is_lost);
    [memory[177], memory[180], memory[181]] = *words;
    Ok(Nodes::of_words(vec![in alloc; control, memory]?))
}

// Takes verbs until the test tells something else than that it goes on.
#[tactic(auto, using(crate::proofs::TestLemmas::square_has_place))]
fn run(rt: &impl Abort, nodes: &mut Nodes, test: &mut KeyTest) -> (Tested, u32)
    requires { map length nodes.old ≡ replicate 2 688 }
{
    for verbs in 1..10 {
        let verb = test.next();
        let place = verb.place();
        assert!(rt; place.node < 2 && place.at < 688);
        let told = test.after(nodes.apply(verb, true));
        if told != Going {
            return (told, verbs);
        }
    }
    (Going, 10)
}

#[test]
#[tactic(auto, using(crate::proofs::StateLemmas::first_object))]
fn keys_of_the_first_object(rt: HostRuntime) -> Result<(), Fail> {
    let Ok(shape) = shape_of(1, 1, 1, 1, 1, 1, 1) else {
        return Err("no shape".into());
    };
    for (words, is_lost, told, verbs) in OBJECTS {
        let Some(view) = view_of(shape, 1) else {
            return Err("no view".into());
        };
        assert!(rt; view.shape.regions == 1 && view.shape.blocks == 1);
        let mut nodes = two_nodes(rt.alloc(), *is_lost, words)?;
        let mut test = KeyTest::new(view, b"abcdefghi", 0x10_0010, 0);
        assert_eq!(rt; run(&rt, &mut nodes, &mut test), (*told, *verbs));
    }
    Ok(())
}

// Words of slots in a pool with one region of one block, and the object that each names, where it has
// the fingerprint of the key `k` too.
const SLOTS: &[(u64, Option<(u32, u8)>)] = &[
    (0xaf01_0000_0010_0010, Some((0x10_0010, 0))),
    (0xaf20_0000_0010_0030, Some((0x10_0030, 5))),
    (0xae01_0000_0010_0010, None),
    (0xaf20_0000_0010_0020, None),
    (0xaf03_0000_0010_0010, None),
    (0xaf01_0000_0010_000f, None),
    (0xaf01_0000_0010_0050, None),
    (0xaf01_0000_0020_0010, None),
    (0, None),
];

#[test]
fn objects_by_slot_words(rt: HostRuntime) -> Result<(), Fail> {
    let Ok(shape) = shape_of(1, 1, 1, 1, 1, 1, 1) else {
        return Err("no shape".into());
    };
    for (word, named) in SLOTS {
        match candidate_in(&shape, b"k", *word) {
            Some(Object { pointer, class }) => assert_eq!(rt; Some((pointer, class)), *named),
            None => assert_eq!(rt; None, *named),
        }
    }
    Ok(())
}
