ghost use Rattle.std.specs.Prelude.{◌≡◌, ◌<◌, IfOk, length, map, replicate};

use super::*;
use Wrote::{Changed, Going, Refused, Unchanged, Won};
use region_view::{shape_of, view_of};
use std::alloc::{AllocError, Global};
use std::process::Abort;
use std::test::Fail;
use verb_words::{Nodes, Place};

// A write of slot 7 from the word 1 to the word 5: the mask, whether node 3 is lost, the words before,
// what is told at last, after how many verbs, and the words then. The words are the slot on node 1,
// its shadow there, and the slot on nodes 2 and 3.
const WRITES: &[(u8, bool, [u64; 4], Wrote, u32, [u64; 4])] = &[
    (0b001, false, [1, 1, 0, 0], Won, 2, [5, 5, 0, 0]),
    (0b001, false, [1, 9, 0, 0], Unchanged(1), 2, [1, 9, 0, 0]),
    (0b111, false, [1, 0, 1, 1], Won, 3, [5, 0, 5, 5]),
    (0b111, false, [1, 0, 9, 1], Won, 5, [5, 0, 5, 5]),
    (0b111, false, [8, 0, 9, 1], Changed(8), 3, [8, 0, 9, 5]),
    (0b111, false, [1, 0, 1, 3], Unchanged(1), 3, [1, 0, 5, 3]),
    (0b111, false, [8, 0, 8, 8], Changed(8), 3, [8, 0, 8, 8]),
    (0b111, true, [1, 0, 1, 1], Refused(3), 2, [1, 0, 5, 1]),
];

// The control node and three memory nodes, of 48 words each.
fn four_nodes(alloc: Global, third_is_lost: bool, words: &[u64; 4]) -> Result<Nodes, AllocError>
    ensures { IfOk result (λ nodes. map length nodes ≡ replicate 4 48) }
{
    let mut control = vec![in alloc; 0; 48]?;
    let mut first = vec![in alloc; 0; 48]?;
    let mut second = vec![in alloc; 0; 48]?;
    let mut third = vec![in alloc; 0; 48]?;
    control[3] = u64::from(third_is_lost);
    [first[7], first[31], second[7], third[7]] = *words;
    Ok(Nodes::of_words(vec![in alloc; control, first, second, third]?))
}

#[tactic(auto, using(crate::proofs::TestLemmas::square_has_place))]
fn word(nodes: &Nodes, node: u32, at: u32) -> u64
    requires words { map length nodes.now ≡ replicate 4 48 }
    requires node { node < 4 }
    requires at { at < 48 }
{
    nodes.word(Place { node, at })
}

// Takes verbs until the write tells something else than that it goes on.
#[tactic(auto, using(crate::proofs::TestLemmas::square_has_place))]
fn run(rt: &impl Abort, nodes: &mut Nodes, write: &mut SlotWrite) -> (Wrote, u32)
    requires { map length nodes.old ≡ replicate 4 48 }
    ensures { map length nodes.new ≡ replicate 4 48 }
{
    for verbs in 1..10 {
        let verb = write.next();
        let place = verb.place();
        assert!(rt; place.node < 4 && place.at < 48);
        let told = write.after(nodes.apply(verb, true));
        if told != Going {
            return (told, verbs);
        }
    }
    (Going, 10)
}

#[test]
fn writes_on_one_backup_and_on_two(rt: HostRuntime) -> Result<(), Fail> {
    let Ok(shape) = shape_of(3, 3, 1, 1, 1, 1, 1) else {
        return Err("no shape".into());
    };
    for (mask, third_is_lost, before, told, verbs, after) in WRITES {
        let Some(view) = view_of(shape, *mask) else {
            return Err("no view".into());
        };
        assert!(rt; 7 < 24 * view.shape.groups);
        let mut nodes = four_nodes(rt.alloc(), *third_is_lost, before)?;
        let mut write = SlotWrite::new(view, 7, 1, 5);
        assert_eq!(rt; run(&rt, &mut nodes, &mut write), (*told, *verbs));
        let [slot, shadow, second, third] = *after;
        assert_eq!(rt; word(&nodes, 1, 7), slot);
        assert_eq!(rt; word(&nodes, 1, 31), shadow);
        assert_eq!(rt; word(&nodes, 2, 7), second);
        assert_eq!(rt; word(&nodes, 3, 7), third);
    }
    Ok(())
}
