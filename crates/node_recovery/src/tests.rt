ghost use Rattle.std.specs.Prelude.{◌≡◌, ◌<◌, IfOk, length, map, replicate};

use super::*;
use Settled::{Going, NotYet, Opened};
use region_view::shape_of;
use std::alloc::{AllocError, Global};
use std::process::Abort;
use std::test::Fail;
use verb_words::{Nodes, Place, Verb};

const WAITING: Settled = NotYet {
    client: 1,
    begin: 1,
};

// Settlings of three nodes: the epoch word, the status words, the begin and pause word of client 1,
// the stopped clients, what is told at last, and after how many verbs. Of the 24 slots and 640 words
// that are copied, a slot goes to the shadows too.
const SETTLINGS: &[(u64, [u64; 3], [u64; 2], u64, Settled, u32)] = &[
    (0x1_0007, [1, 0, 0], [2, 0], 0, Opened(0x2_0006), 1383),
    (0x1_0107, [1, 0, 0], [2, 0], 0, Opened(0x2_0006), 1382),
    (0x1_0007, [1, 0, 0], [1, 0], 0, WAITING, 4),
    (
        0x1_0007,
        [1, 0, 0],
        [1, 0x1_0107],
        0,
        Opened(0x2_0006),
        1384,
    ),
    (0x1_0007, [1, 0, 0], [1, 0], 1, Opened(0x2_0006), 1383),
    // Node 1 came back.
    (0x2_0006, [0, 0, 0], [2, 0], 0, Opened(0x3_0007), 2071),
    // No node of the old mask is live.
    (0x2_0006, [0, 1, 1], [2, 0], 0, Opened(0x3_0006), 7),
];

// The control node and three memory nodes, of 688 words each. Slot 5, its shadow and a word of the data
// region differ on the three.
fn four_nodes(
    alloc: Global,
    epoch: u64,
    status: &[u64; 3],
    client: &[u64; 2],
) -> Result<Nodes, AllocError>
    ensures { IfOk result (λ nodes. map length nodes ≡ replicate 4 688) }
{
    let mut control = vec![in alloc; 0; 688]?;
    let mut first = vec![in alloc; 0; 688]?;
    let mut second = vec![in alloc; 0; 688]?;
    let mut third = vec![in alloc; 0; 688]?;
    control[0] = epoch;
    [control[1], control[2], control[3]] = *status;
    [control[16], control[17]] = *client;
    [first[5], first[29], first[178]] = [11, 21, 31];
    [second[5], second[29], second[178]] = [12, 22, 32];
    [third[5], third[29], third[178]] = [13, 23, 33];
    Ok(Nodes::of_words(vec![in alloc; control, first, second, third]?))
}

// Takes at most so many verbs, until the settling tells something else than that it goes on.
#[tactic(auto, using(node_join::proofs::TestLemmas::square_has_place))]
fn run(rt: &impl Abort, nodes: &mut Nodes, settling: &mut Settling, most: u32) -> (Settled, u32)
    requires { map length nodes.old ≡ replicate 4 688 }
    ensures { map length nodes.new ≡ replicate 4 688 }
{
    for verbs in 0..most {
        let verb = settling.next();
        let place = verb.place();
        assert!(rt; place.node < 4 && place.at < 688);
        let told = settling.after(nodes.apply(verb, true));
        if told != Going {
            return (told, verbs + 1);
        }
    }
    (Going, most)
}

// Slot 5, its shadow and the word of the data region on a node.
#[tactic(auto, using(node_join::proofs::TestLemmas::square_has_place))]
fn words(nodes: &Nodes, node: u32) -> [u64; 3]
    requires nodes { map length nodes.now ≡ replicate 4 688 }
    requires node { node < 4 }
{
    [
        nodes.word(Place { node, at: 5 }),
        nodes.word(Place { node, at: 29 }),
        nodes.word(Place { node, at: 178 }),
    ]
}

#[test]
fn settlings_of_three_nodes(rt: HostRuntime) -> Result<(), Fail> {
    let Ok(shape) = shape_of(3, 3, 1, 1, 1, 1, 10) else {
        return Err("no shape".into());
    };
    for (epoch, status, client, stopped, told, verbs) in SETTLINGS {
        let mut nodes = four_nodes(rt.alloc(), *epoch, status, client)?;
        let mut settling = Settling::new(shape, *stopped);
        assert_eq!(rt; run(&rt, &mut nodes, &mut settling, 4000), (*told, *verbs));
        if *told == Opened(0x3_0007) {
            for node in 1..4 {
                assert_eq!(rt; words(&nodes, node), [12, 12, 32]);
            }
        }
        if *told == WAITING {
            assert_eq!(rt; run(&rt, &mut nodes, &mut settling, 4000), (*told, 2));
        }
    }
    Ok(())
}

#[test]
#[tactic(auto, using(node_join::proofs::TestLemmas::square_has_place))]
fn a_node_is_lost_while_words_are_copied(rt: HostRuntime) -> Result<(), Fail> {
    let Ok(shape) = shape_of(3, 3, 1, 1, 1, 1, 10) else {
        return Err("no shape".into());
    };
    let mut nodes = four_nodes(rt.alloc(), 0x1_0007, &[1, 0, 0], &[2, 0])?;
    let mut settling = Settling::new(shape, 0);
    assert_eq!(rt; run(&rt, &mut nodes, &mut settling, 40), (Going, 40));
    nodes.apply(Verb::Write(Place { node: 0, at: 2 }, 1), true);
    assert_eq!(rt;
        run(&rt, &mut nodes, &mut settling, 4000).0,
        Opened(0x2_0004)
    );
    assert_eq!(rt; words(&nodes, 3), [12, 12, 33]);
    Ok(())
}
