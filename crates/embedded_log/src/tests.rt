ghost use Rattle.std.specs.Prelude.{◌≡◌, IfOk, length, map, replicate};

use super::*;
use Walked::{End, Going, Refused};
use region_view::{shape_of, view_of};
use std::alloc::{AllocError, Global};
use std::process::Abort;
use std::test::Fail;
use verb_words::Nodes;

// The first four objects of a pool.
const A: u64 = 0x10_0010;

const B: u64 = 0x10_0011;

const C: u64 = 0x10_0012;

const D: u64 = 0x10_0013;

// Walks along the links of client 1: the head word, the link words of the four objects, whether their
// node is lost, what is told at last, and after how many verbs.
const WALKS: &[(u64, [u64; 4], bool, Walked, u32)] = &[
    // A is linked by call 4, to D, B by call 2, to C, and C by call 3, to A.
    (
        A,
        [
            0x0010_0000_4010_0013,
            0x0010_0000_2010_0012,
            0x0010_0000_3010_0010,
            0,
        ],
        false,
        End {
            last: Some((A as u32, 4)),
            reserve: Some(D as u32),
        },
        3,
    ),
    // A is linked by call 1, to B, B by call 4, to D, and C by call 3, to B.
    (
        A,
        [
            0x0010_0000_1010_0011,
            0x0010_0000_4010_0013,
            0x0010_0000_3010_0011,
            0,
        ],
        false,
        End {
            last: Some((B as u32, 4)),
            reserve: Some(D as u32),
        },
        4,
    ),
    (
        0,
        [0; 4],
        false,
        End {
            last: None,
            reserve: None,
        },
        1,
    ),
    // C has the link of another client.
    (
        C,
        [0, 0, 0x0020_0000_7010_0011, 0],
        false,
        End {
            last: None,
            reserve: Some(C as u32),
        },
        2,
    ),
    // B is linked by call 1, to none.
    (
        B,
        [0, 0x0010_0000_1000_0000, 0, 0],
        false,
        End {
            last: Some((B as u32, 1)),
            reserve: None,
        },
        2,
    ),
    // The head word names no object of the pool.
    (
        0x10_0050,
        [0; 4],
        false,
        End {
            last: None,
            reserve: None,
        },
        1,
    ),
    (A, [0x0010_0000_1010_0011, 0, 0, 0], true, Refused(1), 2),
];

// The control node and one memory node, of 688 words each.
fn two_nodes(alloc: Global, head: u64, links: &[u64; 4], is_lost: bool) -> Result<Nodes, AllocError>
    ensures { IfOk result (λ nodes. map length nodes ≡ replicate 2 688) }
{
    let mut control = vec![in alloc; 0; 688]?;
    let mut memory = vec![in alloc; 0; 688]?;
    control[1] = u64::from(is_lost);
    control[18] = head;
    [memory[176], memory[184], memory[192], memory[200]] = *links;
    Ok(Nodes::of_words(vec![in alloc; control, memory]?))
}

// Takes verbs until the walk tells something else than that it goes on.
#[tactic(auto, using(key_test::proofs::TestLemmas::square_has_place))]
fn run(rt: &impl Abort, nodes: &mut Nodes, walk: &mut Walk) -> (Walked, u32)
    requires { map length nodes.old ≡ replicate 2 688 }
{
    for verbs in 1..10 {
        let verb = walk.next();
        let place = verb.place();
        assert!(rt; place.node < 2 && place.at < 688);
        let told = walk.after(nodes.apply(verb, true));
        if told != Going {
            return (told, verbs);
        }
    }
    (Going, 10)
}

#[test]
fn walks_of_four_objects(rt: HostRuntime) -> Result<(), Fail> {
    let Ok(shape) = shape_of(1, 1, 1, 1, 1, 1, 10) else {
        return Err("no shape".into());
    };
    for (head, links, is_lost, told, verbs) in WALKS {
        let Some(view) = view_of(shape, 1) else {
            return Err("no view".into());
        };
        assert!(rt; view.shape.clients == 1);
        let mut nodes = two_nodes(rt.alloc(), *head, links, *is_lost)?;
        let mut walk = Walk::new(view, 1, 0);
        assert_eq!(rt; run(&rt, &mut nodes, &mut walk), (*told, *verbs));
    }
    Ok(())
}
