ghost use Rattle.std.specs.Prelude.{◌≡◌, IfOk, length, map, replicate};

use super::*;
use Joined::{Going, NotYet};
use region_view::{shape_of, view_of};
use std::alloc::{AllocError, Global};
use std::process::Abort;
use std::test::Fail;
use verb_words::{Nodes, Place, Why};

// Joinings of node 1: the epoch word, what is told at last, after how many verbs, and the node's
// status word then.
const JOININGS: &[(u64, Joined, u32, u64)] = &[
    (0x2_0006, Joined::Joined, 2, 0),
    (0x2_0106, NotYet(Why::Sealed(0x2_0106)), 1, 1),
    (0x2_0000, NotYet(Why::Sealed(0x2_0000)), 1, 1),
];

// The control node, where node 1 is lost.
fn one_node(alloc: Global, epoch: u64) -> Result<Nodes, AllocError>
    ensures { IfOk result (λ nodes. map length nodes ≡ replicate 1 16) }
{
    let mut control = vec![in alloc; 0; 16]?;
    control[0] = epoch;
    control[1] = 1;
    Ok(Nodes::of_words(vec![in alloc; control]?))
}

// Takes verbs until the joining tells something else than that it goes on.
#[tactic(auto, using(crate::proofs::TestLemmas::square_has_place))]
fn run(rt: &impl Abort, nodes: &mut Nodes, join: &mut Join) -> (Joined, u32)
    requires { map length nodes.old ≡ replicate 1 16 }
    ensures { map length nodes.new ≡ replicate 1 16 }
{
    for verbs in 1..4 {
        let verb = join.next();
        let place = verb.place();
        assert!(rt; place.node < 1 && place.at < 16);
        let told = join.after(nodes.apply(verb, true));
        if told != Going {
            return (told, verbs);
        }
    }
    (Going, 4)
}

#[test]
#[tactic(auto, using(crate::proofs::TestLemmas::square_has_place))]
fn joinings_of_a_lost_node(rt: HostRuntime) -> Result<(), Fail> {
    let Ok(shape) = shape_of(3, 3, 1, 1, 1, 1, 10) else {
        return Err("no shape".into());
    };
    for (epoch, told, verbs, status) in JOININGS {
        assert!(rt; shape.nodes == 3);
        let mut nodes = one_node(rt.alloc(), *epoch)?;
        let mut join = Join::new(shape, 1);
        assert_eq!(rt; run(&rt, &mut nodes, &mut join), (*told, *verbs));
        assert_eq!(rt; nodes.word(Place { node: 0, at: 1 }), *status);
    }
    Ok(())
}

#[test]
fn words_that_go_to_a_node_that_came_back(rt: HostRuntime) -> Result<(), Fail> {
    let Ok(shape) = shape_of(3, 3, 1, 1, 1, 1, 10) else {
        return Err("no shape".into());
    };
    assert!(rt; shape.regions == 1);
    assert_eq!(rt; sources(&shape, 0b110, 0b101), 0b100);
    let (Some(source), Some(fresh)) = (view_of(shape, 0b110), view_of(shape, 0b111)) else {
        return Err("no view".into());
    };
    let slot = copy_of(&source, &fresh, 0, 5);
    assert_eq!(rt; slot.from, (2, 5));
    assert_eq!(rt;
        slot.to.as_slice(),
        [(1, 5), (3, 5), (1, 29), (2, 29), (3, 29)].as_slice()
    );
    let word = copy_of(&source, &fresh, 1, 130);
    assert_eq!(rt; word.from, (2, 178));
    assert_eq!(rt; word.to.as_slice(), [(3, 178), (1, 178)].as_slice());
    Ok(())
}
