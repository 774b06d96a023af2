ghost use Rattle.std.specs.Prelude.{◌≡◌, ◌<◌, IfOk, length, map, replicate, true};
ghost use Rattle.machine.specs.Choosing.{IsTaken};
ghost use Rattle.machine.specs.ObjectNames.{names_object};

use super::*;
use region_view::{View, shape_of, view_of};
use std::alloc::{AllocError, Global};
use std::process::Abort;
use std::test::Fail;
use verb_words::{Answer, Nodes, Place, Verb};

// The bitmap of the one block, on both nodes.
const BITMAPS: [Place; 2] = [Place { node: 1, at: 112 }, Place { node: 2, at: 112 }];

// The control node and two memory nodes, of 1,040 words each. All objects of the one block are in
// stock.
fn three_nodes(alloc: Global) -> Result<Nodes, AllocError>
    ensures { IfOk result (λ nodes. map length nodes ≡ replicate 3 1040) }
{
    let control = vec![in alloc; 0; 1040]?;
    let mut first = vec![in alloc; 0; 1040]?;
    let mut second = vec![in alloc; 0; 1040]?;
    first[112] = u64::MAX;
    second[112] = u64::MAX;
    Ok(Nodes::of_words(vec![in alloc; control, first, second]?))
}

#[tactic(auto, using(crate::proofs::TestLemmas::square_has_place))]
fn apply(rt: &impl Abort, nodes: &mut Nodes, verb: Verb) -> Answer
    requires { map length nodes.old ≡ replicate 3 1040 }
    ensures { map length nodes.new ≡ replicate 3 1040 }
{
    let place = verb.place();
    assert!(rt; place.node < 3 && place.at < 1040);
    nodes.apply(verb, true)
}

// Takes verbs until the choosing tells something else than that it goes on.
fn choose(rt: &impl Abort, nodes: &mut Nodes, stock: &mut Stock, view: View) -> Took
    requires nodes { map length nodes.old ≡ replicate 3 1040 }
    requires shape { view.shape ≡ stock.old.shape }
    ensures nodes { map length nodes.new ≡ replicate 3 1040 }
    ensures shape { stock.new.shape ≡ stock.old.shape }
    ensures taken { IsTaken stock.new.shape 3 result }
{
    let mut told = stock.begin(view, 3);
    for _ in 0..20 {
        if told != Took::Going {
            return told;
        }
        let verb = stock.next();
        told = stock.after(apply(rt, nodes, verb));
    }
    told
}

// Takes verbs until the change is done.
fn finish(rt: &impl Abort, nodes: &mut Nodes, bit: &mut BitChange) -> Changed
    requires { map length nodes.old ≡ replicate 3 1040 }
    ensures { map length nodes.new ≡ replicate 3 1040 }
{
    for _ in 0..10 {
        let verb = bit.next();
        let told = bit.after(apply(rt, nodes, verb));
        if told != Changed::Going {
            return told;
        }
    }
    Changed::Going
}

#[test]
fn four_choosings_give_four_objects(rt: HostRuntime) -> Result<(), Fail> {
    let Ok(shape) = shape_of(2, 2, 1, 1, 1, 1, 10) else {
        return Err("no shape".into());
    };
    let Some(view) = view_of(shape, 0b11) else {
        return Err("no view".into());
    };
    assert!(rt; 1 <= shape.clients);
    let mut nodes = three_nodes(rt.alloc())?;
    let mut stock = Stock::new(rt.alloc(), 1, shape)?;
    for expected in [0x10_0010, 0x10_0018, 0x10_0020, 0x10_0028] {
        let Took::Have { object, next } = choose(&rt, &mut nodes, &mut stock, view) else {
            return Err("no object".into());
        };
        assert_eq!(rt; object, expected);
        let mut clear = change(view, object, 3, false, false);
        assert_eq!(rt; finish(&rt, &mut nodes, &mut clear), Changed::Whole);
        let mut again = change(view, object, 3, false, true);
        assert_eq!(rt; finish(&rt, &mut nodes, &mut again), Changed::Whole);
        stock.taken(3, next);
    }

    // Each of the four objects is out of stock on both nodes, and a change that looks added nothing.
    let left = Answer::Word(u64::MAX - 0xf);
    assert_eq!(rt; apply(&rt, &mut nodes, Verb::Read(BITMAPS[0])), left);
    assert_eq!(rt; apply(&rt, &mut nodes, Verb::Read(BITMAPS[1])), left);
    Ok(())
}
