ghost use Rattle.std.specs.Prelude.{◌≡◌, ◌<◌, ◌≤◌, IfOk, length, map, replicate};

use super::*;
use region_view::shape_of;
use std::alloc::{AllocError, Global};
use std::process::Abort;
use std::test::Fail;
use verb_words::{Answer, Nodes, Place, Verb, Why};

// The control node and two memory nodes, of 1,200 words each. The epoch is open with this mask, and
// all objects of the two blocks are in stock.
fn three_nodes(alloc: Global, mask: u64) -> Result<Nodes, AllocError>
    requires { mask < 256 }
    ensures { IfOk result (λ nodes. map length nodes ≡ replicate 3 1200) }
{
    let mut control = vec![in alloc; 0; 1200]?;
    let mut first = vec![in alloc; 0; 1200]?;
    let mut second = vec![in alloc; 0; 1200]?;
    control[0] = 0x1_0000 + mask;
    for block in 0..2 {
        first[112 + block] = u64::MAX;
        second[112 + block] = u64::MAX;
    }
    Ok(Nodes::of_words(vec![in alloc; control, first, second]?))
}

#[tactic(auto, using(crate::proofs::TestLemmas::square_has_place))]
fn apply(rt: &impl Abort, nodes: &mut Nodes, verb: Verb) -> Answer
    requires { map length nodes.old ≡ replicate 3 1200 }
    ensures { map length nodes.new ≡ replicate 3 1200 }
{
    let place = verb.place();
    assert!(rt; place.node < 3 && place.at < 1200);
    nodes.apply(verb, true)
}

// Puts a word at a place.
fn store(rt: &impl Abort, nodes: &mut Nodes, node: u32, at: u32, word: u64)
    requires { map length nodes.old ≡ replicate 3 1200 }
    ensures { map length nodes.new ≡ replicate 3 1200 }
{
    apply(rt, nodes, Verb::Write(Place { node, at }, word));
}

// Takes verbs until the call ends or has to wait.
fn go(rt: &impl Abort, nodes: &mut Nodes, actor: &mut Actor) -> Step
    requires { map length nodes.old ≡ replicate 3 1200 }
    ensures { map length nodes.new ≡ replicate 3 1200 }
{
    for _ in 0..600 {
        let told = actor.after(apply(rt, nodes, actor.next()));
        if told != Step::Going {
            return told;
        }
    }
    Step::Going
}

// Takes so many verbs, where the call does not end before.
fn step(rt: &impl Abort, nodes: &mut Nodes, actor: &mut Actor, verbs: u32) -> Step
    requires { map length nodes.old ≡ replicate 3 1200 }
    ensures { map length nodes.new ≡ replicate 3 1200 }
{
    for _ in 0..verbs {
        let told = actor.after(apply(rt, nodes, actor.next()));
        if told != Step::Going {
            return told;
        }
    }
    Step::Going
}

fn put(rt: &impl Abort, nodes: &mut Nodes, actor: &mut Actor, key: &[u8], value: &[u8]) -> Step
    requires { map length nodes.old ≡ replicate 3 1200 }
    ensures { map length nodes.new ≡ replicate 3 1200 }
{
    assert!(rt; actor.is_idle());
    let made = actor.put(key, value);
    assert!(rt; made.is_ok());
    go(rt, nodes, actor)
}

fn get(rt: &impl Abort, nodes: &mut Nodes, actor: &mut Actor, key: &[u8]) -> Step
    requires { map length nodes.old ≡ replicate 3 1200 }
    ensures { map length nodes.new ≡ replicate 3 1200 }
{
    assert!(rt; actor.is_idle());
    let made = actor.get(key);
    assert!(rt; made.is_ok());
    go(rt, nodes, actor)
}

fn delete(rt: &impl Abort, nodes: &mut Nodes, actor: &mut Actor, key: &[u8]) -> Step
    requires { map length nodes.old ≡ replicate 3 1200 }
    ensures { map length nodes.new ≡ replicate 3 1200 }
{
    assert!(rt; actor.is_idle());
    let made = actor.delete(key);
    assert!(rt; made.is_ok());
    go(rt, nodes, actor)
}

// A client of a pool of so many nodes, one region, two blocks and one group of buckets.
fn client_of(rt: &impl Abort, alloc: Global, nodes: u32, client: u32) -> Result<Actor, Fail> {
    let Ok(shape) = shape_of(nodes, nodes, 1, 2, 1, 2, 10) else {
        return Err("no shape".into());
    };
    assert!(rt; 1 <= client && client <= shape.clients);
    Ok(Actor::new(alloc, client, shape)?)
}

const ENDED: Step = Step::Ended(Outcome::Done);

// The verbs of the first put of a pool of one node, of the value `1` for the key `a`.
const FIRST_PUT: &[Verb] = &[
    Verb::Write(Place { node: 0, at: 16 }, 1),
    Verb::Read(Place { node: 0, at: 0 }),
    Verb::Read(Place { node: 1, at: 48 }),
    Verb::Swap {
        place: Place { node: 1, at: 48 },
        expect: 0,
        fresh: 0x0100_0000_0000_0100,
    },
    Verb::Write(Place { node: 0, at: 18 }, 0x10_0010),
    Verb::Add(Place { node: 1, at: 112 }, 0xffff_ffff_ffff_ffff),
    Verb::Write(Place { node: 1, at: 177 }, 0x1_0001_0001),
    Verb::Write(Place { node: 1, at: 178 }, 0),
    Verb::Write(Place { node: 1, at: 179 }, 0),
    Verb::Write(Place { node: 1, at: 180 }, 0x61),
    Verb::Write(Place { node: 1, at: 181 }, 0x31),
    Verb::Write(Place { node: 1, at: 176 }, 0x0010_0000_1010_0011),
    Verb::Read(Place { node: 1, at: 0 }),
    Verb::Write(Place { node: 1, at: 179 }, 0),
    Verb::Write(Place { node: 1, at: 178 }, 1),
    Verb::Swap {
        place: Place { node: 1, at: 24 },
        expect: 0,
        fresh: 0xaf01_0000_0010_0010,
    },
    Verb::Swap {
        place: Place { node: 1, at: 0 },
        expect: 0,
        fresh: 0xaf01_0000_0010_0010,
    },
    Verb::Write(Place { node: 0, at: 16 }, 2),
];

#[test]
fn first_put_takes_18_verbs(rt: HostRuntime) -> Result<(), Fail> {
    let mut nodes = three_nodes(rt.alloc(), 1)?;
    let mut actor = client_of(&rt, rt.alloc(), 1, 1)?;
    assert!(rt; actor.is_idle());
    assert_eq!(rt; actor.put(b"a", b"1"), Ok(()));
    let mut told = Step::Going;
    for verb in FIRST_PUT {
        assert_eq!(rt; told, Step::Going);
        assert_eq!(rt; actor.next(), *verb);
        told = actor.after(apply(&rt, &mut nodes, *verb));
    }
    assert_eq!(rt; told, ENDED);
    assert_eq!(rt; actor.number(), 1);
    Ok(())
}

#[test]
fn each_outcome_once(rt: HostRuntime) -> Result<(), Fail> {
    let mut nodes = three_nodes(rt.alloc(), 0b11)?;
    let mut actor = client_of(&rt, rt.alloc(), 2, 1)?;
    assert_eq!(rt;
        get(&rt, &mut nodes, &mut actor, b"a"),
        Step::Ended(Outcome::Absent)
    );
    assert_eq!(rt; delete(&rt, &mut nodes, &mut actor, b"a"), ENDED);
    assert_eq!(rt; put(&rt, &mut nodes, &mut actor, b"a", b"one"), ENDED);
    assert_eq!(rt;
        put(&rt, &mut nodes, &mut actor, b"a", b"longer than a word"),
        ENDED
    );
    assert_eq!(rt;
        get(&rt, &mut nodes, &mut actor, b"a"),
        Step::Ended(Outcome::Value)
    );
    assert_eq!(rt; actor.value(), b"longer than a word".as_slice());
    assert_eq!(rt; delete(&rt, &mut nodes, &mut actor, b"a"), ENDED);
    assert_eq!(rt;
        get(&rt, &mut nodes, &mut actor, b"a"),
        Step::Ended(Outcome::Absent)
    );
    assert_eq!(rt; put(&rt, &mut nodes, &mut actor, b"a", b""), ENDED);
    assert_eq!(rt;
        get(&rt, &mut nodes, &mut actor, b"a"),
        Step::Ended(Outcome::Value)
    );
    assert_eq!(rt; actor.value(), b"".as_slice());
    assert_eq!(rt; actor.number(), 9);
    assert_eq!(rt; actor.beaten(), None);

    // No slot is left for another client's key, and then no block either.
    for slot in 0..24 {
        store(&rt, &mut nodes, 1, slot, 1);
        store(&rt, &mut nodes, 2, slot, 1);
    }
    let mut other = client_of(&rt, rt.alloc(), 2, 2)?;
    assert_eq!(rt;
        put(&rt, &mut nodes, &mut other, b"b", b"2"),
        Step::Ended(Outcome::Full)
    );
    assert_eq!(rt;
        get(&rt, &mut nodes, &mut other, b"b"),
        Step::Ended(Outcome::Absent)
    );
    let long = [7; 100];
    let told = put(&rt, &mut nodes, &mut other, b"b", &long);
    assert_eq!(rt;
        told,
        Step::Ended(Outcome::NoSpace {
            class: 2,
            client: 0,
            begin: 0
        })
    );
    Ok(())
}

// Lengths of a key and a value, and why the call is refused.
const REFUSALS: &[(usize, usize, Result<(), Before>)] = &[
    (0, 1953, Err(Before::KeyLength(0))),
    (65, 0, Err(Before::KeyLength(65))),
    (64, 1953, Err(Before::ValueLength(1953))),
    (64, 1952, Ok(())),
];

#[test]
fn calls_are_refused_by_length_and_number(rt: HostRuntime) -> Result<(), Fail> {
    let bytes = [7; 2000];
    let mut nodes = three_nodes(rt.alloc(), 0b11)?;
    let mut actor = client_of(&rt, rt.alloc(), 2, 1)?;
    for (key_len, value_len, made) in REFUSALS {
        assert!(rt; actor.is_idle() && *key_len <= 2000 && *value_len <= 2000);
        assert_eq!(rt; actor.put(&bytes[..*key_len], &bytes[..*value_len]), *made);
    }
    assert_eq!(rt; go(&rt, &mut nodes, &mut actor), ENDED);
    for _ in 1..10 {
        get(&rt, &mut nodes, &mut actor, b"a");
    }
    assert!(rt; actor.is_idle());
    assert_eq!(rt; actor.number(), 10);
    assert_eq!(rt; actor.delete(b"a"), Err(Before::Spent));
    Ok(())
}

// Breaks the open call off after so many verbs: the epoch is sealed and the node of the next verb
// lost until the call waits, and then the nodes come back in the next view.
fn break_off(rt: &impl Abort, nodes: &mut Nodes, actor: &mut Actor, verbs: u32)
    requires { map length nodes.old ≡ replicate 3 1200 }
    ensures { map length nodes.new ≡ replicate 3 1200 }
{
    if step(rt, nodes, actor, verbs) != Step::Going {
        return;
    }
    let node = actor.next().place().node;
    if node != 0 {
        store(rt, nodes, 0, node, 1);
        assert!(rt; go(rt, nodes, actor) == Step::NotYet(Why::Lost(node)));
        assert!(rt; go(rt, nodes, actor) == Step::NotYet(Why::Lost(node)));
    }
    store(rt, nodes, 0, 0, 0x1_0103);
    let told = go(rt, nodes, actor);
    assert!(rt; told == Step::NotYet(Why::Sealed(0x1_0103)) || actor.is_idle());
    store(rt, nodes, 0, node, 0);
    store(rt, nodes, 0, 0, 0x2_0003);
    if !actor.is_idle() {
        assert!(rt; go(rt, nodes, actor) != Step::Going);
    }
}

// A put for a key that has a value, a delete and a get, each broken off after each of its verbs.
#[test]
fn calls_resume_wherever_they_are_broken_off(rt: HostRuntime) -> Result<(), Fail> {
    for verbs in 0..40 {
        let mut nodes = three_nodes(rt.alloc(), 0b11)?;
        let mut actor = client_of(&rt, rt.alloc(), 2, 1)?;
        assert_eq!(rt; put(&rt, &mut nodes, &mut actor, b"a", b"1"), ENDED);

        assert!(rt; actor.is_idle());
        assert_eq!(rt; actor.put(b"a", b"2"), Ok(()));
        break_off(&rt, &mut nodes, &mut actor, verbs);
        assert_eq!(rt;
            get(&rt, &mut nodes, &mut actor, b"a"),
            Step::Ended(Outcome::Value)
        );
        assert_eq!(rt; actor.value(), b"2".as_slice());

        store(&rt, &mut nodes, 0, 0, 0x1_0003);
        assert!(rt; actor.is_idle());
        assert_eq!(rt; actor.get(b"a"), Ok(()));
        break_off(&rt, &mut nodes, &mut actor, verbs);
        assert_eq!(rt; actor.value(), b"2".as_slice());

        store(&rt, &mut nodes, 0, 0, 0x1_0003);
        assert!(rt; actor.is_idle());
        assert_eq!(rt; actor.delete(b"a"), Ok(()));
        break_off(&rt, &mut nodes, &mut actor, verbs);
        assert_eq!(rt;
            get(&rt, &mut nodes, &mut actor, b"a"),
            Step::Ended(Outcome::Absent)
        );
    }
    Ok(())
}

// Takes verbs until the next one is the swap of slot 0 on its primary.
fn step_to_final(rt: &impl Abort, nodes: &mut Nodes, actor: &mut Actor)
    requires { map length nodes.old ≡ replicate 3 1200 }
    ensures { map length nodes.new ≡ replicate 3 1200 }
{
    for _ in 0..100 {
        let verb = actor.next();
        let is_swap = matches!(verb, Verb::Swap { .. });
        if is_swap && verb.place() == (Place { node: 1, at: 0 }) {
            return;
        }
        actor.after(apply(rt, nodes, verb));
    }
}

// Two puts of one key at once, where the key has a value and where it has none: the later one waits
// for the other, is beaten, and gives its object back.
#[test]
fn a_beaten_put_gives_its_object_back(rt: HostRuntime) -> Result<(), Fail> {
    for version in 1..3 {
        let mut nodes = three_nodes(rt.alloc(), 0b11)?;
        let mut winner = client_of(&rt, rt.alloc(), 2, 1)?;
        let mut loser = client_of(&rt, rt.alloc(), 2, 2)?;
        if version == 2 {
            assert_eq!(rt; put(&rt, &mut nodes, &mut winner, b"a", b"0"), ENDED);
        }
        assert!(rt; winner.is_idle() && loser.is_idle());
        assert_eq!(rt; winner.put(b"a", b"1"), Ok(()));
        step_to_final(&rt, &mut nodes, &mut winner);
        assert_eq!(rt; loser.put(b"a", b"2"), Ok(()));
        let slot = apply(&rt, &mut nodes, Verb::Read(Place { node: 1, at: 0 }));
        for _ in 0..2 {
            let Step::NotYet(Why::Unchanged { slot: 0, word }) = go(&rt, &mut nodes, &mut loser)
            else {
                return Err("it did not wait".into());
            };
            assert_eq!(rt; Answer::Word(word), slot);
        }
        assert_eq!(rt; go(&rt, &mut nodes, &mut winner), ENDED);
        assert_eq!(rt; go(&rt, &mut nodes, &mut loser), ENDED);
        assert_eq!(rt; loser.beaten(), Some((0, version)));
        assert_eq!(rt; winner.beaten(), None);
        let bits = Answer::Word(u64::MAX);
        assert_eq!(rt;
            apply(&rt, &mut nodes, Verb::Read(Place { node: 1, at: 113 })),
            bits
        );
        assert_eq!(rt;
            apply(&rt, &mut nodes, Verb::Read(Place { node: 2, at: 113 })),
            bits
        );
        assert_eq!(rt;
            get(&rt, &mut nodes, &mut loser, b"a"),
            Step::Ended(Outcome::Value)
        );
        assert_eq!(rt; loser.value(), b"1".as_slice());
    }
    Ok(())
}
