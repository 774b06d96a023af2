use super::*;
use kv_ops::{Outcome, Step};
use machine::joining::Joined;
use machine::recovery::Recovering;
use machine::settling::Settled;
use map_model::{Bytes, Call, Reply, legal};
use object_form::{region_of, unit_of};
use region_view::{shape_of, words};
use std::alloc::{AllocError, Global};
use std::process::Abort;
use std::test::Fail;
use verb_history::Moment;
use verb_words::{Answer, Place, Verb, Why};

// A pool as it opens, and all of its clients: its nodes, replicas, regions, blocks, groups and clients,
// and the calls of a client.
fn opened(rt: &impl Abort, alloc: Global, sizes: [u32; 7]) -> Result<World, Fail> {
    let [nodes, replicas, regions, blocks, groups, clients, calls] = sizes;
    let Ok(shape) = shape_of(nodes, replicas, regions, blocks, groups, clients, calls) else {
        return Err("no shape".into());
    };
    assert!(rt; words(&shape) <= 2_097_152);
    let mut world = World::new(alloc, shape)?;
    for client in 0..clients {
        assert!(rt; client < 64);
        let happened = advance(rt, &mut world, Event::Register);
        assert_eq!(rt; happened, Ok(Happened::Registered(client + 1)));
    }
    Ok(world)
}

fn advance(rt: &impl Abort, world: &mut World, event: Event) -> Result<Happened, Refused> {
    assert!(rt; world.events < 0x8000_0000_0000_0000);
    world.advance(event)
}

// The event comes to this.
fn comes_to(rt: &impl Abort, world: &mut World, event: Event, want: Happened) {
    let happened = advance(rt, world, event);
    assert_eq!(rt; happened, Ok(want));
}

// The event is refused for this reason.
fn refuses(rt: &impl Abort, world: &mut World, event: Event, reason: Refused) {
    let happened = advance(rt, world, event);
    assert_eq!(rt; happened, Err(reason));
}

fn bytes(alloc: Global, text: &[u8]) -> Result<Bytes, AllocError> {
    Ok(Bytes::of_vec(Vec::from_slice(alloc, text)?))
}

// A put, or a get where no value is given.
fn call_of(alloc: Global, key: &[u8], value: Option<&[u8]>) -> Result<Call, AllocError> {
    let key = bytes(alloc, key)?;
    match value {
        Some(value) => Ok(Call::Put {
            key,
            value: bytes(alloc, value)?,
        }),
        None => Ok(Call::Get { key }),
    }
}

// A client calls, and this comes of it.
fn call(
    rt: &impl Abort,
    alloc: Global,
    world: &mut World,
    client: u32,
    key: &[u8],
    value: Option<&[u8]>,
    want: Result<Happened, Refused>,
) {
    let happened = match call_of(alloc, key, value) {
        Ok(call) => advance(rt, world, Event::Invoke { client, call }),
        Err(_) => Err(Refused::NoMemory),
    };
    assert_eq!(rt; happened, want);
}

// The client's call of this number puts a value at the key `a`.
fn put(rt: &impl Abort, alloc: Global, world: &mut World, called: (u32, u32), value: &[u8]) {
    let (client, number) = called;
    let want = Ok(Happened::Invoked(number));
    call(rt, alloc, world, client, b"a", Some(value), want);
}

// The client's call of this number gets this value from the key `a`.
fn get(rt: &impl Abort, alloc: Global, world: &mut World, called: (u32, u32), value: &[u8]) {
    let (client, number) = called;
    let want = Ok(Happened::Invoked(number));
    call(rt, alloc, world, client, b"a", None, want);
    go(rt, world, client, Step::Ended(Outcome::Value));
    let is_it = match world.moments().last() {
        Some(
            Moment::Returned {
                client,
                number,
                reply: Reply::Value(got),
            },
        ) => (*client, *number) == called && got.as_slice() == value,
        _ => false,
    };
    assert!(rt; is_it);
}

fn goes_on(happened: Result<Happened, Refused>) -> bool {
    match happened {
        Ok(Happened::Stepped { step, .. }) => step == Step::Going,
        Ok(Happened::Settling { step, .. }) => step == Settled::Going,
        Ok(Happened::Recovering { step, .. }) => step == Recovering::Going,
        Ok(Happened::Joining { step, .. }) => step == Joined::Going,
        _ => false,
    }
}

// A client or the master takes so many verbs, or fewer where its call or its task ends or has to wait.
fn take(rt: &impl Abort, world: &mut World, actor: Actor, verbs: u32) -> Result<Happened, Refused> {
    let mut last = Ok(Happened::Chosen);
    for _ in 0..verbs {
        last = match actor {
            Actor::Client(client) => advance(rt, world, Event::Step { client }),
            Actor::Master => advance(rt, world, Event::Work),
        };
        if !goes_on(last) {
            return last;
        }
    }
    last
}

// A client or the master takes so many verbs, and is not at its end then.
fn step(rt: &impl Abort, world: &mut World, actor: Actor, verbs: u32) {
    let last = take(rt, world, actor, verbs);
    assert!(rt; goes_on(last));
}

// A client goes on until its call ends or has to wait, and tells this.
fn go(rt: &impl Abort, world: &mut World, client: u32, step: Step) {
    let told = match take(rt, world, Actor::Client(client), 3000) {
        Ok(Happened::Stepped { step, .. }) => Some(step),
        _ => None,
    };
    assert_eq!(rt; told, Some(step));
}

// The client's next verb, which may be late, and its answer.
fn sees(rt: &impl Abort, world: &mut World, event: Event, verb: Verb, answer: Answer) {
    let seen = match advance(rt, world, event) {
        Ok(Happened::Stepped { seen, .. }) => Some(seen),
        _ => None,
    };
    let actor = Actor::Client(1);
    let want = Seen {
        actor,
        verb,
        answer,
    };
    assert_eq!(rt; seen, Some(want));
}

// A settling, chosen now where none is under way, takes all verbs that it can, and tells this.
fn settle(rt: &impl Abort, world: &mut World, step: Settled) {
    if world.settling().is_none() {
        comes_to(rt, world, Event::Choose(Task::Settle), Happened::Chosen);
    }
    let told = match take(rt, world, Actor::Master, 3000) {
        Ok(Happened::Settling { step, .. }) => Some(step),
        _ => None,
    };
    assert_eq!(rt; told, Some(step));
}

fn recover(rt: &impl Abort, world: &mut World, client: u32) {
    let task = Task::Recover(client);
    comes_to(rt, world, Event::Choose(task), Happened::Chosen);
    works_on(rt, world, Some(task), None);
    let told = match take(rt, world, Actor::Master, 3000) {
        Ok(Happened::Recovering { step, .. }) => Some(step),
        _ => None,
    };
    assert_eq!(rt; told, Some(Recovering::Recovered));
    works_on(rt, world, None, None);
}

fn join(rt: &impl Abort, world: &mut World, node: u32, step: Joined) {
    let task = Task::Join(node);
    comes_to(rt, world, Event::Choose(task), Happened::Chosen);
    works_on(rt, world, Some(task), None);
    let told = match take(rt, world, Actor::Master, 3000) {
        Ok(Happened::Joining { step, .. }) => Some(step),
        _ => None,
    };
    assert_eq!(rt; told, Some(step));
    works_on(rt, world, None, None);
}

// The master works on this, and a settling has been told of these stopped clients.
fn works_on(rt: &impl Abort, world: &World, task: Option<Task>, stopped: Option<u64>) {
    assert_eq!(rt; world.task(), task);
    assert_eq!(rt; world.settling(), stopped);
}

fn history(
    rt: &impl Abort,
    world: &World,
    alloc: Global,
) -> Result<Vec<(u32, u32, bool)>, AllocError> {
    let history = world.history()?;
    let mut calls = Vec::new(alloc);
    for entry in history.iter() {
        assert_eq!(rt;
            world.has_returned(entry.client, entry.number),
            entry.returned
        );
        calls.push((entry.client, entry.number, entry.returned))?;
    }
    assert!(rt; legal(alloc, history.as_slice())?);
    Ok(calls)
}

// The history is of these clients' calls, by number and whether each has returned; one map gives it.
fn has_history(rt: &impl Abort, alloc: Global, world: &World, calls: &[(u32, u32, bool)]) {
    let is_it = match history(rt, world, alloc) {
        Ok(history) => history.as_slice() == calls,
        Err(_) => false,
    };
    assert!(rt; is_it);
}

// So many blocks are unused, owned, awaiting their recovery and released, and so many objects in stock,
// present and held.
fn is_divided(rt: &impl Abort, world: &World, blocks: [u32; 4], objects: [u32; 3]) {
    let [unused, owned, awaiting, released] = blocks;
    let [stock, present, held] = objects;
    let division = Division {
        unused,
        owned,
        awaiting,
        released,
        stock,
        present,
        held,
    };
    assert_eq!(rt; world.division(), division);
}

fn has_block(rt: &impl Abort, world: &World, block: u32, state: BlockState) {
    assert!(rt; 1 <= world.shape().regions && block < world.shape().blocks);
    assert_eq!(rt; world.block_state(1, block), state);
}

fn has_object(rt: &impl Abort, world: &World, pointer: u32, state: ObjectState) {
    assert!(rt; pointer < 0x1000_0000);
    let region = region_of(pointer);
    let unit = unit_of(pointer);
    let shape = world.shape();
    assert!(rt; 1 <= region && region <= shape.regions);
    assert!(rt; 16 <= unit && unit < 16 + 64 * shape.blocks);
    assert_eq!(rt; world.object_state(pointer), state);
}

// The verbs of the first put of a pool of one node, of the value `1` for the key `a`, and what each of
// them is answered.
const FIRST_PUT: &[(Verb, Answer)] = &[
    (Verb::Write(Place { node: 0, at: 16 }, 1), Answer::Done),
    (Verb::Read(Place { node: 0, at: 0 }), Answer::Word(0x1_0001)),
    (Verb::Read(Place { node: 1, at: 48 }), Answer::Word(0)),
    (
        Verb::Swap {
            place: Place { node: 1, at: 48 },
            expect: 0,
            fresh: 0x0100_0000_0000_0100,
        },
        Answer::Word(0),
    ),
    (
        Verb::Write(Place { node: 0, at: 18 }, 0x10_0010),
        Answer::Done,
    ),
    (
        Verb::Add(Place { node: 1, at: 112 }, 0xffff_ffff_ffff_ffff),
        Answer::Word(0xffff_ffff_ffff_ffff),
    ),
    (
        Verb::Write(Place { node: 1, at: 177 }, 0x1_0001_0001),
        Answer::Done,
    ),
    (Verb::Write(Place { node: 1, at: 178 }, 0), Answer::Done),
    (Verb::Write(Place { node: 1, at: 179 }, 0), Answer::Done),
    (Verb::Write(Place { node: 1, at: 180 }, 0x61), Answer::Done),
    (Verb::Write(Place { node: 1, at: 181 }, 0x31), Answer::Done),
    (
        Verb::Write(Place { node: 1, at: 176 }, 0x0010_0000_1010_0011),
        Answer::Done,
    ),
    (Verb::Read(Place { node: 1, at: 0 }), Answer::Word(0)),
    (Verb::Write(Place { node: 1, at: 179 }, 0), Answer::Done),
    (Verb::Write(Place { node: 1, at: 178 }, 1), Answer::Done),
    (
        Verb::Swap {
            place: Place { node: 1, at: 24 },
            expect: 0,
            fresh: 0xaf01_0000_0010_0010,
        },
        Answer::Word(0),
    ),
    (
        Verb::Swap {
            place: Place { node: 1, at: 0 },
            expect: 0,
            fresh: 0xaf01_0000_0010_0010,
        },
        Answer::Word(0),
    ),
    (Verb::Write(Place { node: 0, at: 16 }, 2), Answer::Done),
];

const DONE: Step = Step::Ended(Outcome::Done);

#[test]
fn a_put_and_a_get(rt: HostRuntime) -> Result<(), Fail> {
    let mut world = opened(&rt, rt.alloc(), [1, 1, 1, 1, 1, 1, 10])?;
    put(&rt, rt.alloc(), &mut world, (1, 1), b"1");
    for (verb, answer) in FIRST_PUT {
        assert!(rt; !world.has_returned(1, 1));
        sees(&rt, &mut world, Event::Step { client: 1 }, *verb, *answer);
    }
    get(&rt, rt.alloc(), &mut world, (1, 2), b"1");
    has_history(&rt, rt.alloc(), &world, &[(1, 1, true), (1, 2, true)]);
    is_divided(&rt, &world, [0, 1, 0, 0], [63, 1, 0]);
    has_block(&rt, &world, 0, BlockState::Owned(1));
    has_object(&rt, &world, 0x10_0010, ObjectState::Present(0));
    has_object(&rt, &world, 0x10_0011, ObjectState::Stock);
    works_on(&rt, &world, None, None);
    assert_eq!(rt; (world.registered(), world.moments().len()), (1, 4));
    Ok(())
}

// The put takes effect at its swap of the primary, the get where it reads the slot.
#[test]
fn where_calls_take_effect(rt: HostRuntime) -> Result<(), Fail> {
    let mut world = opened(&rt, rt.alloc(), [1, 1, 1, 1, 1, 1, 10])?;
    put(&rt, rt.alloc(), &mut world, (1, 1), b"1");
    go(&rt, &mut world, 1, DONE);
    get(&rt, rt.alloc(), &mut world, (1, 2), b"1");
    let order = world.in_order()?;
    assert_eq!(rt; order.len(), 2);
    for (one, event) in order.iter().zip([18, 23]) {
        assert_eq!(rt; one.at.event, event);
    }
    Ok(())
}

// A put stops before its last swap. Another client's put at the same key waits for its recovery, and
// is beaten by it.
#[test]
fn a_stopped_put(rt: HostRuntime) -> Result<(), Fail> {
    let mut world = opened(&rt, rt.alloc(), [3, 3, 1, 2, 1, 2, 10])?;
    put(&rt, rt.alloc(), &mut world, (1, 1), b"1");
    step(&rt, &mut world, Actor::Client(1), 36);
    comes_to(
        &rt,
        &mut world,
        Event::Stop { client: 1 },
        Happened::Stopped,
    );
    assert_eq!(rt; world.stopped(), 1);
    has_block(&rt, &world, 0, BlockState::Awaiting(1));
    has_object(&rt, &world, 0x10_0010, ObjectState::Held(1));
    put(&rt, rt.alloc(), &mut world, (2, 1), b"2");
    let waits = Why::Unchanged { slot: 0, word: 0 };
    go(&rt, &mut world, 2, Step::NotYet(waits));
    recover(&rt, &mut world, 1);
    go(&rt, &mut world, 2, DONE);
    get(&rt, rt.alloc(), &mut world, (2, 2), b"1");
    let calls = [(2, 1, true), (1, 1, false), (2, 2, true)];
    has_history(&rt, rt.alloc(), &world, &calls);
    is_divided(&rt, &world, [0, 1, 0, 1], [127, 1, 0]);
    has_block(&rt, &world, 0, BlockState::Released);
    Ok(())
}

// The slot's primary is lost before a put's last swap. The put waits for the settling, and the settling
// for the put.
#[test]
fn a_lost_primary(rt: HostRuntime) -> Result<(), Fail> {
    let mut world = opened(&rt, rt.alloc(), [3, 3, 1, 1, 1, 1, 10])?;
    put(&rt, rt.alloc(), &mut world, (1, 1), b"1");
    step(&rt, &mut world, Actor::Client(1), 37);
    refuses(&rt, &mut world, Event::Late { client: 1 }, Refused::Live(1));
    comes_to(&rt, &mut world, Event::Lose { node: 1 }, Happened::Lost);
    go(&rt, &mut world, 1, Step::NotYet(Why::Lost(1)));
    let waits = Settled::NotYet {
        client: 1,
        begin: 1,
    };
    settle(&rt, &mut world, waits);
    works_on(&rt, &world, Some(Task::Settle), Some(0));
    go(&rt, &mut world, 1, Step::NotYet(Why::Sealed(0x1_0107)));
    settle(&rt, &mut world, Settled::Opened(0x2_0006));
    works_on(&rt, &world, None, None);
    go(&rt, &mut world, 1, DONE);
    get(&rt, rt.alloc(), &mut world, (1, 2), b"1");
    has_history(&rt, rt.alloc(), &world, &[(1, 1, true), (1, 2, true)]);
    Ok(())
}

// The same, but the last swap still reaches the lost primary: the put ends without the settling.
#[test]
fn a_late_swap(rt: HostRuntime) -> Result<(), Fail> {
    let mut world = opened(&rt, rt.alloc(), [3, 3, 1, 1, 1, 1, 10])?;
    put(&rt, rt.alloc(), &mut world, (1, 1), b"1");
    step(&rt, &mut world, Actor::Client(1), 37);
    comes_to(&rt, &mut world, Event::Lose { node: 1 }, Happened::Lost);
    let verb = Verb::Swap {
        place: Place { node: 1, at: 0 },
        expect: 0,
        fresh: 0xaf01_0000_0010_0010,
    };
    sees(
        &rt,
        &mut world,
        Event::Late { client: 1 },
        verb,
        Answer::Word(0),
    );
    go(&rt, &mut world, 1, DONE);
    settle(&rt, &mut world, Settled::Opened(0x2_0006));
    has_history(&rt, rt.alloc(), &world, &[(1, 1, true)]);
    Ok(())
}

// A lost node is exchanged and admitted again, and then holds what the others held.
#[test]
fn a_node_joins(rt: HostRuntime) -> Result<(), Fail> {
    let mut world = opened(&rt, rt.alloc(), [3, 3, 1, 1, 1, 1, 10])?;
    put(&rt, rt.alloc(), &mut world, (1, 1), b"1");
    go(&rt, &mut world, 1, DONE);
    comes_to(&rt, &mut world, Event::Lose { node: 1 }, Happened::Lost);
    settle(&rt, &mut world, Settled::Opened(0x2_0006));
    let word = 0xffff_ffff_ffff_ffff;
    comes_to(
        &rt,
        &mut world,
        Event::Fill { node: 1, word },
        Happened::Filled,
    );
    join(&rt, &mut world, 1, Joined::Joined);
    settle(&rt, &mut world, Settled::Opened(0x3_0007));
    comes_to(&rt, &mut world, Event::Lose { node: 2 }, Happened::Lost);
    comes_to(&rt, &mut world, Event::Lose { node: 3 }, Happened::Lost);
    settle(&rt, &mut world, Settled::Opened(0x4_0001));
    get(&rt, rt.alloc(), &mut world, (1, 2), b"1");
    Ok(())
}

// What is refused of a client that runs.
#[test]
fn calls_that_are_refused(rt: HostRuntime) -> Result<(), Fail> {
    let mut world = opened(&rt, rt.alloc(), [1, 1, 1, 1, 1, 1, 2])?;
    let alloc = rt.alloc();
    let long = vec![in alloc; 120; 1953]?;
    let long = long.as_slice();
    let (key, value) = (&long[..65], Some(long));
    let unknown = Err(Refused::Unknown(2));
    call(&rt, alloc, &mut world, 2, b"", value, unknown);
    call(&rt, alloc, &mut world, 1, b"", value, Err(Refused::Key(0)));
    call(&rt, alloc, &mut world, 1, key, value, Err(Refused::Key(65)));
    call(
        &rt,
        alloc,
        &mut world,
        1,
        b"x",
        value,
        Err(Refused::Value(1953)),
    );
    let (key, value) = (&long[..64], Some(&long[..1952]));
    call(
        &rt,
        alloc,
        &mut world,
        1,
        key,
        value,
        Ok(Happened::Invoked(1)),
    );
    go(&rt, &mut world, 1, DONE);
    refuses(&rt, &mut world, Event::Step { client: 1 }, Refused::Idle(1));
    call(
        &rt,
        alloc,
        &mut world,
        1,
        b"a",
        None,
        Ok(Happened::Invoked(2)),
    );
    call(&rt, alloc, &mut world, 1, b"", None, Err(Refused::Busy(1)));
    refuses(&rt, &mut world, Event::Late { client: 1 }, Refused::Live(0));
    go(&rt, &mut world, 1, Step::Ended(Outcome::Absent));
    call(
        &rt,
        alloc,
        &mut world,
        1,
        b"a",
        None,
        Err(Refused::Spent(1)),
    );
    Ok(())
}

// What is refused of the pool and of a client that is stopped.
#[test]
fn events_that_are_refused(rt: HostRuntime) -> Result<(), Fail> {
    let mut world = opened(&rt, rt.alloc(), [1, 1, 1, 1, 1, 1, 2])?;
    refuses(&rt, &mut world, Event::Register, Refused::Clients(1));
    refuses(&rt, &mut world, Event::Work, Refused::NoTask);
    let task = Task::Recover(1);
    refuses(&rt, &mut world, Event::Choose(task), Refused::Running(1));
    comes_to(
        &rt,
        &mut world,
        Event::Stop { client: 1 },
        Happened::Stopped,
    );
    refuses(
        &rt,
        &mut world,
        Event::Step { client: 1 },
        Refused::Stopped(1),
    );
    recover(&rt, &mut world, 1);
    refuses(&rt, &mut world, Event::Choose(task), Refused::Recovered(1));
    Ok(())
}

// What is refused of a node that is to be exchanged or admitted.
#[test]
fn nodes_that_are_refused(rt: HostRuntime) -> Result<(), Fail> {
    let mut world = opened(&rt, rt.alloc(), [3, 3, 1, 1, 1, 1, 10])?;
    comes_to(&rt, &mut world, Event::Lose { node: 1 }, Happened::Lost);
    refuses(
        &rt,
        &mut world,
        Event::Choose(Task::Join(1)),
        Refused::Masked(1),
    );
    refuses(
        &rt,
        &mut world,
        Event::Choose(Task::Join(2)),
        Refused::Live(2),
    );
    refuses(
        &rt,
        &mut world,
        Event::Choose(Task::Join(4)),
        Refused::Node(4),
    );
    settle(&rt, &mut world, Settled::Opened(0x2_0006));
    comes_to(
        &rt,
        &mut world,
        Event::Choose(Task::Settle),
        Happened::Chosen,
    );
    step(&rt, &mut world, Actor::Master, 2);
    let fill = Event::Fill { node: 1, word: 0 };
    refuses(&rt, &mut world, fill, Refused::Sealed(0x2_0106));
    let sealed = Joined::NotYet(Why::Sealed(0x2_0106));
    join(&rt, &mut world, 1, sealed);
    Ok(())
}

// A second node is lost while a settling copies; the last live node is not lost.
#[test]
fn a_loss_while_words_are_copied(rt: HostRuntime) -> Result<(), Fail> {
    let mut world = opened(&rt, rt.alloc(), [3, 3, 1, 1, 1, 1, 10])?;
    put(&rt, rt.alloc(), &mut world, (1, 1), b"1");
    go(&rt, &mut world, 1, DONE);
    comes_to(&rt, &mut world, Event::Lose { node: 1 }, Happened::Lost);
    comes_to(
        &rt,
        &mut world,
        Event::Choose(Task::Settle),
        Happened::Chosen,
    );
    step(&rt, &mut world, Actor::Master, 40);
    comes_to(&rt, &mut world, Event::Lose { node: 2 }, Happened::Lost);
    settle(&rt, &mut world, Settled::Opened(0x2_0004));
    get(&rt, rt.alloc(), &mut world, (1, 2), b"1");
    refuses(
        &rt,
        &mut world,
        Event::Lose { node: 3 },
        Refused::LastLive(0),
    );
    refuses(&rt, &mut world, Event::Lose { node: 1 }, Refused::Gone(1));
    refuses(&rt, &mut world, Event::Lose { node: 4 }, Refused::Node(4));
    Ok(())
}

// Each region is placed on one node: the index on node 1, region 1 on node 2 and region 2 on node 3.
#[test]
fn refusals_at_the_opening(rt: HostRuntime) -> Result<(), Fail> {
    let Ok(shape) = shape_of(3, 1, 2, 1, 1, 1, 10) else {
        return Err("no shape".into());
    };
    assert!(rt; words(&shape) <= 2_097_152);
    let world = World::new(rt.alloc(), shape)?;
    let key = Bytes::of_vec(Vec::new(rt.alloc()));
    let call = Call::Get { key };
    let unknown = Some(Refused::Unknown(1));
    assert_eq!(rt; world.refusal(&Event::Register), None);
    assert_eq!(rt; world.refusal(&Event::Invoke { client: 1, call }), unknown);
    assert_eq!(rt;
        world.refusal(&Event::Step { client: 0 }),
        Some(Refused::Unknown(0))
    );
    assert_eq!(rt;
        world.refusal(&Event::Late { client: 2 }),
        Some(Refused::Unknown(2))
    );
    assert_eq!(rt; world.refusal(&Event::Stop { client: 1 }), unknown);
    assert_eq!(rt;
        world.refusal(&Event::Lose { node: 3 }),
        Some(Refused::LastLive(2))
    );
    assert_eq!(rt;
        world.refusal(&Event::Lose { node: 4 }),
        Some(Refused::Node(4))
    );
    let fill = Event::Fill { node: 1, word: 0 };
    assert_eq!(rt; world.refusal(&fill), Some(Refused::Live(1)));
    assert_eq!(rt; world.refusal(&Event::Choose(Task::Settle)), None);
    assert_eq!(rt; world.refusal(&Event::Choose(Task::Recover(1))), unknown);
    let join = Event::Choose(Task::Join(0));
    assert_eq!(rt; world.refusal(&join), Some(Refused::Node(0)));
    assert_eq!(rt; world.refusal(&Event::Work), Some(Refused::NoTask));
    Ok(())
}
