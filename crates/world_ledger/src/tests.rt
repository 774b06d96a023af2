ghost use Rattle.std.specs.Prelude.{◌≡◌, ◌<◌, ◌≤◌, IfOk, length, map};
ghost use Rattle.machine_world.specs.Standing.{node_sizes};
ghost use Rattle.region_view.specs.Sizes.{all_words, node_words};

use super::*;
use key_test::object_in;
use machine::client_call::Outcome;
use map_model::{Bytes, Call, Reply};
use region_view::{Shape, first_words, shape_of, words};
use std::alloc::{AllocError, Global};
use std::process::Abort;
use std::test::Fail;
use verb_history::Point;
use verb_words::{Nodes, Place, Verb};

// The slot word of an object of one unit, the first of region 2.
const WORD: u64 = 0xab01_0000_0020_0010;

#[test]
fn clients_in_order(rt: HostRuntime) -> Result<(), Fail> {
    let mut clients = Clients::new();
    clients.add(64);
    clients.add(1);
    clients.add(64);
    assert_eq!(rt; clients.bits(), 0x8000_0000_0000_0001);
    assert!(rt; clients.has(64));
    assert!(rt; !clients.has(2));
    assert!(rt; !clients.has(0));
    Ok(())
}

fn opened(alloc: Global, shape: &Shape) -> Result<Nodes, AllocError>
    requires { all_words shape.now ≤ 2097152 }
    ensures { IfOk result (λ nodes. map length nodes ≡ node_sizes shape.now) }
{
    prove!(shape.nodes <= 8);
    Ok(Nodes::of_words(first_words(alloc, shape)?))
}

fn write(rt: &impl Abort, nodes: &mut Nodes, shape: &Shape, place: Place, word: u64)
    requires { map length nodes.old ≡ node_sizes shape.now }
    ensures { map length nodes.new ≡ node_sizes shape.now }
{
    prove!(shape.groups >= 1);
    assert!(rt; place.node <= shape.nodes && place.at < 48);
    nodes.apply(Verb::Write(place, word), false);
}

// Regions 0, 1 and 2 are placed on nodes 1 and 2, 2 and 3, 3 and 1.
#[test]
fn words_under_a_mask(rt: HostRuntime) -> Result<(), Fail> {
    let Ok(shape) = shape_of(3, 2, 2, 1, 1, 1, 10) else {
        return Err("no shape".into());
    };
    assert!(rt; words(&shape) <= 2_097_152 && 7 < 24 * shape.groups);
    let mut nodes = opened(rt.alloc(), &shape)?;
    write(&rt, &mut nodes, &shape, Place { node: 1, at: 7 }, WORD);
    let Some(object) = object_in(&shape, deciding_word(&nodes, &shape, 7)) else {
        return Err("no object".into());
    };
    assert_eq!(rt; slot_of_present(&nodes, &shape, object.pointer), Some(7));
    assert!(rt; is_in_stock(&nodes, &shape, object));
    assert_eq!(rt; link_word_in_force(&nodes, &shape, object), 0);

    // Node 1 is masked; then the mask leaves the index bare.
    let epoch = Place { node: 0, at: 0 };
    write(&rt, &mut nodes, &shape, epoch, 0x1_0006);
    assert_eq!(rt; deciding_word(&nodes, &shape, 7), 0);
    assert_eq!(rt; slot_of_present(&nodes, &shape, object.pointer), None);
    write(&rt, &mut nodes, &shape, epoch, 0x1_0104);
    assert_eq!(rt; deciding_word(&nodes, &shape, 7), WORD);
    Ok(())
}

fn caller(alloc: Global, client: u32) -> Result<Caller, AllocError> {
    let key = Bytes::of_vec(vec![in alloc; 97]?);
    Ok(Caller {
        client,
        number: 1,
        call: Call::Delete { key },
    })
}

fn returns(
    rt: &impl Abort,
    ledger: &mut Ledger,
    caller: Caller,
    beaten: Option<(u32, u64)>,
    event: u64,
) -> Result<(), AllocError> {
    ledger.reserve_entries(1)?;
    assert!(rt; ledger.has_rank(beaten));
    let returned = Returned {
        caller,
        reply: Reply::Done,
        object: if beaten.is_some() { 1 } else { 0 },
        beaten,
    };
    ledger.enter_return(returned, Outcome::Done, event);
    Ok(())
}

#[test]
fn calls_at_one_slot(rt: HostRuntime) -> Result<(), Fail> {
    let Ok(shape) = shape_of(3, 2, 2, 1, 1, 4, 10) else {
        return Err("no shape".into());
    };
    assert!(rt; 3 < 24 * shape.groups);
    let alloc = rt.alloc();
    let mut ledger = Ledger::new(alloc, &shape)?;
    ledger.register();
    ledger.note_read(1, 4);
    ledger.reserve_decision(3)?;
    ledger.reserve_entries(1)?;
    ledger.decide(&shape, 3, 9, WORD, Some(caller(alloc, 2)?));
    assert_eq!(rt; ledger.holder_of(&shape, 0x20_0010), 2);
    ledger.note_taking(&shape, 3, 0x20_0010, true, false);
    assert_eq!(rt; ledger.holder_of(&shape, 0x20_0010), 3);
    for (client, beaten) in [
        (3, Some((3, 1))),
        (4, Some((3, 1))),
        (1, None),
        (3, Some((3, 2))),
    ] {
        returns(&rt, &mut ledger, caller(alloc, client)?, beaten, 12)?;
    }
    // In the order of their points, which is not that in which they were entered.
    let expected = [
        (1, 4, 0, 0),
        (3, 9, 3, 0),
        (4, 9, 3, 1),
        (2, 9, 3, u32::MAX),
        (3, 12, 0, 0),
    ];
    let order = ledger.in_order()?;
    assert_eq!(rt; order.len(), expected.len());
    for (one, (client, event, slot, rank)) in order.iter().zip(expected) {
        assert_eq!(rt; one.entry.client, client);
        assert_eq!(rt; one.at, Point { event, slot, rank });
    }
    Ok(())
}
