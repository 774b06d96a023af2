use crate::{run_shape, simulate};
use outside::MemorySink;
use script_run::Ran;
use sim_meaning::Numbers;
use std::alloc::Global;
use std::test::Fail;

const ONE_DELETE: Numbers = Numbers {
    seed: 1,
    clients: 1,
    calls: 1,
    stops: 0,
    losses: 0,
};

const ONE_DELETE_TEXT: &[u8] = b"sim 1 1 1 0 0
returned 1
open 0
verbs 4
blocks unused 64 owned 0 awaiting 0 released 0
objects stock 0 present 0 held 0
keys 0
end
";

const A_STOPPED_PUT: Numbers = Numbers {
    seed: 9,
    clients: 2,
    calls: 1,
    stops: 1,
    losses: 0,
};

const A_STOPPED_PUT_TEXT: &[u8] = b"sim 9 2 1 1 0
returned 1
open 1
verbs 169
blocks unused 63 owned 1 awaiting 0 released 0
objects stock 62 present 2 held 0
keys 2
end
";

// What an independent program prints of these numbers.
const TWO_STOPS_AND_A_LOSS: Numbers = Numbers {
    seed: 5,
    clients: 8,
    calls: 20,
    stops: 2,
    losses: 1,
};

const TWO_STOPS_AND_A_LOSS_TEXT: &[u8] = b"sim 5 8 20 2 1
returned 140
open 2
verbs 76781
blocks unused 56 owned 6 awaiting 0 released 2
objects stock 474 present 38 held 0
keys 31
end
";

fn sink_of(alloc: Global) -> MemorySink {
    MemorySink::new(alloc, Vec::new(alloc))
}

#[test]
fn small_simulations_are_summed_up(rt: HostRuntime) -> Result<(), Fail> {
    let alloc = rt.alloc();
    for (numbers, text) in [
        (ONE_DELETE, ONE_DELETE_TEXT),
        (A_STOPPED_PUT, A_STOPPED_PUT_TEXT),
        (TWO_STOPS_AND_A_LOSS, TWO_STOPS_AND_A_LOSS_TEXT),
    ] {
        let mut sink = sink_of(alloc);
        assert_eq!(rt; simulate(alloc, &numbers, &mut sink), Ran::Whole);
        assert_eq!(rt; sink.bytes(), text);
    }
    Ok(())
}

#[test]
fn a_write_that_fails_leaves_the_lines_before_it(rt: HostRuntime) -> Result<(), Fail> {
    let alloc = rt.alloc();
    let fails = Vec::from_slice(alloc, &[2])?;
    let mut sink = MemorySink::new(alloc, fails);
    assert_eq!(rt; simulate(alloc, &ONE_DELETE, &mut sink), Ran::WriteFault);
    assert_eq!(rt; sink.bytes(), b"sim 1 1 1 0 0\nreturned 1\n".as_slice());
    Ok(())
}

#[test]
fn a_pool_has_room_for_all_clients(rt: HostRuntime) {
    let shape = run_shape();
    assert_eq!(rt; shape.clients, 64);
    assert_eq!(rt; shape.nodes * shape.regions * shape.blocks, 192);
}
