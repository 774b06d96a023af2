// The command `sim`, and scripts in which a client stops or a node is lost at each verb.

use crate::offline;
use crate::script_tests::script_without_faults;
use crate::tests::{call, words_of};
use outside::{MemorySink, MemorySource};
use script_text::{OutLine, parse_output};
use sim_plan::fault_script;
use std::alloc::AllocError;
use std::process::Abort;
use std::test::Fail;

const SUMMARY: &[u8] =
    b"sim 5 8 200 2 1\nreturned 1400\nopen 2\nverbs 165122\nblocks unused 50 owned 14 awaiting 0 released 0\nobjects stock 854 present 42 held 0\nkeys 29\nend\n";

#[test]
fn a_simulation_prints_its_summary_in_any_order_of_options(rt: HostRuntime) -> Result<(), Fail> {
    let orders: [&[&str]; 2] = [
        &[
            "sim",
            "--seed",
            "5",
            "--clients",
            "8",
            "--calls",
            "200",
            "--stops",
            "2",
            "--losses",
            "1",
        ],
        &[
            "sim",
            "--losses=1",
            "--stops",
            "2",
            "--seed",
            "5",
            "--clients",
            "8",
            "--calls",
            "200",
        ],
    ];
    for texts in orders {
        let words = words_of(rt.alloc(), texts)?;
        let input = b"nothing of this is read".to_vec(rt.alloc())?;
        let mut source = MemorySource::new(input, 1, vec![in rt.alloc(); 0; 1]?);
        let mut sink = MemorySink::new(rt.alloc(), Vec::new(rt.alloc()));
        assert_eq!(rt; offline(rt.alloc(), &words, &mut source, &mut sink), 0);
        assert_eq!(rt; sink.bytes(), SUMMARY);
    }
    Ok(())
}

// Words behind `sim` that are no numbers of a simulation.
const USAGES: [&[&str]; 12] = [
    &["--seed", "5", "--clients", "8", "--calls", "200"],
    &[
        "--seed=5",
        "--clients=0",
        "--calls=2",
        "--stops=0",
        "--losses=0",
    ],
    &[
        "--seed=5",
        "--clients=65",
        "--calls=2",
        "--stops=0",
        "--losses=0",
    ],
    &[
        "--seed=5",
        "--clients=8",
        "--calls=2",
        "--stops=8",
        "--losses=0",
    ],
    &[
        "--seed=5",
        "--clients=8",
        "--calls=2",
        "--stops=0",
        "--losses=3",
    ],
    &[
        "--seed=5",
        "--clients=8",
        "--calls=0",
        "--stops=0",
        "--losses=0",
    ],
    &[
        "--seed=5",
        "--clients=11",
        "--calls=9091",
        "--stops=0",
        "--losses=0",
    ],
    &[
        "--seed=18446744073709551616",
        "--clients=8",
        "--calls=2",
        "--stops=0",
        "--losses=0",
    ],
    &[
        "--seed=5",
        "--seed=5",
        "--clients=8",
        "--calls=2",
        "--stops=0",
        "--losses=0",
    ],
    &[
        "--seed=5",
        "--clients=8",
        "--calls=2",
        "--stops=0",
        "--losses=0",
        "more",
    ],
    &[
        "--seed=5",
        "--clients=8",
        "--calls=2",
        "--stops=0",
        "--losses=0",
        "--",
    ],
    &["--help"],
];

#[test]
fn other_words_are_no_simulation(rt: HostRuntime) -> Result<(), Fail> {
    for usage in USAGES {
        let mut texts = vec![in rt.alloc(); "sim"; 1]?;
        texts.extend_from_slice(usage)?;
        let got = call(rt.alloc(), &texts, b"", &[], &[])?;
        assert_eq!(rt; got.0, 2);
        assert_eq!(rt; got.1.as_slice(), b"usage\n".as_slice());
    }
    Ok(())
}

// Which kinds of script fail at which verbs: the first and the last of each of the two.
const FAULTS: [(u32, u32, u32, u32, u32); 6] = [
    (0, 1, 40, 0, 0),
    (1, 1, 40, 0, 0),
    (2, 1, 40, 0, 0),
    (3, 33, 37, 39, 43),
    (4, 1, 100, 0, 0),
    (5, 1, 40, 0, 0),
];

#[test]
fn after_a_fault_at_any_verb_each_block_and_object_is_accounted_for(
    rt: HostRuntime,
) -> Result<(), Fail> {
    for (kind, from, to, from_second, to_second) in FAULTS {
        for first in from..=to {
            for second in from_second..=to_second {
                let script = fault_script(rt.alloc(), kind, first, second)?;
                let got = script_without_faults(rt.alloc(), &script)?;
                assert_eq!(rt; got.0, 0);
                check_last_count(&rt, &got.1)?;
            }
        }
    }
    Ok(())
}

// The last count of an output has one key's object, none that is held, and no block that awaits a
// recovery; each of the 64 units of a granted block is an object.
fn check_last_count(rt: &(impl Abort + AllocGlobal), output: &[u8]) -> Result<(), AllocError> {
    assert!(rt; output.len() <= 4_194_304);
    let mut units = 0;
    let mut counted = 0;
    let Ok(lines) = parse_output(rt.alloc(), output) else {
        panic!(rt; "the output has a bad line");
    };
    for line in &lines {
        match line {
            OutLine::Blocks {
                owned,
                awaiting,
                released,
                ..
            } => {
                assert_eq!(rt; *awaiting, 0);
                units = 64 * (u64::from(*owned) + u64::from(*released));
            }
            OutLine::Objects {
                stock,
                present,
                held,
            } => {
                assert_eq!(rt; (*present, *held), (1, 0));
                counted = u64::from(*stock) + u64::from(*present);
            }
            _ => {}
        }
    }
    assert!(rt; units > 0);
    assert_eq!(rt; counted, units);
    Ok(())
}
