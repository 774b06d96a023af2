use super::writing::Unwritten;
use crate::line_writing::{write_dumped, write_history_count, write_refusal, write_took};
use outside::MemorySink;
use std::alloc::Global;
use std::test::Fail;
use world_core::Refused;

const REFUSALS: &[(Refused, &[u8])] = &[
    (Refused::Clients(64), b"refused clients 64\n"),
    (Refused::Unknown(0), b"refused unknown 0\n"),
    (Refused::Key(4_194_304), b"refused key 4194304\n"),
    (Refused::LastLive(63), b"refused lastlive 63\n"),
    (
        Refused::Sealed(65_793),
        b"refused sealed 0000000000010101\n",
    ),
    (Refused::NoTask, b"refused task\n"),
];

fn sink_of(alloc: Global) -> MemorySink {
    MemorySink::new(alloc, Vec::new(alloc))
}

#[test]
fn refusals_name_their_number(rt: HostRuntime) -> Result<(), Fail> {
    for (reason, text) in REFUSALS {
        let mut sink = sink_of(rt.alloc());
        assert_eq!(rt; write_refusal(rt.alloc(), *reason, &mut sink), Ok(()));
        assert_eq!(rt; sink.bytes(), *text);
    }
    Ok(())
}

#[test]
fn counts_of_verbs_and_lines_are_written(rt: HostRuntime) -> Result<(), Fail> {
    let alloc = rt.alloc();
    let mut sink = sink_of(alloc);
    assert_eq!(rt;
        write_took(alloc, Some(64), 4_294_967_296, &mut sink),
        Ok(())
    );
    assert_eq!(rt; write_took(alloc, None, 1, &mut sink), Ok(()));
    assert_eq!(rt; write_history_count(alloc, 0, &mut sink), Ok(()));
    assert_eq!(rt; write_dumped(alloc, 2_097_152, &mut sink), Ok(()));
    assert_eq!(rt;
        sink.bytes(),
        b"took 64 4294967296\ntook m 1\nhistory 0\ndumped 2097152\n".as_slice()
    );
    Ok(())
}

#[test]
fn a_write_that_fails_ends_the_line(rt: HostRuntime) -> Result<(), Fail> {
    let alloc = rt.alloc();
    let fails = vec![in alloc; 1]?;
    let mut sink = MemorySink::new(alloc, fails);
    assert_eq!(rt; write_took(alloc, None, 1, &mut sink), Ok(()));
    assert_eq!(rt;
        write_took(alloc, None, 2, &mut sink),
        Err(Unwritten::Fault)
    );
    assert_eq!(rt; sink.bytes(), b"took m 1\n".as_slice());
    Ok(())
}
