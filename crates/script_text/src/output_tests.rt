use super::{BadKind, OutLine, ScriptFault, line_text, parse_output};
use BadKind::{Block, Byte, Count, Hex, Number, Word};
use std::alloc::{AllocError, Global};
use std::test::Fail;

// What `parse_output` answers: how many lines, or the bad line.
fn answer(alloc: Global, text: &[u8]) -> Result<Vec<OutLine>, ScriptFault> {
    if text.len() > 4_194_304 {
        return Err(ScriptFault::NoMemory);
    }
    parse_output(alloc, text)
}

// The text of the lines that a text is read as.
fn printed_again(alloc: Global, text: &[u8]) -> Result<Vec<u8>, AllocError> {
    let mut printed = Vec::new(alloc);
    if let Ok(lines) = answer(alloc, text) {
        for line in &lines {
            line_text(alloc, line, &mut printed)?;
        }
    }
    Ok(printed)
}

#[test]
fn each_line_is_read_and_printed_again(rt: HostRuntime) -> Result<(), Fail> {
    const TEXTS: [&[u8]; 3] = [
        b"history 0\nend\n",
        b"client 1\ncalled 1 1 put a 1\ncalled 64 16777215 get x:783a\ncalled 1 3 delete x:00\n\
ended 1 1 Done\nended 1 2 Value x:\nended 1 3 Value x:783a31\nended 1 4 Value x:200a7f\nended 1 5 Absent\n\
ended 1 6 Full\nended 1 7 NoSpace 5 64 ffffffffffffffff\nnotyet 1 Sealed 0000000000000100\nnotyet 2 Lost 8\n\
notyet m Unchanged 6143 00000000deadbeef\ntook 1 4294967295\ntook m 0\nstopped 1\nlost 8\ntask settle\n\
task recover 1\ntask join 2\nrecovered 1\njoined 2\nfilled 3\nopened 0000000000000001\nwaiting 1 0000000000000002\n\
v 1 read 1 0 = 0123456789abcdef\nv m read 1 4294967295 = lost\nv 1 write 1 2 0000000000000003\n\
v 1 write 1 2 0000000000000003 = lost\nv m swap 1 2 0000000000000003 0000000000000004 = lost\n\
v m swap 1 2 0000000000000003 0000000000000004 = 0000000000000005\nv 1 add 0 1 0000000000000001 = 0000000000000000\n\
v 1 add 0 1 0000000000000001 = lost\nw 1 2 fffffffffffffff0\ndumped 1\nblocks unused 1 owned 2 awaiting 3 released 4\n\
objects stock 5 present 6 held 7\nhistory 1\nh 1 1 put a 1 Done\nhistory 3\nh 1 1 put a 1 Done open\n\
h 1 2 get a Value a\nh 2 1 delete a NoSpace 0 1 0000000000000000 open\nend\n",
        b"refused clients 1\nrefused unknown 2\nrefused stopped 3\nrefused busy 4\nrefused key 5\nrefused value 6\n\
refused spent 7\nrefused idle 8\nrefused live 9\nrefused running 10\nrefused recovered 11\nrefused node 12\n\
refused gone 13\nrefused lastlive 14\nrefused task\nrefused masked 15\nrefused sealed ffffffffffffffff\nrefused\n\
history 0\nend\n",
    ];
    for text in TEXTS {
        let printed = printed_again(rt.alloc(), text)?;
        assert_eq!(rt; printed.as_slice(), text);
    }
    let printed = printed_again(
        rt.alloc(),
        b"client  007 \r\nrefused task 1\nrefused busy x\nrefused sealed 1\nrefused # \nhistory 0\nend",
    )?;
    assert_eq!(rt;
        printed.as_slice(),
        b"client 7\nrefused\nrefused\nrefused\nrefused\nhistory 0\nend\n".as_slice()
    );
    Ok(())
}

#[test]
fn the_first_bad_line_is_named_with_its_first_kind(rt: HostRuntime) -> Result<(), Fail> {
    const CASES: [(&[u8], u32, BadKind); 60] = [
        (b"", 1, Block),
        (b"\n", 1, Word),
        (b"# a\n", 1, Word),
        (b"history 0\nend\r", 2, Byte),
        (b"client x y \t\n", 1, Byte),
        (b"clients 1\n", 1, Word),
        (b"client\n", 1, Count),
        (b"client 1 2\n", 1, Count),
        (b"client 4294967296\n", 1, Number),
        (b"client m\n", 1, Number),
        (b"client 12345678901\n", 1, Number),
        (b"called x x take\n", 1, Word),
        (b"called 1 1\n", 1, Count),
        (b"called x x put a\n", 1, Count),
        (b"called 1 x get x:0\n", 1, Number),
        (b"called 1 1 get x:0A\n", 1, Hex),
        (b"called 1 1 get a b\n", 1, Count),
        (b"ended 1 1 Done x\n", 1, Count),
        (b"ended 1 1 done\n", 1, Word),
        (b"ended 1 1 Value\n", 1, Count),
        (b"ended 1 1 NoSpace 1 1 1\n", 1, Hex),
        (b"notyet x Sealed 1\n", 1, Number),
        (b"notyet m Gone 1\n", 1, Word),
        (b"notyet m Lost 0000000000000001\n", 1, Number),
        (b"notyet 1 Unchanged 1\n", 1, Count),
        (b"took m\n", 1, Count),
        (b"took mm 1\n", 1, Number),
        (b"stopped m\n", 1, Number),
        (b"task\n", 1, Count),
        (b"task x y\n", 1, Word),
        (b"task settle 1\n", 1, Count),
        (b"task join x\n", 1, Number),
        (b"opened 000000000000000A\n", 1, Hex),
        (b"opened 00000000000000001\n", 1, Hex),
        (b"v 1 peek 1 1\n", 1, Word),
        (b"v 1\n", 1, Count),
        (b"v 1 read 1 0 : x\n", 1, Word),
        (b"v 1 read 1 0 = gone\n", 1, Hex),
        (b"v 1 read 1 0 = lost x\n", 1, Count),
        (b"v 1 read 1 0\n", 1, Count),
        (b"v x read y 0 = 1\n", 1, Number),
        (b"v 1 write 1 0 0000000000000001 =\n", 1, Count),
        (b"v 1 write 1 0 0000000000000001 lost\n", 1, Word),
        (
            b"v 1 write 1 0 0000000000000001 = 0000000000000001\n",
            1,
            Word,
        ),
        (b"v 1 write 1 0 0000000000000001 = lost x\n", 1, Count),
        (b"blocks unused 1 owned 2 awaiting 3 free 4\n", 1, Word),
        (b"objects stock 1 present 2 held\n", 1, Count),
        (b"history 0\nend\nend x\n", 3, Count),
        (b"h x 1 put a 1 Done x\n", 1, Word),
        (b"h 1 1 put a 1 Done open x\n", 1, Count),
        (b"h 1 1 put a 1\n", 1, Count),
        (b"h 1 1 put a 1 Done\n", 1, Block),
        (b"history 2\nh 1 1 put a 1 Done\nclient 1\n", 3, Block),
        (
            b"history 1\nh 1 1 put a 1 Done\nh 1 2 get a Absent\n",
            3,
            Block,
        ),
        (b"history 1\nhistory 0\n", 2, Block),
        (b"history 0\nend\nclient 1\n", 3, Block),
        (b"history 0\nclient 1\n", 3, Block),
        (b"history 0\nclient 1\nend\n", 4, Block),
        (b"end\nclient x\n", 2, Number),
        (b"end\nhistory 0\nend\n", 2, Block),
    ];
    for (text, number, kind) in CASES {
        match answer(rt.alloc(), text) {
            Ok(_) => assert_eq!(rt; 0, number),
            Err(fault) => assert_eq!(rt; fault, ScriptFault::BadLine { number, kind }),
        }
    }
    Ok(())
}
