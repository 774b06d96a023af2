// Whole scripts with their output, written down from the rules of the protocol.

use crate::script_tests::check_script;
use std::alloc::{AllocError, Global};
use std::test::Fail;

const ROWS: [(&[u8], &[u8]); 24] = [
    (b"shape 1 1 1 1 1 1 10\n", b"history 0\nend\n"),
    (
        b"shape 1 1 1 1 1 1 10\nregister\nput 1 a 1\nget 1 a\ndelete 1 a\nget 1 a\ncount\n",
        b"client 1\ncalled 1 1 put a 1\nended 1 1 Done\ncalled 1 2 get a\nended 1 2 Value 1\ncalled 1 3 delete a\nended 1 3 Done\ncalled 1 4 get a\nended 1 4 Absent\nblocks unused 0 owned 1 awaiting 0 released 0\nobjects stock 63 present 1 held 0\nhistory 4\nh 1 1 put a 1 Done\nh 1 2 get a Value 1\nh 1 3 delete a Done\nh 1 4 get a Absent\nend\n",
    ),
    (
        b"shape 1 1 1 1 1 1 10\nregister\nverbs on\nput 1 a 1\nverbs off\nget 1 a\ndelete 1 a\nget 1 a\ncount\n",
        b"client 1\ncalled 1 1 put a 1\nv 1 write 0 16 0000000000000001\nv 1 read 0 0 = 0000000000010001\nv 1 read 1 48 = 0000000000000000\nv 1 swap 1 48 0000000000000000 0100000000000100 = 0000000000000000\nv 1 write 0 18 0000000000100010\nv 1 add 1 112 ffffffffffffffff = ffffffffffffffff\nv 1 write 1 177 0000000100010001\nv 1 write 1 178 0000000000000000\nv 1 write 1 179 0000000000000000\nv 1 write 1 180 0000000000000061\nv 1 write 1 181 0000000000000031\nv 1 write 1 176 0010000010100011\nv 1 read 1 0 = 0000000000000000\nv 1 write 1 179 0000000000000000\nv 1 write 1 178 0000000000000001\nv 1 swap 1 24 0000000000000000 af01000000100010 = 0000000000000000\nv 1 swap 1 0 0000000000000000 af01000000100010 = 0000000000000000\nv 1 write 0 16 0000000000000002\nended 1 1 Done\ncalled 1 2 get a\nended 1 2 Value 1\ncalled 1 3 delete a\nended 1 3 Done\ncalled 1 4 get a\nended 1 4 Absent\nblocks unused 0 owned 1 awaiting 0 released 0\nobjects stock 63 present 1 held 0\nhistory 4\nh 1 1 put a 1 Done\nh 1 2 get a Value 1\nh 1 3 delete a Done\nh 1 4 get a Absent\nend\n",
    ),
    (
        b"shape 3 3 1 2 1 2 10\nregister\nregister\ncall 1 put a 1\nstep 1 35\ncall 2 put a 2\nstep 2 36\nstep 1 1\nstep 2 1\nstep 2 1\nstep 1 1\ngo 2\ngo 1\ngo 2\nget 1 a\n",
        b"client 1\nclient 2\ncalled 1 1 put a 1\ntook 1 35\ncalled 2 1 put a 2\ntook 2 36\ntook 1 1\ntook 2 1\ntook 2 1\ntook 1 1\nnotyet 2 Unchanged 0 0000000000000000\nended 1 1 Done\nended 2 1 Done\ncalled 1 2 get a\nended 1 2 Value 1\nhistory 3\nh 2 1 put a 2 Done\nh 1 1 put a 1 Done\nh 1 2 get a Value 1\nend\n",
    ),
    (
        b"shape 3 3 1 2 1 2 10\nregister\nregister\ncall 1 put a 1\nstep 1 35\ncall 2 put b 2\nstep 2 36\nstep 1 2\ngo 2\ngo 1\ngo 2\nget 1 b\n",
        b"client 1\nclient 2\ncalled 1 1 put a 1\ntook 1 35\ncalled 2 1 put b 2\ntook 2 36\ntook 1 2\nnotyet 2 Unchanged 0 0000000000000000\nended 1 1 Done\nended 2 1 Done\ncalled 1 2 get b\nended 1 2 Value 2\nhistory 3\nh 1 1 put a 1 Done\nh 2 1 put b 2 Done\nh 1 2 get b Value 2\nend\n",
    ),
    (
        b"shape 3 3 1 3 1 3 10\nregister\nregister\nregister\ncall 1 put a 1\nstep 1 35\ncall 2 put a 2\nstep 2 37\ngo 1\nput 3 a 3\ngo 2\nget 1 a\n",
        b"client 1\nclient 2\nclient 3\ncalled 1 1 put a 1\ntook 1 35\ncalled 2 1 put a 2\ntook 2 37\nended 1 1 Done\ncalled 3 1 put a 3\nended 3 1 Done\nended 2 1 Done\ncalled 1 2 get a\nended 1 2 Value 3\nhistory 4\nh 2 1 put a 2 Done\nh 1 1 put a 1 Done\nh 3 1 put a 3 Done\nh 1 2 get a Value 3\nend\n",
    ),
    (
        b"shape 1 1 1 1 1 1 100\nregister\nput 1 a 1\nput 1 b 1\nput 1 c 1\nput 1 d 1\nput 1 e 1\nput 1 f 1\nput 1 g 1\nput 1 h 1\nput 1 i 1\nput 1 j 1\nput 1 k 1\nput 1 l 1\nput 1 m 1\nput 1 n 1\nput 1 o 1\nput 1 p 1\nput 1 q 1\nput 1 r 1\nput 1 s 1\nput 1 t 1\nput 1 u 1\nput 1 v 1\nput 1 w 1\nput 1 x 1\nput 1 y 1\nget 1 y\ncount\n",
        b"client 1\ncalled 1 1 put a 1\nended 1 1 Done\ncalled 1 2 put b 1\nended 1 2 Done\ncalled 1 3 put c 1\nended 1 3 Done\ncalled 1 4 put d 1\nended 1 4 Done\ncalled 1 5 put e 1\nended 1 5 Done\ncalled 1 6 put f 1\nended 1 6 Done\ncalled 1 7 put g 1\nended 1 7 Done\ncalled 1 8 put h 1\nended 1 8 Done\ncalled 1 9 put i 1\nended 1 9 Done\ncalled 1 10 put j 1\nended 1 10 Done\ncalled 1 11 put k 1\nended 1 11 Done\ncalled 1 12 put l 1\nended 1 12 Done\ncalled 1 13 put m 1\nended 1 13 Done\ncalled 1 14 put n 1\nended 1 14 Done\ncalled 1 15 put o 1\nended 1 15 Done\ncalled 1 16 put p 1\nended 1 16 Done\ncalled 1 17 put q 1\nended 1 17 Done\ncalled 1 18 put r 1\nended 1 18 Done\ncalled 1 19 put s 1\nended 1 19 Done\ncalled 1 20 put t 1\nended 1 20 Done\ncalled 1 21 put u 1\nended 1 21 Done\ncalled 1 22 put v 1\nended 1 22 Done\ncalled 1 23 put w 1\nended 1 23 Done\ncalled 1 24 put x 1\nended 1 24 Done\ncalled 1 25 put y 1\nended 1 25 Full\ncalled 1 26 get y\nended 1 26 Absent\nblocks unused 0 owned 1 awaiting 0 released 0\nobjects stock 40 present 24 held 0\nhistory 26\nh 1 1 put a 1 Done\nh 1 2 put b 1 Done\nh 1 3 put c 1 Done\nh 1 4 put d 1 Done\nh 1 5 put e 1 Done\nh 1 6 put f 1 Done\nh 1 7 put g 1 Done\nh 1 8 put h 1 Done\nh 1 9 put i 1 Done\nh 1 10 put j 1 Done\nh 1 11 put k 1 Done\nh 1 12 put l 1 Done\nh 1 13 put m 1 Done\nh 1 14 put n 1 Done\nh 1 15 put o 1 Done\nh 1 16 put p 1 Done\nh 1 17 put q 1 Done\nh 1 18 put r 1 Done\nh 1 19 put s 1 Done\nh 1 20 put t 1 Done\nh 1 21 put u 1 Done\nh 1 22 put v 1 Done\nh 1 23 put w 1 Done\nh 1 24 put x 1 Done\nh 1 25 put y 1 Full\nh 1 26 get y Absent\nend\n",
    ),
    (
        b"shape 3 3 1 2 1 2 10\nregister\nregister\ncall 1 put a 1\nstep 1 36\nstop 1\nput 2 a 2\nrecover 1\ngo 2\nget 2 a\ncount\n",
        b"client 1\nclient 2\ncalled 1 1 put a 1\ntook 1 36\nstopped 1\ncalled 2 1 put a 2\nnotyet 2 Unchanged 0 0000000000000000\nrecovered 1\nended 2 1 Done\ncalled 2 2 get a\nended 2 2 Value 1\nblocks unused 0 owned 1 awaiting 0 released 1\nobjects stock 127 present 1 held 0\nhistory 3\nh 2 1 put a 2 Done\nh 1 1 put a 1 Done open\nh 2 2 get a Value 1\nend\n",
    ),
    (
        b"shape 3 3 1 2 1 2 10\nregister\nregister\nput 1 a 0\ncall 1 put a 1\nstep 1 36\nstop 1\nput 2 a 2\nput 2 a 3\nrecover 1\ncount\n",
        b"client 1\nclient 2\ncalled 1 1 put a 0\nended 1 1 Done\ncalled 1 2 put a 1\ntook 1 36\nstopped 1\ncalled 2 1 put a 2\nended 2 1 Done\ncalled 2 2 put a 3\nended 2 2 Done\nrecovered 1\nblocks unused 0 owned 1 awaiting 0 released 1\nobjects stock 127 present 1 held 0\nhistory 4\nh 1 1 put a 0 Done\nh 1 2 put a 1 Done open\nh 2 1 put a 2 Done\nh 2 2 put a 3 Done\nend\n",
    ),
    (
        b"shape 3 3 1 1 1 2 10\nregister\nregister\nput 1 a 1\ncall 1 put a 2\nstep 1 3\nstop 1\nrecover 1\nget 2 a\ncount\n",
        b"client 1\nclient 2\ncalled 1 1 put a 1\nended 1 1 Done\ncalled 1 2 put a 2\ntook 1 3\nstopped 1\nrecovered 1\ncalled 2 1 get a\nended 2 1 Value 1\nblocks unused 0 owned 0 awaiting 0 released 1\nobjects stock 63 present 1 held 0\nhistory 2\nh 1 1 put a 1 Done\nh 2 1 get a Value 1\nend\n",
    ),
    (
        b"shape 3 3 1 1 1 1 10\nregister\ncall 1 put a 1\nstep 1 37\nlose 1\ngo 1\nsettle\ngo 1\nsettle\ngo 1\nget 1 a\n",
        b"client 1\ncalled 1 1 put a 1\ntook 1 37\nlost 1\nnotyet 1 Lost 1\nwaiting 1 0000000000000001\nnotyet 1 Sealed 0000000000010107\nopened 0000000000020006\nended 1 1 Done\ncalled 1 2 get a\nended 1 2 Value 1\nhistory 2\nh 1 1 put a 1 Done\nh 1 2 get a Value 1\nend\n",
    ),
    (
        b"shape 3 1 2 1 1 1 10\nlose 3\nlose 4\n",
        b"refused lastlive 2\nrefused node 4\nhistory 0\nend\n",
    ),
    (
        b"shape 2 2 1 2 1 2 10\nregister\nregister\nlose 2\nsettle\ncall 1 put a 1\nstep 1 15\ncall 2 put a 2\nstep 2 16\nstep 1 1\ngo 2\ngo 1\ngo 2\nget 2 a\n",
        b"client 1\nclient 2\nlost 2\nopened 0000000000020001\ncalled 1 1 put a 1\ntook 1 15\ncalled 2 1 put a 2\ntook 2 16\ntook 1 1\nnotyet 2 Unchanged 0 0000000000000000\nended 1 1 Done\nended 2 1 Done\ncalled 2 2 get a\nended 2 2 Value 1\nhistory 3\nh 2 1 put a 2 Done\nh 1 1 put a 1 Done\nh 2 2 get a Value 1\nend\n",
    ),
    (
        b"shape 3 3 1 1 1 1 10\nregister\nput 1 a 1\nlose 1\ntask settle\nwork 40\nlose 2\nsettle\nget 1 a\nlose 3\nlose 1\n",
        b"client 1\ncalled 1 1 put a 1\nended 1 1 Done\nlost 1\ntask settle\ntook m 40\nlost 2\nopened 0000000000020004\ncalled 1 2 get a\nended 1 2 Value 1\nrefused lastlive 0\nrefused gone 1\nhistory 2\nh 1 1 put a 1 Done\nh 1 2 get a Value 1\nend\n",
    ),
    (
        b"shape 1 1 1 1 1 1 10\nregister\nput 1 a 1\nget 1 a\n",
        b"client 1\ncalled 1 1 put a 1\nended 1 1 Done\ncalled 1 2 get a\nended 1 2 Value 1\nhistory 2\nh 1 1 put a 1 Done\nh 1 2 get a Value 1\nend\n",
    ),
    (
        b"shape 1 1 1 1 1 1 10\ndump\n",
        b"w 0 0 0000000000010001\nw 1 112 ffffffffffffffff\ndumped 2\nhistory 0\nend\n",
    ),
    (
        b"shape 3 3 1 2 1 2 10\ndump\n",
        b"w 0 0 0000000000010007\nw 1 112 ffffffffffffffff\nw 1 113 ffffffffffffffff\nw 2 112 ffffffffffffffff\nw 2 113 ffffffffffffffff\nw 3 112 ffffffffffffffff\nw 3 113 ffffffffffffffff\ndumped 7\nhistory 0\nend\n",
    ),
    (
        b"shape 3 3 1 2 1 2 10\nregister\nregister\ncall 1 put a 1\nstep 1 35\ncall 2 put b 2\nstep 2 36\nstep 1 2\ngo 2\ngo 1\ngo 2\nverbs on\nget 2 b\n",
        b"client 1\nclient 2\ncalled 1 1 put a 1\ntook 1 35\ncalled 2 1 put b 2\ntook 2 36\ntook 1 2\nnotyet 2 Unchanged 0 0000000000000000\nended 1 1 Done\nended 2 1 Done\ncalled 2 2 get b\nv 2 write 0 32 0000000000000003\nv 2 read 0 0 = 0000000000010007\nv 2 read 1 1 = af01000000100050\nv 2 read 2 689 = 0000000100010001\nv 2 read 2 692 = 0000000000000062\nv 2 read 2 693 = 0000000000000032\nv 2 write 0 32 0000000000000004\nended 2 2 Value 2\nhistory 3\nh 1 1 put a 1 Done\nh 2 1 put b 2 Done\nh 2 2 get b Value 2\nend\n",
    ),
    (
        b"shape 3 3 1 2 1 2 10\nregister\nregister\nput 1 a 0\ncall 1 put a 1\nstep 1 36\nstop 1\nput 2 a 2\nrecover 1\ngo 2\nget 2 a\ncount\n",
        b"client 1\nclient 2\ncalled 1 1 put a 0\nended 1 1 Done\ncalled 1 2 put a 1\ntook 1 36\nstopped 1\ncalled 2 1 put a 2\nended 2 1 Done\nrecovered 1\nrefused idle 2\ncalled 2 2 get a\nended 2 2 Value 2\nblocks unused 0 owned 1 awaiting 0 released 1\nobjects stock 127 present 1 held 0\nhistory 4\nh 1 1 put a 0 Done\nh 1 2 put a 1 Done open\nh 2 1 put a 2 Done\nh 2 2 get a Value 2\nend\n",
    ),
    (
        b"shape 3 3 1 2 1 2 10\nregister\nregister\nput 1 a 0\nput 1 a 1\nlose 1\ntask settle\nwork 40\nlose 2\nsettle\nget 1 a\ncount\n",
        b"client 1\nclient 2\ncalled 1 1 put a 0\nended 1 1 Done\ncalled 1 2 put a 1\nended 1 2 Done\nlost 1\ntask settle\ntook m 40\nlost 2\nopened 0000000000020004\ncalled 1 3 get a\nended 1 3 Value 1\nblocks unused 1 owned 1 awaiting 0 released 0\nobjects stock 63 present 1 held 0\nhistory 3\nh 1 1 put a 0 Done\nh 1 2 put a 1 Done\nh 1 3 get a Value 1\nend\n",
    ),
    (
        b"shape 3 3 1 1 1 1 10\nregister\nput 1 a 1\nlose 1\nsettle\nfill 1 ffffffffffffffff\njoin 1\nsettle\nlose 2\nlose 3\nsettle\nget 1 a\n",
        b"client 1\ncalled 1 1 put a 1\nended 1 1 Done\nlost 1\nopened 0000000000020006\nfilled 1\njoined 1\nopened 0000000000030007\nlost 2\nlost 3\nopened 0000000000040001\ncalled 1 2 get a\nended 1 2 Value 1\nhistory 2\nh 1 1 put a 1 Done\nh 1 2 get a Value 1\nend\n",
    ),
    (
        b"shape 3 3 1 1 1 1 10\nlose 1\njoin 1\njoin 2\njoin 4\nfill 2 0000000000000000\ntask settle\nwork 2\nfill 1 0000000000000000\n",
        b"lost 1\nrefused masked 1\nrefused live 2\nrefused node 4\nrefused live 2\ntask settle\ntook m 2\nrefused masked 1\nhistory 0\nend\n",
    ),
    (
        b"shape 3 3 1 1 1 1 10\nlose 1\nsettle\ntask settle\nwork 2\nfill 1 0000000000000000\njoin 1\n",
        b"lost 1\nopened 0000000000020006\ntask settle\ntook m 2\nrefused sealed 0000000000020106\nnotyet m Sealed 0000000000020106\nhistory 0\nend\n",
    ),
    (
        b"# two notes\n\n  shape 1 1 1 1 1 1 16777215\n# more\nregister\nget 1 12345678\nput 1 12345678 ~!\nput 1 1 x:78\nput 1 12345678 new\nget 1 12345678",
        b"client 1\ncalled 1 1 get 12345678\nended 1 1 Absent\ncalled 1 2 put 12345678 ~!\nended 1 2 Done\ncalled 1 3 put 1 x\nended 1 3 Done\ncalled 1 4 put 12345678 new\nended 1 4 Done\ncalled 1 5 get 12345678\nended 1 5 Value new\nhistory 5\nh 1 1 get 12345678 Absent\nh 1 2 put 12345678 ~! Done\nh 1 3 put 1 x Done\nh 1 4 put 12345678 new Done\nh 1 5 get 12345678 Value new\nend\n",
    ),
];

#[test]
fn scripts_print_what_they_mean(rt: HostRuntime) -> Result<(), Fail> {
    for (input, output) in &ROWS {
        check_script(&rt, input, 0, output)?;
    }
    Ok(())
}

// A byte that stands for many of another one.
type Mark = (u8, u8, usize);

const LONG_ROWS: [(&[u8], &[u8], &[Mark]); 4] = [
    (
        b"shape 1 1 1 1 1 2 20\nregister\nregister\nput 1 a ~\ncall 2 get a\nstep 2 3\nput 1 a ^\nput 1 a ^\nput 1 a ^\nput 1 a ^\nput 1 a ^\nput 1 a ^\nput 1 a ^\ngo 2\nput 1 a ^\n",
        b"client 1\nclient 2\ncalled 1 1 put a ~\nended 1 1 Done\ncalled 2 1 get a\ntook 2 3\ncalled 1 2 put a ^\nended 1 2 Done\ncalled 1 3 put a ^\nended 1 3 Done\ncalled 1 4 put a ^\nended 1 4 Done\ncalled 1 5 put a ^\nended 1 5 Done\ncalled 1 6 put a ^\nended 1 6 Done\ncalled 1 7 put a ^\nended 1 7 Done\ncalled 1 8 put a ^\nended 1 8 NoSpace 3 2 0000000000000001\nended 2 1 Value ~\ncalled 1 9 put a ^\nended 1 9 Done\nhistory 10\nh 1 1 put a ~ Done\nh 2 1 get a Value ~\nh 1 2 put a ^ Done\nh 1 3 put a ^ Done\nh 1 4 put a ^ Done\nh 1 5 put a ^ Done\nh 1 6 put a ^ Done\nh 1 7 put a ^ Done\nh 1 8 put a ^ NoSpace 3 2 0000000000000001\nh 1 9 put a ^ Done\nend\n",
        &[(b'~', b'v', 224), (b'^', b'u', 224)],
    ),
    (
        b"shape 1 1 1 1 1 1 2\nregister\nget 2 a\nput 1 x: 1\nput 1 ~ 1\nput 1 a ^\nput 1 % $\nstep 1 1\ncall 1 get a\nget 1 a\nlate 1\nrecover 1\ngo 1\nget 1 a\nregister\nwork 1\nstop 1\ngo 1\nrecover 1\nrecover 1\n",
        b"client 1\nrefused unknown 2\nrefused key 0\nrefused key 65\nrefused value 1953\ncalled 1 1 put % $\nended 1 1 Done\nrefused idle 1\ncalled 1 2 get a\nrefused busy 1\nrefused live 0\nrefused running 1\nended 1 2 Absent\nrefused spent 1\nrefused clients 1\nrefused task\nstopped 1\nrefused stopped 1\nrecovered 1\nrefused recovered 1\nhistory 2\nh 1 1 put % $ Done\nh 1 2 get a Absent\nend\n",
        &[
            (b'~', b'k', 65),
            (b'^', b'w', 1953),
            (b'%', b'k', 64),
            (b'$', b'w', 1952),
        ],
    ),
    (
        b"shape 1 1 1 1 1 1 10\nregister\nput 1 x: 1\nput 1 ~ 1\nput 1 a ^\n",
        b"client 1\nrefused key 0\nrefused key 65\nrefused value 1953\nhistory 0\nend\n",
        &[(b'~', b'k', 65), (b'^', b'w', 1953)],
    ),
    (
        b"shape 1 1 1 1 1 1 10\nregister\nput 1 a ~\nput 1 a ~\nput 1 b 1\ncount\n",
        b"client 1\ncalled 1 1 put a ~\nended 1 1 Done\ncalled 1 2 put a ~\nended 1 2 NoSpace 5 0 0000000000000000\ncalled 1 3 put b 1\nended 1 3 NoSpace 0 0 0000000000000000\nblocks unused 0 owned 1 awaiting 0 released 0\nobjects stock 1 present 1 held 0\nhistory 3\nh 1 1 put a ~ Done\nh 1 2 put a ~ NoSpace 5 0 0000000000000000\nh 1 3 put b 1 NoSpace 0 0 0000000000000000\nend\n",
        &[(b'~', b'x', 1952)],
    ),
];

// The text in which each mark is spelled out.
fn spelled(alloc: Global, text: &[u8], marks: &[Mark]) -> Result<Vec<u8>, AllocError> {
    let mut spelled = Vec::new(alloc);
    for byte in text {
        match marks.iter().find(|mark| mark.0 == *byte) {
            Some((_, letter, count)) => spelled.extend_from_slice(
                &vec![in alloc; *letter; *count]?,
            )?,
            None => spelled.push(*byte)?,
        }
    }
    Ok(spelled)
}

#[test]
fn scripts_of_long_keys_and_values_print_what_they_mean(rt: HostRuntime) -> Result<(), Fail> {
    for (input, output, marks) in &LONG_ROWS {
        let input = spelled(rt.alloc(), input, marks)?;
        let output = spelled(rt.alloc(), output, marks)?;
        check_script(&rt, &input, 0, &output)?;
    }
    Ok(())
}
