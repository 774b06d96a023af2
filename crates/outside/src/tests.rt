use super::{Got, MemorySink, MemorySource, Sink, Source, StdSink, StdSource, Took};
use std::io;
use std::io::{ErrorKind, Read, Write};
use std::test::Fail;

// A reader that is interrupted so many times, and then gives one byte a read.
#[derive(Drop)]
struct Interrupted {
    times: u32,
}

impl Read for Interrupted {
    fn read(&mut self, buf: &mut [u8]) -> io::Result<usize> {
        if self.times > 0 {
            self.times -= 1;
            return Err(io::Error::from(ErrorKind::Interrupted));
        }
        match buf.first_mut() {
            Some(first) => {
                *first = b'x';
                Ok(1)
            }
            None => Ok(0),
        }
    }
}

// A writer that takes at most so many bytes of a piece, and none of a piece of one byte fails.
#[derive(Drop)]
struct Narrow {
    most: usize,
}

impl Write for Narrow {
    fn write(&mut self, buf: &[u8]) -> io::Result<usize> {
        if buf.len() == 1 {
            return Err(io::Error::from(ErrorKind::BrokenPipe));
        }
        Ok(buf.len().min(self.most))
    }

    fn flush(&mut self) -> io::Result<()> {
        Ok(())
    }
}

#[test]
fn memory_ends_fail_where_they_are_told_to(rt: HostRuntime) -> Result<(), Fail> {
    let bytes = b"hello".to_vec(rt.alloc())?;
    let fails = [1].to_vec(rt.alloc())?;
    let mut source = MemorySource::new(bytes, 2, fails);
    let mut into = [0u8; 4];
    assert_eq!(rt; source.read(&mut into), Got::Got(2));
    assert_eq!(rt; into, [b'h', b'e', 0, 0]);
    assert_eq!(rt; source.read(&mut into), Got::Failed);
    assert_eq!(rt; source.read(&mut into), Got::Got(2));
    assert_eq!(rt; source.read(&mut into[..0]), Got::Got(0));
    assert_eq!(rt; source.read(&mut into), Got::Got(1));
    assert_eq!(rt; into, [b'o', b'l', 0, 0]);
    assert_eq!(rt; source.read(&mut into), Got::End);

    let fails = [1].to_vec(rt.alloc())?;
    let mut sink = MemorySink::new(rt.alloc(), fails);
    assert_eq!(rt; sink.write(b"ab"), Took::Took(2));
    assert_eq!(rt; sink.write(b"cd"), Took::Failed);
    assert_eq!(rt; sink.write(b"ef"), Took::Took(2));
    assert_eq!(rt; sink.bytes(), b"abef".as_slice());
    Ok(())
}

#[test]
fn std_reads_are_tried_again_sixteen_times(rt: HostRuntime) {
    let mut into = [0u8; 4];
    let mut source = StdSource::new(Interrupted { times: 16 });
    assert_eq!(rt; source.read(&mut into), Got::Got(1));
    assert_eq!(rt; into, [b'x', 0, 0, 0]);
    let mut source = StdSource::new(Interrupted { times: 17 });
    assert_eq!(rt; source.read(&mut into), Got::Failed);
    assert_eq!(rt; source.read(&mut into), Got::Got(1));
    let mut source = StdSource::new(b"y".as_slice());
    assert_eq!(rt; source.read(&mut into), Got::Got(1));
    assert_eq!(rt; source.read(&mut into[..0]), Got::Got(0));
    assert_eq!(rt; source.read(&mut into), Got::End);
}

#[test]
fn std_writes_are_passed_on(rt: HostRuntime) {
    let mut sink = StdSink::new(Narrow { most: 2 });
    assert_eq!(rt; sink.write(b"abc"), Took::Took(2));
    assert_eq!(rt; sink.write(b"a"), Took::Failed);
    let mut sink = StdSink::new(Narrow { most: 0 });
    assert_eq!(rt; sink.write(b"abc"), Took::Took(0));
}
