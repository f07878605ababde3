//! What no clause can say of a sink over a writer: that what it took has been flushed.
use super::StdSink;
use crate::sink::{Sink, WriteAnswer};
use std::io::{Error, ErrorKind, Result, Write};

// A writer that takes two bytes at a time and counts its flushes, of which so many are good and the others fail.
#[derive(Drop)]
struct Counting {
    bytes: Vec<u8>,
    flushes: u64,
    good: u64,
}

impl Write for Counting {
    fn write(&mut self, buf: &[u8]) -> Result<usize> {
        let count = buf.len().min(2);
        match self.bytes.extend_from_slice(&buf[..count]) {
            Ok(()) => Ok(count),
            Err(_) => Err(Error::from(ErrorKind::OutOfMemory)),
        }
    }

    fn flush(&mut self) -> Result<()> {
        self.flushes = self.flushes.saturating_add(1);
        if self.flushes > self.good {
            return Err(Error::from(ErrorKind::BrokenPipe));
        }
        Ok(())
    }
}

fn writer_with(rt: &HostRuntime, good: u64) -> Counting {
    Counting {
        bytes: Vec::new(rt.alloc()),
        flushes: 0,
        good,
    }
}

#[test]
fn each_write_is_flushed(rt: HostRuntime) {
    let mut sink = StdSink::new(writer_with(&rt, 9));
    assert_eq!(rt; sink.write(b"abc"), WriteAnswer::Took(2));
    assert_eq!(rt; sink.inner.flushes, 1);
    assert_eq!(rt; sink.write(b"c"), WriteAnswer::Took(1));
    assert_eq!(rt; sink.inner.flushes, 2);
    assert_eq!(rt; sink.inner.bytes.as_slice(), b"abc".as_slice());
}

#[test]
fn a_flush_that_fails_is_a_fault(rt: HostRuntime) {
    let mut sink = StdSink::new(writer_with(&rt, 1));
    assert_eq!(rt; sink.write(b"ab"), WriteAnswer::Took(2));
    assert_eq!(rt; sink.write(b"cd"), WriteAnswer::Failed);
    assert_eq!(rt; sink.failed, 1);
    assert_eq!(rt; sink.inner.bytes.as_slice(), b"abcd".as_slice());
}
