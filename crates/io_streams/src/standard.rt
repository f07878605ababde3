//! The trusted edge: a reader and a writer of the process. Those tell no bytes, so a contract speaks of their faults alone. A
//! source over a reader that tells its bytes, as a slice, tells them too, and a sink over a writer that tells its bytes, as a
//! vector, says at each write which were added.
ghost use Rattle.std.specs.Prelude.{◌≡◌, ◌<◌, length};
ghost use Rattle.io_streams.specs.Sink.{WritesSome};
ghost use Rattle.io_streams.specs.Standard.{ReadsUpTo, WritesUpTo, PassesOn, sink_inner, sink_seen};

use crate::sink::{Sink, WriteAnswer};
use crate::source::{ReadAnswer, Source};
use std::io::{ErrorKind, Read, Write};

#[cfg(test)]
mod tests;

// Reads, and again where a signal interrupts the read. A read that fails gives nothing.
pub(crate) fn read_again<R: Read>(inner: &mut R, buffer: &mut [u8]) -> Option<usize>
    ensures { ReadsUpTo result buffer.new (R.remaining inner.old) (R.remaining inner.new) }
{
    for _ in 0..u64::MAX {
        match inner.read(buffer) {
            Ok(n) => return Some(n),
            Err(error) if error.kind() == ErrorKind::Interrupted => {}
            Err(_) => return None,
        }
    }
    None
}

// Writes, and again where a signal interrupts the write. A write that fails gives nothing.
fn write_again<W: Write>(inner: &mut W, piece: &[u8]) -> Option<usize>
    ensures { WritesUpTo result piece.now (W.contents inner.old) (W.contents inner.new) }
{
    for _ in 0..u64::MAX {
        match inner.write(piece) {
            Ok(n) => return Some(n),
            Err(error) if error.kind() == ErrorKind::Interrupted => {}
            Err(_) => return None,
        }
    }
    None
}

/// A reader that counts its failures. A read that a signal interrupts is tried again.
#[derive(Drop)]
pub struct StdSource<R: Read + Drop> {
    inner: R,
    failed: u64,
    // How many bytes the last read gave that gave some.
    last: usize,
}

impl<R: Read + Drop> StdSource<R> {
    ghost use Rattle.io_streams.specs.Standard.{source_faults, source_inner, source_last};

    /// Makes a source of which nothing was read yet, and no read has failed.
    pub fn new(inner: R) -> StdSource<R>
        ensures faults { source_faults result ≡ 0 }
        ensures inner { source_inner result ≡ inner }
        ensures last { source_last result ≡ 0 }
    {
        StdSource {
            inner,
            failed: 0,
            last: 0,
        }
    }
}

impl<R: Read + Drop> Source for StdSource<R> {
    ghost use Rattle.io_streams.specs.Source.{SourceState};

    ghost seen = { λ s. record { left = R.remaining s.inner; faults = s.failed; last = s.last } };

    fn read(&mut self, buffer: &mut [u8]) -> ReadAnswer {
        match read_again(&mut self.inner, buffer) {
            Some(0) => ReadAnswer::End,
            Some(n) => {
                self.last = n;
                ReadAnswer::Got(n)
            }
            None => {
                self.failed = self.failed.saturating_add(1);
                ReadAnswer::Failed
            }
        }
    }
}

/// A writer that counts its failures. What it took has been flushed. A write that a signal interrupts is tried again.
#[derive(Drop)]
pub struct StdSink<W: Write + Drop> {
    inner: W,
    failed: u64,
}

impl<W: Write + Drop> StdSink<W> {
    ghost use Rattle.io_streams.specs.Standard.{sink_faults, sink_inner};

    /// Makes a sink of which no write has failed yet.
    pub fn new(inner: W) -> StdSink<W>
        ensures faults { sink_faults result ≡ 0 }
        ensures inner { sink_inner result ≡ inner }
    {
        StdSink { inner, failed: 0 }
    }
}

impl<W: Write + Drop> Sink for StdSink<W> {
    ghost seen = { sink_seen };

    fn write(&mut self, piece: &[u8]) -> WriteAnswer
        requires { 0 < length piece.now }
        ensures some { WritesSome result piece.now (sink_seen self.old) (sink_seen self.new) }

        // What the writer holds then, where it tells its bytes.
        ensures passes { PassesOn result piece.now (W.contents (sink_inner self.old)) (W.contents (sink_inner self.new)) }
    {
        match write_again(&mut self.inner, piece) {
            Some(n) => {
                if n > 0 && self.inner.flush().is_ok() {
                    return WriteAnswer::Took(n);
                }
            }
            None => {}
        }
        self.failed = self.failed.saturating_add(1);
        WriteAnswer::Failed
    }
}
