//! A sink that makes one line of a reply.
ghost use Rattle.std.specs.Prelude.{◌≡◌, ◌<◌, ◌≤◌, length, take};
ghost use Rattle.io_streams.specs.Sink.{Writes, WritesSome};
ghost use Rattle.cmd_each.specs.declared.one_line.Last.TheVariants.{Nothing, Held};
ghost use Rattle.cmd_each.specs.OneLine.{HoldsNone, IsUpToFeed, end_of, one_line_seen};

use crate::base::Base;
use io_streams::{Sink, WriteAnswer, WriteFault, write_all};
use std::marker::PhantomData;

/// What became of the last byte of a reply.
#[derive(Clone, Copy, Debug, PartialEq, Eq)]
pub enum Last {
    /// There is none: nothing was written.
    Nothing,
    /// It was passed on, and is no LF.
    Passed,
    /// It is held back.
    Held(u8),
}

/// A sink over a sink, for one reply. An LF is held back until it is known whether it is the last byte. `close` ends the reply by a `;`, in
/// place of the LF where that is its last byte.
#[derive(Drop)]
pub struct OneLine<'a, O, B: Base> {
    pub sink: &'a mut O,
    pub last: Last,
    base: PhantomData<B>,
}

// How many bytes stand before the first LF.
fn plain_len(bytes: &[u8]) -> usize
    ensures { IsUpToFeed bytes.now result }
{
    match bytes.iter().position(|byte| *byte == b'\n') {
        Some(place) => place,
        None => bytes.len(),
    }
}

impl<'a, O: Sink, B: Base> OneLine<'a, O, B> {
    /// Begins a line below which these bytes stand.
    pub fn new(sink: &'a mut O) -> OneLine<'a, O, B>
        ensures same_reference { result.sink.ghost_name ≡ sink.entry.ghost_name }
        ensures sink { result.sink.now ≡ sink.old }
        ensures last { result.last ≡ Nothing }
    {
        OneLine {
            sink,
            last: Last::Nothing,
            base: PhantomData,
        }
    }

    /// Ends the reply.
    pub fn close(&mut self) -> Result<(), WriteFault>
        ensures closes { Writes result (O.seen self.old.sink.now) (O.seen self.new.sink.now) (end_of self.old.last) }
        ensures same_reference { self.new.sink.ghost_name ≡ self.old.sink.ghost_name }
    {
        match self.last {
            Last::Held(byte) => {
                if byte == b'\n' {
                    write_all(self.sink, b";")
                } else {
                    write_all(self.sink, &[byte, b';'])
                }
            }
            Last::Nothing => write_all(self.sink, b";"),
            Last::Passed => write_all(self.sink, b";"),
        }
    }

    // Takes bytes where none is held back.
    fn write_plain(&mut self, piece: &[u8]) -> WriteAnswer
        requires some { 0 < length piece.now }
        requires none { HoldsNone self.old.last }
        ensures { WritesSome result piece.now (one_line_seen B.bytes B.low self.old.last (O.seen self.old.sink.now) self.old.sink.ghost_name) (one_line_seen B.bytes B.low self.new.last (O.seen self.new.sink.now) self.new.sink.ghost_name) }
    {
        let count = plain_len(piece);
        if count == 0 {
            self.last = Last::Held(b'\n');
            return WriteAnswer::Took(1);
        }
        match self.sink.write(&piece[..count]) {
            WriteAnswer::Took(n) => {
                self.last = Last::Passed;
                WriteAnswer::Took(n)
            }
            WriteAnswer::Failed => WriteAnswer::Failed,
        }
    }

    // Takes bytes where this one is held back: it is passed on first. Behind an LF one byte is taken, and held back in its place.
    fn write_behind(&mut self, byte: u8, piece: &[u8]) -> WriteAnswer
        requires some { 0 < length piece.now }
        requires held { self.old.last ≡ Held byte }
        ensures { WritesSome result piece.now (one_line_seen B.bytes B.low self.old.last (O.seen self.old.sink.now) self.old.sink.ghost_name) (one_line_seen B.bytes B.low self.new.last (O.seen self.new.sink.now) self.new.sink.ghost_name) }
    {
        match self.sink.write(&[byte]) {
            WriteAnswer::Failed => return WriteAnswer::Failed,
            WriteAnswer::Took(_) => {}
        }
        if byte == b'\n' {
            self.last = Last::Held(piece[0]);
            return WriteAnswer::Took(1);
        }
        self.last = Last::Passed;
        self.write_plain(piece)
    }
}

impl<O: Sink, B: Base> Sink for OneLine<'_, O, B> {
    ghost seen = { λ l. one_line_seen B.bytes B.low l.last (O.seen l.sink.now) l.sink.ghost_name };

    fn write(&mut self, piece: &[u8]) -> WriteAnswer {
        match self.last {
            Last::Held(byte) => self.write_behind(byte, piece),
            Last::Nothing => self.write_plain(piece),
            Last::Passed => self.write_plain(piece),
        }
    }
}
