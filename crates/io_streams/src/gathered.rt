//! A sink that gathers what is written, and passes it on to the sink below in large pieces.
ghost use Rattle.std.specs.Prelude.{◌≡◌, ◌<◌, ◌≤◌, ◌+◌, ◌++◌, [], length, drop};
ghost use Rattle.io_streams.specs.Sink.{WritesSome};
ghost use Rattle.io_streams.specs.Gathered.{gathered_seen, WritesFront, Flushes};

use crate::sink::{Sink, WriteAnswer, WriteFault};
use arrayvec::ArrayVec;

/// A sink over a sink, which gathers up to 4,096 bytes before it passes them on. The buffer lies in the value itself: no
/// call takes memory.
///
/// Its bytes are those written below, and then those that it holds. What it holds when it is let go is lost, so `flush` comes
/// before that. Where the sink below fails, what was not passed on stays held.
#[derive(Drop)]
pub struct Gathered<'a, O> {
    pub sink: &'a mut O,
    pub held: ArrayVec<u8, 4096>,
}

// Adds bytes to what is held.
fn append(held: &mut ArrayVec<u8, 4096>, bytes: &[u8])
    requires { length held.old.items + length bytes.now ≤ 4096 }
    ensures { held.new.items ≡ held.old.items ++ bytes.now }
{
    match held.try_extend_from_slice(bytes) {
        Ok(()) => {}
        Err(_) => unreachable!(),
    }
}

// Takes bytes off the front of what is held.
fn remove_front(held: &mut ArrayVec<u8, 4096>, count: usize)
    requires { count ≤ length held.old.items }
    ensures { held.new.items ≡ drop count held.old.items }
{
    let len = held.len();
    held.as_mut_slice().copy_within(count..len, 0);
    held.truncate(len - count);
}

// Writes the whole text, and says how many bytes were written: all, unless the sink failed.
fn write_front<O: Sink>(out: &mut O, text: &[u8]) -> (usize, Result<(), WriteFault>)
    ensures count { result.0 ≤ length text.now }
    ensures front { WritesFront result.1 result.0 text.now (O.seen out.old) (O.seen out.new) }
{
    let mut written = 0;
    'writing: while written < text.len() {
        match out.write(&text[written..]) {
            WriteAnswer::Took(n) => written += n,
            WriteAnswer::Failed => return (written, Err(WriteFault)),
        }
    }
    (written, Ok(()))
}

impl<'a, O: Sink> Gathered<'a, O> {
    /// Gathers for this sink, and holds nothing yet.
    pub fn new(sink: &'a mut O) -> Gathered<'a, O>
        ensures same_reference { result.sink.ghost_name ≡ sink.entry.ghost_name }
        ensures sink { result.sink.now ≡ sink.old }
        ensures held { result.held.items ≡ [] }
    {
        Gathered {
            sink,
            held: ArrayVec::new(),
        }
    }

    /// Writes what is held to the sink below. Where that fails, what was not written stays held.
    pub fn flush(&mut self) -> Result<(), WriteFault>
        ensures flushes { Flushes result (O.seen self.old.sink.now) (O.seen self.new.sink.now) self.old.held.items self.new.held.items }
        ensures same_reference { self.new.sink.ghost_name ≡ self.old.sink.ghost_name }
    {
        let (written, result) = write_front(self.sink, self.held.as_slice());
        remove_front(&mut self.held, written);
        result
    }

    // Takes a piece for which there is no room: what is held is passed on first. It is not inlined, so that a piece for which there is
    // room pays nothing for it.
    #[cold]
    #[inline(never)]
    fn write_more(&mut self, piece: &[u8]) -> WriteAnswer
        requires { 0 < length piece.now }
        ensures { WritesSome result piece.now (gathered_seen (O.seen self.old.sink.now) self.old.sink.ghost_name self.old.held.items) (gathered_seen (O.seen self.new.sink.now) self.new.sink.ghost_name self.new.held.items) }
    {
        match self.flush() {
            Ok(()) => {}
            Err(_) => return WriteAnswer::Failed,
        }
        let count = piece.len().min(self.held.remaining_capacity());
        append(&mut self.held, &piece[..count]);
        WriteAnswer::Took(count)
    }
}

impl<O: Sink> Sink for Gathered<'_, O> {
    ghost seen = { λ g. gathered_seen (O.seen g.sink.now) g.sink.ghost_name g.held.items };

    fn write(&mut self, piece: &[u8]) -> WriteAnswer {
        if piece.len() <= self.held.remaining_capacity() {
            append(&mut self.held, piece);
            return WriteAnswer::Took(piece.len());
        }
        self.write_more(piece)
    }
}
