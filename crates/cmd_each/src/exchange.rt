//! A sink that exchanges LF and `;`.
ghost use Rattle.std.specs.Prelude.{◌≡◌, ◌<◌, ◌≤◌, [], length, map};
ghost use Rattle.cmd_each.specs.Exchange.{exchanged, exchanged_seen};

use crate::base::Base;
use arrayvec::ArrayVec;
use io_streams::{Sink, WriteAnswer};
use std::marker::PhantomData;

/// A sink over a sink, which passes on each LF as `;` and each `;` as LF. It holds nothing: a piece is exchanged as it is passed on.
#[derive(Drop)]
pub struct Exchange<'a, O, B: Base> {
    pub sink: &'a mut O,
    base: PhantomData<B>,
}

// An LF for `;`, a `;` for LF, and any other byte as it is.
fn exchanged(byte: u8) -> u8
    ensures { result ≡ exchanged byte }
{
    if byte == b'\n' {
        b';'
    } else if byte == b';' {
        b'\n'
    } else {
        byte
    }
}

// The bytes, exchanged.
fn exchange_all(piece: &[u8]) -> ArrayVec<u8, 256>
    requires { length piece.now ≤ 256 }
    ensures { result.items ≡ map exchanged piece.now }
{
    let mut bytes = ArrayVec::new();
    'bytes: for byte in piece {
        bytes.push(exchanged(*byte));
    }
    bytes
}

impl<'a, O: Sink, B: Base> Exchange<'a, O, B> {
    /// Exchanges what goes to this sink.
    pub fn new(sink: &'a mut O) -> Exchange<'a, O, B>
        ensures same_reference { result.sink.ghost_name ≡ sink.entry.ghost_name }
        ensures sink { result.sink.now ≡ sink.old }
    {
        Exchange {
            sink,
            base: PhantomData,
        }
    }
}

impl<O: Sink, B: Base> Sink for Exchange<'_, O, B> {
    ghost seen = { λ e. exchanged_seen B.low (O.seen e.sink.now) e.sink.ghost_name };

    fn write(&mut self, piece: &[u8]) -> WriteAnswer {
        let count = piece.len().min(256);
        let bytes = exchange_all(&piece[..count]);
        self.sink.write(bytes.as_slice())
    }
}
