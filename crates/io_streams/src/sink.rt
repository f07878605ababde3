//! Where bytes go.
ghost use Rattle.std.specs.Prelude.{◌<◌, length};
ghost use Rattle.io_streams.specs.Sink.{SinkState, WritesSome};

use thiserror::Error;

/// What a write took: so many bytes from the front of the piece, or none, by a fault.
#[derive(Clone, Copy, Debug, PartialEq, Eq)]
pub enum WriteAnswer {
    Took(usize),
    Failed,
}

/// Somewhere that bytes go.
pub trait Sink {
    /// The bytes written, where the sink tells them, how often a write has failed, and the sink below, if any.
    ghost seen: { Self → SinkState };

    /// Writes at least one byte from the front of the piece, unless the write fails.
    fn write(&mut self, piece: &[u8]) -> WriteAnswer
        requires { 0 < length piece.now }
        ensures { WritesSome result piece.now (seen self.old) (seen self.new) };
}

/// The sink failed.
#[derive(Clone, Copy, Debug, PartialEq, Eq, Error)]
#[error("the output failed")]
pub struct WriteFault;
