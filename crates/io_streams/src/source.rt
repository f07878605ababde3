//! Where bytes come from.
ghost use Rattle.std.specs.Prelude.{◌<◌, length};
ghost use Rattle.io_streams.specs.Source.{SourceState, ReadsSome};

/// What a read gave: so many bytes at the front of the buffer, the end, or a fault.
#[derive(Clone, Copy, Debug, PartialEq, Eq)]
pub enum ReadAnswer {
    Got(usize),
    End,
    Failed,
}

/// Bytes that come from somewhere.
pub trait Source {
    /// The bytes that are left, where the source tells them, how often a read has failed, and how many bytes the last read gave
    /// of those that gave some.
    ghost seen: { Self → SourceState };

    /// Reads at least one byte into the front of the buffer, unless none is left or the read fails.
    fn read(&mut self, buffer: &mut [u8]) -> ReadAnswer
        requires { 0 < length buffer.old }
        ensures { ReadsSome result buffer.new (seen self.old) (seen self.new) };
}
