//! How a run ends.
ghost use Rattle.std.specs.Prelude.{◌≡◌};
ghost use Rattle.io_streams.specs.Status.{number_of};

/// How a run ended.
#[derive(Clone, Copy, Debug, PartialEq, Eq)]
pub enum Status {
    /// The input was read to its end, and all was written.
    Done,
    /// The input is refused.
    Invalid,
    /// The words are none of the forms; nothing was read or written.
    Usage,
    /// The input failed.
    ReadFault,
    /// The output failed.
    WriteFault,
    /// Memory was not found.
    Memory,
    /// The input has more bytes than can be counted.
    ByteLimit,
}

impl Status {
    /// Returns the number with which the process ends.
    pub fn number(self) -> u8
        ensures { result ≡ number_of self }
    {
        match self {
            Status::Done => 0,
            Status::Invalid => 1,
            Status::Usage => 2,
            Status::ReadFault => 4,
            Status::WriteFault => 5,
            Status::Memory => 6,
            Status::ByteLimit => 7,
        }
    }
}
