//! How a command ended.
ghost use Rattle.std.specs.Prelude.{◌≡◌, false};
ghost use Rattle.cmd_dispatch.specs.Ends.{is_read_fault};

use io_streams::Status;

/// How a command ended.
#[derive(Clone, Copy, Debug, PartialEq, Eq)]
pub struct Ended {
    /// The status of the process.
    pub status: Status,
    /// Whether the file that the words name failed: it could not be opened, or a read of it failed. Then the status is `ReadFault`.
    pub file_failed: bool,
}

impl Ended {
    /// Returns how a command ended that did not fail in a file.
    pub fn by(status: Status) -> Ended
        ensures status { result.status ≡ status }
        ensures file_failed { result.file_failed ≡ false }
    {
        Ended {
            status,
            file_failed: false,
        }
    }

    /// Returns how a command ended that read a file and no other source.
    pub fn in_file(status: Status) -> Ended
        ensures status { result.status ≡ status }
        ensures file_failed { result.file_failed ≡ is_read_fault status }
    {
        Ended {
            status,
            file_failed: is_read_fault(status),
        }
    }
}

// Whether a status says that a source failed.
fn is_read_fault(status: Status) -> bool
    ensures { result ≡ is_read_fault status }
{
    match status {
        Status::ReadFault => true,
        Status::Done => false,
        Status::Invalid => false,
        Status::Usage => false,
        Status::WriteFault => false,
        Status::Memory => false,
        Status::ByteLimit => false,
    }
}
