//! How a line went.
ghost use Rattle.std.specs.Prelude.{◌≡◌};
ghost use Rattle.cmd_session.specs.Session.{outcome_of};

use io_streams::WriteFault;

/// How a line went.
#[derive(Clone, Copy, Debug, PartialEq, Eq)]
pub enum LineOutcome {
    /// The reply was written.
    Done,
    /// The sink failed, and a front of the reply was written. The line counts as taken.
    WriteFault,
    /// No memory was found for what the line creates. Nothing was written, and nothing is changed but the number of lines.
    Memory,
}

/// Returns how a line went whose reply was written so.
pub fn outcome_of(written: Result<(), WriteFault>) -> LineOutcome
    ensures { result ≡ outcome_of written }
{
    match written {
        Ok(()) => LineOutcome::Done,
        Err(_) => LineOutcome::WriteFault,
    }
}
