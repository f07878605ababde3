//! The next line, before which all that is held is written.
ghost use Rattle.std.specs.Prelude.{◌≡◌};
ghost use Rattle.cmd_session.specs.Fetched.{Comes};

use io_line_reader::{LineAnswer, LineReader};
use io_streams::{Gathered, Sink, Source};

/// How the next line came, or why there is none.
#[derive(Clone, Copy, Debug, PartialEq, Eq)]
pub enum Fetched {
    /// A line came, or one that is too long.
    Given(bool),
    /// All lines were given.
    Ended,
    /// The source failed.
    Failed,
    /// The source has more bytes than can be counted.
    Full,
    /// The sink failed before the source was read.
    Stopped,
}

/// Gives the next line. A line that lies whole in what was read is given at once; else what is held is written first, so that
/// no reply waits while the source is read.
pub fn fetch<I: Source, O: Sink>(
    reader: &mut LineReader,
    input: &mut I,
    output: &mut Gathered<'_, O>,
) -> Fetched
    ensures comes { Comes result reader.old reader.new (I.seen input.old) (I.seen input.new)
        (O.seen output.old.sink.now) (O.seen output.new.sink.now) output.old.held.items output.new.held.items }
    ensures same_reference { output.new.sink.ghost_name ≡ output.old.sink.ghost_name }
{
    if reader.buffered_line() {
        return Fetched::Given(false);
    }
    match output.flush() {
        Ok(()) => match reader.next_line(input) {
            LineAnswer::Line => Fetched::Given(false),
            LineAnswer::TooLong => Fetched::Given(true),
            LineAnswer::End => Fetched::Ended,
            LineAnswer::ReadFault => Fetched::Failed,
            LineAnswer::ByteLimit => Fetched::Full,
        },
        Err(_) => Fetched::Stopped,
    }
}
