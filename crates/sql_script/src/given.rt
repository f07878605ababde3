//! The next line of a source.
ghost use Rattle.sql_script.specs.Given.{GivesNext};

use io_line_reader::{LineAnswer, LineReader};
use io_streams::Source;

/// What comes next in a source.
#[derive(Clone, Copy, Debug, PartialEq, Eq)]
pub enum NextGiven {
    /// A line, which may be longer than 1,024 bytes.
    Given { long: bool },
    /// There are no more lines, and the source is at its end.
    End,
    /// The source failed.
    ReadFault,
    /// The source has more bytes than can be counted.
    ByteLimit,
}

/// Reads the next line, which is then the reader's.
pub fn next_given<I: Source>(reader: &mut LineReader, input: &mut I) -> NextGiven
    ensures { GivesNext result reader.old reader.new (I.seen input.old) (I.seen input.new) }
{
    match reader.next_line(input) {
        LineAnswer::Line => NextGiven::Given { long: false },
        LineAnswer::TooLong => NextGiven::Given { long: true },
        LineAnswer::End => NextGiven::End,
        LineAnswer::ReadFault => NextGiven::ReadFault,
        LineAnswer::ByteLimit => NextGiven::ByteLimit,
    }
}
