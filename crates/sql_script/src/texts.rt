//! The lines of a script that say something, one after another.
ghost use Rattle.std.specs.Prelude.{◌≡◌, ◌≤◌, ◌↔◌, ℕ, List, IsTrue};
ghost use Rattle.io_streams.specs.Source.{SourceState};
ghost use Rattle.io_line_reader.specs.GivenLines.{GivenLines};
ghost use Rattle.sql_parser.specs.LineKind.{stripped};
ghost use Rattle.sql_script.specs.Script.{SaysNothing};
ghost use Rattle.sql_script.specs.Ends as ends;
ghost use Rattle.sql_script.specs.Ends.{GivesText, IsText, ReadsBlank};

use crate::end::ScriptEnd;
use io_line_reader::{LineAnswer, LineReader};
use io_streams::Source;
use sql_parser::{LineKind, classify, stripped};
use sql_replies::Refusal;

/// What comes next in a script, behind blank lines and comments.
#[derive(Clone, Copy, Debug, PartialEq, Eq)]
pub enum TextAnswer {
    /// There is a line of at most 1,024 bytes that says something, and `text` gives it.
    Text,
    /// There is a line of more than 1,024 bytes.
    TooLong,
    /// There are no more lines, and the source is at its end.
    End,
    /// The source failed.
    ReadFault,
    /// The source has more bytes than can be counted.
    ByteLimit,
}

// Whether a line says nothing.
fn says_nothing(line: &[u8]) -> bool
    ensures { IsTrue result ↔ SaysNothing line.now }
{
    let (kind, _) = classify(line);
    kind == LineKind::Nothing
}

/// Skips blank lines and comments, and gives the next line, whatever it says. Its number is `lines` of the reader.
pub fn next_text<I: Source>(reader: &mut LineReader, input: &mut I) -> TextAnswer
    // Which lines come, behind those that were given since the source was in some state.
    ensures gives { (source : SourceState) → (front : List ℕ) → (given : List (List ℕ)) → GivenLines source (I.seen input.old) reader.old front given
        → GivesText result source (I.seen input.new) given reader.new }
    ensures text { IsText result reader.new.line }
    ensures later { (I.seen input.old).faults ≤ (I.seen input.new).faults }
{
    'skipping: loop {
        match reader.next_line(input) {
            LineAnswer::Line => {
                if !says_nothing(reader.line()) {
                    return TextAnswer::Text;
                }
            }
            LineAnswer::TooLong => return TextAnswer::TooLong,
            LineAnswer::End => return TextAnswer::End,
            LineAnswer::ReadFault => return TextAnswer::ReadFault,
            LineAnswer::ByteLimit => return TextAnswer::ByteLimit,
        }
    }
}

/// Returns the line that was given last, without one CR at its end and then without blanks at both ends.
pub fn text(reader: &LineReader) -> &[u8]
    ensures { result.now ≡ stripped reader.now.line }
{
    stripped(reader.line())
}

/// Returns the end of a script at the line that was given last, which this word refuses.
pub fn refused(reader: &LineReader, word: Refusal) -> ScriptEnd
    ensures { result ≡ ScriptEnd.Refused reader.now.lines word }
{
    ScriptEnd::Refused {
        line: reader.lines(),
        word,
    }
}

// How reading the lines behind a query ends, by what comes behind blank ones.
fn blank_end(answer: TextAnswer, reader: &LineReader) -> Result<(), ScriptEnd>
    ensures { result ≡ ends.blank_end answer reader.now.lines }
{
    match answer {
        TextAnswer::Text => Err(refused(reader, Refusal::Syntax)),
        TextAnswer::TooLong => Err(refused(reader, Refusal::LineTooLong)),
        TextAnswer::End => Ok(()),
        TextAnswer::ReadFault => Err(ScriptEnd::ReadFault),
        TextAnswer::ByteLimit => Err(ScriptEnd::ByteLimit),
    }
}

/// Reads the lines behind the query of a script up to the end of the source, where all of them are blank or comments. Another one is
/// refused.
pub fn read_blank<I: Source>(reader: &mut LineReader, input: &mut I) -> Result<(), ScriptEnd>
    ensures blank { (source : SourceState) → (front : List ℕ) → (given : List (List ℕ)) → GivenLines source (I.seen input.old) reader.old front given
        → ReadsBlank result source (I.seen input.new) given reader.new }
    ensures later { (I.seen input.old).faults ≤ (I.seen input.new).faults }
{
    let answer = next_text(reader, input);
    blank_end(answer, reader)
}
