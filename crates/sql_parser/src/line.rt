//! Lines, before they are read.
ghost use Rattle.std.specs.Prelude.{◌≡◌, IsTrue};
ghost use Rattle.sql_parser.specs.LineKind as lines;
ghost use Rattle.sql_parser.specs.declared.line.LineKind.TheVariants as kinds;

use sql_catalog::is_row_line;
use sql_text::trim;

/// What a line is: nothing, a row, or anything else, which is read as a statement.
#[derive(Clone, Copy, Debug, PartialEq, Eq)]
pub enum LineKind {
    Nothing,
    RowLine,
    StatementLine,
}

// The line without one CR at its end.
fn without_return(line: &[u8]) -> &[u8]
    ensures { result.now ≡ lines.without_return line.now }
{
    if !line.is_empty() && line[line.len() - 1] == b'\r' {
        line.split_at(line.len() - 1).0
    } else {
        line
    }
}

// Whether this is the first byte.
fn begins_with(byte: u8, bytes: &[u8]) -> bool
    ensures { result ≡ lines.begins_with byte bytes.now }
{
    match bytes {
        [] => false,
        [first, ..] => *first == byte,
    }
}

// Whether nothing is left, or a comment.
fn is_nothing(bytes: &[u8]) -> bool
    ensures { result ≡ lines.is_nothing bytes.now }
{
    match bytes {
        [] => true,
        [first, rest @ ..] => *first == b'-' && begins_with(b'-', rest),
    }
}

// The kind of what is left of a line.
fn kind_of(bytes: &[u8]) -> LineKind
    ensures { result ≡ lines.kind_of_line bytes.now }
{
    if is_nothing(bytes) {
        LineKind::Nothing
    } else if is_row_line(bytes) {
        LineKind::RowLine
    } else {
        LineKind::StatementLine
    }
}

/// Returns what is left of a line without one CR at its end and then without blanks at both ends.
pub fn stripped(line: &[u8]) -> &[u8]
    ensures { result.now ≡ lines.stripped line.now }
{
    trim(without_return(line))
}

/// Returns the kind of a line, and what is left of it without one CR at its end and then without blanks at both ends. What is left of
/// a row line is one as `Catalog::read_row` reads it.
pub fn classify(line: &[u8]) -> (LineKind, &[u8])
    ensures stripped { result.1.now ≡ lines.stripped line.now }
    ensures kind { result.0 ≡ lines.kind_of_line (lines.stripped line.now) }
    ensures row { result.0 ≡ kinds.RowLine → IsTrue (lines.is_row result.1.now) }
{
    let text = stripped(line);
    (kind_of(text), text)
}
