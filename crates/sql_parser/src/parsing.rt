//! Lines, read as statements.
ghost use Rattle.std.specs.Prelude.{◌≡◌, ◌≤◌, None, length, MatchResult};
ghost use Rattle.sql_parser.specs.Reading.{may_end};
ghost use Rattle.sql_parser.specs.Syntax.{IsStatement};
ghost use Rattle.sql_parser.specs.Limits.{limit_of};
ghost use Rattle.sql_parser.specs.Refusal.{IsRefusal};

use crate::draft::start;
use crate::limits::limit_passed;
use crate::plain::{PlainReading, parse_plain};
use crate::reading::read_draft;
use crate::transitions::State;
use crate::tree::Statement;
use thiserror::Error;

/// The limits of a statement, in the order in which they are tried.
#[derive(Clone, Copy, Debug, PartialEq, Eq)]
pub enum What {
    Name,
    Columns,
    Select,
    From,
    Atoms,
    Soft,
    Attrs,
    Value,
    Consts,
    Domain,
    Tuple,
    Streams,
}

/// Why a line is no statement that is taken.
#[derive(Clone, Copy, Debug, PartialEq, Eq, Error)]
pub enum ParseError {
    /// The text is outside the grammar, which it leaves at this byte.
    #[error("no statement goes on so at byte {at}")]
    Syntax { at: u16 },
    /// The text is inside the grammar and passes a limit, and this one first.
    #[error("the statement passes a limit")]
    Limit { what: What },
}

/// Returns whether a statement may end in a state.
pub fn is_end(state: State) -> bool
    ensures { result ≡ may_end state }
{
    matches!(
        state,
        State::AfterFrom
            | State::AfterAtom
            | State::AfterValue
            | State::AfterLock
            | State::AfterLockKey
            | State::AfterLockStream
            | State::Complete
            | State::Ended
    )
}

// The statement that a line is, by a draft with its lists.
#[inline(never)]
fn parse_lists(line: &[u8]) -> Result<Statement, ParseError>
    requires { length line.now ≤ 1024 }
    ensures { MatchResult result (λ s. IsStatement line.now s × (limit_of s ≡ None)) (λ e. IsRefusal line.now e) }
{
    let mut draft = start();
    let outline = match read_draft(line, &mut draft) {
        Ok(outline) => outline,
        Err(at) => return Err(ParseError::Syntax { at }),
    };
    if !is_end(outline.state) {
        return Err(ParseError::Syntax {
            at: line.len() as u16,
        });
    }
    match limit_passed(outline.long, outline.wide, &draft) {
        Some(what) => Err(ParseError::Limit { what }),
        None => Ok(draft.finish()),
    }
}

/// Returns the statement that a line is.
pub fn parse(line: &[u8]) -> Result<Statement, ParseError>
    requires { length line.now ≤ 1024 }
    ensures { MatchResult result (λ s. IsStatement line.now s × (limit_of s ≡ None)) (λ e. IsRefusal line.now e) }
{
    match parse_plain(line) {
        PlainReading::Plain(statement) => Ok(statement.whole()),
        PlainReading::Listed => parse_lists(line),
        PlainReading::Refused(error) => Err(error),
    }
}
