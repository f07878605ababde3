//! Why a line is refused.
ghost use Rattle.std.specs.Prelude.{◌≡◌};
ghost use Rattle.sql_replies.specs.Words as words;

use sql_catalog::{RowError, StreamError};
use sql_parser::{ParseError, ResolveError};

/// Why a line is refused. Where several apply, it is the first of these.
#[derive(Clone, Copy, Debug, PartialEq, Eq)]
pub enum Refusal {
    /// The line has more than 1,024 bytes.
    LineTooLong,
    /// The session is locked, and the line is none that the lock lets.
    Locked,
    /// A statement is outside the grammar, or a row begins with a reserved word.
    Syntax,
    /// A statement passes a limit, or the first word of a row has more than 24 bytes.
    Limit,
    /// A stream or a query of this name is there, two columns have one name, or a lock names a stream twice.
    Duplicate,
    /// There are 16 streams.
    TooMany,
    /// There is no stream of a name, or the stream of a column is not in FROM.
    UnknownStream,
    /// A column is none of its stream.
    UnknownColumn,
    /// FROM names a stream twice.
    SelfJoin,
    /// There is no live query of this name.
    UnknownQuery,
    /// A line that sets what is gone on from stands behind a row line that was taken, or says how many rows were taken where some were.
    Late,
    /// The number of fields of a row is not the number of columns, or that of a tuple not the number of selected columns.
    Arity,
    /// A field of a row is no integer of 64 bits, a line tells what is not so, or no lock has the number that is to unlock.
    Value,
    /// A value of a row lies outside the domain of its column.
    Domain,
    /// As many rows were taken as the session may take, or a line says that more were.
    RowLimit,
}

/// Returns the word for a refused row.
pub fn row_refusal(error: RowError) -> Refusal
    ensures { result ≡ words.row_refusal error }
{
    match error {
        RowError::Syntax => Refusal::Syntax,
        RowError::Limit => Refusal::Limit,
        RowError::UnknownStream => Refusal::UnknownStream,
        RowError::Arity => Refusal::Arity,
        RowError::Value => Refusal::Value,
        RowError::Domain => Refusal::Domain,
    }
}

/// Returns the word for a text that is no statement within the limits.
pub fn parse_refusal(error: ParseError) -> Refusal
    ensures { result ≡ words.parse_refusal error }
{
    match error {
        ParseError::Syntax { .. } => Refusal::Syntax,
        ParseError::Limit { .. } => Refusal::Limit,
    }
}

/// Returns the word for a refused stream.
pub fn stream_refusal(error: StreamError) -> Refusal
    ensures { result ≡ words.stream_refusal error }
{
    match error {
        StreamError::Duplicate => Refusal::Duplicate,
        StreamError::TooMany => Refusal::TooMany,
    }
}

/// Returns the word for a query whose names stand for none.
pub fn resolve_refusal(error: ResolveError) -> Refusal
    ensures { result ≡ words.resolve_refusal error }
{
    match error {
        ResolveError::UnknownStream => Refusal::UnknownStream,
        ResolveError::UnknownColumn => Refusal::UnknownColumn,
        ResolveError::SelfJoin => Refusal::SelfJoin,
    }
}
