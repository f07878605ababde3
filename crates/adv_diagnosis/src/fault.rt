//! What a line asks for, and what may be wrong with it.
ghost use Rattle.std.specs.Prelude.{◌≡◌};
ghost use Rattle.adv_diagnosis.specs.FaultWords as words;

use adv_hints::Continuations;
use arrayvec::ArrayVec;
use sem_query::Query;
use sql_catalog::{Catalog, ColumnDef};
use sql_parser::{ColumnAst, What};
use sql_replies::Refusal;
use sql_text::Name;

/// What the lines so far have made: the streams, and the names of the live queries.
#[derive(Clone, Copy)]
pub struct Known<'a> {
    pub catalog: &'a Catalog,
    pub live: &'a [Name],
}

/// A lock that stands: the number of the line that set it, its key, where it has one, and the names of the streams whose rows it lets,
/// or none where it lets those of all streams.
#[derive(Clone, Copy)]
pub struct Lock<'a> {
    pub line: u64,
    pub key: Option<i64>,
    pub streams: &'a [Name],
}

/// What a line asks for with which nothing is wrong.
#[derive(Drop)]
pub enum Asks {
    /// Nothing stands there, or a comment.
    Nothing,
    /// A row, with a value for each column of its stream, in its domain.
    Row,
    /// A stream that can be added to the catalog.
    Stream {
        name: Name,
        columns: ArrayVec<ColumnDef, 8>,
    },
    /// A query whose names are all there, under a name that no live query has.
    Query {
        name: Name,
        query: Query,
        shared: bool,
    },
    /// That a live query is explained.
    Explain,
    /// That the live query of this name is dropped.
    Drop(Name),
    /// A checkpoint, or a line of one.
    Other,
    /// That the session is locked, but for rows of these streams, or of all where none is named.
    Lock {
        key: Option<i64>,
        streams: ArrayVec<Name, 16>,
    },
    /// That the session is open again.
    Unlock,
}

/// What is wrong with a line: each kind of cause, with its facts.
#[derive(Drop)]
pub enum Fault {
    /// The line has more than 1,024 bytes.
    LineTooLong,
    /// A statement leaves the grammar at this byte, where these may stand.
    Syntax { at: u16, next: Continuations },
    /// A statement passes this limit first, with so many of what it is on: of names the bytes of the first that is too long, and none
    /// where the limit is on no number.
    Limit { what: What, found: Option<u16> },
    /// A stream of this name is there.
    DuplicateStream { name: Name },
    /// Two columns of a stream have this name.
    DuplicateColumn { name: Name },
    /// A live query has this name.
    DuplicateQuery { name: Name },
    /// There are 16 streams.
    TooManyStreams,
    /// There are 64 live queries.
    TooManyQueries,
    /// FROM names this stream, which is not there.
    NoStream { name: Name },
    /// The stream of this column is not in FROM.
    NotInFrom { column: ColumnAst },
    /// The stream of this column has no column of its name.
    NoColumn { column: ColumnAst },
    /// FROM names this stream twice.
    SelfJoin { name: Name },
    /// No live query has this name.
    NoQuery { name: Name },
    /// The lock of this line stands, and the line is none that it lets.
    Locked { line: u64 },
    /// A lock names this stream twice.
    LockTwice { name: Name },
    /// A lock names this stream, which is not there.
    LockNoStream { name: Name },
    /// No lock stands that a line could open.
    NoLock,
    /// A row begins with a reserved word.
    RowKey,
    /// A row begins with a word of so many bytes, more than a name may have.
    RowName { bytes: u16 },
    /// A row begins with a word that is the name of no stream.
    RowStream,
    /// A row of this stream has so many fields, where so many are wanted.
    Arity { stream: u8, wanted: u8, found: u16 },
    /// This field of a row is the first, from 0, that is no integer of 64 bits.
    Value { field: u16 },
    /// The value of this column of a row of this stream is the first, from 0, outside its domain.
    Domain { stream: u8, field: u8 },
}

/// What a line asks for, or what is wrong with it.
pub type Diagnosis = Result<Asks, Fault>;

/// Returns the word by which a session refuses a line with this fault.
pub fn word_of(fault: &Fault) -> Refusal
    ensures { result ≡ words.word_of fault.now }
{
    match fault {
        Fault::LineTooLong => Refusal::LineTooLong,
        Fault::Locked { .. } => Refusal::Locked,
        Fault::Syntax { .. } | Fault::RowKey => Refusal::Syntax,
        Fault::Limit { .. } | Fault::RowName { .. } => Refusal::Limit,
        Fault::DuplicateStream { .. }
        | Fault::DuplicateColumn { .. }
        | Fault::DuplicateQuery { .. }
        | Fault::LockTwice { .. } => Refusal::Duplicate,
        Fault::TooManyStreams | Fault::TooManyQueries => Refusal::TooMany,
        Fault::NoStream { .. }
        | Fault::NotInFrom { .. }
        | Fault::LockNoStream { .. }
        | Fault::RowStream => Refusal::UnknownStream,
        Fault::NoColumn { .. } => Refusal::UnknownColumn,
        Fault::SelfJoin { .. } => Refusal::SelfJoin,
        Fault::NoQuery { .. } => Refusal::UnknownQuery,
        Fault::Arity { .. } => Refusal::Arity,
        Fault::Value { .. } | Fault::NoLock => Refusal::Value,
        Fault::Domain { .. } => Refusal::Domain,
    }
}
