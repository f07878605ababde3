//! Why a row is refused.
use thiserror::Error;

/// Why a row is refused. Where several apply, it is the first of these.
#[derive(Clone, Copy, Debug, PartialEq, Eq, Error)]
pub enum RowError {
    /// The first word is reserved.
    #[error("a row begins with the name of its stream")]
    Syntax,
    /// The first word has more than 24 bytes.
    #[error("a name has at most 24 bytes")]
    Limit,
    /// No stream has the name.
    #[error("there is no stream of this name")]
    UnknownStream,
    /// The number of fields is not the number of columns.
    #[error("a row has one field for each column")]
    Arity,
    /// A field is no integer of 64 bits.
    #[error("a field is an integer of 64 bits")]
    Value,
    /// Every field is such an integer, and one lies outside the domain of its column.
    #[error("a value lies in the domain of its column")]
    Domain,
}
