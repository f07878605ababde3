//! Why a query is refused.
use sem_query::{Attr, Condition, Which};
use thiserror::Error;

/// Why a query is not registered. All is then as before.
#[derive(Clone, Copy, Debug, PartialEq, Eq, Error)]
pub enum CreateError {
    /// The part of this number, from 1, is the first that breaks a condition; it breaks this one first, and the column
    /// shows it.
    #[error("part {part} breaks a condition")]
    Violation {
        part: u32,
        condition: Condition,
        attr: Attr,
    },
    /// A number of the query is above the most that there may be. Of parts the value is the first number that is too many, also
    /// where a compact query has too many pairs that cut them; any other is exact up to 2^64 - 1.
    #[error("{value} is more than {most}")]
    Limit {
        which: Which,
        value: u64,
        most: u64,
    },
    /// The cells of the query take more pages than are free.
    #[error("{needed} pages are needed and {free} are free")]
    Pool {
        needed: u32,
        free: u32,
    },
    /// No memory was found.
    #[error("out of memory")]
    Memory,
}
