//! Why a query has no list of split parts.
use thiserror::Error;

/// Why no parts are given.
#[derive(Clone, Copy, Debug, PartialEq, Eq, Error)]
pub enum PartsError {
    /// The query has more than 4,096 parts.
    #[error("there are more than 4096 parts")]
    TooManyParts,
    /// There is no memory for the list.
    #[error("out of memory")]
    Memory,
}
