//! Why a stream is refused.
use thiserror::Error;

/// Why a stream is refused. Where both apply, it is `Duplicate`.
#[derive(Clone, Copy, Debug, PartialEq, Eq, Error)]
pub enum StreamError {
    /// A stream of this name is there, or two columns have one name.
    #[error("the name is there already")]
    Duplicate,
    /// There are 16 streams.
    #[error("there are at most 16 streams")]
    TooMany,
}
