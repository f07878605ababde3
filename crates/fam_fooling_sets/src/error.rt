//! Why there is no family.
use thiserror::Error;

/// Why there is no family.
#[derive(Clone, Copy, Debug, PartialEq, Eq, Error)]
pub enum LowerError {
    /// The query breaks no condition.
    #[error("the query is bounded")]
    Bounded,
    /// An equality is unbounded, and a pair of the query lies between streams.
    #[error("an equality is unbounded, and a pair lies between streams")]
    C2,
    /// An inequality is unbounded, and the query is compact, a column has a domain, or a pair of the query lies between streams.
    #[error("an inequality is unbounded, and the query is compact, has a domain, or has a pair between streams")]
    C3,
    /// There is no memory for a family.
    #[error("out of memory")]
    Memory,
}
