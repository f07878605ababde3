//! Why a query is given no plan.
use sem_query::{Attr, Condition, Which};
use thiserror::Error;

/// Why no plan is given.
#[derive(Clone, Copy, Debug, PartialEq, Eq, Error)]
pub enum LayoutError {
    /// The first part that breaks a condition, in it the first condition, and for it the first column.
    #[error("a part breaks a condition")]
    Violation {
        part: u32,
        condition: Condition,
        attr: Attr,
    },
    /// The first of cells, answers and work that is above its limit, and that number, or 2^64 - 1 where it is above that.
    #[error("a number of the plan is above its limit")]
    Limit {
        which: Which,
        value: u64,
    },
    /// There is no memory for the plan.
    #[error("out of memory")]
    Memory,
}
