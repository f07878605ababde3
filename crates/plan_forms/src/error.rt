//! Why a query is given no plan by its parts.
ghost use Rattle.std.specs.Prelude.{◌≡◌};
ghost use Rattle.plan_forms.specs.Planned.{refusal_of};

use plan_layout::LayoutError;
use sem_query::{Attr, Condition, Which};
use thiserror::Error;

/// Why no plan is given.
#[derive(Clone, Copy, Debug, PartialEq, Eq, Error)]
pub enum PartsRefusal {
    /// There are more than 4,096 parts, or a compact query has more than 114 split pairs.
    #[error("there are too many parts")]
    TooManyParts,
    /// The first part that breaks a condition, in it the first condition, and for it the first column.
    #[error("a part breaks a condition")]
    Violation {
        part: u32,
        condition: Condition,
        attr: Attr,
    },
    /// The first of cells, answers and work that is above its limit, and that number, or 2^64 - 1 where it is above that.
    #[error("a number of the plan is above its limit")]
    Limit {
        which: Which,
        value: u64,
    },
    /// There is no memory for the parts or for the plan.
    #[error("out of memory")]
    Memory,
}

/// Returns why there is no plan, where this is why the parts have none.
pub fn refusal_of(why: LayoutError) -> PartsRefusal
    ensures { result ≡ refusal_of why }
{
    match why {
        LayoutError::Violation {
            part,
            condition,
            attr,
        } => PartsRefusal::Violation {
            part,
            condition,
            attr,
        },
        LayoutError::Limit { which, value } => PartsRefusal::Limit { which, value },
        LayoutError::Memory => PartsRefusal::Memory,
    }
}
