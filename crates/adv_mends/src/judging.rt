//! What a query comes to.
ghost use Rattle.std.specs.Prelude.{◌≡◌, Some, IfOk};
ghost use Rattle.adv_mends.specs.Sets.{IsMendOf};
ghost use Rattle.adv_mends.specs.Numbered.{IsJudgement, AreNumbersWith, accepted, shares};

use crate::mend::Mend;
use crate::writing::written;
use plan_forms::{PartsRefusal, form_plan};
use sem_query::{Attr, Condition, Numbers, Plan, Query, Which};
use std::alloc::{AllocError, Global};

/// What a query comes to, whatever pages are free.
#[derive(Clone, Copy, Debug, PartialEq, Eq)]
pub enum Judgement {
    /// It answers each row by that row alone.
    Filter,
    /// It meets all conditions, or is compact and has a whole form that fits, and its numbers are within their limits.
    Accepted(Numbers),
    /// It meets all conditions. The first of cells, answers and work that is above its limit, and that number, or 2^64 - 1 where it is above that.
    Above {
        which: Which,
        value: u64,
    },
    /// The first part that breaks a condition, in it the first condition, and for it the first column.
    Violation {
        part: u32,
        condition: Condition,
        attr: Attr,
    },
    /// It has more than 4,096 parts, or is compact and has more than 114 pairs that cut them.
    ManyParts,
}

/// Returns what the query comes to, with shared cells or without, as CREATE QUERY judges it but for the pages that are free. `AllocError` where the list of
/// parts, or a plan, finds no memory.
pub fn judge(alloc: Global, query: &Query, shared: bool) -> Result<Judgement, AllocError>
    ensures { IfOk result (IsJudgement shared query.now) }
{
    if query.is_filter() {
        return Ok(Judgement::Filter);
    }
    match form_plan(alloc, query, shared) {
        Ok(Plan::Filter) => Ok(Judgement::Filter),
        Ok(Plan::Parts { parts: _, numbers }) => Ok(Judgement::Accepted(numbers)),
        Err(PartsRefusal::TooManyParts) => Ok(Judgement::ManyParts),
        Err(
            PartsRefusal::Violation {
                part,
                condition,
                attr,
            },
        ) => Ok(Judgement::Violation {
            part,
            condition,
            attr,
        }),
        Err(PartsRefusal::Limit { which, value }) => Ok(Judgement::Above { which, value }),
        Err(PartsRefusal::Memory) => Err(AllocError),
    }
}

// Whether boxes that are the same have their cells once, with a change.
fn shares(mend: &Mend, shared: bool) -> bool
    ensures { result ≡ shares mend.now shared }
{
    matches!(mend, Mend::Shared) || shared
}

// The numbers of a judgement that accepts.
fn accepted(judgement: Judgement) -> Option<Numbers>
    ensures { result ≡ accepted (Some judgement) }
{
    match judgement {
        Judgement::Accepted(numbers) => Some(numbers),
        _ => None,
    }
}

/// Returns the numbers of the query with a change, with shared cells or without, or none where it is not accepted with it. `AllocError` where the list of parts,
/// or the plan, finds no memory.
pub fn numbers_with(
    alloc: Global,
    query: &Query,
    shared: bool,
    mend: &Mend,
) -> Result<Option<Numbers>, AllocError>
    requires { IsMendOf query.now mend.now }
    ensures { IfOk result (AreNumbersWith shared query.now mend.now) }
{
    match written(query, mend) {
        Some(other) => {
            let judgement = judge(alloc, &other, shares(mend, shared))?;
            Ok(accepted(judgement))
        }
        None => Ok(None),
    }
}
