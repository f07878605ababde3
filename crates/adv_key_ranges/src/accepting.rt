//! What a session with no other query decides on a query.
ghost use Rattle.std.specs.Prelude.{◌≡◌, ◌↔◌, IsTrue, IfOk};
ghost use Rattle.adv_key_ranges.specs.Accepted.{IsAccepted, IsLimitOf, has_numbers, limit_in};

use adv_mends::{Judgement, judge};
use sem_query::{Query, Which};
use std::alloc::{AllocError, Global};

// Whether a judgement accepts with numbers.
fn has_numbers(judgement: Judgement) -> bool
    ensures { result ≡ has_numbers judgement }
{
    match judgement {
        Judgement::Accepted(_) => true,
        Judgement::Filter
        | Judgement::Above { .. }
        | Judgement::Violation { .. }
        | Judgement::ManyParts => false,
    }
}

// The limit of a judgement, or none.
fn limit_in(judgement: Judgement) -> Option<Which>
    ensures { result ≡ limit_in judgement }
{
    match judgement {
        Judgement::Above { which, .. } => Some(which),
        Judgement::ManyParts => Some(Which::Parts),
        Judgement::Filter | Judgement::Accepted(_) | Judgement::Violation { .. } => None,
    }
}

/// Returns whether a session with no other query accepts the query with its numbers, with shared cells or without. `AllocError` where the decision finds
/// no memory.
pub fn is_accepted(alloc: Global, query: &Query, shared: bool) -> Result<bool, AllocError>
    ensures { IfOk result (λ is. IsTrue is ↔ IsAccepted shared query.now) }
{
    // No effect at run time. The proof reads the limits of the statement from this call.
    let _from = query.from();
    match judge(alloc, query, shared) {
        Ok(judgement) => Ok(has_numbers(judgement)),
        Err(fault) => Err(fault),
    }
}

/// Returns the limit that refuses the query in a session with no other one, with shared cells or without, or none where no limit does. `AllocError` where
/// the decision finds no memory.
pub fn limit_of(alloc: Global, query: &Query, shared: bool) -> Result<Option<Which>, AllocError>
    ensures { IfOk result (IsLimitOf shared query.now) }
{
    match judge(alloc, query, shared) {
        Ok(judgement) => Ok(limit_in(judgement)),
        Err(fault) => Err(fault),
    }
}
