//! Whether a query meets all conditions and has a part.
ghost use Rattle.std.specs.Prelude.{◌↔◌, ◌≤◌, IsTrue, IsFalse, length, IfOk, MatchOption};
ghost use Rattle.sem_query.specs.Query.{is_filter};
ghost use Rattle.sem_query.specs.Parts.{AreParts, sign_lists};
ghost use Rattle.plan_forms.specs.Planned.{AreDraftedByParts};
ghost use Rattle.adv_mends.specs.Meeting.{Meets, HasPart, Stands, MeetsWith, NeverMeets};

use plan_conditions::decide;
use plan_forms::{PartsRefusal, parts_drafts};
use plan_parts::{SplitError, split};
use sem_query::{Decision, Part, PartPlan, Query};
use std::alloc::{AllocError, Global};

// Whether some combination of rows meets the comparisons of a query. `AllocError` where the list of parts finds no memory.
fn has_part(alloc: Global, query: &Query) -> Result<bool, AllocError>
    ensures { IfOk result (λ has. IsTrue has ↔ HasPart query.now) }
{
    match split(alloc, query) {
        Ok(parts) => Ok(parts.len() != 0),
        Err(SplitError::TooManyParts) => Ok(true),
        Err(SplitError::Memory) => Err(AllocError),
    }
}

// The plans of all parts of a query that is no filter, where there are not too many and none breaks a condition.
pub(crate) fn met_drafts(alloc: Global, query: &Query) -> Result<Option<Vec<PartPlan>>, AllocError>
    requires { IsFalse (is_filter query.now) }
    ensures { IfOk result (λ found. MatchOption found (¬ Meets query.now) (λ plans. AreDraftedByParts query.now plans.items)) }
{
    match parts_drafts(alloc, query) {
        Ok(plans) => Ok(Some(plans)),
        Err(PartsRefusal::Memory) => Err(AllocError),
        Err(PartsRefusal::TooManyParts) => Ok(None),
        Err(
            PartsRefusal::Violation {
                part: _part,
                condition: _condition,
                attr: _attr,
            },
        ) => Ok(None),
        Err(
            PartsRefusal::Limit {
                which: _which,
                value: _value,
            },
        ) => unreachable!(),
    }
}

// How many parts a query that is no filter has, where there are not too many and none breaks a condition, by the plans of all.
fn drafted_parts(alloc: Global, query: &Query) -> Result<Option<usize>, AllocError>
    requires { IsFalse (is_filter query.now) }
    ensures { IfOk result (MeetsWith query.now) }
{
    match met_drafts(alloc, query)? {
        Some(plans) => Ok(Some(plans.len())),
        None => Ok(None),
    }
}

// How many parts a query that is no filter has, where it meets all conditions. A query that is not compact is decided without plans.
fn parts_met(alloc: Global, query: &Query) -> Result<Option<usize>, AllocError>
    requires { IsFalse (is_filter query.now) }
    ensures { IfOk result (MeetsWith query.now) }
{
    if query.compact() {
        return drafted_parts(alloc, query);
    }
    match split(alloc, query) {
        Ok(parts) => match decide(query, &parts) {
            Decision::Bounded => Ok(Some(parts.len())),
            Decision::Violation { .. } => Ok(None),
        },
        Err(SplitError::TooManyParts) => Ok(None),
        Err(SplitError::Memory) => Err(AllocError),
    }
}

/// Returns whether the query meets all conditions: a filter does, and else it has not too many parts, and none of them breaks one. `AllocError` where a list of
/// parts or of their plans finds no memory.
pub fn meets(alloc: Global, query: &Query) -> Result<bool, AllocError>
    ensures { IfOk result (λ meets. IsTrue meets ↔ Meets query.now) }
{
    if query.is_filter() {
        return Ok(true);
    }
    let parts = parts_met(alloc, query)?;
    Ok(parts.is_some())
}

/// Returns whether the query has a part and meets all conditions: a filter does meet them, and else it has not too many parts, and none of them breaks one.
/// `AllocError` where a list of parts or of their plans finds no memory.
pub fn stands(alloc: Global, query: &Query) -> Result<bool, AllocError>
    ensures { IfOk result (λ stands. IsTrue stands ↔ Stands query.now) }
{
    if query.is_filter() {
        return has_part(alloc, query);
    }
    match parts_met(alloc, query)? {
        Some(parts) => Ok(0 < parts),
        None => Ok(false),
    }
}

/// Returns whether no combination of rows meets the comparisons of the query. `AllocError` where the list of parts finds no memory.
pub fn never_meets(alloc: Global, query: &Query) -> Result<bool, AllocError>
    ensures { IfOk result (λ never. IsTrue never ↔ NeverMeets query.now) }
{
    Ok(!has_part(alloc, query)?)
}
