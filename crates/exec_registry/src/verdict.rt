//! The verdict on a query, whatever pages are free.
ghost use Rattle.std.specs.Prelude.{◌≡◌, ◌≤◌, Bool, IsFalse, IsTrue};
ghost use Rattle.sem_query.specs.Query.{is_filter};
ghost use Rattle.sem_query.specs.Numbers.{pages_of, page_count};
ghost use Rattle.sem_query.specs.Verdict.{most};
ghost use Rattle.sem_forms.specs.Forms.{IsWithin};
ghost use Rattle.plan_forms.specs.Planned.{IsFormAnswer};
ghost use Rattle.exec_registry.specs.Judged.{IsJudged, verdict_of};

use crate::refusal::CreateError;
use plan_forms::{PartsRefusal, form_plan};
use sem_query::{Numbers, Plan, Query, Which};
use std::alloc::Global;

/// How a query runs that is accepted.
#[derive(Clone, Copy, Debug, PartialEq, Eq)]
pub enum Verdict {
    /// Each row is answered by itself.
    Filter,
    /// With cells and a table of answers, whose numbers are announced.
    Accepted(Numbers),
}

/// The most parts of a query that is not refused for their number.
const MOST_PARTS: u64 = 4096;

// The most that there may be of a number.
fn most(which: Which) -> u64
    ensures { result ≡ most which }
{
    match which {
        Which::Parts => MOST_PARTS,
        Which::Cells => 262_144,
        Which::Answers => 65_536,
        Which::Work => 4_194_304,
    }
}

// The plan of a query that is no filter, with shared cells or without. It stands apart so that a flag that is lost meets its clause.
fn plan_of(alloc: Global, query: &Query, shared: bool) -> Result<Plan, PartsRefusal>
    requires { IsFalse (is_filter query.now) }
    ensures { IsFormAnswer shared query.now result }
{
    form_plan(alloc, query, shared)
}

// The verdict on a query that is no filter.
fn judge_form(alloc: Global, query: &Query, shared: bool) -> Result<Plan, CreateError>
    requires { IsFalse (is_filter query.now) }
    ensures { IsJudged shared query.now result }
{
    match plan_of(alloc, query, shared) {
        Ok(plan) => Ok(plan),
        Err(PartsRefusal::TooManyParts) => Err(CreateError::Limit {
            which: Which::Parts,
            value: MOST_PARTS + 1,
            most: MOST_PARTS,
        }),
        Err(
            PartsRefusal::Violation {
                part,
                condition,
                attr,
            },
        ) => Err(CreateError::Violation {
            part,
            condition,
            attr,
        }),
        Err(PartsRefusal::Limit { which, value }) => Err(CreateError::Limit {
            which,
            value,
            most: most(which),
        }),
        Err(PartsRefusal::Memory) => Err(CreateError::Memory),
    }
}

// The plan of a filter, which has no cells, shared or not.
fn judge_filter(query: &Query) -> Result<Plan, CreateError>
    requires { IsTrue (is_filter query.now) }
    ensures { (shared : Bool) → IsJudged shared query.now result }
{
    // Named for the proof alone: the contract speaks of it.
    let _query = query;
    Ok(Plan::Filter)
}

/// Returns the plan of a query that meets all conditions within its limits, or the first reason why it is refused. A filter is never
/// refused, nor is a compact query whose whole form fits: that is its plan. Every other query is judged by its parts: too many parts, or
/// of a compact one too many pairs that cut them, a violated condition, too many cells, answers or steps of work, the cells counted once
/// where they are shared.
pub fn judge(alloc: Global, query: &Query, shared: bool) -> Result<Plan, CreateError>
    ensures { IsJudged shared query.now result }
{
    if query.is_filter() {
        return judge_filter(query);
    }
    judge_form(alloc, query, shared)
}

/// Returns how a query with this plan runs.
pub fn verdict_of(plan: &Plan) -> Verdict
    ensures { result ≡ verdict_of plan.now }
{
    match plan {
        Plan::Filter => Verdict::Filter,
        Plan::Parts { parts: _, numbers } => Verdict::Accepted(*numbers),
    }
}

/// Returns how many pages the cells of a plan take.
pub fn pages_of(plan: &Plan) -> u16
    requires { IsWithin plan.now }
    ensures value { result ≡ pages_of plan.now }
    ensures few { result ≤ 4096 }
{
    match plan {
        Plan::Filter => 0,
        Plan::Parts { parts: _, numbers } => pages_for(numbers.cells),
    }
}

// How many pages so many cells take.
fn pages_for(cells: u32) -> u16
    requires { cells ≤ 262144 }
    ensures value { result ≡ page_count cells }
    ensures few { result ≤ 4096 }
{
    cells.div_ceil(64) as u16
}
