//! How a query takes its rows, which is chosen once.
ghost use Rattle.std.specs.Prelude.{◌≡◌};
ghost use Rattle.sem_query.specs.Numbers.{parts_of};
ghost use Rattle.exec_part_index.specs.Prepared.{IsPreparedPlan};
ghost use Rattle.exec_query.specs.Access.{IsAccess, is_filter};

use exec_filter::{PlainFilter, Prefilter, plain_filter_of};
use exec_part_index::PreparedPlan;
use exec_point_lookup::{DirectLookup, DirectLookups, direct_lookups};
use sem_query::{Plan, Query};

/// The access path of a query: how it comes from a row to the answers.
#[derive(Drop)]
pub enum Access {
    /// By the row alone: a filter without DISTINCT.
    Filter(PlainFilter),
    /// By two cells that one column of the row tells: a query of one part. A row of a stream of which none are listed is taken by the plan.
    PointLookup(DirectLookups),
    /// By the plan: any query.
    Plan,
}

impl Access {
    /// Returns whether it is that of a filter without DISTINCT.
    pub fn is_filter(&self) -> bool
        ensures { result ≡ is_filter self.now }
    {
        match self {
            Access::Filter(_) => true,
            Access::PointLookup(_) | Access::Plan => false,
        }
    }
}

// Returns whether a look-up is one of rows of some stream.
fn is_listed(direct: &DirectLookup) -> bool {
    direct.stream <= u16::from(u8::MAX)
}

// Returns the access path of a query that is no filter without DISTINCT.
fn lookups_or_plan(q: &Query, plan: &Plan, prefilter: &Prefilter, prepared: &PreparedPlan) -> Access
    requires { IsPreparedPlan q.now (parts_of plan.now) prepared.now }
    ensures { IsAccess q.now plan.now prefilter.now result }
{
    let lookups = direct_lookups(q, plan, prepared);
    if is_listed(&lookups.first) || is_listed(&lookups.second) {
        return Access::PointLookup(lookups);
    }
    Access::Plan
}

/// Returns the access path of a query.
pub fn access_of(q: &Query, plan: &Plan, prefilter: &Prefilter, prepared: &PreparedPlan) -> Access
    requires { IsPreparedPlan q.now (parts_of plan.now) prepared.now }
    ensures { IsAccess q.now plan.now prefilter.now result }
{
    match plain_filter_of(q, plan, prefilter) {
        Some(filter) => Access::Filter(filter),
        None => lookups_or_plan(q, plan, prefilter, prepared),
    }
}
