//! The plan of a query that is not compact by its parts.
ghost use Rattle.std.specs.Prelude.{◌≡◌, ◌≤◌, IsFalse, length, IfOk, IfErr};
ghost use Rattle.sem_query.specs.Query.{is_filter};
ghost use Rattle.sem_query.specs.Parts.{AreParts, sign_lists};
ghost use Rattle.plan_forms.specs.Planned.{IsPartsPlan, IsRefusedByParts, AreDraftedByParts};

use crate::error::{PartsRefusal, refusal_of};
use plan_layout::{lay_out, part_plans};
use plan_parts::{SplitError, split};
use sem_query::{Part, PartPlan, Plan, Query};
use std::alloc::Global;

// The plan of these parts.
fn plan_of(alloc: Global, q: &Query, parts: &[Part], shared: bool) -> Result<Plan, PartsRefusal>
    requires compact { IsFalse q.now.compact }
    requires plain { IsFalse (is_filter q.now) }
    requires parts { AreParts q.now (sign_lists parts.now) }
    requires few { length parts.now ≤ 4096 }
    ensures { IsPartsPlan shared q.now result }
{
    match lay_out(alloc, q, parts, shared) {
        Ok(plan) => Ok(plan),
        Err(why) => Err(refusal_of(why)),
    }
}

// The plans of these parts.
fn plans_of(alloc: Global, q: &Query, parts: &[Part]) -> Result<Vec<PartPlan>, PartsRefusal>
    requires compact { IsFalse q.now.compact }
    requires plain { IsFalse (is_filter q.now) }
    requires parts { AreParts q.now (sign_lists parts.now) }
    requires few { length parts.now ≤ 4096 }
    ensures plans { IfOk result (λ plans. AreDraftedByParts q.now plans.items) }
    ensures refused { IfErr result (IsRefusedByParts q.now) }
{
    match part_plans(alloc, q, parts) {
        Ok(plans) => Ok(plans),
        Err(why) => Err(refusal_of(why)),
    }
}

/// Returns the plan of a query that is neither compact nor a filter, without shared cells or with them, or why it has none.
pub fn plain_plan(alloc: Global, q: &Query, shared: bool) -> Result<Plan, PartsRefusal>
    requires compact { IsFalse q.now.compact }
    requires plain { IsFalse (is_filter q.now) }
    ensures { IsPartsPlan shared q.now result }
{
    match split(alloc, q) {
        Ok(parts) => plan_of(alloc, q, &parts, shared),
        Err(SplitError::TooManyParts) => Err(PartsRefusal::TooManyParts),
        Err(SplitError::Memory) => Err(PartsRefusal::Memory),
    }
}

/// Returns the plans of the parts of a query that is neither compact nor a filter, whose boxes are still to be set, whatever the numbers come to, or why there
/// are none.
pub fn plain_parts(alloc: Global, q: &Query) -> Result<Vec<PartPlan>, PartsRefusal>
    requires compact { IsFalse q.now.compact }
    requires plain { IsFalse (is_filter q.now) }
    ensures plans { IfOk result (λ plans. AreDraftedByParts q.now plans.items) }
    ensures refused { IfErr result (IsRefusedByParts q.now) }
{
    match split(alloc, q) {
        Ok(parts) => plans_of(alloc, q, &parts),
        Err(SplitError::TooManyParts) => Err(PartsRefusal::TooManyParts),
        Err(SplitError::Memory) => Err(PartsRefusal::Memory),
    }
}
