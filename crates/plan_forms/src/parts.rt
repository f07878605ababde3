//! The plan of a query by its parts, of either kind.
ghost use Rattle.std.specs.Prelude.{IsFalse, IfOk, IfErr};
ghost use Rattle.sem_query.specs.Query.{is_filter};
ghost use Rattle.plan_forms.specs.Planned.{IsPartsPlan, IsRefusedByParts, AreDraftedByParts};

use crate::error::PartsRefusal;
use crate::plain::{plain_parts, plain_plan};
use crate::split::{split_parts, split_plan};
use sem_query::{PartPlan, Plan, Query};
use std::alloc::Global;

/// Returns the plan of a query that is no filter by its parts, with its numbers, without shared cells or with them: of a compact query by those of its split
/// form. `TooManyParts` where there are more than 4,096 parts, or a compact query has more than 114 split pairs. `Violation` tells the first part that breaks
/// a condition, in it the first condition, and for it the first column. Where all conditions are met, `Limit` tells the first of cells, answers and work
/// that is above its limit, and how much it is. `Memory` is answered where the list of the parts, or a plan, finds no room.
pub fn parts_plan(alloc: Global, q: &Query, shared: bool) -> Result<Plan, PartsRefusal>
    requires plain { IsFalse (is_filter q.now) }
    ensures { IsPartsPlan shared q.now result }
{
    if q.compact() {
        split_plan(alloc, q, shared)
    } else {
        plain_plan(alloc, q, shared)
    }
}

/// Returns what is kept of each stream in each of the parts of a query that is no filter, in their order, whatever the numbers come to: the plans of the parts,
/// whose boxes are still to be set. The errors are those of `parts_plan`; `Limit` is never answered.
pub fn parts_drafts(alloc: Global, q: &Query) -> Result<Vec<PartPlan>, PartsRefusal>
    requires plain { IsFalse (is_filter q.now) }
    ensures plans { IfOk result (λ plans. AreDraftedByParts q.now plans.items) }
    ensures refused { IfErr result (IsRefusedByParts q.now) }
{
    if q.compact() {
        split_parts(alloc, q)
    } else {
        plain_parts(alloc, q)
    }
}
