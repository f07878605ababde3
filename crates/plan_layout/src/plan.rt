//! The plan of a query.
ghost use Rattle.std.specs.Prelude.{◌≡◌, ◌≤◌, ◌<◌, length, true, false, IsFalse, IfOk, IfErr, None};
ghost use Rattle.sem_query.specs.Query.{is_filter};
ghost use Rattle.sem_query.specs.Parts.{AreParts, sign_lists};
ghost use Rattle.sem_query.specs.Violation.{IsViolation};
ghost use Rattle.plan_layout.specs.Unset.{AreUnset, IsPartFault};
ghost use Rattle.plan_layout.specs.Sums.{IsDrafted, violation_at};
ghost use Rattle.plan_layout.specs.Shared.{IsSharedDraft};
ghost use Rattle.plan_layout.specs.Layout.{IsLayout, IsNumbered};

use crate::draft::{PlanDraft, add_part};
use crate::error::LayoutError;
use crate::limits::limited;
use crate::placing::share;
use crate::selecting::different;
use plan_conditions::violation_of;
use plan_links::{Basis, refs};
use sem_query::{Break, Part, PartPlan, PartPlans, Plan, Query};
use std::alloc::{AllocError, Global};

/// Returns the violation that the part at a place shows.
pub fn violation_at(i: usize, found: Break) -> LayoutError
    requires { i < 4096 }
    ensures { result ≡ violation_at i found }
{
    LayoutError::Violation {
        part: (i + 1) as u32,
        condition: found.condition,
        attr: found.attr,
    }
}

// The plans of the parts, with what they come to, or the first part that breaks a condition.
fn drafted(alloc: Global, q: &Query, parts: &[Part]) -> Result<PlanDraft, LayoutError>
    requires parts { AreParts q.now (sign_lists parts.now) }
    requires few { length parts.now ≤ 4096 }
    requires plain { IsFalse (is_filter q.now) }
    ensures { IsDrafted q.now (sign_lists parts.now) result }
{
    let columns = different(q.select());
    let Ok(plans) = Vec::with_capacity(alloc, parts.len()) else {
        return Err(LayoutError::Memory);
    };
    let mut draft = PlanDraft {
        parts: plans,
        cells: 0,
        answers: 0,
        work: 0,
    };
    let basis = Basis::new(q);
    let mut distances = basis.begin();
    for i in 0..parts.len() {
        let part = &parts[i];
        let refs = refs(q, part, &basis, &mut distances);
        if let Some(found) = violation_of(q, part, &refs) {
            return Err(violation_at(i, found));
        }
        let Ok(()) = add_part(alloc, q, part, refs, columns.as_slice(), &mut draft) else {
            return Err(LayoutError::Memory);
        };
    }
    Ok(draft)
}

/// Returns the plans of the parts.
pub fn parts_of(draft: PlanDraft) -> Vec<PartPlan>
    ensures { result.items ≡ draft.parts.items }
{
    let PlanDraft {
        parts,
        cells: _cells,
        answers: _answers,
        work: _work,
    } = draft;
    parts
}

/// Returns the drafts, whose boxes follow each other, with shared cells. An error says that memory was not found.
pub fn with_shared(alloc: Global, q: &Query, draft: PlanDraft) -> Result<PlanDraft, AllocError>
    requires few { length draft.parts.items ≤ 4096 }
    ensures { IfOk result (IsSharedDraft q.now draft) }
{
    let mut draft = draft;
    draft.cells = share(alloc, q, draft.parts.as_mut_slice())?;
    Ok(draft)
}

/// Returns the plan of the drafts with its numbers. `Limit` tells the first of cells, answers and work that is above its limit; no other error is answered.
pub fn planned(draft: PlanDraft) -> Result<Plan, LayoutError>
    requires { length draft.parts.items ≤ 4096 }
    ensures { IsNumbered draft result }
{
    let PlanDraft {
        parts,
        cells,
        answers,
        work,
    } = draft;
    match limited(parts.len() as u32, cells, answers, work) {
        Ok(numbers) => Ok(Plan::Parts {
            parts: PartPlans::of(parts),
            numbers,
        }),
        Err(why) => Err(why),
    }
}

/// Returns what is kept of each stream in each of the parts of a query that is no filter, in their order, whatever its numbers come to: the dims and the kinds of
/// cells of a plan, whose boxes are still to be set. `Violation` tells the first part that breaks a condition, in it the first condition, and for it the first
/// column; `Memory` is answered where the list of the plans finds no room. `Limit` is never answered.
pub fn part_plans(alloc: Global, q: &Query, parts: &[Part]) -> Result<Vec<PartPlan>, LayoutError>
    requires parts { AreParts q.now (sign_lists parts.now) }
    requires few { length parts.now ≤ 4096 }
    requires plain { IsFalse (is_filter q.now) }
    ensures plans { IfOk result (λ plans. AreUnset q.now plans.items) }
    ensures few { IfOk result (λ plans. length plans.items ≤ 4096) }
    ensures meets { IfOk result (λ plans. IsViolation q.now None) }
    ensures fault { IfErr result (IsPartFault q.now) }
{
    match drafted(alloc, q, parts) {
        Ok(draft) => Ok(parts_of(draft)),
        Err(why) => Err(why),
    }
}

/// Returns the plan of a query, with its numbers, from the list of all its parts, of which there are at most 4,096. A filter has no parts and keeps
/// nothing, and it has its plan always. Without shared cells the boxes of cells follow each other by part and then by FROM, from cell 0 on. With
/// them, boxes of which the cells are the same, whatever rows come, stand once: the different boxes follow each other by their first part and then by
/// FROM, each box begins where the first one that is the same begins, and the cells are those of the different boxes.
///
/// `Violation` tells the first part that breaks a condition, in it the first condition, and for it the first column. Where all conditions are met,
/// `Limit` tells the first of cells, answers and work that is above its limit, and how much it is; `Memory` is answered where the list of the plans
/// of the parts, or that of the different boxes, finds no room. No other memory is taken.
pub fn lay_out(alloc: Global, q: &Query, parts: &[Part], shared: bool) -> Result<Plan, LayoutError>
    requires parts { AreParts q.now (sign_lists parts.now) }
    requires few { length parts.now ≤ 4096 }
    ensures { IsLayout shared q.now result }
{
    if q.is_filter() {
        return Ok(Plan::Filter);
    }
    match drafted(alloc, q, parts) {
        Ok(draft) if shared => match with_shared(alloc, q, draft) {
            Ok(draft) => planned(draft),
            Err(_) => Err(LayoutError::Memory),
        },
        Ok(draft) => planned(draft),
        Err(why) => Err(why),
    }
}
