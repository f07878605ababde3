//! The plan of a compact query by the parts of its split form.
ghost use Rattle.std.specs.Prelude.{◌≡◌, ◌≤◌, IsTrue, IsFalse, length, Ok, IfOk, IfErr};
ghost use Rattle.sem_query.specs.Query.{is_filter};
ghost use Rattle.plan_split_pairs.specs.Pairs.{split_pairs};
ghost use Rattle.plan_split_pairs.specs.SplitParts.{AreSplitParts};
ghost use Rattle.plan_split_parts.specs.Fronts.{AreFronts, fronts_of};
ghost use Rattle.plan_forms.specs.Planned.{IsPartsPlan, IsRefusedByParts, AreDraftedByParts, IsSplitForm, IsNumberedSplit};

use crate::drafting::split_drafts;
use crate::error::{PartsRefusal, refusal_of};
use plan_layout::{PlanDraft, parts_of, planned, with_shared};
use plan_split_pairs::form_pairs;
use plan_split_parts::{Front, PartsError, form_fronts};
use sem_query::{Pair, PartPlan, Plan, Query};
use std::alloc::Global;

/// Returns the plans of the parts that these fronts tell, or why there are none.
pub fn drafts_of(
    alloc: Global,
    q: &Query,
    pairs: &[Pair],
    fronts: &[Front],
) -> Result<PlanDraft, PartsRefusal>
    requires compact { IsTrue q.now.compact }
    requires plain { IsFalse (is_filter q.now) }
    requires pairs { pairs.now ≡ split_pairs q.now }
    requires few_pairs { length pairs.now ≤ 114 }
    requires fronts { AreFronts q.now (length pairs.now) fronts.now }
    requires parts { AreSplitParts q.now (fronts_of fronts.now) }
    requires few { length fronts.now ≤ 4096 }
    ensures { IsSplitForm q.now result }
{
    match split_drafts(alloc, q, pairs, fronts) {
        Ok(draft) => Ok(draft),
        Err(why) => Err(refusal_of(why)),
    }
}

// The plans of all parts over these pairs, or why there are none.
fn drafts_over(alloc: Global, q: &Query, pairs: &[Pair]) -> Result<PlanDraft, PartsRefusal>
    requires compact { IsTrue q.now.compact }
    requires plain { IsFalse (is_filter q.now) }
    requires pairs { pairs.now ≡ split_pairs q.now }
    requires few { length pairs.now ≤ 114 }
    ensures { IsSplitForm q.now result }
{
    match form_fronts(alloc, q, pairs) {
        Ok(fronts) => drafts_of(alloc, q, pairs, &fronts),
        Err(PartsError::TooManyParts) => Err(PartsRefusal::TooManyParts),
        Err(PartsError::Memory) => Err(PartsRefusal::Memory),
    }
}

// The plans of all parts, or why there are none.
fn split_form(alloc: Global, q: &Query) -> Result<PlanDraft, PartsRefusal>
    requires compact { IsTrue q.now.compact }
    requires plain { IsFalse (is_filter q.now) }
    ensures { IsSplitForm q.now result }
{
    match form_pairs(q) {
        Some(pairs) => drafts_over(alloc, q, pairs.as_slice()),
        None => Err(PartsRefusal::TooManyParts),
    }
}

// The plan of the drafts with its numbers, or the first number that is above its limit.
fn numbered(draft: PlanDraft) -> Result<Plan, PartsRefusal>
    requires { length draft.parts.items ≤ 4096 }
    ensures { IsNumberedSplit draft result }
{
    match planned(draft) {
        Ok(plan) => Ok(plan),
        Err(why) => Err(refusal_of(why)),
    }
}

/// Returns the plan of all parts of a compact query that is no filter, without shared cells or with them, or why it has none.
pub fn plan_of(
    alloc: Global,
    q: &Query,
    draft: PlanDraft,
    shared: bool,
) -> Result<Plan, PartsRefusal>
    requires compact { IsTrue q.now.compact }
    requires plain { IsFalse (is_filter q.now) }
    requires form { IsSplitForm q.now (Ok draft) }
    ensures { IsPartsPlan shared q.now result }
{
    if !shared {
        return numbered(draft);
    }
    match with_shared(alloc, q, draft) {
        Ok(draft) => numbered(draft),
        Err(_) => Err(PartsRefusal::Memory),
    }
}

/// Returns the plan of a compact query that is no filter, without shared cells or with them, or why it has none.
pub fn split_plan(alloc: Global, q: &Query, shared: bool) -> Result<Plan, PartsRefusal>
    requires compact { IsTrue q.now.compact }
    requires plain { IsFalse (is_filter q.now) }
    ensures { IsPartsPlan shared q.now result }
{
    match split_form(alloc, q) {
        Ok(draft) => plan_of(alloc, q, draft, shared),
        Err(why) => Err(why),
    }
}

/// Returns the plans of the parts of a compact query that is no filter, whose boxes are still to be set, whatever the numbers come to, or why there are none.
pub fn split_parts(alloc: Global, q: &Query) -> Result<Vec<PartPlan>, PartsRefusal>
    requires compact { IsTrue q.now.compact }
    requires plain { IsFalse (is_filter q.now) }
    ensures plans { IfOk result (λ plans. AreDraftedByParts q.now plans.items) }
    ensures refused { IfErr result (IsRefusedByParts q.now) }
{
    match split_form(alloc, q) {
        Ok(draft) => Ok(parts_of(draft)),
        Err(why) => Err(why),
    }
}
