//! The plan of the whole form of a compact query.
ghost use Rattle.std.specs.Prelude.{◌≡◌, ◌↔◌, [], ◌∷◌, IsTrue, IsFalse, IfOk, Some, None};
ghost use Rattle.sem_query.specs.declared.plan.Plan.TheVariants as plans;
ghost use Rattle.sem_query.specs.Numbers.{numbers_of};
ghost use Rattle.sem_query.specs.Query.{is_filter};
ghost use Rattle.sem_query.specs.Verdict.{first_above};
ghost use Rattle.plan_layout.specs.Layout.{numbers_in};
ghost use Rattle.sem_forms.specs.Fitting.{has_unlike_link, AreCheaper};
ghost use Rattle.sem_forms.specs.Forms.{IsWholeFormOr};
ghost use Rattle.plan_forms.specs.Fitting.{IsFitted, AreCheaperWithin, AreCheaperParts, IsChosen};

use crate::error::PartsRefusal;
use crate::few::few_form;
use crate::fitting::{WholePlan, is_within, whole_plan};
use plan_layout::PlanDraft;
use plan_split_pairs::is_unlike;
use plan_whole_form::PartNumbers;
use sem_query::{Numbers, PartPlan, PartPlans, Plan, Query};
use std::alloc::{AllocError, Global};

// Whether some link between streams is `<>`.
fn has_unlike_link(part: &PartPlan) -> bool
    ensures { result ≡ has_unlike_link part.now }
{
    part.soft.as_slice().iter().any(|link| is_unlike(link.op))
}

// Whether rows are cheaper by parts, by what these come to and the numbers of the whole form.
fn take_less(parts: &PlanDraft, whole: Numbers) -> bool
    ensures { IsTrue result ↔ AreCheaper (numbers_in parts.now) whole }
{
    // Each part costs a row something beside the work that is announced: above so many that was mostly more than what less work spared.
    parts.parts.len() <= 16 && parts.work < u64::from(whole.work)
}

// Whether no number that parts come to is above its limit.
fn are_within(parts: &PlanDraft) -> bool
    ensures { IsTrue result ↔ (first_above (numbers_in parts.now) ≡ None) }
{
    is_within(PartNumbers {
        cells: parts.cells,
        answers: parts.answers,
        work: parts.work,
    })
}

// Whether rows are cheaper by parts that are within the limits.
fn are_cheaper(parts: &PlanDraft, whole: Numbers) -> bool
    ensures { IsTrue result ↔ AreCheaperWithin (numbers_in parts.now) whole }
{
    are_within(parts) && take_less(parts, whole)
}

// The parts, where streams are linked by `<>` in the plan of the whole form, and rows are cheaper by the parts of the query. An error says that memory was not
// found.
fn cheaper_parts(
    alloc: Global,
    q: &Query,
    whole: &WholePlan,
) -> Result<Option<PlanDraft>, AllocError>
    requires compact { IsTrue q.now.compact }
    requires plain { IsFalse (is_filter q.now) }
    requires numbers { whole.now.numbers ≡ numbers_of q.now (whole.now.part ∷ []) }
    ensures { IfOk result (AreCheaperParts q.now whole.now.part) }
{
    if !has_unlike_link(&whole.part) {
        return Ok(None);
    }
    // Named for the proof alone: the query is within its limits.
    let _from = q.from();
    match few_form(alloc, q) {
        Ok(parts) => {
            if are_cheaper(&parts, whole.numbers) {
                Ok(Some(parts))
            } else {
                Ok(None)
            }
        }
        Err(PartsRefusal::TooManyParts) => Ok(None),
        Err(PartsRefusal::Violation { .. }) => Ok(None),
        Err(PartsRefusal::Limit { .. }) => Ok(None),
        Err(PartsRefusal::Memory) => Err(AllocError),
    }
}

/// How a compact query is planned.
#[derive(Drop)]
pub enum ChosenForm {
    /// By its whole form, which fits.
    Whole(WholePlan),
    /// By these parts: its whole form is within the limits, and rows are cheaper by them.
    Cheaper(PlanDraft),
    /// By its parts: its whole form is not within the limits.
    Parts,
}

// How a compact query is planned whose whole form is within the limits. An error says that memory was not found.
fn cheaper(alloc: Global, q: &Query, whole: WholePlan) -> Result<ChosenForm, AllocError>
    requires compact { IsTrue q.now.compact }
    requires plain { IsFalse (is_filter q.now) }
    requires fitted { IsFitted q.now (Some whole) }
    ensures { IfOk result (IsChosen q.now) }
{
    match cheaper_parts(alloc, q, &whole)? {
        Some(parts) => Ok(ChosenForm::Cheaper(parts)),
        None => Ok(ChosenForm::Whole(whole)),
    }
}

/// Returns how a compact query that is no filter is planned. An error says that memory was not found.
pub fn chosen(alloc: Global, q: &Query) -> Result<ChosenForm, AllocError>
    requires compact { IsTrue q.now.compact }
    requires plain { IsFalse (is_filter q.now) }
    ensures { IfOk result (IsChosen q.now) }
{
    match whole_plan(alloc, q)? {
        Some(whole) => cheaper(alloc, q, whole),
        None => Ok(ChosenForm::Parts),
    }
}

/// Returns the plan of one part. An error says that memory was not found.
pub fn planned(alloc: Global, whole: WholePlan) -> Result<Plan, AllocError>
    ensures { IfOk result (λ p. p ≡ plans.Parts (whole.part ∷ []) whole.numbers) }
{
    let WholePlan { part, numbers } = whole;
    let parts = vec![in alloc; part]?;
    Ok(Plan::Parts {
        parts: PartPlans::of(parts),
        numbers,
    })
}

/// Returns the plan of a query that is no filter as its whole form, one part with its numbers: the boxes follow each other by FROM, from
/// cell 0 on, with shared cells and without. None where the query is not compact, or where its whole form does not fit: its system contradicts itself,
/// a range lacks an end, a number is above its limit, or streams are linked by `<>` and rows are cheaper by the parts. An error says that memory was not
/// found.
pub fn whole_form(alloc: Global, q: &Query) -> Result<Option<Plan>, AllocError>
    requires plain { IsFalse (is_filter q.now) }
    ensures { IfOk result (IsWholeFormOr q.now) }
{
    if !q.compact() {
        return Ok(None);
    }
    match chosen(alloc, q)? {
        ChosenForm::Whole(whole) => Ok(Some(planned(alloc, whole)?)),
        ChosenForm::Cheaper(_parts) => Ok(None),
        ChosenForm::Parts => Ok(None),
    }
}
