//! The plans of the parts of the split form, one after another, with what they come to.
ghost use Rattle.std.specs.Prelude.{◌≡◌, ◌≤◌, length, OnOk};
ghost use Rattle.plan_split_pairs.specs.Pairs.{split_pairs};
ghost use Rattle.plan_split_pairs.specs.SplitParts.{AreSplitParts};
ghost use Rattle.plan_split_parts.specs.Fronts.{AreFronts, fronts_of};
ghost use Rattle.sem_query.specs.Numbers.{answer_bound};
ghost use Rattle.sem_forms.specs.Split.{part_query};
ghost use Rattle.plan_forms.specs.Made.{IsMade};
ghost use Rattle.plan_forms.specs.Hulls.{AreHulls};
ghost use Rattle.plan_forms.specs.Drafts.{AreSummed, IsAdded, IsSplitDrafted};

use crate::boxing::part_plan;
use crate::hulls::joined;
use crate::making::Made;
use crate::one::part_of;
use arrayvec::ArrayVec;
use plan_layout::{LayoutError, PlanDraft, violation_at};
use plan_split_parts::Front;
use plan_whole_form::box_size;
use sem_query::{Dim, Pair, Query};
use std::alloc::{AllocError, Global};

// Adds the plan of a part, where there is memory for it, and joins the ranges of its selected columns to the hulls.
fn add_part(
    q: &Query,
    front: &Front,
    made: Made,
    draft: &mut PlanDraft,
    hulls: &mut ArrayVec<Dim, 8>,
) -> Result<(), AllocError>
    requires made { IsMade (part_query q.now front.now.signs.items) made }
    requires summed { AreSummed q.now (answer_bound q.now) draft.old }
    requires hulls { AreHulls q.now draft.old.parts.items hulls.old.items }
    ensures summed { OnOk result (AreSummed q.now (answer_bound q.now) draft.new) }
    ensures added { OnOk result (IsAdded q.now front.now.signs.items draft.old draft.new) }
    ensures hulls { OnOk result (AreHulls q.now draft.new.parts.items hulls.new.items) }
{
    let numbers = made.numbers;
    *hulls = joined(hulls.as_slice(), made.selected.as_slice());
    let (plan, cells) = part_plan(q, front, made, draft.cells);
    draft.cells = cells;
    draft.answers = draft.answers.saturating_add(numbers.answers);
    draft.work = draft.work.saturating_add(numbers.work);
    match draft.parts.push(plan) {
        Ok(()) => Ok(()),
        Err(_) => Err(AllocError),
    }
}

/// Returns the plans of all parts of the split form of a query, of which there are at most 4,096, with what they come to, each number as 64 bits keep it:
/// of each part that of the whole form of the query with its signs as comparisons, the boxes one after another from cell 0 on, as far as 32 bits keep them.
/// The answers are those of all parts together, or, where these are fewer, the tuples in the least ranges that hold those of all parts.
/// `Violation` tells the first part that breaks a condition, in it the first condition, and for it the first column; `Memory` is answered where a list
/// finds no room. `Limit` is never answered.
pub(crate) fn split_drafts(
    alloc: Global,
    q: &Query,
    pairs: &[Pair],
    fronts: &[Front],
) -> Result<PlanDraft, LayoutError>
    requires pairs { pairs.now ≡ split_pairs q.now }
    requires fronts { AreFronts q.now (length pairs.now) fronts.now }
    requires parts { AreSplitParts q.now (fronts_of fronts.now) }
    requires few { length fronts.now ≤ 4096 }
    ensures { IsSplitDrafted q.now result }
{
    // Named for the proof alone: the query is within its limits.
    let _from = q.from();
    let Ok(plans) = Vec::with_capacity(alloc, fronts.len()) else {
        return Err(LayoutError::Memory);
    };
    let mut draft = PlanDraft {
        parts: plans,
        cells: 0,
        answers: 0,
        work: 0,
    };
    let mut hulls = ArrayVec::new();
    for i in 0..fronts.len() {
        let front = &fronts[i];
        match part_of(alloc, q, pairs, front) {
            Ok(Ok(made)) => {
                let Ok(()) = add_part(q, front, made, &mut draft, &mut hulls) else {
                    return Err(LayoutError::Memory);
                };
            },
            Ok(Err(found)) => return Err(violation_at(i, found)),
            Err(_) => return Err(LayoutError::Memory),
        }
    }
    draft.answers = draft.answers.min(box_size(hulls.as_slice()));
    Ok(draft)
}
