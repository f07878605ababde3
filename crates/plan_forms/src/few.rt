//! The plan of a compact query by few parts.
ghost use Rattle.std.specs.Prelude.{◌≡◌, ◌≤◌, IsTrue, IsFalse, length};
ghost use Rattle.sem_query.specs.Query.{is_filter};
ghost use Rattle.plan_split_pairs.specs.Pairs.{split_pairs};
ghost use Rattle.plan_forms.specs.Few.{IsFewForm};

use crate::error::PartsRefusal;
use crate::split::drafts_of;
use plan_layout::PlanDraft;
use plan_split_pairs::form_pairs;
use plan_split_parts::{PartsError, form_fronts};
use sem_query::{Pair, Query};
use std::alloc::Global;

// The plans of the parts over these pairs, where there are at most 16, or why there are none.
fn few_drafts(alloc: Global, q: &Query, pairs: &[Pair]) -> Result<PlanDraft, PartsRefusal>
    requires compact { IsTrue q.now.compact }
    requires plain { IsFalse (is_filter q.now) }
    requires pairs { pairs.now ≡ split_pairs q.now }
    requires few { length pairs.now ≤ 114 }
    ensures { IsFewForm q.now result }
{
    match form_fronts(alloc, q, pairs) {
        Ok(fronts) => {
            if fronts.len() > 16 {
                Err(PartsRefusal::TooManyParts)
            } else {
                drafts_of(alloc, q, pairs, &fronts)
            }
        }
        Err(PartsError::TooManyParts) => Err(PartsRefusal::TooManyParts),
        Err(PartsError::Memory) => Err(PartsRefusal::Memory),
    }
}

/// Returns the plans of the parts of a compact query that is no filter, or why it has none: `TooManyParts` where it has more than 16 parts, of which none is
/// planned, or more than 114 split pairs; else as `split_form`.
pub fn few_form(alloc: Global, q: &Query) -> Result<PlanDraft, PartsRefusal>
    requires compact { IsTrue q.now.compact }
    requires plain { IsFalse (is_filter q.now) }
    ensures { IsFewForm q.now result }
{
    match form_pairs(q) {
        Some(pairs) => few_drafts(alloc, q, pairs.as_slice()),
        None => Err(PartsRefusal::TooManyParts),
    }
}
