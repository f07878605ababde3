//! The plan of a query that is no filter, of whichever form.
ghost use Rattle.std.specs.Prelude.{IsTrue, IsFalse};
ghost use Rattle.sem_query.specs.Query.{is_filter};
ghost use Rattle.plan_forms.specs.Planned.{IsFormAnswer};

use crate::error::PartsRefusal;
use crate::plain::plain_plan;
use crate::split::{plan_of, split_plan};
use crate::whole::{ChosenForm, chosen, planned};
use sem_query::{Plan, Query};
use std::alloc::Global;

// The plan of a compact query, or why it has none.
fn compact_plan(alloc: Global, q: &Query, shared: bool) -> Result<Plan, PartsRefusal>
    requires compact { IsTrue q.now.compact }
    requires plain { IsFalse (is_filter q.now) }
    ensures { IsFormAnswer shared q.now result }
{
    match chosen(alloc, q) {
        Ok(ChosenForm::Whole(whole)) => match planned(alloc, whole) {
            Ok(plan) => Ok(plan),
            Err(_) => Err(PartsRefusal::Memory),
        },
        Ok(ChosenForm::Cheaper(parts)) => plan_of(alloc, q, parts, shared),
        Ok(ChosenForm::Parts) => split_plan(alloc, q, shared),
        Err(_) => Err(PartsRefusal::Memory),
    }
}

/// Returns the plan of a query that is no filter, with its numbers, without shared cells or with them: of a compact query its whole form where that fits, as
/// `whole_form` has it, and else its parts, as `parts_plan` has them. The errors are those of `parts_plan`; but for `Memory` none is answered where the whole
/// form fits. The parts of a compact query are made once.
pub fn form_plan(alloc: Global, q: &Query, shared: bool) -> Result<Plan, PartsRefusal>
    requires plain { IsFalse (is_filter q.now) }
    ensures { IsFormAnswer shared q.now result }
{
    if q.compact() {
        compact_plan(alloc, q, shared)
    } else {
        plain_plan(alloc, q, shared)
    }
}
