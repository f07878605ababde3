//! What one part of the split form comes to.
ghost use Rattle.std.specs.Prelude.{◌≡◌, length, IfOk};
ghost use Rattle.plan_split_pairs.specs.Pairs.{split_pairs};
ghost use Rattle.plan_split_parts.specs.Fronts.{IsFrontOf};
ghost use Rattle.sem_forms.specs.Split.{part_query};
ghost use Rattle.plan_whole_form.specs.Part.{IsWholePart};
ghost use Rattle.plan_forms.specs.Drafts.{IsPartOr};

use crate::making::{Made, made_of};
use plan_split_parts::{Front, closed_front};
use plan_whole::ClosedSystem;
use plan_whole_form::{Whole, WholePart, whole_over};
use sem_query::{Break, Condition, Pair, Query};
use std::alloc::{AllocError, Global};

// What is made of a form that breaks no condition, or C3 at the first dim whose own range lacks an end. An error says that memory was not found.
fn made_or(
    alloc: Global,
    closed: &ClosedSystem,
    form: &WholePart,
) -> Result<Result<Made, Break>, AllocError>
    requires { IsWholePart closed.now form.now }
    ensures { IfOk result (IsPartOr closed.now) }
{
    // Named for the proof alone: the system has a solution.
    let _query = closed.query();
    let made = made_of(alloc, closed, form)?;
    match made {
        Ok(made) => Ok(Ok(made)),
        Err(attr) => Ok(Err(Break {
            condition: Condition::C3,
            attr,
        })),
    }
}

/// Returns what is made of the whole form of the part that a front of all pairs tells, or the first condition that it breaks and the first column that
/// shows it. An error says that memory was not found.
pub fn part_of(
    alloc: Global,
    q: &Query,
    pairs: &[Pair],
    front: &Front,
) -> Result<Result<Made, Break>, AllocError>
    requires pairs { pairs.now ≡ split_pairs q.now }
    requires front { IsFrontOf q.now (length pairs.now) front.now }
    ensures { IfOk result (IsPartOr (part_query q.now front.now.signs.items)) }
{
    let closed = closed_front(q, pairs, front);
    // Named for the proof alone: the system has a solution.
    let _query = closed.query();
    match whole_over(alloc, &closed)? {
        Whole::Part(form) => made_or(alloc, &closed, &form),
        Whole::Broken(found) => Ok(Err(found)),
        Whole::Contradiction => unreachable!(),
    }
}
