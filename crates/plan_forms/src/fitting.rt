//! The plan of the whole form of a query, where it fits.
ghost use Rattle.std.specs.Prelude.{◌≡◌, ◌↔◌, ◌≤◌, IsTrue, IfOk, None, length, map, nat_eq};
ghost use Rattle.std.specs.List.{sum_by};
ghost use Rattle.sem_query.specs.Verdict.{first_above};
ghost use Rattle.plan_whole_form.specs.Part.{IsWhole, IsWholePart};
ghost use Rattle.plan_whole_form.specs.Numbers.{capped, cells_with, dims_in};
ghost use Rattle.plan_forms.specs.Fitting.{IsFitted};
ghost use Rattle.plan_forms.specs.Made.{of_one, IsPlacedFrom};

use crate::making::{Made, made_of};
use crate::placing::placed;
use arrayvec::ArrayVec;
use plan_split_parts::closed_query;
use plan_whole::ClosedSystem;
use plan_whole_form::{PartNumbers, Whole, WholePart, whole_over};
use sem_query::{Numbers, PartPlan, Query};
use std::alloc::{AllocError, Global};

/// The plan of the whole form of a query, with its numbers.
#[derive(Drop)]
pub struct WholePlan {
    pub part: PartPlan,
    pub numbers: Numbers,
}

/// Returns whether no number is above its limit.
pub fn is_within(numbers: PartNumbers) -> bool
    ensures { IsTrue result ↔ (first_above (of_one numbers) ≡ None) }
{
    if numbers.cells > 262_144 {
        return false;
    }
    if numbers.answers > 65_536 {
        return false;
    }
    numbers.work <= 4_194_304
}

// Numbers within their limits as those of a plan.
fn of_one(numbers: PartNumbers) -> Numbers
    requires { first_above (of_one numbers) ≡ None }
    ensures { result ≡ of_one numbers }
{
    Numbers {
        parts: 1,
        cells: numbers.cells as u32,
        answers: numbers.answers as u32,
        work: numbers.work as u32,
    }
}

// The plan of what is made, its boxes from cell 0 on, with its numbers.
fn plan_of(made: Made) -> WholePlan
    requires few { first_above (of_one made.numbers) ≡ None }
    requires cells { made.numbers.cells ≡ capped (cells_with (dims_in made.streams.items)) }
    ensures part { IsPlacedFrom made 0 result.part }
    ensures numbers { result.numbers ≡ of_one made.numbers }
{
    let Made {
        streams,
        equal,
        less,
        soft,
        local,
        numbers,
        selected: _selected,
    } = made;
    WholePlan {
        part: PartPlan {
            signs: ArrayVec::new(),
            local,
            streams: placed(streams.as_slice()),
            equal,
            less,
            soft,
        },
        numbers: of_one(numbers),
    }
}

// The plan of the one part of a query, where it fits. An error says that memory was not found.
fn fitted(
    alloc: Global,
    closed: &ClosedSystem,
    part: &WholePart,
) -> Result<Option<WholePlan>, AllocError>
    requires { IsWholePart closed.now part.now }
    ensures { IfOk result (IsFitted closed.now) }
{
    // Named for the proof alone: the query is well formed.
    let _query = closed.query();
    match made_of(alloc, closed, part)? {
        Ok(whole) => {
            if is_within(whole.numbers) {
                Ok(Some(plan_of(whole)))
            } else {
                Ok(None)
            }
        }
        Err(_open) => Ok(None),
    }
}

// The plan of the whole form of a query whose system does not contradict itself, where it fits. An error says that memory was not found.
fn fitting(alloc: Global, closed: &ClosedSystem) -> Result<Option<WholePlan>, AllocError>
    ensures { IfOk result (IsFitted closed.now) }
{
    // Named for the proof alone: the query is well formed.
    let _query = closed.query();
    match whole_over(alloc, closed)? {
        Whole::Part(part) => fitted(alloc, closed, &part),
        Whole::Broken(_found) => Ok(None),
        Whole::Contradiction => Ok(None),
    }
}

/// Returns the plan of a query as one part, with its numbers: what the rows of each stream are asked, of each class that is read its own range,
/// an equality for each two of these that are equal in each solution, and the other links; the boxes follow each other by FROM, from cell 0 on.
/// None where the system of the query contradicts itself, where a range lacks an end, or where a number is above its limit. An error says that
/// memory was not found.
pub fn whole_plan(alloc: Global, q: &Query) -> Result<Option<WholePlan>, AllocError>
    ensures { IfOk result (IsFitted q.now) }
{
    // Named for the proof alone: the query is within its limits.
    let _from = q.from();
    match closed_query(q) {
        None => Ok(None),
        Some(closed) => fitting(alloc, &closed),
    }
}
