//! The dims of a stream in a part.
ghost use Rattle.std.specs.Prelude.{◌≡◌, ◌≤◌, length};
ghost use Rattle.sem_query.specs.Plan.{dims_at};

use crate::plan::{Dim, PartPlan};

/// Returns the dims of the stream at a place of FROM, none where there is no such place.
pub fn dims_at(part: &PartPlan, place: usize) -> &[Dim]
    ensures value { result.now ≡ dims_at part.now place }
    ensures few { length result.now ≤ 8 }
{
    match part.streams.as_slice().get(place) {
        Some(plan) => plan.dims.as_slice(),
        None => &[],
    }
}
