//! The parts of a query.
ghost use Rattle.std.specs.Prelude.{◌≡◌, ◌≤◌, length, IfOk};
ghost use Rattle.sem_query.specs.Parts.{AreParts, HasMoreParts, sign_lists};
ghost use Rattle.plan_parts.specs.Split.{OnTooMany};

use crate::error::SplitError;
use crate::soft::{failing_signs, has_denial};
use crate::tree::walk;
use plan_closure::{Distances, choices};
use sem_query::{Part, Query, Signs};
use std::alloc::Global;

/// Returns the parts of the query, ascending: at most 4,096. `TooManyParts` where there are more; `Memory` where the list finds
/// none.
pub fn split(alloc: Global, q: &Query) -> Result<Vec<Part>, SplitError>
    ensures parts { IfOk result (λ parts. AreParts q.now (sign_lists parts.items)) }
    ensures few { IfOk result (λ parts. length parts.items ≤ 4096) }
    ensures over { OnTooMany result (HasMoreParts q.now 4096) }
{
    let mut parts = Vec::new(alloc);
    if has_denial(q) {
        return Ok(parts);
    }
    let mut distances = Distances::of_query(q);
    if !distances.satisfiable() {
        return Ok(parts);
    }
    let choices = choices(q);
    let fails = failing_signs(q);
    match walk(
        q,
        fails.as_slice(),
        choices.as_slice(),
        &mut distances,
        Signs::new(),
        &mut parts,
    ) {
        Ok(()) => Ok(parts),
        Err(why) => Err(why),
    }
}
