//! The closed system of a query, and that of a front.
ghost use Rattle.std.specs.Prelude.{◌≡◌, ◌<◌, ◌≤◌, ◌↔◌, ◌/◌, ◌%◌, length, IsTrue, MatchOption, slice_index_or};
ghost use Rattle.sem_query.specs.Query.{attrs_of, IsWithinLimits};
ghost use Rattle.plan_closure.specs.Shortest.{AreDistancesOf, AreSatisfiable};
ghost use Rattle.plan_split_pairs.specs.Pairs.{split_pairs};
ghost use Rattle.sem_whole.specs.Failing.{Contradicts};
ghost use Rattle.sem_whole.specs.Signed.{with_signs};
ghost use Rattle.plan_whole.specs.Closed.{closed_constraints};
ghost use Rattle.plan_split_parts.specs.Closing.{IsBoundFor, AreBoundsOf};
ghost use Rattle.plan_split_parts.specs.Fronts.{IsFrontOf};

use crate::front::Front;
use plan_closure::Distances;
use plan_whole::{ClosedSystem, closed_at, system_constraints};
use sem_query::{Pair, Query};

/// Returns the distances of the comparisons of a query, and of the domains of its attributes.
pub(crate) fn distances_of(q: &Query) -> Distances
    ensures distances { AreDistancesOf result (length (attrs_of q.now.atoms)) (closed_constraints q.now) }
    ensures limits { IsWithinLimits q.now }
{
    let mut distances = Distances::new(q.attrs().len() as u8);
    distances.add_all(system_constraints(q).as_slice());
    distances
}

// Whether two nodes are there.
fn are_within(left: u8, right: u8, last: u8) -> bool
    ensures { IsTrue result ↔ ((left ≤ last) × (right ≤ last)) }
{
    left <= last && right <= last
}

// The least bound that belongs to a place of a table with 13 to a row.
fn bound_for(distances: &Distances, last: u8, place: u8) -> Option<i64>
    requires satisfiable { AreSatisfiable distances.now }
    requires last { last ≡ distances.now.attrs }
    ensures { IsBoundFor distances.now place result }
{
    let left = place / 13;
    let right = place % 13;
    if are_within(left, right, last) {
        distances.upper(left, right)
    } else {
        None
    }
}

// The table of the least bounds between nodes, of which the last has this number.
fn bounds_of(distances: &Distances, last: u8) -> [Option<i64>; 169]
    requires satisfiable { AreSatisfiable distances.now }
    requires last { last ≡ distances.now.attrs }
    ensures { AreBoundsOf distances.now result }
{
    let mut bounds = [None; 169];
    for place in 0..169 {
        bounds[usize::from(place)] = bound_for(distances, last, place);
    }
    bounds
}

/// Returns the closed system of a query, or none where no assignment solves its system.
pub fn closed_query(q: &Query) -> Option<ClosedSystem<'_>>
    ensures { MatchOption result (Contradicts q.now) (λ s. s ≡ q.now) }
{
    let distances = distances_of(q);
    if !distances.satisfiable() {
        return None;
    }
    let bounds = bounds_of(&distances, q.attrs().len() as u8);
    Some(closed_at(q, &[], &[], &bounds))
}

/// Returns the closed system of a query with the signs of a front of all its split pairs.
pub fn closed_front<'a>(q: &'a Query, pairs: &'a [Pair], front: &'a Front) -> ClosedSystem<'a>
    requires pairs { pairs.now ≡ split_pairs q.now }
    requires front { IsFrontOf q.now (length pairs.now) front.now }
    ensures { result ≡ with_signs pairs.now front.now.signs.items q.now }
{
    let bounds = bounds_of(&front.distances, q.attrs().len() as u8);
    closed_at(q, pairs, front.signs.as_slice(), &bounds)
}
