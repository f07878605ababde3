//! The order of two elements in a part.
ghost use Rattle.std.specs.Prelude.{◌↔◌, ◌≤ℤ◌, IsTrue, pos, neg_ℤ};
ghost use Rattle.sem_query.specs.Query.{attrs_of};
ghost use Rattle.sem_query.specs.Order.{IsLess, IsEqual};
ghost use Rattle.plan_constraints.specs.Nodes.{IsAlwaysAbove};
ghost use Rattle.plan_constraints.specs.PartConstraints.{of_prefix};
ghost use Rattle.plan_links.specs.Known.{AreKnown};
ghost use Rattle.plan_links.specs.Placed.{IsPlaced};

use crate::placed::Placed;
use plan_closure::Distances;
use plan_constraints::difference;
use sem_query::{Part, Query};

// Whether x is at most `by` above y in all solutions.
fn keeps(q: &Query, p: &Part, bounds: &Distances, x: Placed, y: Placed, by: i64) -> bool
    requires known { AreKnown q.now p.now.signs.items bounds.now }
    requires left { IsPlaced q.now x }
    requires right { IsPlaced q.now y }
    requires low { neg_ℤ (pos 1) ≤ℤ by }
    requires high { by ≤ℤ pos 0 }
    ensures { IsTrue result ↔ IsAlwaysAbove (attrs_of q.now.atoms) (of_prefix q.now p.now.signs.items) x.element y.element by }
{
    // Named for the proof alone: the contract speaks of them.
    let _query = q;
    let _part = p;
    match bounds.upper(x.node, y.node) {
        Some(bound) => bound <= difference(x.element, y.element, by),
        None => false,
    }
}

/// Returns whether x is less than y in every assignment of the part.
pub fn is_less(q: &Query, p: &Part, bounds: &Distances, x: Placed, y: Placed) -> bool
    requires known { AreKnown q.now p.now.signs.items bounds.now }
    requires left { IsPlaced q.now x }
    requires right { IsPlaced q.now y }
    ensures { IsTrue result ↔ IsLess q.now p.now.signs.items x.element y.element }
{
    keeps(q, p, bounds, x, y, -1)
}

/// Returns whether x is equal to y in every assignment of the part.
pub fn is_equal(q: &Query, p: &Part, bounds: &Distances, x: Placed, y: Placed) -> bool
    requires known { AreKnown q.now p.now.signs.items bounds.now }
    requires left { IsPlaced q.now x }
    requires right { IsPlaced q.now y }
    ensures { IsTrue result ↔ IsEqual q.now p.now.signs.items x.element y.element }
{
    if keeps(q, p, bounds, x, y, 0) {
        keeps(q, p, bounds, y, x, 0)
    } else {
        false
    }
}
