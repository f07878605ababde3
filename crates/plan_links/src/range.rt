//! The least and the greatest value of an attribute.
ghost use Rattle.std.specs.Prelude.{◌≡◌, ◌<◌, ◌+◌, ◌≤◌, ◌≤ℤ◌, Some, length, get_or, slice_index_or};
ghost use Rattle.sem_query.specs.declared.atom.Attr.{Attr};
ghost use Rattle.sem_query.specs.Query.{attrs_of};
ghost use Rattle.plan_links.specs.Known.{AreKnown};
ghost use Rattle.plan_links.specs.Refs.{IsRangeAt, between_of};

use plan_closure::Distances;
use sem_query::{Part, Query};

/// The least and the greatest value of an attribute in a part.
#[derive(Clone, Copy, Debug, Default, PartialEq, Eq)]
pub struct Range {
    pub lo: i64,
    pub hi: i64,
}

// The range between two bounds, where both are there.
fn range_between(low: Option<i64>, high: Option<i64>) -> Option<Range>
    ensures { result ≡ between_of low high }
{
    match low {
        Some(lo) => match high {
            Some(hi) => Some(Range { lo, hi }),
            None => None,
        },
        None => None,
    }
}

// The node of the attribute at a place.
fn node_at(i: usize) -> u8
    requires { i < 12 }
    ensures { result ≡ i + 1 }
{
    i as u8 + 1
}

/// Returns the range of the attribute at a place, or none where it is not bounded.
pub fn range_at(q: &Query, p: &Part, bounds: &Distances, i: usize) -> Option<Range>
    requires known { AreKnown q.now p.now.signs.items bounds.now }
    requires place { i < length (attrs_of q.now.atoms) }
    ensures { IsRangeAt q.now p.now.signs.items i result }
{
    let node = node_at(i);
    range_between(bounds.lo(node), bounds.hi(node))
}
