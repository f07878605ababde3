//! The ranges of columns, by what is told of the part.
ghost use Rattle.std.specs.Prelude.{◌≡◌, ◌<◌, length, Contains};
ghost use Rattle.sem_query.specs.Query.{attrs_of};
ghost use Rattle.sem_query.specs.Parts.{IsPart};
ghost use Rattle.plan_links.specs.Refs.{AreRefs, IsRange};
ghost use Rattle.plan_layout.specs.ColumnPlaces.{attr_at};

use crate::lookup::place_of;
use plan_conditions::domain_of;
use plan_links::{Range, Refs};
use sem_query::{Attr, Domain, Part, Query};

/// Returns the range of the attribute at a place, or none where it is not bounded.
pub fn range_at(q: &Query, p: &Part, refs: &Refs, i: usize) -> Option<Range>
    requires refs { AreRefs q.now p.now.signs.items refs.now }
    requires place { i < length (attrs_of q.now.atoms) }
    ensures { IsRange q.now p.now.signs.items (attr_at q.now i) result }
{
    refs.ranges.as_slice()[i]
}

// The range of a domain.
fn range_in(domain: Domain) -> Range
    ensures { result ≡ record { lo = domain.lo; hi = domain.hi } }
{
    Range {
        lo: domain.lo,
        hi: domain.hi,
    }
}

/// Returns the range of a column that is no attribute: its domain, where it has one.
pub fn domain_range(q: &Query, p: &Part, attr: Attr) -> Option<Range>
    requires part { IsPart q.now p.now.signs.items }
    requires unnamed { ¬ Contains (attrs_of q.now.atoms) attr }
    ensures { IsRange q.now p.now.signs.items attr result }
{
    // Named for the proof alone: the contract speaks of it.
    let _part = p;
    match domain_of(q.domains(), attr) {
        Some(domain) => Some(range_in(domain)),
        None => None,
    }
}

/// Returns the range of a column, or none where it is not bounded.
pub fn range_of(q: &Query, p: &Part, refs: &Refs, attr: Attr) -> Option<Range>
    requires part { IsPart q.now p.now.signs.items }
    requires refs { AreRefs q.now p.now.signs.items refs.now }
    ensures { IsRange q.now p.now.signs.items attr result }
{
    match place_of(q.attrs(), attr) {
        Some(i) => range_at(q, p, refs, i),
        None => domain_range(q, p, attr),
    }
}
