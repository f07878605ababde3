//! Bounded columns and equal columns.
ghost use Rattle.std.specs.Prelude.{◌≡◌, ◌↔◌, ◌<◌, IsTrue, Contains, length, slice_index_or, None};
ghost use Rattle.sem_query.specs.declared.atom.Element.TheVariants as element;
ghost use Rattle.sem_query.specs.Query.{attrs_of};
ghost use Rattle.sem_query.specs.Parts.{IsPart};
ghost use Rattle.sem_query.specs.Order.{IsBounded};
ghost use Rattle.sem_query.specs.Links.{AreOneClass};
ghost use Rattle.plan_links.specs.Refs.{AreRefs, IsClassPlace};

use crate::lookup::{domain_of, place_of};
use plan_links::Refs;
use sem_query::{Attr, Part, Query};

// Whether there is a range at a place.
fn has_range(refs: &Refs, i: usize) -> bool
    requires { i < length refs.now.ranges.items }
    ensures { IsTrue result ↔ ¬ (slice_index_or refs.now.ranges.items i None ≡ None) }
{
    refs.ranges.as_slice()[i].is_some()
}

// Whether a column that is no attribute is bounded: it has a domain.
fn has_domain(q: &Query, p: &Part, attr: Attr) -> bool
    requires part { IsPart q.now p.now.signs.items }
    requires unnamed { ¬ Contains (attrs_of q.now.atoms) attr }
    ensures { IsTrue result ↔ IsBounded q.now p.now.signs.items attr }
{
    // Named for the proof alone: the contract speaks of it.
    let _part = p;
    match domain_of(q.domains(), attr) {
        Some(_) => true,
        None => false,
    }
}

/// Returns whether two integers enclose the column over all assignments of the part.
pub fn is_bounded(q: &Query, p: &Part, refs: &Refs, attr: Attr) -> bool
    requires part { IsPart q.now p.now.signs.items }
    requires refs { AreRefs q.now p.now.signs.items refs.now }
    ensures { IsTrue result ↔ IsBounded q.now p.now.signs.items attr }
{
    match place_of(q.attrs(), attr) {
        Some(i) => has_range(refs, i),
        None => has_domain(q, p, attr),
    }
}

// The place of the column that names the class of another.
fn class_of(q: &Query, p: &Part, refs: &Refs, attr: Attr) -> u8
    requires refs { AreRefs q.now p.now.signs.items refs.now }
    requires among { Contains (attrs_of q.now.atoms) attr }
    ensures { IsClassPlace q.now p.now.signs.items attr result }
{
    match place_of(q.attrs(), attr) {
        Some(i) => refs.class.as_slice()[i],
        None => 0,
    }
}

/// Returns whether two attributes are of one class in the part.
pub fn are_one_class(q: &Query, p: &Part, refs: &Refs, a: Attr, b: Attr) -> bool
    requires refs { AreRefs q.now p.now.signs.items refs.now }
    requires left { Contains (attrs_of q.now.atoms) a }
    requires right { Contains (attrs_of q.now.atoms) b }
    ensures { IsTrue result ↔ AreOneClass q.now p.now.signs.items a b }
{
    class_of(q, p, refs, a) == class_of(q, p, refs, b)
}
