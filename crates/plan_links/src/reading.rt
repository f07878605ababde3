//! What holds in a part, read from its bounds.
ghost use Rattle.std.specs.Prelude.{◌≡◌, ◌↔◌, ◌<◌, IsTrue, None, length, slice_index_or};
ghost use Rattle.std.specs.List.{Any, AllZip};
ghost use Rattle.sem_query.specs.declared.atom.Attr.{Attr};
ghost use Rattle.sem_query.specs.Query.{attrs_of};
ghost use Rattle.sem_query.specs.Parts.{IsPart};
ghost use Rattle.sem_query.specs.Links.{IsMinRef, IsMaxRef};
ghost use Rattle.plan_links.specs.Known.{AreKnown, AreBegun, IsBasis};
ghost use Rattle.plan_links.specs.Sifting.{Sifts, AreInequalities};
ghost use Rattle.plan_links.specs.Refs.{IsRange, AreRefs};

use crate::classes::classes;
use crate::known::{Basis, PartDistances, set_distances};
use crate::links::{equalities, inequalities};
use crate::range::{Range, range_at};
use crate::types::Refs;
use arrayvec::ArrayVec;
use plan_closure::Distances;
use sem_query::{Attr, Link, Part, Query};

// The range of each attribute.
fn ranges(q: &Query, p: &Part, bounds: &Distances) -> ArrayVec<Option<Range>, 12>
    requires { AreKnown q.now p.now.signs.items bounds.now }
    ensures { AllZip (IsRange q.now p.now.signs.items) (attrs_of q.now.atoms) result.items }
{
    let mut list = ArrayVec::new();
    for i in 0..q.attrs().len() {
        list.push(range_at(q, p, bounds, i));
    }
    list
}

/// Returns whether a column stands on the left of a link.
pub fn has_left(links: &[Link], attr: Attr) -> bool
    ensures { IsTrue result ↔ Any (λ l. l.left ≡ attr) links.now }
{
    for l in links {
        if l.left == attr {
            return true;
        }
    }
    false
}

/// Returns whether a column stands on the right of a link.
pub fn has_right(links: &[Link], attr: Attr) -> bool
    ensures { IsTrue result ↔ Any (λ l. l.right ≡ attr) links.now }
{
    for l in links {
        if l.right == attr {
            return true;
        }
    }
    false
}

// Whether there is no range at a place.
fn is_unbounded(ranges: &[Option<Range>], i: usize) -> bool
    requires { i < length ranges.now }
    ensures { IsTrue result ↔ slice_index_or ranges.now i None ≡ None }
{
    ranges[i].is_none()
}

// Whether the attribute at a place is unbounded, and stands on the left of an inequality.
fn is_min_ref(q: &Query, p: &Part, ranges: &[Option<Range>], less: &[Link], i: usize) -> bool
    requires ranges { AllZip (IsRange q.now p.now.signs.items) (attrs_of q.now.atoms) ranges.now }
    requires less { AreInequalities q.now p.now.signs.items less.now }
    requires place { i < length (attrs_of q.now.atoms) }
    ensures { (d : Attr) → IsTrue result ↔ IsMinRef q.now p.now.signs.items (slice_index_or (attrs_of q.now.atoms) i d) }
{
    is_unbounded(ranges, i) && has_left(less, q.attrs()[i])
}

// The unbounded attributes on the left of an inequality.
fn min_refs(q: &Query, p: &Part, ranges: &[Option<Range>], less: &[Link]) -> ArrayVec<Attr, 12>
    requires ranges { AllZip (IsRange q.now p.now.signs.items) (attrs_of q.now.atoms) ranges.now }
    requires less { AreInequalities q.now p.now.signs.items less.now }
    ensures { Sifts (IsMinRef q.now p.now.signs.items) (attrs_of q.now.atoms) result.items }
{
    let attrs = q.attrs();
    let mut list = ArrayVec::new();
    for i in 0..attrs.len() {
        if is_min_ref(q, p, ranges, less, i) {
            list.push(attrs[i]);
        }
    }
    list
}

// Whether the attribute at a place is unbounded, and stands on the right of an inequality.
fn is_max_ref(q: &Query, p: &Part, ranges: &[Option<Range>], less: &[Link], i: usize) -> bool
    requires ranges { AllZip (IsRange q.now p.now.signs.items) (attrs_of q.now.atoms) ranges.now }
    requires less { AreInequalities q.now p.now.signs.items less.now }
    requires place { i < length (attrs_of q.now.atoms) }
    ensures { (d : Attr) → IsTrue result ↔ IsMaxRef q.now p.now.signs.items (slice_index_or (attrs_of q.now.atoms) i d) }
{
    is_unbounded(ranges, i) && has_right(less, q.attrs()[i])
}

// The unbounded attributes on the right of an inequality.
fn max_refs(q: &Query, p: &Part, ranges: &[Option<Range>], less: &[Link]) -> ArrayVec<Attr, 12>
    requires ranges { AllZip (IsRange q.now p.now.signs.items) (attrs_of q.now.atoms) ranges.now }
    requires less { AreInequalities q.now p.now.signs.items less.now }
    ensures { Sifts (IsMaxRef q.now p.now.signs.items) (attrs_of q.now.atoms) result.items }
{
    let attrs = q.attrs();
    let mut list = ArrayVec::new();
    for i in 0..attrs.len() {
        if is_max_ref(q, p, ranges, less, i) {
            list.push(attrs[i]);
        }
    }
    list
}

/// Returns what holds in a part of the query. The distances are those of a part that was read before, or of none, and afterwards those of this one.
pub fn refs<'a>(q: &Query, p: &'a Part, basis: &Basis, distances: &mut PartDistances<'a>) -> Refs
    requires part { IsPart q.now p.now.signs.items }
    requires basis { IsBasis q.now basis.now }
    requires begun { AreBegun q.now distances.old }
    ensures refs { AreRefs q.now p.now.signs.items result }
    ensures begun { AreBegun q.now distances.new }
    ensures known { AreKnown q.now p.now.signs.items distances.new.all }
{
    set_distances(q, p, basis, distances);
    let bounds = distances.all();
    let ranges = ranges(q, p, bounds);
    let less = inequalities(q, p, bounds, basis.links());
    let min_ref = min_refs(q, p, ranges.as_slice(), less.as_slice());
    let max_ref = max_refs(q, p, ranges.as_slice(), less.as_slice());
    Refs {
        ranges,
        class: classes(q, p, bounds),
        equal: equalities(q, p, bounds, basis.links()),
        less,
        min_ref,
        max_ref,
    }
}
