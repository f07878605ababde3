//! The dims of a stream.
ghost use Rattle.std.specs.Prelude.{◌≡◌, ◌↔◌, ◌<◌, ◌||◌, IsTrue, Contains, length};
ghost use Rattle.sem_query.specs.Query.{attrs_of, IsWithinLimits};
ghost use Rattle.sem_query.specs.Parts.{IsPart};
ghost use Rattle.sem_query.specs.Plan.{IsWanted, AreDims};
ghost use Rattle.plan_links.specs.Refs.{AreRefs};
ghost use Rattle.plan_layout.specs.ColumnPlaces.{attr_at, is_side};
ghost use Rattle.plan_layout.specs.Classes.{IsWantedMember, HasWanted, NamesWanted, IsDimAt};

use crate::classes::{are_one_class, names_of};
use crate::lookup::{attr_at, attr_count, is_among, is_linked, place_of};
use crate::ranges::{domain_range, range_at};
use arrayvec::ArrayVec;
use plan_links::{Range, Refs};
use sem_query::{Attr, Dim, Part, Query};

// Whether a column is a side of a link of the part.
fn is_in_link(refs: &Refs, attr: Attr) -> bool
    ensures { result ≡ (is_side refs.now.equal.items attr || is_side refs.now.less.items attr) }
{
    is_linked(refs.equal.as_slice(), attr) || is_linked(refs.less.as_slice(), attr)
}

// Whether answers read a column: it is selected, or a side of a link.
fn is_wanted(q: &Query, p: &Part, refs: &Refs, attr: Attr) -> bool
    requires { AreRefs q.now p.now.signs.items refs.now }
    ensures { IsTrue result ↔ IsWanted q.now p.now.signs.items attr }
{
    is_among(q.select(), attr) || is_in_link(refs, attr)
}

// Whether the attribute at place j is of the class of that at place i, and answers read it.
fn is_wanted_member(q: &Query, p: &Part, refs: &Refs, i: usize, j: usize) -> bool
    requires refs { AreRefs q.now p.now.signs.items refs.now }
    requires left { i < length (attrs_of q.now.atoms) }
    requires right { j < length (attrs_of q.now.atoms) }
    ensures { IsTrue result ↔ IsWantedMember q.now p.now.signs.items (attr_at q.now i) (attr_at q.now j) }
{
    are_one_class(q, p, refs, i, j) && is_wanted(q, p, refs, attr_at(q, j))
}

// Whether answers read a member of the class of the attribute at a place.
fn has_wanted(q: &Query, p: &Part, refs: &Refs, i: usize) -> bool
    requires refs { AreRefs q.now p.now.signs.items refs.now }
    requires place { i < length (attrs_of q.now.atoms) }
    ensures { IsTrue result ↔ HasWanted q.now p.now.signs.items (attr_at q.now i) }
{
    for j in 0..attr_count(q) {
        if is_wanted_member(q, p, refs, i, j) {
            return true;
        }
    }
    false
}

// Whether the attribute at a place names a class of the stream, and answers read a member of that class.
fn names_wanted(q: &Query, p: &Part, refs: &Refs, place: usize, i: usize) -> bool
    requires refs { AreRefs q.now p.now.signs.items refs.now }
    requires place { i < length (attrs_of q.now.atoms) }
    ensures { IsTrue result ↔ NamesWanted q.now p.now.signs.items place (attr_at q.now i) }
{
    names_of(q, p, refs, place, i) && has_wanted(q, p, refs, i)
}

// The dim that a column with this range names.
fn dim_of(attr: Attr, range: Range) -> Dim
    ensures { result ≡ record { attr = attr; lo = range.lo; hi = range.hi } }
{
    Dim {
        attr,
        lo: range.lo,
        hi: range.hi,
    }
}

// The dim of the stream that the attribute at a place names, or none.
fn dim_at(q: &Query, p: &Part, refs: &Refs, place: usize, i: usize) -> Option<Dim>
    requires refs { AreRefs q.now p.now.signs.items refs.now }
    requires place { i < length (attrs_of q.now.atoms) }
    ensures { IsDimAt q.now p.now.signs.items place (attr_at q.now i) result }
{
    if !names_wanted(q, p, refs, place, i) {
        return None;
    }
    match range_at(q, p, refs, i) {
        Some(range) => Some(dim_of(attr_at(q, i), range)),
        None => None,
    }
}

// The dim of the stream that a column names which is no attribute, or none: it is selected and has a domain.
fn dim_alone(q: &Query, p: &Part, place: usize, attr: Attr) -> Option<Dim>
    requires part { IsPart q.now p.now.signs.items }
    requires unnamed { ¬ Contains (attrs_of q.now.atoms) attr }
    requires here { attr.stream ≡ place }
    ensures { IsDimAt q.now p.now.signs.items place attr result }
{
    if !is_among(q.select(), attr) {
        return None;
    }
    match domain_range(q, p, attr) {
        Some(range) => Some(dim_of(attr, range)),
        None => None,
    }
}

// The dim of the stream that a column of it names, or none.
fn dim_named(q: &Query, p: &Part, refs: &Refs, place: usize, attr: Attr) -> Option<Dim>
    requires part { IsPart q.now p.now.signs.items }
    requires refs { AreRefs q.now p.now.signs.items refs.now }
    requires here { attr.stream ≡ place }
    ensures { IsDimAt q.now p.now.signs.items place attr result }
{
    match place_of(q.attrs(), attr) {
        Some(i) => dim_at(q, p, refs, place, i),
        None => dim_alone(q, p, place, attr),
    }
}

/// Returns the dims of the stream at a place of FROM.
pub fn dims(q: &Query, p: &Part, refs: &Refs, place: usize) -> ArrayVec<Dim, 8>
    requires limits { IsWithinLimits q.now }
    requires part { IsPart q.now p.now.signs.items }
    requires refs { AreRefs q.now p.now.signs.items refs.now }
    requires place { place < 4 }
    ensures { AreDims q.now p.now.signs.items place result.items }
{
    let mut list = ArrayVec::new();
    for i in 0..8u8 {
        let attr = Attr {
            stream: place as u8,
            column: i,
        };
        match dim_named(q, p, refs, place, attr) {
            Some(dim) => list.push(dim),
            None => {}
        }
    }
    list
}
