//! What a cell of a stream keeps.
ghost use Rattle.std.specs.Prelude.{◌≡◌, ◌↔◌, ◌<◌, IsTrue, length};
ghost use Rattle.sem_query.specs.Query.{attrs_of};
ghost use Rattle.sem_query.specs.Plan.{IsKind};
ghost use Rattle.plan_links.specs.Refs.{AreRefs};
ghost use Rattle.plan_conditions.specs.Deciding.{AreNamedAll};
ghost use Rattle.plan_layout.specs.ColumnPlaces.{attr_at};
ghost use Rattle.plan_layout.specs.Classes.{IsNameAmong, IsSomeName};

use crate::classes::names_of;
use crate::lookup::{attr_at, attr_count, is_among};
use plan_links::Refs;
use sem_query::{Attr, Kind, Part, Query};

// Whether the attribute at a place is one of some columns, and names a class of the stream.
fn is_name_among(q: &Query, p: &Part, refs: &Refs, columns: &[Attr], place: usize, i: usize) -> bool
    requires refs { AreRefs q.now p.now.signs.items refs.now }
    requires place { i < length (attrs_of q.now.atoms) }
    ensures { IsTrue result ↔ IsNameAmong q.now p.now.signs.items columns.now place (attr_at q.now i) }
{
    names_of(q, p, refs, place, i) && is_among(columns, attr_at(q, i))
}

// One of some columns that names a class of the stream, or none.
fn name_among(q: &Query, p: &Part, refs: &Refs, columns: &[Attr], place: usize) -> Option<Attr>
    requires refs { AreRefs q.now p.now.signs.items refs.now }
    requires columns { AreNamedAll q.now columns.now }
    ensures { IsSomeName q.now p.now.signs.items columns.now place result }
{
    for i in 0..attr_count(q) {
        if is_name_among(q, p, refs, columns, place, i) {
            return Some(attr_at(q, i));
        }
    }
    None
}

/// Returns what a cell of the stream at a place of FROM keeps.
pub fn kind_of(q: &Query, p: &Part, refs: &Refs, place: usize) -> Kind
    requires { AreRefs q.now p.now.signs.items refs.now }
    ensures { IsKind q.now p.now.signs.items place result }
{
    if !q.distinct() {
        return Kind::Count;
    }
    match name_among(q, p, refs, refs.min_ref.as_slice(), place) {
        Some(attr) => Kind::Least(attr),
        None => match name_among(q, p, refs, refs.max_ref.as_slice(), place) {
            Some(attr) => Kind::Greatest(attr),
            None => Kind::Present,
        },
    }
}
