//! References that break the third condition.
ghost use Rattle.std.specs.Prelude.{◌≡◌, ◌↔◌, IsTrue, Contains};
ghost use Rattle.std.specs.List.{Any};
ghost use Rattle.sem_query.specs.Query.{attrs_of};
ghost use Rattle.sem_query.specs.Links.{IsMinRef, IsMaxRef, HasTwoRefs};
ghost use Rattle.sem_query.specs.declared.condition.Condition.TheVariants.{C3};
ghost use Rattle.sem_query.specs.Violation.{Breaks};
ghost use Rattle.plan_links.specs.Refs.{AreRefs};
ghost use Rattle.plan_conditions.specs.Deciding.{AreNamedAll, IsOther};

use crate::bounded::are_one_class;
use crate::lookup::{has_stream, is_among};
use plan_links::Refs;
use sem_query::{Attr, Part, Query};

// Whether a column is of the stream of another, and not of its class.
fn is_other(q: &Query, p: &Part, refs: &Refs, a: Attr, b: Attr) -> bool
    requires refs { AreRefs q.now p.now.signs.items refs.now }
    requires left { Contains (attrs_of q.now.atoms) a }
    requires right { Contains (attrs_of q.now.atoms) b }
    ensures { IsTrue result ↔ IsOther q.now p.now.signs.items a b }
{
    a.stream == b.stream && !are_one_class(q, p, refs, a, b)
}

// Whether some column is of the stream of another, and not of its class.
fn has_other(q: &Query, p: &Part, refs: &Refs, columns: &[Attr], attr: Attr) -> bool
    requires refs { AreRefs q.now p.now.signs.items refs.now }
    requires columns { AreNamedAll q.now columns.now }
    requires among { Contains (attrs_of q.now.atoms) attr }
    ensures { IsTrue result ↔ Any (IsOther q.now p.now.signs.items attr) columns.now }
{
    for i in 0..columns.len() {
        if is_other(q, p, refs, attr, columns[i]) {
            return true;
        }
    }
    false
}

// Whether the stream of a reference on the left has another that is not of its class on the left.
fn has_two_with_min(q: &Query, p: &Part, refs: &Refs, attr: Attr) -> bool
    requires refs { AreRefs q.now p.now.signs.items refs.now }
    requires reference { IsMinRef q.now p.now.signs.items attr }
    ensures { IsTrue result ↔ HasTwoRefs q.now p.now.signs.items attr.stream }
{
    has_stream(refs.max_ref.as_slice(), attr.stream)
        || has_other(q, p, refs, refs.min_ref.as_slice(), attr)
}

// Whether the stream of a reference on the right has another that is not of its class on the right.
fn has_two_with_max(q: &Query, p: &Part, refs: &Refs, attr: Attr) -> bool
    requires refs { AreRefs q.now p.now.signs.items refs.now }
    requires reference { IsMaxRef q.now p.now.signs.items attr }
    ensures { IsTrue result ↔ HasTwoRefs q.now p.now.signs.items attr.stream }
{
    has_stream(refs.min_ref.as_slice(), attr.stream)
        || has_other(q, p, refs, refs.max_ref.as_slice(), attr)
}

// Whether a reference on the left is one too many: without DISTINCT each is.
fn is_too_many_min(q: &Query, p: &Part, refs: &Refs, attr: Attr) -> bool
    requires refs { AreRefs q.now p.now.signs.items refs.now }
    requires reference { IsMinRef q.now p.now.signs.items attr }
    ensures { IsTrue result ↔ (IsTrue q.now.distinct → HasTwoRefs q.now p.now.signs.items attr.stream) }
{
    if q.distinct() {
        has_two_with_min(q, p, refs, attr)
    } else {
        true
    }
}

// Whether a column is a reference on the left, and one too many.
fn breaks_as_min(q: &Query, p: &Part, refs: &Refs, attr: Attr) -> bool
    requires refs { AreRefs q.now p.now.signs.items refs.now }
    ensures { IsTrue result ↔ (IsMinRef q.now p.now.signs.items attr × (IsTrue q.now.distinct → HasTwoRefs q.now p.now.signs.items attr.stream)) }
{
    is_among(refs.min_ref.as_slice(), attr) && is_too_many_min(q, p, refs, attr)
}

// Whether a reference on the right is one too many: without DISTINCT each is.
fn is_too_many_max(q: &Query, p: &Part, refs: &Refs, attr: Attr) -> bool
    requires refs { AreRefs q.now p.now.signs.items refs.now }
    requires reference { IsMaxRef q.now p.now.signs.items attr }
    ensures { IsTrue result ↔ (IsTrue q.now.distinct → HasTwoRefs q.now p.now.signs.items attr.stream) }
{
    if q.distinct() {
        has_two_with_max(q, p, refs, attr)
    } else {
        true
    }
}

// Whether a column is a reference on the right, and one too many.
fn breaks_as_max(q: &Query, p: &Part, refs: &Refs, attr: Attr) -> bool
    requires refs { AreRefs q.now p.now.signs.items refs.now }
    ensures { IsTrue result ↔ (IsMaxRef q.now p.now.signs.items attr × (IsTrue q.now.distinct → HasTwoRefs q.now p.now.signs.items attr.stream)) }
{
    is_among(refs.max_ref.as_slice(), attr) && is_too_many_max(q, p, refs, attr)
}

/// Returns whether a column is a reference too many: any without DISTINCT, and with it one whose stream has references that are
/// not of one class on one side.
pub fn breaks_third(q: &Query, p: &Part, refs: &Refs, attr: Attr) -> bool
    requires refs { AreRefs q.now p.now.signs.items refs.now }
    ensures { IsTrue result ↔ Breaks q.now p.now.signs.items C3 attr }
{
    breaks_as_min(q, p, refs, attr) || breaks_as_max(q, p, refs, attr)
}
