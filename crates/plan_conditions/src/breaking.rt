//! The first condition that a part breaks, and the first column that shows it.
ghost use Rattle.std.specs.Prelude.{◌↔◌, IsTrue};
ghost use Rattle.sem_query.specs.declared.condition.Condition.TheVariants.{C1, C2, C3};
ghost use Rattle.sem_query.specs.Parts.{IsPart};
ghost use Rattle.sem_query.specs.Violation.{Breaks};
ghost use Rattle.sem_query.specs.FirstBreak.{IsFirst, IsFirstAmong, IsFirstBreak};
ghost use Rattle.plan_links.specs.Refs.{AreRefs};
ghost use Rattle.plan_conditions.specs.Deciding.{IsInEquality};

use crate::bounded::is_bounded;
use crate::lookup::is_among;
use crate::references::breaks_third;
use plan_links::{Refs, has_left, has_right};
use sem_query::{Attr, Break, Condition, Part, Query, first_of_three, sooner_if};

// Whether a column is selected and not bounded.
fn breaks_first(q: &Query, p: &Part, refs: &Refs, attr: Attr) -> bool
    requires part { IsPart q.now p.now.signs.items }
    requires refs { AreRefs q.now p.now.signs.items refs.now }
    ensures { IsTrue result ↔ Breaks q.now p.now.signs.items C1 attr }
{
    is_among(q.select(), attr) && !is_bounded(q, p, refs, attr)
}

// Whether a column is a side of an equality between streams.
fn is_in_equality(q: &Query, p: &Part, refs: &Refs, attr: Attr) -> bool
    requires refs { AreRefs q.now p.now.signs.items refs.now }
    ensures { IsTrue result ↔ IsInEquality q.now p.now.signs.items attr }
{
    has_left(refs.equal.as_slice(), attr) || has_right(refs.equal.as_slice(), attr)
}

// Whether a column is a side of an equality between streams and not bounded.
fn breaks_second(q: &Query, p: &Part, refs: &Refs, attr: Attr) -> bool
    requires part { IsPart q.now p.now.signs.items }
    requires refs { AreRefs q.now p.now.signs.items refs.now }
    ensures { IsTrue result ↔ Breaks q.now p.now.signs.items C2 attr }
{
    is_in_equality(q, p, refs, attr) && !is_bounded(q, p, refs, attr)
}

// Whether the part breaks a condition and a column shows it.
fn breaks(q: &Query, p: &Part, refs: &Refs, condition: Condition, attr: Attr) -> bool
    requires part { IsPart q.now p.now.signs.items }
    requires refs { AreRefs q.now p.now.signs.items refs.now }
    ensures { IsTrue result ↔ Breaks q.now p.now.signs.items condition attr }
{
    match condition {
        Condition::C1 => breaks_first(q, p, refs, attr),
        Condition::C2 => breaks_second(q, p, refs, attr),
        Condition::C3 => breaks_third(q, p, refs, attr),
    }
}

// The first of some columns that shows that the part breaks a condition.
fn first_among(
    q: &Query,
    p: &Part,
    refs: &Refs,
    condition: Condition,
    columns: &[Attr],
) -> Option<Attr>
    requires part { IsPart q.now p.now.signs.items }
    requires refs { AreRefs q.now p.now.signs.items refs.now }
    ensures { IsFirstAmong (Breaks q.now p.now.signs.items condition) columns.now result }
{
    let mut found = None;
    for i in 0..columns.len() {
        let attr = columns[i];
        let counts = breaks(q, p, refs, condition, attr);
        let first = sooner_if(counts, found, attr);
        found = first;
    }
    found
}

// The first selected column that is not bounded.
fn first_unbounded_selected(q: &Query, p: &Part, refs: &Refs) -> Option<Attr>
    requires part { IsPart q.now p.now.signs.items }
    requires refs { AreRefs q.now p.now.signs.items refs.now }
    ensures { IsFirst (Breaks q.now p.now.signs.items C1) result }
{
    first_among(q, p, refs, Condition::C1, q.select())
}

// The first column that is a side of an equality between streams and not bounded.
fn first_unbounded_equal(q: &Query, p: &Part, refs: &Refs) -> Option<Attr>
    requires part { IsPart q.now p.now.signs.items }
    requires refs { AreRefs q.now p.now.signs.items refs.now }
    ensures { IsFirst (Breaks q.now p.now.signs.items C2) result }
{
    first_among(q, p, refs, Condition::C2, q.attrs())
}

// The first column that is a reference too many.
fn first_reference(q: &Query, p: &Part, refs: &Refs) -> Option<Attr>
    requires part { IsPart q.now p.now.signs.items }
    requires refs { AreRefs q.now p.now.signs.items refs.now }
    ensures { IsFirst (Breaks q.now p.now.signs.items C3) result }
{
    first_among(q, p, refs, Condition::C3, q.attrs())
}

/// Returns the first condition that the part breaks with the first column that shows it, or none where it meets all.
pub fn violation_of(q: &Query, p: &Part, refs: &Refs) -> Option<Break>
    requires part { IsPart q.now p.now.signs.items }
    requires refs { AreRefs q.now p.now.signs.items refs.now }
    ensures { IsFirstBreak q.now p.now.signs.items result }
{
    let first = first_unbounded_selected(q, p, refs);
    let second = first_unbounded_equal(q, p, refs);
    let third = first_reference(q, p, refs);
    first_of_three(first, second, third)
}
