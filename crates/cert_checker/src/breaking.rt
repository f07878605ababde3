//! The first condition that the part of a good leaf breaks, and the first column that shows it.
ghost use Rattle.std.specs.Prelude.{◌↔◌, IsTrue, Contains};
ghost use Rattle.sem_query.specs.Query.{attrs_of};
ghost use Rattle.sem_query.specs.Links.{HasTwoRefs};
ghost use Rattle.sem_query.specs.declared.condition.Condition.TheVariants.{C1, C2, C3};
ghost use Rattle.sem_query.specs.Violation.{Breaks};
ghost use Rattle.sem_query.specs.FirstBreak.{IsFirstAmong, IsFirstBreak};
ghost use Rattle.cert_checker.specs.OnLeaf.{IsLeaf, IsRef};

use crate::leaf::Leaf;
use crate::links::{Side, has_equality, has_two_refs, is_ref};
use crate::order::{is_among, is_bounded};
use sem_query::{Attr, Break, Condition, first_of_three, sooner_if};

// Whether a column is selected and not bounded.
fn breaks_first(leaf: &Leaf, attr: Attr) -> bool
    requires { IsLeaf leaf.now }
    ensures { IsTrue result ↔ Breaks leaf.now.query.now leaf.now.signs.now C1 attr }
{
    is_among(leaf.query.select(), attr) && !is_bounded(leaf, attr)
}

// Whether an attribute is a side of an equality between streams and not bounded.
fn breaks_second(leaf: &Leaf, attr: Attr) -> bool
    requires leaf { IsLeaf leaf.now }
    requires among { Contains (attrs_of leaf.now.query.now.atoms) attr }
    ensures { IsTrue result ↔ Breaks leaf.now.query.now leaf.now.signs.now C2 attr }
{
    has_equality(leaf, attr) && !is_bounded(leaf, attr)
}

// Whether a reference is one too many: without DISTINCT each is.
fn is_too_many(leaf: &Leaf, side: Side, attr: Attr) -> bool
    requires leaf { IsLeaf leaf.now }
    requires among { Contains (attrs_of leaf.now.query.now.atoms) attr }
    requires reference { IsRef leaf.now.query.now leaf.now.signs.now side attr }
    ensures { IsTrue result ↔ (IsTrue leaf.now.query.now.distinct → HasTwoRefs leaf.now.query.now leaf.now.signs.now attr.stream) }
{
    if leaf.query.distinct() {
        has_two_refs(leaf, side, attr)
    } else {
        true
    }
}

// Whether an attribute is a reference on this side, and one too many.
fn breaks_on(leaf: &Leaf, side: Side, attr: Attr) -> bool
    requires leaf { IsLeaf leaf.now }
    requires among { Contains (attrs_of leaf.now.query.now.atoms) attr }
    ensures { IsTrue result ↔ (IsRef leaf.now.query.now leaf.now.signs.now side attr × (IsTrue leaf.now.query.now.distinct → HasTwoRefs leaf.now.query.now leaf.now.signs.now attr.stream)) }
{
    is_ref(leaf, side, attr) && is_too_many(leaf, side, attr)
}

// Whether an attribute is a reference too many, on either side.
fn breaks_third(leaf: &Leaf, attr: Attr) -> bool
    requires leaf { IsLeaf leaf.now }
    requires among { Contains (attrs_of leaf.now.query.now.atoms) attr }
    ensures { IsTrue result ↔ Breaks leaf.now.query.now leaf.now.signs.now C3 attr }
{
    breaks_on(leaf, Side::Min, attr) || breaks_on(leaf, Side::Max, attr)
}

// Whether the part breaks a condition and an attribute shows it.
fn breaks_at(leaf: &Leaf, condition: Condition, attr: Attr) -> bool
    requires leaf { IsLeaf leaf.now }
    requires among { Contains (attrs_of leaf.now.query.now.atoms) attr }
    ensures { IsTrue result ↔ Breaks leaf.now.query.now leaf.now.signs.now condition attr }
{
    match condition {
        Condition::C1 => breaks_first(leaf, attr),
        Condition::C2 => breaks_second(leaf, attr),
        Condition::C3 => breaks_third(leaf, attr),
    }
}

// The first selected column that is not bounded.
fn first_selected(leaf: &Leaf) -> Option<Attr>
    requires { IsLeaf leaf.now }
    ensures { IsFirstAmong (Breaks leaf.now.query.now leaf.now.signs.now C1) leaf.now.query.now.select result }
{
    let columns = leaf.query.select();
    let mut found = None;
    for i in 0..columns.len() {
        let attr = columns[i];
        let counts = breaks_first(leaf, attr);
        let first = sooner_if(counts, found, attr);
        found = first;
    }
    found
}

// The first attribute that shows that the part breaks a condition.
fn first_attr(leaf: &Leaf, condition: Condition) -> Option<Attr>
    requires { IsLeaf leaf.now }
    ensures { IsFirstAmong (Breaks leaf.now.query.now leaf.now.signs.now condition) (attrs_of leaf.now.query.now.atoms) result }
{
    let columns = leaf.query.attrs();
    let mut found = None;
    for i in 0..columns.len() {
        let attr = columns[i];
        let counts = breaks_at(leaf, condition, attr);
        let first = sooner_if(counts, found, attr);
        found = first;
    }
    found
}

/// Returns the first condition that the part of the leaf breaks, with the first column that shows it, or none where it meets all.
pub fn first_break(leaf: &Leaf) -> Option<Break>
    requires { IsLeaf leaf.now }
    ensures { IsFirstBreak leaf.now.query.now leaf.now.signs.now result }
{
    let first = first_selected(leaf);
    let second = first_attr(leaf, Condition::C2);
    let third = first_attr(leaf, Condition::C3);
    first_of_three(first, second, third)
}
