//! What the bounds of a good leaf say of its part: the order of elements, and which columns are bounded.
ghost use Rattle.std.specs.Prelude.{◌≡◌, ◌↔◌, ◌≤◌, ◌≤ℤ◌, pos, neg_ℤ, IsTrue, Contains, None};
ghost use Rattle.std.specs.List.{list_any};
ghost use Rattle.sem_query.specs.Query.{attr_eq, attrs_of};
ghost use Rattle.sem_query.specs.Order.{IsElement, IsLess, IsEqual, IsBounded};
ghost use Rattle.cert_checker.specs.Bounds.{bound_at};
ghost use Rattle.cert_checker.specs.OnLeaf.{IsLeaf, SaysAbove};

use crate::bounds::{between, is_at_most};
use crate::leaf::Leaf;
use plan_constraints::{difference, node, place_of};
use sem_query::{Attr, Domain, Element};

/// Returns whether a column is among some.
pub fn is_among(columns: &[Attr], attr: Attr) -> bool
    ensures { IsTrue result ↔ Contains columns.now attr }
{
    place_of(columns, attr) < columns.len()
}

// Whether a bound says that x is at most so much above y.
fn says_above(leaf: &Leaf, x: Element, y: Element, by: i64) -> bool
    requires left { IsElement leaf.now.query.now x }
    requires right { IsElement leaf.now.query.now y }
    requires low { neg_ℤ (pos 1) ≤ℤ by }
    requires high { by ≤ℤ pos 0 }
    ensures { IsTrue result ↔ SaysAbove leaf.now.query.now leaf.now.bounds.now x y by }
{
    let attrs = leaf.query.attrs();
    let bound = between(leaf.bounds, node(attrs, x), node(attrs, y));
    is_at_most(bound, difference(x, y, by))
}

/// Returns whether x is less than y in every assignment of the part.
pub fn is_less(leaf: &Leaf, x: Element, y: Element) -> bool
    requires leaf { IsLeaf leaf.now }
    requires left { IsElement leaf.now.query.now x }
    requires right { IsElement leaf.now.query.now y }
    ensures { IsTrue result ↔ IsLess leaf.now.query.now leaf.now.signs.now x y }
{
    says_above(leaf, x, y, -1)
}

/// Returns whether x is equal to y in every assignment of the part.
pub fn is_equal(leaf: &Leaf, x: Element, y: Element) -> bool
    requires leaf { IsLeaf leaf.now }
    requires left { IsElement leaf.now.query.now x }
    requires right { IsElement leaf.now.query.now y }
    ensures { IsTrue result ↔ IsEqual leaf.now.query.now leaf.now.signs.now x y }
{
    says_above(leaf, x, y, 0) && says_above(leaf, y, x, 0)
}

// Whether there is a bound of a node above another.
fn has_bound(bounds: &[Option<i64>; 169], left: u8, right: u8) -> bool
    ensures { IsTrue result ↔ ¬ (bound_at bounds.now left right ≡ None) }
{
    between(bounds, left, right).is_some()
}

// Whether an attribute has a bound above the number 0, and the number 0 one above it.
fn is_enclosed(leaf: &Leaf, attr: Attr) -> bool
    requires leaf { IsLeaf leaf.now }
    requires among { Contains (attrs_of leaf.now.query.now.atoms) attr }
    ensures { IsTrue result ↔ IsBounded leaf.now.query.now leaf.now.signs.now attr }
{
    let place = node(leaf.query.attrs(), Element::Attr(attr));
    has_bound(leaf.bounds, place, 0) && has_bound(leaf.bounds, 0, place)
}

// Whether a column has a domain.
fn has_domain(domains: &[Domain], attr: Attr) -> bool
    ensures { result ≡ list_any (λ d. attr_eq d.attr attr) domains.now }
{
    domains.iter().any(|d| d.attr.stream == attr.stream && d.attr.column == attr.column)
}

/// Returns whether two integers enclose the column over all assignments of the part. Where no comparison names it, they do exactly
/// where it has a domain.
pub fn is_bounded(leaf: &Leaf, attr: Attr) -> bool
    requires leaf { IsLeaf leaf.now }
    ensures { IsTrue result ↔ IsBounded leaf.now.query.now leaf.now.signs.now attr }
{
    if is_among(leaf.query.attrs(), attr) {
        is_enclosed(leaf, attr)
    } else {
        has_domain(leaf.query.domains(), attr)
    }
}
