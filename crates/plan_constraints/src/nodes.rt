//! Elements as nodes, and how two elements stand to each other as constraints.
ghost use Rattle.std.specs.Prelude.{◌≡◌, ◌+◌, ◌<◌, ◌≤◌, ◌≤ℤ◌, ◌+ℤ◌, ◌-ℤ◌, pos, neg_ℤ, length, All};
ghost use Rattle.sem_query.specs.Query.{attrs_of};
ghost use Rattle.sem_query.specs.Order.{IsElement};
ghost use Rattle.plan_constraints.specs.Solutions.{IsWithin};
ghost use Rattle.plan_constraints.specs.Nodes.{place_of, node_of, offset_of, at_most_above, turned, between, constraints_of, SayThat, IsWithinLimit, HasAttr};

use crate::constraint::Constraint;
use arrayvec::ArrayVec;
use sem_query::{Attr, Element, Query, Sign};

/// Returns the place of an attribute among some, or their number where it is none of them.
pub fn place_of(attrs: &[Attr], attr: Attr) -> usize
    ensures value { result ≡ place_of attrs.now attr }
    ensures within { result ≤ length attrs.now }
{
    for (i, a) in attrs.iter().enumerate() {
        if a.stream == attr.stream && a.column == attr.column {
            return i;
        }
    }
    attrs.len()
}

/// Returns the node of an element.
pub fn node(attrs: &[Attr], element: Element) -> u8
    requires { length attrs.now ≤ 12 }
    ensures value { result ≡ node_of attrs.now element }
    ensures within { result ≤ 13 }
{
    match element {
        Element::Attr(attr) => place_of(attrs, attr) as u8 + 1,
        Element::Const(_) => 0,
    }
}

// What an element adds to its node.
fn offset(element: Element) -> i64
    ensures { result ≡ offset_of element }
{
    match element {
        Element::Attr(_) => 0,
        Element::Const(k) => k,
    }
}

/// Returns how much the node of x is above that of y, where x is so much above y.
pub fn difference(x: Element, y: Element, by: i64) -> i64
    requires left { IsWithinLimit x }
    requires right { IsWithinLimit y }
    requires low { neg_ℤ (pos 1) ≤ℤ by }
    requires high { by ≤ℤ pos 0 }
    ensures { result ≡ offset_of y -ℤ offset_of x +ℤ by }
{
    offset(y) - offset(x) + by
}

// Says that the left element is at most `by` above the right one.
fn above(attrs: &[Attr], left: Element, right: Element, by: i64) -> Constraint
    requires few { length attrs.now ≤ 12 }
    requires left { IsWithinLimit left }
    requires right { IsWithinLimit right }
    requires low { neg_ℤ (pos 1) ≤ℤ by }
    requires high { by ≤ℤ pos 0 }
    ensures { result ≡ at_most_above attrs.now left right by }
{
    Constraint {
        left: node(attrs, left),
        right: node(attrs, right),
        bound: difference(left, right, by),
    }
}

/// Returns the sign read from the right.
pub fn turn(sign: Sign) -> Sign
    ensures { result ≡ turned sign }
{
    match sign {
        Sign::Lt => Sign::Gt,
        Sign::Eq => Sign::Eq,
        Sign::Gt => Sign::Lt,
    }
}

// Says that two elements stand so to each other.
fn compared(attrs: &[Attr], left: Element, sign: Sign, right: Element) -> ArrayVec<Constraint, 2>
    requires few { length attrs.now ≤ 12 }
    requires left { IsWithinLimit left }
    requires right { IsWithinLimit right }
    ensures { result.items ≡ between attrs.now left sign right }
{
    let mut list = ArrayVec::new();
    match sign {
        Sign::Lt => list.push(above(attrs, left, right, -1)),
        Sign::Gt => list.push(above(attrs, right, left, -1)),
        Sign::Eq => {
            list.push(above(attrs, left, right, 0));
            list.push(above(attrs, right, left, 0));
        }
    }
    list
}

/// Returns the constraints that two elements of a query stand so to each other: one for less or greater, by a bound that is 1
/// below that of at most, and two for equal. An assignment meets them exactly where it gives the elements this sign. A
/// constant stands on the right, or is first brought there.
pub fn constraints(left: Element, sign: Sign, right: Element, q: &Query) -> ArrayVec<Constraint, 2>
    requires left { IsElement q.now left }
    requires right { IsElement q.now right }
    requires one { HasAttr left right }
    ensures value { result.items ≡ constraints_of (attrs_of q.now.atoms) left sign right }
    ensures within { All (IsWithin (length (attrs_of q.now.atoms))) result.items }
    ensures meaning { SayThat q.now left sign right result.items }
{
    let attrs = q.attrs();
    match left {
        Element::Attr(_) => compared(attrs, left, sign, right),
        Element::Const(_) => compared(attrs, right, turn(sign), left),
    }
}
