//! Values of the attributes of a query.
ghost use Rattle.std.specs.Prelude.{◌≡◌, length, IsTrue};
ghost use Rattle.std.specs.List.{All};
ghost use Rattle.sem_query.specs.Query.{attrs_of};
ghost use Rattle.sem_query.specs.Assignment.{value, compares, meets, holds, lies_in};
ghost use Rattle.fam_motions.specs.Values.{valued, IsFarWithin, KeepsTo, IsSolution};

use arrayvec::ArrayVec;
use plan_constraints::place_of;
use sem_query::{Atom, Attr, Domain, Element, Op, Query};

/// A value for each attribute of a query, in order.
pub type Values = ArrayVec<i128, 12>;

/// Returns the value of an attribute, and 0 of another column.
pub fn value_of(attrs: &[Attr], values: &[i128], attr: Attr) -> i128
    ensures { result ≡ valued attrs.now values.now attr }
{
    let place = place_of(attrs, attr);
    if place < values.len() {
        values[place]
    } else {
        0
    }
}

// The value of an element.
fn element_value(attrs: &[Attr], values: &[i128], element: Element) -> i128
    ensures { result ≡ value element (valued attrs.now values.now) }
{
    match element {
        Element::Attr(attr) => value_of(attrs, values, attr),
        Element::Const(integer) => i128::from(integer),
    }
}

/// Returns whether two integers stand to each other in this way.
pub fn compares(op: Op, left: i128, right: i128) -> bool
    ensures { result ≡ compares op left right }
{
    match op {
        Op::Lt => left < right,
        Op::Eq => left == right,
        Op::Gt => left > right,
        Op::Le => left <= right,
        Op::Ge => left >= right,
        Op::Ne => left != right,
    }
}

// Whether a comparison holds.
fn is_met(attrs: &[Attr], values: &[i128], atom: &Atom) -> bool
    ensures { result ≡ meets (valued attrs.now values.now) atom.now }
{
    let left = element_value(attrs, values, atom.left);
    let right = element_value(attrs, values, atom.right);
    compares(atom.op, left, right)
}

// Whether all comparisons of a query hold.
fn are_met(q: &Query, values: &[i128]) -> bool
    ensures { result ≡ holds q.now (valued (attrs_of q.now.atoms) values.now) }
{
    let attrs = q.attrs();
    q.atoms().iter().all(|t| is_met(attrs, values, t))
}

// Whether an integer lies in a domain.
fn lies_in(domain: &Domain, value: i128) -> bool
    ensures { result ≡ lies_in domain.now value }
{
    i128::from(domain.lo) <= value && value <= i128::from(domain.hi)
}

// Whether the values keep to a domain, if its column is an attribute.
fn keeps_to(attrs: &[Attr], values: &[i128], domain: &Domain) -> bool
    ensures { IsTrue result → KeepsTo attrs.now values.now domain.now }
{
    if place_of(attrs, domain.attr) < attrs.len() {
        lies_in(domain, value_of(attrs, values, domain.attr))
    } else {
        true
    }
}

// Whether they keep to all domains of a query.
fn keep_to_domains(q: &Query, values: &[i128]) -> bool
    ensures { IsTrue result → All (KeepsTo (attrs_of q.now.atoms) values.now) q.now.domains }
{
    let attrs = q.attrs();
    q.domains().iter().all(|d| keeps_to(attrs, values, d))
}

// Whether an integer lies within 10^18 either way.
fn is_far_within(value: i128) -> bool
    ensures { IsTrue result → IsFarWithin value }
{
    -1_000_000_000_000_000_000 <= value && value <= 1_000_000_000_000_000_000
}

// Whether all do.
fn are_far_within(values: &[i128]) -> bool
    ensures { IsTrue result → All IsFarWithin values.now }
{
    values.iter().all(|v| is_far_within(*v))
}

// Whether there is a value for each attribute, within 10^18 either way.
fn are_values(q: &Query, values: &[i128]) -> bool
    ensures many { IsTrue result → length values.now ≡ length (attrs_of q.now.atoms) }
    ensures far { IsTrue result → All IsFarWithin values.now }
{
    if values.len() != q.attrs().len() {
        return false;
    }
    are_far_within(values)
}

/// Returns whether there is a value for each attribute, within 10^18 either way, and they satisfy the query and keep to its domains.
pub fn is_solution(q: &Query, values: &[i128]) -> bool
    ensures { IsTrue result → IsSolution q.now values.now }
{
    if !are_values(q, values) {
        return false;
    }
    if !are_met(q, values) {
        return false;
    }
    keep_to_domains(q, values)
}
