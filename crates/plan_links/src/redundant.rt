//! Which inequalities other elements imply.
ghost use Rattle.std.specs.Prelude.{◌↔◌, IsTrue, Contains};
ghost use Rattle.std.specs.List.{Any};
ghost use Rattle.sem_query.specs.declared.atom.Element.TheVariants as element;
ghost use Rattle.sem_query.specs.Query.{attrs_of, consts_of};
ghost use Rattle.sem_query.specs.Links.{IsRedundant};
ghost use Rattle.plan_links.specs.Known.{AreKnown};
ghost use Rattle.plan_links.specs.Placed.{IsNamed, IsPlaced};
ghost use Rattle.plan_links.specs.Redundant.{LiesBetween, EqualsLeft, EqualsRight, Parts};

use crate::order::{is_equal, is_less};
use crate::placed::{NamedAttr, Placed, as_element, attr_with_node, named_at, with_node};
use plan_closure::Distances;
use sem_query::{Attr, Element, Part, Query};

// Whether e lies between x and y.
fn lies_between(
    q: &Query,
    p: &Part,
    bounds: &Distances,
    x: NamedAttr,
    y: NamedAttr,
    e: Placed,
) -> bool
    requires known { AreKnown q.now p.now.signs.items bounds.now }
    requires left { IsNamed q.now x }
    requires right { IsNamed q.now y }
    requires middle { IsPlaced q.now e }
    ensures { IsTrue result ↔ LiesBetween q.now p.now.signs.items x.attr y.attr e.element }
{
    is_less(q, p, bounds, as_element(q, x), e) && is_less(q, p, bounds, e, as_element(q, y))
}

// Whether e equals x and is less than y.
fn equals_left(
    q: &Query,
    p: &Part,
    bounds: &Distances,
    x: NamedAttr,
    y: NamedAttr,
    e: Placed,
) -> bool
    requires known { AreKnown q.now p.now.signs.items bounds.now }
    requires left { IsNamed q.now x }
    requires right { IsNamed q.now y }
    requires middle { IsPlaced q.now e }
    ensures { IsTrue result ↔ EqualsLeft q.now p.now.signs.items x.attr y.attr e.element }
{
    is_equal(q, p, bounds, as_element(q, x), e) && is_less(q, p, bounds, e, as_element(q, y))
}

// Whether x is less than e, and e equals y.
fn equals_right(
    q: &Query,
    p: &Part,
    bounds: &Distances,
    x: NamedAttr,
    y: NamedAttr,
    e: Placed,
) -> bool
    requires known { AreKnown q.now p.now.signs.items bounds.now }
    requires left { IsNamed q.now x }
    requires right { IsNamed q.now y }
    requires middle { IsPlaced q.now e }
    ensures { IsTrue result ↔ EqualsRight q.now p.now.signs.items x.attr y.attr e.element }
{
    is_less(q, p, bounds, as_element(q, x), e) && is_equal(q, p, bounds, e, as_element(q, y))
}

// Whether e lies between x and y, or equals one and parts it from the other.
fn parts(q: &Query, p: &Part, bounds: &Distances, x: NamedAttr, y: NamedAttr, e: Placed) -> bool
    requires known { AreKnown q.now p.now.signs.items bounds.now }
    requires left { IsNamed q.now x }
    requires right { IsNamed q.now y }
    requires middle { IsPlaced q.now e }
    ensures { IsTrue result ↔ Parts q.now p.now.signs.items x.attr y.attr e.element }
{
    lies_between(q, p, bounds, x, y, e)
        || equals_left(q, p, bounds, x, y, e)
        || equals_right(q, p, bounds, x, y, e)
}

// Whether an attribute lies between x and y.
fn some_attr_between(q: &Query, p: &Part, bounds: &Distances, x: NamedAttr, y: NamedAttr) -> bool
    requires known { AreKnown q.now p.now.signs.items bounds.now }
    requires left { IsNamed q.now x }
    requires right { IsNamed q.now y }
    ensures { IsTrue result ↔ Any (λ a. LiesBetween q.now p.now.signs.items x.attr y.attr (element.Attr a)) (attrs_of q.now.atoms) }
{
    let attrs = q.attrs();
    for i in 0..attrs.len() {
        if lies_between(q, p, bounds, x, y, as_element(q, named_at(q, i))) {
            return true;
        }
    }
    false
}

// Whether a constant parts x from y.
fn some_const_parts(q: &Query, p: &Part, bounds: &Distances, x: NamedAttr, y: NamedAttr) -> bool
    requires known { AreKnown q.now p.now.signs.items bounds.now }
    requires left { IsNamed q.now x }
    requires right { IsNamed q.now y }
    ensures { IsTrue result ↔ Any (λ k. Parts q.now p.now.signs.items x.attr y.attr (element.Const k)) (consts_of q.now.atoms) }
{
    let consts = q.consts();
    for i in 0..consts.len() {
        if parts(q, p, bounds, x, y, with_node(q, Element::Const(consts[i]))) {
            return true;
        }
    }
    false
}

/// Returns whether x < y is redundant in the part.
pub fn is_redundant(q: &Query, p: &Part, bounds: &Distances, x: Attr, y: Attr) -> bool
    requires known { AreKnown q.now p.now.signs.items bounds.now }
    requires left { Contains (attrs_of q.now.atoms) x }
    requires right { Contains (attrs_of q.now.atoms) y }
    ensures { IsTrue result ↔ IsRedundant q.now p.now.signs.items x y }
{
    let left = attr_with_node(q, x);
    let right = attr_with_node(q, y);
    some_attr_between(q, p, bounds, left, right) || some_const_parts(q, p, bounds, left, right)
}
