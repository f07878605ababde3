//! The links of the part of a good leaf, which are its equalities and nonredundant inequalities between streams, and its
//! references.
ghost use Rattle.std.specs.Prelude.{◌≡◌, ◌↔◌, IsTrue, Contains};
ghost use Rattle.std.specs.List.{Any};
ghost use Rattle.sem_query.specs.declared.atom.Element.TheVariants as element;
ghost use Rattle.sem_query.specs.Query.{attrs_of, consts_of};
ghost use Rattle.sem_query.specs.Order.{IsElement};
ghost use Rattle.sem_query.specs.Links.{IsEquality, IsRedundant, IsInequality, HasTwoRefs};
ghost use Rattle.cert_checker.specs.OnLeaf.{IsLeaf, LiesBetween, EqualsLeft, EqualsRight, KeepsApart, IsLessAcross, IsLinked, IsRef, opposite, IsOther, IsAcrossRef, IsOtherRef, IsSecond};

use crate::leaf::Leaf;
use crate::order::{is_bounded, is_equal, is_less};
use sem_query::{Attr, Element};

/// The side of an inequality at which a reference stands: the lesser or the greater one.
#[derive(Clone, Copy)]
pub enum Side {
    Min,
    Max,
}

// The other side.
fn opposite(side: Side) -> Side
    ensures { result ≡ opposite side }
{
    match side {
        Side::Min => Side::Max,
        Side::Max => Side::Min,
    }
}

// Whether two attributes are an equality between streams.
fn is_equality(leaf: &Leaf, x: Attr, y: Attr) -> bool
    requires leaf { IsLeaf leaf.now }
    requires left { Contains (attrs_of leaf.now.query.now.atoms) x }
    requires right { Contains (attrs_of leaf.now.query.now.atoms) y }
    ensures { IsTrue result ↔ IsEquality leaf.now.query.now leaf.now.signs.now x y }
{
    x.stream != y.stream && is_equal(leaf, Element::Attr(x), Element::Attr(y))
}

/// Returns whether an attribute is equal to some attribute of another stream.
pub fn has_equality(leaf: &Leaf, attr: Attr) -> bool
    requires leaf { IsLeaf leaf.now }
    requires among { Contains (attrs_of leaf.now.query.now.atoms) attr }
    ensures { IsTrue result ↔ Any (IsEquality leaf.now.query.now leaf.now.signs.now attr) (attrs_of leaf.now.query.now.atoms) }
{
    let attrs = leaf.query.attrs();
    for i in 0..attrs.len() {
        if is_equality(leaf, attr, attrs[i]) {
            return true;
        }
    }
    false
}

// Whether e lies between x and y.
fn lies_between(leaf: &Leaf, x: Attr, y: Attr, e: Element) -> bool
    requires leaf { IsLeaf leaf.now }
    requires left { Contains (attrs_of leaf.now.query.now.atoms) x }
    requires right { Contains (attrs_of leaf.now.query.now.atoms) y }
    requires middle { IsElement leaf.now.query.now e }
    ensures { IsTrue result ↔ LiesBetween leaf.now.query.now leaf.now.signs.now x y e }
{
    is_less(leaf, Element::Attr(x), e) && is_less(leaf, e, Element::Attr(y))
}

// Whether e equals x and is less than y.
fn equals_left(leaf: &Leaf, x: Attr, y: Attr, e: Element) -> bool
    requires leaf { IsLeaf leaf.now }
    requires left { Contains (attrs_of leaf.now.query.now.atoms) x }
    requires right { Contains (attrs_of leaf.now.query.now.atoms) y }
    requires middle { IsElement leaf.now.query.now e }
    ensures { IsTrue result ↔ EqualsLeft leaf.now.query.now leaf.now.signs.now x y e }
{
    is_equal(leaf, Element::Attr(x), e) && is_less(leaf, e, Element::Attr(y))
}

// Whether x is less than e, and e equals y.
fn equals_right(leaf: &Leaf, x: Attr, y: Attr, e: Element) -> bool
    requires leaf { IsLeaf leaf.now }
    requires left { Contains (attrs_of leaf.now.query.now.atoms) x }
    requires right { Contains (attrs_of leaf.now.query.now.atoms) y }
    requires middle { IsElement leaf.now.query.now e }
    ensures { IsTrue result ↔ EqualsRight leaf.now.query.now leaf.now.signs.now x y e }
{
    is_less(leaf, Element::Attr(x), e) && is_equal(leaf, e, Element::Attr(y))
}

// Whether an element lies between x and y, or equals one and parts it from the other.
fn keeps_apart(leaf: &Leaf, x: Attr, y: Attr, e: Element) -> bool
    requires leaf { IsLeaf leaf.now }
    requires left { Contains (attrs_of leaf.now.query.now.atoms) x }
    requires right { Contains (attrs_of leaf.now.query.now.atoms) y }
    requires middle { IsElement leaf.now.query.now e }
    ensures { IsTrue result ↔ KeepsApart leaf.now.query.now leaf.now.signs.now x y e }
{
    lies_between(leaf, x, y, e) || equals_left(leaf, x, y, e) || equals_right(leaf, x, y, e)
}

// Whether an attribute lies between x and y.
fn some_attr_between(leaf: &Leaf, x: Attr, y: Attr) -> bool
    requires leaf { IsLeaf leaf.now }
    requires left { Contains (attrs_of leaf.now.query.now.atoms) x }
    requires right { Contains (attrs_of leaf.now.query.now.atoms) y }
    ensures { IsTrue result ↔ Any (λ a. LiesBetween leaf.now.query.now leaf.now.signs.now x y (element.Attr a)) (attrs_of leaf.now.query.now.atoms) }
{
    let attrs = leaf.query.attrs();
    for i in 0..attrs.len() {
        if lies_between(leaf, x, y, Element::Attr(attrs[i])) {
            return true;
        }
    }
    false
}

// Whether a constant lies between x and y, or equals one and parts it from the other.
fn some_const_apart(leaf: &Leaf, x: Attr, y: Attr) -> bool
    requires leaf { IsLeaf leaf.now }
    requires left { Contains (attrs_of leaf.now.query.now.atoms) x }
    requires right { Contains (attrs_of leaf.now.query.now.atoms) y }
    ensures { IsTrue result ↔ Any (λ k. KeepsApart leaf.now.query.now leaf.now.signs.now x y (element.Const k)) (consts_of leaf.now.query.now.atoms) }
{
    let consts = leaf.query.consts();
    for i in 0..consts.len() {
        if keeps_apart(leaf, x, y, Element::Const(consts[i])) {
            return true;
        }
    }
    false
}

// Whether x < y is redundant in the part.
fn is_redundant(leaf: &Leaf, x: Attr, y: Attr) -> bool
    requires leaf { IsLeaf leaf.now }
    requires left { Contains (attrs_of leaf.now.query.now.atoms) x }
    requires right { Contains (attrs_of leaf.now.query.now.atoms) y }
    ensures { IsTrue result ↔ IsRedundant leaf.now.query.now leaf.now.signs.now x y }
{
    some_attr_between(leaf, x, y) || some_const_apart(leaf, x, y)
}

// Whether two attributes are of different streams, and the left one is less than the right one.
fn is_less_across(leaf: &Leaf, x: Attr, y: Attr) -> bool
    requires leaf { IsLeaf leaf.now }
    requires left { Contains (attrs_of leaf.now.query.now.atoms) x }
    requires right { Contains (attrs_of leaf.now.query.now.atoms) y }
    ensures { IsTrue result ↔ IsLessAcross leaf.now.query.now leaf.now.signs.now x y }
{
    x.stream != y.stream && is_less(leaf, Element::Attr(x), Element::Attr(y))
}

// Whether two attributes are a nonredundant inequality between streams.
fn is_inequality(leaf: &Leaf, x: Attr, y: Attr) -> bool
    requires leaf { IsLeaf leaf.now }
    requires left { Contains (attrs_of leaf.now.query.now.atoms) x }
    requires right { Contains (attrs_of leaf.now.query.now.atoms) y }
    ensures { IsTrue result ↔ IsInequality leaf.now.query.now leaf.now.signs.now x y }
{
    is_less_across(leaf, x, y) && !is_redundant(leaf, x, y)
}

// Whether two attributes are a nonredundant inequality between streams, the first on this side.
fn is_linked(leaf: &Leaf, side: Side, attr: Attr, other: Attr) -> bool
    requires leaf { IsLeaf leaf.now }
    requires left { Contains (attrs_of leaf.now.query.now.atoms) attr }
    requires right { Contains (attrs_of leaf.now.query.now.atoms) other }
    ensures { IsTrue result ↔ IsLinked leaf.now.query.now leaf.now.signs.now side attr other }
{
    match side {
        Side::Min => is_inequality(leaf, attr, other),
        Side::Max => is_inequality(leaf, other, attr),
    }
}

// Whether an attribute is on this side of some nonredundant inequality between streams.
fn has_link(leaf: &Leaf, side: Side, attr: Attr) -> bool
    requires leaf { IsLeaf leaf.now }
    requires among { Contains (attrs_of leaf.now.query.now.atoms) attr }
    ensures { IsTrue result ↔ Any (IsLinked leaf.now.query.now leaf.now.signs.now side attr) (attrs_of leaf.now.query.now.atoms) }
{
    let attrs = leaf.query.attrs();
    for i in 0..attrs.len() {
        if is_linked(leaf, side, attr, attrs[i]) {
            return true;
        }
    }
    false
}

/// Returns whether an attribute is a reference on this side.
pub fn is_ref(leaf: &Leaf, side: Side, attr: Attr) -> bool
    requires leaf { IsLeaf leaf.now }
    requires among { Contains (attrs_of leaf.now.query.now.atoms) attr }
    ensures { IsTrue result ↔ IsRef leaf.now.query.now leaf.now.signs.now side attr }
{
    has_link(leaf, side, attr) && !is_bounded(leaf, attr)
}

// Whether two attributes are of one stream, and not of one class.
fn is_other(leaf: &Leaf, a: Attr, b: Attr) -> bool
    requires leaf { IsLeaf leaf.now }
    requires left { Contains (attrs_of leaf.now.query.now.atoms) a }
    requires right { Contains (attrs_of leaf.now.query.now.atoms) b }
    ensures { IsTrue result ↔ IsOther leaf.now.query.now leaf.now.signs.now a b }
{
    a.stream == b.stream && !is_equal(leaf, Element::Attr(a), Element::Attr(b))
}

// Beside a reference on this side: whether another attribute of its stream is one on the other side.
fn is_across_ref(leaf: &Leaf, side: Side, a: Attr, b: Attr) -> bool
    requires leaf { IsLeaf leaf.now }
    requires right { Contains (attrs_of leaf.now.query.now.atoms) b }
    ensures { IsTrue result ↔ IsAcrossRef leaf.now.query.now leaf.now.signs.now side a b }
{
    a.stream == b.stream && is_ref(leaf, opposite(side), b)
}

// Beside a reference on this side: whether another attribute of its stream is one on the same side, and not of its class.
fn is_other_ref(leaf: &Leaf, side: Side, a: Attr, b: Attr) -> bool
    requires leaf { IsLeaf leaf.now }
    requires left { Contains (attrs_of leaf.now.query.now.atoms) a }
    requires right { Contains (attrs_of leaf.now.query.now.atoms) b }
    ensures { IsTrue result ↔ IsOtherRef leaf.now.query.now leaf.now.signs.now side a b }
{
    is_other(leaf, a, b) && is_ref(leaf, side, b)
}

// Beside a reference on this side: whether another attribute is a second one of its stream.
fn is_second(leaf: &Leaf, side: Side, a: Attr, b: Attr) -> bool
    requires leaf { IsLeaf leaf.now }
    requires left { Contains (attrs_of leaf.now.query.now.atoms) a }
    requires right { Contains (attrs_of leaf.now.query.now.atoms) b }
    ensures { IsTrue result ↔ IsSecond leaf.now.query.now leaf.now.signs.now side a b }
{
    is_across_ref(leaf, side, a, b) || is_other_ref(leaf, side, a, b)
}

// Whether some attribute is a second reference of the stream of a reference on this side.
fn some_second(leaf: &Leaf, side: Side, attr: Attr) -> bool
    requires leaf { IsLeaf leaf.now }
    requires among { Contains (attrs_of leaf.now.query.now.atoms) attr }
    ensures { IsTrue result ↔ Any (IsSecond leaf.now.query.now leaf.now.signs.now side attr) (attrs_of leaf.now.query.now.atoms) }
{
    let attrs = leaf.query.attrs();
    for i in 0..attrs.len() {
        if is_second(leaf, side, attr, attrs[i]) {
            return true;
        }
    }
    false
}

/// Returns whether the stream of a reference on this side has two that are not of one class on one side.
pub fn has_two_refs(leaf: &Leaf, side: Side, attr: Attr) -> bool
    requires leaf { IsLeaf leaf.now }
    requires among { Contains (attrs_of leaf.now.query.now.atoms) attr }
    requires reference { IsRef leaf.now.query.now leaf.now.signs.now side attr }
    ensures { IsTrue result ↔ HasTwoRefs leaf.now.query.now leaf.now.signs.now attr.stream }
{
    some_second(leaf, side, attr)
}
