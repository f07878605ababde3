//! The links of a part, which are its equalities and nonredundant inequalities between streams.
ghost use Rattle.std.specs.Prelude.{◌≡◌, ◌↔◌, ◌+◌, ◌≤◌, ◌++◌, IsTrue, Contains, length, map};
ghost use Rattle.sem_query.specs.Query.{attrs_of, IsWithinLimits};
ghost use Rattle.sem_query.specs.Links.{IsInequality};
ghost use Rattle.sem_query.specs.Plan.{link};
ghost use Rattle.plan_links.specs.Known.{AreKnown};
ghost use Rattle.plan_links.specs.Sifting.{Sifts, links_among, IsAcross, AreLinksAcross, IsOrderedEquality, IsOrderedInequality, IsLessAcross};

use crate::order::{is_equal, is_less};
use crate::placed::with_node;
use crate::redundant::is_redundant;
use arrayvec::ArrayVec;
use plan_closure::Distances;
use sem_query::{Attr, Element, Link, Part, Query, is_before};

// Adds a column with each of some.
fn push_row(list: &mut ArrayVec<Link, 144>, left: Attr, attrs: &[Attr])
    requires { length list.old.items + length attrs.now ≤ 144 }
    ensures { list.new.items ≡ list.old.items ++ map (link left) attrs.now }
{
    for right in attrs {
        list.push(Link {
            left,
            right: *right,
        });
    }
}

// Each column with each.
fn all_links(attrs: &[Attr]) -> ArrayVec<Link, 144>
    requires { length attrs.now ≤ 12 }
    ensures { result.items ≡ links_among attrs.now attrs.now }
{
    let mut list = ArrayVec::new();
    for i in 0..attrs.len() {
        push_row(&mut list, attrs[i], attrs);
    }
    list
}

// Whether the sides are of different streams.
fn is_across(l: Link) -> bool
    ensures { IsTrue result ↔ IsAcross l }
{
    l.left.stream != l.right.stream
}

/// Returns the links of each attribute with each of another stream.
pub fn links_across(q: &Query) -> ArrayVec<Link, 144>
    ensures across { AreLinksAcross q.now result.items }
    ensures limits { IsWithinLimits q.now }
{
    let every = all_links(q.attrs());
    let links = every.as_slice();
    let mut list = ArrayVec::new();
    for i in 0..links.len() {
        if is_across(links[i]) {
            list.push(links[i]);
        }
    }
    list
}

// Whether the link is an equality between streams, with the earlier attribute on the left.
fn is_equality(q: &Query, p: &Part, bounds: &Distances, l: Link) -> bool
    requires known { AreKnown q.now p.now.signs.items bounds.now }
    requires left { Contains (attrs_of q.now.atoms) l.left }
    requires right { Contains (attrs_of q.now.atoms) l.right }
    ensures { IsTrue result ↔ IsOrderedEquality q.now p.now.signs.items l }
{
    is_before(l.left, l.right)
        && l.left.stream != l.right.stream
        && is_equal(
            q,
            p,
            bounds,
            with_node(q, Element::Attr(l.left)),
            with_node(q, Element::Attr(l.right)),
        )
}

// Whether the sides are of different streams, and the left one is less than the right one.
fn is_less_across(q: &Query, p: &Part, bounds: &Distances, l: Link) -> bool
    requires known { AreKnown q.now p.now.signs.items bounds.now }
    requires left { Contains (attrs_of q.now.atoms) l.left }
    requires right { Contains (attrs_of q.now.atoms) l.right }
    ensures { IsTrue result ↔ IsLessAcross q.now p.now.signs.items l }
{
    l.left.stream != l.right.stream
        && is_less(
            q,
            p,
            bounds,
            with_node(q, Element::Attr(l.left)),
            with_node(q, Element::Attr(l.right)),
        )
}

// Whether the link is a nonredundant inequality between streams.
fn is_inequality(q: &Query, p: &Part, bounds: &Distances, l: Link) -> bool
    requires known { AreKnown q.now p.now.signs.items bounds.now }
    requires left { Contains (attrs_of q.now.atoms) l.left }
    requires right { Contains (attrs_of q.now.atoms) l.right }
    ensures { IsTrue result ↔ IsInequality q.now p.now.signs.items l.left l.right }
{
    is_less_across(q, p, bounds, l) && !is_redundant(q, p, bounds, l.left, l.right)
}

/// Returns of all links the equalities between streams, each once and with the earlier attribute on the left.
pub fn equalities(q: &Query, p: &Part, bounds: &Distances, links: &[Link]) -> ArrayVec<Link, 66>
    requires known { AreKnown q.now p.now.signs.items bounds.now }
    requires links { AreLinksAcross q.now links.now }
    ensures { Sifts (IsOrderedEquality q.now p.now.signs.items) (links_among (attrs_of q.now.atoms) (attrs_of q.now.atoms)) result.items }
{
    let mut list = ArrayVec::new();
    for i in 0..links.len() {
        if is_equality(q, p, bounds, links[i]) {
            list.push(links[i]);
        }
    }
    list
}

/// Returns of all links the nonredundant inequalities between streams.
pub fn inequalities(q: &Query, p: &Part, bounds: &Distances, links: &[Link]) -> ArrayVec<Link, 66>
    requires known { AreKnown q.now p.now.signs.items bounds.now }
    requires links { AreLinksAcross q.now links.now }
    ensures { Sifts (IsOrderedInequality q.now p.now.signs.items) (links_among (attrs_of q.now.atoms) (attrs_of q.now.atoms)) result.items }
{
    let mut list = ArrayVec::new();
    for i in 0..links.len() {
        if is_inequality(q, p, bounds, links[i]) {
            list.push(links[i]);
        }
    }
    list
}
