//! The closed system of a query, with the signs of some pairs or without.
ghost use Rattle.std.specs.Prelude.{◌≡◌, ℕ, ◌+◌, ◌<◌, ◌≤◌, ◌↔◌, ◌≤ℤ◌, ◌+ℤ◌, pos, neg_ℤ, List, length, map, All, Contains, IsTrue, MatchOption, ◌⊎◌};
ghost use Rattle.sem_query.specs.declared.atom.Element.TheVariants as element;
ghost use Rattle.sem_query.specs.Query.{attrs_of, is_attr, IsWithinLimits, IsDomain};
ghost use Rattle.sem_query.specs.Order.{IsElement};
ghost use Rattle.plan_constraints.specs.declared.constraint.Constraint.{Constraint};
ghost use Rattle.plan_constraints.specs.Nodes.{at_most_above, IsWithinLimit, HasAttr};
ghost use Rattle.plan_constraints.specs.Solutions.{IsWithin, IsLowAnswer, IsHighAnswer};
ghost use Rattle.sem_whole.specs.System.{bounds_of, atom_bounds, system, Bound, AreOneClass};
ghost use Rattle.sem_whole.specs.Kept.{IsRange};
ghost use Rattle.sem_whole.specs.Laws.{IsLeastBound};
ghost use Rattle.sem_whole.specs.Signed.{op_of, said, with_signs, IsWellFormed, IsSide, AreSignedPairs};
ghost use Rattle.plan_whole.specs.Closed.{constraint_of, named_bounds, closed_constraints, domain_ends, apart, negated, bound_at, IsSmall, IsMet, IsModest, IsWithSigns, IsSolvable, IsClosedSystem, ends_of};

use crate::places::{place_in, places_of};
use arrayvec::ArrayVec;
use plan_constraints::{Constraint, add_each, difference, node, place_of};
use sem_query::{Atom, Attr, Domain, Element, Op, Pair, Query, Sign, is_same};
use std::marker::Model;

/// The least and the greatest value of a column, where there is one.
#[derive(Clone, Copy, Debug, Default, PartialEq, Eq)]
pub struct Ends {
    pub lo: Option<i64>,
    pub hi: Option<i64>,
}

/// A query and the signs of some of its pairs.
#[derive(Clone, Copy)]
pub(crate) struct SignedQuery<'a> {
    pub query: &'a Query,
    pub pairs: &'a [Pair],
    pub signs: &'a [Sign],
}

/// A query with the signs of some of its pairs as comparisons before its own, where its system has a solution, with the least bound of the
/// difference of each two of its attributes, and where these stand. A clause sees the query with the signs.
#[derive(Drop)]
pub struct ClosedSystem<'a> {
    query: &'a Query,
    pairs: &'a [Pair],
    signs: &'a [Sign],
    places: [u8; 32],
    bounds: [Option<i64>; 169],
}

impl<'a> Model for ClosedSystem<'a> {
    ghost use Rattle.sem_query.specs.Query.{QueryValue, attrs_of};
    ghost use Rattle.sem_whole.specs.Signed.{with_signs, AreSignedPairs};
    ghost use Rattle.plan_whole.specs.Closed.{IsClosedSystem};
    ghost use Rattle.plan_whole.specs.Places.{ArePlaces};

    ghost Value = { QueryValue };

    ghost view = { λ s. with_signs s.pairs.now s.signs.now s.query.now };

    ghost invariant = { λ s. AreSignedPairs s.query.now s.pairs.now s.signs.now × IsClosedSystem (with_signs s.pairs.now s.signs.now s.query.now) s.bounds × ArePlaces (attrs_of s.query.now.atoms) s.places };
}

/// Returns the closed system of a query with the signs of some of its pairs, by the table of the least bounds between its nodes, 13 to a row: node 0
/// stands for the number 0, and the others for the attributes in order.
pub fn closed_at<'a>(
    query: &'a Query,
    pairs: &'a [Pair],
    signs: &'a [Sign],
    bounds: &[Option<i64>; 169],
) -> ClosedSystem<'a>
    requires signed { AreSignedPairs query.now pairs.now signs.now }
    requires closed { IsClosedSystem (with_signs pairs.now signs.now query.now) bounds.now }
    ensures { result ≡ with_signs pairs.now signs.now query.now }
{
    ClosedSystem {
        query,
        pairs,
        signs,
        places: places_of(query.attrs()),
        bounds: *bounds,
    }
}

impl<'a> ClosedSystem<'a> {
    /// Returns the query, which has no signs among its comparisons. Some assignment solves the system with them, and what bounds each column,
    /// and each two, can be told.
    pub fn query(&self) -> &'a Query
        ensures signed { IsWithSigns result.now self.now }
        ensures from { result.now.from ≡ self.now.from }
        ensures select { result.now.select ≡ self.now.select }
        ensures distinct { result.now.distinct ≡ self.now.distinct }
        ensures domains { result.now.domains ≡ self.now.domains }
        ensures attrs { attrs_of result.now.atoms ≡ attrs_of self.now.atoms }
        ensures formed { IsWellFormed self.now }
        ensures solvable { IsSolvable self.now }
    {
        self.query
    }

    /// Returns the query, the pairs and their signs.
    pub(crate) fn signed(&self) -> SignedQuery<'a>
        ensures pairs { AreSignedPairs result.query.now result.pairs.now result.signs.now }
        ensures value { self.now ≡ with_signs result.pairs.now result.signs.now result.query.now }
    {
        SignedQuery {
            query: self.query,
            pairs: self.pairs,
            signs: self.signs,
        }
    }

    /// Returns the least and the greatest value of a column over all solutions, each within 10^17 either way.
    pub fn ends(&self, a: Attr) -> Ends
        ensures ends { IsRange (system self.now) a (ends_of result) }
        ensures low { IsSmall result.lo }
        ensures high { IsSmall result.hi }
    {
        let attrs = self.query.attrs();
        let place = place_in(&self.places, attrs, a);
        if place < attrs.len() {
            ends_at(&self.bounds, place as u8 + 1)
        } else {
            domain_ends(self.query.domains(), a)
        }
    }

    /// Returns the least bound of one column above another over all solutions, within 2 * 10^17 either way. None where there is no bound.
    pub fn above(&self, a: Attr, b: Attr) -> Option<i64>
        ensures bound { IsLeastBound (system self.now) (element.Attr a) (element.Attr b) result }
        ensures modest { IsModest result }
    {
        let attrs = self.query.attrs();
        if is_same(a, b) {
            return Some(0);
        }
        let left = place_in(&self.places, attrs, a);
        let right = place_in(&self.places, attrs, b);
        if are_below(left, right, attrs.len()) {
            bound_at(&self.bounds, left as u8 + 1, right as u8 + 1)
        } else {
            apart(self.ends(a).hi, self.ends(b).lo)
        }
    }

    /// Returns whether one column is at most so much above another in each solution.
    pub fn keeps(&self, a: Attr, b: Attr, by: i64) -> bool
        ensures { IsTrue result ↔ Bound (system self.now) (element.Attr a) (element.Attr b) by }
    {
        is_met(self.above(a, b), by)
    }

    /// Returns whether two columns are of one stream and equal in each solution.
    pub fn are_one_class(&self, a: Attr, b: Attr) -> bool
        ensures { IsTrue result ↔ AreOneClass (system self.now) a b }
    {
        a.stream == b.stream && self.keeps(a, b, 0) && self.keeps(b, a, 0)
    }
}

// Whether a bound is there that is at most so much.
fn is_met(bound: Option<i64>, by: i64) -> bool
    ensures { IsTrue result ↔ IsMet bound by }
{
    match bound {
        Some(bound) => bound <= by,
        None => false,
    }
}

/// Returns the difference of a greatest and a least value, where both are there.
pub(crate) fn apart(high: Option<i64>, low: Option<i64>) -> Option<i64>
    requires high { IsSmall high }
    requires low { IsSmall low }
    ensures value { result ≡ apart high low }
    ensures modest { IsModest result }
{
    match (high, low) {
        (Some(high), Some(low)) => Some(high - low),
        (Some(_), None) | (None, _) => None,
    }
}

// Whether two places are below a number.
fn are_below(left: usize, right: usize, all: usize) -> bool
    ensures { IsTrue result ↔ ((left < all) × (right < all)) }
{
    left < all && right < all
}

// The bound of a node above another in a table.
fn bound_at(bounds: &[Option<i64>; 169], left: u8, right: u8) -> Option<i64>
    requires left { left < 13 }
    requires right { right < 13 }
    ensures { result ≡ bound_at bounds.now left right }
{
    bounds[13 * usize::from(left) + usize::from(right)]
}

// The least value of a node that its bound below 0 tells.
fn negated(bound: Option<i64>) -> Option<i64>
    requires { IsSmall bound }
    ensures value { result ≡ negated bound }
    ensures small { IsSmall result }
{
    match bound {
        Some(bound) => Some(-bound),
        None => None,
    }
}

// The least and the greatest value of a node.
fn ends_at(bounds: &[Option<i64>; 169], node: u8) -> Ends
    requires node { node < 13 }
    requires low { IsSmall (bound_at bounds.now 0 node) }
    requires high { IsSmall (bound_at bounds.now node 0) }
    ensures least { result.lo ≡ negated (bound_at bounds.now 0 node) }
    ensures greatest { result.hi ≡ bound_at bounds.now node 0 }
    ensures low { IsSmall result.lo }
    ensures high { IsSmall result.hi }
{
    Ends {
        lo: negated(bound_at(bounds, 0, node)),
        hi: bound_at(bounds, node, 0),
    }
}

// The ends of the domain of a column, where it has one.
fn domain_ends(domains: &[Domain], a: Attr) -> Ends
    ensures { result ≡ domain_ends domains.now a }
{
    for domain in domains {
        if is_same(domain.attr, a) {
            return Ends {
                lo: Some(domain.lo),
                hi: Some(domain.hi),
            };
        }
    }
    Ends { lo: None, hi: None }
}

// Says that the left element is at most so much above the right one.
fn above(attrs: &[Attr], left: Element, right: Element, by: i64) -> Constraint
    requires few { length attrs.now ≤ 12 }
    requires left { IsWithinLimit left }
    requires right { IsWithinLimit right }
    requires low { neg_ℤ (pos 1) ≤ℤ by }
    requires high { by ≤ℤ pos 0 }
    ensures { result ≡ at_most_above attrs.now left right by }
{
    Constraint {
        left: node(attrs, left),
        right: node(attrs, right),
        bound: difference(left, right, by),
    }
}

/// Returns what a comparison bounds, as constraints on the nodes of attributes.
pub fn of_comparison(
    attrs: &[Attr],
    left: Element,
    op: Op,
    right: Element,
) -> ArrayVec<Constraint, 2>
    requires few { length attrs.now ≤ 12 }
    requires left { IsWithinLimit left }
    requires right { IsWithinLimit right }
    ensures { result.items ≡ map (constraint_of attrs.now) (bounds_of op left right) }
{
    let mut list = ArrayVec::new();
    match op {
        Op::Lt => list.push(above(attrs, left, right, -1)),
        Op::Gt => list.push(above(attrs, right, left, -1)),
        Op::Le => list.push(above(attrs, left, right, 0)),
        Op::Ge => list.push(above(attrs, right, left, 0)),
        Op::Eq => {
            list.push(above(attrs, left, right, 0));
            list.push(above(attrs, right, left, 0));
        }
        Op::Ne => {}
    }
    list
}

// What a comparison of the query bounds.
fn of_atom(q: &Query, atom: &Atom) -> ArrayVec<Constraint, 2>
    requires left { IsElement q.now atom.now.left }
    requires right { IsElement q.now atom.now.right }
    requires one { HasAttr atom.now.left atom.now.right }
    ensures value { result.items ≡ map (constraint_of (attrs_of q.now.atoms)) (atom_bounds atom.now) }
    ensures within { All (IsWithin (length (attrs_of q.now.atoms))) result.items }
{
    of_comparison(q.attrs(), atom.left, atom.op, atom.right)
}

/// Returns the operator that says a sign.
pub(crate) fn op_of(sign: Sign) -> Op
    ensures { result ≡ op_of sign }
{
    match sign {
        Sign::Lt => Op::Lt,
        Sign::Eq => Op::Eq,
        Sign::Gt => Op::Gt,
    }
}

/// Returns what the sign of a pair bounds, whose column is an attribute of the query, and whose right side is one too or an integer that may be
/// written.
pub fn of_sign(q: &Query, pair: Pair, sign: Sign) -> ArrayVec<Constraint, 2>
    requires left { Contains (attrs_of q.now.atoms) pair.left }
    requires right { IsSide (attrs_of q.now.atoms) pair.right }
    ensures value { result.items ≡ map (constraint_of (attrs_of q.now.atoms)) (atom_bounds (said pair sign)) }
    ensures within { All (IsWithin (length (attrs_of q.now.atoms))) result.items }
{
    of_comparison(q.attrs(), Element::Attr(pair.left), op_of(sign), pair.right)
}

// The least integer of a domain.
fn least_of(domain: &Domain) -> Element
    ensures { result ≡ element.Const domain.now.lo }
{
    Element::Const(domain.lo)
}

// The greatest integer of a domain.
fn greatest_of(domain: &Domain) -> Element
    ensures { result ≡ element.Const domain.now.hi }
{
    Element::Const(domain.hi)
}

// What the domain of an attribute bounds, and nothing where its column is no attribute.
fn of_domain(q: &Query, domain: &Domain) -> ArrayVec<Constraint, 2>
    requires { IsDomain q.now domain.now }
    ensures value { result.items ≡ map (constraint_of (attrs_of q.now.atoms)) (named_bounds (attrs_of q.now.atoms) domain.now) }
    ensures within { All (IsWithin (length (attrs_of q.now.atoms))) result.items }
{
    let attrs = q.attrs();
    let mut list = ArrayVec::new();
    if place_of(attrs, domain.attr) < attrs.len() {
        let column = Element::Attr(domain.attr);
        list.push(above(attrs, least_of(domain), column, 0));
        list.push(above(attrs, column, greatest_of(domain), 0));
    }
    list
}

/// Returns what the comparisons of a query bound, in order, and then the domains of its attributes, as constraints on the nodes of attributes. There is
/// room for more behind them.
pub fn system_constraints(q: &Query) -> ArrayVec<Constraint, 300>
    ensures value { result.items ≡ closed_constraints q.now }
    ensures within { All (IsWithin (length (attrs_of q.now.atoms))) result.items }
    ensures few { length result.items ≤ 72 }
    ensures limits { IsWithinLimits q.now }
{
    let mut list = ArrayVec::new();
    for atom in q.atoms() {
        let added = of_atom(q, atom);
        add_each(&mut list, added.as_slice());
    }
    for domain in q.domains() {
        let added = of_domain(q, domain);
        add_each(&mut list, added.as_slice());
    }
    list
}
