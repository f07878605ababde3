//! The links of a query: its comparisons of columns of two streams, less those that the others imply, one after another.
ghost use Rattle.std.specs.Prelude.{◌≡◌, ◌+◌, ◌<◌, ◌≤◌, ◌↔◌, ◌≤ℤ◌, pos, neg_ℤ, [], ◌∷◌, ◌++◌, cond, length, map, IsTrue, Contains};
ghost use Rattle.std.specs.List.{Any};
ghost use Rattle.sem_query.specs.declared.atom.Element.TheVariants as element;
ghost use Rattle.sem_whole.specs.System.{system};
ghost use Rattle.sem_query.specs.declared.atom.Op.{Op};
ghost use Rattle.sem_whole.specs.Links.{comparison, turned_by, across, between_streams, Follows, Goes, AreLinks};
ghost use Rattle.sem_whole.specs.Signed.{said, with_signs, AreSignedPairs};
ghost use Rattle.plan_whole.specs.Closed.{IsMet, IsModest};
ghost use Rattle.plan_whole.specs.Columns.{atom_of, difference_of, listed, summed, IsOnceWith, IsAddedTo, AreAlike, FollowsFrom, FollowsByRanges, FollowsByLink, FollowsByOne, in_order};

use crate::closed::{ClosedSystem, SignedQuery, apart, op_of};
use arrayvec::ArrayVec;
use sem_query::{Atom, Attr, Element, Op, Pair, Query, Sign, is_before};

/// A comparison of columns of different streams.
#[derive(Clone, Copy, Debug, Default, PartialEq, Eq)]
pub struct ColumnLink {
    pub left: Attr,
    pub op: Op,
    pub right: Attr,
}

/// Says that the left column is at most so much above the right one.
#[derive(Clone, Copy, Debug, Default, PartialEq, Eq)]
pub struct ColumnBound {
    pub left: Attr,
    pub right: Attr,
    pub by: i64,
}

// The comparison with the earlier column on the left.
fn in_order(left: Attr, op: Op, right: Attr) -> ColumnLink
    ensures { atom_of result ≡ in_order left op right }
{
    if is_before(right, left) {
        ColumnLink {
            left: right,
            op,
            right: left,
        }
    } else {
        ColumnLink { left, op, right }
    }
}

// The comparison turned so that it reads `<`, `<=`, or by the order of its columns `=`, `<>`.
fn turned(left: Attr, op: Op, right: Attr) -> ColumnLink
    ensures { atom_of result ≡ turned_by op (element.Attr left) (element.Attr right) }
{
    match op {
        Op::Lt => ColumnLink {
            left,
            op: Op::Lt,
            right,
        },
        Op::Le => ColumnLink {
            left,
            op: Op::Le,
            right,
        },
        Op::Gt => ColumnLink {
            left: right,
            op: Op::Lt,
            right: left,
        },
        Op::Ge => ColumnLink {
            left: right,
            op: Op::Le,
            right: left,
        },
        Op::Eq => in_order(left, Op::Eq, right),
        Op::Ne => in_order(left, Op::Ne, right),
    }
}

// The link of two columns, where they are of different streams.
fn link_between(left: Attr, op: Op, right: Attr) -> Option<ColumnLink>
    ensures { map atom_of (listed result) ≡ between_streams (comparison (element.Attr left) op (element.Attr right) ∷ []) }
{
    if left.stream == right.stream {
        None
    } else {
        Some(turned(left, op, right))
    }
}

// The link that a comparison is, where it is between streams.
fn link_of(atom: &Atom) -> Option<ColumnLink>
    ensures { map atom_of (listed result) ≡ between_streams (atom.now ∷ []) }
{
    match atom.left {
        Element::Attr(left) => match atom.right {
            Element::Attr(right) => link_between(left, atom.op, right),
            Element::Const(_) => None,
        },
        Element::Const(_) => None,
    }
}

// Whether a link is among some.
fn is_listed(links: &[ColumnLink], link: ColumnLink) -> bool
    ensures { IsTrue result ↔ Contains links.now link }
{
    links.contains(&link)
}

// Adds a link, unless it is known.
fn push_unless(list: &mut ArrayVec<ColumnLink, 24>, known: bool, link: ColumnLink)
    requires { length list.old.items < 24 }
    ensures { list.new.items ≡ cond known list.old.items (list.old.items ++ link ∷ []) }
{
    if !known {
        list.push(link);
    }
}

// Adds a link that is not listed yet.
fn add_new(list: &mut ArrayVec<ColumnLink, 24>, link: ColumnLink)
    requires { length list.old.items < 24 }
    ensures { IsOnceWith list.old.items link list.new.items }
{
    let known = is_listed(list.as_slice(), link);
    push_unless(list, known, link);
}

// Adds a link, where there is one and it is not listed yet.
fn add_link(list: &mut ArrayVec<ColumnLink, 24>, link: Option<ColumnLink>)
    requires { length list.old.items < 24 }
    ensures { IsAddedTo list.old.items link list.new.items }
{
    match link {
        None => {}
        Some(link) => add_new(list, link),
    }
}

// The link that the sign of a pair is, where it is between streams.
fn link_of_sign(pair: Pair, sign: Sign) -> Option<ColumnLink>
    ensures { map atom_of (listed result) ≡ between_streams (said pair sign ∷ []) }
{
    match pair.right {
        Element::Attr(right) => link_between(pair.left, op_of(sign), right),
        Element::Const(_) => None,
    }
}

// The comparisons between streams, each once: those of signs, and then the query's own.
fn across(q: &Query, pairs: &[Pair], signs: &[Sign]) -> ArrayVec<ColumnLink, 24>
    requires { AreSignedPairs q.now pairs.now signs.now }
    ensures { map atom_of result.items ≡ across (with_signs pairs.now signs.now q.now).atoms }
{
    let mut list = ArrayVec::new();
    'signs: for i in 0..pairs.len() {
        add_link(&mut list, link_of_sign(pairs[i], signs[i]));
    }
    for atom in q.atoms() {
        add_link(&mut list, link_of(atom));
    }
    list
}

// The sum of two bounds and of what a bound between them says, where both are there.
fn summed(first: Option<i64>, between: ColumnBound, second: Option<i64>) -> Option<i64>
    requires first { IsModest first }
    requires second { IsModest second }
    requires low { neg_ℤ (pos 1) ≤ℤ between.by }
    requires high { between.by ≤ℤ pos 0 }
    ensures { result ≡ summed first between.by second }
{
    match first {
        Some(first) => match second {
            Some(second) => Some(first + between.by + second),
            None => None,
        },
        None => None,
    }
}

// Whether a value is there that is at most what a bound says.
fn is_within(found: Option<i64>, bound: ColumnBound) -> bool
    ensures { IsTrue result ↔ IsMet found bound.by }
{
    match found {
        Some(found) => found <= bound.by,
        None => false,
    }
}

// Whether two bounds are between columns of the same two streams.
fn are_alike(other: ColumnBound, bound: ColumnBound) -> bool
    ensures { IsTrue result ↔ AreAlike other bound }
{
    bound.left.stream == other.left.stream && other.right.stream == bound.right.stream
}

// Whether a bound follows from another between columns of the same two streams, by what the system says of each stream.
fn follows_from(closed: &ClosedSystem, other: ColumnBound, bound: ColumnBound) -> bool
    requires low { neg_ℤ (pos 1) ≤ℤ other.by }
    requires high { other.by ≤ℤ pos 0 }
    ensures { IsTrue result ↔ FollowsFrom (system closed.now) (difference_of other) (difference_of bound) }
{
    let first = closed.above(bound.left, other.left);
    let second = closed.above(other.right, bound.right);
    let sum = summed(first, other, second);
    are_alike(other, bound) && is_within(sum, bound)
}

/// Returns whether a bound follows from the ranges of its sides.
pub fn follows_by_ranges(closed: &ClosedSystem, bound: ColumnBound) -> bool
    ensures { IsTrue result ↔ FollowsByRanges (system closed.now) (difference_of bound) }
{
    let high = closed.ends(bound.left).hi;
    let low = closed.ends(bound.right).lo;
    is_within(apart(high, low), bound)
}

// The bound the other way round.
fn turned_bound(left: Attr, right: Attr, by: i64) -> ColumnBound
    ensures { result ≡ record { left = right; right = left; by = by } }
{
    ColumnBound {
        left: right,
        right: left,
        by,
    }
}

// Whether a bound follows from one of those of an equality.
fn follows_from_equal(closed: &ClosedSystem, left: Attr, right: Attr, bound: ColumnBound) -> bool
    ensures { IsTrue result ↔ FollowsByLink (system closed.now) (comparison (element.Attr left) Op.Eq (element.Attr right)) (difference_of bound) }
{
    follows_from(closed, ColumnBound { left, right, by: 0 }, bound)
        || follows_from(closed, turned_bound(left, right, 0), bound)
}

// Whether a bound follows from one of those of a link.
fn follows_by_link(closed: &ClosedSystem, link: ColumnLink, bound: ColumnBound) -> bool
    ensures { IsTrue result ↔ FollowsByLink (system closed.now) (atom_of link) (difference_of bound) }
{
    let ColumnLink { left, op, right } = link;
    match op {
        Op::Lt => follows_from(
            closed,
            ColumnBound {
                left,
                right,
                by: -1,
            },
            bound,
        ),
        Op::Le => follows_from(closed, ColumnBound { left, right, by: 0 }, bound),
        Op::Gt => follows_from(closed, turned_bound(left, right, -1), bound),
        Op::Ge => follows_from(closed, turned_bound(left, right, 0), bound),
        Op::Eq => follows_from_equal(closed, left, right, bound),
        Op::Ne => false,
    }
}

// Whether a bound follows from one of some links.
fn follows_by_links(closed: &ClosedSystem, links: &[ColumnLink], bound: ColumnBound) -> bool
    ensures { IsTrue result ↔ Any (λ l. FollowsByLink (system closed.now) (atom_of l) (difference_of bound)) links.now }
{
    links
        .iter()
        .any(|link| follows_by_link(closed, *link, bound))
}

// Whether a bound follows from one of these links.
fn follows_by_either(
    closed: &ClosedSystem,
    kept: &[ColumnLink],
    rest: &[ColumnLink],
    bound: ColumnBound,
) -> bool
    ensures { IsTrue result ↔ FollowsByOne (system closed.now) (kept.now ++ rest.now) (difference_of bound) }
{
    follows_by_links(closed, kept, bound) || follows_by_links(closed, rest, bound)
}

// Whether a bound follows from the ranges of its sides or from one of these links.
fn follows(
    closed: &ClosedSystem,
    kept: &[ColumnLink],
    rest: &[ColumnLink],
    bound: ColumnBound,
) -> bool
    ensures { IsTrue result ↔ Follows (system closed.now) (map atom_of (kept.now ++ rest.now)) (element.Attr bound.left) (element.Attr bound.right) bound.by }
{
    follows_by_ranges(closed, bound) || follows_by_either(closed, kept, rest, bound)
}

// Whether each of two columns is at most the other.
fn follow_both(
    closed: &ClosedSystem,
    kept: &[ColumnLink],
    rest: &[ColumnLink],
    left: Attr,
    right: Attr,
) -> bool
    ensures { IsTrue result ↔ Goes (system closed.now) (map atom_of (kept.now ++ rest.now)) (comparison (element.Attr left) Op.Eq (element.Attr right)) }
{
    follows(closed, kept, rest, ColumnBound { left, right, by: 0 })
        && follows(closed, kept, rest, turned_bound(left, right, 0))
}

// Whether one of two columns is below the other.
fn follows_one(
    closed: &ClosedSystem,
    kept: &[ColumnLink],
    rest: &[ColumnLink],
    left: Attr,
    right: Attr,
) -> bool
    ensures { IsTrue result ↔ Goes (system closed.now) (map atom_of (kept.now ++ rest.now)) (comparison (element.Attr left) Op.Ne (element.Attr right)) }
{
    follows(
        closed,
        kept,
        rest,
        ColumnBound {
            left,
            right,
            by: -1,
        },
    ) || follows(closed, kept, rest, turned_bound(left, right, -1))
}

// Whether a link goes beside these.
fn goes(closed: &ClosedSystem, kept: &[ColumnLink], rest: &[ColumnLink], link: ColumnLink) -> bool
    ensures { IsTrue result ↔ Goes (system closed.now) (map atom_of (kept.now ++ rest.now)) (atom_of link) }
{
    let ColumnLink { left, op, right } = link;
    match op {
        Op::Lt => follows(
            closed,
            kept,
            rest,
            ColumnBound {
                left,
                right,
                by: -1,
            },
        ),
        Op::Le => follows(closed, kept, rest, ColumnBound { left, right, by: 0 }),
        Op::Gt => follows(closed, kept, rest, turned_bound(left, right, -1)),
        Op::Ge => follows(closed, kept, rest, turned_bound(left, right, 0)),
        Op::Eq => follow_both(closed, kept, rest, left, right),
        Op::Ne => follows_one(closed, kept, rest, left, right),
    }
}

/// Returns the links of a query, in their order.
pub fn links_of(closed: &ClosedSystem) -> ArrayVec<ColumnLink, 24>
    ensures { AreLinks closed.now (map atom_of result.items) }
{
    let SignedQuery {
        query,
        pairs,
        signs,
    } = closed.signed();
    let across = across(query, pairs, signs);
    let all = across.as_slice();
    let mut kept: ArrayVec<ColumnLink, 24> = ArrayVec::new();
    for i in 0..all.len() {
        let link = all[i];
        let is_implied = goes(closed, kept.as_slice(), &all[i + 1..], link);
        push_unless(&mut kept, is_implied, link);
    }
    kept
}
