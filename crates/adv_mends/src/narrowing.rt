//! Narrower ranges of single columns that lift a limit.
ghost use Rattle.std.specs.Prelude.{◌≡◌, if◌then◌else◌, ◌+◌, ◌≤◌, ◌++◌, ◌+ℤ◌, ◌≤ℤ◌, neg_ℤ, pos, length, IfOk};
ghost use Rattle.sem_query.specs.Query.{attr_eq, IsShort};
ghost use Rattle.sem_query.specs.declared.atom.Op.TheVariants as op;
ghost use Rattle.adv_mends.specs.Mended.{compared};
ghost use Rattle.adv_mends.specs.Narrowed.{turned, from_on, up_to, cut, cut_by, domain_or, range_of, is_enclosed, halvings_from, halvings_of, AreNarrowings, AreShortSides};

use crate::comparing::{Base, Cheaper, add_first};
use crate::judging::Judgement;
use crate::mend::{GREATEST, widest_ends};
use crate::writing::{compared, domain_on};
use arrayvec::ArrayVec;
use sem_query::{Atom, Attr, Domain, Element, Op, Query, is_same};
use std::alloc::{AllocError, Global};

/// How often a range is halved.
const MOST_HALVINGS: u8 = 20;

// The operator of a comparison that is written the other way round.
fn turned(op: Op) -> Op
    ensures { result ≡ turned op }
{
    match op {
        Op::Lt => Op::Gt,
        Op::Eq => Op::Eq,
        Op::Gt => Op::Lt,
        Op::Le => Op::Ge,
        Op::Ge => Op::Le,
        Op::Ne => Op::Ne,
    }
}

// What is left of a range from an integer on.
fn from_on(range: Domain, least: i64) -> Domain
    ensures { result ≡ from_on range least }
{
    Domain {
        lo: range.lo.max(least),
        ..range
    }
}

// What is left of a range up to an integer.
fn up_to(range: Domain, greatest: i64) -> Domain
    ensures { result ≡ up_to range greatest }
{
    Domain {
        hi: range.hi.min(greatest),
        ..range
    }
}

// What a comparison of a column with an integer leaves of a range.
fn cut(range: Domain, column: Attr, op: Op, value: i64) -> Domain
    requires { IsShort value }
    ensures { result ≡ if attr_eq column range.attr then cut op value range else range }
{
    if !is_same(column, range.attr) {
        return range;
    }
    match op {
        Op::Lt => up_to(range, value - 1),
        Op::Le => up_to(range, value),
        Op::Gt => from_on(range, value + 1),
        Op::Ge => from_on(range, value),
        Op::Eq => up_to(from_on(range, value), value),
        Op::Ne => range,
    }
}

// What a comparison leaves of the range of a column.
fn cut_by(range: Domain, atom: Atom) -> Domain
    requires { AreShortSides atom }
    ensures { result ≡ cut_by range atom }
{
    match (atom.left, atom.right) {
        (Element::Attr(column), Element::Const(value)) => cut(range, column, atom.op, value),
        (Element::Const(value), Element::Attr(column)) => {
            cut(range, column, turned(atom.op), value)
        }
        (Element::Attr(_), Element::Attr(_)) | (Element::Const(_), Element::Const(_)) => range,
    }
}

// The domain of a column, or else all integers of at most 15 digits.
fn domain_or(domains: &[Domain], column: Attr) -> Domain
    ensures { result ≡ domain_or domains.now column }
{
    match domains {
        [] => domain_on(column, widest_ends()),
        [domain, others @ ..] => {
            if is_same(domain.attr, column) {
                *domain
            } else {
                domain_or(others, column)
            }
        }
    }
}

// The range of a column by its domain and its comparisons with integers.
#[tactic(auto, unfolding(crate::specs::Narrowed::range_of))]
fn range_of(query: &Query, column: Attr) -> Domain
    ensures { result ≡ range_of query.now column }
{
    let mut range = domain_or(query.domains(), column);
    'atoms: for atom in query.atoms() {
        range = cut_by(range, *atom);
    }
    range
}

// Whether a range has two integers at least and lies between the least and the greatest integer of 15 digits.
fn is_enclosed(range: Domain) -> bool
    ensures { result ≡ is_enclosed range }
{
    -GREATEST < range.lo && range.lo < range.hi && range.hi < GREATEST
}

// The comparison that leaves the integers of a range that are at most so far above its least.
fn within(range: Domain, width: u64) -> Atom
    requires low { neg_ℤ (pos 999999999999999) ≤ℤ range.lo }
    requires high { (range.lo +ℤ pos (width + 1)) ≤ℤ pos 999999999999999 }
    ensures { result ≡ compared range.attr op.Lt (range.lo +ℤ pos (width + 1)) }
{
    compared(range.attr, Op::Lt, range.lo + width as i64 + 1)
}

// Adds the comparisons that leave the lower half of a range of such a width, the lower half of that, and so on.
fn add_halvings(list: &mut ArrayVec<Atom, 20>, range: Domain, width: u64, more: u8)
    requires room { length list.old.items + more ≤ 20 }
    requires low { neg_ℤ (pos 999999999999999) ≤ℤ range.lo }
    requires high { (range.lo +ℤ pos width) ≤ℤ pos 999999999999999 }
    ensures { list.new.items ≡ list.old.items ++ halvings_from range width more }
{
    if more == 0 || width == 0 {
        return;
    }
    list.push(within(range, width / 2));
    add_halvings(list, range, width / 2, more - 1);
}

// The comparisons that leave the lower half of the range of a column, the lower half of that, and so on, where it has a range.
#[tactic(auto, unfolding(crate::specs::Narrowed::halvings_of))]
fn halvings_of(query: &Query, column: Attr) -> ArrayVec<Atom, 20>
    ensures { result.items ≡ halvings_of query.now column }
{
    let mut list = ArrayVec::new();
    let range = range_of(query, column);
    if is_enclosed(range) {
        add_halvings(&mut list, range, range.hi.abs_diff(range.lo), MOST_HALVINGS);
    }
    list
}

/// Returns for each column of the query that has a range the comparison that leaves the widest lower half of it with which the query is accepted with at least one
/// part: at most five, with its numbers, the fewest cells first. A range is halved up to 20 times. `AllocError` where a list or a plan finds no memory.
pub fn narrowings(
    alloc: Global,
    query: &Query,
    shared: bool,
    own: Judgement,
) -> Result<Vec<Cheaper>, AllocError>
    ensures { IfOk result (λ list. AreNarrowings shared query.now own list.items) }
{
    let base = Base {
        alloc,
        query,
        shared,
        own,
    };
    let mut best = Vec::new(alloc);
    'columns: for column in query.attrs() {
        add_first(&base, halvings_of(query, *column).as_slice(), &mut best)?;
    }
    Ok(best)
}
