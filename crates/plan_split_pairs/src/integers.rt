//! The outer integers of a column.
ghost use Rattle.std.specs.Prelude.{◌≡◌, ◌+◌, ◌≤◌, ◌<◌, ◌++◌, if◌then◌else◌, ◌∷◌, [], length, take_while, int_lt, IsTrue};
ghost use Rattle.sem_query.specs.Query.{with_new, IsShort};
ghost use Rattle.sem_query.specs.Groups.{same_group};
ghost use Rattle.plan_split_pairs.specs.Outer.{flipped, outer_of, outer_in, outside, given_integers, nearest_short, outer_integers};
ghost use Rattle.plan_split_pairs.specs.Listed.{IsWrittenShort};

use crate::groups::are_joined;
use arrayvec::ArrayVec;
use sem_query::{Atom, Attr, Domain, Element, Op, Query};

/// Returns the operator with its sides exchanged.
pub fn flipped(op: Op) -> Op
    ensures { result ≡ flipped op }
{
    match op {
        Op::Lt => Op::Gt,
        Op::Eq => Op::Eq,
        Op::Gt => Op::Lt,
        Op::Le => Op::Ge,
        Op::Ge => Op::Le,
        Op::Ne => Op::Ne,
    }
}

// The integer beyond which a comparison with one, on its right, says the same of all values.
fn outer_of(op: Op, integer: i64) -> i64
    requires { IsShort integer }
    ensures { result ≡ outer_of op integer }
{
    match op {
        Op::Le => integer + 1,
        Op::Ge => integer - 1,
        Op::Lt | Op::Eq | Op::Gt | Op::Ne => integer,
    }
}

// Adds the outer integer of a comparison of a column with an integer, where the column is of the group of another.
fn push_outer(
    list: &mut ArrayVec<i64, 56>,
    q: &Query,
    attr: Attr,
    column: Attr,
    op: Op,
    integer: i64,
)
    requires compact { IsTrue q.now.compact }
    requires short { IsShort integer }
    requires room { length list.old.items < 56 }
    ensures { list.new.items ≡ list.old.items ++ (if same_group q.now.atoms attr column then outer_of op integer ∷ [] else []) }
{
    if are_joined(q, attr, column) {
        list.push(outer_of(op, integer));
    }
}

// Adds that of a comparison, where it is of a column of the group of another with an integer.
fn push_comparison(list: &mut ArrayVec<i64, 56>, q: &Query, attr: Attr, atom: &Atom)
    requires compact { IsTrue q.now.compact }
    requires short { IsWrittenShort atom.now }
    requires room { length list.old.items < 56 }
    ensures { list.new.items ≡ list.old.items ++ outer_in q.now.atoms attr atom.now.left atom.now.op atom.now.right }
{
    match (atom.left, atom.right) {
        (Element::Attr(column), Element::Const(integer)) => {
            push_outer(list, q, attr, column, atom.op, integer)
        }
        (Element::Const(integer), Element::Attr(column)) => {
            push_outer(list, q, attr, column, flipped(atom.op), integer)
        }
        (Element::Attr(_), Element::Attr(_)) | (Element::Const(_), Element::Const(_)) => {}
    }
}

// Adds the integers just outside of a domain, where its column is of the group of another.
fn push_domain(list: &mut ArrayVec<i64, 56>, q: &Query, attr: Attr, domain: &Domain)
    requires compact { IsTrue q.now.compact }
    requires low { IsShort domain.now.lo }
    requires high { IsShort domain.now.hi }
    requires room { length list.old.items + 2 ≤ 56 }
    ensures { list.new.items ≡ list.old.items ++ outside q.now.atoms attr domain.now }
{
    if are_joined(q, attr, domain.attr) {
        list.push(domain.lo - 1);
        list.push(domain.hi + 1);
    }
}

// What the comparisons give to the group of a column, and then the domains.
fn given_integers(q: &Query, attr: Attr) -> ArrayVec<i64, 56>
    requires { IsTrue q.now.compact }
    ensures { result.items ≡ given_integers q.now attr }
{
    let mut list = ArrayVec::new();
    'atoms: for atom in q.atoms() {
        push_comparison(&mut list, q, attr, atom);
    }
    'domains: for domain in q.domains() {
        push_domain(&mut list, q, attr, domain);
    }
    list
}

// How many integers stand before an integer.
fn integers_before(integers: &[i64], value: i64) -> usize
    ensures { result ≡ length (take_while (λ k. int_lt k value) integers.now) }
{
    integers.iter().take_while(|k| **k < value).count()
}

// Puts an integer among ascending integers, once.
fn put_integer(integers: &mut ArrayVec<i64, 56>, value: i64)
    requires { length (with_new int_lt value integers.old.items) ≤ 56 }
    ensures { integers.new.items ≡ with_new int_lt value integers.old.items }
{
    let place = integers_before(integers.as_slice(), value);
    if place == integers.len() || value < integers.as_slice()[place] {
        integers.insert(place, value);
    }
}

// The nearest integer of at most 15 digits.
fn nearest_short(integer: i64) -> i64
    ensures { result ≡ nearest_short integer }
{
    integer.clamp(-999_999_999_999_999, 999_999_999_999_999)
}

/// Returns the outer integers of a column of a compact query, ascending, each once: in place of one of more than 15 digits the nearest that has no more.
pub fn outer_integers(q: &Query, attr: Attr) -> ArrayVec<i64, 56>
    requires { IsTrue q.now.compact }
    ensures { result.items ≡ outer_integers q.now attr }
{
    let given = given_integers(q, attr);
    let mut list = ArrayVec::new();
    'integers: for integer in given.as_slice() {
        put_integer(&mut list, nearest_short(*integer));
    }
    list
}
