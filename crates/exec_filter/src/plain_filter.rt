//! Filters without DISTINCT: such a filter answers just the rows that pass its prefilter and meet what that leaves open.
ghost use Rattle.std.specs.Prelude.{◌≡◌, ◌<◌, ◌≤◌, ◌+◌, ℤ, List, [], ◌∷◌, ◌&&◌, true, length, map, slice_index_or, IfSome};
ghost use Rattle.std.specs.List.{list_all};
ghost use Rattle.sem_query.specs.declared.plan.Plan.TheVariants as plans;
ghost use Rattle.sem_query.specs.Assignment.{compares, meets};
ghost use Rattle.sem_query.specs.Meaning.{by_column, assignment_of};
ghost use Rattle.exec_filter.specs.Prefilter.{lies_in, is_within, lets_in};
ghost use Rattle.exec_filter.specs.PlainFilter.{IsPlainFilter};

use crate::interval::{ValueInterval, is_here};
use crate::prefilter::{ColumnInterval, Prefilter, StreamFilter, stream_of};
use arrayvec::ArrayVec;
use sem_query::{Atom, Attr, Element, Op, Plan, Query};

/// The selected columns of a filter without DISTINCT, and those of its comparisons that not every row that passes its prefilter meets.
#[derive(Drop)]
pub struct PlainFilter {
    pub selected: ArrayVec<u8, 8>,
    pub unimplied: ArrayVec<Atom, 16>,
}

// Whether each integer of an interval stands so to one. Where an end is no bound, the answer may be no.
fn implies(interval: ValueInterval, op: Op, k: i64) -> bool
    ensures { result ≡ true → (x : ℤ) → lies_in interval x ≡ true → compares op x k ≡ true }
{
    match op {
        Op::Lt => interval.greatest < k,
        Op::Eq => { interval.least == k && interval.greatest == k && i64::MIN < k && k < i64::MAX }
        Op::Gt => k < interval.least,
        Op::Le => interval.greatest <= k && interval.greatest < i64::MAX,
        Op::Ge => k <= interval.least && i64::MIN < interval.least,
        Op::Ne => interval.greatest < k || k < interval.least,
    }
}

// Whether each row that lies within a range meets a comparison.
fn range_implies(range: &ColumnInterval, atom: &Atom) -> bool
    ensures { result ≡ true → (values : List ℤ) → is_within (by_column values) range.now ≡ true → meets (assignment_of (values ∷ [])) atom.now ≡ true }
{
    match (atom.left, atom.right) {
        (Element::Attr(attr), Element::Const(k)) if is_here(attr, range.column) => {
            implies(range.interval, atom.op, k)
        }
        _ => false,
    }
}

// Whether each row that lies within all of some ranges meets a comparison.
fn ranges_imply(ranges: &[ColumnInterval], atom: &Atom) -> bool
    ensures { result ≡ true → (values : List ℤ) → list_all (is_within (by_column values)) ranges.now ≡ true → meets (assignment_of (values ∷ [])) atom.now ≡ true }
{
    match ranges {
        [] => false,
        [range, others @ ..] => range_implies(range, atom) || ranges_imply(others, atom),
    }
}

// Whether each row that a stream's filter lets in meets a comparison.
fn filter_implies(stream_filter: &StreamFilter, atom: &Atom) -> bool
    ensures { result ≡ true → (values : List ℤ) → lets_in stream_filter.now (by_column values) ≡ true → meets (assignment_of (values ∷ [])) atom.now ≡ true }
{
    range_implies(&stream_filter.first, atom) || ranges_imply(stream_filter.others.as_slice(), atom)
}

// Adds a comparison, where not each row that a stream's filter lets in meets it.
fn put_unimplied(unimplied: &mut ArrayVec<Atom, 16>, stream_filter: &StreamFilter, atom: &Atom)
    requires room { length unimplied.old.items < 16 }
    ensures all { (values : List ℤ) → lets_in stream_filter.now (by_column values) ≡ true → list_all (meets (assignment_of (values ∷ []))) unimplied.new.items ≡ (list_all (meets (assignment_of (values ∷ []))) unimplied.old.items && meets (assignment_of (values ∷ [])) atom.now) }
    ensures few { length unimplied.new.items ≤ length unimplied.old.items + 1 }
{
    if filter_implies(stream_filter, atom) {
        return;
    }
    unimplied.push(*atom);
}

// Those of some comparisons that not each row that a stream's filter lets in meets.
fn unimplied_of(stream_filter: &StreamFilter, atoms: &[Atom]) -> ArrayVec<Atom, 16>
    requires { length atoms.now ≤ 16 }
    ensures { (values : List ℤ) → lets_in stream_filter.now (by_column values) ≡ true → list_all (meets (assignment_of (values ∷ []))) result.items ≡ list_all (meets (assignment_of (values ∷ []))) atoms.now }
{
    let mut unimplied: ArrayVec<Atom, 16> = ArrayVec::new();
    'atoms: for atom in atoms {
        put_unimplied(&mut unimplied, stream_filter, atom);
    }
    unimplied
}

// The columns of the first stream of FROM that these are, where all are of it.
fn selected_columns(select: &[Attr]) -> Option<ArrayVec<u8, 8>>
    requires { length select.now ≤ 8 }
    ensures value { IfSome result (λ columns. (values : List ℤ) → map (assignment_of (values ∷ [])) select.now ≡ map (by_column values) columns.items) }
    ensures width { IfSome result (λ columns. length columns.items ≡ length select.now) }
{
    let mut columns: ArrayVec<u8, 8> = ArrayVec::new();
    'selected: for attr in select {
        if attr.stream != 0 {
            return None;
        }
        columns.push(attr.column);
    }
    Some(columns)
}

// Whether a prefilter has one stream, the first of FROM.
fn is_alone(q: &Query, prefilter: &Prefilter) -> bool
    ensures stream { result ≡ true → prefilter.now.front.stream ≡ slice_index_or q.now.from 0 0 }
    ensures single { result ≡ true → prefilter.now.others.items ≡ [] }
{
    prefilter.front.stream == stream_of(q.from(), 0) && prefilter.others.is_empty()
}

// What is asked of the rows that pass the prefilter of a filter, which has no DISTINCT and selects columns of its one stream.
fn plain_filter_alone(q: &Query, prefilter: &Prefilter) -> Option<PlainFilter>
    ensures { IfSome result (λ f. IsPlainFilter q.now plans.Filter prefilter.now f) }
{
    if q.distinct() || !is_alone(q, prefilter) {
        return None;
    }
    match selected_columns(q.select()) {
        Some(selected) => Some(PlainFilter {
            selected,
            unimplied: unimplied_of(&prefilter.front, q.atoms()),
        }),
        None => None,
    }
}

/// Returns what is asked of the rows that pass the prefilter of a query, where the query is a filter without DISTINCT.
pub fn plain_filter_of(q: &Query, plan: &Plan, prefilter: &Prefilter) -> Option<PlainFilter>
    ensures { IfSome result (λ f. IsPlainFilter q.now plan.now prefilter.now f) }
{
    match plan {
        Plan::Filter => plain_filter_alone(q, prefilter),
        Plan::Parts { .. } => None,
    }
}
