//! A prefilter before the parts of a query: a row outside the ranges of its columns is answered nothing, and no part admits it.
ghost use Rattle.std.specs.Prelude.{◌≡◌, ◌&&◌, ◌≤◌, ◌<◌, ◌+◌, ℕ, ℤ, List, [], ◌∷◌, true, length, slice_index_or};
ghost use Rattle.std.specs.List.{list_all};
ghost use Rattle.sem_query.specs.declared.plan.Plan.TheVariants as plans;
ghost use Rattle.sem_query.specs.Assignment.{meets};
ghost use Rattle.sem_query.specs.Meaning.{by_column, assignment_of};
ghost use Rattle.exec_filter.specs.Prefilter.{is_above, is_below, lies_in, is_within, is_within_some, lets_in, comes_in, passes, IsPrefilter, Passes, AreStreamFilters};

use crate::interval::{ValueInterval, interval_alone, interval_over, unbounded};
use arrayvec::ArrayVec;
use sem_query::{Atom, PartPlans, Plan, Query, Row, value_at};

/// Between which integers a column lies.
#[derive(Clone, Copy, Debug, Default, PartialEq, Eq)]
pub struct ColumnInterval {
    pub column: u8,
    pub interval: ValueInterval,
}

/// A stream of FROM, and the ranges outside of which a row of it is refused. The range that is asked first stands by itself;
/// where no column is bounded it bounds nothing.
#[derive(Drop, Default)]
pub struct StreamFilter {
    pub stream: u8,
    pub first: ColumnInterval,
    pub others: ArrayVec<ColumnInterval, 8>,
}

/// The streams of FROM, each with its ranges. The first stream stands by itself, since it is the only one of most queries.
#[derive(Drop)]
pub struct Prefilter {
    pub front: StreamFilter,
    pub others: ArrayVec<StreamFilter, 4>,
}

// Whether an integer is not below the least of the bounds.
fn is_above(least: i64, x: i64) -> bool
    ensures { result ≡ is_above least x }
{
    least <= x
}

// Whether it is not above the greatest.
fn is_below(greatest: i64, x: i64) -> bool
    ensures { result ≡ is_below greatest x }
{
    x <= greatest
}

// Whether a row lies within a range.
fn is_within(row: &[i64], range: &ColumnInterval) -> bool
    ensures { result ≡ is_within (by_column row.now) range.now }
{
    let x = value_at(row, range.column);
    is_above(range.interval.least, x) && is_below(range.interval.greatest, x)
}

// Whether a row lies within each of some ranges.
#[inline(always)]
fn is_within_each(row: &[i64], ranges: &[ColumnInterval]) -> bool
    ensures { result ≡ list_all (is_within (by_column row.now)) ranges.now }
{
    ranges.iter().all(|range| is_within(row, range))
}

// The same. It is not inlined, so that a row that the first range refuses pays nothing for it.
#[inline(never)]
fn is_within_all(row: &[i64], ranges: &[ColumnInterval]) -> bool
    ensures { result ≡ list_all (is_within (by_column row.now)) ranges.now }
{
    is_within_each(row, ranges)
}

// Whether a stream's filter lets a row in.
fn lets_in(stream_filter: &StreamFilter, row: &[i64]) -> bool
    ensures { result ≡ lets_in stream_filter.now (by_column row.now) }
{
    is_within(row, &stream_filter.first) && is_within_all(row, stream_filter.others.as_slice())
}

// Whether a row comes in. It is not inlined, so that a row of the first stream pays nothing for it.
#[inline(never)]
fn comes_in(stream_filters: &[StreamFilter], stream: u8, row: &[i64]) -> bool
    ensures { result ≡ comes_in (record { stream = stream; values = row.now }) stream_filters.now }
{
    match stream_filters {
        [] => false,
        [stream_filter, others @ ..] => {
            if stream_filter.stream == stream {
                lets_in(stream_filter, row)
            } else {
                comes_in(others, stream, row)
            }
        }
    }
}

impl Prefilter {
    /// Returns whether a row passes, where FROM has one stream. It is inlined, and calls nothing.
    #[inline(always)]
    pub fn passes_alone(&self, stream: u8, row: &Row) -> bool
        requires { self.now.others.items ≡ [] }
        ensures { result ≡ passes self.now (record { stream = stream; values = row.now.items }) }
    {
        let values = row.as_slice();
        self.front.stream == stream
            && is_within(values, &self.front.first)
            && is_within_each(values, self.front.others.as_slice())
    }

    /// Returns whether a row passes; one that does not is answered nothing, and no cell takes it.
    pub fn passes(&self, stream: u8, row: &Row) -> bool
        ensures { result ≡ passes self.now (record { stream = stream; values = row.now.items }) }
    {
        if self.front.stream == stream {
            lets_in(&self.front, row.as_slice())
        } else {
            match self.others.as_slice() {
                [] => false,
                others => comes_in(others, stream, row.as_slice()),
            }
        }
    }
}

// Whether a range lets fewer integers in than the first of some, so that it is worth to be asked before them.
fn is_narrower(range: ColumnInterval, ranges: &[ColumnInterval]) -> bool {
    match ranges.first() {
        Some(first) => range.interval.width() < first.interval.width(),
        None => false,
    }
}

// Adds a range, where there is one.
fn put(ranges: &mut ArrayVec<ColumnInterval, 8>, range: Option<ColumnInterval>)
    requires room { length ranges.old.items < 8 }
    ensures all { (v : ℕ → ℤ) → list_all (is_within v) ranges.new.items ≡ (list_all (is_within v) ranges.old.items && is_within_some v range) }
    ensures few { length ranges.new.items ≤ length ranges.old.items + 1 }
{
    match range {
        Some(range) => {
            if is_narrower(range, ranges.as_slice()) {
                ranges.insert(0, range);
                return;
            }
            ranges.push(range);
        }
        None => {}
    }
}

// An interval that bounds nothing is left out.
fn if_bounded(column: u8, interval: ValueInterval) -> Option<ColumnInterval>
    ensures { (v : ℕ → ℤ) → lies_in interval (v column) ≡ true → is_within_some v result ≡ true }
{
    if interval.least == i64::MIN && interval.greatest == i64::MAX {
        None
    } else {
        Some(ColumnInterval { column, interval })
    }
}

// The ranges of the columns of a row that meets some comparisons by itself.
fn ranges_alone(atoms: &[Atom]) -> ArrayVec<ColumnInterval, 8>
    ensures { (values : List ℤ) → list_all (meets (assignment_of (values ∷ []))) atoms.now ≡ true → list_all (is_within (by_column values)) result.items ≡ true }
{
    let mut ranges: ArrayVec<ColumnInterval, 8> = ArrayVec::new();
    'columns: for column in 0..8u8 {
        put(
            &mut ranges,
            if_bounded(column, interval_alone(atoms, column)),
        );
    }
    ranges
}

// The range of a column over the rows of a stream that some part may admit, where each part tells one.
fn range_at(parts: &PartPlans, place: u8, column: u8) -> Option<ColumnInterval>
    ensures { Passes parts.now place (λ v. is_within_some v result) }
{
    match interval_over(parts, place, column) {
        Some(interval) => Some(ColumnInterval { column, interval }),
        None => None,
    }
}

// The ranges of the columns of the rows of a stream that some part may admit.
fn ranges_at(parts: &PartPlans, place: u8) -> ArrayVec<ColumnInterval, 8>
    ensures { Passes parts.now place (λ v. list_all (is_within v) result.items) }
{
    let mut ranges: ArrayVec<ColumnInterval, 8> = ArrayVec::new();
    'columns: for column in 0..8u8 {
        put(&mut ranges, range_at(parts, place, column));
    }
    ranges
}

/// Returns the stream at a place of FROM.
pub fn stream_of(from: &[u8], place: usize) -> u8
    requires { place < length from.now }
    ensures { result ≡ slice_index_or from.now place 0 }
{
    from[place]
}

// The filter of a stream with its ranges, of which the first is asked first.
fn stream_filter_of(stream: u8, ranges: ArrayVec<ColumnInterval, 8>) -> StreamFilter
    ensures stream { result.stream ≡ stream }
    ensures ranges { (v : ℕ → ℤ) → lets_in result v ≡ list_all (is_within v) ranges.items }
{
    let mut others = ranges;
    if others.is_empty() {
        return StreamFilter {
            stream,
            first: ColumnInterval {
                column: 0,
                interval: unbounded(),
            },
            others,
        };
    }
    let first = others.remove(0);
    StreamFilter {
        stream,
        first,
        others,
    }
}

// The filter of the stream at a place of FROM over all parts.
fn stream_filter_at(from: &[u8], parts: &PartPlans, place: usize) -> StreamFilter
    requires there { place < length from.now }
    requires few { length from.now ≤ 4 }
    ensures stream { result.stream ≡ slice_index_or from.now place 0 }
    ensures ranges { Passes parts.now place (lets_in result) }
{
    stream_filter_of(stream_of(from, place), ranges_at(parts, place as u8))
}

// The streams of FROM with their ranges over all parts.
fn stream_filters_of(from: &[u8], parts: &PartPlans) -> ArrayVec<StreamFilter, 4>
    requires { length from.now ≤ 4 }
    ensures { AreStreamFilters from.now parts.now result.items }
{
    let mut stream_filters: ArrayVec<StreamFilter, 4> = ArrayVec::new();
    'places: for place in 0..from.len() {
        stream_filters.push(stream_filter_at(from, parts, place));
    }
    stream_filters
}

// The prefilter of the streams of FROM over all parts.
fn prefilter_over(from: &[u8], parts: &PartPlans) -> Prefilter
    requires some { 0 < length from.now }
    requires few { length from.now ≤ 4 }
    ensures { AreStreamFilters from.now parts.now (result.front ∷ result.others.items) }
{
    let mut others = stream_filters_of(from, parts);
    let front = others.remove(0);
    Prefilter { front, others }
}

// The prefilter of a filter, which has one stream.
fn prefilter_alone(q: &Query) -> Prefilter
    ensures { IsPrefilter q.now plans.Filter result }
{
    Prefilter {
        front: stream_filter_of(stream_of(q.from(), 0), ranges_alone(q.atoms())),
        others: ArrayVec::new(),
    }
}

/// Returns the prefilter of a query with a plan.
pub fn prefilter_of(q: &Query, plan: &Plan) -> Prefilter
    ensures { IsPrefilter q.now plan.now result }
{
    match plan {
        Plan::Filter => prefilter_alone(q),
        Plan::Parts { parts, .. } => prefilter_over(q.from(), parts),
    }
}
