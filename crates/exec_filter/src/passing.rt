//! Boxes of intervals outside of which a prefilter refuses rows.
ghost use Rattle.std.specs.Prelude.{◌≡◌, ℕ, ℤ, List, ◌<◌, true, length};
ghost use Rattle.sem_query.specs.Meaning.{by_column};
ghost use Rattle.exec_query_index.specs.Boxes.{holds, IsInside};
ghost use Rattle.exec_filter.specs.Prefilter.{is_within, lets_in};
ghost use Rattle.exec_filter.specs.Passing.{IsBoxAmong, IsBoxOf, AreHeld};

use crate::prefilter::{ColumnInterval, Prefilter, StreamFilter};
use exec_query_index::{Interval, QueryBox};

// The interval of a range.
fn interval_of(range: &ColumnInterval) -> Interval
    ensures { (v : ℕ → ℤ) → is_within v range.now ≡ true → holds result (v range.now.column) ≡ true }
{
    Interval {
        least: range.interval.least,
        greatest: range.interval.greatest,
    }
}

// Puts a range in place of the interval of its column.
fn put(own: &mut QueryBox, range: &ColumnInterval)
    ensures { (v : ℕ → ℤ) → AreHeld own.old v → is_within v range.now ≡ true → AreHeld own.new v }
{
    let column = usize::from(range.column);
    if column < 8 {
        own.columns[column] = interval_of(range);
    }
}

// The box of the ranges of a stream's filter.
fn box_of(stream_filter: &StreamFilter) -> QueryBox
    ensures { (v : ℕ → ℤ) → lets_in stream_filter.now v ≡ true → AreHeld result v }
{
    let mut own = QueryBox::unbounded();
    put(&mut own, &stream_filter.first);
    for range in stream_filter.others.as_slice() {
        put(&mut own, range);
    }
    own
}

// The box of a stream's filter.
fn box_among(stream_filters: &[StreamFilter], stream: u8) -> Option<QueryBox>
    ensures { IsBoxAmong stream_filters.now stream result }
{
    match stream_filters {
        [] => None,
        [stream_filter, others @ ..] => {
            if stream_filter.stream == stream {
                Some(box_of(stream_filter))
            } else {
                box_among(others, stream)
            }
        }
    }
}

impl Prefilter {
    /// Returns a box of intervals outside of which no row of a stream passes. There is none where no row of it does.
    pub fn box_for(&self, stream: u8) -> Option<QueryBox>
        ensures { IsBoxOf self.now stream result }
    {
        if self.front.stream == stream {
            return Some(box_of(&self.front));
        }
        box_among(self.others.as_slice(), stream)
    }
}
