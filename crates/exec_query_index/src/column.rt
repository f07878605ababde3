//! One column: the buckets of its values, and the queries of each.
ghost use Rattle.std.specs.Prelude.{◌≡◌, ◌≢◌, ℕ, ◌<◌, ◌≤◌, pos, length, filter, nat_eq, slice_index_or, Some};
ghost use Rattle.std.specs.Int.{bit_at};
ghost use Rattle.exec_query_index.specs.Boxes.{unbounded};
ghost use Rattle.exec_query_index.specs.declared.boxes.QueryBox.{QueryBox};
ghost use Rattle.exec_query_index.specs.Buckets.{bucket, word_at, IsMachine, IsColumn, MarksBuckets};

use crate::boxes::{Interval, QueryBox};
use crate::words::with_bit;

/// Where the buckets begin, and how wide they are: 2 to the power of a number.
#[derive(Clone, Copy, Debug)]
pub struct Grid {
    pub low: i64,
    pub shift: u32,
}

/// A column of rows, its buckets, and for each of them the queries whose interval meets it, and those whose interval holds all of it.
#[derive(Clone, Copy, Debug)]
pub struct Column {
    pub column: u8,
    pub grid: Grid,
    pub words: [u64; 256],
    pub within: [u64; 256],
}

impl Grid {
    /// Returns the bucket of an integer.
    pub fn bucket(&self, x: i64) -> usize
        ensures value { result ≡ bucket self.now x }
        ensures few { result < 256 }
    {
        if x < self.low {
            return 0;
        }
        let step = x.abs_diff(self.low) >> (self.shift % 64);
        1 + step.min(254) as usize
    }
}

// The ends of an interval that are bounds, within what they span so far.
fn widen(span: &mut Interval, interval: &Interval) {
    for end in [interval.least, interval.greatest] {
        if end != i64::MIN && end != i64::MAX {
            span.least = span.least.min(end);
            span.greatest = span.greatest.max(end);
        }
    }
}

// What the bounds of all boxes in a column span; the least is above the greatest where there are none.
fn span_of(boxes: &[Option<QueryBox>], column: usize) -> Interval
    requires { column < 8 }
{
    let mut span = Interval {
        least: i64::MAX,
        greatest: i64::MIN,
    };
    for place in boxes {
        if let Some(own) = place {
            widen(&mut span, &own.columns[column]);
        }
    }
    span
}

// The buckets over a span: as narrow as 254 of them can be.
fn grid_over(span: Interval) -> Grid {
    let bits = 64 - span.greatest.abs_diff(span.least).leading_zeros();
    Grid {
        low: span.least,
        shift: bits.saturating_sub(8),
    }
}

// Sets a bit in the words from a bucket to another.
fn mark(words: &mut [u64; 256], from: usize, to: usize, bit: usize)
    requires bit { bit < 64 }
    requires to { to < 256 }
    ensures size { length words.new ≡ length words.old }
    ensures own { (j : ℕ) → from ≤ j → j ≤ to → bit_at (slice_index_or words.new j 0) bit ≡ 1 }
    ensures kept { (j k : ℕ) → bit_at (slice_index_or words.old j 0) k ≡ 1 → bit_at (slice_index_or words.new j 0) k ≡ 1 }
{
    let mut j = from;
    'buckets: while j <= to {
        words[j] = with_bit(words[j], bit);
        j += 1;
    }
}

// Sets a bit in each bucket that an interval meets.
fn mark_interval(words: &mut [u64; 256], grid: &Grid, interval: &Interval, bit: usize)
    requires bit { bit < 64 }
    ensures size { length words.new ≡ length words.old }
    ensures own { (j : ℕ) → bucket grid.now interval.now.least ≤ j → j ≤ bucket grid.now interval.now.greatest → bit_at (slice_index_or words.new j 0) bit ≡ 1 }
    ensures kept { (j k : ℕ) → bit_at (slice_index_or words.old j 0) k ≡ 1 → bit_at (slice_index_or words.new j 0) k ≡ 1 }
{
    let from = grid.bucket(interval.least);
    let to = grid.bucket(interval.greatest);
    mark(words, from, to, bit);
}

// Sets the bit of a box, where there is one, in each bucket that its interval in a column meets.
fn mark_box(
    words: &mut [u64; 256],
    grid: &Grid,
    place: &Option<QueryBox>,
    column: usize,
    bit: usize,
)
    requires bit { bit < 64 }
    requires column { column < 8 }
    ensures size { length words.new ≡ length words.old }
    ensures own { (box : QueryBox) → place.now ≡ Some box → (j : ℕ) → bucket grid.now (slice_index_or box.columns column unbounded).least ≤ j → j ≤ bucket grid.now (slice_index_or box.columns column unbounded).greatest → bit_at (slice_index_or words.new j 0) bit ≡ 1 }
    ensures kept { (j k : ℕ) → bit_at (slice_index_or words.old j 0) k ≡ 1 → bit_at (slice_index_or words.new j 0) k ≡ 1 }
{
    if let Some(own) = place {
        mark_interval(words, grid, &own.columns[column], bit);
    }
}

// The words of all buckets.
fn words_of(boxes: &[Option<QueryBox>], column: usize, grid: &Grid) -> [u64; 256]
    requires few { length boxes.now ≤ 64 }
    requires column { column < 8 }
    ensures { MarksBuckets boxes.now column grid.now result }
{
    let mut words = [0; 256];
    for k in 0..boxes.len() {
        mark_box(&mut words, grid, &boxes[k], column, k);
    }
    words
}

// The first bucket of which an interval holds all, and the one behind the last. There may be none between.
fn buckets_within(grid: &Grid, interval: &Interval) -> (usize, usize)
    ensures { result.1 ≤ 256 }
{
    let from = match interval.least.checked_sub(1) {
        Some(below) => grid.bucket(below) + 1,
        None => 0,
    };
    let end = match interval.greatest.checked_add(1) {
        Some(above) => grid.bucket(above),
        None => 256,
    };
    (from, end)
}

// Sets the bit of a box in the words of the buckets of which its interval in a column holds all, where the query need not be asked.
fn mark_unasked(words: &mut [u64; 256], grid: &Grid, own: &QueryBox, column: usize, bit: usize)
    requires bit { bit < 64 }
    requires column { column < 8 }
{
    if !own.is_asked {
        mark_within(words, grid, &own.columns[column], bit);
    }
}

// Sets a bit in the words of the buckets of which an interval holds all.
fn mark_within(words: &mut [u64; 256], grid: &Grid, interval: &Interval, bit: usize)
    requires bit { bit < 64 }
{
    let (from, end) = buckets_within(grid, interval);
    for j in from..end {
        words[j] = with_bit(words[j], bit);
    }
}

// For each bucket the queries that need not be asked again. No answer rests on it: a query that is asked answers the same.
fn within_of(boxes: &[Option<QueryBox>], column: usize, grid: &Grid) -> [u64; 256]
    requires few { length boxes.now ≤ 64 }
    requires column { column < 8 }
{
    let mut words = [0; 256];
    for k in 0..boxes.len() {
        if let Some(own) = &boxes[k] {
            mark_unasked(&mut words, grid, own, column, k);
        }
    }
    words
}

impl Column {
    /// Returns the column of these boxes.
    pub fn over(boxes: &[Option<QueryBox>], column: usize) -> Column
        requires few { length boxes.now ≤ 64 }
        requires column { column < 8 }
        ensures column { result.column ≡ column }
        ensures marks { IsColumn boxes.now result }
    {
        let grid = grid_over(span_of(boxes, column));
        let words = words_of(boxes, column, &grid);
        let within = within_of(boxes, column, &grid);
        Column {
            column: column as u8,
            grid,
            words,
            within,
        }
    }

    /// Returns how many buckets are marked with no query.
    pub fn unmarked(&self) -> usize
        ensures { result ≡ length (filter (λ word. nat_eq word 0) self.now.words) }
    {
        self.words.iter().filter(|word| **word == 0).count()
    }

    /// Returns the queries that the bucket of a row's value, 0 where the row has none, is marked with, and those that hold all of it.
    #[inline(always)]
    pub fn of(&self, row: &[i64]) -> (u64, u64)
        ensures value { result.0 ≡ word_at self.now row.now }
        ensures machine { IsMachine (slice_index_or row.now self.now.column (pos 0)) }
    {
        let x = row.get(usize::from(self.column)).copied().unwrap_or(0);
        let bucket = self.grid.bucket(x);
        (self.words[bucket], self.within[bucket])
    }
}
