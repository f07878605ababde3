//! The queries that a row may concern.
ghost use Rattle.std.specs.Prelude.{◌≡◌, ℕ, ◌<◌, ◌≤◌, List, [], length, false, slice_get, Option, Some, IfOk, pos, slice_index_or};
ghost use Rattle.std.specs.Int.{bit_at};
ghost use Rattle.exec_query_index.specs.declared.boxes.QueryBox.{QueryBox};
ghost use Rattle.exec_query_index.specs.declared.column.Column.{Column};
ghost use Rattle.exec_query_index.specs.Boxes.{IsInside, unbounded};
ghost use Rattle.exec_query_index.specs.Buckets.{AreColumns, IsColumn, AreFor, AreMarked, candidates_of, narrowed};

use crate::boxes::QueryBox;
use crate::column::Column;
use crate::words::named_of;
use std::alloc::{AllocError, Global};

/// A bit for each query that has a box, and the columns that some of them bounds.
#[derive(Drop)]
pub struct Candidates {
    pub named: u64,
    pub columns: Vec<Column>,
}

/// The queries that a row may concern, and those of them that hold it by the buckets alone. Nothing is promised of the latter: a query that
/// holds the row and has no bit there is asked by its prefilter.
#[derive(Clone, Copy, Debug)]
pub struct Concerns {
    pub word: u64,
    pub within: u64,
}

// Whether some box bounds a column.
fn is_bounded(boxes: &[Option<QueryBox>], column: usize) -> bool
    requires { column < 8 }
    ensures { result ≡ false → (k : ℕ) (box : QueryBox) → slice_get boxes.now k ≡ Some (Some box) → slice_index_or box.columns column unbounded ≡ unbounded }
{
    for place in boxes {
        if let Some(own) = place {
            if own.columns[column].is_bounded() {
                return true;
            }
        }
    }
    false
}

// Whether more buckets of a column are marked with no query than of the first of some columns.
fn tells_more(own: &Column, columns: &[Column]) -> bool {
    match columns.first() {
        Some(first) => own.unmarked() > first.unmarked(),
        None => false,
    }
}

// Puts a column before others.
fn put_first(columns: &mut Vec<Column>, own: Column)
    ensures { (boxes : List (Option QueryBox)) → AreColumns boxes columns.old.items → IsColumn boxes own → AreColumns boxes columns.new.items }
{
    // There is room; what a column that was left out would tell is told by the queries themselves.
    let _stored = columns.insert(0, own).is_ok();
}

// Puts a column behind others.
fn put_last(columns: &mut Vec<Column>, own: Column)
    ensures { (boxes : List (Option QueryBox)) → AreColumns boxes columns.old.items → IsColumn boxes own → AreColumns boxes columns.new.items }
{
    // Here too.
    let _stored = columns.push(own).is_ok();
}

// Puts the column of these boxes beside others. The one that tells most stands first: where nothing is left by it, the others are not looked
// at.
fn put_column(columns: &mut Vec<Column>, boxes: &[Option<QueryBox>], column: usize)
    requires few { length boxes.now ≤ 64 }
    requires column { column < 8 }
    requires others { AreColumns boxes.now columns.old.items }
    ensures { AreColumns boxes.now columns.new.items }
{
    let own = Column::over(boxes, column);
    if tells_more(&own, columns.as_slice()) {
        put_first(columns, own);
    } else {
        put_last(columns, own);
    }
}

// What is left of a word by all columns. Where nothing is left, the other columns are not looked at.
#[inline(always)]
fn narrowed(word: u64, row: &[i64], columns: &[Column]) -> Concerns
    ensures value { result.word ≡ narrowed word row.now columns.now }
    ensures held { (k : ℕ) → AreMarked k row.now columns.now → bit_at word k ≡ 1 → bit_at result.word k ≡ 1 }
{
    let mut left = word;
    let mut within = word;
    for column in columns {
        let (own, all) = column.of(row);
        left &= own;
        within &= all;
        if left == 0 {
            return Concerns { word: 0, within: 0 };
        }
    }
    Concerns { word: left, within }
}

impl Candidates {
    /// Returns the candidates of no queries, with room for the columns of 64.
    pub fn new(alloc: Global) -> Result<Candidates, AllocError>
        ensures { IfOk result (λ candidates. AreFor [] candidates) }
    {
        let columns = Vec::with_capacity(alloc, 8)?;
        Ok(Candidates { named: 0, columns })
    }

    /// Takes the boxes of at most 64 queries in place of those before; where a query has none, it is no candidate for any row.
    pub fn rebuild(&mut self, boxes: &[Option<QueryBox>])
        requires { length boxes.now ≤ 64 }
        ensures { AreFor boxes.now self.new }
    {
        self.named = named_of(boxes);
        self.columns.clear();
        for column in 0..8usize {
            if is_bounded(boxes, column) {
                put_column(&mut self.columns, boxes, column);
            }
        }
    }

    /// Returns the candidates for a row: a bit for each query whose box meets the bucket of each value.
    #[inline(always)]
    pub fn of(&self, row: &[i64]) -> Concerns
        ensures value { result.word ≡ candidates_of self.now row.now }
        ensures held { (boxes : List (Option QueryBox)) → AreFor boxes self.now → (k : ℕ) (box : QueryBox) → slice_get boxes k ≡ Some (Some box) → IsInside box row.now → bit_at result.word k ≡ 1 }
        ensures only { (boxes : List (Option QueryBox)) → AreFor boxes self.now → (k : ℕ) → bit_at result.word k ≡ 1 → k < length boxes }
    {
        let columns = self.columns.as_slice();
        if columns.len() == 1 {
            // Most often one column is bounded, and needs no loop.
            let (own, within) = columns[0].of(row);
            return Concerns {
                word: self.named & own,
                within,
            };
        }
        narrowed(self.named, row, columns)
    }
}
