//! Boxes of intervals.
ghost use Rattle.std.specs.Prelude.{◌≡◌, ◌↔◌, ℕ, ◌<◌, false, slice_index_or};
ghost use Rattle.exec_query_index.specs.Boxes.{unbounded};

/// The integers from one up to another, both included. The least integer of 64 bits is no bound, and neither is the greatest.
#[derive(Clone, Copy, Debug, PartialEq, Eq)]
pub struct Interval {
    pub least: i64,
    pub greatest: i64,
}

/// What a query asks of a row: an interval for each column. Where it is asked of each row that it may concern, no row is told to be within.
#[derive(Clone, Copy, Debug)]
pub struct QueryBox {
    pub columns: [Interval; 8],
    pub is_asked: bool,
}

impl Interval {
    /// Returns the interval of all integers.
    pub fn unbounded() -> Interval
        ensures { result ≡ unbounded }
    {
        Interval {
            least: i64::MIN,
            greatest: i64::MAX,
        }
    }

    /// Returns whether it is not the interval of all integers.
    pub fn is_bounded(&self) -> bool
        ensures { (result ≡ false) ↔ (self.now ≡ unbounded) }
    {
        self.least != i64::MIN || self.greatest != i64::MAX
    }
}

impl QueryBox {
    /// Returns the box of all rows.
    pub fn unbounded() -> QueryBox
        ensures { (column : ℕ) → slice_index_or result.columns column unbounded ≡ unbounded }
    {
        QueryBox {
            columns: [Interval::unbounded(); 8],
            is_asked: false,
        }
    }

    /// Returns the box of the same intervals, of a query that is asked of each row that it may concern or is not.
    pub fn with_asked(self, is_asked: bool) -> QueryBox
        ensures { result ≡ record { columns = self.columns; is_asked = is_asked } }
    {
        let columns = self.columns;
        QueryBox { columns, is_asked }
    }
}
