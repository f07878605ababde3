//! Which of at most 64 queries a row may concern, by a box of intervals for each.
//!
//! The values of a column fall into 256 buckets: one for all below the least end of an interval, and the others of equal width from there on.
//! Each bucket has a word with a bit for each query whose interval meets it. A row is looked up in each column that some query bounds, and
//! the words are joined by AND: a query whose bit is not set does not hold the row in its box. One whose bit is set may, since a bucket is
//! wider than a value. A second word has a bit for each query whose interval holds all of the bucket, which need not be asked again. Only
//! `Candidates::new` takes room.
#![tactic(auto)]

mod boxes;
mod candidates;
mod column;
mod words;

pub use boxes::{Interval, QueryBox};
pub use candidates::{Candidates, Concerns};
pub use words::{has_bit, lowest_bit, with_bit, without_bit};
