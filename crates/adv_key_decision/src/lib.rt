//! How the shards of a query answer, by the key columns of its streams.
//!
//! Rows of a stream go to shards by the value of its key column, or, where it has none, to each shard. The keys of a query are compared by its parts:
//! columns that its comparisons name are equal in every assignment that counts exactly where they are equal in each part. What is judged follows
//! from the laws of `sem_sharding`.
#![tactic(auto)]

mod equal;
mod grouping;
mod judging;
mod keys;
pub mod laws;

pub use grouping::{are_equal, classes};
pub use judging::{Judgement, judge};
pub use keys::key_at;
