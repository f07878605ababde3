//! The least number of ranges with which a query that a limit refuses is accepted in each.
//!
//! The keys by which shards get their rows are narrowed together: the values that their domains have in common are cut into ranges that follow each
//! other, and in each shard each key that the query reads has one of these ranges as its domain. Each of the narrowed queries is asked of the decision
//! itself, since a narrower domain may be refused where a wider one is accepted.
#![tactic(auto)]

mod accepting;
mod cutting;
mod keys;
pub mod laws;
mod narrowing;
mod ranges;
mod searching;

pub use accepting::{is_accepted, limit_of};
pub use ranges::{Ranges, ranges_for};
pub use searching::Least;
