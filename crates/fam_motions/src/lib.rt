//! Assignments of a query that move in equal steps, number by number, so that no mixtures of two of them satisfy it.
//!
//! One assignment is worked out that satisfies the query (`base_of`). What a comparison says to be at most something else moves it along, so all that an
//! attribute leads to can be moved up with it where none of these has an upper end, and down with it where none has a lower one (`Block`). Two such blocks
//! are tried, by two comparisons between streams with a side at the same place of FROM. Nothing rests on how they are chosen: the values of all numbers
//! are made (`run`), each is tried by the query and its domains, and comparisons between streams must fail with what a later number has at the place and an
//! earlier one elsewhere, or the other way round. Where a `<>` alone moves, both its sides go to one end, the one elsewhere a step ahead: then a mixture fails
//! with the next number at the place, and no other does (`apart_as_next`). So what is found is right, and no clause says that something is found.
#![tactic(auto)]

mod base;
mod block;
mod drift;
mod mixing;
mod next;
mod open;
mod searching;
mod unequal;
mod values;

pub use searching::{apart, apart_once, different};
pub use unequal::apart_as_next;
pub use values::{Values, value_of};
