//! What difference bounds imply over the integers.
//!
//! A constraint says that one node is at most so much above another. Node 0 is the number 0, and node i is the i-th
//! attribute of a query, from 1. `Bounds` keeps constraints and answers what they imply, with witnesses: whether some
//! integers meet all, the least bound of a difference, the order of two elements, the least and the greatest value of a
//! node, a solution with a given value, a chain of constraints that gives a bound, and a negative cycle. `Closure` is
//! what these answers are read from, without the constraints themselves: a table of bounds between at most 13 nodes,
//! kept closed. Adding a constraint takes a number of steps that is quadratic in the nodes, and none where it says
//! nothing new; nothing allocates. `Distances` are the bounds of such a table alone, for questions that no chain answers: less to copy,
//! and less to do for each constraint. `choices` are the constraints of each sign of each pair of a query, worked out once.
#![tactic(auto)]

mod bounds;
mod choosing;
mod closure;
mod distance;
mod distances;
mod entry;
mod path;
mod solution;

pub use bounds::Bounds;
pub use choosing::{Choice, choices};
pub use closure::Closure;
pub use distances::Distances;
