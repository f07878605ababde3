//! What difference constraints are, and what the comparisons, domains and signs of a query say as constraints.
//!
//! A constraint says that one node is at most so much above another. Node 0 is the number 0, and node i is the i-th
//! attribute of a query, from 1. `constraints` tells how two elements stand to each other, `of_query` what a query's
//! comparisons and domains say. A soft comparison has no constraint: `fails_by` and `denies_itself` tell where it is false by a
//! sign or by its sides alone. What constraints mean stands in `specs`:
//! solutions, what all solutions keep, chains, the constraints of the first signs of a part, and closed tables of bounds.
//! Nothing here works out what they imply.
#![tactic(auto)]

mod comparisons;
mod constraint;
mod nodes;
mod soft;

pub use comparisons::{add_each, of_query};
pub use constraint::Constraint;
pub use nodes::{constraints, difference, node, place_of};
pub use soft::{denies_itself, fails_by};
