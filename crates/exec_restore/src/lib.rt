//! What a checkpoint may put into a query: the content of a cell, and tuples that were printed.
//!
//! A cell takes what fits its kind, where it is empty. A tuple is taken where it lies in the ranges of some part, and then waits for nothing.
#![tactic(auto)]

mod loading;
mod ranges;

pub use loading::{cell_to_load, fill, put_printed};
