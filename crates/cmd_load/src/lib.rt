//! The generated load: a script of two streams, two queries and any number of rows.
//!
//! The rows are numbered from 1. Row i is made from the number x(i), where x(0) is 1 and x(i) follows from x(i - 1) by one step
//! of a linear generator, modulo 2^64.
#![tactic(auto)]

pub mod laws;
mod row;
mod script;

pub use row::LoadLine;
pub use script::LoadScript;
