//! The converse of the laws: which queries have an evaluator of few states.
#![tactic(auto)]

pub mod accepted;
pub mod beyond;
pub mod laws;
