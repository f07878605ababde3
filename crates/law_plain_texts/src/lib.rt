//! Laws of sessions of which few kinds of lines are used: what is replied is told by few definitions.
//!
//! The laws are public functions without a body, and their clauses are the laws, over the definitions of `cmd_session`.
#![tactic(auto)]

pub mod laws;
