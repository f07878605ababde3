//! What it comes to that the program ends with status 0, alone and readable.
//!
//! The laws are public functions without a body, and their clauses are the laws. They follow from how `cmd_dispatch` ends; `docs/TRUSTED.md`, which is
//! written from these sources, has the definitions that they name, in reading order.
#![tactic(auto)]

pub mod laws;
