//! Laws of checkpoints, over the definitions of `cmd_session`.
//!
//! Each law is a public function without a body, and its clause is the law. They say that states that keep the same are one to a
//! session and to its user: lines that are given to either are answered alike.
#![tactic(auto)]

pub mod laws;
