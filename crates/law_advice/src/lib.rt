//! Laws that what is found for a line is what a session answers, and that what `advise` tells is so in a session.
//!
//! The laws are public functions without a body, and their clauses are the laws, over the definitions of `adv_diagnosis`, `cmd_advise`, `adv_mends` and of
//! `cmd_session`.
#![tactic(auto)]

pub mod laws;
