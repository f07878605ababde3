//! A session that answers each line by exactly one line.
//!
//! `run_each` does what `run_lines` does, but that each reply is written as one line: the lines of the reply joined by `;`, or an empty line. It is
//! a loop of its own, so those who do not ask for it pay nothing. It takes no memory.
#![tactic(auto)]

mod base;
mod exchange;
pub mod laws;
mod one_line;
mod run;

pub use run::run_each;
