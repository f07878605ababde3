//! What is wrong with a line, in a sentence for people: the line, a mark below the place where there is one, and what to do.
#![tactic(auto)]

mod lists;
mod sentences;
mod texts;
mod writing;

pub use writing::write_fault;
