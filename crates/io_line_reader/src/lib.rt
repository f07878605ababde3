//! Lines from a source that gives its bytes in pieces.
//!
//! A reader takes bytes from a source as it needs them, and gives the lines of all bytes one after another, however the reads
//! cut them. It works in one fixed buffer, which it takes when it is made.
#![tactic(auto)]

mod place;
mod reader;

pub use reader::{LineAnswer, LineReader};
