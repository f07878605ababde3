//! What may stand where a statement leaves the grammar, and what was most likely meant there.
//!
//! Each kind of token is tried behind what stands before the place, so that nothing is said here of the grammar itself. What was meant is
//! told by the bytes around the place, by the word there, and by the kinds of token that may stand there.
#![tactic(auto)]

mod candidates;
mod following;
mod hints;

pub use candidates::{Candidate, Continuations, told_as};
pub use following::{front_of, next_at, rest_of};
pub use hints::{Hint, Standing, hint_of, is_quote, standing_of};
