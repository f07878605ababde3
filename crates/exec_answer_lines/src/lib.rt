//! The lines of answers, made in room that the caller keeps, which is not cleared in between. A line stands at the end of its room; a short
//! one is copied before itself, so that one that waits several times is written by one call of the sink. Digits come three at a time. Lines of
//! several queries are gathered in room of their own, and the text of a tuple is kept for further queries that answer with it.
#![tactic(auto)]

mod answer_lines;
mod kept;
mod lines;
mod threes;

pub use answer_lines::AnswerLines;
