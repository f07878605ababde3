//! What is replied: the words for a refused line, and the text of each reply that has no row in it.
//!
//! The commands that read a script answer with the same words as a session, and stand beside it.
#![tactic(auto)]

mod refusal;
mod reply;

pub use refusal::{Refusal, parse_refusal, resolve_refusal, row_refusal, stream_refusal};
pub use reply::{
    condition_text, which_text, word_text, write_broken, write_created, write_dropped,
    write_filter, write_limit, write_locked, write_no_pages, write_numbers, write_refused,
    write_unlocked, write_violation,
};
