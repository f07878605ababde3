//! A session inside another program: texts of whole lines go in, and the replies are kept in memory until they are cleared.
//!
//! The replies to all that a session is fed are its session text: feeding a text and then another is feeding the one that they make.
#![tactic(auto)]

mod answering;
mod embedded;
pub mod laws;
mod outcome;
mod replies;

pub use embedded::Embedded;
pub use outcome::{Fed, FeedOutcome};
pub use replies::Replies;
