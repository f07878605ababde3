//! A session over several feeds that take turns.
//!
//! In each round every feed that has not ended gives one line, in order, to the session. A feed whose source fails ends, and a line
//! that says so is written in its turn; the others go on. Behind a script, of which the lines are answered first, feeds give rows alone: each its
//! lines under a lock of its own. `run_feeds` says of each status what was taken of each source and what was written.
#![tactic(auto)]

mod behind_script;
mod ending;
mod feed_word;
mod gates;
pub mod laws;
mod program;
mod stage;
mod taking;
mod words;

pub use ending::FeedsEnding;
pub use feed_word::file_in;
pub use program::run_feeds;
pub use stage::{Lane, Stage};
pub use words::{FeedWords, feeds_of};
