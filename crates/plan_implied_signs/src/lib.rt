//! Which sign a pair has in all rows that a part admits, and which conditions a sign says.
//!
//! A sign is shown by the part's own sign of a pair of the query, or by the part's conditions on rows of one stream: each comparison leaves out some
//! signs of its sides, and where one is left, each admitted row has it.
#![tactic(auto)]

mod showing;

pub use showing::{Test, says_condition, shown_sign};
