//! Checkpoints: the lines from which a fresh session goes on.
//!
//! One line creates a query again. The lines that tell what a query keeps say how many rows were given to it, the content of each of
//! its cells that is not empty, and with DISTINCT each tuple that was printed.
#![tactic(auto)]

mod writing;

pub use writing::{write_query_line, write_state};
