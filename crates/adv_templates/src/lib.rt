//! Templates of sentences: fixed text with holes, which names and numbers fill.
#![tactic(auto)]

mod template;

pub use template::{Filling, Written, write_filled};
