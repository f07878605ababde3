//! Making certificates.
//!
//! `make` goes down the tree of signs of a form: each level gives one pair the signs less, equal and greater, in this order. The plain form
//! has the pairs of the query, the split form its split pairs, and the whole form none, so that its tree is one node.
//! A node holds the difference bounds of the comparisons, of the domains, and of the signs on the way to it. Where a comparison is false
//! under the next sign the branch is closed against it; where no integers meet the bounds a cycle shows it; where all pairs
//! have signs the node is a part, and the least paths between its nodes tell all that its constraints imply.
//!
//! The tree is at most 114 levels deep, as a form that has more pairs has no certificate. As LLVM compiles it, a level takes less than 10 KiB of stack,
//! most of it for the bounds that each level has of its own: about 1 MiB in all.
#![tactic(auto)]

mod adding;
mod against;
mod branches;
mod error;
mod leaf;
mod making;
mod node;
mod tree;

pub use error::MakeError;
pub use making::make;
