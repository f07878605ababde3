//! The check of certificates: whether the nodes of one are a good tree, and what its leaves show of the query.
//!
//! The tree of a plain query is that of its parts. A compact query that is no filter has two: that of its whole form, which is one leaf, and that of
//! its split form; the first node of a certificate shows which.
#![tactic(auto)]

mod answer;
mod bounds;
mod breaking;
mod chain;
mod checking;
mod cursor;
mod decision;
mod form_break;
mod forming;
pub mod laws;
mod leaf;
mod links;
mod order;
mod refuting;
mod rules;
mod shown;
mod walk;

pub use answer::{CheckAnswer, Reason};
pub use checking::check;
pub use shown::{Shown, goes_by_form};
