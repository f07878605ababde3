//! Certificates: the parts of a query and its decision, written down so that they can be checked without trust in how they were
//! found. This is their text: what a line of one says, how it is read and how it is printed.
//!
//! A certificate is a tree of nodes in preorder. A split goes on with each sign of the next pair of the query; at an infeasible
//! node some constraints are named that no integers meet, and at one against a comparison a soft one that is false there; a leaf is a
//! part, and its paths tell all that its constraints imply.
#![tactic(auto)]

mod certificate;
mod error;
mod following;
pub mod laws;
mod line;
mod printing;
mod reading;

pub use certificate::Certificate;
pub use error::CertError;
pub use following::MOST_NODES;
pub use line::{Line, Path};
