//! What holds in a part of a query, as a plan needs it: the least and the greatest value of each bounded attribute, the
//! classes of attributes that are equal, the links between streams, and the references.
//!
//! All is read from the distances of the part; `bounds_of` gives its bounds to those who ask for chains and solutions. A link stands for what the signs of the part do not say by
//! themselves: an equality between streams, or an inequality between streams that no other element implies.
#![tactic(auto)]

mod classes;
mod known;
mod links;
mod order;
mod placed;
mod range;
mod reading;
mod redundant;
mod types;

pub use known::{Basis, PartDistances, bounds_of};
pub use range::Range;
pub use reading::{has_left, has_right, refs};
pub use types::Refs;
