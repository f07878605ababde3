//! The index that leads a row to the parts of a plan that may admit it.
//!
//! A row is led by its signs to a bucket, a chain of parts. A pair of elements is tested where every part shows one sign at it. The signs of at most 20
//! pairs are one number, the code of a part, and a row that has another is not admitted. What a part asks beside its code and the ranges of its dims is
//! listed. A row passes over parts whose cells it leaves as they are, where it is known that such a row is answered nothing new.
#![tactic(auto)]

mod left;
mod owners;
mod part_entry;
mod part_index;
mod prepared;
mod remaining;
mod shift;
mod simple_box;
mod span;
mod tests;

pub use left::{Reached, reach};
pub use part_index::{IndexHit, Led, PartIndex};
pub use prepared::{PreparedPlan, prepare_all};
pub use shift::CellAt;
