//! The split parts of a compact query: the signs that its satisfying assignments give to its split pairs.
//!
//! `form_fronts` lists them breadth first. A front is a list of signs of the first pairs that some solution of the query's comparisons
//! but `<>`, and of its domains, has at once; the distances of these and of the signs tell that. For each pair in turn each front is
//! given the signs less, equal and greater, in this order, so fronts stay ascending; a pair of a `<>` is not given equal. The pairs of `<>`
//! come first, and there are at most eight of them, so at most 256 fronts. From then on each front begins a part, and the search ends where
//! there are more than 4,096.
//!
//! A front keeps its distances, and the closed system of a part is read off them (`closed_front`). It takes about 1.5 KiB. Two lists are held
//! at once, each of at most 4,099 fronts.
#![tactic(auto)]

mod closing;
mod error;
mod front;
mod fronts;
pub mod laws;
mod parts;

pub use closing::{closed_front, closed_query};
pub use error::PartsError;
pub use front::Front;
pub use parts::form_fronts;
