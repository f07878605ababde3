//! The split pairs of a compact query.
//!
//! A compact query whose whole form does not fit is cut into parts by the signs of its split pairs. These are the sides of each `<>`, and
//! each attribute that lacks an end with its outer integers and with the later attributes of its stream and group. An attribute lacks an
//! end where it has no domain, and comparisons with integers do not bound it on both sides. An outer integer of a column is one beyond which
//! no comparison with an integer, and no domain, of the group of the column tells two values apart. The text of the query alone gives all
//! of them: no closure is asked.
#![tactic(auto)]

mod columns;
mod ends;
mod groups;
mod integers;
pub mod laws;
mod once;
mod pairs;
mod unlike;

pub use pairs::form_pairs;
pub use unlike::{is_unlike, unlike_pairs};
