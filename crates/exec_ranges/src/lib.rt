//! What a row and the cells before it leave at one place of a walk over cells.
//!
//! A dim that a link says equals a column of the arriving row or of an earlier stream has one value, or none where that lies outside its
//! range; a dim that stands in an inequality with such a column has the values on its side. Where the cells to try stand equally far apart,
//! their numbers are told as a line. What links leave is listed with the part as far as it is the same for all rows, so that mostly no link is
//! looked at. All stands in fixed arrays, and takes no memory.
#![tactic(auto)]

mod binding;
mod combination;
mod fixed;
mod lines;
mod lists;
mod narrow;
mod part;
mod values;

pub use binding::Binding;
pub use combination::{dim_size, values_into, values_of};
pub use fixed::{fixed_dims, pinned_dims, single_dims};
pub use lines::{is_empty, line_of, offset_of};
pub use lists::{Counts, Dims, Values};
pub use narrow::{above, below, narrowed_dims};
pub use part::RowAt;
pub use values::{rows_in, value_in};
