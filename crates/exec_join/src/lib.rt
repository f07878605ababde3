//! The probe: which combinations of cells of the other streams answer a row that arrives.
//!
//! It walks the other streams in FROM order, and in each only the values that the links leave: a dim that a link says
//! equals a column of the arriving row or of an earlier stream has one value, or none where that lies outside its range; a
//! dim that stands in an inequality with such a column has the values on its side. Where the cells to try stand equally far
//! apart, empty ones are passed by their numbers alone. It leaves a branch at the first empty cell. What the links leave at a
//! place is listed with the part as far as it is the same for all rows, so that mostly no link is looked at; and where one cell
//! is left at the first place, or some side by side, it is seen before a walk begins whether they are empty;
//! where they stand equally far apart the walk goes on from the first that is not. With DISTINCT, combinations that are known to give
//! the tuple that was found last are passed. Over two streams, where it is listed how columns of the row tell the one cell that can answer
//! with it, one look-up takes the place of the walk. It holds fixed arrays and takes no memory.
#![tactic(auto)]

mod along;
mod beside;
mod join;
mod links;
mod nothing;
mod probe;
mod repeats;
mod scratch;
mod stack;

pub use along::{Along, is_nothing};
pub use join::{FirstLook, first_look};
pub use nothing::look_before_walk;
pub use probe::Probe;
pub use scratch::{ProbeScratch, Scratch};
