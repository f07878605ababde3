//! The whole form of a query: its one part with all that this keeps and asks, or the first condition that it breaks.
//!
//! `plan_whole` tells the links and what is kept of each stream. Here stand what the rows of each stream are asked (`conditions_of`),
//! whether all kept ranges have both ends and else which condition is broken where (`first_break`), and how many cells, answers
//! and combinations of cells there are. `whole_over` puts them together.
#![tactic(auto)]

mod breaking;
mod conditions;
pub mod laws;
mod numbers;
mod part;
mod selected;
mod sides;
mod sizes;
mod whole;

pub use breaking::first_break;
pub use conditions::conditions_of;
pub use numbers::{PartNumbers, numbers_of};
pub use part::WholeStream;
pub use selected::selected_ranges;
pub use sizes::box_size;
pub use whole::{Whole, WholePart, whole_over};
