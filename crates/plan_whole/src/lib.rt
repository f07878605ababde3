//! The plan of the whole form of a query: which links remain, and what is kept of each stream.
//!
//! `ClosedSystem` answers what the comparisons and domains of a query bound, by one table of the least bounds, which whoever closes the system hands over
//! (`closed_at`); the signs of some pairs may stand before the comparisons, and the plan is then that of the query with them. Everything else asks it:
//! whether columns are of one class, which comparisons between streams the others imply (`links_of`), what values of a class are kept
//! apart (`kept_range`), which class of a stream is its extreme (`kind_of`), and which are its dims (`stream_of`). `keeps_of` puts them
//! together. What these mean stands in the definitions of `sem_whole`.
#![tactic(auto)]

mod classes;
mod closed;
mod ends;
mod extreme;
mod kept;
mod links;
mod places;
mod plan;
mod streams;

pub use classes::{has_read, is_left_alone, is_right_alone, name_of};
pub use closed::{ClosedSystem, Ends, closed_at, of_comparison, of_sign, system_constraints};
pub use extreme::{KeptClass, extreme_of, is_one_way, kind_of};
pub use kept::{is_class_of_one, is_kept_as_it_is, is_side_of, kept_range};
pub use links::{ColumnBound, ColumnLink, follows_by_ranges, links_of};
pub use plan::{WholeKeeps, keeps_of};
pub use streams::{KeptStream, stream_of};
