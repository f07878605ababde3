//! The lines of the text that `advise` writes on a query.
//!
//! Each is written from what it tells, by the names of a catalog: the query of a line and what is said of it, numbers, a comparison or another change
//! with the numbers of the query that has it, sets of columns, and the ranges of columns. What a query comes to, and which lines are due, is decided above.
#![tactic(auto)]

mod items;
mod lines;
mod names;
mod templates;

pub use items::{Remedy, write_change, write_comparison, write_element, write_ranges, write_set};
pub use lines::{
    write_above, write_if, write_kept, write_numbers, write_part, write_pool, write_query_line,
    write_violation,
};
pub use names::{Named, Names, names_of, stream_at};
