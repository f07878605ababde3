//! The cells of one part of a query: which rows the part admits, the cell that a row falls into, and what a row changes.
//!
//! What a part is asked of every row is worked out once: the dim of each column's class, the signs that do not follow from the ranges, the
//! dims and boxes, and what the links with known columns leave at each place. One pass over a row tells whether the part admits it, and the
//! number of its cell. A row takes no memory.
#![tactic(auto)]

mod accesses;
mod admission;
mod axes;
mod cells;
mod classes;
mod join_lookup;
mod key_columns;
mod known;
pub mod laws;
mod own;
mod prepared;

pub use accesses::{PlaceAccess, is_scan, may_look_up};
pub use admission::{placement_by_ranges, stream_at};
pub use axes::{BoxLayout, Placement};
pub use cells::offset;
pub use join_lookup::JoinLookup;
pub use key_columns::{KeyColumn, LookupKey};
pub use known::{binding_column, is_known};
pub use own::{Admitted, OwnCell, own_cell, put_own};
pub use prepared::{Prepared, class_of, meets_local, prepare};
