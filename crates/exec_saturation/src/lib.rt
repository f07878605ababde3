//! Whether a cell of a part is saturated: with DISTINCT, whether the table has each tuple that the cell, read as a row, is answered beside
//! the cells of the other streams.
//!
//! A cell that is not empty is read as a row: each column has the value of the dim of its class, or the extreme that the cell keeps. A walk
//! finds what that row is answered, and ends at the first tuple that the table has not. It takes no memory.
//!
//! Of which cells it is known that they are saturated is told by a cursor: after cells were loaded it goes on over them, one after the other,
//! and each that it passes is saturated.
#![tactic(auto)]

mod cell_row;
mod cursor;
mod looking;
mod planned;
mod saturated;
mod saturation;

pub use cell_row::SeenCell;
pub use looking::look_beside_row;
pub use planned::PlannedQuery;
pub use saturated::is_saturated;
pub use saturation::{Cursor, Saturation};
