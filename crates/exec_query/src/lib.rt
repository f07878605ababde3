//! One live query, exact for good: rows go in, and the answers that each adds wait to be written.
//!
//! An executor keeps no row. It has the query, its plan, an extent of cells, and one table of answers for all parts. An index
//! leads a row to the parts that may admit it. Where a part admits the row, what a walk over the cells of the other streams finds comes to wait in the table, and then the row's own cell
//! takes the row. With DISTINCT the table keeps every tuple that was ever answered, and a tuple waits only when it is new; a row
//! that leaves its cell as it is is answered nothing new, and passes over the part, as long as no cell was loaded, or each was looked at since,
//! some with each row; nor is there a walk where the row alone tells the one tuple that a part can answer, and it is old. Without DISTINCT the table is emptied with each row. A filter has no cells. Where cells are shared, several parts have one box of cells, and the first of them takes a row into it.
//!
//! A clause says what a row does for any cells, and then that an executor which stands for a history answers a row with the
//! new answers of the query, and then stands for the history with that row; so it does for a base and the rows since. A row takes no
//! memory.
//!
//! An executor tells what it keeps: how many rows were given, its cells, and its printed tuples. A fresh one is told the same, one number
//! at a time, each of which is taken or refused; then it goes on as the other would. This takes no memory either.
#![tactic(auto)]

mod access;
mod executor;
mod filter;
pub mod laws;
mod output;
mod part;
mod route;
mod two_cells;

pub use executor::{Executor, RowHint};
