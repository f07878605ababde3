//! The catalog of streams, and the reading of rows.
//!
//! At most 16 streams, each with a name and 1 to 8 columns, in the order in which they were added. The place of a stream in
//! this order, from 0, is its number. A column may have a domain, and a row has values in the domains. A row line is read for the
//! stream that its first word names.
#![tactic(auto)]

mod catalog;
mod column;
mod columns;
mod entries;
mod field;
mod row_error;
mod row_line;
mod stream_error;

pub use catalog::Catalog;
pub use column::ColumnDef;
pub use columns::{Columns, all_differ};
pub use row_error::RowError;
pub use row_line::is_row_line;
pub use stream_error::StreamError;
