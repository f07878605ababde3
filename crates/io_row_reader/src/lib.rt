//! Rows as they mostly come, read straight from text: the name of a stream, and integers behind commas, without a blank, each in the domain
//! of its column.
//!
//! `read_row_ahead` reads the first line of a text, before its LF is looked for. Where the stream is found first, by `stream_ahead`,
//! `read_row_at` reads what stands behind its name, and `counted_len` passes over it, where nobody wants the values.
//! What they do not take is no error, but left to be read as a line in general.
#![tactic(auto)]

mod counted_row;
mod indexed_catalog;
mod lanes;
mod noted_stream;
mod open_streams;
mod orders;
mod pairs;
mod row_ahead;
mod starts;

pub use counted_row::counted_len;
pub use indexed_catalog::IndexedCatalog;
pub use open_streams::OpenStreams;
pub use row_ahead::{read_row_ahead, read_row_at};
