//! Statements as they are printed, and the laws of statements and their texts.
//!
//! A statement has a printed form, which is read as this statement, and a query a short form besides, which is no longer than any line
//! that is read as the query. So a query that a line created can be written out again within the length of a line.
#![tactic(auto)]

pub mod laws;
mod names;
mod naming;
mod pieces;
mod printing;
mod shortening;

pub use names::column_named;
pub use naming::{print_query, put_create_line};
pub use printing::{op_text, print};
