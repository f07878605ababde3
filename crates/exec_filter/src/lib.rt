//! What filters ask of a row, and what every query asks of one before anything else.
//!
//! A prefilter refuses a row outside the ranges that its columns have over all parts of a query. A filter that ranges and few comparisons
//! tell is told apart when it is created. Of each query there are the boxes that its rows lie in.
#![tactic(auto)]

mod evaluation;
mod interval;
mod passing;
mod plain_filter;
mod prefilter;

pub use evaluation::{filter_all_meet, filter_project};
pub use plain_filter::{PlainFilter, plain_filter_of};
pub use prefilter::{Prefilter, prefilter_of, stream_of};
