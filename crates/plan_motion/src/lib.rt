//! Whether values of a query move on so that its answers must tell how far: whether a query needs many states, by the whole query.
//!
//! With DISTINCT a query that some assignment satisfies needs many states exactly where its values move (`motion_decides` of `sem_split_bounds`). The test reads the
//! closed system of the query: its signs are not split, so it takes a look for each two comparisons between streams.
#![tactic(auto)]

mod moving;

pub use moving::has_motion;
