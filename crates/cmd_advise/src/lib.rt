//! The command `advise`.
//!
//! It reads a script to its end, looks at each line behind those before it, and takes no row into any query. Of each line that is not plainly fine
//! it writes what is wrong, or what would mend or better its query, and at the end one line with what all lines came to. It writes nothing
//! before all lines are read.
#![tactic(auto)]

mod changes;
mod faults;
mod parts;
mod queries;
mod report;
mod state;
mod taking;

pub use queries::AdvisedQuery;
pub use report::advise_script;
